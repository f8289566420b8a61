ghost use Rattle.std.specs.Prelude.{◌≡◌, IfSome, Some};
ghost use Rattle.nbd_wire.specs.Hellos.{HelloOf, hello_at, server_hello};

use crate::fields::join;
use byte_fields::FieldReader;

/// What a client says first.
#[derive(Clone, Copy, Debug, PartialEq, Eq)]
pub struct Hello {
    /// The answer to EXPORT_NAME is to go without its 124 zeros.
    pub no_zeroes: bool,
}

/// The client's word. None where a bit beyond 0 and 1 is set, or bit 0 is not.
pub fn decode_hello(bytes: &[u8; 4]) -> Option<Hello>
    ensures reads { result ≡ hello_at bytes.now }
    ensures found { IfSome result (HelloOf bytes.now) }
    ensures only { (hello : Hello) → HelloOf bytes.now hello → result ≡ Some hello }
{
    let mut reader = FieldReader::new(bytes);
    match reader.take_u32_be() {
        3 => Some(Hello { no_zeroes: true }),
        1 => Some(Hello { no_zeroes: false }),
        _ => None,
    }
}

/// What the server sends first.
#[tactic(auto, unfolding(crate::specs::Hellos::server_hello))]
pub fn hello_bytes() -> [u8; 18]
    ensures { result ≡ server_hello }
{
    let words: [u8; 16] = join(*b"NBDMAGIC", *b"IHAVEOPT");
    join(words, 3u16.to_be_bytes())
}
