ghost use Rattle.std.specs.Prelude.{◌≡◌, IfSome, Some};
ghost use Rattle.nbd_wire.specs.Requests.{RequestHeadOf, request_at, simple_reply_bytes};

use crate::fields::join;
use byte_fields::FieldReader;

const REQUEST_MAGIC: u32 = 0x2560_9513;

const SIMPLE_REPLY_MAGIC: u32 = 0x6744_6698;

/// A request but for its data. Offset and length are in bytes.
#[derive(Clone, Copy, Debug, PartialEq, Eq)]
pub struct Request {
    pub flags: u16,
    pub command: u16,
    pub cookie: u64,
    pub offset: u64,
    pub length: u32,
}

/// None where the bytes begin with another magic number.
pub fn decode_request(bytes: &[u8; 28]) -> Option<Request>
    ensures reads { result ≡ request_at bytes.now }
    ensures found { IfSome result (RequestHeadOf bytes.now) }
    ensures only { (request : Request) → RequestHeadOf bytes.now request → result ≡ Some request }
{
    let mut reader = FieldReader::new(bytes);
    if reader.take_u32_be() != REQUEST_MAGIC {
        return None;
    }
    let flags = reader.take_u16_be();
    let command = reader.take_u16_be();
    let cookie = reader.take_u64_be();
    let offset = reader.take_u64_be();
    let length = reader.take_u32_be();
    Some(Request {
        flags,
        command,
        cookie,
        offset,
        length,
    })
}

/// The head of a reply to a request. The data of a READ follows where the error is 0.
#[tactic(auto, unfolding(crate::specs::Requests::simple_reply_bytes))]
pub fn simple_reply(error: u32, cookie: u64) -> [u8; 16]
    ensures { result ≡ simple_reply_bytes error cookie }
{
    let front: [u8; 8] = join(SIMPLE_REPLY_MAGIC.to_be_bytes(), error.to_be_bytes());
    join(front, cookie.to_be_bytes())
}
