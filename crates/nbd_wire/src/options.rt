ghost use Rattle.std.specs.Prelude.{◌≡◌, ◌^◌, ◌≤◌, IfSome, Some};
ghost use Rattle.nbd_wire.specs.Options.{OptionHeadOf, option_at, option_reply_bytes, name_reply_bytes};

use crate::fields::join;
use byte_fields::FieldReader;

// The text IHAVEOPT.
const OPTION_MAGIC: u64 = 0x4948_4156_454F_5054;

const OPTION_REPLY_MAGIC: u64 = 0x0003_E889_0455_65A9;

/// The head of an option: its number, and how many bytes of data follow.
#[derive(Clone, Copy, Debug, PartialEq, Eq)]
pub struct OptionHead {
    pub option: u32,
    pub length: u32,
}

/// None where the bytes begin with another magic word.
pub fn decode_option(bytes: &[u8; 16]) -> Option<OptionHead>
    ensures reads { result ≡ option_at bytes.now }
    ensures found { IfSome result (OptionHeadOf bytes.now) }
    ensures only { (head : OptionHead) → OptionHeadOf bytes.now head → result ≡ Some head }
{
    let mut reader = FieldReader::new(bytes);
    if reader.take_u64_be() != OPTION_MAGIC {
        return None;
    }
    let option = reader.take_u32_be();
    let length = reader.take_u32_be();
    Some(OptionHead { option, length })
}

/// The head of a reply to an option, with the type of the reply and the length of its data.
#[tactic(auto, unfolding(crate::specs::Options::option_reply_bytes))]
pub fn option_reply(option: u32, reply: u32, length: u32) -> [u8; 20]
    ensures { result ≡ option_reply_bytes option reply length }
{
    let front: [u8; 12] = join(OPTION_REPLY_MAGIC.to_be_bytes(), option.to_be_bytes());
    let types: [u8; 16] = join(front, reply.to_be_bytes());
    join(types, length.to_be_bytes())
}

/// The answer to EXPORT_NAME, but for the zeros behind it: the size of the export and its flags.
#[tactic(auto, unfolding(crate::specs::Options::name_reply_bytes))]
pub fn name_reply(sectors: u64, flags: u16) -> [u8; 10]
    requires { sectors ≤ 2 ^ 31 }
    ensures { result ≡ name_reply_bytes sectors flags }
{
    join((sectors * 512).to_be_bytes(), flags.to_be_bytes())
}
