ghost use Rattle.std.specs.Prelude.{◌≡◌, ◌^◌, ◌≤◌, ℕ, List, IfSome, Some};
ghost use Rattle.std.specs.Option.{option_copied};
ghost use Rattle.nbd_wire.specs.Infos.{InfoOf, info_name, info_export_bytes, info_block_size_bytes};

use crate::fields::join;
use byte_fields::FieldReader;

/// The name in the data of INFO or GO. None where the lengths do not add up.
pub fn decode_info(bytes: &[u8]) -> Option<&[u8]>
    ensures reads { option_copied result ≡ info_name bytes.now }
    ensures found { IfSome result (λ name. InfoOf bytes.now name.now) }
    ensures only { (name : List ℕ) → InfoOf bytes.now name → option_copied result ≡ Some name }
{
    if bytes.len() < 6 {
        return None;
    }
    let mut reader = FieldReader::new(bytes);
    let len = reader.take_u32_be() as usize;
    if bytes.len() - 6 < len {
        return None;
    }
    let name = reader.take_slice(len);
    let count = usize::from(reader.take_u16_be());
    if reader.rest().len() != 2 * count {
        return None;
    }
    Some(name)
}

/// The data of INFO export: the size of the export and its flags.
#[tactic(auto, unfolding(crate::specs::Infos::info_export_bytes))]
pub fn info_export(sectors: u64, flags: u16) -> [u8; 12]
    requires { sectors ≤ 2 ^ 31 }
    ensures { result ≡ info_export_bytes sectors flags }
{
    let front: [u8; 10] = join(0u16.to_be_bytes(), (sectors * 512).to_be_bytes());
    join(front, flags.to_be_bytes())
}

/// The data of INFO block size: 512, 4,096 and 33,554,432 bytes.
#[tactic(auto, unfolding(crate::specs::Infos::info_block_size_bytes))]
pub fn info_block_size() -> [u8; 14]
    ensures { result ≡ info_block_size_bytes }
{
    let least: [u8; 6] = join(3u16.to_be_bytes(), 512u32.to_be_bytes());
    let preferred: [u8; 10] = join(least, 4096u32.to_be_bytes());
    join(preferred, 33_554_432u32.to_be_bytes())
}
