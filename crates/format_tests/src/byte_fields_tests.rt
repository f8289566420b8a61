use crate::expecting::holds;
use byte_fields::*;

const BLOCK: [u8; 32] = [
    0x61, 0x62, 4, 3, 2, 1, 0x0c, 0x0b, 0x0a, 9, 8, 7, 6, 5, 0x0d, 0x0e, 0x0f, 0x10, 0x11, 0x12,
    0x13, 0x14, 0x15, 0x16, 0x17, 0x18, 0x19, 0x1a, 0, 0, 0, 0,
];

fn written() -> [u8; 32] {
    let mut writer: FieldWriter<32> = FieldWriter::new();
    writer.put_bytes(b"ab");
    writer.put_u32_le(0x0102_0304);
    writer.put_u64_le(0x0506_0708_090a_0b0c);
    writer.put_bytes(&[
        0x0d, 0x0e, 0x0f, 0x10, 0x11, 0x12, 0x13, 0x14, 0x15, 0x16, 0x17, 0x18, 0x19, 0x1a,
    ]);
    writer.finish()
}

// Whether the fields of the block are these, and what stands behind them is zeros.
fn is_read() -> bool {
    let mut reader = FieldReader::new(&BLOCK);
    let name = *reader.take_bytes::<2>();
    let little = (reader.take_u32_le(), reader.take_u64_le());
    let big = (
        reader.take_u16_be(),
        reader.take_u32_be(),
        reader.take_u64_be(),
    );
    let zeros = reader.take_slice(3);
    name == *b"ab"
        && little == (0x0102_0304, 0x0506_0708_090a_0b0c)
        && big == (0x0d0e, 0x0f10_1112, 0x1314_1516_1718_191a)
        && zeros == [0, 0, 0].as_slice()
        && reader.rest() == [0].as_slice()
}

#[test]
fn fields_of_a_block(rt: HostRuntime) {
    holds(&rt, written() == BLOCK, "the block");
    holds(&rt, is_read(), "its fields");
}
