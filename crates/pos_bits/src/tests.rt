ghost use Rattle.std.specs.Prelude.{◌≡◌, ◌^◌, ◌<◌, ◌≤◌, length};

use crate::{BitReader, BitString, BitWriter};
use std::test::Fail;

fn string_of(value: u128, width: u32) -> BitString
    requires width_fits { width ≤ 128 }
    requires value_fits { value < 2 ^ width }
    ensures { length result ≡ width }
{
    let mut string = BitString::empty();
    string.push(value, width);
    string
}

#[test]
fn five_bits_are_left_aligned_in_their_byte(rt: HostRuntime) {
    let mut block = [7; 64];
    let count = string_of(0b10110, 5).to_block(&mut block);
    assert_eq!(rt; count, 1);
    assert_eq!(rt; block[0], 0xb0);
    assert_eq!(rt; block[1], 0);
}

#[test]
fn the_top_six_bits_of_a_ten_bit_number(rt: HostRuntime) {
    assert_eq!(rt; string_of(16, 10).number(0, 6), 0b000001);
    assert_eq!(rt; string_of(1023, 10).number(0, 6), 0b111111);
}

#[test]
fn a_string_is_joined_and_cut_at_any_place(rt: HostRuntime) {
    let mut string = BitString::from_bytes(
        b"\x01\x23\x45\x67\x89\xab\xcd\xef\x01\x23\x45\x67\x89\xab\xcd",
    );
    assert_eq!(rt; string.len(), 120);
    let part = string.part(4, 76);
    assert_eq!(rt; part.number(0, 76), 0x123456789abcdef0123);
    assert!(rt; !part.is_empty());
    string.join(&part);
    assert_eq!(rt; string.part(120, 76), part);
    assert_eq!(rt; string.number(112, 84), 0xcd123456789abcdef0123);
}

#[test]
fn what_is_written_is_read_again(rt: HostRuntime) -> Result<(), Fail> {
    let mut writer = BitWriter::new(rt.alloc());
    writer.put(0x123456789a, 40)?;
    writer.put_run(70)?;
    writer.put(5, 100)?;
    let bytes = writer.finish();
    assert_eq!(rt; bytes.len(), 27);
    assert_eq!(rt; bytes.as_slice()[4], 0x9a);
    let mut reader = BitReader::new(bytes.as_slice());
    assert_eq!(rt; reader.take(40), Some(0x123456789a));
    assert_eq!(rt; reader.take_run(), Some(70));
    assert_eq!(rt; reader.take(100), Some(5));
    assert_eq!(rt; reader.left(), 5);
    assert_eq!(rt; reader.take(6), None);
    assert_eq!(rt; reader.take(5), Some(0));
    assert_eq!(rt; reader.take_run(), None);
    Ok(())
}

#[test]
fn codes_that_are_written_are_read_again(rt: HostRuntime) -> Result<(), Fail> {
    let mut writer = BitWriter::with_room(rt.alloc(), 8)?;
    writer.put_code(5, 1)?;
    writer.put_code(0, 0)?;
    writer.put_code(2, 0)?;
    writer.put_code(70, 0)?;
    writer.put_code(1 << 40, 36)?;
    writer.put_code(5 << 100, 101)?;
    let bytes = writer.finish();
    assert_eq!(rt; bytes.len(), 30);
    assert_eq!(rt; bytes.as_slice()[0], 0b11010110);
    let mut reader = BitReader::new(bytes.as_slice());
    assert_eq!(rt; reader.take_code(1, 100), Some(5));
    assert_eq!(rt; reader.take_code(0, 0), Some(0));
    assert_eq!(rt; reader.take_code(0, 5), Some(2));
    assert_eq!(rt; reader.take_code(0, 69), None);
    assert_eq!(rt; reader.take_code(0, 70), Some(70));
    assert_eq!(rt; reader.take_code(36, 1 << 41), Some(1 << 40));
    assert_eq!(rt; reader.take_code(101, 1 << 110), Some(5 << 100));
    let left = reader.left();
    assert!(rt; 0 < left && left < 8);
    assert_eq!(rt; reader.take_code(left as u32, 1000), None);
    assert_eq!(rt; reader.take_code(left as u32 - 1, 1000), Some(0));
    assert_eq!(rt; reader.left(), 0);
    assert_eq!(rt; reader.take_code(0, 1000), None);
    Ok(())
}
