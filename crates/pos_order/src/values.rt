// The values of a proof's bytes, and the bytes of its values.
ghost use Rattle.std.specs.Prelude.{◌≡◌, ◌+◌, ◌*◌, ◌^◌, ◌<◌, ◌≤◌, ◌++◌, All, drop, length, take};
ghost use Rattle.pos_order.specs.Values.{WritesValues, value_bytes};

use pos_bits::{BitReader, BitString};
use pos_tuple::Size;

/// The 64 values that the 8k bytes of a proof write, each of k bits.
pub fn proof_values(size: Size, bytes: &[u8]) -> [u64; 64]
    requires { length bytes.now ≡ 8 * size }
    ensures { WritesValues size result bytes.now }
{
    let mut values = [0u64; 64];
    let mut reader = BitReader::new(bytes);
    for i in 0..64 {
        let Some(read) = reader.take(size.k()) else {
            unreachable!()
        };
        values[i] = read as u64;
    }
    values
}

/// Writes the bytes of a proof's 64 values, each of k bits, to the front of `out`, leaves the rest of it, and answers how
/// many bytes they are.
pub fn proof_bytes(size: Size, values: &[u64; 64], out: &mut [u8; 512]) -> usize
    requires { All (λ x. x < 2 ^ size) values.now }
    ensures count { result ≡ 8 * size }
    ensures bytes { take result out.new ≡ value_bytes size values.now }
    ensures rest { drop result out.new ≡ drop result out.old }
{
    let k = size.k() as usize;
    for group in 0..8 {
        let block = group_bytes(size, &values[8 * group..8 * group + 8]);
        put(out, k * group, &block[..k]);
    }
    8 * k
}

// Eight values of k bits are k whole bytes; they stand at the front of the block.
fn group_bytes(size: Size, group: &[u64]) -> [u8; 64]
    requires count { length group.now ≡ 8 }
    requires small { All (λ x. x < 2 ^ size) group.now }
    ensures bytes { take size result ≡ value_bytes size group.now }
    ensures len { length result ≡ 64 }
{
    let mut joined = BitString::empty();
    for value in group {
        joined.push(*value as u128, size.k());
    }
    let mut block = [0u8; 64];
    joined.to_block(&mut block);
    block
}

// Writes a piece over the bytes from this place on.
fn put(bytes: &mut [u8], at: usize, piece: &[u8])
    requires { at + length piece.now ≤ length bytes.old }
    ensures front { take (at + length piece.now) bytes.new ≡ take at bytes.old ++ piece.now }
    ensures rest { drop (at + length piece.now) bytes.new ≡ drop (at + length piece.now) bytes.old }
{
    bytes[at..at + piece.len()].copy_from_slice(piece);
}
