// Records one after another in a slice of bytes.
ghost use Rattle.std.specs.Prelude.{◌≡◌, ◌++◌, ◌+◌, ◌*◌, ◌^◌, ◌<◌, drop, length, slice_get, slice_set, take};
ghost use Rattle.pos_bits.specs.Bits.{bits_of};
ghost use Rattle.pos_record.specs.Fields.{IsRecordSize};
ghost use Rattle.pos_record.specs.Packing.{records_of};

use crate::Record;
use pos_bits::write_bits;
use std::marker::PhantomData;

/// The records of a slice of bytes: as many as it has room for, one after another from its first bit. No value of this
/// type is made; it names three functions. No call takes memory.
pub struct Packed<R, const K: u32> {
    _kind: PhantomData<R>,
}

impl<R: Record<K>, const K: u32> Packed<R, K> {
    /// How many records there are.
    pub fn len(bytes: &[u8]) -> u64
        requires size { IsRecordSize K }
        requires few { length bytes.now < 2 ^ 40 }
        ensures { result ≡ length (records_of R.read R.bit_count bytes.now) }
    {
        8 * bytes.len() as u64 / R::width() as u64
    }

    /// Record i.
    pub fn get(bytes: &[u8], i: u64) -> R
        requires size { IsRecordSize K }
        requires few { length bytes.now < 2 ^ 40 }
        requires there { i < length (records_of R.read R.bit_count bytes.now) }
        ensures { slice_get (records_of R.read R.bit_count bytes.now) i ≡ Some result }
    {
        R::take_at(bytes, i * R::width() as u64)
    }

    /// Puts the record at place i. All other bits stay.
    pub fn set(bytes: &mut [u8], i: u64, item: &R)
        requires size { IsRecordSize K }
        requires few { length bytes.old < 2 ^ 40 }
        requires there { i < length (records_of R.read R.bit_count bytes.old) }
        requires fits { R.fits item.now }
        ensures records { records_of R.read R.bit_count bytes.new ≡ slice_set (records_of R.read R.bit_count bytes.old) i item.now }
        ensures bits { bits_of bytes.new
            ≡ take (i * R.bit_count) (bits_of bytes.old) ++ R.code item.now ++ drop (i * R.bit_count + R.bit_count) (bits_of bytes.old) }
        ensures len { length bytes.new ≡ length bytes.old }
    {
        write_bits(bytes, i * R::width() as u64, &item.put());
    }
}
