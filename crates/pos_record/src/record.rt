// What a kind of records is.
ghost use Rattle.std.specs.Prelude.{◌≡◌, ℕ, Bool, List, ◌++◌, ◌+◌, ◌*◌, ◌^◌, ◌<◌, ◌≤◌, drop, length, take};
ghost use Rattle.pos_bits.specs.Bits.{bits_of};
ghost use Rattle.pos_record.specs.Fields.{IsRecordSize};

use pos_bits::BitString;

/// A kind of records at size K, from 10 to 50: each record that fits K is written as a string of one width. No call
/// takes memory.
pub trait Record<const K: u32>: Copy {
    /// How many bits a record has.
    ghost bit_count: { ℕ };

    /// The bits of a record.
    ghost code: { Self → List Bool };

    /// The record that bits are read as.
    ghost read: { List Bool → Self };

    /// Each field of the record has at most its width.
    ghost fits: { Self → Type 0 };

    /// How many bits a record has.
    fn width() -> u32
        requires { IsRecordSize K }
        ensures { result ≡ bit_count };

    /// The bits of the record.
    fn put(&self) -> BitString
        requires size { IsRecordSize K }
        requires fits { fits self.now }
        ensures { result ≡ code self.now };

    /// The record of these bits.
    fn take(value: &BitString) -> Self
        requires size { IsRecordSize K }
        requires len { length value.now ≡ bit_count }
        ensures { result ≡ read value.now };

    /// Puts the record behind the first `at` bits. The bits behind it may be anything afterwards.
    fn append_at(&self, bytes: &mut [u8], at: u64)
        requires size { IsRecordSize K }
        requires fits { fits self.now }
        requires few { length bytes.old < 2 ^ 40 }
        requires there { at + bit_count ≤ 8 * length bytes.old }
        ensures bits { take (at + bit_count) (bits_of bytes.new) ≡ take at (bits_of bytes.old) ++ code self.now }
        ensures len { length bytes.new ≡ length bytes.old };

    /// The record whose bits begin at bit `at`.
    fn take_at(bytes: &[u8], at: u64) -> Self
        requires size { IsRecordSize K }
        requires few { length bytes.now < 2 ^ 40 }
        requires there { at + bit_count ≤ 8 * length bytes.now }
        ensures { result ≡ read (take bit_count (drop at (bits_of bytes.now))) };

    /// A record has 1 to 512 bits.
    ghost width_in_range: { IsRecordSize K → (1 ≤ bit_count) × (bit_count ≤ 512) };

    ghost code_length: { (r : Self) → IsRecordSize K → fits r → length (code r) ≡ bit_count };

    /// What is taken fits.
    ghost read_fits: { (s : List Bool) → IsRecordSize K → length s ≡ bit_count → fits (read s) };

    /// What was put is taken again.
    ghost read_code: { (r : Self) → IsRecordSize K → fits r → read (code r) ≡ r };

    /// What was taken is put again.
    ghost code_read: { (s : List Bool) → IsRecordSize K → length s ≡ bit_count → code (read s) ≡ s };
}
