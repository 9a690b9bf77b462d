//! What holds of every kind of records, whatever the code: each law is what a function with an empty body ensures.
ghost use Rattle.std.specs.Prelude.{◌≡◌, Bool, List, ◌≤◌, length};
ghost use Rattle.pos_record.specs.Fields.{IsRecordSize};

use crate::Record;
use std::marker::PhantomData;

/// A record has 1 to 512 bits.
pub fn widths_are_in_range<R: Record<K>, const K: u32>(_kind: PhantomData<R>)
    requires { IsRecordSize K }
    ensures at_least { 1 ≤ R.bit_count }
    ensures at_most { R.bit_count ≤ 512 }
{}

/// What was put is taken again, and has the width of the kind.
pub fn what_was_put_is_taken<R: Record<K>, const K: u32>(_kind: PhantomData<R>)
    requires { IsRecordSize K }
    ensures taken { (r : _) → R.fits r → R.read (R.code r) ≡ r }
    ensures width { (r : _) → R.fits r → length (R.code r) ≡ R.bit_count }
{}

/// What was taken fits the size, and is put again.
pub fn what_was_taken_is_put<R: Record<K>, const K: u32>(_kind: PhantomData<R>)
    requires { IsRecordSize K }
    ensures put { (s : List Bool) → length s ≡ R.bit_count → R.code (R.read s) ≡ s }
    ensures fits { (s : List Bool) → length s ≡ R.bit_count → R.fits (R.read s) }
{}
