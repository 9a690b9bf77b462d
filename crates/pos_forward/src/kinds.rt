// What is stored, what the records of a run are made of, and the entries that rows which are read back stand for.
ghost use Rattle.std.specs.Prelude.{◌≡◌, ◌<◌, ◌≤◌, ℕ, List, length, slice_get, Some};
ghost use Rattle.pos_tuple.specs.Node.{IsEntry};
ghost use Rattle.pos_tuple.specs.declared.entry.Entry.{Entry};
ghost use Rattle.pos_record.specs.Fields.{IsRecordSize};
ghost use Rattle.pos_record.specs.Kinds.{metadata_number};
ghost use Rattle.pos_forward.specs.Drafts.{entry_of_number, first_row_entry};
ghost use Rattle.pos_forward.specs.Stored.{first_value, draft_pair_record, draft_number, draft_row};

use crate::{Draft, Drafts, entry_of_parts};
use pos_record::{First, Number, Pair, Record, Row, Value};
use pos_tuple::{Entry, Size};

// A list of what is stored, which is asked for one after another.
pub(crate) trait Rows<X> {
    ghost rows: { Self → List X };

    fn count(&self) -> usize
        ensures { result ≡ length (rows self.now) };

    fn row(&self, i: usize) -> X
        requires { i < length (rows self.now) }
        ensures { slice_get (rows self.now) i ≡ Some result };
}

impl Rows<First> for Vec<First> {
    ghost rows = { λ rows. rows.items };

    #[inline(always)]
    fn count(&self) -> usize {
        self.len()
    }

    #[inline(always)]
    fn row(&self, i: usize) -> First {
        self[i]
    }
}

impl Rows<Draft> for Drafts {
    ghost rows = { λ drafts. drafts };

    #[inline(always)]
    fn count(&self) -> usize {
        self.len()
    }

    #[inline(always)]
    fn row(&self, i: usize) -> Draft {
        self.get(i)
    }
}

// A record that is made of another one.
pub(crate) trait MadeOf<X>: Copy {
    ghost made_of: { X → Self };

    fn made_of(item: &X) -> Self
        ensures { result ≡ made_of item.now };
}

// A kind of rows of a table from 1 to 6, which are read back to make the next table.
pub(crate) trait Stored<const K: u32>: Record<K> {
    ghost table: { ℕ };

    ghost entry: { Self → Entry };

    fn entry(&self, size: Size) -> Entry
        requires size { size ≡ K }
        requires sizes { IsRecordSize K }
        requires first { 1 ≤ table }
        requires sixth { table ≤ 6 }
        requires fits { Self.fits self.now }
        ensures entry { result ≡ entry self.now }
        ensures each { IsEntry K table result };
}

impl MadeOf<First> for Value {
    ghost made_of = { first_value };

    #[inline(always)]
    fn made_of(item: &First) -> Value {
        Value { x: item.x }
    }
}

impl MadeOf<First> for First {
    ghost made_of = { λ row. row };

    #[inline(always)]
    fn made_of(item: &First) -> First {
        *item
    }
}

impl MadeOf<Draft> for Pair {
    ghost made_of = { draft_pair_record };

    #[inline(always)]
    fn made_of(item: &Draft) -> Pair {
        Pair {
            left: item.left,
            right: item.right,
        }
    }
}

impl MadeOf<Draft> for Number {
    ghost made_of = { draft_number };

    #[inline(always)]
    fn made_of(item: &Draft) -> Number {
        Number {
            number: item.y as u128,
        }
    }
}

impl<const T: u32> MadeOf<Draft> for Row<T> {
    ghost made_of = { draft_row T };

    #[inline(always)]
    fn made_of(item: &Draft) -> Row<T> {
        Row {
            y: item.y,
            high: item.high,
            low: item.low,
            left: item.left,
            right: item.right,
        }
    }
}

impl<const K: u32> Stored<K> for First {
    ghost table = { 1 };

    ghost entry = { first_row_entry K };

    #[inline(always)]
    fn entry(&self, size: Size) -> Entry {
        entry_of_parts(size, 1, self.y, 0, self.x as u128)
    }
}

impl<const K: u32, const T: u32> Stored<K> for Row<T> {
    ghost table = { T };

    ghost entry = { λ row. entry_of_number K T row.y (metadata_number row) };

    #[inline(always)]
    fn entry(&self, size: Size) -> Entry {
        entry_of_parts(size, T as u8, self.y, self.high, self.low)
    }
}
