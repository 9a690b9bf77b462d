// The tables of an id by plain loops over all pairs of entries. An entry stands with the values that it is made of.
ghost use Rattle.std.specs.Prelude.{◌≡◌, ◌<◌, ◌≤◌};
ghost use Rattle.pos_tuple.specs.Node.{metadata_units};

use pos_tuple::{Entry, Id, Size, first, fx, matches};
use std::alloc::Global;
use std::test::Fail;

// The values that an entry is made of, in their order, and zeros behind them.
pub type Values = [u64; 64];

// An entry, and the values that it is made of.
#[derive(Clone, Copy)]
pub struct Row {
    pub entry: Entry,
    pub values: Values,
}

// How many times k bits of metadata an entry of a table has that is not the last.
fn units_of(t: u8) -> u32
    requires first_table { 1 ≤ t }
    requires last_table { t ≤ 6 }
    ensures value { result ≡ metadata_units t }
    ensures at_most { result ≤ 4 }
{
    match t {
        1 => 1,
        2 => 2,
        3 => 4,
        4 => 4,
        5 => 3,
        _ => 2,
    }
}

// How many values an entry of a level is made of.
pub fn width_of(level: u8) -> usize
    ensures at_most { result ≤ 32 }
{
    match level {
        0 => 1,
        1 => 2,
        2 => 4,
        3 => 8,
        4 => 16,
        _ => 32,
    }
}

// The values of the left entry, and behind them those of the right one, so many of each.
pub fn joined_values(left: &Values, right: &Values, width: usize) -> Values
    requires { width ≤ 32 }
{
    let mut values = [0u64; 64];
    for i in 0..64usize {
        if i < width {
            values[i] = left[i];
        } else if i < 2 * width {
            values[i] = right[i - width];
        }
    }
    values
}

// The entry of table t for two entries of the table before that match.
fn joined(size: Size, t: u8, left: &Entry, right: &Entry) -> Option<Entry> {
    if !matches(left.y, right.y) || t < 2 || 7 < t {
        return None;
    }
    let limit = 1u64 << (size.k() + 6);
    let meta = size.k() * units_of(t - 1);
    let fits = left.y < limit
        && right.y < limit
        && left.meta.len() == meta
        && right.meta.len() == meta;
    if fits {
        Some(fx(size, t, left, right))
    } else {
        None
    }
}

// The entries of all values.
pub fn first_rows(alloc: Global, id: &Id, size: Size) -> Result<Vec<Row>, Fail> {
    let mut rows = Vec::new(alloc);
    for x in 0..1u64 << size.k() {
        let mut values = [0u64; 64];
        values[0] = x;
        rows.push(Row {
            entry: first(id, size, x),
            values,
        })?;
    }
    Ok(rows)
}

// The entries of all pairs of entries of a level that match.
pub fn next_rows(alloc: Global, size: Size, level: u8, below: &[Row]) -> Result<Vec<Row>, Fail>
    requires { level < 6 }
{
    let width = width_of(level);
    let mut rows = Vec::new(alloc);
    for left in below {
        for right in below {
            if let Some(entry) = joined(size, level + 2, &left.entry, &right.entry) {
                rows.push(Row {
                    entry,
                    values: joined_values(&left.values, &right.values, width),
                })?;
            }
        }
    }
    Ok(rows)
}
