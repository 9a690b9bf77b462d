// A proof found by plain loops over pairs: the tables of an id at k = 12, and of its tuples with an entry in table 7 the
// one that is first in plot order.
ghost use Rattle.std.specs.Prelude.{◌≡◌, ◌≤◌};
ghost use Rattle.pos_tuple.specs.Node.{metadata_units};

use pos_order::{below, to_plot_order};
use pos_tuple::{Entry, Id, Size, first, fx, matches};
use std::alloc::Global;
use std::test::Fail;

// A place of a table: the two places below that it is made of, and its entry. In table 1 the left one is the value.
#[derive(Clone, Copy)]
struct Row {
    left: usize,
    right: usize,
    entry: Entry,
}

// A tuple with an entry in table 7, and its plot order.
#[derive(Clone, Copy)]
pub struct Found {
    pub values: [u64; 64],
    pub y: u64,
    ordered: [u64; 64],
}

// How many times k bits of metadata an entry of a table has that is not the last.
fn units_of(t: u8) -> u32
    requires first_table { 1 ≤ t }
    requires last_table { t ≤ 6 }
    ensures value { result ≡ metadata_units t }
    ensures at_most { result ≤ 4 }
{
    match t {
        1 => 1,
        2 => 2,
        3 => 4,
        4 => 4,
        5 => 3,
        _ => 2,
    }
}

// The entry of table t for two entries of the table before that match.
fn joined(size: Size, t: u8, left: &Entry, right: &Entry) -> Option<Entry> {
    if !matches(left.y, right.y) || t < 2 || 7 < t {
        return None;
    }
    let limit = 1u64 << (size.k() + 6);
    let meta = size.k() * units_of(t - 1);
    let fits = left.y < limit
        && right.y < limit
        && left.meta.len() == meta
        && right.meta.len() == meta;
    if fits {
        Some(fx(size, t, left, right))
    } else {
        None
    }
}

// The entries of all values.
fn first_table(alloc: Global, id: &Id, size: Size) -> Result<Vec<Row>, Fail> {
    let mut rows = Vec::new(alloc);
    for x in 0..1u64 << size.k() {
        rows.push(Row {
            left: x as usize,
            right: 0,
            entry: first(id, size, x),
        })?;
    }
    Ok(rows)
}

// The entries of all pairs that match.
fn next_table(alloc: Global, size: Size, t: u8, below: &[Row]) -> Result<Vec<Row>, Fail> {
    let mut rows = Vec::new(alloc);
    for (i, left) in below.iter().enumerate() {
        for (j, right) in below.iter().enumerate() {
            if let Some(entry) = joined(size, t, &left.entry, &right.entry) {
                rows.push(Row {
                    left: i,
                    right: j,
                    entry,
                })?;
            }
        }
    }
    Ok(rows)
}

// The seven tables.
fn tables_of(alloc: Global, id: &Id, size: Size) -> Result<Vec<Vec<Row>>, Fail> {
    let mut tables = Vec::new(alloc);
    let mut below = first_table(alloc, id, size)?;
    for t in 2..8u8 {
        let rows = next_table(alloc, size, t, &below)?;
        tables.push(below)?;
        below = rows;
    }
    tables.push(below)?;
    Ok(tables)
}

// The 64 values of a place of table 7: each place is replaced by the two below it, table by table.
fn values_of(alloc: Global, tables: &[Vec<Row>], place: usize) -> Result<[u64; 64], Fail> {
    let mut places = vec![in alloc; place]?;
    for rows in tables.iter().rev() {
        let mut lower = Vec::new(alloc);
        for place in places.iter() {
            let row = rows.get(*place).ok_or("a place of the table below")?;
            lower.push(row.left)?;
            lower.push(row.right)?;
        }
        places = lower;
    }
    // In table 1 the left place is the value, and the right one is nothing.
    let mut values = [0u64; 64];
    for (i, place) in places.iter().enumerate() {
        if i % 2 == 0 && i / 2 < 64 {
            values[i / 2] = *place as u64;
        }
    }
    Ok(values)
}

// The first tuple in plot order that has an entry in table 7.
pub fn first_found(alloc: Global, id: &Id) -> Result<Option<Found>, Fail> {
    let tables = tables_of(alloc, id, Size::of(12))?;
    let mut best: Option<Found> = None;
    let last = tables.last().ok_or("there are seven tables")?;
    for (place, row) in last.iter().enumerate() {
        let values = values_of(alloc, &tables, place)?;
        let mut ordered = values;
        to_plot_order(&mut ordered);
        let found = Found {
            values,
            y: row.entry.y,
            ordered,
        };
        if is_first(&best, &found) {
            best = Some(found);
        }
    }
    Ok(best)
}

// Whether a tuple comes before the best so far in plot order.
fn is_first(best: &Option<Found>, found: &Found) -> bool {
    match best {
        Some(other) => below(&found.ordered, &other.ordered),
        None => true,
    }
}
