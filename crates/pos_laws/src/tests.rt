// The definitions tried at a small size by plain loops. The expected counts are those of an independent program.
ghost use Rattle.std.specs.Prelude.{◌≡◌, ◌≤◌, ◌<◌, ◌≢◌};
ghost use Rattle.pos_tuple.specs.Node.{metadata_units};

use pos_order::{below, to_plot_order};
use pos_points::{from_point, to_point};
use pos_tuple::{Entry, Id, Size, first, fx, matches};
use std::alloc::Global;
use std::test::Fail;

// A place of a level: the two places below that it is made of, and its entry. At level 0 the left one is the value.
#[derive(Clone, Copy)]
struct Row {
    left: usize,
    right: usize,
    entry: Entry,
}

// A tuple, whose values stand at the front, with its entry.
#[derive(Clone, Copy)]
struct Tuple {
    values: [u64; 64],
    entry: Entry,
}

// How many times k bits of metadata an entry of a table has that is not the last.
fn units_of(t: u8) -> u32
    requires first_table { 1 ≤ t }
    requires last_table { t ≤ 6 }
    ensures value { result ≡ metadata_units t }
    ensures at_most { result ≤ 4 }
{
    match t {
        1 => 1,
        2 => 2,
        3 => 4,
        4 => 4,
        5 => 3,
        _ => 2,
    }
}

// The entry of table t for two entries of the table before that match.
fn joined(size: Size, t: u8, left: &Entry, right: &Entry) -> Option<Entry> {
    if !matches(left.y, right.y) || t < 2 || 7 < t {
        return None;
    }
    let limit = 1u64 << (size.k() + 6);
    let meta = size.k() * units_of(t - 1);
    let fits = left.y < limit
        && right.y < limit
        && left.meta.len() == meta
        && right.meta.len() == meta;
    if fits {
        Some(fx(size, t, left, right))
    } else {
        None
    }
}

// The entries of all values, by y.
fn first_table(alloc: Global, id: &Id, size: Size) -> Result<Vec<Row>, Fail> {
    let mut rows = Vec::new(alloc);
    for x in 0..1u64 << size.k() {
        rows.push(Row {
            left: x as usize,
            right: 0,
            entry: first(id, size, x),
        })?;
    }
    rows.sort_by_key(|row| row.entry.y)?;
    Ok(rows)
}

// The entries of all matching pairs of places, by y.
fn next_table(alloc: Global, size: Size, t: u8, below: &[Row]) -> Result<Vec<Row>, Fail> {
    let mut rows = Vec::new(alloc);
    for (i, left) in below.iter().enumerate() {
        for (j, right) in below.iter().enumerate() {
            if let Some(entry) = joined(size, t, &left.entry, &right.entry) {
                rows.push(Row {
                    left: i,
                    right: j,
                    entry,
                })?;
            }
        }
    }
    rows.sort_by_key(|row| row.entry.y)?;
    Ok(rows)
}

// The seven tables, by levels from 0 on.
fn tables_of(alloc: Global, id: &Id, size: Size) -> Result<Vec<Vec<Row>>, Fail> {
    let mut tables = Vec::new(alloc);
    let mut below = first_table(alloc, id, size)?;
    for t in 2..8u8 {
        let rows = next_table(alloc, size, t, &below)?;
        tables.push(below)?;
        below = rows;
    }
    tables.push(below)?;
    Ok(tables)
}

// Which places of a level the marked places of the next one are made of.
fn named(alloc: Global, count: usize, rows: &[Row], marked: &[bool]) -> Result<Vec<bool>, Fail> {
    let mut lower = vec![in alloc; false; count]?;
    for (row, kept) in rows.iter().zip(marked) {
        if *kept {
            for place in [row.left, row.right] {
                *lower
                    .get_mut(place)
                    .ok_or("a pair points into the table below")? = true;
            }
        }
    }
    Ok(lower)
}

// The used places of each level.
fn used_places(alloc: Global, tables: &[Vec<Row>]) -> Result<Vec<Vec<bool>>, Fail> {
    let mut used = Vec::new(alloc);
    let mut marked = vec![in alloc; true; level(tables, 6)?.len()]?;
    for n in (1..7usize).rev() {
        let lower = named(
            alloc,
            level(tables, n - 1)?.len(),
            level(tables, n)?,
            &marked,
        )?;
        used.push(marked)?;
        marked = lower;
    }
    used.push(marked)?;
    used.reverse();
    Ok(used)
}

// The rows of a level.
fn level<T>(tables: &[Vec<T>], n: usize) -> Result<&[T], Fail> {
    let rows = tables.get(n).ok_or("there are seven levels")?;
    Ok(rows.as_slice())
}

// The line point of the new places of a pair.
fn point_of(places: &[u64], row: &Row) -> Result<u128, Fail> {
    let a = *places.get(row.left).ok_or("the left place is there")?;
    let b = *places.get(row.right).ok_or("the right place is there")?;
    if a == b || a >= 1 << 40 || b >= 1 << 40 {
        return Err(Fail::from("the places differ"));
    }
    Ok(to_point(a, b))
}

// The line points of the used places, rising, and for each place of the level its new place.
fn renumbered(
    alloc: Global,
    rows: &[Row],
    used: &[bool],
    places: &[u64],
) -> Result<(Vec<u128>, Vec<u64>), Fail> {
    let mut pointed = Vec::new(alloc);
    for (i, (row, kept)) in rows.iter().zip(used).enumerate() {
        if *kept {
            pointed.push((point_of(places, row)?, i))?;
        }
    }
    pointed.sort_by_key(|entry| entry.0)?;
    let mut points = Vec::new(alloc);
    let mut moved = vec![in alloc; 0u64; rows.len()]?;
    for (new, entry) in pointed.iter().enumerate() {
        points.push(entry.0)?;
        *moved.get_mut(entry.1).ok_or("the place is there")? = new as u64;
    }
    Ok((points, moved))
}

// The seven lists of the plot.
fn plot_of(
    alloc: Global,
    size: Size,
    tables: &[Vec<Row>],
    used: &[Vec<bool>],
) -> Result<Vec<Vec<u128>>, Fail> {
    let mut lists = Vec::new(alloc);
    let mut places = Vec::new(alloc);
    for row in level(tables, 0)? {
        places.push(row.left as u64)?;
    }
    for n in 1..7usize {
        let (points, moved) = renumbered(alloc, level(tables, n)?, level(used, n)?, &places)?;
        lists.push(points)?;
        places = moved;
    }
    let mut last = Vec::new(alloc);
    for (row, place) in level(tables, 6)?.iter().zip(places.iter()) {
        last.push((u128::from(row.entry.y >> 6) << (size.k() + 1)) | u128::from(*place))?;
    }
    last.sort()?;
    lists.push(last)?;
    Ok(lists)
}

// The 64 values of a place of table 6.
fn tree(alloc: Global, lists: &[Vec<u128>], place: u64) -> Result<[u64; 64], Fail> {
    let mut places = vec![in alloc; place; 1]?;
    for n in (0..6usize).rev() {
        let mut lower = Vec::new(alloc);
        for i in places.iter() {
            let point = *level(lists, n)?
                .get(*i as usize)
                .ok_or("the place is there")?;
            if point >= 1 << 124 {
                return Err(Fail::from("a line point has its pair"));
            }
            let (greater, lesser) = from_point(point);
            lower.push(lesser)?;
            lower.push(greater)?;
        }
        places = lower;
    }
    let mut values = [0; 64];
    for (value, x) in values.iter_mut().zip(places.iter()) {
        *value = *x;
    }
    Ok(values)
}

// So many values of the left tuple, and then those of the right one.
fn side_by_side(half: usize, left: &[u64; 64], right: &[u64; 64]) -> [u64; 64] {
    let mut values = *left;
    for i in half..64 {
        values[i] = right[i - half];
    }
    values
}

// The tuples that have an entry in table t, from those of the table before.
fn next_tuples(alloc: Global, size: Size, t: u8, below: &[Tuple]) -> Result<Vec<Tuple>, Fail>
    requires first_table { 2 ≤ t }
    requires last_table { t ≤ 7 }
{
    let half = 1usize << (t - 2);
    let mut tuples = Vec::new(alloc);
    for left in below {
        for right in below {
            if let Some(entry) = joined(size, t, &left.entry, &right.entry) {
                let values = side_by_side(half, &left.values, &right.values);
                tuples.push(Tuple { values, entry })?;
            }
        }
    }
    Ok(tuples)
}

// The f7 and the plot order of each tuple of 64 values that has an entry in table 7.
fn proofs_of(alloc: Global, id: &Id, size: Size) -> Result<Vec<(u128, [u64; 64])>, Fail> {
    let mut tuples = Vec::new(alloc);
    for x in 0..1u64 << size.k() {
        let mut values = [0; 64];
        values[0] = x;
        tuples.push(Tuple {
            values,
            entry: first(id, size, x),
        })?;
    }
    for t in 2..8u8 {
        tuples = next_tuples(alloc, size, t, &tuples)?;
    }
    let mut proofs = Vec::new(alloc);
    for tuple in tuples.iter() {
        let mut values = tuple.values;
        to_plot_order(&mut values);
        proofs.push((u128::from(tuple.entry.y >> 6), values))?;
    }
    Ok(proofs)
}

// How many there are in each list.
fn counts<T>(lists: &[Vec<T>]) -> [usize; 7] {
    let mut counts = [0; 7];
    for (count, list) in counts.iter_mut().zip(lists) {
        *count = list.len();
    }
    counts
}

#[test]
fn the_listing_of_renumbered_tables_is_the_list_of_the_proofs(rt: HostRuntime) -> Result<(), Fail> {
    let alloc = rt.alloc();
    let id = Id([0; 32]);
    let size = Size::new(12).ok_or("12 is a size")?;
    let tables = tables_of(alloc, &id, size)?;
    assert_eq!(rt; counts(&tables), [4096, 3817, 3422, 2689, 1691, 667, 88]);
    let used = used_places(alloc, &tables)?;
    let lists = plot_of(alloc, size, &tables, &used)?;
    assert_eq!(rt; counts(&lists), [1434, 903, 523, 289, 157, 88, 88]);
    let proofs = proofs_of(alloc, &id, size)?;
    assert_eq!(rt; proofs.len(), 88);
    // The listings of all challenges, one after another, are proofs that rise, and there are as many.
    let mut before = [0; 64];
    let mut f7_before = 0;
    for number in level(&lists, 6)? {
        let f7 = number >> 13;
        let listed = tree(alloc, &lists, (number & 0x1fff) as u64)?;
        assert!(rt;
            proofs
                .iter()
                .any(|proof| proof.0 == f7 && proof.1 == listed)
        );
        assert!(rt; f7_before < f7 || f7_before == f7 && below(&before, &listed));
        before = listed;
        f7_before = f7;
    }
    Ok(())
}
