// Table 1.
ghost use Rattle.std.specs.Prelude.{◌≡◌, ◌^◌, OnOk};
ghost use Rattle.pos_forward.specs.Tables.{AreFirstRows, AreValueRows};

use crate::push;
use pos_bits::Memory;
use pos_record::First;
use pos_tuple::{Id, Size, f1_in_order, stream_words};

/// The entries of table 1, those of all values, ordered by y, in place of what `rows` held. The only error is want of
/// memory. Source of the rule: the Construction document, "f1".
pub fn first_table(id: &Id, size: Size, rows: &mut Vec<First>) -> Result<(), Memory>
    ensures { OnOk result (AreFirstRows id.now.0 size rows.new.items) }
{
    list_values(id, size, rows)?;
    rows.sort_unstable_by_key(|row: &First| row.y);
    Ok(())
}

// The entries of all values, by value.
fn list_values(id: &Id, size: Size, rows: &mut Vec<First>) -> Result<(), Memory>
    ensures { OnOk result (AreValueRows id.now.0 size (2 ^ size) rows.new.items) }
{
    rows.clear();
    let mut words = stream_words(id);
    for x in 0..value_count(size) {
        let y = f1_in_order(&mut words, size, x);
        push(rows, First { y, x })?;
    }
    Ok(())
}

// How many values there are.
fn value_count(size: Size) -> u64
    ensures { result ≡ 2 ^ size }
{
    1 << size.k()
}
