// Passes over the pairs of one table: each marks its two places in the table below. Levels count from 0 to 6: level n is
// table n + 1.
ghost use Rattle.std.specs.Prelude.{◌≡◌, ◌+◌, ◌<◌, ℕ, suc, Bool, true, IfErr, OnOk};
ghost use Rattle.pos_lists.specs.TableLists.{TableLists};
ghost use Rattle.pos_marks.specs.Marks.{AreSealed, AreUnsealed, Marked, place_count};
ghost use Rattle.pos_record.specs.Fields.{IsRecordSize};
ghost use Rattle.pos_runs.specs.Runs.{TablesStand, pages_at};
ghost use Rattle.pos_prune.specs.Passes.{HasAsked, HasMarked, IsPassFault, gives, gives_below, is_marked};

use crate::damage::place_damage;
use pos_edge::{Disk, WorkFault};
use pos_marks::Marks;
use pos_runs::Tables;

// Marks the two places of pair i of the level above.
#[inline(always)]
pub(crate) fn mark_pair<D: Disk, const K: u32>(
    tables: &mut Tables<K>,
    level: u8,
    i: u64,
    below: &mut Marks,
    disk: &mut D,
) -> Result<(), WorkFault>
    requires size { IsRecordSize K }
    requires level { level < 6 }
    requires stands { (ts : TableLists) × TablesStand K tables.old ts (D.view disk.old) }
    requires marks { (p : ℕ → Bool) × Marked below.old p (D.view disk.old) }
    requires unsealed { AreUnsealed below.old }
    requires places { place_count below.old ≡ (pages_at tables.old level).count }
    requires there { i < (pages_at tables.old (suc level)).count }
    ensures ok { OnOk result (HasMarked K level i (i + 1) (gives i) tables.old tables.new below.old below.new (D.view disk.old) (D.view disk.new)) }
    ensures fault { IfErr result (λ fault. IsPassFault K level tables.old fault (D.view disk.old) (D.view disk.new)) }
{
    let pair = tables.pair(disk, level + 2, i)?;
    let limit = tables.count(level + 1);
    if let Some(damage) = place_damage(tables.file(level + 2), i, pair, limit) {
        return Err(WorkFault::Scratch(damage));
    }
    below.set(disk, pair.0)?;
    below.set(disk, pair.1)?;
    Ok(())
}

// Marks the places of pair i of the level above if place i is marked there.
#[inline(always)]
pub(crate) fn mark_where_kept<D: Disk, const K: u32>(
    tables: &mut Tables<K>,
    level: u8,
    i: u64,
    above: &mut Marks,
    below: &mut Marks,
    disk: &mut D,
) -> Result<(), WorkFault>
    requires size { IsRecordSize K }
    requires level { level < 6 }
    requires stands { (ts : TableLists) × TablesStand K tables.old ts (D.view disk.old) }
    requires marks { (p : ℕ → Bool) × Marked below.old p (D.view disk.old) }
    requires unsealed { AreUnsealed below.old }
    requires places { place_count below.old ≡ (pages_at tables.old level).count }
    requires there { i < (pages_at tables.old (suc level)).count }
    requires above { (u : ℕ → Bool) × Marked above.old u (D.view disk.old) }
    requires sealed { AreSealed above.old }
    requires above_places { place_count above.old ≡ (pages_at tables.old (suc level)).count }
    ensures ok { OnOk result (HasMarked K level i (i + 1) (is_marked above.old (D.view disk.old)) tables.old tables.new below.old below.new (D.view disk.old) (D.view disk.new)) }
    ensures asked { OnOk result (HasAsked above.old above.new (D.view disk.old) (D.view disk.new)) }
    ensures fault { IfErr result (λ fault. IsPassFault K level tables.old fault (D.view disk.old) (D.view disk.new)) }
{
    if !above.has(disk, i)? {
        return Ok(());
    }
    mark_pair(tables, level, i, below, disk)?;
    Ok(())
}

// Marks the places of all pairs of table 7.
pub(crate) fn mark_all<D: Disk, const K: u32>(
    tables: &mut Tables<K>,
    below: &mut Marks,
    disk: &mut D,
) -> Result<(), WorkFault>
    requires size { IsRecordSize K }
    requires stands { (ts : TableLists) × TablesStand K tables.old ts (D.view disk.old) }
    requires marks { (p : ℕ → Bool) × Marked below.old p (D.view disk.old) }
    requires unsealed { AreUnsealed below.old }
    requires places { place_count below.old ≡ (pages_at tables.old 5).count }
    ensures ok { OnOk result (HasMarked K 5 0 (pages_at tables.old 6).count (gives_below (pages_at tables.old 6).count) tables.old tables.new below.old below.new (D.view disk.old) (D.view disk.new)) }
    ensures fault { IfErr result (λ fault. IsPassFault K 5 tables.old fault (D.view disk.old) (D.view disk.new)) }
{
    for i in 0..tables.count(7) {
        mark_pair(tables, 5, i, below, disk)?;
    }
    Ok(())
}

// Marks the places of the pairs of the level above whose own places are marked there.
pub(crate) fn mark_kept<D: Disk, const K: u32>(
    tables: &mut Tables<K>,
    level: u8,
    above: &mut Marks,
    below: &mut Marks,
    disk: &mut D,
) -> Result<(), WorkFault>
    requires size { IsRecordSize K }
    requires level { level < 6 }
    requires stands { (ts : TableLists) × TablesStand K tables.old ts (D.view disk.old) }
    requires marks { (p : ℕ → Bool) × Marked below.old p (D.view disk.old) }
    requires unsealed { AreUnsealed below.old }
    requires places { place_count below.old ≡ (pages_at tables.old level).count }
    requires above { (u : ℕ → Bool) × Marked above.old u (D.view disk.old) }
    requires sealed { AreSealed above.old }
    requires above_places { place_count above.old ≡ (pages_at tables.old (suc level)).count }
    ensures ok { OnOk result (HasMarked K level 0 (pages_at tables.old (suc level)).count (is_marked above.old (D.view disk.old)) tables.old tables.new below.old below.new (D.view disk.old) (D.view disk.new)) }
    ensures asked { OnOk result (HasAsked above.old above.new (D.view disk.old) (D.view disk.new)) }
    ensures fault { IfErr result (λ fault. IsPassFault K level tables.old fault (D.view disk.old) (D.view disk.new)) }
{
    for i in 0..tables.count(level + 2) {
        mark_where_kept(tables, level, i, above, below, disk)?;
    }
    Ok(())
}
