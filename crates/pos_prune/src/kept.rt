// The tables of a run with the places that are kept of them.
use pos_marks::Marks;
use pos_runs::Tables;

/// The tables of a run, and of tables 2 to 6 the places that an entry of table 7 reaches. What they stand for is said of
/// them and the disk by `KeptStand`.
#[derive(Drop)]
pub struct Kept<const K: u32> {
    /// The tables.
    pub tables: Tables<K>,
    /// The kept places of table 2.
    pub m2: Marks,
    /// The kept places of table 3.
    pub m3: Marks,
    /// The kept places of table 4.
    pub m4: Marks,
    /// The kept places of table 5.
    pub m5: Marks,
    /// The kept places of table 6.
    pub m6: Marks,
}
