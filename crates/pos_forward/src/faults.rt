// Why no tables were made.
use pos_edge::WorkFault;

/// Why no tables were made.
#[derive(Clone, Copy, Debug, PartialEq, Eq)]
pub enum ForwardFault {
    /// This table, from 2 to 7, would have more entries than the capacity.
    TableFull { table: u8 },
    /// The work on scratch files ended early.
    Work(WorkFault),
}
