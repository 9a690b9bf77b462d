//! Why a plot file is not opened, and why nothing is read of it.

use pos_layout::Damage;

/// Why no plot was opened.
#[derive(Clone, Copy, Debug, PartialEq, Eq)]
pub enum OpenRefusal {
    /// No file has the name.
    Absent,
    DiskFailed,
    Damage(Damage),
    Memory,
}

/// Why a call on an open plot answers nothing.
#[derive(Clone, Copy, Debug, PartialEq, Eq)]
pub enum ReadRefusal {
    DiskFailed,
    Damage(Damage),
}
