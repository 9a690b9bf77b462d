// What an audit found.

/// What an audit found of a file and the plot of its id, size, layout and memo.
#[derive(Clone, Copy, Debug, PartialEq, Eq)]
pub enum Audited {
    /// The file is that plot, and has so many bytes.
    Same {
        length: u64,
    },
    /// They differ first at this byte, counted from 0: the plot has `want` there and the file `found`. None where it has
    /// ended before.
    Differs {
        at: u64,
        want: Option<u8>,
        found: Option<u8>,
    },
}
