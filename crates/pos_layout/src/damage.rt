//! What is wrong with a plot file.

/// The part of the header that a test found wrong.
#[derive(Clone, Copy, Debug, PartialEq, Eq)]
pub enum HeaderField {
    Name,
    Size,
    Zeros,
    Memo,
    Counts,
}

/// What a test found wrong with a plot file. Tables count from 1 to 7, parks and places in a table from 0.
#[derive(Clone, Copy, Debug, PartialEq, Eq)]
pub enum Damage {
    /// The file has so many bytes and this gate, and is not an open plot file.
    NotOpen { length: u64, gate: u8 },
    Header { field: HeaderField },
    /// The length in the header is not the length of the file.
    Length { said: u64, found: u64 },
    /// A directory does not lie where it has to, or says of a park what cannot be.
    Directory { table: u8, park: u64 },
    /// The bytes of a park are not those of which the directory has the digest.
    Digest { table: u8, park: u64 },
    /// The bytes of a park are no park of its count.
    Form { table: u8, park: u64 },
    /// A number points outside the table before.
    Pointer { table: u8, at: u64 },
    /// A number is not above the one before it. Only a conversion of the file finds this.
    Order { table: u8, at: u64 },
    /// The tuple at a place of table 7 is no proof.
    NotAProof { at: u64 },
}
