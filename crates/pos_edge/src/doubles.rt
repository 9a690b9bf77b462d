//! The outside in memory, for tests: disks, a sink and a source that tell what they hold, and fail where they are told to.
//! `MemoryDisk` keeps the history of each name, `BlankDisk` names and lengths alone, `MemorySink` the text, `MemorySource`
//! the bytes that are left.

mod blank_disk;
mod history;
mod memory_disk;
mod memory_sink;
mod memory_source;

pub use blank_disk::BlankDisk;
pub use memory_disk::MemoryDisk;
pub use memory_sink::MemorySink;
pub use memory_source::MemorySource;
