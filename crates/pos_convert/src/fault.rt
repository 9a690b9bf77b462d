// Why no file was converted.
ghost use Rattle.std.specs.Prelude.{◌≡◌};
ghost use Rattle.pos_convert.specs.Faults.{of_create, of_reading, of_work};

use pos_edge::{CreateFault, WorkFault};
use pos_layout::Damage;
use pos_reader::ReadRefusal;

/// Why no file was converted.
#[derive(Clone, Copy, Debug, PartialEq, Eq)]
pub enum ConvertFault {
    /// The name of the new file is there.
    Exists,
    /// The disk failed.
    DiskFailed,
    /// This is the first damage of the file, by table and place.
    Damage(Damage),
    /// There was not enough memory.
    Memory,
}

impl From<CreateFault> for ConvertFault {
    ghost from_gives = { λ fault gives. gives ≡ of_create fault };

    fn from(fault: CreateFault) -> ConvertFault {
        match fault {
            CreateFault::Exists => ConvertFault::Exists,
            CreateFault::Failed => ConvertFault::DiskFailed,
            CreateFault::Memory => ConvertFault::Memory,
        }
    }
}

// A writer of a file answers no other faults than the disk's and want of memory.
impl From<WorkFault> for ConvertFault {
    ghost from_gives = { λ fault gives. gives ≡ of_work fault };

    fn from(fault: WorkFault) -> ConvertFault {
        match fault {
            WorkFault::DiskFailed => ConvertFault::DiskFailed,
            WorkFault::Exists { .. } | WorkFault::Scratch(_) | WorkFault::Memory => {
                ConvertFault::Memory
            }
        }
    }
}

impl From<ReadRefusal> for ConvertFault {
    ghost from_gives = { λ refusal gives. gives ≡ of_reading refusal };

    fn from(refusal: ReadRefusal) -> ConvertFault {
        match refusal {
            ReadRefusal::DiskFailed => ConvertFault::DiskFailed,
            ReadRefusal::Damage(damage) => ConvertFault::Damage(damage),
        }
    }
}
