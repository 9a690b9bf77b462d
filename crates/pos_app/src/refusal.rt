// Why a command on a plot file has nothing to show.
ghost use Rattle.std.specs.Prelude.{◌≡◌};
ghost use Rattle.pos_app.specs.declared.refusal.Refusal.TheVariants.{Memory};
ghost use Rattle.pos_app.specs.Refused.{refusal_of, list_refusal, read_refusal};

use pos_harvest::ListRefusal;
use pos_layout::Damage;
use pos_reader::{OpenRefusal, ReadRefusal};
use std::alloc::AllocError;

/// Why a command on a plot file has nothing to show.
#[derive(Clone, Copy)]
pub enum Refusal {
    /// No file has the name.
    Absent,
    DiskFailed,
    Damage(Damage),
    Memory,
}

impl From<OpenRefusal> for Refusal {
    ghost from_gives = { λ refusal result. result ≡ refusal_of refusal };

    fn from(refusal: OpenRefusal) -> Refusal {
        match refusal {
            OpenRefusal::Absent => Refusal::Absent,
            OpenRefusal::DiskFailed => Refusal::DiskFailed,
            OpenRefusal::Damage(damage) => Refusal::Damage(damage),
            OpenRefusal::Memory => Refusal::Memory,
        }
    }
}

impl From<ListRefusal> for Refusal {
    ghost from_gives = { λ refusal result. result ≡ list_refusal refusal };

    fn from(refusal: ListRefusal) -> Refusal {
        match refusal {
            ListRefusal::DiskFailed => Refusal::DiskFailed,
            ListRefusal::Damage(damage) => Refusal::Damage(damage),
            ListRefusal::Memory => Refusal::Memory,
        }
    }
}

impl From<ReadRefusal> for Refusal {
    ghost from_gives = { λ refusal result. result ≡ read_refusal refusal };

    fn from(refusal: ReadRefusal) -> Refusal {
        match refusal {
            ReadRefusal::DiskFailed => Refusal::DiskFailed,
            ReadRefusal::Damage(damage) => Refusal::Damage(damage),
        }
    }
}

impl From<AllocError> for Refusal {
    ghost from_gives = { λ _ result. result ≡ Memory };

    fn from(_: AllocError) -> Refusal {
        Refusal::Memory
    }
}
