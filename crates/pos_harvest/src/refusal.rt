//! Why nothing is listed for a challenge.
ghost use Rattle.std.specs.Prelude.{◌≡◌};
ghost use Rattle.pos_harvest.specs.Refusals.{listed_refusal};
ghost use Rattle.pos_harvest.specs.declared.refusal.ListRefusal.TheVariants.{Memory};

use pos_layout::Damage;
use pos_reader::ReadRefusal;
use std::alloc::AllocFailed;

/// Why nothing is listed for a challenge.
#[derive(Clone, Copy, Debug, PartialEq, Eq)]
pub enum ListRefusal {
    DiskFailed,
    Damage(Damage),
    Memory,
}

impl From<ReadRefusal> for ListRefusal {
    ghost from_gives = { λ refusal gives. gives ≡ listed_refusal refusal };

    fn from(refusal: ReadRefusal) -> ListRefusal {
        match refusal {
            ReadRefusal::DiskFailed => ListRefusal::DiskFailed,
            ReadRefusal::Damage(damage) => ListRefusal::Damage(damage),
        }
    }
}

impl<T: Drop> From<AllocFailed<T>> for ListRefusal {
    ghost from_gives = { λ _ e. e ≡ Memory };

    fn from(_failed: AllocFailed<T>) -> ListRefusal {
        ListRefusal::Memory
    }
}
