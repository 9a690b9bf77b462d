// Why no plot was made.
ghost use Rattle.std.specs.Prelude.{◌≡◌};
ghost use Rattle.pos_plot.specs.Faults.{of_create, of_forward, of_work};
ghost use Rattle.pos_plot.specs.declared.fault.PlotFault.TheVariants.{Memory};

use pos_edge::{CreateFault, ScratchDamage, WorkFault};
use pos_forward::ForwardFault;

/// A name that was to be made and is there.
#[derive(Clone, Copy, Debug, PartialEq, Eq)]
pub enum Name {
    /// That of the plot file.
    Plot,
    /// That of the scratch file with this number.
    Scratch(u32),
}

/// Why no plot was made.
#[derive(Clone, Copy, Debug, PartialEq, Eq)]
pub enum PlotFault {
    /// This name is there.
    Exists(Name),
    /// This table has more entries than the plan allows, and none before it.
    TableFull { table: u8 },
    /// The disk failed.
    DiskFailed,
    /// A record of a scratch file was read back out of its range.
    Scratch(ScratchDamage),
    /// There was not enough memory.
    Memory,
}

impl From<CreateFault> for PlotFault {
    ghost from_gives = { λ fault gives. gives ≡ of_create fault };

    fn from(fault: CreateFault) -> PlotFault {
        match fault {
            CreateFault::Exists => PlotFault::Exists(Name::Plot),
            CreateFault::Failed => PlotFault::DiskFailed,
            CreateFault::Memory => PlotFault::Memory,
        }
    }
}

impl From<WorkFault> for PlotFault {
    ghost from_gives = { λ fault gives. gives ≡ of_work fault };

    fn from(fault: WorkFault) -> PlotFault {
        match fault {
            WorkFault::Exists { file } => PlotFault::Exists(Name::Scratch(file)),
            WorkFault::DiskFailed => PlotFault::DiskFailed,
            WorkFault::Scratch(damage) => PlotFault::Scratch(damage),
            WorkFault::Memory => PlotFault::Memory,
        }
    }
}

impl From<ForwardFault> for PlotFault {
    ghost from_gives = { λ fault gives. gives ≡ of_forward fault };

    fn from(fault: ForwardFault) -> PlotFault {
        match fault {
            ForwardFault::TableFull { table } => PlotFault::TableFull { table },
            ForwardFault::Work(fault) => PlotFault::from(fault),
        }
    }
}

impl From<pos_edge::Memory> for PlotFault {
    ghost from_gives = { λ _ gives. gives ≡ Memory };

    fn from(_fault: pos_edge::Memory) -> PlotFault {
        PlotFault::Memory
    }
}
