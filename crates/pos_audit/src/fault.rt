// Why no file was audited.
ghost use Rattle.std.specs.Prelude.{◌≡◌};
ghost use Rattle.pos_audit.specs.Faults.{of_open, of_opening, of_plotting};
ghost use Rattle.pos_audit.specs.declared.fault.AuditFault.TheVariants.{DiskFailed};

use pos_edge::{OpenFault, ScratchDamage};
use pos_layout::Damage;
use pos_plot::{Name, PlotFault};
use pos_reader::OpenRefusal;

/// A name that was to be made and is there.
#[derive(Clone, Copy, Debug, PartialEq, Eq)]
pub enum AuditName {
    /// That of the second file.
    Second,
    /// That of the scratch file with this number.
    Scratch(u32),
}

/// Why no file was audited.
#[derive(Clone, Copy, Debug, PartialEq, Eq)]
pub enum AuditFault {
    /// No file has the name.
    Absent,
    /// The second file could not be opened by its name.
    Lost,
    /// This name is there.
    Exists(AuditName),
    /// This table of the plot has more entries than a table may have, and none before it.
    TableFull { table: u8 },
    /// The disk failed.
    DiskFailed,
    /// The file does not open.
    Damage(Damage),
    /// A record of a scratch file was read back out of its range.
    Scratch(ScratchDamage),
    /// There was not enough memory.
    Memory,
}

impl From<OpenRefusal> for AuditFault {
    ghost from_gives = { λ refusal gives. gives ≡ of_opening refusal };

    fn from(refusal: OpenRefusal) -> AuditFault {
        match refusal {
            OpenRefusal::Absent => AuditFault::Absent,
            OpenRefusal::DiskFailed => AuditFault::DiskFailed,
            OpenRefusal::Damage(damage) => AuditFault::Damage(damage),
            OpenRefusal::Memory => AuditFault::Memory,
        }
    }
}

impl From<PlotFault> for AuditFault {
    ghost from_gives = { λ fault gives. gives ≡ of_plotting fault };

    fn from(fault: PlotFault) -> AuditFault {
        match fault {
            PlotFault::Exists(Name::Plot) => AuditFault::Exists(AuditName::Second),
            PlotFault::Exists(Name::Scratch(number)) => {
                AuditFault::Exists(AuditName::Scratch(number))
            }
            PlotFault::TableFull { table } => AuditFault::TableFull { table },
            PlotFault::DiskFailed => AuditFault::DiskFailed,
            PlotFault::Scratch(damage) => AuditFault::Scratch(damage),
            PlotFault::Memory => AuditFault::Memory,
        }
    }
}

impl From<OpenFault> for AuditFault {
    ghost from_gives = { λ fault gives. gives ≡ of_open fault };

    fn from(fault: OpenFault) -> AuditFault {
        match fault {
            OpenFault::Absent => AuditFault::Lost,
            OpenFault::Failed => AuditFault::DiskFailed,
            OpenFault::Memory => AuditFault::Memory,
        }
    }
}

impl From<pos_edge::DiskFailed> for AuditFault {
    ghost from_gives = { λ _ gives. gives ≡ DiskFailed };

    fn from(_fault: pos_edge::DiskFailed) -> AuditFault {
        AuditFault::DiskFailed
    }
}
