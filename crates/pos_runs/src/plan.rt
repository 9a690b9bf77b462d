// How many entries a table may have.
ghost use Rattle.std.specs.Prelude.{◌≡◌, ◌+◌, ◌^◌, ◌<◌, ◌≤◌, ◌↔◌, IfSome, IsNone};
ghost use Rattle.pos_record.specs.Fields.{IsRecordSize};

use std::marker::Model;

/// How many entries each table from 2 to 7 may have. Contracts see the number.
#[derive(Clone, Copy, Debug, PartialEq, Eq)]
pub struct Plan {
    capacity: u64,
}

impl Model for Plan {
    ghost use Rattle.std.specs.Prelude.{ℕ};

    ghost Value = { ℕ };

    ghost view = { λ p. p.capacity };

    ghost inverse = { λ n. record { capacity = n } };
}

impl Plan {
    /// So many entries, or None where that is above 2^(k + 1).
    pub fn new(k: u32, capacity: u64) -> Option<Plan>
        requires { IsRecordSize k }
        ensures none { IsNone result ↔ (2 ^ (k + 1) < capacity) }
        ensures some { IfSome result (λ plan. plan ≡ capacity) }
    {
        if capacity <= 1 << (k + 1) {
            Some(Plan { capacity })
        } else {
            None
        }
    }

    /// As many entries as a table may ever have, 2^(k + 1).
    pub fn standard(k: u32) -> Plan
        requires { IsRecordSize k }
        ensures { result ≡ 2 ^ (k + 1) }
    {
        Plan {
            capacity: 1 << (k + 1),
        }
    }

    /// The number of entries.
    pub fn capacity(&self) -> u64
        ensures { result ≡ self.now }
    {
        self.capacity
    }
}
