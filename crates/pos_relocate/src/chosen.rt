//! Which entries of a table are numbered.
ghost use Rattle.std.specs.Prelude.{◌≡◌, ◌<◌, ℕ, Bool, true, IfOk, OnOk};
ghost use Rattle.pos_relocate.specs.Choosing.{Chooses};
ghost use Rattle.pos_relocate.specs.Gathering.{IsPointing};

use pos_edge::{Disk, WorkFault};
use pos_marks::Marks;

/// The entries of a table that are numbered: each, or those that are marked.
#[derive(Drop)]
pub(crate) enum Chosen {
    Each,
    Those(Marks),
}

impl Chosen {
    /// Whether the entry at this place is numbered. In the order of places each page of marks is read once.
    #[inline(always)]
    pub(crate) fn has<D: Disk>(&mut self, disk: &mut D, i: u64) -> Result<bool, WorkFault>
        requires { (n : ℕ) × (p : ℕ → Bool) × Chooses self.old n p (D.view disk.old) × (i < n) }
        ensures reading { IsPointing result (D.view disk.old) (D.view disk.new) }
        ensures kept { OnOk result ((n : ℕ) (p : ℕ → Bool) → Chooses self.old n p (D.view disk.old)
            → Chooses self.new n p (D.view disk.new)) }
        ensures value { IfOk result (λ chosen. (n : ℕ) (p : ℕ → Bool) → Chooses self.old n p (D.view disk.old)
            → (D.view disk.old).tells ≡ true → i < n → chosen ≡ p i) }
        ensures no_damage { (damage : _) → result ≡ Err (WorkFault.Scratch damage) → ⊥ }
    {
        match self {
            Chosen::Each => Ok(true),
            Chosen::Those(marks) => marks.has(disk, i),
        }
    }
}
