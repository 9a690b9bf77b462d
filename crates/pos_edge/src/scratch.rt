// Files for the time of some work, named by a base and a number, each name made once.
ghost use Rattle.std.specs.Prelude.{◌≡◌, ◌<◌, ◌==◌, not, filter, IsTrue, IsErrOf, IfOk, IfErr, OnOk, OnErr, string_bytes};
ghost use Rattle.pos_edge.specs.Faults.{Rose};
ghost use Rattle.pos_edge.specs.Frame.{ChangesOnly, SameFaults, SameFaultsBut, IsUntouched, Nothing, Just, NameOf};
ghost use Rattle.pos_edge.specs.Images.{ImagesBy, MayVanish};
ghost use Rattle.pos_edge.specs.Calls.{IsThere, WasThere, IsCreated, IsHalfCreated, Ends, IsGone, IsAsItWasOrGone};
ghost use Rattle.pos_edge.specs.ScratchNames.{fresh_scratch, next_name, with_file, without_file, without_files, IsLeft, StandsOn, IsNameIn, SameOrGone, AreGone, EndsAll};

use crate::{CreateFault, Disk, FileId, Memory};
use std::alloc::Global;
use std::marker::Model;

/// How many files one `Scratch` makes at most.
pub const MAX_SCRATCH_FILES: u32 = 10_000;

/// The record at place `at` of the scratch file with this number was read back as `found`, which is not
/// from `least` to below `limit`.
#[derive(Clone, Copy, Debug, PartialEq, Eq)]
pub struct ScratchDamage {
    pub file: u32,
    pub at: u64,
    pub found: u128,
    pub least: u128,
    pub limit: u128,
}

/// Why some work on scratch files ended early.
#[derive(Clone, Copy, Debug, PartialEq, Eq)]
pub enum WorkFault {
    Exists { file: u32 },
    DiskFailed,
    Scratch(ScratchDamage),
    Memory,
}

/// A scratch file that was made and not removed: the number in its name, and its `FileId`.
#[derive(Clone, Copy, Debug, PartialEq, Eq)]
pub struct ScratchFile {
    pub number: u32,
    pub file: FileId,
}

/// The scratch files of one piece of work. Contracts see the base of their names, the number of files
/// made so far, and those that are left.
#[derive(Drop)]
pub struct Scratch {
    alloc: Global,
    base: String,
    made: u32,
    left: Vec<ScratchFile>,
}

impl Model for Scratch {
    ghost use Rattle.std.specs.Prelude.{string_bytes};
    ghost use Rattle.pos_edge.specs.ScratchNames.{ScratchState};

    ghost Value = { ScratchState };

    ghost view = { λ s. record { base = string_bytes s.base; made = s.made; left = s.left.items } };
}

impl Scratch {
    /// Has made no file yet.
    pub fn new(alloc: Global, base: &str) -> Result<Scratch, Memory>
        ensures { IfOk result (λ s. s ≡ fresh_scratch base.now) }
    {
        Ok(Scratch {
            alloc,
            base: String::from_str(alloc, base).map_err(|_| Memory)?,
            made: 0,
            left: Vec::new(alloc),
        })
    }

    /// How many files it made.
    pub fn made(&self) -> u32
        ensures { result ≡ self.now.made }
    {
        self.made
    }

    /// Makes the next file. `Exists` where its name is there. After a refusal the next name stays.
    pub fn create<D: Disk>(&mut self, disk: &mut D) -> Result<FileId, WorkFault>
        requires { self.old.made < MAX_SCRATCH_FILES }
        ensures kept { ChangesOnly (Just (next_name self.old)) Nothing (D.view disk.old) (D.view disk.new) }
        ensures reads { (D.view disk.new).reads ≡ (D.view disk.old).reads }
        ensures ok { IfOk result (λ file. IsCreated (next_name self.old) file.0 (D.view disk.old) (D.view disk.new)) }
        ensures made { IfOk result (λ file. self.new ≡ with_file self.old file.0) }
        ensures refused { OnErr result (self.new ≡ self.old) }
        ensures exists { (file : _) → IsErrOf result (WorkFault.Exists file)
            → (file ≡ self.old.made) × WasThere (next_name self.old) (D.view disk.old)
            × IsUntouched (D.view disk.old) (D.view disk.new) }
        ensures failed { IsErrOf result WorkFault.DiskFailed
            → IsHalfCreated (next_name self.old) (D.view disk.old) (D.view disk.new) }
        ensures no_damage { (damage : _) → IsErrOf result (WorkFault.Scratch damage) → ⊥ }
        ensures memory { IsErrOf result WorkFault.Memory → IsUntouched (D.view disk.old) (D.view disk.new) }
        ensures quiet { SameFaultsBut WorkFault.DiskFailed result (D.view disk.old) (D.view disk.new) }
        ensures stands { StandsOn self.old (D.view disk.old) → StandsOn self.new (D.view disk.new) }
    {
        self.left.reserve(1).map_err(|_| WorkFault::Memory)?;
        let made = self.made;
        let base = self.base.as_str();
        let name = format!(in self.alloc; "{base}.{made}").map_err(|_| WorkFault::Memory)?;
        match disk.create(name.as_str()) {
            Ok(file) => {
                if self.left.push(ScratchFile { number: made, file }).is_err() {
                    unreachable!();
                }
                self.made += 1;
                Ok(file)
            }
            Err(CreateFault::Exists) => Err(WorkFault::Exists { file: made }),
            Err(CreateFault::Failed) => Err(WorkFault::DiskFailed),
            Err(CreateFault::Memory) => Err(WorkFault::Memory),
        }
    }

    /// Removes one of its files, which is then no longer one of them, whatever the call answers. Takes no memory.
    pub fn remove<D: Disk>(&mut self, disk: &mut D, file: FileId) -> Result<(), WorkFault>
        requires left { IsLeft self.old file.0 }
        requires live { IsTrue ((D.view disk.old).is_live file.0) }
        requires there { IsThere file.0 (D.view disk.old) }
        ensures left { self.new ≡ without_file self.old file.0 }
        ensures kept { ChangesOnly (NameOf file.0 (D.view disk.old)) (Just file.0) (D.view disk.old) (D.view disk.new) }
        ensures reads { (D.view disk.new).reads ≡ (D.view disk.old).reads }
        ensures ends { Ends file.0 (D.view disk.old) (D.view disk.new) }
        ensures images { ImagesBy MayVanish file.0 (D.view disk.old) (D.view disk.new) }
        ensures ok { OnOk result (IsGone file.0 (D.view disk.old) (D.view disk.new)) }
        ensures failed { OnErr result (Rose (D.view disk.old).faults (D.view disk.new).faults) }
        ensures quiet { OnOk result (SameFaults (D.view disk.old) (D.view disk.new)) }
        ensures was_or_gone { IsAsItWasOrGone file.0 (D.view disk.old) (D.view disk.new) }
        ensures fault { IfErr result (λ fault. fault ≡ WorkFault.DiskFailed) }
        ensures stands { StandsOn self.old (D.view disk.old) → StandsOn self.new (D.view disk.new) }
    {
        forget(&mut self.left, file);
        disk.remove(file).map_err(|_| WorkFault::DiskFailed)
    }

    /// Removes all that are left, also where one of the removals fails. Takes no memory.
    pub fn clear<D: Disk>(&mut self, disk: &mut D) -> Result<(), WorkFault>
        requires { StandsOn self.old (D.view disk.old) }
        ensures left { self.new ≡ without_files self.old }
        ensures kept { ChangesOnly (IsNameIn self.old.base self.old.left) (IsLeft self.old) (D.view disk.old) (D.view disk.new) }
        ensures reads { (D.view disk.new).reads ≡ (D.view disk.old).reads }
        ensures ends { EndsAll self.old (D.view disk.old) (D.view disk.new) }
        ensures ok { OnOk result (AreGone self.old (D.view disk.new)) }
        ensures failed { OnErr result (Rose (D.view disk.old).faults (D.view disk.new).faults) }
        ensures quiet { OnOk result (SameFaults (D.view disk.old) (D.view disk.new)) }
        ensures was_or_gone { SameOrGone (D.view disk.old) (D.view disk.new) }
        ensures fault { IfErr result (λ fault. fault ≡ WorkFault.DiskFailed) }
    {
        let mut all = true;
        while let Some(last) = self.left.pop() {
            let removed = disk.remove(last.file).is_ok();
            all &= removed;
        }
        if all {
            Ok(())
        } else {
            Err(WorkFault::DiskFailed)
        }
    }
}

// Takes the file of this FileId off the list.
fn forget(left: &mut Vec<ScratchFile>, file: FileId)
    ensures { left.new.items ≡ filter (λ kept. not (kept.file.0 == file.0)) left.old.items }
{
    left.retain(|kept| kept.file.0 != file.0);
}
