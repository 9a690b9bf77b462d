// The disk: files by name, what a crash may leave of them, and what each call does, by its answer.
ghost use Rattle.std.specs.Prelude.{◌≡◌, ◌+◌, ◌^◌, ◌<◌, ◌≤◌, length, IsTrue, IsErrOf, IfOk, OnOk, OnErr};
ghost use Rattle.pos_edge.specs.Faults.{Rose, counted};
ghost use Rattle.pos_edge.specs.View.{View, IsDisk};
ghost use Rattle.pos_edge.specs.Frame.{ChangesOnly, ChangesFile, KeepsIds, SameFaults, SameFaultsBut, IsUntouched, Nothing, Just, NameOf};
ghost use Rattle.pos_edge.specs.Images.{ImagesBy, Tears, Stays, MayVanish};
ghost use Rattle.pos_edge.specs.Calls.{IsThere, WasThere, WasAbsent, IsCreated, IsHalfCreated, IsOpened, AreBytesAt, IsWritten, IsHalfWritten, SameContents, IsSynced, Ends, IsGone, IsAsItWasOrGone};

/// An open file of a disk.
#[derive(Clone, Copy, Debug, PartialEq, Eq)]
pub struct FileId(pub u64);

/// Why no file was made.
#[derive(Clone, Copy, Debug, PartialEq, Eq)]
pub enum CreateFault {
    Exists,
    Failed,
    Memory,
}

/// Why no file was opened.
#[derive(Clone, Copy, Debug, PartialEq, Eq)]
pub enum OpenFault {
    Absent,
    Failed,
    Memory,
}

/// Why a piece was not written whole.
#[derive(Clone, Copy, Debug, PartialEq, Eq)]
pub enum WriteFault {
    Failed,
    Memory,
}

/// The disk failed.
#[derive(Clone, Copy, Debug, PartialEq, Eq)]
pub struct DiskFailed;

/// The greatest number of bytes that one read takes.
pub const MAX_READ: usize = 65_536;

/// Files by name. A file is used through a `FileId`, and never becomes shorter.
pub trait Disk {
    /// What is known of the disk.
    ghost view: { Self → View };

    /// Makes an empty file. `Exists` where the name is there.
    fn create(&mut self, name: &str) -> Result<FileId, CreateFault>
        ensures kept { ChangesOnly (Just name.now) Nothing (view self.old) (view self.new) }
        ensures reads { (view self.new).reads ≡ (view self.old).reads }
        ensures ok { IfOk result (λ file. IsCreated name.now file.0 (view self.old) (view self.new)) }
        ensures exists { IsErrOf result CreateFault.Exists
            → WasThere name.now (view self.old) × IsUntouched (view self.old) (view self.new) }
        ensures failed { IsErrOf result CreateFault.Failed
            → IsHalfCreated name.now (view self.old) (view self.new) }
        ensures memory { IsErrOf result CreateFault.Memory → IsUntouched (view self.old) (view self.new) }
        ensures quiet { SameFaultsBut CreateFault.Failed result (view self.old) (view self.new) };

    /// Opens a file that is there. `Absent` where the name is not there. A refusal changes no file.
    fn open(&mut self, name: &str) -> Result<FileId, OpenFault>
        ensures kept { ChangesOnly Nothing Nothing (view self.old) (view self.new) }
        ensures reads { (view self.new).reads ≡ (view self.old).reads }
        ensures ok { IfOk result (λ file. IsOpened name.now file.0 (view self.old) (view self.new)) }
        ensures absent { IsErrOf result OpenFault.Absent
            → WasAbsent name.now (view self.old) × IsUntouched (view self.old) (view self.new) }
        ensures failed { IsErrOf result OpenFault.Failed
            → Rose (view self.old).faults (view self.new).faults × KeepsIds Nothing (view self.old) (view self.new) }
        ensures memory { IsErrOf result OpenFault.Memory → IsUntouched (view self.old) (view self.new) }
        ensures quiet { SameFaultsBut OpenFault.Failed result (view self.old) (view self.new) };

    /// How many bytes the file had when the `FileId` was given, raised by the writes through it.
    /// Takes no memory.
    fn size(&self, file: FileId) -> u64
        requires { IsTrue ((view self.now).is_live file.0) }
        ensures { result ≡ (view self.now).size_of file.0 };

    /// Fills the buffer with the bytes from a place on. After a failure the buffer may hold anything.
    /// Takes no memory.
    fn read_at(&mut self, file: FileId, at: u64, buf: &mut [u8]) -> Result<(), DiskFailed>
        requires live { IsTrue ((view self.old).is_live file.0) }
        requires there { IsThere file.0 (view self.old) }
        requires short { length buf.old ≤ MAX_READ }
        requires within { at + length buf.old ≤ (view self.old).size_of file.0 }
        ensures kept { ChangesOnly Nothing Nothing (view self.old) (view self.new) }
        ensures reads { (view self.new).reads ≡ counted (view self.old).reads }
        ensures ids { KeepsIds Nothing (view self.old) (view self.new) }
        ensures ok { OnOk result (AreBytesAt file.0 at buf.new (view self.old)) }
        ensures failed { OnErr result (Rose (view self.old).faults (view self.new).faults) }
        ensures quiet { OnOk result (SameFaults (view self.old) (view self.new)) };

    /// Writes a piece over what is there, and past the end. Until a sync, a crash may leave any bytes in its range.
    fn write_at(&mut self, file: FileId, at: u64, bytes: &[u8]) -> Result<(), WriteFault>
        requires live { IsTrue ((view self.old).is_live file.0) }
        requires there { IsThere file.0 (view self.old) }
        requires within { at ≤ (view self.old).size_of file.0 }
        requires fits { at + length bytes.now < 2 ^ 63 }
        ensures kept { ChangesFile file.0 (view self.old) (view self.new) }
        ensures reads { (view self.new).reads ≡ (view self.old).reads }
        ensures ids { KeepsIds Nothing (view self.old) (view self.new) }
        ensures images { ImagesBy (Tears at (length bytes.now)) file.0 (view self.old) (view self.new) }
        ensures ok { OnOk result (IsWritten file.0 at bytes.now (view self.old) (view self.new)) }
        ensures failed { IsErrOf result WriteFault.Failed
            → IsHalfWritten file.0 at (length bytes.now) (view self.old) (view self.new) }
        ensures memory { IsErrOf result WriteFault.Memory → IsUntouched (view self.old) (view self.new) }
        ensures quiet { SameFaultsBut WriteFault.Failed result (view self.old) (view self.new) };

    /// After it, a crash leaves what the file holds. Changes no contents, and takes no memory.
    fn sync(&mut self, file: FileId) -> Result<(), DiskFailed>
        requires live { IsTrue ((view self.old).is_live file.0) }
        requires there { IsThere file.0 (view self.old) }
        ensures kept { ChangesOnly (NameOf file.0 (view self.old)) Nothing (view self.old) (view self.new) }
        ensures reads { (view self.new).reads ≡ (view self.old).reads }
        ensures ids { KeepsIds Nothing (view self.old) (view self.new) }
        ensures contents { SameContents (view self.old) (view self.new) }
        ensures images { ImagesBy Stays file.0 (view self.old) (view self.new) }
        ensures ok { OnOk result (IsSynced file.0 (view self.new)) }
        ensures failed { OnErr result (Rose (view self.old).faults (view self.new).faults) }
        ensures quiet { OnOk result (SameFaults (view self.old) (view self.new)) };

    /// Removes the file, and ends the `FileId` whatever it answers. Takes no memory.
    fn remove(&mut self, file: FileId) -> Result<(), DiskFailed>
        requires live { IsTrue ((view self.old).is_live file.0) }
        requires there { IsThere file.0 (view self.old) }
        ensures kept { ChangesOnly (NameOf file.0 (view self.old)) (Just file.0) (view self.old) (view self.new) }
        ensures reads { (view self.new).reads ≡ (view self.old).reads }
        ensures ends { Ends file.0 (view self.old) (view self.new) }
        ensures images { ImagesBy MayVanish file.0 (view self.old) (view self.new) }
        ensures ok { OnOk result (IsGone file.0 (view self.old) (view self.new)) }
        ensures failed { OnErr result (Rose (view self.old).faults (view self.new).faults) }
        ensures left { IsAsItWasOrGone file.0 (view self.old) (view self.new) }
        ensures quiet { OnOk result (SameFaults (view self.old) (view self.new)) };

    /// What holds of every disk between two calls.
    ghost is_disk: { (disk : Self) → IsDisk (view disk) };
}
