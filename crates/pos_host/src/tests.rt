//! Real files and a real output: what no clause can say of them.

ghost use Rattle.std.specs.Prelude.{◌+◌, ◌^◌, ◌<◌, ◌≤◌, length, IsTrue, IfOk, OnOk};
ghost use Rattle.pos_edge.specs.Calls.{IsThere};

use crate::{HostDisk, HostSink, HostSource};
use pos_edge::{
    CreateFault, Disk, DiskFailed, FileId, OpenFault, PutFailed, Sink, Source, TakeFailed,
    WorkFault, WriteFault,
};
use std::fs::Permissions;
use std::io::{ErrorKind, Read, Write};
use std::os::unix::fs::{MetadataExt, PermissionsExt, symlink};
use std::test::Fail;
use std::{fs, io};

// Takes one byte a call, and is interrupted first. Once it has as many as it takes, it errs, or takes none.
struct Slow<'a> {
    taken: &'a mut Vec<u8>,
    most: usize,
    errs: bool,
    interrupted: bool,
}

impl Drop for Slow<'_> {
    fn drop(self) {
        let Slow {
            taken: _,
            most: _,
            errs: _,
            interrupted: _,
        } = self;
    }
}

impl Write for Slow<'_> {
    fn write(&mut self, buf: &[u8]) -> io::Result<usize> {
        if !self.interrupted {
            self.interrupted = true;
            return Err(io::Error::from(ErrorKind::Interrupted));
        }
        if self.taken.len() >= self.most && self.errs {
            return Err(io::Error::from(ErrorKind::StorageFull));
        }
        if buf.is_empty() || self.taken.len() >= self.most {
            return Ok(0);
        }
        self.taken
            .push(buf[0])
            .map_err(|_| io::Error::from(ErrorKind::OutOfMemory))?;
        Ok(1)
    }

    fn flush(&mut self) -> io::Result<()> {
        Ok(())
    }
}

#[test]
fn a_piece_goes_to_standard_output(rt: HostRuntime) -> Result<(), Fail> {
    let mut sink = HostSink::new(io::writer(&rt))?;
    sink.put(b"opens\n")?;
    Ok(())
}

#[test]
fn a_writer_of_few_bytes_is_asked_again_until_it_takes_none_or_errs(
    rt: HostRuntime,
) -> Result<(), Fail> {
    for errs in [false, true] {
        let mut taken = Vec::new(rt.alloc());
        let mut sink = HostSink::new(Slow {
            taken: &mut taken,
            most: 5,
            errs,
            interrupted: false,
        })?;
        assert_eq!(rt; sink.put(b"abc"), Ok(()));
        assert_eq!(rt; sink.put(b"def"), Err(PutFailed));
        drop(sink);
        assert_eq!(rt; taken.as_slice(), b"abcde".as_slice());
    }
    Ok(())
}

#[test]
fn a_writer_that_errs_at_once_is_no_sink(rt: HostRuntime) -> Result<(), Fail> {
    let mut taken = Vec::new(rt.alloc());
    let sink = HostSink::new(Slow {
        taken: &mut taken,
        most: 0,
        errs: true,
        interrupted: false,
    });
    assert!(rt; sink.is_err());
    Ok(())
}

// Gives a few bytes a call, and is interrupted first. Once it has none left, it errs, or gives none.
struct Drips<'a> {
    left: &'a [u8],
    errs: bool,
    interrupted: bool,
}

impl Drop for Drips<'_> {
    fn drop(self) {
        let Drips {
            left: _,
            errs: _,
            interrupted: _,
        } = self;
    }
}

impl Read for Drips<'_> {
    fn read(&mut self, buf: &mut [u8]) -> io::Result<usize> {
        if !self.interrupted {
            self.interrupted = true;
            return Err(io::Error::from(ErrorKind::Interrupted));
        }
        if self.left.is_empty() && self.errs {
            return Err(io::Error::from(ErrorKind::Other));
        }
        let n = buf.len().min(self.left.len()).min(4);
        buf[..n].copy_from_slice(&self.left[..n]);
        self.left = &self.left[n..];
        Ok(n)
    }
}

// Standard input is a source too; a test can't say what stands there.
#[test]
fn a_reader_gives_what_one_read_gives_until_it_has_none_or_errs(
    rt: HostRuntime,
) -> Result<(), Fail> {
    let _input = HostSource::new(rt.stdin());
    for (errs, end) in [(false, Ok(0)), (true, Err(TakeFailed))] {
        let mut source = HostSource::new(Drips {
            left: b"proofs",
            errs,
            interrupted: false,
        });
        let mut buf = [0; 5];
        assert_eq!(rt; source.take(&mut buf), Ok(4));
        assert_eq!(rt; buf, *b"proo\0");
        assert_eq!(rt; source.take(&mut buf), Ok(2));
        assert_eq!(rt; buf, *b"fsoo\0");
        assert_eq!(rt; source.take(&mut buf), end);
    }
    Ok(())
}

// Makes a file.
fn made<D: Disk>(disk: &mut D, name: &str) -> Result<FileId, WorkFault>
    ensures live { IfOk result (λ file. IsTrue ((D.view disk.new).is_live file.0)) }
    ensures there { IfOk result (λ file. IsThere file.0 (D.view disk.new)) }
{
    disk.create(name).map_err(|_| WorkFault::DiskFailed)
}

// Writes a piece.
fn write<D: Disk>(disk: &mut D, file: FileId, at: u64, bytes: &[u8]) -> Result<(), WorkFault>
    requires live { IsTrue ((D.view disk.old).is_live file.0) }
    requires there { IsThere file.0 (D.view disk.old) }
    requires within { at ≤ (D.view disk.old).size_of file.0 }
    requires fits { at + length bytes.now < 2 ^ 63 }
    ensures live { OnOk result (IsTrue ((D.view disk.new).is_live file.0)) }
    ensures there { OnOk result (IsThere file.0 (D.view disk.new)) }
    ensures size { OnOk result (at + length bytes.now ≤ (D.view disk.new).size_of file.0) }
{
    disk.write_at(file, at, bytes)
        .map_err(|_| WorkFault::DiskFailed)
}

// Writes "plot file" in pieces that overlap, and syncs.
fn write_words<D: Disk>(disk: &mut D, file: FileId) -> Result<(), WorkFault>
    requires live { IsTrue ((D.view disk.old).is_live file.0) }
    requires there { IsThere file.0 (D.view disk.old) }
    ensures live { OnOk result (IsTrue ((D.view disk.new).is_live file.0)) }
    ensures there { OnOk result (IsThere file.0 (D.view disk.new)) }
{
    write(disk, file, 0, b"plot tale")?;
    write(disk, file, 5, b"fi")?;
    write(disk, file, 7, b"les")?;
    disk.sync(file).map_err(|_| WorkFault::DiskFailed)
}

// Opens the file once more, reads four bytes at offset 3, and answers its size, which is the same through both FileIds.
fn read_back<D: Disk>(
    disk: &mut D,
    file: FileId,
    name: &str,
    got: &mut [u8; 4],
) -> Result<u64, WorkFault>
    requires live { IsTrue ((D.view disk.old).is_live file.0) }
    requires there { IsThere file.0 (D.view disk.old) }
    ensures live { OnOk result (IsTrue ((D.view disk.new).is_live file.0)) }
    ensures there { OnOk result (IsThere file.0 (D.view disk.new)) }
{
    let again = disk.open(name).map_err(|_| WorkFault::DiskFailed)?;
    let size = disk.size(again);
    if size != disk.size(file) || size < 7 {
        return Err(WorkFault::DiskFailed);
    }
    disk.read_at(again, 3, got)
        .map_err(|_| WorkFault::DiskFailed)?;
    Ok(size)
}

// Writes a file, reads it back, and removes it.
fn round_trip<D: Disk>(disk: &mut D, name: &str, got: &mut [u8; 4]) -> Result<u64, WorkFault> {
    let file = made(disk, name)?;
    write_words(disk, file)?;
    let size = read_back(disk, file, name, got)?;
    disk.remove(file).map_err(|_| WorkFault::DiskFailed)?;
    Ok(size)
}

#[test]
fn a_real_file_is_written_read_back_and_removed(rt: HostRuntime) -> Result<(), Fail> {
    let mut got = [0; 4];
    let mut disk = HostDisk::new(&rt, rt.alloc());
    assert_eq!(rt;
        round_trip(&mut disk, "pos_host_round_trip", &mut got),
        Ok(10)
    );
    assert_eq!(rt; got.as_slice(), b"t fi".as_slice());
    assert_eq!(rt; disk.open("pos_host_round_trip"), Err(OpenFault::Absent));
    Ok(())
}

#[test]
fn a_file_that_was_not_made_is_only_read(rt: HostRuntime) -> Result<(), Fail> {
    let mut disk = HostDisk::new(&rt, rt.alloc());
    fs::write(&rt, "pos_host_read", b"kept")?;
    for mode in [0o644, 0o444] {
        fs::set_permissions(&rt, "pos_host_read", Permissions::from_mode(mode))?;
        let file = disk.open("pos_host_read").map_err(|_| "not opened")?;
        assert_eq!(rt; disk.size(file), 4);
        assert_eq!(rt; disk.write_at(file, 0, b"lost"), Err(WriteFault::Failed));
        assert_eq!(rt; disk.sync(file), Ok(()));
        assert_eq!(rt; fs::read_to_string(&rt, "pos_host_read")?.as_str(), "kept");
    }
    fs::remove_file(&rt, "pos_host_read")?;
    Ok(())
}

// Permissions don't bind root, who owns the files of his processes.
#[test]
fn a_file_without_permission_is_not_opened(rt: HostRuntime) -> Result<(), Fail> {
    let mut disk = HostDisk::new(&rt, rt.alloc());
    let is_root = fs::metadata(&rt, "/proc/self")?.uid() == 0;
    fs::write(&rt, "pos_host_hidden", b"kept")?;
    fs::set_permissions(&rt, "pos_host_hidden", Permissions::from_mode(0))?;
    let opened = disk.open("pos_host_hidden");
    assert!(rt; is_root || opened == Err(OpenFault::Failed));
    fs::remove_file(&rt, "pos_host_hidden")?;
    Ok(())
}

#[test]
fn a_name_that_is_there_is_not_opened_anew(rt: HostRuntime) -> Result<(), Fail> {
    let mut disk = HostDisk::new(&rt, rt.alloc());
    fs::write(&rt, "pos_host_taken", b"kept")?;
    assert_eq!(rt; disk.create("pos_host_taken"), Err(CreateFault::Exists));
    assert_eq!(rt; fs::read_to_string(&rt, "pos_host_taken")?.as_str(), "kept");
    fs::remove_file(&rt, "pos_host_taken")?;
    Ok(())
}

#[test]
fn a_folder_and_a_device_are_no_files(rt: HostRuntime) -> Result<(), Fail> {
    let mut disk = HostDisk::new(&rt, rt.alloc());
    fs::create_dir(&rt, "pos_host_folder")?;
    symlink(&rt, "/dev/zero", "pos_host_device")?;
    for name in ["pos_host_folder", "pos_host_device", "/dev/zero"] {
        assert_eq!(rt; disk.create(name), Err(CreateFault::Exists));
        assert_eq!(rt; disk.open(name), Err(OpenFault::Failed));
    }
    assert_eq!(rt; disk.open("pos_host_folder/p"), Err(OpenFault::Absent));
    fs::remove_file(&rt, "pos_host_device")?;
    fs::remove_dir(&rt, "pos_host_folder")?;
    assert_eq!(rt; disk.create("pos_host_folder/p"), Err(CreateFault::Failed));
    Ok(())
}

// The folder is away at the first sync of a file in it, and there at the second.
#[test]
fn each_sync_after_a_failed_one_fails(rt: HostRuntime) -> Result<(), Fail> {
    let mut disk = HostDisk::new(&rt, rt.alloc());
    fs::create_dir(&rt, "pos_host_away")?;
    let file = disk.create("pos_host_away/p").map_err(|_| "not created")?;
    assert_eq!(rt; disk.sync(file), Ok(()));
    fs::rename(&rt, "pos_host_away", "pos_host_there")?;
    assert_eq!(rt; disk.sync(file), Err(DiskFailed));
    fs::rename(&rt, "pos_host_there", "pos_host_away")?;
    assert_eq!(rt; disk.sync(file), Err(DiskFailed));
    assert_eq!(rt; disk.remove(file), Ok(()));
    fs::remove_dir(&rt, "pos_host_away")?;
    Ok(())
}

#[test]
fn a_file_is_listed_until_it_is_removed(rt: HostRuntime) -> Result<(), Fail> {
    let mut disk = HostDisk::new(&rt, rt.alloc());
    fs::create_dir(&rt, "pos_host_listed")?;
    let file = disk.create("pos_host_listed/p").map_err(|_| "not created")?;
    let mut listed = fs::read_dir(&rt, "pos_host_listed")?;
    let entry = listed.next().ok_or("not listed")??;
    assert_eq!(rt; entry.file_name(), "p");
    assert!(rt; listed.next().is_none());
    disk.remove(file).map_err(|_| "not removed")?;
    assert!(rt; fs::read_dir(&rt, "pos_host_listed")?.next().is_none());
    fs::remove_dir(&rt, "pos_host_listed")?;
    Ok(())
}
