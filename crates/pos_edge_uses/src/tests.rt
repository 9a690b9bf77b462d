ghost use Rattle.std.specs.Prelude.{◌≡◌, ◌+◌, ◌≤◌, IsTrue, IfOk, OnOk};
ghost use Rattle.pos_edge.specs.Calls.{IsThere};
ghost use Rattle.pos_edge.specs.ScratchNames.{StandsOn};

use pos_edge::{
    BlankDisk, CreateFault, Disk, FileId, MAX_SCRATCH_FILES, Memory, MemoryDisk, MemorySink,
    MemorySource, OpenFault, PutFailed, Scratch, Sink, Source, TakeFailed, WorkFault,
};
use std::alloc::Global;
use std::process::Abort;
use std::test::Fail;

#[test]
fn text_with_room_is_the_pieces_joined(rt: HostRuntime) -> Result<(), Fail> {
    let alloc = rt.alloc();
    let mut sink = MemorySink::new(alloc, Vec::new(alloc), 100)?;
    sink.put(b"plot ")?;
    sink.put(b"")?;
    sink.put(b"opens\n")?;
    assert_eq!(rt; sink.text(), b"plot opens\n".as_slice());
    Ok(())
}

#[test]
fn a_sink_fails_at_its_first_put_and_where_room_is_short(rt: HostRuntime) -> Result<(), Fail> {
    let alloc = rt.alloc();
    let mut sink = MemorySink::new(alloc, vec![in alloc; 0]?, 4)?;
    assert_eq!(rt; sink.put(b"abc"), Err(PutFailed));
    assert_eq!(rt; sink.put(b"abc"), Ok(()));
    assert_eq!(rt; sink.put(b"de"), Err(PutFailed));
    assert_eq!(rt; sink.put(b"d"), Ok(()));
    assert_eq!(rt; sink.text(), b"abcd".as_slice());
    let memory = Memory;
    assert_eq!(rt; memory, Memory);
    Ok(())
}

// The next take into a buffer of eight bytes gives these.
fn gives(rt: &impl Abort, source: &mut MemorySource, want: &[u8]) {
    let mut buf = [0; 8];
    let count = source.take(&mut buf).unwrap_or(9);
    assert_eq!(rt; buf.get(..count), Some(want));
}

#[test]
fn a_source_gives_its_bytes_by_pieces_and_then_none(rt: HostRuntime) -> Result<(), Fail> {
    let alloc = rt.alloc();
    let bytes = Vec::from_slice(alloc, b"proofs of a plot\n")?;
    let mut source = MemorySource::new(bytes, vec![in alloc; 3, 0, 20]?, Vec::new(alloc));
    for want in [b"pro".as_slice(), b"o", b"fs of a ", b"plot\n", b"", b""] {
        gives(&rt, &mut source, want);
    }
    Ok(())
}

#[test]
fn a_source_fails_at_its_second_take_and_loses_nothing(rt: HostRuntime) -> Result<(), Fail> {
    let alloc = rt.alloc();
    let bytes = Vec::from_slice(alloc, b"quit\n")?;
    let mut source = MemorySource::new(bytes, vec![in alloc; 2]?, vec![in alloc; 1]?);
    let mut buf = [0; 8];
    assert_eq!(rt; source.take(&mut buf), Ok(2));
    assert_eq!(rt; source.take(&mut buf), Err(TakeFailed));
    gives(&rt, &mut source, b"it\n");
    Ok(())
}

// A disk with one file.
fn disk_with(alloc: Global, name: &str, bytes: &[u8]) -> Result<MemoryDisk, Memory> {
    let mut disk = MemoryDisk::new(alloc, Vec::new(alloc));
    disk.add(name, bytes)?;
    Ok(disk)
}

// A name has these bytes, or no file.
fn holds(rt: &impl Abort, disk: &MemoryDisk, name: &str, want: Option<&[u8]>) {
    assert_eq!(rt; disk.contents(name), want, "{name}");
}

// Scratch files of the base `s`, none made yet.
fn scratch_on<D: Disk>(alloc: Global, disk: &D) -> Result<Scratch, Memory>
    ensures none { IfOk result (λ scratch. scratch.made ≡ 0) }
    ensures stands { IfOk result (λ scratch. StandsOn scratch (D.view disk.now)) }
{
    Scratch::new(alloc, "s")
}

#[test]
fn a_scratch_file_that_is_there_is_refused_by_its_number(rt: HostRuntime) -> Result<(), Fail> {
    let alloc = rt.alloc();
    let mut disk = disk_with(alloc, "s.1", b"kept")?;
    let mut scratch = scratch_on(alloc, &disk)?;
    scratch.create(&mut disk).map_err(|_| Memory)?;
    assert_eq!(rt;
        scratch.create(&mut disk),
        Err(WorkFault::Exists { file: 1 })
    );
    assert_eq!(rt; scratch.made(), 1);
    holds(&rt, &disk, "s.0", Some(b""));
    holds(&rt, &disk, "s.1", Some(b"kept"));
    Ok(())
}

#[test]
fn the_second_call_fails_as_it_is_told(rt: HostRuntime) -> Result<(), Fail> {
    let alloc = rt.alloc();
    let mut disk = MemoryDisk::new(alloc, vec![in alloc; 1]?);
    assert_eq!(rt; disk.open("p"), Err(OpenFault::Absent));
    assert_eq!(rt; disk.create("p"), Err(CreateFault::Failed));
    assert_eq!(rt; disk.contents("p"), None);
    assert_eq!(rt; disk.calls(), 2);
    let mut stopped = MemoryDisk::stopping(alloc, 1);
    assert_eq!(rt; stopped.open("p"), Err(OpenFault::Absent));
    assert_eq!(rt; stopped.open("p"), Err(OpenFault::Failed));
    Ok(())
}

// Makes the file `p`.
fn make_file<D: Disk>(disk: &mut D) -> Result<FileId, Memory>
    ensures live { IfOk result (λ file. IsTrue ((D.view disk.new).is_live file.0)) }
    ensures there { IfOk result (λ file. IsThere file.0 (D.view disk.new)) }
{
    disk.create("p").map_err(|_| Memory)
}

// Writes a zero, and syncs it.
fn sync_zero<D: Disk>(disk: &mut D, file: FileId) -> Result<(), Memory>
    requires live { IsTrue ((D.view disk.old).is_live file.0) }
    requires there { IsThere file.0 (D.view disk.old) }
    ensures live { OnOk result (IsTrue ((D.view disk.new).is_live file.0)) }
    ensures there { OnOk result (IsThere file.0 (D.view disk.new)) }
    ensures size { OnOk result (1 ≤ (D.view disk.new).size_of file.0) }
{
    disk.write_at(file, 0, &[0]).map_err(|_| Memory)?;
    disk.sync(file).map_err(|_| Memory)
}

// Writes behind the zero, and then over it.
fn write_twice<D: Disk>(disk: &mut D, file: FileId) -> Result<(), Memory>
    requires live { IsTrue ((D.view disk.old).is_live file.0) }
    requires there { IsThere file.0 (D.view disk.old) }
    requires size { 1 ≤ (D.view disk.old).size_of file.0 }
{
    disk.write_at(file, 1, b"ab").map_err(|_| Memory)?;
    disk.write_at(file, 0, &[1]).map_err(|_| Memory)
}

// The image of `p` with so many writes has these bytes.
fn has_image(
    rt: &impl Abort,
    alloc: Global,
    disk: &MemoryDisk,
    writes: u64,
    want: &[u8],
) -> Result<(), Fail> {
    let image = disk.image(alloc, "p", writes)?.ok_or("no file")?;
    assert_eq!(rt; image.as_slice(), want, "after {writes} writes");
    Ok(())
}

#[test]
fn images_have_the_synced_bytes_and_the_later_writes(rt: HostRuntime) -> Result<(), Fail> {
    let alloc = rt.alloc();
    let mut disk = MemoryDisk::new(alloc, Vec::new(alloc));
    let file = make_file(&mut disk)?;
    assert_eq!(rt; disk.image(alloc, "p", 0)?, None);
    sync_zero(&mut disk, file)?;
    write_twice(&mut disk, file)?;
    has_image(&rt, alloc, &disk, 0, b"\x00")?;
    has_image(&rt, alloc, &disk, 1, b"\x00ab")?;
    has_image(&rt, alloc, &disk, 2, b"\x01ab")?;
    has_image(&rt, alloc, &disk, 9, b"\x01ab")?;
    assert_eq!(rt; disk.image(alloc, "q", 1)?, None);
    Ok(())
}

#[test]
fn a_blank_disk_reads_zeros(rt: HostRuntime) -> Result<(), Fail> {
    let alloc = rt.alloc();
    let mut disk = BlankDisk::new(alloc);
    let file = disk.create("s.0").map_err(|_| Memory)?;
    disk.write_at(file, 0, b"abc").map_err(|_| Memory)?;
    let mut got = [7; 3];
    disk.read_at(file, 0, &mut got).map_err(|_| Memory)?;
    assert_eq!(rt; got, [0; 3]);
    assert_eq!(rt; disk.create("s.0"), Err(CreateFault::Exists));
    Ok(())
}

// Makes so many scratch files.
fn make_files<D: Disk>(scratch: &mut Scratch, disk: &mut D, count: u32) -> Result<(), WorkFault>
    requires room { scratch.old.made + count ≤ MAX_SCRATCH_FILES }
    requires stands { StandsOn scratch.old (D.view disk.old) }
    ensures stands { OnOk result (StandsOn scratch.new (D.view disk.new)) }
{
    for _i in 0..count {
        scratch.create(disk)?;
    }
    Ok(())
}

#[test]
fn a_hundred_and_one_scratch_files_are_cleared(rt: HostRuntime) -> Result<(), Fail> {
    let alloc = rt.alloc();
    let mut disk = disk_with(alloc, "s.101", b"kept")?;
    let mut scratch = scratch_on(alloc, &disk)?;
    make_files(&mut scratch, &mut disk, 101)?;
    assert_eq!(rt; scratch.made(), 101);
    for name in ["s.0", "s.9", "s.10", "s.99", "s.100"] {
        holds(&rt, &disk, name, Some(b""));
    }
    assert_eq!(rt; scratch.clear(&mut disk), Ok(()));
    for name in ["s.0", "s.9", "s.10", "s.99", "s.100"] {
        holds(&rt, &disk, name, None);
    }
    holds(&rt, &disk, "s.101", Some(b"kept"));
    Ok(())
}
