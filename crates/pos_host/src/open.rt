// How real files are opened: never as a standard stream, never a fifo or a device, and for writing only where they are made.
ghost use Rattle.std.specs.Prelude.{◌≡◌, pos, ◌<ℤ◌, IfOk};
ghost use Rattle.std.specs.Fd.{file_raw_fd};

use std::fs;
use std::fs::{File, Metadata, OpenFile, OpenOptions};
use std::io::ErrorKind;
use std::os::fd::AsRawFd;
use std::path::Path;
use std::rt::Files;

// The descriptors up to this one are the standard streams'.
const LAST_STANDARD: i32 = 2;

// An open file, its name, and how many bytes it had when it was opened, raised by the writes through it.
#[derive(Drop)]
pub struct HostFile {
    pub file: File,
    pub name: String,
    pub size: u64,
    // Its descriptor is none of the standard streams'.
    pub ghost apart: { pos 2 <ℤ file_raw_fd file },
}

// Makes an empty file for reads and writes, where no file or folder has the name.
pub fn create_new<R: Files<File = File>>(rt: &R, name: String) -> Result<HostFile, ErrorKind>
    ensures { IfOk result (λ made. made.size ≡ 0) }
{
    let mut how = OpenOptions::new();
    how.read(true).write(true).create_new(true);
    let file = above_standard(how.open(rt, name.as_str()).map_err(|e| e.kind())?)?;
    Ok(HostFile {
        file,
        name,
        size: 0,
    })
}

// Opens a file for reads alone. What is no plain file is not opened, since a fifo would wait for a writer and a device
// may do anything; it is looked at again once it is open, since the name may have changed hands.
pub fn open_to_read<R: Files<File = File>>(rt: &R, name: String) -> Result<HostFile, ErrorKind> {
    plain_size(&fs::metadata(rt, name.as_str()).map_err(|e| e.kind())?)?;
    let file = above_standard(File::open(rt, name.as_str()).map_err(|e| e.kind())?)?;
    let size = plain_size(&file.metadata().map_err(|e| e.kind())?)?;
    Ok(HostFile { file, name, size })
}

// How many bytes a plain file has.
fn plain_size(metadata: &Metadata) -> Result<u64, ErrorKind> {
    if metadata.is_file() {
        Ok(metadata.len())
    } else {
        Err(ErrorKind::InvalidInput)
    }
}

// The file by a descriptor that is none of the standard streams': where one of these was closed, the system gives its
// number to the next file, and text for the stream would be written into that file.
fn above_standard(file: File) -> Result<File, ErrorKind>
    ensures { IfOk result (λ file. pos 2 <ℤ file_raw_fd file) }
{
    if file.as_raw_fd() > LAST_STANDARD {
        return Ok(file);
    }
    // The system numbers a clone from 3 on.
    let clone = file.try_clone().map_err(|e| e.kind())?;
    if clone.as_raw_fd() > LAST_STANDARD {
        Ok(clone)
    } else {
        Err(ErrorKind::Other)
    }
}

// Syncs the folder that the file is in, and so its name there, or that the name is gone.
pub fn is_folder_synced<R: Files>(rt: &R, name: &str) -> bool {
    let folder = match Path::new(name).parent() {
        Some(parent) if !parent.as_str().is_empty() => parent,
        _ => Path::new("."),
    };
    match fs::open(rt, folder) {
        Ok(folder) => folder.sync_all().is_ok(),
        Err(_) => false,
    }
}
