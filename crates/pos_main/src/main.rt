//! The program: it hands the words of the command line, the real disk and standard output to `run`, and ends with its
//! status.
#![tactic(auto)]

use pos_app::run;
use pos_host::{HostDisk, HostSink};
use std::env::FillError;
use std::io;
use std::io::ErrorKind;
use std::process::ExitCode;
use std::rt::Env;

// The status where standard output is not there.
const SINK_FAULT: u8 = 7;

// The status where there is no memory for the words.
const OUT_OF_MEMORY: u8 = 9;

// The bytes that a word is first given room for.
const FIRST_ROOM: usize = 256;

fn main(rt: HostRuntime) -> ExitCode {
    let words = match words_of(&rt) {
        Ok(words) => words,
        // A word that is no text is no command, and nor are no words.
        Err(e) if e.kind() == ErrorKind::InvalidData => Vec::new(rt.alloc()),
        Err(_) => return ExitCode::from(OUT_OF_MEMORY),
    };
    // Standard output is tried before any file is opened.
    let Ok(mut out) = HostSink::new(io::writer(&rt)) else {
        return ExitCode::from(SINK_FAULT);
    };
    let mut disk = HostDisk::new(&rt, rt.alloc());
    ExitCode::from(run(rt.alloc(), words.as_slice(), &mut disk, &mut out))
}

// The words behind the program's name, which itself may be no text.
fn words_of<R: Env + AllocGlobal>(rt: &R) -> io::Result<Vec<String>> {
    let mut words = Vec::new(rt.alloc());
    for i in 1..usize::MAX {
        match word_at(rt, i)? {
            Some(word) => words.push(word)?,
            None => break,
        }
    }
    Ok(words)
}

// Word number i, of any length, or None behind the last one.
fn word_at<R: Env + AllocGlobal>(rt: &R, i: usize) -> io::Result<Option<String>> {
    let mut room = FIRST_ROOM;
    for _ in 0..usize::BITS {
        let mut bytes = vec![in rt.alloc(); 0u8; room]?;
        match rt.arg(i, bytes.as_mut_slice()) {
            Ok(length) => {
                bytes.truncate(length);
                return Ok(Some(text_of(bytes)?));
            }
            Err(FillError::NotPresent) => return Ok(None),
            Err(FillError::TooLong) => room = room.saturating_mul(2),
        }
    }
    Err(io::Error::from(ErrorKind::OutOfMemory))
}

// The text of a word.
fn text_of(bytes: Vec<u8>) -> io::Result<String> {
    match String::from_utf8(bytes) {
        Ok(text) => Ok(text),
        Err(_) => Err(io::Error::from(ErrorKind::InvalidData)),
    }
}
