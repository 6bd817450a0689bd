//! The standard descriptors of the process.

use std::fs::{File, OpenOptions};
use std::io;
use std::os::fd::{AsRawFd, RawFd};
use std::rt::Files;

/// How many standard descriptors there are: 0 to 2.
const STANDARD: usize = 3;

/// The descriptor of standard output.
const OUTPUT: RawFd = 1;

/// What is read as nothing, and takes all that is written.
const NULL_DEVICE: &str = "/dev/null";

/// What takes nothing that is written, and says so.
const FULL_DEVICE: &str = "/dev/full";

/// Opens a device as the first descriptor that is free.
fn open_device<R: Files<File = File>>(rt: &R, device: &str) -> io::Result<File> {
    OpenOptions::new().read(true).write(true).open(rt, device)
}

/// Opens the null device as the first descriptor that is free; if that is standard output, one that takes nothing, so that who prints is
/// told that nobody gets it.
fn open_place<R: Files<File = File>>(rt: &R) -> io::Result<File> {
    let file = open_device(rt, NULL_DEVICE)?;
    if file.as_raw_fd() != OUTPUT {
        return Ok(file);
    }
    drop(file);
    open_device(rt, FULL_DEVICE).or_else(|_| open_device(rt, NULL_DEVICE))
}

/// Opens a device for each standard descriptor that was closed when the program began. Else the next file that is
/// opened takes its place: a state file as descriptor 2 has the log written into it. They stay so as long as what is given
/// back. Where there is no such device, none is opened.
pub fn hold_standard<R: Files<File = File>>(rt: &R) -> [Option<File>; STANDARD] {
    let mut held = [None, None, None];
    for place in 0..STANDARD {
        let Ok(file) = open_place(rt) else {
            return held;
        };
        if file.as_raw_fd() >= STANDARD as RawFd {
            return held;
        }
        held[place] = Some(file);
    }
    held
}
