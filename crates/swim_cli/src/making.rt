//! `swim init`.

use crate::new_file::NewFile;
use std::alloc::Global;
use std::fs::{self, File};
use std::io::{self, ErrorKind};
use std::random::RandomSource;
use std::rt::Files;
use swim_disk::FileDisk;
use swim_exit::{Exit, Failure};
use swim_start::{open_locked, sync_folder};
use swim_state::{InitFault, Owner, init};
use swim_wire::NUMBER_MAX;
use swim_words::read_endpoint;

/// The exit where a state file is not written. Of a new one, which has this name until it is whole, it has what the system says of another
/// write, if its disk still refuses that.
fn unwritten<R: Files<File = File> + AllocGlobal>(
    rt: &R,
    path: &str,
    new: Option<&NewFile<'_>>,
    fault: InitFault,
) -> Failure {
    let (alloc, exit) = (rt.alloc(), Exit::Init(fault));
    let asked = match new {
        Some(new) if fault == InitFault::Device => new.ask_anew(rt),
        _ => Ok(()),
    };
    match asked {
        Ok(()) => Failure::about(alloc, exit, format_args!("state file {path}")),
        Err(error) => Failure::about(alloc, exit, format_args!("state file {path}: {error}")),
    }
}

/// Refuses a ceiling above all numbers.
pub fn judge_ceiling(alloc: Global, ceiling: u64) -> Result<(), Failure> {
    if ceiling <= NUMBER_MAX {
        return Ok(());
    }
    Err(Failure::about(
        alloc,
        Exit::Init(InitFault::Range),
        format_args!("--ceiling {ceiling}: it is above {NUMBER_MAX}"),
    ))
}

/// What a state file begins with.
#[derive(Clone, Copy)]
struct Beginning {
    owner: Owner,
    ceiling: u64,
}

/// Writes the state file at this path into an open file, which it gives as a disk: the file stays locked until that is let go.
fn write_state<R: Files<File = File> + AllocGlobal>(
    rt: &R,
    path: &str,
    new: Option<&NewFile<'_>>,
    file: File,
    beginning: &Beginning,
) -> Result<FileDisk, Failure> {
    let mut disk = match FileDisk::load(rt.alloc(), file) {
        Ok(disk) => disk,
        Err(error) if error.kind() == ErrorKind::OutOfMemory => {
            return Err(Failure::from(Exit::Memory));
        }
        Err(_) => return Err(unwritten(rt, path, new, InitFault::Device)),
    };
    match init(&mut disk, beginning.owner, beginning.ceiling) {
        Ok(()) => Ok(disk),
        Err(fault) => Err(unwritten(rt, path, new, fault)),
    }
}

/// Makes the state file in a file that is there, which has to be empty.
fn make_in_place<R: Files<File = File> + AllocGlobal>(
    rt: &R,
    path: &str,
    beginning: &Beginning,
) -> Result<(), Failure> {
    let alloc = rt.alloc();
    let unopened = |error: io::Error| Failure::of_state_file(alloc, path, &error);
    let opened = open_locked(rt, path, false).map_err(&unopened)?;
    let _locked = write_state(rt, path, None, opened.into_file(), beginning)?;
    sync_folder(rt, path).map_err(&unopened)
}

/// Writes the state file into a new file without a path, and locks it, so that nobody runs on it before its path is durable.
fn fill<R: Files<File = File> + AllocGlobal>(
    rt: &R,
    path: &str,
    new: &NewFile<'_>,
    file: File,
    beginning: &Beginning,
) -> Result<FileDisk, Failure> {
    let alloc = rt.alloc();
    file.lock().map_err(|error: io::Error| Failure::of_state_file(alloc, path, &error))?;
    write_state(rt, path, Some(new), file, beginning)
}

/// Makes the state file where none is: it is whole, and on the disk, before it has its path. What comes to be there meanwhile stays.
fn make_new<R: Files<File = File> + RandomSource + AllocGlobal>(
    rt: &R,
    path: &str,
    beginning: &Beginning,
) -> Result<(), Failure> {
    let unmade = |error: io::Error| Failure::of_state_file(rt.alloc(), path, &error);
    let (new, file) = NewFile::begin(rt, path).map_err(&unmade)?;
    let locked = match fill(rt, path, &new, file, beginning) {
        Ok(disk) => disk,
        Err(failure) => {
            new.give_up(rt);
            return Err(failure);
        }
    };
    let named = new.name(rt);
    drop(locked);
    match named {
        Ok(()) => Ok(()),
        Err(error) if error.kind() == ErrorKind::AlreadyExists => {
            Err(unwritten(rt, path, None, InitFault::NotEmpty))
        }
        Err(error) => Err(unmade(error)),
    }
}

/// With what a state file begins by these words. An endpoint that is none is refused, and so is a ceiling above the greatest number.
fn beginning_by(alloc: Global, group: u64, me: &str, ceiling: u64) -> Result<Beginning, Failure> {
    let Some(me) = read_endpoint(me.as_bytes()) else {
        return Err(Failure::of_address(alloc, "--me", me));
    };
    judge_ceiling(alloc, ceiling)?;
    Ok(Beginning {
        owner: Owner { group, me },
        ceiling,
    })
}

/// Makes the state file of a member where none is, as `make` does. What is at the path is not opened, so that who runs on it keeps its
/// lock, and the exit is that of a file that is not empty.
pub fn make_first<R: Files<File = File> + RandomSource + AllocGlobal>(
    rt: &R,
    file: &str,
    group: u64,
    me: &str,
    ceiling: u64,
) -> Result<(), Failure> {
    let beginning = beginning_by(rt.alloc(), group, me, ceiling)?;
    make_new(rt, file, &beginning)
}

/// Makes the state file of a member, whose endpoint is a word not yet judged. A ceiling above the greatest number is
/// refused before the file is touched, so that none is left behind. What is at the path stays as it is, but for an empty file, in which
/// the state file is made.
pub fn make<R: Files<File = File> + RandomSource + AllocGlobal>(
    rt: &R,
    file: &str,
    group: u64,
    me: &str,
    ceiling: u64,
) -> Result<(), Failure> {
    let alloc = rt.alloc();
    let beginning = beginning_by(alloc, group, me, ceiling)?;
    match fs::exists(rt, file) {
        Ok(false) => make_new(rt, file, &beginning),
        Ok(true) => make_in_place(rt, file, &beginning),
        Err(error) => Err(Failure::of_state_file(alloc, file, &error)),
    }
}
