//! `swim explain`.

use crate::tale::{Tale, tale_of};
use std::alloc::AllocError;
use std::fs::{self, File};
use std::rt::Files;
use swim_input::{INPUT_MAX, InputFault, read_file};
use swim_record::read_name;
use swim_replay::{Played, RecordingFault, RecordingReason, play_from};
use swim_wire::Endpoint;
use thiserror::Error;

/// Why a file tells nothing.
#[derive(Clone, Copy, Debug, PartialEq, Eq, Error)]
pub enum ExplainFault {
    /// There is no memory.
    #[error("memory")]
    Memory,
    /// The file cannot be opened or read.
    #[error("file refused")]
    File,
    /// It is a pipe, a device or a socket.
    #[error("file refused: it is a pipe, a device or a socket, and no file")]
    NotFile,
    /// It has more bytes than this.
    #[error("file refused: it has more than {0} bytes")]
    TooLong(u64),
    /// It is no recording.
    #[error("{0}")]
    Recording(RecordingFault),
}

impl From<AllocError> for ExplainFault {
    fn from(_: AllocError) -> ExplainFault {
        ExplainFault::Memory
    }
}

impl From<InputFault> for ExplainFault {
    fn from(fault: InputFault) -> ExplainFault {
        match fault {
            InputFault::Memory => ExplainFault::Memory,
            InputFault::NotFile => ExplainFault::NotFile,
            InputFault::TooLong(most) => ExplainFault::TooLong(most),
            InputFault::System(_) => ExplainFault::File,
        }
    }
}

impl From<RecordingFault> for ExplainFault {
    fn from(fault: RecordingFault) -> ExplainFault {
        match fault.reason {
            RecordingReason::NoMemory => ExplainFault::Memory,
            _ => ExplainFault::Recording(fault),
        }
    }
}

/// A reason of the first line.
fn refused(reason: RecordingReason) -> ExplainFault {
    ExplainFault::from(RecordingFault { line: 1, reason })
}

/// The recordings of a folder.
fn recordings_in<R: Files<File = File> + AllocGlobal + Clone>(
    rt: &R,
    folder: &str,
) -> Result<Vec<String>, ExplainFault> {
    let mut paths = Vec::new(rt.alloc());
    let entries = fs::read_dir(rt, folder).map_err(|_| ExplainFault::File)?;
    for entry in entries {
        let entry = entry.map_err(|_| ExplainFault::File)?;
        let name = entry.file_name();
        if read_name(rt.alloc(), name)?.is_some() {
            let path = format!(in rt.alloc(); "{folder}/{name}")?;
            paths.push(path).map_err(|_| ExplainFault::Memory)?;
        }
    }
    Ok(paths)
}

/// The recordings that a path stands for: those of a folder, in the order of their names, which is that of the eras; else itself.
pub fn recordings_at<R: Files<File = File> + AllocGlobal + Clone>(
    rt: &R,
    path: &str,
) -> Result<Vec<String>, ExplainFault> {
    let is_folder = match fs::metadata(rt, path) {
        Ok(metadata) => metadata.is_dir(),
        Err(_) => false,
    };
    let mut paths = Vec::new(rt.alloc());
    if is_folder {
        paths = recordings_in(rt, path)?;
        paths.sort()?;
    } else {
        let path = String::from_str(rt.alloc(), path)?;
        paths.push(path).map_err(|_| ExplainFault::Memory)?;
    }
    Ok(paths)
}

/// The paths in the order of their names, which is that of the eras where all lie in one folder.
pub fn in_order<R: AllocGlobal>(rt: &R, files: &[String]) -> Result<Vec<String>, AllocError> {
    let mut names = Vec::new(rt.alloc());
    for file in files {
        names.push(file.clone()?)?;
    }
    names.sort()?;
    Ok(names)
}

/// What the recording at this path tells of a member. Err: it cannot be opened or read, it is no recording, or there was no memory.
pub fn tell_file<R: Files<File = File> + AllocGlobal>(
    rt: &R,
    path: &str,
    who: Endpoint,
) -> Result<Tale, ExplainFault> {
    let text = read_file(rt, path, INPUT_MAX)?;
    let Played {
        time,
        beginning,
        era,
    } = play_from(rt.alloc(), &text)?;
    let path = String::from_str(rt.alloc(), path)?;
    match tale_of(rt.alloc(), path, time, beginning, &era, who) {
        Ok(tale) => Ok(tale),
        Err(fault) => Err(refused(RecordingReason::from(fault))),
    }
}
