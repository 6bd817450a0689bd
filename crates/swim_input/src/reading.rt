//! Files and streams that are read whole, where they are no longer than a bound.

ghost use Rattle.std.specs.Prelude.{◌≡◌, ◌≤◌, ◌<◌, ◌↔◌, ◌⊎◌, length, IfOk, IfSome, IsOk};
ghost use Rattle.std.specs.Fs.{IsDir, IsFile, file_type, metadata_len};

use crate::fault::InputFault;
use std::alloc::Global;
use std::fs::{self, File, Metadata};
use std::io::Read;
use std::os::unix::fs::FileTypeExt;
use std::rt::Files;

/// The most bytes of a file with settings, or with a plan.
pub const SETTINGS_MAX: u64 = 1_048_576;

/// The most bytes of a script, a recording or a capture.
pub const INPUT_MAX: u64 = 268_435_456;

/// The most bytes that a device gives, as a terminal does.
const DEVICE_MAX: u64 = 1_048_576;

/// What names standard input.
const STANDARD_INPUT: &str = "/dev/stdin";

/// Refuses what is no file, and a file with more bytes. A folder is left to the system, which opens none.
fn judge(found: &Metadata, most: u64) -> Result<(), InputFault>
    ensures { IsOk result ↔ ((IsFile (file_type found.now) ⊎ IsDir (file_type found.now))
        × (metadata_len found.now ≤ most)) }
{
    if !found.is_file() && !found.is_dir() {
        return Err(InputFault::NotFile);
    }
    if found.len() > most {
        return Err(InputFault::TooLong(most));
    }
    Ok(())
}

/// Refuses what stands at this path where it is no file, or has more bytes now. It is not opened: to open a pipe would wait for who
/// writes to it.
pub fn look_at<R: Files<File = File>>(rt: &R, path: &str, most: u64) -> Result<(), InputFault> {
    judge(&fs::metadata(rt, path)?, most)
}

/// Opens the file at this path for reading, whatever its length.
pub fn open_file<R: Files<File = File>>(rt: &R, path: &str) -> Result<File, InputFault> {
    look_at(rt, path, u64::MAX)?;
    Ok(File::open(rt, path)?)
}

/// All that a stream gives, if it is no longer than this. Of a longer one no more is read than one byte beyond.
#[tactic(auto, using(crate::proofs::Bounds::all_taken))]
pub fn read_stream<S: Read + Drop>(
    alloc: Global,
    stream: S,
    most: u64,
) -> Result<Vec<u8>, InputFault>
    requires { most < u64.MAX }
    ensures bound { IfOk result (λ bytes. length bytes.items ≤ most) }
    ensures whole { IfSome (S.remaining stream)
        (λ all. IfOk result (λ bytes. bytes.items ≡ all)) }
{
    let mut bytes = Vec::new(alloc);
    stream.take(most + 1).read_to_end(&mut bytes)?;
    if bytes.len() as u64 > most {
        return Err(InputFault::TooLong(most));
    }
    Ok(bytes)
}

/// All bytes of the file at this path, if it has no more than this.
pub fn read_file<R: Files<File = File> + AllocGlobal>(
    rt: &R,
    path: &str,
    most: u64,
) -> Result<Vec<u8>, InputFault>
    requires { most < u64.MAX }
    ensures bound { IfOk result (λ bytes. length bytes.items ≤ most) }
{
    look_at(rt, path, most)?;
    let file = File::open(rt, path)?;
    read_stream(rt.alloc(), file, most)
}

/// How much is read of a standard input that is so: little of a device, since some have no end. A file with too many bytes is refused.
fn most_of(found: &Metadata) -> Result<u64, InputFault>
    ensures { IfOk result (λ most. most ≤ INPUT_MAX) }
{
    if found.file_type().is_char_device() {
        return Ok(DEVICE_MAX);
    }
    if found.is_file() && found.len() > INPUT_MAX {
        return Err(InputFault::TooLong(INPUT_MAX));
    }
    Ok(INPUT_MAX)
}

/// All of standard input, if it is no longer than a script, a recording or a capture is.
pub fn read_input(rt: &HostRuntime) -> Result<Vec<u8>, InputFault>
    ensures bound { IfOk result (λ bytes. length bytes.items ≤ INPUT_MAX) }
{
    let most = match fs::metadata(rt, STANDARD_INPUT) {
        Ok(found) => most_of(&found)?,
        Err(_) => INPUT_MAX,
    };
    read_stream(rt.alloc(), rt.stdin(), most)
}
