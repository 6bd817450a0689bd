//! `swim show`.

ghost use Rattle.std.specs.Prelude.{◌≤◌, length, IfOk};
ghost use Rattle.swim_disk.specs.declared.mem.TheConstants.{MOST_BYTES};

use crate::departing::departures;
use crate::fault::ShowFault;
use crate::json::Json;
use crate::lines::{Lines, Said};
use crate::shown::show;
use std::fs::File;
use std::io::Read;
use std::rt::Files;
use swim_disk::MOST_BYTES;
use swim_input::open_file;

/// What is printed of a file.
#[derive(Drop)]
pub struct Told {
    /// Lines for a person, or a JSON object on one line.
    pub text: String,
    /// Whether an opening would begin a life.
    pub is_sound: bool,
}

/// The bytes of a file that anybody looks at, and how many it has. It is opened for reading alone.
fn read_file<R: Files<File = File> + AllocGlobal>(
    rt: &R,
    path: &str,
) -> Result<(Vec<u8>, u64), ShowFault>
    ensures { IfOk result (λ file. length file.0.items ≤ MOST_BYTES) }
{
    let file = open_file(rt, path)?;
    let size = file.metadata()?.len();
    let mut bytes = Vec::new(rt.alloc());
    file.take(MOST_BYTES).read_to_end(&mut bytes)?;
    bytes.truncate(MOST_BYTES as usize);
    Ok((bytes, size))
}

/// What the state file at this path says, whether a member runs on it or not. Nothing is written, and it is not locked. Err: it
/// cannot be opened or read, or there was no memory.
pub fn answer<R: Files<File = File> + AllocGlobal>(
    rt: &R,
    path: &str,
    as_json: bool,
) -> Result<Told, ShowFault> {
    let (image, size) = read_file(rt, path)?;
    let departures = departures(rt.alloc(), &image)?;
    let shown = show(rt.alloc(), image)?;
    let said = Said {
        size,
        shown,
        departures: &departures,
    };
    let text = if as_json {
        format!(in rt.alloc(); "{}\n", Json(said))?
    } else {
        format!(in rt.alloc(); "{}", Lines(said))?
    };
    let is_sound = shown.is_sound();
    Ok(Told { text, is_sound })
}
