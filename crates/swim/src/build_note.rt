//! What is known of how the program was built. It cannot know that by itself: what a check of its proofs leaves is not in it.

use std::alloc::AllocError;
use std::env;
use swim_input::read_file;

/// Where a package says it, from the folder above the program's.
const PLACE: &str = "share/swim/build";

/// The most bytes of that.
const NOTE_MAX: u64 = 500;

/// The environment variable in which `.ci/tried` says from what it built a program without proof.
const TRIED_VARIABLE: &str = "SWIM_TRIED";

/// What the package of the program says: the commit, the kit, and whether it is proved. None where it came by no package.
fn packaged_note(rt: &HostRuntime) -> Option<String> {
    let program = env::current_exe(rt).ok()?;
    let place = program.parent()?.parent()?.join(rt.alloc(), PLACE).ok()?;
    let note = read_file(rt, place.to_str()?, NOTE_MAX).ok()?;
    String::from_utf8(note).ok()
}

/// The line of how the program was built. Only a package can say that it is proved.
pub(crate) fn build_note(rt: &HostRuntime) -> Result<String, AllocError> {
    if let Some(note) = packaged_note(rt) {
        return Ok(note);
    }
    match env::var(rt, TRIED_VARIABLE) {
        Ok(tried) => format!(in rt.alloc(); "{tried}, NOT PROVED\n"),
        Err(_) => String::from_str(
            rt.alloc(),
            "NOT PROVED, as far as is known: no share/swim/build says how this program was built\n",
        ),
    }
}
