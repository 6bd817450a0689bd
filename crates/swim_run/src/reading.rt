//! The settings file.

ghost use Rattle.std.specs.Prelude.{IfOk};
ghost use Rattle.swim_settings.specs.Ranges.{AreInRange};

use std::fs::File;
use std::rt::Files;
use swim_exit::Failure;
use swim_input::{SETTINGS_MAX, read_file};
use swim_settings::{RunSettings, read_settings};

/// Settings that a file said, each in its range.
#[derive(Drop)]
pub(crate) struct CheckedSettings {
    pub(crate) told: RunSettings,
    ghost range: { AreInRange told },
}

/// The settings that a file says, as `settings_at` has them, to be handed on.
pub(crate) fn checked_at<R: Files<File = File> + AllocGlobal>(
    rt: &R,
    config: &str,
) -> Result<CheckedSettings, Failure> {
    match settings_at(rt, config) {
        Ok(told) => Ok(CheckedSettings { told }),
        Err(failure) => Err(failure),
    }
}

/// The settings that a file says. One that is no file, or has more than `SETTINGS_MAX` bytes, is refused.
pub fn settings_at<R: Files<File = File> + AllocGlobal>(
    rt: &R,
    config: &str,
) -> Result<RunSettings, Failure>
    ensures { IfOk result AreInRange }
{
    let alloc = rt.alloc();
    let text = match read_file(rt, config, SETTINGS_MAX) {
        Ok(text) => text,
        Err(fault) => return Err(Failure::of_input(alloc, "settings", config, fault)),
    };
    match read_settings(alloc, text.as_slice()) {
        Ok(settings) => Ok(settings),
        Err(refusal) => Err(Failure::of_settings(alloc, config, text.as_slice(), refusal)),
    }
}
