//! Where the member is asked whose folder this is.

use crate::grouping::lacks_memory;
use std::fs;
use swim_exit::{Exit, Failure};
use swim_run::settings_at;

/// What the folder of a member is called before its endpoint, where no other name was given.
const PREFIX: &str = "swim-";

/// The name of the settings in it.
const SETTINGS: &str = "member.toml";

/// The control socket of the member that the package's service runs, as its example settings have it.
const SERVICE: &str = "/var/lib/swim/control";

/// Whether the settings of a member are in a folder.
fn has_settings(rt: &HostRuntime, folder: &str) -> Result<bool, Failure> {
    let path = format!(in rt.alloc(); "{folder}/{SETTINGS}").map_err(lacks_memory)?;
    Ok(fs::exists(rt, path.as_str()).unwrap_or(false))
}

/// The control socket of the member whose folder this is, by its settings. An error is that these are not read, or refused.
pub fn control_in(rt: &HostRuntime, folder: &str) -> Result<String, Failure> {
    let path = format!(in rt.alloc(); "{folder}/{SETTINGS}").map_err(lacks_memory)?;
    let control = settings_at(rt, path.as_str())?.control;
    format!(in rt.alloc(); "{control}").map_err(lacks_memory)
}

/// The members' folders in the working directory, by their names. One that cannot be read has none.
fn folders_here(rt: &HostRuntime) -> Result<Vec<String>, Failure> {
    let mut folders = Vec::new(rt.alloc());
    let Ok(entries) = fs::read_dir(rt, ".") else {
        return Ok(folders);
    };
    for entry in entries {
        let Ok(entry) = entry else {
            break;
        };
        let name = entry.file_name();
        if name.starts_with(PREFIX) && has_settings(rt, name)? {
            let named = String::from_str(rt.alloc(), name).map_err(lacks_memory)?;
            let pushed = folders.push(named);
            pushed.map_err(|_| Failure::from(Exit::Memory))?;
        }
    }
    folders.sort().map_err(lacks_memory)?;
    Ok(folders)
}

/// The control socket of the service on this machine; none where it has none, or the caller may not see it.
fn control_of_service(rt: &HostRuntime) -> Result<Option<String>, Failure> {
    if !fs::exists(rt, SERVICE).unwrap_or(false) {
        return Ok(None);
    }
    let control = String::from_str(rt.alloc(), SERVICE).map_err(lacks_memory)?;
    Ok(Some(control))
}

/// The control socket of the member whose folder is the working directory or alone in it, or else that of the service; none where there is
/// neither. An error is that there are several such folders, or as of [`control_in`].
pub fn control_here(rt: &HostRuntime) -> Result<Option<String>, Failure> {
    if has_settings(rt, ".")? {
        return Ok(Some(control_in(rt, ".")?));
    }
    match folders_here(rt)?.as_slice() {
        [] => control_of_service(rt),
        [folder] => Ok(Some(control_in(rt, folder.as_str())?)),
        [first, second, ..] => {
            let about = format_args!(
                "the folders of several members are here, {first} and {second} among them: say which one by --dir"
            );
            Err(Failure::about(rt.alloc(), Exit::Words, about))
        }
    }
}
