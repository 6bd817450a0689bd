//! Which group a member that begins is of.

use crate::asking::Asked;
use crate::folder::judge_folder;
use std::alloc::{AllocError, Global};
use std::fs::{self, File};
use std::io::{self, ErrorKind, Read};
use std::path::Path;
use std::random::RandomSource;
use std::thread;
use std::time::Duration;
use swim_cli::UpWords;
use swim_exit::{Exit, Failure};
use swim_input::open_file;
use swim_node::OpenFault;
use swim_run::settings_at;
use swim_settings::{Key, SettingsRefusal};
use swim_state::{Owner, RecoverFault};
use swim_wire::Endpoint;
use swim_words::read_endpoint;

/// How long it is waited until settings are looked for again, in milliseconds, and how often they are: five seconds in all.
const PAUSE_MILLIS: u64 = 100;

const LOOKS: u32 = 50;

/// What a state file begins with. Its owner follows: the number of the group, an address and a port.
const LETTERS: [u8; 10] = *b"SWIMSTAT\x00\x01";

/// Where there is no memory.
pub(crate) fn lacks_memory(_: AllocError) -> Failure {
    Failure::from(Exit::Memory)
}

/// A number for a group, which hardly any other one has.
fn drawn(rt: &HostRuntime) -> Result<u64, Failure> {
    let mut bytes = [0u8; 4];
    match rt.fill_bytes(&mut bytes) {
        Ok(()) => Ok(u64::from(u32::from_be_bytes(bytes))),
        Err(error) => {
            let exit = Exit::of(&error, Exit::File);
            Err(Failure::about(rt.alloc(), exit, format_args!("random source: {error}")))
        }
    }
}

/// The owner that a state file names, so far as it can be read; none where it is no state file.
fn read_owner(mut file: File) -> io::Result<Option<Owner>> {
    let (mut letters, mut group) = ([0u8; 10], [0u8; 8]);
    let (mut address, mut port) = ([0u8; 4], [0u8; 2]);
    file.read_exact(&mut letters)?;
    file.read_exact(&mut group)?;
    file.read_exact(&mut address)?;
    file.read_exact(&mut port)?;
    if letters != LETTERS {
        return Ok(None);
    }
    let group = u64::from_be_bytes(group);
    let me = Endpoint::new(u32::from_be_bytes(address), u16::from_be_bytes(port));
    Ok(me.map(|me| Owner { group, me }))
}

/// The owner of the state file at this path; none where that is no whole one, which a start refuses.
fn owner_at(rt: &HostRuntime, path: &str) -> Result<Option<Owner>, Failure> {
    let alloc = rt.alloc();
    let opened = open_file(rt, path);
    let file = opened.map_err(|fault| Failure::of_input(alloc, "state file", path, fault))?;
    match read_owner(file) {
        Ok(owner) => Ok(owner),
        Err(error) if error.kind() == ErrorKind::UnexpectedEof => Ok(None),
        Err(error) => Err(Failure::of_state_file(alloc, path, &error)),
    }
}

/// The exit where a state file is that of another member or group.
fn of_another(alloc: Global, path: &str, owner: Owner) -> Failure {
    let Owner { group, me } = owner;
    let exit = Exit::Open(OpenFault::Refused(RecoverFault::WrongOwner));
    let about = format_args!("state file {path}: it is of the member {me} of group {group}");
    Failure::about(alloc, exit, about)
}

/// The group of the state file at this path, which has to be that of the member of these words: its settings are to be made.
pub(crate) fn group_at_file(
    rt: &HostRuntime,
    words: &UpWords<'_>,
    me: Endpoint,
    path: &str,
) -> Result<u64, Failure> {
    let Some(owner) = owner_at(rt, path)? else {
        return Ok(words.group.unwrap_or(0));
    };
    if owner.me != me || owner.group != words.group.unwrap_or(owner.group) {
        return Err(of_another(rt.alloc(), path, owner));
    }
    Ok(owner.group)
}

/// The folder that `swim up` makes for a member of this name beside another folder.
fn folder_beside(alloc: Global, folder: &str, name: &str) -> Result<String, AllocError> {
    match Path::new(folder).parent() {
        Some(parent) if !parent.as_str().is_empty() => {
            let parent = parent.as_str();
            format!(in alloc; "{parent}/swim-{name}")
        }
        _ => format!(in alloc; "swim-{name}"),
    }
}

/// Whether a word names a member at the address of this one, which is on this machine.
fn is_here(word: &str, me: Endpoint) -> bool {
    match read_endpoint(word.as_bytes()) {
        Some(joined) => joined.address() == me.address(),
        None => false,
    }
}

/// The folders of those on this machine whom the words join, beside that of the member itself.
fn folders_beside(
    alloc: Global,
    words: &UpWords<'_>,
    me: Endpoint,
    folder: &str,
) -> Result<Vec<String>, AllocError> {
    let mut folders = Vec::new(alloc);
    for word in &words.join {
        if is_here(word.as_str(), me) {
            folders.push(folder_beside(alloc, folder, word.as_str())?)?;
        }
    }
    Ok(folders)
}

/// The group that the settings in a folder have; none where there are none yet.
fn group_at(rt: &HostRuntime, folder: &str) -> Result<Option<u64>, Failure> {
    let config = format!(in rt.alloc(); "{folder}/member.toml").map_err(lacks_memory)?;
    match fs::exists(rt, config.as_str()) {
        Ok(true) => {}
        _ => return Ok(None),
    }
    judge_folder(rt, folder)?;
    let told = settings_at(rt, config.as_str())?;
    Ok(Some(told.settings.group))
}

/// The group that the settings in one of these folders have; none where none of them has any yet.
fn group_of_any(rt: &HostRuntime, folders: &[String]) -> Result<Option<u64>, Failure> {
    for folder in folders {
        if let Some(group) = group_at(rt, folder.as_str())? {
            return Ok(Some(group));
        }
    }
    Ok(None)
}

/// The same, where they may be made meanwhile: by a command that was given at the same time.
fn await_group(rt: &HostRuntime, folders: &[String]) -> Result<Option<u64>, Failure> {
    if folders.is_empty() {
        return Ok(None);
    }
    for _ in 0..LOOKS {
        if let Some(group) = group_of_any(rt, folders)? {
            return Ok(Some(group));
        }
        thread::sleep(rt, Duration::from_millis(PAUSE_MILLIS));
    }
    Ok(None)
}

/// The exit where nothing tells of which group a new member is.
fn unnamed(alloc: Global, words: &UpWords<'_>) -> Failure {
    let joined = match words.join.first() {
        Some(word) => word.as_str(),
        None => "",
    };
    let about = format_args!(
        "--join {joined}: a new member that joins others needs the number of their group: --group N, which `swim status` prints there, or --ask ADDR, the control socket of one of them"
    );
    Failure::about(
        alloc,
        Exit::Settings(SettingsRefusal::Key(Key::Group)),
        about,
    )
}

/// The exit where the words name another group than the member that was asked.
fn contradicted(alloc: Global, says: u64, told: u64) -> Failure {
    let about = format_args!("--ask told group {told}, and --group says {says}: leave --group out");
    Failure::about(
        alloc,
        Exit::Settings(SettingsRefusal::Key(Key::Group)),
        about,
    )
}

/// The group of a member that begins: the one that the words name, or which was told, or of those whom it joins on this machine. One
/// that joins nobody draws it.
pub(crate) fn group_of(
    rt: &HostRuntime,
    words: &UpWords<'_>,
    asked: Option<Asked>,
    me: Endpoint,
    folder: &str,
) -> Result<u64, Failure> {
    let alloc = rt.alloc();
    match (words.group, asked) {
        (Some(says), Some(asked)) if says != asked.group => {
            return Err(contradicted(alloc, says, asked.group));
        }
        (Some(group), _) => return Ok(group),
        (None, Some(asked)) => return Ok(asked.group),
        (None, None) if words.join.is_empty() => return drawn(rt),
        (None, None) => {}
    }
    let folders = folders_beside(alloc, words, me, folder).map_err(lacks_memory)?;
    match await_group(rt, folders.as_slice())? {
        Some(group) => Ok(group),
        None => Err(unnamed(alloc, words)),
    }
}
