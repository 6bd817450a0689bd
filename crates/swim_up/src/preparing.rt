//! What is done before a member runs.

use crate::asking::{Asked, ask};
use crate::clash::{Given, clash_of};
use crate::folder::judge_folder;
use crate::grouping::{group_at_file, group_of, lacks_memory};
use crate::lacking::{Lacking, lacking_of};
use crate::making::{make_file, make_folder};
use crate::said::Said;
use crate::text::settings_text;
use std::alloc::{AllocError, Global};
use std::io::ErrorKind;
use std::{env, fs, io};
use swim_cli::{UpWords, judge_ceiling, make_first};
use swim_exit::{Exit, Failure};
use swim_run::{settings_at, try_addresses};
use swim_settings::{
    CONTROL_PATH_MAX, JOIN_MAX, Key, RunSettings, SettingsRefusal, read_control, read_settings,
};
use swim_state::InitFault;
use swim_wire::Endpoint;
use swim_words::{read_endpoint, read_host};

/// What stands for a control socket that no word names, beside settings that have their own.
const UNNAMED: &str = "127.0.0.1:7001";

/// The paths of a member.
#[derive(Drop)]
struct Paths {
    folder: String,
    settings: String,
    /// The state file of a member that has no settings yet.
    state: String,
    /// Its control socket, where no word names another one.
    control: String,
}

/// A path, from the root on.
fn whole_path(rt: &HostRuntime, path: &str) -> io::Result<String> {
    if path.starts_with('/') {
        return Ok(String::from_str(rt.alloc(), path)?);
    }
    let here = env::current_dir(rt)?;
    let here = here.as_str();
    Ok(format!(in rt.alloc(); "{here}/{path}")?)
}

/// The folder that the words name, or else one that is called as the member is.
fn folder_of(alloc: Global, words: &UpWords<'_>) -> Result<String, AllocError> {
    match words.dir {
        Some(dir) => String::from_str(alloc, dir),
        None => {
            let me = words.me;
            format!(in alloc; "swim-{me}")
        }
    }
}

/// The paths in a folder.
fn paths_in(alloc: Global, folder: String) -> Result<Paths, AllocError> {
    let name = folder.as_str();
    let settings = format!(in alloc; "{name}/member.toml")?;
    let state = format!(in alloc; "{name}/member.state")?;
    let control = format!(in alloc; "{name}/control")?;
    Ok(Paths {
        folder,
        settings,
        state,
        control,
    })
}

/// Whether something is at a path, which is called so.
fn is_there(rt: &HostRuntime, called: &str, path: &str) -> Result<bool, Failure> {
    fs::exists(rt, path).map_err(|error| Failure::of_file(rt.alloc(), called, path, &error))
}

/// The endpoint that a word is, which is called so. Another word is refused.
fn judge(alloc: Global, called: &str, word: &str) -> Result<Endpoint, Failure> {
    match read_endpoint(word.as_bytes()) {
        Some(endpoint) => Ok(endpoint),
        None => Err(Failure::of_address(alloc, called, word)),
    }
}

/// Refuses a control socket, which is called so, where it is neither a path with a slash nor an endpoint.
fn judge_control(alloc: Global, called: &str, word: &str) -> Result<(), Failure> {
    match read_control(word) {
        Some(_) => Ok(()),
        None => Err(Failure::of_address(alloc, called, word)),
    }
}

/// Refuses whom to join where it is neither an endpoint nor a host with a port.
fn judge_joins(alloc: Global, words: &UpWords<'_>) -> Result<(), Failure> {
    for word in &words.join {
        let bytes = word.as_str().as_bytes();
        if read_endpoint(bytes).is_none() && read_host(bytes).is_none() {
            return Err(Failure::of_address(alloc, "--join", word.as_str()));
        }
    }
    Ok(())
}

/// The exit where a word is refused that is no address: too many to join, or no preset.
fn refused(alloc: Global, refusal: SettingsRefusal, words: &UpWords<'_>) -> Failure {
    let preset = words.preset.unwrap_or("");
    if refusal == SettingsRefusal::Key(Key::Join) {
        let about = format_args!("--join: it takes {JOIN_MAX} at most");
        return Failure::about(alloc, Exit::Settings(refusal), about);
    }
    if refusal == SettingsRefusal::Key(Key::Control) {
        let about = format_args!(
            "the folder's path is too long for a control socket in it, whose own has {CONTROL_PATH_MAX} bytes at most: name another one by --control, a shorter path or e.g. 127.0.0.1:7001"
        );
        return Failure::about(alloc, Exit::Settings(refusal), about);
    }
    let about = format_args!("--preset {preset:?}: it takes local, lan or wan");
    Failure::about(alloc, Exit::Settings(refusal), about)
}

/// What a file with this text says, which is of these words. Their addresses are judged.
fn wanted_by(alloc: Global, text: &str, words: &UpWords<'_>) -> Result<RunSettings, Failure> {
    match read_settings(alloc, text.as_bytes()) {
        Ok(wanted) => Ok(wanted),
        Err(SettingsRefusal::Memory) => Err(Failure::from(Exit::Memory)),
        Err(refusal) => Err(refused(alloc, refusal, words)),
    }
}

/// Which keys these words name.
fn given_by(words: &UpWords<'_>) -> Given {
    Given {
        group: words.group.is_some(),
        control: words.control.is_some(),
        preset: words.preset.is_some(),
        join: !words.join.is_empty(),
    }
}

/// The exit where the file says something else than the words, at this key.
fn clashes(
    alloc: Global,
    paths: &Paths,
    told: &RunSettings,
    wanted: &RunSettings,
    key: Key,
) -> Failure {
    let path = paths.settings.as_str();
    let (has, says) = (Said { run: told, key }, Said { run: wanted, key });
    Failure::about(
        alloc,
        Exit::Settings(SettingsRefusal::Key(key)),
        format_args!(
            "{path} has {has}, and --{key} says {says}: change it there, or leave --{key} out and it stays"
        ),
    )
}

/// The exit where a member has settings, and its state file is gone.
fn lost(alloc: Global, paths: &Paths, told: &RunSettings) -> Failure {
    let (settings, file) = (paths.settings.as_str(), told.file.as_str());
    Failure::about(
        alloc,
        Exit::File,
        format_args!(
            "state file {file}: it is gone, and {settings} is there, so this member may have run: nothing is made"
        ),
    )
}

/// The word that begins a member, if there is one among the words.
fn beginning_in(words: &UpWords<'_>) -> Option<&'static str> {
    if words.first {
        Some("--first")
    } else if words.ceiling.is_some() {
        Some("--ceiling")
    } else if words.ask.is_some() {
        Some("--ask")
    } else {
        None
    }
}

/// The exit where a word begins a member that is there: it would hide for ever that its disk is not mounted.
fn begun(alloc: Global, paths: &Paths, word: &str) -> Failure {
    let path = paths.settings.as_str();
    Failure::about(
        alloc,
        Exit::Settings(SettingsRefusal::Key(Key::File)),
        format_args!("{path} is there, and {word} begins a new member: leave {word} out"),
    )
}

/// Refuses words that the settings of a member contradict, and settings whose state file is gone.
fn keep(rt: &HostRuntime, paths: &Paths, words: &UpWords<'_>, usual: &str) -> Result<(), Failure> {
    let alloc = rt.alloc();
    let told = settings_at(rt, paths.settings.as_str())?;
    if let Some(word) = beginning_in(words) {
        return Err(begun(alloc, paths, word));
    }
    let (file, group) = (told.file.as_str(), words.group.unwrap_or(0));
    let text = settings_text(alloc, file, group, words, usual).map_err(lacks_memory)?;
    let wanted = wanted_by(alloc, text.as_str(), words)?;
    let joins_same = told.join.as_slice() == wanted.join.as_slice();
    if let Some(key) = clash_of(&told, &wanted, joins_same, given_by(words)) {
        return Err(clashes(alloc, paths, &told, &wanted, key));
    }
    match lacking_of(true, is_there(rt, "state file", told.file.as_str())?, false) {
        Lacking::StateLost => Err(lost(alloc, paths, &told)),
        _ => Ok(()),
    }
}

/// What a member begins with.
#[derive(Clone, Copy)]
struct Beginning {
    me: Endpoint,
    group: u64,
    /// The number above which it begins; none where its state file is there.
    ceiling: Option<u64>,
}

/// Says what was made, where a member begins, and how another one joins it.
fn tell_made(rt: &HostRuntime, settings: &str, state: &str, beginning: &Beginning) {
    let Beginning { me, group, ceiling } = *beginning;
    let Some(ceiling) = ceiling else {
        let _ = eprintln!(rt; "made {settings}; the state file {state} was there, and goes on");
        return;
    };
    let number = ceiling.saturating_add(1);
    let _ = eprintln!(rt;
        "made {settings} and {state}: this member of group {group} begins at incarnation {number}. If it has run in another folder before, stop it, and give that one by --dir"
    );
    let _ = eprintln!(rt;
        "another member joins by: swim up --me ITS_ADDRESS:PORT --join {me} --group {group}"
    );
}

/// Says what a member told that was asked.
fn tell_asked(rt: &HostRuntime, at: &str, asked: Asked) {
    let Asked { group, number } = asked;
    let _ = match number {
        Some(number) => eprintln!(rt;
            "{at} is of group {group}, and holds this member by incarnation {number}"
        ),
        None => eprintln!(rt; "{at} is of group {group}, and knows nothing of this member"),
    };
}

/// What the member at the control socket that the words name tells, if they name one.
fn asked_by(rt: &HostRuntime, words: &UpWords<'_>, me: Endpoint) -> Result<Option<Asked>, Failure> {
    let Some(at) = words.ask else {
        return Ok(None);
    };
    let asked = ask(rt, at, me)?;
    tell_asked(rt, at, asked);
    Ok(Some(asked))
}

/// The exit where nothing is in a folder, and no word says that a member begins there.
fn unsaid(alloc: Global, paths: &Paths) -> Failure {
    let folder = paths.folder.as_str();
    Failure::about(
        alloc,
        Exit::File,
        format_args!(
            "folder {folder}: no member is in it, neither member.toml nor member.state, and nothing is made. If one has run there, its disk is not mounted; a new one begins there by --first"
        ),
    )
}

/// With what the member of these words begins, whose state file is there or not. Nothing is made where none may begin.
fn beginning_of(
    rt: &HostRuntime,
    paths: &Paths,
    words: &UpWords<'_>,
    state: &str,
    me: Endpoint,
) -> Result<Beginning, Failure> {
    let alloc = rt.alloc();
    let may_begin = words.first || words.dir.is_none();
    match lacking_of(false, is_there(rt, "state file", state)?, may_begin) {
        Lacking::All => {}
        Lacking::Unsaid => return Err(unsaid(alloc, paths)),
        _ => {
            let group = group_at_file(rt, words, me, state)?;
            return Ok(Beginning {
                me,
                group,
                ceiling: None,
            });
        }
    }
    let asked = asked_by(rt, words, me)?;
    let told = match asked {
        Some(asked) => asked.ceiling(),
        None => 0,
    };
    let ceiling = words.ceiling.unwrap_or(0).max(told);
    judge_ceiling(alloc, ceiling)?;
    let group = group_of(rt, words, asked, me, paths.folder.as_str())?;
    Ok(Beginning {
        me,
        group,
        ceiling: Some(ceiling),
    })
}

/// The exit where another start has made a file of the member first.
fn raced(alloc: Global, called: &str, path: &str) -> Failure {
    let about = format_args!(
        "{called} {path}: another `swim up` made it at the same time, and this one is not started"
    );
    Failure::about(alloc, Exit::File, about)
}

/// Makes the state file, which another start may have made meanwhile.
fn make_state(
    rt: &HostRuntime,
    state: &str,
    words: &UpWords<'_>,
    group: u64,
    ceiling: u64,
) -> Result<(), Failure> {
    let Err(failure) = make_first(rt, state, group, words.me, ceiling) else {
        return Ok(());
    };
    if matches!(failure.exit(), Exit::Init(InitFault::NotEmpty)) {
        return Err(raced(rt.alloc(), "state file", state));
    }
    Err(failure)
}

/// Makes the settings, which another start may have made meanwhile.
fn make_settings(rt: &HostRuntime, settings: &str, text: &str) -> Result<(), Failure> {
    match make_file(rt, settings, text) {
        Ok(()) => Ok(()),
        Err(error) if error.kind() == ErrorKind::AlreadyExists => {
            Err(raced(rt.alloc(), "settings", settings))
        }
        Err(error) => Err(Failure::of_file(rt.alloc(), "settings", settings, &error)),
    }
}

/// The settings of these words and this group, as they are written and as they are read.
fn settings_of(
    alloc: Global,
    state: &str,
    group: u64,
    words: &UpWords<'_>,
    usual: &str,
) -> Result<(String, RunSettings), Failure> {
    let text = settings_text(alloc, state, group, words, usual).map_err(lacks_memory)?;
    let wanted = wanted_by(alloc, text.as_str(), words)?;
    Ok((text, wanted))
}

/// Makes the settings of a member, and its folder and its state file where there are none. Refused words leave nothing, nor do addresses
/// that are taken or not this machine's.
fn make_all(
    rt: &HostRuntime,
    paths: &Paths,
    words: &UpWords<'_>,
    me: Endpoint,
    named: Option<&str>,
) -> Result<(), Failure> {
    let alloc = rt.alloc();
    let (folder, settings) = (paths.folder.as_str(), paths.settings.as_str());
    let unknown = |error: io::Error| Failure::of_file(alloc, "folder", folder, &error);
    let state = whole_path(rt, paths.state.as_str()).map_err(&unknown)?;
    let control = whole_path(rt, paths.control.as_str()).map_err(&unknown)?;
    let usual = named.unwrap_or(control.as_str());
    settings_of(
        alloc,
        state.as_str(),
        words.group.unwrap_or(0),
        words,
        usual,
    )?;
    let beginning = beginning_of(rt, paths, words, state.as_str(), me)?;
    let (text, wanted) = settings_of(alloc, state.as_str(), beginning.group, words, usual)?;
    try_addresses(rt, &wanted)?;
    make_folder(rt, folder).map_err(&unknown)?;
    judge_folder(rt, folder)?;
    if let Some(ceiling) = beginning.ceiling {
        make_state(rt, state.as_str(), words, beginning.group, ceiling)?;
    }
    make_settings(rt, settings, text.as_str())?;
    tell_made(rt, settings, state.as_str(), &beginning);
    Ok(())
}

/// Makes what the member of these words lacks, and gives the path of its settings. A folder that others may write is refused. Where its
/// settings are there, nothing is made: they have to say what the words do, and their state file has to be there. In a folder that the
/// words name nothing is made where nothing is, unless they say that a member begins. Where the words name no control socket, new settings have that
/// of `SWIM_CONTROL`, if that is set and so given here, or else one in the folder.
pub fn prepare(
    rt: &HostRuntime,
    words: &UpWords<'_>,
    named: Option<&str>,
) -> Result<String, Failure> {
    let alloc = rt.alloc();
    let me = judge(alloc, "--me", words.me)?;
    if let Some(control) = words.control {
        judge_control(alloc, "--control", control)?;
    }
    judge_joins(alloc, words)?;
    let folder = folder_of(alloc, words).map_err(lacks_memory)?;
    let paths = paths_in(alloc, folder).map_err(lacks_memory)?;
    judge_folder(rt, paths.folder.as_str())?;
    if is_there(rt, "settings", paths.settings.as_str())? {
        keep(rt, &paths, words, UNNAMED)?;
    } else {
        if let (None, Some(control)) = (words.control, named) {
            judge_control(alloc, "SWIM_CONTROL", control)?;
        }
        make_all(rt, &paths, words, me, named)?;
    }
    Ok(paths.settings)
}
