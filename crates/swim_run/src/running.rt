//! `swim run`.

ghost use Rattle.std.specs.Prelude.{◌≡◌, ◌+◌, Some, None, if◌then◌else◌};
ghost use Rattle.swim_settings.specs.Ranges.{AreInRange};

use crate::binding::{bind, waits};
use crate::ended::ended_by;
use crate::file_watch::FileWatch;
use crate::host_lookup::HostLookup;
use crate::listing::JoinList;
use crate::live_settings::{LiveSettings, log_from};
use crate::member_chores::MemberChores;
use crate::reading::settings_at;
use crate::settings_reading::SettingsReading;
use crate::state_file::{StateFile, open_node};
use crate::surroundings::{HandedOver, Surroundings};
use log::{LevelFilter, Log, info, warn};
use std::alloc::Global;
use std::fs::File;
use std::io;
use std::rt::Files;
use std::sync::{Mutex, Wait};
use std::thread::Threads;
use std::time::{Clock, Duration};
use swim_exit::{Exit, Failure};
use swim_log::LogLevel;
use swim_member::Settings;
use swim_net::{Sockets, address_of};
use swim_serve::{DoorsAndChores, Joins, LifeSetup, Outside, run_kept};
use swim_settings::{ControlPlace, RunSettings, show_settings};
use swim_start::key_of;

/// The settings that a file says, as the text of a file with all keys, but for `random_key`. Nothing else is opened, and nothing is
/// written. An error is why `run` would end before it opens the state file.
pub fn shown_settings<R: Files<File = File> + AllocGlobal>(
    rt: &R,
    config: &str,
) -> Result<String, Failure> {
    let told = settings_at(rt, config)?;
    show_settings(rt.alloc(), &told).map_err(|_| Failure::from(Exit::Memory))
}

/// How many ticks an expelled member waits before it ends; none if it is to stay. A member that hears last of the Confirm does so within
/// the time of a suspicion, and forgets it `forget` ticks later.
fn expelled_wait(told: &RunSettings) -> Option<u64>
    requires { AreInRange told.now }
    ensures { result ≡ (if told.now.ends_expelled
        then Some (told.now.settings.forget + told.now.settings.suspect) else None) }
{
    let settings = &told.settings;
    if told.ends_expelled {
        Some(settings.forget + settings.suspect)
    } else {
        None
    }
}

/// The exit where the member was not opened on its state file, with the one whose file these settings say that it is.
fn unopened(alloc: Global, told: &RunSettings, exit: Exit) -> Failure {
    let RunSettings { file, settings, .. } = told;
    let (group, me) = (settings.group, settings.me);
    Failure::about(
        alloc,
        exit,
        format_args!("state file {file} (group {group}, me {me})"),
    )
}

/// The exit where the system gives no random numbers.
fn undrawn(alloc: Global, error: &io::Error) -> Failure {
    let exit = Exit::of(error, Exit::File);
    Failure::about(alloc, exit, format_args!("random numbers: {error}"))
}

/// Says that the member is up with this number, whatever the level of the log is otherwise. No worker logs yet.
fn tell_up<T: Log>(logged: &T, level: &LogLevel, told: &RunSettings, number: u64) {
    let RunSettings {
        settings,
        control,
        ..
    } = told;
    let Settings {
        me,
        group,
        rules,
        ..
    } = settings;
    level.set(Some(LevelFilter::Info));
    info!(logged; "up: {me} of group {group}, incarnation {number}, rules {rules}; control {control}; joined nobody yet");
    log_from(level, told.log);
}

/// Says that the settings file does not say by which rules its group lives, if it does not.
fn tell_rules<T: Log>(logged: &T, config: &str, told: &RunSettings) {
    if !told.has_rules {
        warn!(logged; "{config} has no `rules`, so this member has rules 1: a new group takes `rules = 2` in the file of each member, and one that runs changes all at once; `rules = 1` ends this line (SETTINGS.md, \"From rules 1 to rules 2\")");
    }
}

/// Says that others than programs of this machine may control the member, if that is so.
fn tell_control<T: Log>(logged: &T, told: &RunSettings) {
    let ControlPlace::Tcp(control) = told.control else {
        return;
    };
    if !address_of(control).ip().is_loopback() {
        warn!(logged; "control {control} is open to whoever reaches that address, and who does can stop this member: `control = \"PATH\"` is a socket that only this user may use (SECURITY.md)");
    }
}

/// Says that the member has nobody to join, if that is so. A host of its list is somebody: it is looked up.
fn tell_nobody<T: Log + Wait>(logged: &T, handed: &HandedOver, joins: &Joins) {
    if joins.peers.is_empty() && !handed.listing.lock(logged).has_host() {
        info!(logged; "joins nobody: `join` names no other member, and the state file has kept none. It waits until another joins it, as the first of a group may; each other one needs one that runs under `join`");
    }
}

/// What a start has taken hold of: the key of its generators, its state file, and its sockets.
#[derive(Drop)]
struct StartParts<'a, T: Clock + Log> {
    key: [u8; 32],
    file: StateFile,
    sockets: Sockets<'a, T>,
}

/// Takes a number above all that the member may have used, and serves era after era.
fn live<'a, T: Threads + Wait + Log + Clock + Send + Sync + Copy + Drop>(
    around: Surroundings<'a, T>,
    told: RunSettings,
    handed: &'a HandedOver,
    start: StartParts<'a, T>,
) -> Result<(), Failure>
    requires { AreInRange told }
{
    let Surroundings {
        rt,
        logged,
        config,
        ..
    } = around;
    let StartParts { key, file, sockets } = start;
    let settings = told.settings;
    let node = match open_node(rt.alloc(), file.opened, file.watched, settings, told.limit) {
        Ok(node) => node,
        Err(exit) => return Err(unopened(rt.alloc(), &told, exit)),
    };
    let number = node.first();
    tell_up(logged, around.level, &told, number);
    tell_rules(logged, config, &told);
    let tick = Duration::from_millis(told.tick_ms);
    let expelled_ends = expelled_wait(&told);
    let mut host = LiveSettings::new(around, told, handed);
    let joins = host.joins_with(&node.peers());
    tell_nobody(logged, handed, &joins);
    let setup = LifeSetup {
        settings,
        number,
        tick,
        joins,
        key,
        expelled_ends,
    };
    let chores = MemberChores {
        file: FileWatch::new(file.own, *logged),
        hosts: HostLookup::new(rt, logged, &handed.listing),
        settings: SettingsReading::new(rt, logged, config, &handed.reread),
    };
    let doors = DoorsAndChores::new(sockets.doors, chores);
    let (inbound, link) = (sockets.inbound, sockets.link);
    let outside = Outside::new(rt.alloc(), *logged, setup, inbound, link, doors);
    let outside = outside.map_err(|_| Failure::from(Exit::Memory))?;
    let alarms = sockets.alarms;
    let ended = run_kept(logged, rt.alloc(), node, outside, &alarms, &mut host);
    host.finish();
    Ok(ended_by(ended.how)?)
}

/// Runs the member that the settings file describes until the line `stop`: locks its state file, binds its sockets, takes a
/// number above all that it may have used, and serves era after era. A start without its sockets spends no number. Where the
/// settings say so, each era that ended is recorded. An error is why it ended before, `Expelled` among them, which comes only
/// if the settings say so.
pub fn run<T: Threads + Wait + Log + Clock + Send + Sync + Copy + Drop>(
    rt: &HostRuntime,
    logged: &T,
    level: &LogLevel,
    config: &str,
) -> Result<(), Failure> {
    let told = settings_at(rt, config)?;
    log_from(level, told.log);
    let file = StateFile::lock(rt, told.file.as_str())?;
    let alloc = rt.alloc();
    let drawn = key_of(rt, told.random_key);
    let key = drawn.map_err(|error: io::Error| undrawn(alloc, &error))?;
    let (waits, connections) = waits(rt, rt.alloc())?;
    // The control socket stays open until all else is closed: who finds it closed may start the next life at once.
    let (sockets, control) = bind(rt, logged, &waits, connections, &told)?;
    let handed = HandedOver {
        listing: Mutex::new(JoinList::new(&told.join)),
        reread: Mutex::new(None),
    };
    let around = Surroundings {
        rt: *rt,
        logged,
        level,
        config,
    };
    tell_control(logged, &told);
    let start = StartParts { key, file, sockets };
    let ended = live(around, told, &handed, start);
    control.close(rt);
    ended
}
