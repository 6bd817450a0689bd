//! The settings of a running member.

ghost use Rattle.std.specs.Prelude.{◌≡◌, ◌≤◌, ◌==◌, ℕ, List, None, Some, cond, length};
ghost use Rattle.std.specs.Prelude.{option_map};
ghost use Rattle.std.specs.Duration.{as_nanos};
ghost use Rattle.swim_settings.specs.Ranges.{AreInRange};
ghost use Rattle.swim_settings.specs.Reloads.{taken_anew};
ghost use Rattle.swim_join.specs.Joins.{lasting};
ghost use Rattle.swim_start.specs.Starting.{peers_to_join};

use crate::reading::checked_at;
use crate::rereading::Read;
use crate::surroundings::{HandedOver, Surroundings};
use arrayvec::ArrayString;
use log::{LevelFilter, Log, info, warn};
use std::fmt::{self, Display, Formatter, Write};
use std::sync::Wait;
use std::thread::Threads;
use std::time::Clock;
use swim_join::Intervals;
use swim_log::LogLevel;
use swim_node::Room;
use swim_record::{Finished, Keeper};
use swim_recorder::Scribe;
use swim_serve::{Host, Joins};
use swim_settings::{JOIN_MAX, Key, Level, RunSettings, restart_keys};
use swim_shell::{AnswerText, SETTINGS_REFUSED, answer_of};
use swim_start::peers_of;
use swim_state::Peers;

/// The answer where it was read again, and has nothing that needs a restart.
const RELOADED: &str = "ok reloaded\n";

/// Keys, with a space before each.
#[derive(Clone, Copy, Debug)]
struct KeyList<'k>(&'k [Key]);

impl Display for KeyList<'_> {
    fn fmt<W: fmt::Write>(&self, f: &mut Formatter<W>) -> fmt::Result {
        for key in self.0 {
            write!(f, " {key}")?;
        }
        Ok(())
    }
}

/// The answer where the file was read again, and these keys need a restart.
fn reloaded(keys: &[Key]) -> AnswerText {
    if keys.is_empty() {
        return answer_of(RELOADED);
    }
    let keys = KeyList(keys);
    let mut answer = ArrayString::new();
    let _ = writeln!(answer, "ok reloaded, restart for{keys}");
    answer
}

/// Tells that the settings were read again, and which keys need a restart.
fn tell<W: Log>(rt: &W, keys: &[Key]) {
    if keys.is_empty() {
        info!(rt; "the settings were read again");
    } else {
        let keys = KeyList(keys);
        warn!(rt; "the settings were read again, but for keys that need a restart:{keys}");
    }
}

/// The least level of the log's lines, as the log has it.
fn filter_of(level: Level) -> LevelFilter {
    match level {
        Level::Off => LevelFilter::Off,
        Level::Error => LevelFilter::Error,
        Level::Warn => LevelFilter::Warn,
        Level::Info => LevelFilter::Info,
        Level::Debug => LevelFilter::Debug,
        Level::Trace => LevelFilter::Trace,
    }
}

/// Logs from the level that a settings file names on; as the environment says where it names none.
pub(crate) fn log_from(level: &LogLevel, told: Option<Level>) {
    level.set(told.map(filter_of));
}

/// What a running member has from its settings file: the settings in force, and who records its eras. Where a line asks for that the
/// file is read again, and what a running member may take is in force then.
#[derive(Drop)]
pub(crate) struct LiveSettings<'a, T> {
    around: Surroundings<'a, T>,
    told: RunSettings,
    scribe: Scribe<'a, T>,
    handed: &'a HandedOver,
    ghost range: { AreInRange told },
}

impl<'a, T: Threads + Wait + Log + Clock + Copy> LiveSettings<'a, T> {
    ghost use Rattle.std.specs.Prelude.{◌≡◌};

    /// These settings, which the settings file said, with what the thread of the doors hands over: the list of whom the file names to
    /// join, and what is read of it again.
    pub(crate) fn new(
        around: Surroundings<'a, T>,
        told: RunSettings,
        handed: &'a HandedOver,
    ) -> LiveSettings<'a, T>
        requires { AreInRange told }
    {
        let scribe = Scribe::new(
            around.logged,
            around.rt,
            told.folder(),
            told.record_eras,
            told.tick_ms,
        );
        LiveSettings {
            around,
            told,
            scribe,
            handed,
        }
    }

    /// Whom a member joins whose state file has these peers, and how often it does what.
    pub(crate) fn joins_with(&self, stored: &Peers) -> Joins
        ensures peers { (listed : List ℕ) × (length listed ≤ JOIN_MAX) × (result.peers.items
            ≡ peers_to_join self.now.told.settings.me listed stored.now) }
        ensures answer { let told = self.now.told in
            as_nanos result.intervals.answer ≡ lasting told.settings.direct told.tick_ms }
        ensures period { let told = self.now.told in
            as_nanos result.intervals.period ≡ lasting told.settings.period told.tick_ms }
        ensures introduce { result.intervals.introduce ≡ self.now.told.introduce }
        ensures rejoin { let told = self.now.told in option_map as_nanos result.intervals.rejoin
            ≡ cond (told.rejoin == 0) None (Some (lasting told.rejoin told.tick_ms)) }
    {
        let told = &self.told;
        let settings = &told.settings;
        let listed = self.handed.listing.lock(self.around.logged).endpoints();
        Joins {
            peers: peers_of(settings.me, listed.as_slice(), stored.as_slice()),
            intervals: Intervals::of(settings, told.introduce, told.rejoin, told.tick_ms),
        }
    }

    /// Has the list name the places that the settings name now.
    fn name_places(&self) {
        let mut listing = self.handed.listing.lock(self.around.logged);
        listing.name(&self.told.join);
    }

    /// Takes from these settings what a running member may take, and tells what needs a restart.
    fn take(&mut self, then: RunSettings) -> AnswerText
        requires { AreInRange then }
        ensures told { self.new.told ≡ taken_anew self.old.told then }
        ensures given { self.new.scribe.given ≡ self.old.scribe.given }
    {
        let keys = restart_keys(&self.told, &then);
        self.told.take_anew(then);
        log_from(self.around.level, self.told.log);
        tell(self.around.logged, keys.as_slice());
        self.name_places();
        let eras = self.told.record_eras;
        self.scribe.redirect(self.told.folder(), eras);
        reloaded(keys.as_slice())
    }

    /// What the settings file says now. The desk has read it when it heard the line `reload`.
    fn read_again(&self) -> Read {
        let read = self.handed.reread.lock(self.around.logged).take();
        match read {
            Some(read) => read,
            None => checked_at(&self.around.rt, self.around.config),
        }
    }

    /// Waits until all eras that are to be recorded are.
    pub(crate) fn finish(self) {
        self.scribe.finish();
    }
}

impl<'a, T: Threads + Log + Clock + Copy> Keeper for LiveSettings<'a, T> {
    ghost use Rattle.std.specs.Prelude.{is_some};

    ghost given = { λ s. s.scribe.given };

    ghost keeps = { λ s. is_some s.scribe.folder };

    fn is_on(&self) -> bool {
        self.scribe.is_on()
    }

    fn keep(&mut self, life: u64, era: Finished) -> Option<Room> {
        self.scribe.keep(life, era)
    }
}

impl<'a, T: Threads + Wait + Log + Clock + Copy> Host for LiveSettings<'a, T> {
    ghost relists = { Unit {0} };

    fn reload(&mut self) -> AnswerText {
        match self.read_again() {
            Ok(then) => self.take(then.told),
            Err(failure) => {
                warn!(self.around.logged; "the settings were not read again, and stay as they are: {failure}");
                answer_of(SETTINGS_REFUSED)
            }
        }
    }

    fn joins(&mut self, stored: &Peers) -> Option<Joins> {
        let is_new = self.handed.listing.lock(self.around.logged).take_new();
        if is_new {
            Some(self.joins_with(stored))
        } else {
            None
        }
    }
}
