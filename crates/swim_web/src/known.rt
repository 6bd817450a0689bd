//! What is known of the members that are asked.

use std::alloc::{AllocError, Global};
use std::sync::Mutex;
use std::time::{Clock, Duration, Instant, SystemTime, UNIX_EPOCH};
use swim_ask::{MemberReport, may_have_left};
use swim_http::{Members, RequestReading, Seen, SeenGroup, directory_response, response};
use swim_news::{Change, Changes, Rows, compare};
use swim_shell::About;
use swim_wire::Update;

/// For how long what a member said last is shown as what it says, in milliseconds. Then it counts as one that does not answer. Where
/// several groups are shown it is so long for each of them, since they are asked one after the other.
const FRESH_MILLIS: u64 = 10_000;

/// For how long after a look the next one tells how a member went, in milliseconds: between two that are further apart it may have been
/// suspected.
const CLOSE_MILLIS: u64 = 2_000;

/// By how many seconds the begin of one life may seem to move: clocks tick on between what is told and what is read.
const DRIFT_SECONDS: u64 = 2;

/// Since when what is known of a member is so, and when it was asked last.
#[derive(Clone, Copy)]
struct KnownTimes {
    since: Option<Instant>,
    asked: Option<Instant>,
}

/// What is known of one member, or of a member of each of several groups.
#[derive(Drop)]
pub(crate) struct Known {
    one: Seen,
    times: KnownTimes,
    groups: Vec<SeenGroup>,
    /// Those of the groups, at their places.
    times_of: Vec<KnownTimes>,
}

/// What is known by both threads: by that which asks, and by that which answers.
pub(crate) type SharedKnown = Mutex<Known>;

/// Nothing, of a member that was not asked yet.
fn unseen() -> Seen {
    Seen {
        status: None,
        rows: Rows::new(),
        leavers: Members::new(),
        counters: None,
        about: None,
        since: None,
        quiet: 0,
    }
}

/// How long ago that was; none where it never was, or where the clock fails.
fn ago<C: Clock>(clock: &C, then: &Option<Instant>) -> Option<Duration> {
    match then {
        Some(then) => then.elapsed(clock).ok(),
        None => None,
    }
}

/// When a member began that tells who it is, in seconds since 1970, by the clock of this machine; none where that fails.
fn begin_of<C: Clock>(clock: &C, about: &About) -> Option<u64> {
    let now = SystemTime::now(clock).ok()?;
    let now = now.duration_since(UNIX_EPOCH).ok()?;
    Some(now.as_secs().saturating_sub(about.who.uptime))
}

/// The begin that is known, unless another one is so far from it that it is of another life.
fn steady(known: Option<u64>, begin: Option<u64>) -> Option<u64> {
    match (known, begin) {
        (Some(known), Some(begin)) if known.abs_diff(begin) <= DRIFT_SECONDS => Some(known),
        _ => begin,
    }
}

/// Whether a look says something else than what is known. How long an era is says nothing of the group.
fn is_changed_by(seen: &Seen, look: &Option<MemberReport>) -> bool {
    let (Some(status), Some(look)) = (&seen.status, look) else {
        return seen.status.is_some() || look.is_some();
    };
    let has_other_rows = match &look.rows {
        Some(rows) => rows.as_slice() != seen.rows.as_slice(),
        None => false,
    };
    has_other_rows || status.phase != look.status.phase || status.number != look.status.number
}

/// Whether the member of a row may have left, which may be one of the leavers before these changes. They tell so if they are of two looks
/// close together.
fn is_leaver(leavers: &Members, changes: &[Change], is_close: bool, row: &Update) -> bool {
    match changes.iter().find(|change| change.now() == Some(*row)) {
        Some(change) => is_close && may_have_left(change),
        None => leavers.contains(&row.who),
    }
}

/// Takes all rows as they are now. Those before may be of a look shortly before.
fn take_rows(seen: &mut Seen, rows: Rows, is_close: bool) {
    let mut changes = Changes::new();
    compare(&seen.rows, &rows, &mut changes);
    let mut leavers = Members::new();
    for row in rows.as_slice() {
        if is_leaver(&seen.leavers, changes.as_slice(), is_close, row) {
            let _ = leavers.try_push(row.who);
        }
    }
    seen.leavers = leavers;
    seen.rows = rows;
}

/// Takes what a member said, or that it did not answer, at a look that may be shortly after the last one. Rows that it did not show stay.
fn take_look<C: Clock>(seen: &mut Seen, clock: &C, look: Option<MemberReport>, is_close: bool) {
    let Some(look) = look else {
        seen.status = None;
        return;
    };
    seen.status = Some(look.status);
    seen.counters = look.counters;
    seen.since = match &look.about {
        Some(about) => steady(seen.since, begin_of(clock, about)),
        None => None,
    };
    seen.about = look.about;
    if let Some(rows) = look.rows {
        take_rows(seen, rows, is_close);
    }
}

impl KnownTimes {
    /// Of a member that was not asked yet.
    fn new() -> KnownTimes {
        KnownTimes {
            since: None,
            asked: None,
        }
    }

    /// Takes what the member says now.
    fn take<C: Clock>(&mut self, seen: &mut Seen, clock: &C, look: Option<MemberReport>) {
        let close = Duration::from_millis(CLOSE_MILLIS);
        let is_close = matches!(ago(clock, &self.asked), Some(ago) if ago < close);
        self.asked = Instant::now(clock).ok();
        if is_changed_by(seen, &look) || self.since.is_none() {
            self.since = self.asked;
        }
        take_look(seen, clock, look, is_close);
    }

    /// Brings what is known to the present: for how long it is so, and that a member does not answer that was not asked for so long.
    fn refresh<C: Clock>(&self, seen: &mut Seen, clock: &C, fresh: Duration) {
        let is_fresh = match ago(clock, &self.asked) {
            Some(ago) => ago < fresh,
            None => false,
        };
        if !is_fresh {
            seen.status = None;
        }
        seen.quiet = match ago(clock, &self.since) {
            Some(quiet) => quiet.as_secs(),
            None => 0,
        };
    }
}

impl Known {
    /// Nothing: nobody was asked yet.
    pub(crate) fn new(alloc: Global) -> Known {
        Known {
            one: unseen(),
            times: KnownTimes::new(),
            groups: Vec::new(alloc),
            times_of: Vec::new(alloc),
        }
    }

    /// Takes what the one member said, or that it did not answer.
    pub(crate) fn take<C: Clock>(&mut self, clock: &C, look: Option<MemberReport>) {
        self.times.take(&mut self.one, clock, look);
    }

    /// The place of a group, which is made if there is none.
    fn place_of(&mut self, number: u64) -> Result<usize, AllocError> {
        if let Some(place) = self.groups.iter().position(|group| group.number == number) {
            return Ok(place);
        }
        self.times_of.push(KnownTimes::new())?;
        let seen = unseen();
        self.groups.push(SeenGroup { number, seen })?;
        Ok(self.groups.len().saturating_sub(1))
    }

    /// Takes what a member of a group said, or that none of them answered. Without memory a group is taken later.
    pub(crate) fn take_of<C: Clock>(&mut self, clock: &C, number: u64, look: Option<MemberReport>) {
        let Ok(place) = self.place_of(number) else {
            return;
        };
        if let Some(group) = self.groups.get_mut(place)
            && let Some(times) = self.times_of.get_mut(place)
        {
            times.take(&mut group.seen, clock, look);
        }
    }

    /// What is sent on a connection on which this came: of the one member, or of the groups where there are several.
    pub(crate) fn answer<C: Clock>(
        &mut self,
        alloc: Global,
        clock: &C,
        reading: RequestReading,
    ) -> Result<String, AllocError> {
        let fresh = Duration::from_millis(FRESH_MILLIS);
        if self.groups.len() < 2 {
            self.times.refresh(&mut self.one, clock, fresh);
            return response(alloc, reading, &self.one);
        }
        let many = u32::try_from(self.groups.len()).unwrap_or(u32::MAX);
        let fresh = fresh.saturating_mul(many);
        for (group, times) in self.groups.iter_mut().zip(&self.times_of) {
            times.refresh(&mut group.seen, clock, fresh);
        }
        directory_response(alloc, reading, self.groups.as_slice())
    }
}
