//! Who a member is, as it tells whoever looks at it.

ghost use Rattle.std.specs.Prelude.{◌≡◌, ◌+◌, ◌≤◌, ◌++◌, [], length};
ghost use Rattle.swim_shell.specs.About.{about_alone, about_head, about_of, about_run, about_text, is_alone, yes_or_no};

use crate::printer::{ANSWER_MAX, AnswerText, add_counted, add_endpoint, add_text};
use arrayvec::ArrayString;
use std::fmt;
use swim_member::Phase;
use swim_node::Status;
use swim_wire::{Endpoint, Rules};

/// The most bytes of the version of a program.
pub const VERSION_MAX: usize = 16;

/// The most bytes of what stands from the version to the list, and of whether a member is alone.
const RUN_MAX: usize = 81;

const ALONE_MAX: usize = 11;

/// The version of a program.
pub type ProgramVersion = ArrayString<VERSION_MAX>;

/// The version of this program.
pub const VERSION: &str = "0.1.0";

/// Who a running member is.
#[derive(Clone, Copy, Debug, PartialEq, Eq)]
pub struct Who {
    /// Its endpoint.
    pub me: Endpoint,
    /// The number of its group.
    pub group: u64,
    /// The rules by which it lives.
    pub rules: Rules,
    /// The version of its program.
    pub version: ProgramVersion,
    /// For how many whole seconds it has run; 0 where the clock does not say.
    pub uptime: u64,
    /// How many others are on the list of those that it joins: those of the settings, and those that its state file kept.
    pub listed: usize,
}

/// Who a running member is, and whether it is alone.
#[derive(Clone, Copy, Debug, PartialEq, Eq)]
pub struct About {
    /// Who it is.
    pub who: Who,
    /// Whether it takes part, has others to join, and has no row of another member that is alive or suspected.
    pub is_alone: bool,
}

/// Whether the member takes part, and holds nobody for alive or suspected. One whose status is not shown does not say so.
pub fn is_alone(status: Option<Status>) -> bool
    ensures { result ≡ is_alone status }
{
    match status {
        Some(status) => {
            status.phase == Phase::Running && status.alive == 0 && status.suspect == 0
        }
        None => false,
    }
}

impl Who {
    /// What this member tells by this status.
    pub(crate) fn with(self, status: &Status) -> About
        ensures { result ≡ about_of self status.now }
    {
        About {
            who: self,
            is_alone: self.listed > 0 && is_alone(Some(*status)),
        }
    }
}

/// The word of an answer.
fn yes_or_no(is_so: bool) -> &'static str
    ensures word { result.now ≡ yes_or_no is_so }
    ensures most { length result.now ≤ 3 }
{
    if is_so { "yes" } else { "no" }
}

/// Writes the member, its group and its rules.
fn add_head(answer: &mut AnswerText, who: &Who)
    requires { answer.old.bytes ≡ [] }
    ensures text { answer.new.bytes ≡ about_head who.now }
    ensures most { length answer.new.bytes ≤ 100 }
{
    add_text(answer, "ok member ");
    add_endpoint(answer, who.me);
    add_counted(answer, " group ", who.group);
    add_counted(answer, " rules ", u64::from(who.rules.code()));
}

/// For how many seconds something lasts, in the two greatest units that it has: `3 h 5 min`.
#[derive(Clone, Copy)]
struct Lasting(u64);

impl fmt::Display for Lasting {
    fn fmt<W: fmt::Write>(&self, f: &mut fmt::Formatter<W>) -> fmt::Result {
        let seconds = self.0;
        let (minutes, hours, days) = (seconds / 60, seconds / 3600, seconds / 86_400);
        if days > 0 {
            write!(f, "{days} d {} h", hours % 24)
        } else if hours > 0 {
            write!(f, "{hours} h {} min", minutes % 60)
        } else if minutes > 0 {
            write!(f, "{minutes} min {} s", seconds % 60)
        } else {
            write!(f, "{seconds} s")
        }
    }
}

/// It prints for people: `10.0.0.1:7000 of group 7, rules 2, swim 0.1.0, up 3 h 5 min`.
impl fmt::Display for Who {
    fn fmt<W: fmt::Write>(&self, f: &mut fmt::Formatter<W>) -> fmt::Result {
        let Who {
            me,
            group,
            rules,
            version,
            uptime,
            listed: _,
        } = self;
        let (rules, version, uptime) = (rules.code(), version.as_str(), Lasting(*uptime));
        write!(
            f,
            "{me} of group {group}, rules {rules}, swim {version}, up {uptime}"
        )
    }
}

/// What people are told of a member that is alone.
#[derive(Clone, Copy, Debug)]
pub struct Alone(pub Who);

impl fmt::Display for Alone {
    fn fmt<W: fmt::Write>(&self, f: &mut fmt::Formatter<W>) -> fmt::Result {
        let Who {
            group,
            rules,
            listed,
            ..
        } = self.0;
        let rules = rules.code();
        write!(
            f,
            "alone: it knows no other member, and has {listed} to join. Are they up, reachable over UDP, of group {group}, and with rules {rules}?"
        )
    }
}

/// Who a member is, and whether it is alone, as the answer to the line `about`.
pub fn about_answer(about: &About) -> AnswerText
    ensures { result.bytes ≡ about_text about.now }
{
    let mut answer = ArrayString::new();
    add_about(&mut answer, about);
    answer
}

/// Adds the version of a member's program, for how long it has run, and how many others it has to join, where they fit.
fn add_run(answer: &mut AnswerText, who: &Who)
    ensures fits { length answer.old.bytes + RUN_MAX ≤ ANSWER_MAX
        → answer.new.bytes ≡ answer.old.bytes ++ about_run who.now }
    ensures most { length answer.new.bytes ≤ length answer.old.bytes + RUN_MAX }
{
    add_text(answer, " version ");
    add_text(answer, who.version.as_str());
    add_counted(answer, " uptime ", who.uptime);
    add_counted(answer, " listed ", who.listed as u64);
}

/// Adds whether a member is alone, and ends the line, where it fits.
fn add_alone(answer: &mut AnswerText, is_alone: bool)
    ensures fits { length answer.old.bytes + ALONE_MAX ≤ ANSWER_MAX
        → answer.new.bytes ≡ answer.old.bytes ++ about_alone is_alone }
    ensures most { length answer.new.bytes ≤ length answer.old.bytes + ALONE_MAX }
{
    add_text(answer, " alone ");
    add_text(answer, yes_or_no(is_alone));
    add_text(answer, "\n");
}

/// Writes who a member is, and whether it is alone.
pub(crate) fn add_about(answer: &mut AnswerText, about: &About)
    requires { answer.old.bytes ≡ [] }
    ensures { answer.new.bytes ≡ about_text about.now }
{
    add_head(answer, &about.who);
    add_run(answer, &about.who);
    add_alone(answer, about.is_alone);
}
