//! Who a member is from one era to the next.

ghost use Rattle.std.specs.Prelude.{◌≡◌};
ghost use Rattle.swim_member.specs.Checks.{rules_of};
ghost use Rattle.swim_handle.specs.Identities.{Tells};

use arrayvec::ArrayString;
use std::time::{Clock, Instant};
use swim_member::Settings;
use swim_shell::{ProgramVersion, VERSION, Who};
use swim_wire::{Endpoint, Rules};

/// What stays the same of a member for as long as it runs.
#[derive(Clone, Copy, Debug, PartialEq, Eq)]
pub struct Identity {
    me: Endpoint,
    group: u64,
    rules: Rules,
    /// When it began; none where the clock did not say.
    began: Option<Instant>,
}

/// The version of this program.
fn this_version() -> ProgramVersion {
    match ArrayString::from(VERSION) {
        Ok(version) => version,
        Err(_) => ArrayString::new(),
    }
}

impl Identity {
    /// Of a member with these settings, which begins now.
    pub fn new<R: Clock>(rt: &R, settings: &Settings) -> Identity
        ensures me { result.me ≡ settings.now.me }
        ensures group { result.group ≡ settings.now.group }
        ensures rules { result.rules ≡ rules_of settings.now }
    {
        Identity {
            me: settings.me,
            group: settings.group,
            rules: settings.rules_of(),
            began: Instant::now(rt).ok(),
        }
    }

    /// For how many whole seconds it has run; 0 where the clock does not say.
    fn uptime<R: Clock>(&self, rt: &R) -> u64 {
        match (self.began, Instant::now(rt)) {
            (Some(began), Ok(now)) => now.duration_since(began).as_secs(),
            _ => 0,
        }
    }

    /// What the member tells of itself, which has so many others to join.
    pub(crate) fn tell<R: Clock>(&self, rt: &R, listed: usize) -> Who
        ensures { Tells self.now listed result }
    {
        Who {
            me: self.me,
            group: self.group,
            rules: self.rules,
            version: this_version(),
            uptime: self.uptime(rt),
            listed,
        }
    }
}
