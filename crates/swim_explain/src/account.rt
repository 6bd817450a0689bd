//! What several members tell, in the order of time.

ghost use Rattle.std.specs.Prelude.{IsPermutation};

use crate::fact::Happening;
use crate::lives::{answered_later, lives_of, place_before};
use crate::news::news_of;
use crate::tale::Tale;
use std::alloc::{AllocError, Global};
use swim_wire::Endpoint;

/// A happening, with who tells it and when it was.
#[derive(Clone, Copy, Debug, PartialEq, Eq)]
pub struct Account {
    /// Who tells it.
    pub teller: Endpoint,
    /// In which life, named by the place of its first tale.
    pub life: usize,
    /// The length of its ticks in milliseconds, if its recording says it.
    pub tick: Option<u64>,
    /// When it was: milliseconds since the beginning of 1970, in UTC, if its recording says it.
    pub at: Option<u64>,
    /// What is told.
    pub happening: Happening,
}

/// What of a tale is shown: all, or what changes or explains something. What is held of the member where the era began is shown
/// unless the tale before has said so. The probe with the sequence `later` was answered in a later tale.
fn shown(
    alloc: Global,
    tale: &Tale,
    is_held: bool,
    later: Option<u32>,
    shows_all: bool,
) -> Result<Vec<Happening>, AllocError> {
    let mut told = Vec::new(alloc);
    if let Some(first) = tale.story.first()
        && (shows_all || !is_held)
    {
        told.push(*first)?;
    }
    let after = tale.story.get(1..).unwrap_or(&[]);
    if shows_all {
        told.extend_from_slice(after)?;
    } else {
        told.extend_from_slice(&news_of(alloc, after, later)?)?;
    }
    Ok(told)
}

/// Whether the last tale of the same member before this place ends with what this one begins with.
fn is_held(tales: &[Tale], place: usize, who: Endpoint) -> bool {
    let Some(before) = place_before(tales, place) else {
        return false;
    };
    match (tales.get(before), tales.get(place)) {
        (Some(earlier), Some(tale)) => earlier.held_last(who) == tale.held_first(who),
        _ => false,
    }
}

/// What the tale at this place tells, with who tells it and when it was.
fn accounts_of(
    alloc: Global,
    tales: &[Tale],
    lives: &[usize],
    place: usize,
    who: Endpoint,
    shows_all: bool,
) -> Result<Vec<Account>, AllocError> {
    let mut accounts = Vec::new(alloc);
    let (Some(tale), Some(life)) = (tales.get(place), lives.get(place)) else {
        return Ok(accounts);
    };
    let is_held = is_held(tales, place, who);
    let later = answered_later(tales, lives, place);
    for happening in &shown(alloc, tale, is_held, later, shows_all)? {
        accounts.push(Account {
            teller: tale.teller(),
            life: *life,
            tick: tale.time.map(|time| time.tick),
            at: tale.moment_of(happening),
            happening: *happening,
        })?;
    }
    Ok(accounts)
}

/// Puts accounts into the order of time. Those of one moment keep their order, and those of an unknown one come first.
fn order(accounts: &mut Vec<Account>) -> Result<(), AllocError>
    ensures permutation { IsPermutation accounts.old.items accounts.new.items }
{
    accounts.sort_by_key(|account| account.at)
}

/// All that tales tell of this member, in the order of time. Those of an unknown time come first, in the order of the tales.
pub(crate) fn in_time(
    alloc: Global,
    tales: &[Tale],
    who: Endpoint,
    shows_all: bool,
) -> Result<Vec<Account>, AllocError> {
    let lives = lives_of(alloc, tales)?;
    let mut accounts = Vec::new(alloc);
    for place in 0..tales.len() {
        accounts.extend_from_slice(&accounts_of(alloc, tales, &lives, place, who, shows_all)?)?;
    }
    order(&mut accounts)?;
    Ok(accounts)
}
