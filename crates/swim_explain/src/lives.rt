//! Which tales are of one life of a member.

ghost use Rattle.std.specs.Prelude.{◌≡◌};
ghost use Rattle.swim_explain.specs.Lives.{goes_on, last_probe, last_tick, probe_sequence};

use crate::fact::{Fact, Happening, Purpose};
use crate::news::was_answered;
use crate::tale::Tale;
use std::alloc::{AllocError, Global};

/// How many ticks of the member's life had counted where a story ends.
fn last_tick(story: &[Happening]) -> u64
    ensures { result ≡ last_tick story.now }
{
    match story.last() {
        Some(last) => last.tick,
        None => 0,
    }
}

/// Whether a tale goes on with the life of an earlier one: the ticks of the same member go on. In another life they begin at 0.
fn goes_on(earlier: &Tale, tale: &Tale) -> bool
    ensures { result ≡ goes_on earlier.now tale.now }
{
    earlier.settings.me == tale.settings.me && last_tick(&earlier.story) <= tale.first_tick
}

/// The place of the last tale of the same member before this place.
pub(crate) fn place_before(tales: &[Tale], place: usize) -> Option<usize> {
    let teller = tales.get(place)?.teller();
    let mut found = None;
    for (before, tale) in tales.iter().enumerate().take(place) {
        if tale.teller() == teller {
            found = Some(before);
        }
    }
    found
}

/// The life of the tale at this place, after those of the tales before it.
fn life_at(tales: &[Tale], lives: &[usize], place: usize) -> usize {
    let Some(before) = place_before(tales, place) else {
        return place;
    };
    match (tales.get(before), tales.get(place), lives.get(before)) {
        (Some(earlier), Some(tale), Some(life)) if goes_on(earlier, tale) => *life,
        _ => place,
    }
}

/// The life of each tale, named by the place of its first one.
pub(crate) fn lives_of(alloc: Global, tales: &[Tale]) -> Result<Vec<usize>, AllocError> {
    let mut lives = Vec::new(alloc);
    for place in 0..tales.len() {
        lives.push(life_at(tales, &lives, place))?;
    }
    Ok(lives)
}

/// The sequence of the probe that a fact is a part of, before it was answered.
fn probe_sequence(fact: &Fact) -> Option<u32>
    ensures { result ≡ probe_sequence fact.now }
{
    match fact {
        Fact::Pinged {
            purpose: Purpose::Probe,
            seq,
            ..
        }
        | Fact::Asked { seq, .. } => Some(*seq),
        _ => None,
    }
}

/// The sequence of the last probe in a story.
fn last_probe(story: &[Happening]) -> Option<u32>
    ensures { result ≡ last_probe story.now }
{
    let mut last = None;
    for happening in story {
        last = probe_sequence(&happening.fact).or(last);
    }
    last
}

/// The sequence of the last probe of the tale at this place, if it was answered in a later tale of the same life.
pub(crate) fn answered_later(tales: &[Tale], lives: &[usize], place: usize) -> Option<u32> {
    let seq = last_probe(&tales.get(place)?.story)?;
    let life = *lives.get(place)?;
    for (later, tale) in tales.iter().enumerate() {
        let is_after = place < later && lives.get(later) == Some(&life);
        if is_after && was_answered(seq, &tale.story) {
            return Some(seq);
        }
    }
    None
}
