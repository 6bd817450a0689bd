//! Which facts change or explain something.

ghost use Rattle.std.specs.Prelude.{◌≡◌, IfOk};
ghost use Rattle.swim_explain.specs.News.{answers_probe, has_answer, was_answered, is_news, news_in};

use crate::fact::{Fact, Happening, Purpose};
use std::alloc::{AllocError, Global};
use swim_rules::Heard;
use swim_wire::UpdateKind;

/// Whether somebody answered the probe with this sequence.
fn answers_probe(seq: u32, happening: &Happening) -> bool
    ensures { result ≡ answers_probe seq happening.now }
{
    match happening.fact {
        Fact::Answered { seq: answered, .. } => answered == seq,
        _ => false,
    }
}

/// Whether somebody did in the story.
pub(crate) fn was_answered(seq: u32, story: &[Happening]) -> bool
    ensures { result ≡ was_answered seq story.now }
{
    for happening in story {
        if answers_probe(seq, happening) {
            return true;
        }
    }
    false
}

/// Whether somebody did in the story, or it is the probe that was answered in a later one.
fn has_answer(seq: u32, story: &[Happening], later: Option<u32>) -> bool
    ensures { result ≡ has_answer seq story.now later }
{
    match later {
        Some(answered) if answered == seq => true,
        _ => was_answered(seq, story),
    }
}

/// Whether a fact of this story changes or explains something. What a probe did that was answered does not, nor an update that was
/// not taken, nor a datagram that came, nor what was held where the era began.
fn is_news(story: &[Happening], later: Option<u32>, fact: &Fact) -> bool
    ensures { result ≡ is_news story.now later fact.now }
{
    match fact {
        Fact::Began { .. } | Fact::Came { .. } | Fact::Answered { .. } => false,
        Fact::Told { became, .. } => *became == Heard::Accepted,
        Fact::ToldItself { update, .. } => update.kind != UpdateKind::Alive,
        Fact::Pinged {
            purpose: Purpose::Probe,
            seq,
            ..
        }
        | Fact::Asked { seq, .. } => !has_answer(*seq, story, later),
        _ => true,
    }
}

/// What of a story changes or explains something, in order. The probe with the sequence `later` was answered after its end.
pub fn news_of(
    alloc: Global,
    story: &[Happening],
    later: Option<u32>,
) -> Result<Vec<Happening>, AllocError>
    ensures { IfOk result (λ told. told.items ≡ news_in story.now later story.now) }
{
    let mut told = Vec::new(alloc);
    for happening in story {
        if is_news(story, later, &happening.fact) {
            told.push(*happening)?;
        }
    }
    Ok(told)
}
