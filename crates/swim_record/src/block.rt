//! The lines at the front of a text.

ghost use Rattle.std.specs.Prelude.{◌≡◌, ℕ, List, ◌++◌, ◌∷◌, IfSome, IfNone, IfOk};
ghost use Rattle.swim_member.specs.declared.event.Event.{Event as Events};
ghost use Rattle.swim_record.specs.Blocks.{AreFit, HasNoLine, StartsWith};
ghost use Rattle.swim_record.specs.Events.{IsEvent};
ghost use Rattle.swim_record.specs.Recording.{event_words, lines_text};
ghost use Rattle.swim_record.specs.declared.line.Line.{Line as Lines};

use crate::line::{Line, read_line};
use std::alloc::{AllocError, Global};
use swim_words::split_at_byte;

/// The line at the front of a text, and what follows its end.
fn front_line(text: &[u8]) -> Option<(Line, &[u8])>
    ensures line { IfSome result (λ r. StartsWith text.now r.0 r.1.now) }
    ensures none { IfNone result (HasNoLine text.now) }
{
    let (word, rest) = split_at_byte(text, b'\n')?;
    let line = read_line(word)?;
    Some((line, rest))
}

/// The lines at the front of a text, and what follows the end of the last one. Lines that were written there before
/// anything else are read as those lines.
pub fn read_lines(alloc: Global, text: &[u8]) -> Result<(Vec<Line>, &[u8]), AllocError>
    ensures lines { IfOk result (λ r. text.now ≡ lines_text r.0.items ++ r.1.now) }
    ensures fit { IfOk result (λ r. AreFit r.0.items) }
    ensures rest { IfOk result (λ r. HasNoLine r.1.now) }
    ensures back { IfOk result (λ r. (lines : List Lines) (rest : List ℕ)
        → text.now ≡ lines_text lines ++ rest
        → AreFit lines
        → HasNoLine rest
        → (r.0.items ≡ lines) × (r.1.now ≡ rest)) }
{
    let mut lines = Vec::new(alloc);
    let mut rest = text;
    while let Some((line, after)) = front_line(rest) {
        lines.push(line)?;
        rest = after;
    }
    Ok((lines, rest))
}

/// The line of an event is none of those that `read_lines` takes. The function does nothing: its contract is the law.
pub fn an_event_ends_the_lines()
    ensures { (e : Events) → (after : List ℕ) → IsEvent e
        → HasNoLine (event_words e ++ 10 ∷ after) }
{}
