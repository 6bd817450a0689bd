//! Which member is drawn.

ghost use Rattle.std.specs.Prelude.{◌≡◌, IfSome, IsTrue, true, ◌≢◌, length};
ghost use Rattle.swim_join.specs.Joins.{IsDrawnFrom, drawn_by, eligible_in, is_held, may_be_drawn, next_draw, nth_eligible};

use rand_chacha::ChaCha20Rng;
use rand_core::utils::NextWord;
use swim_wire::{Endpoint, Update, UpdateKind};

/// The next word of a generator.
pub(crate) fn next_draw(rng: &mut ChaCha20Rng) -> u32
    ensures word { result ≡ (next_draw rng.old).0 }
    ensures then { rng.new ≡ (next_draw rng.old).1 }
{
    rng.next_word()
}

/// Whether the row shows another member as Alive or Suspect.
fn is_eligible(row: &Update, me: Endpoint) -> bool
    ensures value { result ≡ may_be_drawn me row.now }
    ensures kind { IsTrue result → is_held row.now.kind ≡ true }
    ensures other { IsTrue result → row.now.who ≢ me }
{
    row.kind != UpdateKind::Confirm && row.who != me
}

/// How many other members are eligible.
pub(crate) fn count_eligible(rows: &[Update], me: Endpoint) -> usize
    ensures { result ≡ length (eligible_in me rows.now) }
{
    rows.iter().filter(|row| is_eligible(row, me)).count()
}

/// The member of the eligible row after so many others, itself left out.
pub(crate) fn nth_eligible(rows: &[Update], me: Endpoint, nth: usize) -> Option<Endpoint>
    ensures value { result ≡ nth_eligible me rows.now nth }
    ensures drawn { IfSome result (IsDrawnFrom me rows.now) }
{
    let mut left = nth;
    for row in rows {
        if is_eligible(row, me) {
            if left == 0 {
                return Some(row.who);
            }
            left -= 1;
        }
    }
    None
}

/// The eligible member that a random word draws from these rows, itself left out; none if there is none.
pub(crate) fn draw(rows: &[Update], me: Endpoint, word: u32) -> Option<Endpoint>
    ensures value { result ≡ drawn_by me rows.now word }
    ensures drawn { IfSome result (IsDrawnFrom me rows.now) }
{
    let count = count_eligible(rows, me);
    if count == 0 {
        return None;
    }
    nth_eligible(rows, me, word as usize % count)
}
