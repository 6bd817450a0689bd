//! All rows, page by page.

ghost use Rattle.std.specs.Prelude.{◌≡◌, ◌⊎◌, ◌++◌, Bool, ℕ, IfOk, IfErr, OnErr};
ghost use Rattle.swim_member.specs.declared.event.Event.TheVariants.{Members};
ghost use Rattle.swim_shell.specs.Calls.{Refuses};
ghost use Rattle.swim_join.specs.Joins.{AreWhole, IsShownAs, LooksAll, LooksInVain, ReadsPage, place_after};

use swim_member::Event;
use swim_news::{PAGES_MAX, Rows};
use swim_shell::{Caller, Refusal};
use swim_wire::{Cursor, UPDATES_MAX, Update};

/// Adds the rows of a page. A row that is not in order is left out, which does not come.
fn add_page(rows: &mut Rows, page: &[Update])
    ensures shown { (held : Bool) (x : ℕ) → IsShownAs held rows.new x
        → IsShownAs held rows.old x ⊎ IsShownAs held page.now x }
    ensures all { AreWhole (rows.old ++ page.now) → rows.new ≡ rows.old ++ page.now }
{
    for row in page {
        rows.add(*row);
    }
}

/// Reads the next page, and says whether it is full.
fn read_page<C: Caller>(caller: &mut C, rows: &mut Rows) -> Result<bool, Refusal>
    ensures ok { IfOk result (ReadsPage (C.known caller.old) (C.known caller.new) rows.old
        rows.new) }
    ensures err { IfErr result (λ why. Refuses C.limit why (C.known caller.old)
        (C.known caller.new) (Members (place_after rows.old))) }
    ensures same { OnErr result (rows.new ≡ rows.old) }
{
    let after = match rows.last() {
        Some(last) => Cursor::at(last),
        None => Cursor::zero(),
    };
    match caller.call(Event::Members { after }) {
        Ok(reply) => {
            add_page(rows, reply.page.as_slice());
            Ok(reply.page.is_full())
        }
        Err(refusal) => Err(refusal),
    }
}

/// Reads all rows after those that are there, page by page. What changes meanwhile may be seen or not. A refused call ends it, with
/// the rows that were read, and it may be gone on with by another caller.
#[tactic(auto, using(crate::proofs::Asking::looks_none))]
pub(crate) fn look<C: Caller>(caller: &mut C, rows: &mut Rows) -> Result<(), Refusal>
    ensures ok { IfOk result (λ _. LooksAll rows.old (C.known caller.old) (C.known caller.new)
        rows.new) }
    ensures err { IfErr result (λ why. LooksInVain C.limit why rows.old (C.known caller.old)
        (C.known caller.new) rows.new) }
{
    for _ in 0..PAGES_MAX {
        if !read_page(caller, rows)? {
            break;
        }
    }
    Ok(())
}
