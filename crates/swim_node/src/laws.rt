//! The law of lives, that of turns, and that of causes. The functions do nothing: their contracts are the laws.

ghost use Rattle.std.specs.Prelude.{◌≡◌, List, [], map};
ghost use Rattle.swim_state.specs.declared.owner.Owner.{Owner};
ghost use Rattle.swim_node.specs.declared.entry.Entry.{Entry};
ghost use Rattle.swim_node.specs.History.{Base, IsLegal, state_after};
ghost use Rattle.swim_node.specs.Lives.{Life, AreLives, AreRising};
ghost use Rattle.swim_node.specs.Probing.{ProbesInTurns, GoesInTurns, IsStart};
ghost use Rattle.swim_node.specs.Replaying.{cause_of};

use swim_disk::Disk;

/// Every own number of a later life is above every own number of an earlier one, where each life was opened on what
/// became of the disk that the one before left: by kills, by crashes at any moments, and by recoveries that were refused.
pub fn own_numbers_rise<D: Disk>()
    ensures { (owner : Owner) → (lives : List (Life D))
        → AreLives D.state owner lives
        → AreRising lives }
{}

/// In each turn of probing that ended, a listed member that stayed eligible was probed exactly once, one that isn't
/// listed not at all, and nobody twice. A turn that an earlier era began ends so too, and a list has all that are
/// eligible when it is made: so a member that failed is probed after a bounded time (SWIM, section 4.3).
pub fn listed_are_probed_once()
    ensures turns { (base : Base) → (history : List Entry)
        → IsLegal base history
        → ProbesInTurns base history }
    ensures era { (base : Base) → (history : List Entry)
        → IsLegal base history
        → IsStart (state_after base [])
        → GoesInTurns base history }
{}

/// Where an era began and the causes of its entries, in order, say all that is in it.
pub fn causes_make_the_entries()
    ensures { (base : Base) → (history other : List Entry)
        → IsLegal base history
        → IsLegal base other
        → map cause_of history ≡ map cause_of other
        → history ≡ other }
{}
