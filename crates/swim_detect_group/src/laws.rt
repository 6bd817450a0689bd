//! The laws of detection in a group. The functions do nothing: their contracts are the laws.

ghost use Rattle.std.specs.Prelude.{ℕ, List, []};
ghost use Rattle.swim_group.specs.Group.{Group, Move, Begins, IsRunOf, OfPlace, place_at, after_moves};
ghost use Rattle.swim_detect.specs.Fairness.{IsOf, IsOfEither};
ghost use Rattle.swim_detect_group.specs.Accusing.{AreFairMoves, AreTimelyMoves, AllAlive, IsFairGroup, WasAccused, WasGone};
ghost use Rattle.swim_member.specs.Checks.{AreSound};
ghost use Rattle.swim_node.specs.History.{Base, IsLegal, steps};
ghost use Rattle.swim_node.specs.Lives.{Era};
ghost use Rattle.swim_node.specs.declared.entry.Entry.{Entry};
ghost use Rattle.swim_detect.specs.Causes.{RowsHaveCauses};
ghost use Rattle.swim_detect_group.specs.Eras.{ErasFindSilent};
ghost use Rattle.swim_detect_group.specs.Journals.{NodeFindsSilent, EntriesAreAccounted};
ghost use Rattle.swim_detect_group.specs.Stopping.{NeverRestarts, IsFoundBy, HasStopped, FindsStopped};

/// Whoever is suspected by anybody was accused by a member in this run: it was probed, and no ack came until the period's
/// end. Whoever is confirmed was accused, or left. So it is in every row, in every buffer and in every datagram.
pub fn suspected_were_accused()
    ensures run { (group : Group) → (moves : List Move)
        → Begins group
        → IsRunOf group moves
        → IsFairGroup (λ x. WasAccused x group moves) (λ x. WasGone x group moves)
        (after_moves group moves) }
    // the same by names
    ensures names { (accused gone : List ℕ) → (group : Group) → (moves : List Move)
        → Begins group
        → IsRunOf group moves
        → AreFairMoves (IsOf accused) (IsOfEither accused gone) group moves
        → IsFairGroup (IsOf accused) (IsOfEither accused gone) (after_moves group moves) }
{}

/// In a run in which each probe is answered in time, but for those of members that are gone, because they left or stopped,
/// nobody else is suspected and nobody else is confirmed: in no row, in no buffer and in no datagram.
pub fn only_the_gone_are_suspected()
    ensures gone { (gone : List ℕ) → (group : Group) → (moves : List Move)
        → Begins group
        → IsRunOf group moves
        → AreTimelyMoves (IsOf gone) group moves
        → IsFairGroup (IsOf gone) (IsOf gone) (after_moves group moves) }
    // and where nobody is gone all that is said and held is Alive
    ensures nobody { (group : Group) → (moves : List Move)
        → Begins group
        → IsRunOf group moves
        → AreTimelyMoves (IsOf []) group moves
        → AllAlive (after_moves group moves) }
{}

/// A member that goes on finds another that stopped, within the time of `failed_are_found`.
pub fn stopped_are_found()
    ensures steps { (most x which : ℕ) → (group : Group) → (moves : List Move)
        → NeverRestarts which moves
        → OfPlace (place_at group.places which) (IsFoundBy most x which group moves) }
    // in a run of a group: once no ack of it comes any more, and its last number was heard. What else is under way, or is
    // said of it by others, does no harm, since no number is passed
    ensures run { (most which other : ℕ) → (group : Group) → (before moves : List Move)
        → Begins group
        → IsRunOf group before
        → IsRunOf (after_moves group before) moves
        → HasStopped other moves
        → NeverRestarts which moves
        → OfPlace (place_at (after_moves group before).places other) (λ stopped.
        OfPlace (place_at (after_moves group before).places which)
        (FindsStopped most which (after_moves group before) moves stopped)) }
{}

/// A node finds a member that fell silent within that time, whatever else is in its journal.
pub fn nodes_find_the_silent()
    ensures era { (x n : ℕ) → (base : Base) → (before stretch : List Entry)
        → NodeFindsSilent x n base before stretch }
    // and over the eras of a life: no end of an era puts the deadline off
    ensures eras { (x n : ℕ) → (start last : Base) → (eras : List Era)
        → ErasFindSilent x n start eras last }
{}

/// What a node holds of others, the era began with, or it has a cause in the journal. What its datagrams say of others has one
/// up to the entry that sends them.
pub fn nodes_have_causes()
    ensures rows { (base : Base) → (history : List Entry)
        → AreSound base.state.settings
        → RowsHaveCauses base.state (steps history) }
    ensures sends { (base : Base) → (history : List Entry)
        → IsLegal base history
        → AreSound base.state.settings
        → EntriesAreAccounted base history }
{}
