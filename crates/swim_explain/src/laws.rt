//! The law of a story's causes. The function does nothing: its contract is the law.

ghost use Rattle.std.specs.Prelude.{ℕ, List};
ghost use Rattle.swim_member.specs.Checks.{AreSound};
ghost use Rattle.swim_member.specs.State.{State};
ghost use Rattle.swim_node.specs.declared.entry.Entry.{Entry};
ghost use Rattle.swim_explain.specs.Causes.{LeavesNoneOut, NamesCauses};

/// What a story says of why a member is suspected or confirmed is a cause by the law of detection: that was told by a datagram which came,
/// or accused by the probe with that sequence, or the suspicion of that tick has expired. It leaves none out.
pub fn stories_name_causes()
    ensures causes { (base : State) → (x : ℕ) → (entries : List Entry)
        → AreSound base.settings
        → NamesCauses base x entries }
    ensures each { (base : State) → (x : ℕ) → (entries : List Entry)
        → AreSound base.settings
        → LeavesNoneOut base x entries }
{}
