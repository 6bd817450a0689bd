//! What is asked before each turn of a worker.

ghost use Rattle.std.specs.Prelude.{◌≡◌, ◌++◌, ◌∷◌, []};

/// Whether a worker goes on.
#[derive(Clone, Copy, Debug, PartialEq, Eq)]
pub enum Turn {
    /// It has another turn.
    Go,
    /// It ends.
    Stop,
}

/// What is asked before each turn of a worker. It may wait before it answers.
pub trait Gate {
    ghost use Rattle.std.specs.Prelude.{List};
    ghost use Rattle.swim_shell.specs.declared.gate.Turn.{Turn as Turns};

    /// Whether it tells what it answered.
    ghost tells: { Type 0 };

    /// What it answered, in order.
    ghost turns: { Self → List Turns };

    /// Whether the worker has another turn.
    fn turn(&mut self) -> Turn
        ensures { tells → turns self.new ≡ turns self.old ++ result ∷ [] };
}
