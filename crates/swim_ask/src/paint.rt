//! Colours of states, for a person at a terminal.

ghost use Rattle.std.specs.Prelude.{◌≡◌, ◌≢◌, [], true, false, None};
ghost use Rattle.swim_ask.specs.declared.paint.Paint.TheVariants as paints;

use crate::leaving::may_have_left;
use std::rt::Env;
use std::{env, fmt};
use swim_news::{Change, state_name};
use swim_wire::UpdateKind;

/// The variable that asks for no colours if it has any text (no-color.org).
const NO_COLOR: &str = "NO_COLOR";

/// Whether states are printed in colours.
#[derive(Clone, Copy, Debug, PartialEq, Eq)]
pub enum Paint {
    /// As plain text.
    Plain,
    /// Each state in its own colour: alive green, suspect yellow, failed red.
    Coloured,
}

impl Paint {
    /// For a terminal or something else, where the variable is set to this text or not.
    fn wanted(is_terminal: bool, no_color: &str) -> Paint
        ensures elsewhere { is_terminal ≡ false → result ≡ paints.Plain }
        ensures refused { no_color.now ≢ [] → result ≡ paints.Plain }
        ensures wanted { is_terminal ≡ true → no_color.now ≡ [] → result ≡ paints.Coloured }
    {
        if is_terminal && no_color.is_empty() {
            Paint::Coloured
        } else {
            Paint::Plain
        }
    }

    /// Colours if standard output is a terminal, unless the environment variable `NO_COLOR` has any text.
    pub fn of<R: Env + Alloc>(rt: &R, is_terminal: bool) -> Paint {
        match env::var(rt, NO_COLOR) {
            Ok(text) => Paint::wanted(is_terminal, text.as_str()),
            Err(env::VarError::NotPresent) => Paint::wanted(is_terminal, ""),
            Err(_) => Paint::Plain,
        }
    }

    /// What begins the colour of a state.
    fn begin(self, kind: UpdateKind) -> &'static str {
        match (self, kind) {
            (Paint::Plain, _) => "",
            (Paint::Coloured, UpdateKind::Alive) => "\x1b[32m",
            (Paint::Coloured, UpdateKind::Suspect) => "\x1b[33m",
            (Paint::Coloured, UpdateKind::Confirm) => "\x1b[31m",
        }
    }

    /// What ends a colour.
    fn end(self) -> &'static str {
        match self {
            Paint::Plain => "",
            Paint::Coloured => "\x1b[0m",
        }
    }
}

/// A state, as wide as the longest one.
#[derive(Clone, Copy)]
pub(crate) struct PaintedKind(pub(crate) Paint, pub(crate) UpdateKind);

impl fmt::Display for PaintedKind {
    fn fmt<W: fmt::Write>(&self, f: &mut fmt::Formatter<W>) -> fmt::Result {
        let (begin, name, end) = (self.0.begin(self.1), state_name(self.1), self.0.end());
        write!(f, "{begin}{name:<7}{end}")
    }
}

/// What stands behind a change, where a member may have left.
fn remark(change: &Change) -> &'static str {
    if may_have_left(change) {
        " (it may have left)"
    } else {
        ""
    }
}

/// A change, in the colour of what the member is now; one that is unknown now has none.
#[derive(Clone, Copy)]
pub(crate) struct PaintedChange(pub(crate) Paint, pub(crate) Change);

impl fmt::Display for PaintedChange {
    fn fmt<W: fmt::Write>(&self, f: &mut fmt::Formatter<W>) -> fmt::Result {
        let PaintedChange(paint, change) = *self;
        match change.now() {
            Some(row) => {
                let (begin, end) = (paint.begin(row.kind), paint.end());
                let remark = remark(&change);
                write!(f, "{begin}{change}{remark}{end}")
            }
            None => write!(f, "{change}"),
        }
    }
}
