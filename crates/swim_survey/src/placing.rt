//! Where in the text of a plan the key stands for which it is refused.

use std::fmt;
use swim_input::key_line;
use swim_plan::PlanRefusal;
use swim_settings::SettingsRefusal;
use swim_words::Word;

/// Why a plan is refused, and on which line. It prints both, on one line.
#[derive(Debug, PartialEq, Eq, Drop)]
pub struct PlacedRefusal {
    /// Why.
    pub refusal: PlanRefusal,
    /// The line of the key, counted from 1; none where no line begins with it, as where the key has its default.
    pub line: Option<usize>,
}

impl fmt::Display for PlacedRefusal {
    fn fmt<W: fmt::Write>(&self, f: &mut fmt::Formatter<W>) -> fmt::Result {
        let refusal = &self.refusal;
        match self.line {
            Some(line) => write!(f, "{refusal} on line {line}"),
            None => write!(f, "{refusal}"),
        }
    }
}

/// A refusal of this text, with its line.
pub fn placed(text: &[u8], refusal: PlanRefusal) -> PlacedRefusal {
    let line = match &refusal {
        PlanRefusal::Key(key) => key_line(text, key.text()),
        PlanRefusal::Text(SettingsRefusal::Unknown(key)) => key_line(text, key.as_str()),
        PlanRefusal::Text(_) => None,
    };
    PlacedRefusal { refusal, line }
}
