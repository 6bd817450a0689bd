//! What settings say at a key that words may name.

use std::fmt::{self, Display, Formatter};
use swim_settings::{Key, Place, Preset, RunSettings};
use swim_words::Word;

/// What settings say at a key that words may name.
#[derive(Clone, Copy)]
pub(crate) struct Said<'a> {
    pub(crate) run: &'a RunSettings,
    pub(crate) key: Key,
}

/// Places, with a space between two.
#[derive(Clone, Copy)]
struct Places<'a>(&'a [Place]);

impl Display for Places<'_> {
    fn fmt<W: fmt::Write>(&self, f: &mut Formatter<W>) -> fmt::Result {
        if self.0.is_empty() {
            return write!(f, "nobody");
        }
        for (place, named) in self.0.iter().enumerate() {
            let before = if place == 0 { "" } else { " " };
            write!(f, "{before}{named}")?;
        }
        Ok(())
    }
}

/// The name of a preset, if there is one.
fn name_of(preset: Option<Preset>) -> &'static str {
    match preset {
        Some(preset) => preset.text(),
        None => "none",
    }
}

impl Display for Said<'_> {
    fn fmt<W: fmt::Write>(&self, f: &mut Formatter<W>) -> fmt::Result {
        let run = self.run;
        match self.key {
            Key::Group => write!(f, "{}", run.settings.group),
            Key::Me => write!(f, "{}", run.settings.me),
            Key::Control => write!(f, "{}", run.control),
            Key::Preset => write!(f, "{}", name_of(run.preset)),
            _ => write!(f, "{}", Places(run.join.as_slice())),
        }
    }
}
