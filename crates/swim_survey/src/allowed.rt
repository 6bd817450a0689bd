//! What a plan or a sweep that is refused would have to have.

use crate::fault::AskedFault;
use std::fmt;
use swim_plan::{PlanKey, PlanRefusal};
use swim_settings::SettingsRefusal;

/// What a plan or a sweep that is refused would have to have. It prints on one line, for people.
#[derive(Clone, Copy, Debug)]
pub enum Allowed {
    /// A number that this key takes.
    Number(PlanKey),
    /// A key that a plan has.
    Key,
    /// TOML.
    Toml,
}

impl fmt::Display for Allowed {
    fn fmt<W: fmt::Write>(&self, f: &mut fmt::Formatter<W>) -> fmt::Result {
        match self {
            Allowed::Number(PlanKey::Direct) => {
                write!(
                    f,
                    "`direct` takes a whole number of ticks, from 1 and less than `period`"
                )
            }
            Allowed::Number(key) => {
                let range = key.range();
                let (least, most) = (range.least, range.most);
                write!(f, "`{key}` takes a whole number, {least} to {most}")
            }
            Allowed::Key => write!(
                f,
                "no plan has such a key: SIMULATE.md has those that there are"
            ),
            Allowed::Toml => write!(f, "it is no TOML, whose lines are `key = number` here"),
        }
    }
}

/// What would have to stand in the place of what is refused.
fn allowed_for(refusal: &PlanRefusal) -> Option<Allowed> {
    match refusal {
        PlanRefusal::Key(key) => Some(Allowed::Number(*key)),
        PlanRefusal::Text(SettingsRefusal::Unknown(_)) => Some(Allowed::Key),
        PlanRefusal::Text(SettingsRefusal::Toml) => Some(Allowed::Toml),
        PlanRefusal::Text(_) => None,
    }
}

impl AskedFault {
    /// What a plan or a sweep that is refused would have to have; none where another fault is told.
    pub fn allowed(&self) -> Option<Allowed> {
        match self {
            AskedFault::Plan(placed) => allowed_for(&placed.refusal),
            AskedFault::Sweep(refusal) => allowed_for(refusal),
            _ => None,
        }
    }
}
