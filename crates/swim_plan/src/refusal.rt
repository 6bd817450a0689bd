//! Why a plan is refused.

ghost use Rattle.std.specs.Prelude.{◌≡◌};
ghost use Rattle.swim_plan.specs.declared.refusal.PlanRefusal.TheVariants as refusals;

use crate::key::PlanKey;
use std::alloc::AllocError;
use std::{error, fmt};
use swim_settings::SettingsRefusal;

/// Why a plan is refused. It prints the key, or what is wrong with the text, always on one line.
#[derive(Debug, PartialEq, Eq, Drop)]
pub enum PlanRefusal {
    /// This key has another value than it takes.
    Key(PlanKey),
    /// The text is no TOML, or has a key that no plan has, or memory ran out.
    Text(SettingsRefusal),
}

impl From<SettingsRefusal> for PlanRefusal {
    ghost from_gives = { λ refusal result. result ≡ refusals.Text refusal };

    fn from(refusal: SettingsRefusal) -> PlanRefusal {
        PlanRefusal::Text(refusal)
    }
}

impl From<AllocError> for PlanRefusal {
    ghost use Rattle.swim_settings.specs.declared.refusal.SettingsRefusal.TheVariants.{Memory};

    ghost from_gives = { λ _ refusal. refusal ≡ refusals.Text Memory };

    fn from(_: AllocError) -> PlanRefusal {
        PlanRefusal::Text(SettingsRefusal::Memory)
    }
}

impl fmt::Display for PlanRefusal {
    /// The key; one that TOML does not take without quotes is quoted and escaped.
    fn fmt<W: fmt::Write>(&self, f: &mut fmt::Formatter<W>) -> fmt::Result {
        match self {
            PlanRefusal::Key(key) => write!(f, "{key}"),
            PlanRefusal::Text(refusal) => write!(f, "{refusal}"),
        }
    }
}

impl error::Error for PlanRefusal {}
