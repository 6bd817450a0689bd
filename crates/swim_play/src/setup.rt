//! What the next opening of a script is to have.

ghost use Rattle.std.specs.Prelude.{◌≡◌};
ghost use Rattle.swim_play.specs.Play.{first_setup, with_setting};

use swim_member::Settings;
use swim_script::Setting;
use swim_wire::Endpoint;

/// The settings of the next opening, and the most entries of its eras.
#[derive(Clone, Copy, Debug, PartialEq, Eq)]
pub struct Setup {
    /// The settings.
    pub settings: Settings,
    /// The era limit.
    pub limit: u32,
}

impl Setup {
    /// What a script begins with: group 7, the member 10.0.0.1:7000, and eras of 4,096 entries.
    pub(crate) fn first() -> Setup
        ensures { result ≡ first_setup }
    {
        let Some(me) = Endpoint::new(0x0a00_0001, 7000) else {
            unreachable!()
        };
        let settings = Settings {
            group: 7,
            me,
            lambda: 2,
            period: 4,
            direct: 2,
            suspect: 8,
            forget: 40,
            helpers: 2,
            block: 1,
            rules: 1,
        };
        Setup {
            settings,
            limit: 4096,
        }
    }

    /// Changes the setting that is named.
    pub(crate) fn set(&mut self, setting: Setting, value: u32)
        ensures { self.new ≡ with_setting self.old setting value }
    {
        match setting {
            Setting::Lambda => self.settings.lambda = value,
            Setting::Period => self.settings.period = u64::from(value),
            Setting::Direct => self.settings.direct = u64::from(value),
            Setting::Suspect => self.settings.suspect = u64::from(value),
            Setting::Forget => self.settings.forget = u64::from(value),
            Setting::Helpers => self.settings.helpers = value as usize,
            Setting::Limit => self.limit = value,
            Setting::Block => self.settings.block = u64::from(value),
            Setting::Rules => self.settings.rules = value,
        }
    }
}
