//! Presets: each names times that go together.

ghost use Rattle.std.specs.Prelude.{◌≡◌, ℕ, None};
ghost use Rattle.swim_member.specs.Checks.{usual_settings};
ghost use Rattle.swim_settings.specs.Presets.{HasTimes, preset_text, times_of};

use swim_words::Word;

/// A kind of network, whose times a file may take by its name.
#[derive(Clone, Copy, Debug, PartialEq, Eq)]
pub enum Preset {
    /// All members on one machine, as in a test.
    Local,
    /// Members in one place, which lose up to some 10 of 100 datagrams.
    Lan,
    /// Members far from one another, with round trips of up to a second.
    Wan,
}

impl Preset {
    /// All presets.
    pub(crate) const ALL: [Preset; 3] = [Preset::Local, Preset::Lan, Preset::Wan];
}

/// The preset as a file has it.
impl Word for Preset {
    ghost text_of = { preset_text };

    fn text(self) -> &'static str {
        match self {
            Preset::Local => "local",
            Preset::Lan => "lan",
            Preset::Wan => "wan",
        }
    }
}

/// What stands in the place of the keys of these names that a file has not.
#[derive(Clone, Copy, Debug, PartialEq, Eq)]
pub struct DefaultTimes {
    /// `tick_ms`, in milliseconds.
    pub tick_ms: u64,
    /// `lambda`.
    pub lambda: u64,
    /// `period`, in ticks, as all that follow but `helpers`.
    pub period: u64,
    /// `direct`.
    pub direct: u64,
    /// `suspect`.
    pub suspect: u64,
    /// `forget`.
    pub forget: u64,
    /// `helpers`.
    pub helpers: u64,
    /// `rejoin`.
    pub rejoin: u64,
}

impl DefaultTimes {
    /// The times of a preset, or those of a file without one.
    pub fn of(preset: Option<Preset>) -> DefaultTimes
        ensures times { result ≡ times_of preset }
        // a file without times has those of a program that says none
        ensures usual { preset ≡ None → (group me : ℕ)
            → HasTimes (usual_settings group me) result }
    {
        match preset {
            None => DefaultTimes {
                tick_ms: 100,
                lambda: 3,
                period: 10,
                direct: 3,
                suspect: 50,
                forget: 6000,
                helpers: 3,
                rejoin: 300,
            },
            Some(Preset::Local) => DefaultTimes {
                tick_ms: 20,
                lambda: 3,
                period: 10,
                direct: 3,
                suspect: 50,
                forget: 3000,
                helpers: 3,
                rejoin: 100,
            },
            Some(Preset::Lan) => DefaultTimes {
                tick_ms: 50,
                lambda: 3,
                period: 10,
                direct: 2,
                suspect: 80,
                forget: 12_000,
                helpers: 5,
                rejoin: 600,
            },
            Some(Preset::Wan) => DefaultTimes {
                tick_ms: 200,
                lambda: 4,
                period: 15,
                direct: 5,
                suspect: 150,
                forget: 6000,
                helpers: 3,
                rejoin: 50,
            },
        }
    }
}
