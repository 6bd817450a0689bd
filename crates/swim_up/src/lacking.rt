//! What a member lacks.

ghost use Rattle.std.specs.Prelude.{◌≡◌, ◌↔◌, true, false};
ghost use Rattle.swim_up.specs.Lacking.{lacking_of};

/// What is to be made of a member before it runs.
#[derive(Clone, Copy, Debug, PartialEq, Eq)]
pub(crate) enum Lacking {
    /// Nothing: it runs.
    Nothing,
    /// Its settings. Its state file is there.
    Settings,
    /// Its state file and its settings: nobody has run it.
    All,
    /// Nothing may be made: it has settings, and so it may have run, and its state file is lost.
    StateLost,
    /// Nothing may be made: nothing is there, as where a disk is not mounted, and no word says that a member begins.
    Unsaid,
}

/// What is to be made of a member, by what is there of it, and by whether one may begin. A state file is made only where nothing is there.
pub(crate) fn lacking_of(has_settings: bool, has_state: bool, may_begin: bool) -> Lacking
    ensures is { result ≡ lacking_of has_settings has_state may_begin }
    ensures made { result ≡ Lacking.All
        ↔ ((has_settings ≡ false) × (has_state ≡ false) × (may_begin ≡ true)) }
    ensures runs { has_state ≡ true → has_settings ≡ true → result ≡ Lacking.Nothing }
{
    match (has_settings, has_state) {
        (true, true) => Lacking::Nothing,
        (false, true) => Lacking::Settings,
        (false, false) if may_begin => Lacking::All,
        (false, false) => Lacking::Unsaid,
        (true, false) => Lacking::StateLost,
    }
}
