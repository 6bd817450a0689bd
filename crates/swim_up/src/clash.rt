//! Where words and the settings of a file say different things.

ghost use Rattle.std.specs.Prelude.{IfSome, IfNone};
ghost use Rattle.swim_up.specs.Clash.{AgreeAtAll, ClashAt};

use swim_settings::{Key, RunSettings};

/// Which keys the words name. They always name `me`.
#[derive(Clone, Copy, Debug)]
pub(crate) struct Given {
    pub(crate) group: bool,
    pub(crate) control: bool,
    pub(crate) preset: bool,
    pub(crate) join: bool,
}

/// The first key that the words name and at which the file has something else; none where they agree. Whether both join the same is
/// told.
pub(crate) fn clash_of(
    told: &RunSettings,
    wanted: &RunSettings,
    joins_same: bool,
    given: Given,
) -> Option<Key>
    ensures agree { IfNone result (AgreeAtAll told.now wanted.now joins_same given) }
    ensures clash { IfSome result (ClashAt told.now wanted.now joins_same given) }
{
    if given.group && told.settings.group != wanted.settings.group {
        Some(Key::Group)
    } else if told.settings.me != wanted.settings.me {
        Some(Key::Me)
    } else if given.control && !told.control.is_same(&wanted.control) {
        Some(Key::Control)
    } else if given.preset && told.preset != wanted.preset {
        Some(Key::Preset)
    } else if given.join && !joins_same {
        Some(Key::Join)
    } else {
        None
    }
}
