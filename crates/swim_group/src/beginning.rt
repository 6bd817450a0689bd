//! Which members may begin together.

ghost use Rattle.std.specs.Prelude.{◌≡◌, ◌≤◌, ◌==◌, ◌↔◌, length, drop, IsTrue, IfErr, OnOk};
ghost use Rattle.std.specs.List.{IsDistinct, list_any};
ghost use Rattle.swim_group.specs.Real.{MayBegin, IsUnfit, names_in};

use crate::fault::GroupFault;
use swim_member::Settings;
use swim_wire::Endpoint;

/// Whether one of these members, from a place on, has this name.
fn has_name(settings: &[Settings], from: usize, name: Endpoint) -> bool
    requires { from ≤ length settings.now }
    ensures { result ≡ list_any (λ x. name == x) (names_in (drop from settings.now)) }
{
    for i in from..settings.len() {
        if settings[i].me == name {
            return true;
        }
    }
    false
}

/// Whether no two of these members have one name.
fn are_apart(settings: &[Settings]) -> bool
    ensures { IsTrue result ↔ IsDistinct (λ x y. x == y) (names_in settings.now) }
{
    for i in 0..settings.len() {
        let one = &settings[i];
        if has_name(settings, i + 1, one.me) {
            return false;
        }
    }
    true
}

/// Judges whether members with these settings may begin together: each alone first, and then their names.
pub(crate) fn may_begin(settings: &[Settings]) -> Result<(), GroupFault>
    ensures ok { OnOk result (MayBegin settings.now) }
    ensures err { IfErr result (λ fault. IsUnfit settings.now fault) }
{
    for one in settings {
        if let Err(fault) = one.check() {
            return Err(GroupFault::Unsound(fault));
        }
    }
    if !are_apart(settings) {
        return Err(GroupFault::SameName);
    }
    Ok(())
}
