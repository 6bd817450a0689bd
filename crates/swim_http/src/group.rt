//! What was read of several groups.

ghost use Rattle.std.specs.Prelude.{◌≡◌, find, option_map};
ghost use Rattle.std.specs.List.{list_any};
ghost use Rattle.swim_http.specs.Groups.{is_unanswered, is_other, phase_of_all};

use crate::seen::Seen;
use swim_member::Phase;

/// A group, and what was read of one of its members.
#[derive(Drop)]
pub struct SeenGroup {
    /// Its number.
    pub number: u64,
    /// What was read of the member.
    pub seen: Seen,
}

/// Whether no member of the group answers.
fn is_unanswered(group: &SeenGroup) -> bool
    ensures { result ≡ is_unanswered group.now }
{
    match group.seen.phase() {
        Some(_) => false,
        None => true,
    }
}

/// Whether a member of the group answers, and is in another phase than Running.
fn is_other(group: &SeenGroup) -> bool
    ensures { result ≡ is_other group.now }
{
    match group.seen.phase() {
        Some(Phase::Running) | None => false,
        Some(_) => true,
    }
}

/// Whether a group has no member that answers.
fn has_unanswered(groups: &[SeenGroup]) -> bool
    ensures { result ≡ list_any is_unanswered groups.now }
{
    groups.iter().any(|group| is_unanswered(group))
}

/// The first group whose member is in another phase than Running.
fn first_other(groups: &[SeenGroup]) -> Option<&SeenGroup>
    ensures { option_map (λ group. group.now) result ≡ find is_other groups.now }
{
    groups.iter().find(|group| is_other(group))
}

/// None where a group has no member that answers. Else the phase of the first member that is in another one than Running, or Running.
pub(crate) fn phase_of_all(groups: &[SeenGroup]) -> Option<Phase>
    ensures { result ≡ phase_of_all groups.now }
{
    if has_unanswered(groups) {
        return None;
    }
    match first_other(groups) {
        Some(group) => group.seen.phase(),
        None => Some(Phase::Running),
    }
}
