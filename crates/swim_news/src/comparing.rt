//! What changed from one list of rows to a later one.

ghost use Rattle.std.specs.Prelude.{◌≡◌, ◌+◌, ◌<◌, ◌≤◌, [], ◌∷◌, length, IfSome, IfNone};
ghost use Rattle.swim_news.specs.News.{AreFrom, AreNews};
ghost use Rattle.swim_news.specs.Machinery.Merging.{Takes};

use crate::change::Change;
use crate::rows::Rows;
use arrayvec::ArrayVec;
use swim_wire::{MEMBERS_MAX, Update};

/// The most changes: each row is gone, and each is new.
pub const CHANGES_MAX: usize = 2 * MEMBERS_MAX;

/// Changes, in the order of their members.
pub type Changes = ArrayVec<Change, CHANGES_MAX>;

/// How the row of the first member of two lists changed, if it did, and what is left of them without it; none where
/// both are empty.
#[tactic(auto, using(crate::proofs::Merging::takes_same))]
fn take_first<'a>(
    old: &'a [Update],
    new: &'a [Update],
) -> Option<(Option<Change>, &'a [Update], &'a [Update])>
    ensures first { IfSome result (λ rest. Takes old.now new.now rest.0 rest.1.now rest.2.now) }
    ensures shorter { IfSome result (λ rest. length rest.1.now + length rest.2.now
        < length old.now + length new.now) }
    ensures none { IfNone result ((old.now ≡ []) × (new.now ≡ [])) }
{
    let Some((now, newer)) = new.split_first() else {
        let Some((was, older)) = old.split_first() else {
            return None;
        };
        return Some((Some(Change::Gone(*was)), older, new));
    };
    let Some((was, older)) = old.split_first() else {
        return Some((Some(Change::New(*now)), old, newer));
    };
    if was.who < now.who {
        return Some((Some(Change::Gone(*was)), older, new));
    }
    if now.who < was.who {
        return Some((Some(Change::New(*now)), old, newer));
    }
    if was == now {
        return Some((None, older, newer));
    }
    let (was, now) = (*was, *now);
    Some((Some(Change::Changed { was, now }), older, newer))
}

/// Adds the changes from one list of rows to another.
#[tactic(auto, using(crate::proofs::Merging::merged_none, crate::proofs::Merging::merged_more, crate::proofs::Merging::merged_same, crate::proofs::Merging::merged_all))]
fn merge(old: &[Update], new: &[Update], changes: &mut Changes)
    requires none { changes.old.items ≡ [] }
    requires old { AreFrom 0 old.now }
    requires new { AreFrom 0 new.now }
    requires room { length old.now + length new.now ≤ CHANGES_MAX }
    ensures { AreNews old.now new.now changes.new.items }
{
    let (mut olds, mut news) = (old, new);
    while let Some((change, older, newer)) = take_first(olds, news) {
        if let Some(change) = change {
            changes.push(change);
        }
        olds = older;
        news = newer;
    }
}

/// The changes from one list of rows to a later one, in the place of what was there.
pub fn compare(old: &Rows, new: &Rows, changes: &mut Changes)
    ensures { AreNews old.now new.now changes.new.items }
{
    changes.clear();
    merge(old.as_slice(), new.as_slice(), changes);
}
