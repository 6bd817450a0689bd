//! Saves of the state file, one after the other.

ghost use Rattle.std.specs.Prelude.{◌≡◌, ◌+◌, ◌≤◌, true};

use swim_disk::Disk;
use swim_state::Store;
use swim_wire::NUMBER_MAX;

/// Raises the ceiling by 1 so many times, and answers whether each save was done.
pub(crate) fn save<D: Disk>(store: &mut Store<D>, count: u32) -> bool
    ensures { result ≡ true → store.old.ceiling + count ≤ store.new.ceiling }
{
    for _ in 0..count {
        let ceiling = store.ceiling();
        if ceiling == NUMBER_MAX || store.raise(ceiling + 1, 0, &[]).is_err() {
            return false;
        }
    }
    true
}
