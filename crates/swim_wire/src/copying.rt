//! Copies of bounded lists, which take no memory.

ghost use Rattle.std.specs.Prelude.{◌≡◌};

use arrayvec::ArrayVec;

/// The same list once more.
pub fn copied<T: Copy + Default, const N: usize>(items: &ArrayVec<T, N>) -> ArrayVec<T, N>
    ensures { result.items ≡ items.now.items }
{
    let mut copy = ArrayVec::new();
    let _ = copy.try_extend_from_slice(items.as_slice());
    copy
}
