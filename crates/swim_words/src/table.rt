//! Values that are named by a word each.

ghost use Rattle.std.specs.Prelude.{◌≡◌, ◌≢◌, ℕ, List, All, Contains, IfSome, IfNone};

/// A value that a line names by a word.
pub trait Word: Copy {
    ghost text_of: { Self → List ℕ };

    /// The word that names it.
    fn text(self) -> &'static str
        ensures { result.now ≡ text_of self };
}

/// One of these values, which the word names; none where it names none of them.
pub fn named<T: Word>(all: &[T], word: &[u8]) -> Option<T>
    ensures among { IfSome result (λ value. Contains all.now value) }
    ensures some { IfSome result (λ value. word.now ≡ T.text_of value) }
    ensures none { IfNone result (All (λ value. word.now ≢ T.text_of value) all.now) }
{
    all.iter()
        .copied()
        .find(|value| value.text().as_bytes() == word)
}
