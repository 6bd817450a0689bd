//! The number that a life begins with.

ghost use Rattle.std.specs.Prelude.{◌≡◌, ◌-◌, ◌^◌, ◌≤◌, IfSome, IfNone};
ghost use Rattle.std.specs.Fmt.{decimal};
ghost use Rattle.swim_wire.specs.declared.update.TheConstants.{NUMBER_MAX};
ghost use Rattle.swim_words.specs.Words.{No, SaysNumber};

use swim_wire::NUMBER_MAX;
use swim_words::read_within;

/// A number that a life may begin with, 1 to 2^62.
#[derive(Clone, Copy, Debug, PartialEq, Eq)]
pub struct FirstNumber {
    /// The number.
    pub value: u64,
    ghost in_range: { (1 ≤ value) × (value ≤ NUMBER_MAX) },
}

impl FirstNumber {
    /// The ceiling of a file on which a life begins with it.
    pub fn ceiling(self) -> u64
        ensures { result ≡ self.value - 1 }
    {
        self.value - 1
    }
}

/// The number that decimal digits spell, if a life may begin with it.
pub(crate) fn read_first(text: &[u8]) -> Option<FirstNumber>
    ensures number { IfSome result (λ first. text.now ≡ decimal first.value) }
    ensures none { IfNone result (No (SaysNumber text.now 1 NUMBER_MAX)) }
{
    let value = read_within(text, 1, NUMBER_MAX)?;
    Some(FirstNumber { value })
}
