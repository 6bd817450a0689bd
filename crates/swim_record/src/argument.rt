//! The words after the first one.

ghost use Rattle.std.specs.Prelude.{◌≡◌, ◌⊎◌, ◌++◌, ◌∷◌, ℕ, List, [], ◌<◌, ◌≤◌, length, IfSome, IfNone, All};
ghost use Rattle.swim_words.specs.Words.{No, Lacks};
ghost use Rattle.swim_record.specs.Text.{argument_text, IsArgument, SaysArguments};
ghost use Rattle.swim_record.specs.declared.argument.Argument.{Argument as Arguments};
ghost use Rattle.swim_record.specs.declared.argument.TheConstants.{ARGUMENTS_MAX};

use arrayvec::ArrayVec;
use std::fmt;
use swim_wire::Endpoint;
use swim_words::{read_endpoint, read_number};

/// The most arguments of a line.
pub(crate) const ARGUMENTS_MAX: usize = 8;

/// A word after the first one.
#[derive(Clone, Copy, Debug, PartialEq, Eq)]
pub enum Argument {
    /// A number.
    Number(u64),
    /// An endpoint.
    Who(Endpoint),
}

impl Argument {
    /// The number that it is, if it is one.
    pub fn number(self) -> Option<u64>
        ensures number { IfSome result (λ n. self ≡ Argument.Number n) }
        ensures none { IfNone result (No (λ n. self ≡ Argument.Number n)) }
    {
        match self {
            Argument::Number(number) => Some(number),
            Argument::Who(_) => None,
        }
    }

    /// The endpoint that it is, if it is one.
    pub fn who(self) -> Option<Endpoint>
        ensures who { IfSome result (λ e. self ≡ Argument.Who e) }
        ensures none { IfNone result (No (λ e. self ≡ Argument.Who e)) }
    {
        match self {
            Argument::Number(_) => None,
            Argument::Who(who) => Some(who),
        }
    }
}

impl fmt::Display for Argument {
    ghost use Rattle.std.specs.Prelude.{Some};

    ghost output = { λ argument. Some (argument_text argument) };

    fn fmt<W: fmt::Write>(&self, f: &mut fmt::Formatter<W>) -> fmt::Result {
        match self {
            Argument::Number(number) => number.fmt(f),
            Argument::Who(who) => who.fmt(f),
        }
    }
}

/// What fills the unused places of a list.
impl Default for Argument {
    fn default() -> Argument
        ensures { result ≡ Argument.Number 0 }
    {
        Argument::Number(0)
    }
}

/// The argument that the word is.
fn read_argument(word: &[u8]) -> Option<Argument>
    ensures argument { IfSome result
        (λ argument. (word.now ≡ argument_text argument) × IsArgument argument) }
    ensures none { IfNone result
        (No (λ argument. (word.now ≡ argument_text argument) × IsArgument argument)) }
{
    if let Some(number) = read_number(word) {
        return Some(Argument::Number(number));
    }
    let who = read_endpoint(word)?;
    Some(Argument::Who(who))
}

/// What stands before the first space, and what follows from there on.
pub(crate) fn first_word(text: &[u8]) -> (&[u8], &[u8])
    ensures parts { text.now ≡ result.0.now ++ result.1.now }
    ensures first { Lacks 32 result.0.now }
    ensures rest { (result.1.now ≡ []) ⊎ ((after : List ℕ) × (result.1.now ≡ 32 ∷ after)) }
{
    for (index, byte) in text.iter().enumerate() {
        if *byte == b' ' {
            return (&text[..index], &text[index..]);
        }
    }
    (text, &[])
}

/// The arguments that a text is, each after a space, at most eight.
pub(crate) fn read_arguments(text: &[u8]) -> Option<ArrayVec<Argument, ARGUMENTS_MAX>>
    ensures arguments { IfSome result (λ arguments. SaysArguments text.now arguments.items) }
    ensures none { IfNone result
        (No (λ (arguments : List Arguments). SaysArguments text.now arguments
        × (length arguments ≤ ARGUMENTS_MAX))) }
{
    let mut arguments = ArrayVec::new();
    let mut rest = text;
    while let Some((space, after)) = rest.split_first() {
        if *space != b' ' || arguments.is_full() {
            return None;
        }
        let (word, next) = first_word(after);
        arguments.push(read_argument(word)?);
        rest = next;
    }
    Some(arguments)
}
