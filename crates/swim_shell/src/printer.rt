//! What answers are made of: texts, numbers and endpoints, each added whole, or not at all where it does not fit. `write!` does not
//! say when it succeeds, so these are written without it.

ghost use Rattle.std.specs.Prelude.{◌≡◌, ◌+◌, ◌<◌, ◌≤◌, ◌++◌, length};
ghost use Rattle.std.specs.Fmt.{decimal};
ghost use Rattle.swim_shell.specs.Answers.{counted};
ghost use Rattle.swim_wire.specs.Text.{endpoint_text};

use arrayvec::ArrayString;
use swim_wire::Endpoint;

/// Room for the longest answer: a head, and thirty rows of at most 51 bytes.
pub const ANSWER_MAX: usize = 2048;

/// The most digits of a number.
pub(crate) const NUMBER_MAX: usize = 20;

/// The most bytes of an endpoint.
pub(crate) const ENDPOINT_MAX: usize = 21;

/// The text of an answer.
pub type AnswerText = ArrayString<ANSWER_MAX>;

/// Adds a text, where it fits.
pub(crate) fn add_text(answer: &mut AnswerText, text: &str)
    ensures fits { length answer.old.bytes + length text.now ≤ ANSWER_MAX
        → answer.new.bytes ≡ answer.old.bytes ++ text.now }
    ensures most { length answer.new.bytes ≤ length answer.old.bytes + length text.now }
{
    let _ = answer.try_push_str(text);
}

/// Adds a decimal digit, where it fits.
fn add_digit(answer: &mut AnswerText, digit: u8)
    requires { digit < 10 }
    ensures fits { length answer.old.bytes + 1 ≤ ANSWER_MAX
        → answer.new.bytes ≡ answer.old.bytes ++ decimal digit }
    ensures most { length answer.new.bytes ≤ length answer.old.bytes + 1 }
{
    let _ = answer.try_push(char::from(b'0' + digit));
}

/// Adds the decimal digits of a number, where they fit.
pub(crate) fn add_number(answer: &mut AnswerText, number: u64)
    ensures fits { length answer.old.bytes + length (decimal number) ≤ ANSWER_MAX
        → answer.new.bytes ≡ answer.old.bytes ++ decimal number }
    ensures most { length answer.new.bytes ≤ length answer.old.bytes + length (decimal number) }
{
    if number < 10 {
        return add_digit(answer, number as u8);
    }
    add_number(answer, number / 10);
    add_digit(answer, (number % 10) as u8);
}

/// Adds a name and a number, where they fit.
pub(crate) fn add_counted(answer: &mut AnswerText, name: &str, number: u64)
    ensures fits { length answer.old.bytes + length name.now + NUMBER_MAX ≤ ANSWER_MAX
        → answer.new.bytes ≡ answer.old.bytes ++ counted name.now number }
    ensures most { length answer.new.bytes
        ≤ length answer.old.bytes + length name.now + NUMBER_MAX }
{
    add_text(answer, name);
    add_number(answer, number);
}

/// Adds one of the four numbers of an address, and the byte that ends it, where they fit.
fn add_part(answer: &mut AnswerText, part: u8, end: &str)
    requires { length end.now ≡ 1 }
    ensures fits { length answer.old.bytes + 4 ≤ ANSWER_MAX
        → answer.new.bytes ≡ answer.old.bytes ++ (decimal part ++ end.now) }
    ensures most { length answer.new.bytes ≤ length answer.old.bytes + 4 }
{
    add_number(answer, u64::from(part));
    add_text(answer, end);
}

/// Adds an endpoint as `10.0.0.1:7000`, where it fits.
pub(crate) fn add_endpoint(answer: &mut AnswerText, endpoint: Endpoint)
    ensures fits { length answer.old.bytes + ENDPOINT_MAX ≤ ANSWER_MAX
        → answer.new.bytes ≡ answer.old.bytes ++ endpoint_text endpoint }
    ensures most { length answer.new.bytes ≤ length answer.old.bytes + ENDPOINT_MAX }
{
    let [first, second, third, fourth] = endpoint.address().to_be_bytes();
    add_part(answer, first, ".");
    add_part(answer, second, ".");
    add_part(answer, third, ".");
    add_part(answer, fourth, ":");
    add_number(answer, u64::from(endpoint.port()));
}
