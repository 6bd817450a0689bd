//! The words of a line: numbers and endpoints, as scripts and control lines write them.

ghost use Rattle.std.specs.Prelude.{◌≡◌, ◌≢◌, ◌⊎◌, ℕ, ◌+◌, ◌^◌, ◌<◌, List, IfSome, IfNone};
ghost use Rattle.std.specs.Fmt.{decimal};
ghost use Rattle.swim_words.specs.Words.{No, Lacks, split_by, SaysNumber, SaysEndpoint};

use swim_wire::Endpoint;

/// What stands before the first such byte, and what stands after it; none where it isn't there.
pub fn split_at_byte(text: &[u8], byte: u8) -> Option<(&[u8], &[u8])>
    ensures parts { IfSome result (λ parts. text.now ≡ split_by byte parts.0.now parts.1.now) }
    ensures first { IfSome result (λ parts. Lacks byte parts.0.now) }
    ensures none { IfNone result (Lacks byte text.now) }
{
    for (index, found) in text.iter().enumerate() {
        if *found == byte {
            return Some((&text[..index], &text[index + 1..]));
        }
    }
    None
}

/// The value of a decimal digit.
fn read_digit(byte: u8) -> Option<u64>
    ensures digit { IfSome result (λ digit. (digit < 10) × (byte ≡ 48 + digit)) }
    ensures none { IfNone result ((byte < 48) ⊎ (57 < byte)) }
{
    if byte.is_ascii_digit() {
        return Some(u64::from(byte - b'0'));
    }
    None
}

/// The number that decimal digits without leading zeros spell, at most 2^64 - 1.
pub fn read_number(text: &[u8]) -> Option<u64>
    ensures number { IfSome result (λ number. text.now ≡ decimal number) }
    ensures none { IfNone result ((number : ℕ) → number < 2 ^ 64 → text.now ≢ decimal number) }
{
    let (first, others) = text.split_first()?;
    let mut number = read_digit(*first)?;
    for byte in others {
        if number == 0 {
            return None;
        }
        number = number.checked_mul(10)?.checked_add(read_digit(*byte)?)?;
    }
    Some(number)
}

/// A number from `least` to `most`.
pub fn read_within(text: &[u8], least: u64, most: u64) -> Option<u64>
    ensures number { IfSome result (λ number. SaysNumber text.now least most number) }
    ensures none { IfNone result (No (SaysNumber text.now least most)) }
{
    let number = read_number(text)?;
    if number < least || most < number {
        return None;
    }
    Some(number)
}

/// One of the four numbers of an address, and what stands after the byte that ends it, which is no digit.
fn read_before(text: &[u8], byte: u8) -> Option<(u8, &[u8])>
    requires apart { (byte < 48) ⊎ (57 < byte) }
    ensures parts { IfSome result (λ parts. (parts.0 < 256)
        × (text.now ≡ split_by byte (decimal parts.0) parts.1.now)) }
    ensures none { IfNone result ((number : ℕ) (rest : List ℕ)
        → number < 256
        → text.now ≢ split_by byte (decimal number) rest) }
{
    let (word, rest) = split_at_byte(text, byte)?;
    let number = read_within(word, 0, 255)?;
    Some((number as u8, rest))
}

/// An endpoint, as `10.0.0.1:7000`.
pub fn read_endpoint(text: &[u8]) -> Option<Endpoint>
    ensures endpoint { IfSome result (λ endpoint. SaysEndpoint text.now endpoint) }
    ensures none { IfNone result (No (SaysEndpoint text.now)) }
{
    let (first, rest) = read_before(text, b'.')?;
    let (second, rest) = read_before(rest, b'.')?;
    let (third, rest) = read_before(rest, b'.')?;
    let (fourth, port) = read_before(rest, b':')?;
    let port = read_within(port, 1, 65535)?;
    Endpoint::new(
        u32::from_be_bytes([first, second, third, fourth]),
        port as u16,
    )
}
