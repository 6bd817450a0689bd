//! The event lines of a recording, read.

ghost use Rattle.std.specs.Prelude.{◌≡◌, ◌≢◌, ◌⊎◌, ℕ, ◌^◌, ◌<◌, ◌≤◌, true, false, List, [], ◌++◌, ◌∷◌, length, Ok, IfSome, IfNone, IsSomeAnd, IfOk, IfErr};
ghost use Rattle.hex.specs.Hex.{IsBytes, decode_of, encode_lower};
ghost use Rattle.std.specs.Fmt.{decimal};
ghost use Rattle.swim_wire.specs.Numbers.{IsEndpoint};
ghost use Rattle.swim_words.specs.Words.{No, endpoint_text};
ghost use Rattle.swim_rules.specs.Deals.{IsDeal};
ghost use Rattle.swim_member.specs.declared.event.Event.{Event as Events};
ghost use Rattle.swim_member.specs.declared.event.TheConstants.{RECEIVED_MAX};
ghost use Rattle.swim_record.specs.Events.{IsEvent, IsRead, IsReadAnd, event_word, word_of, words_after};
ghost use Rattle.swim_record.specs.declared.event.EventFault.TheVariants as faults;
ghost use Rattle.swim_record.specs.Recording.{bytes_text, event_words};

use crate::argument::first_word;
use arrayvec::ArrayVec;
use hex::FromHexError;
use std::alloc::Global;
use swim_member::{Deal, Event, RECEIVED_MAX};
use swim_rules::ROWS_MAX;
use swim_wire::{Cursor, Endpoint};
use swim_words::{Word, named, read_endpoint, read_within, split_at_byte};

/// Why no event was read.
#[derive(Clone, Copy, Debug, PartialEq, Eq)]
pub enum EventFault {
    /// The line is that of no event.
    Unknown,
    /// There was no memory for its bytes.
    NoMemory,
}

/// The first word of an event's line.
#[derive(Clone, Copy, Debug, PartialEq, Eq)]
pub enum EventWord {
    Deal,
    Received,
    ReceiveFailed,
    SendFailed,
    Join,
    Leave,
    Members,
}

impl EventWord {
    /// All of them.
    const ALL: [EventWord; 7] = [
        EventWord::Deal,
        EventWord::Received,
        EventWord::ReceiveFailed,
        EventWord::SendFailed,
        EventWord::Join,
        EventWord::Leave,
        EventWord::Members,
    ];

    /// The first word of an event's line that the word is.
    fn of(word: &[u8]) -> Option<EventWord>
        ensures word { IfSome result (λ k. word.now ≡ event_word k) }
        ensures none { IfNone result (No (λ k. word.now ≡ event_word k)) }
    {
        named(&EventWord::ALL, word)
    }
}

impl Word for EventWord {
    ghost text_of = { event_word };

    fn text(self) -> &'static str {
        match self {
            EventWord::Deal => "deal",
            EventWord::Received => "recv",
            EventWord::ReceiveFailed => "recvfail",
            EventWord::SendFailed => "sendfail",
            EventWord::Join => "join",
            EventWord::Leave => "leave",
            EventWord::Members => "members",
        }
    }
}

/// What stands after the space with which a text begins.
fn after_space(text: &[u8]) -> Option<&[u8]>
    ensures { (rest : List ℕ) → text.now ≡ 32 ∷ rest → IsSomeAnd result (λ r. r.now ≡ rest) }
{
    let (space, rest) = text.split_first()?;
    if *space != b' ' {
        return None;
    }
    Some(rest)
}

/// The endpoint that is the one word of a text, after a space.
fn read_who(text: &[u8]) -> Option<Endpoint>
    ensures { (who : ℕ) → IsEndpoint who → text.now ≡ 32 ∷ endpoint_text who
        → IsSomeAnd result (λ e. e ≡ who) }
{
    let rest = after_space(text)?;
    read_endpoint(rest)
}

/// The count that is the one word of a text, after a space.
fn read_count(text: &[u8]) -> Option<u32>
    ensures { (count : ℕ) → count < 2 ^ 32 → text.now ≡ 32 ∷ decimal count
        → IsSomeAnd result (λ n. n ≡ count) }
{
    let rest = after_space(text)?;
    let number = read_within(rest, 0, u64::from(u32::MAX))?;
    Some(number as u32)
}

/// What a tick deals.
fn read_deal(text: &[u8]) -> Option<Deal>
    ensures { (numbers : List ℕ) → IsDeal numbers → text.now ≡ 32 ∷ encode_lower numbers
        → IsSomeAnd result (λ deal. deal ≡ numbers) }
{
    let word = after_space(text)?;
    let mut numbers = [0; ROWS_MAX];
    match hex::decode_to_slice(word, &mut numbers) {
        Ok(()) => Deal::new(numbers),
        Err(_) => None,
    }
}

/// Whether the word says that there are no bytes.
fn is_dash(word: &[u8]) -> bool
    ensures yes { result ≡ true → word.now ≡ 45 ∷ [] }
    ensures no { result ≡ false → word.now ≢ 45 ∷ [] }
{
    word == b"-".as_slice()
}

/// The bytes that hex digits spell.
fn decode_hex(alloc: Global, word: &[u8]) -> Result<Vec<u8>, EventFault>
    ensures bytes { IfOk result (λ bytes. decode_of word.now ≡ Ok bytes.items) }
    ensures none { IfErr result (λ fault. (fault ≡ faults.NoMemory)
        ⊎ No (λ bytes. decode_of word.now ≡ Ok bytes)) }
{
    match hex::decode(alloc, word) {
        Ok(bytes) => Ok(bytes),
        Err(FromHexError::OutOfMemory) => Err(EventFault::NoMemory),
        Err(_) => Err(EventFault::Unknown),
    }
}

/// The bytes of a datagram, as hex digits; `-` for none.
fn read_bytes(alloc: Global, word: &[u8]) -> Result<ArrayVec<u8, RECEIVED_MAX>, EventFault>
    ensures { (bytes : List ℕ) → IsBytes bytes → length bytes ≤ RECEIVED_MAX
        → word.now ≡ bytes_text bytes → IsReadAnd result (λ r. r.items ≡ bytes) }
{
    let mut bytes = ArrayVec::new();
    if is_dash(word) {
        return Ok(bytes);
    }
    let decoded = match decode_hex(alloc, word) {
        Ok(decoded) => decoded,
        Err(fault) => return Err(fault),
    };
    match bytes.try_extend_from_slice(&decoded) {
        Ok(()) => Ok(bytes),
        Err(_) => Err(EventFault::Unknown),
    }
}

/// From whom a datagram came, and the word of its bytes, after a space.
fn read_sender(text: &[u8]) -> Option<(Endpoint, &[u8])>
    ensures { (from : ℕ) (word : List ℕ) → IsEndpoint from
        → text.now ≡ 32 ∷ endpoint_text from ++ 32 ∷ word
        → IsSomeAnd result (λ r. (r.0 ≡ from) × (r.1.now ≡ word)) }
{
    let rest = after_space(text)?;
    let (first, word) = split_at_byte(rest, b' ')?;
    let from = read_endpoint(first)?;
    Some((from, word))
}

/// A datagram, after the first word of its line.
fn read_received(alloc: Global, text: &[u8]) -> Result<Event, EventFault>
    ensures { (e : Events) → IsEvent e → word_of e ≡ EventWord.Received
        → text.now ≡ words_after e → IsRead e result }
{
    let Some((from, word)) = read_sender(text) else {
        return Err(EventFault::Unknown);
    };
    match read_bytes(alloc, word) {
        Ok(bytes) => Ok(Event::Datagram { from, bytes }),
        Err(fault) => Err(fault),
    }
}

/// The next members, after the first word of the line.
fn read_members(text: &[u8]) -> Option<Event>
    ensures { (e : Events) → IsEvent e → word_of e ≡ EventWord.Members
        → text.now ≡ words_after e → IsSomeAnd result (λ r. r ≡ e) }
{
    if text.is_empty() {
        return Some(Event::Members {
            after: Cursor::zero(),
        });
    }
    let who = read_who(text)?;
    let after = Cursor::at(who);
    Some(Event::Members { after })
}

/// An event without arguments, after its word.
fn bare(event: Event, text: &[u8]) -> Option<Event>
    ensures { text.now ≡ [] → IsSomeAnd result (λ r. r ≡ event) }
{
    if !text.is_empty() {
        return None;
    }
    Some(event)
}

/// The event of a line with this first word, after that word, for those that take no memory.
fn read_plain(word: EventWord, text: &[u8]) -> Option<Event>
    ensures { (e : Events) → IsEvent e → word_of e ≡ word → (word ≡ EventWord.Received → ⊥)
        → text.now ≡ words_after e → IsSomeAnd result (λ r. r ≡ e) }
{
    match word {
        EventWord::Deal => {
            let deal = read_deal(text)?;
            Some(Event::Tick { deal })
        }
        EventWord::Received => None,
        EventWord::ReceiveFailed => bare(Event::ReceiveFailed, text),
        EventWord::SendFailed => {
            let count = read_count(text)?;
            Some(Event::SendFailed { count })
        }
        EventWord::Join => {
            let peer = read_who(text)?;
            Some(Event::Join { peer })
        }
        EventWord::Leave => bare(Event::Leave, text),
        EventWord::Members => read_members(text),
    }
}

/// The event of a line with this first word, after that word.
fn read_by(alloc: Global, word: EventWord, text: &[u8]) -> Result<Event, EventFault>
    ensures { (e : Events) → IsEvent e → word_of e ≡ word → text.now ≡ words_after e
        → IsRead e result }
{
    if word == EventWord::Received {
        return read_received(alloc, text);
    }
    match read_plain(word, text) {
        Some(event) => Ok(event),
        None => Err(EventFault::Unknown),
    }
}

/// The event of a line, without its end. What was written as an event's line is read as that event, unless there was no
/// memory for its bytes.
pub fn read_event(alloc: Global, text: &[u8]) -> Result<Event, EventFault>
    ensures { (e : Events) → IsEvent e → text.now ≡ event_words e → IsRead e result }
{
    let (word, rest) = first_word(text);
    match EventWord::of(word) {
        Some(word) => read_by(alloc, word, rest),
        None => Err(EventFault::Unknown),
    }
}
