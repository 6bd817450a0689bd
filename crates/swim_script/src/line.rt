//! Which line says which command.

ghost use Rattle.std.specs.Prelude.{◌≡◌, ◌⊎◌, IfSome, IfNone, IfOk, IfErr};
ghost use Rattle.swim_words.specs.Words.{No, SaysNumber};
ghost use Rattle.swim_script.specs.Bytes.{Refuses};
ghost use Rattle.swim_script.specs.Commands.{keyword_text, setting_text, IsSetting, line_of, IsPlain, IsFailure, Says, SaysFailure, SaysChoice};
ghost use Rattle.swim_script.specs.Faults.{IsWordFault};
ghost use Rattle.swim_script.specs.declared.fault.FaultKind.TheVariants as kinds;

use crate::bytes::{read_bytes, read_hex, read_hex_byte};
use crate::command::{Command, Failure, Setting};
use crate::fault::FaultKind;
use crate::first::read_first;
use crate::keyword::Keyword;
use crate::patch::Patch;
use std::alloc::Global;
use swim_disk::Choice;
use swim_member::{Deal, Event};
use swim_wire::Cursor;
use swim_words::{Word, named, read_endpoint, read_number, read_within, split_at_byte};

/// The greatest value that a line sets, and the most calls until one that fails.
const COUNT_MAX: u32 = 1_000_000;

/// A number of 32 bits within these bounds.
fn read_count(text: &[u8], least: u32, most: u32) -> Option<u32>
    ensures number { IfSome result (λ number. SaysNumber text.now least most number) }
    ensures none { IfNone result (No (SaysNumber text.now least most)) }
{
    match read_within(text, u64::from(least), u64::from(most)) {
        Some(number) => Some(number as u32),
        None => None,
    }
}

impl Setting {
    /// All of them.
    const ALL: [Setting; 9] = [
        Setting::Lambda,
        Setting::Period,
        Setting::Direct,
        Setting::Suspect,
        Setting::Forget,
        Setting::Helpers,
        Setting::Limit,
        Setting::Block,
        Setting::Rules,
    ];

    /// The setting that the word names.
    fn of(word: &[u8]) -> Option<Setting>
        ensures setting { IfSome result (λ setting. word.now ≡ setting_text setting) }
        ensures none { IfNone result (No (IsSetting word.now)) }
    {
        named(&Setting::ALL, word)
    }
}

impl Word for Setting {
    ghost text_of = { setting_text };

    fn text(self) -> &'static str {
        match self {
            Setting::Lambda => "lambda",
            Setting::Period => "period",
            Setting::Direct => "direct",
            Setting::Suspect => "suspect",
            Setting::Forget => "forget",
            Setting::Helpers => "helpers",
            Setting::Limit => "limit",
            Setting::Block => "block",
            Setting::Rules => "rules",
        }
    }
}

impl Failure {
    /// The failure of a call of the sort that the word names.
    fn of(word: &[u8], k: u32) -> Option<Failure>
        ensures failure { IfSome result (λ failure. IsFailure word.now k failure) }
        ensures none { IfNone result (No (IsFailure word.now k)) }
    {
        match word {
            b"read" => Some(Failure::Read(k)),
            b"write" => Some(Failure::Write(k)),
            b"sync" => Some(Failure::Sync(k)),
            b"send" => Some(Failure::Send(k)),
            _ => None,
        }
    }
}

/// The command of a line that is a keyword alone.
fn bare(keyword: Keyword) -> Option<Command>
    ensures command { IfSome result (λ command. Says (keyword_text keyword) command) }
    ensures none { IfNone result (No (Says (keyword_text keyword))) }
{
    match keyword {
        Keyword::Open => Some(Command::Open),
        Keyword::Kill => Some(Command::Kill),
        Keyword::Slots => Some(Command::Slots),
        Keyword::Rebase => Some(Command::Rebase),
        Keyword::Keep => Some(Command::KeepPeers),
        Keyword::Peers => Some(Command::Peers),
        Keyword::ReceiveFailed => Some(Command::Happen(Event::ReceiveFailed)),
        Keyword::Leave => Some(Command::Happen(Event::Leave)),
        Keyword::Members => Some(Command::Happen(Event::Members {
            after: Cursor::zero(),
        })),
        _ => None,
    }
}

/// The setting that the arguments set.
fn read_set(arguments: &[u8]) -> Option<Command>
    ensures command { IfSome result (λ command. Says (line_of Keyword.Set arguments.now) command) }
    ensures none { IfNone result (No (Says (line_of Keyword.Set arguments.now))) }
{
    let (word, number) = split_at_byte(arguments, b' ')?;
    let setting = Setting::of(word)?;
    let value = read_count(number, 0, COUNT_MAX)?;
    Some(Command::Set(setting, value))
}

/// The tick of the arguments' number: its deal begins with that, modulo 256, and goes up cyclically.
fn read_tick(arguments: &[u8]) -> Option<Command>
    ensures command { IfSome result (λ command. Says (line_of Keyword.Tick arguments.now) command) }
    ensures none { IfNone result (No (Says (line_of Keyword.Tick arguments.now))) }
{
    let number = read_count(arguments, 0, u32::MAX)?;
    let deal = Deal::from_first((number % 256) as u8);
    Some(Command::Happen(Event::Tick { deal }))
}

/// The call that the arguments make fail.
fn read_failure(arguments: &[u8]) -> Option<Failure>
    ensures failure { IfSome result
        (λ failure. SaysFailure (line_of Keyword.Fail arguments.now) failure) }
    ensures none { IfNone result (No (SaysFailure (line_of Keyword.Fail arguments.now))) }
{
    let (word, number) = split_at_byte(arguments, b' ')?;
    let k = read_count(number, 1, COUNT_MAX)?;
    Failure::of(word, k)
}

/// The write that the arguments tear.
fn read_torn(arguments: &[u8]) -> Option<Failure>
    ensures failure { IfSome result
        (λ failure. SaysFailure (line_of Keyword.Tear arguments.now) failure) }
    ensures none { IfNone result (No (SaysFailure (line_of Keyword.Tear arguments.now))) }
{
    let (word, number) = split_at_byte(arguments, b' ')?;
    if word != b"write".as_slice() {
        return None;
    }
    let k = read_count(number, 1, COUNT_MAX)?;
    Some(Failure::TornWrite(k))
}

/// The command of a keyword with arguments, for those that take no memory.
fn read_plain(keyword: Keyword, arguments: &[u8]) -> Option<Command>
    ensures command { IfSome result (λ command. Says (line_of keyword arguments.now) command) }
    ensures none { IfNone result (IsPlain keyword → No (Says (line_of keyword arguments.now))) }
{
    match keyword {
        Keyword::Group => Some(Command::Group(read_number(arguments)?)),
        Keyword::Me => Some(Command::Me(read_endpoint(arguments)?)),
        Keyword::Set => read_set(arguments),
        Keyword::Start => Some(Command::Start(read_first(arguments)?)),
        Keyword::Init => Some(Command::Init(read_number(arguments)?)),
        Keyword::Fail => Some(Command::Plan(read_failure(arguments)?)),
        Keyword::Tear => Some(Command::Plan(read_torn(arguments)?)),
        Keyword::Halt => Some(Command::Plan(Failure::Halt(read_count(arguments, 1, COUNT_MAX)?))),
        Keyword::Tick => read_tick(arguments),
        Keyword::SendFailed => Some(Command::Happen(Event::SendFailed {
            count: read_count(arguments, 0, u32::MAX)?,
        })),
        Keyword::Join => Some(Command::Happen(Event::Join {
            peer: read_endpoint(arguments)?,
        })),
        Keyword::Members => Some(Command::Happen(Event::Members {
            after: Cursor::at(read_endpoint(arguments)?),
        })),
        _ => None,
    }
}

/// The received datagram that the arguments give.
fn read_received(alloc: Global, arguments: &[u8]) -> Result<Command, FaultKind>
    ensures command { IfOk result
        (λ command. Says (line_of Keyword.Receive arguments.now) command) }
    ensures none { IfErr result
        (λ kind. Refuses kind (Says (line_of Keyword.Receive arguments.now))) }
{
    let (from, word) = split_at_byte(arguments, b' ').ok_or(FaultKind::Argument)?;
    let from = read_endpoint(from).ok_or(FaultKind::Argument)?;
    let bytes = read_hex(alloc, word)?;
    Ok(Command::Happen(Event::Datagram { from, bytes }))
}

/// What a crash leaves of what was not synced.
fn read_choice(alloc: Global, arguments: &[u8]) -> Result<Choice, FaultKind>
    ensures choice { IfOk result (λ choice. SaysChoice arguments.now choice) }
    ensures none { IfErr result (λ kind. Refuses kind (SaysChoice arguments.now)) }
{
    if arguments == b"keep".as_slice() {
        return Ok(Choice::Keep);
    }
    if arguments == b"drop".as_slice() {
        return Ok(Choice::Drop);
    }
    let (fill, word) = split_at_byte(arguments, b' ').ok_or(FaultKind::Argument)?;
    if fill != b"fill".as_slice() {
        return Err(FaultKind::Argument);
    }
    Ok(Choice::Fill(read_hex_byte(alloc, word)?))
}

/// The part of the disk that the arguments write over.
fn read_patch(alloc: Global, arguments: &[u8]) -> Result<Command, FaultKind>
    ensures command { IfOk result
        (λ command. Says (line_of Keyword.Overwrite arguments.now) command) }
    ensures none { IfErr result
        (λ kind. Refuses kind (Says (line_of Keyword.Overwrite arguments.now))) }
{
    let (at, word) = split_at_byte(arguments, b' ').ok_or(FaultKind::Argument)?;
    let at = read_number(at).ok_or(FaultKind::Argument)?;
    let bytes = read_bytes(alloc, word)?;
    let patch = Patch::new(at, bytes).ok_or(FaultKind::Argument)?;
    Ok(Command::Overwrite(patch))
}

/// The command that a line says, or the first of `Command`, `Argument` and `NoMemory`.
pub(crate) fn read_command(alloc: Global, text: &[u8]) -> Result<Command, FaultKind>
    ensures command { IfOk result (λ command. Says text.now command) }
    ensures fault { IfErr result (λ kind. (kind ≡ kinds.NoMemory) ⊎ IsWordFault text.now kind) }
{
    let Some((word, arguments)) = split_at_byte(text, b' ') else {
        let keyword = Keyword::of(text).ok_or(FaultKind::Command)?;
        return bare(keyword).ok_or(FaultKind::Argument);
    };
    let keyword = Keyword::of(word).ok_or(FaultKind::Command)?;
    match keyword {
        Keyword::Receive => read_received(alloc, arguments),
        Keyword::Crash => Ok(Command::Crash(read_choice(alloc, arguments)?)),
        Keyword::Overwrite => read_patch(alloc, arguments),
        _ => read_plain(keyword, arguments).ok_or(FaultKind::Argument),
    }
}
