//! The lines themselves.

ghost use Rattle.std.specs.Prelude.{◌≡◌, [], ◌∷◌, ◌++◌, IfSome, IfNone};
ghost use Rattle.swim_words.specs.Words.{No};
ghost use Rattle.swim_record.specs.Lines.{Says, arguments_of, head_in, number_or_none};
ghost use Rattle.swim_record.specs.declared.argument.Argument.TheVariants.{Number, Who};
ghost use Rattle.swim_record.specs.declared.line.Line.{Line as Lines};

use crate::argument::{Argument, first_word, read_arguments};
use crate::head::Head;
use swim_member::Phase;
use swim_wire::{Endpoint, UpdateKind};

/// With what an era begins, beside the lines before it.
#[derive(Clone, Copy)]
pub struct Start {
    /// Whether the member takes part.
    pub phase: Phase,
    /// The own number.
    pub number: u64,
    /// The ticks that counted.
    pub time: u64,
    /// The next sequence.
    pub seq: u64,
    /// How many of the listed members were probed or passed over.
    pub place: u64,
    /// The granted ceiling.
    pub granted: u64,
    /// The greatest own number in datagrams of earlier eras.
    pub past: Option<u64>,
}

/// The settings that a line of numbers has, and the limit of an era.
#[derive(Clone, Copy)]
pub struct Times {
    /// Ticks from one probe to the next.
    pub period: u64,
    /// Ticks until others are asked about a target.
    pub direct: u64,
    /// Ticks until a Suspect becomes Confirm.
    pub suspect: u64,
    /// Ticks until a Confirm is forgotten.
    pub forget: u64,
    /// Members that are asked about a target.
    pub helpers: u64,
    /// Numbers that one save reserves.
    pub block: u64,
    /// Entries in an era.
    pub limit: u64,
}

/// A line of a recording.
#[derive(Clone, Copy)]
pub enum Line {
    /// Who the member is: its group, its endpoint, its lambda, and by which rules it lives.
    Member(u64, Endpoint, u64, u64),
    /// The other settings.
    Times(Times),
    /// A row of another member: what was heard of it, and when.
    Row(UpdateKind, Endpoint, u64, u64),
    /// An update that waits, and how often it was sent.
    Say(UpdateKind, Endpoint, u64, u64),
    /// A probe that was not answered: its target and its sequence.
    Probe(Endpoint, u64),
    /// A probe that was answered.
    Answered(Endpoint, u64),
    /// A ping for another member: its target and sequence, who asked and with which sequence, and when it was made.
    Relay(Endpoint, u64, Endpoint, u64, u64),
    /// A join for the first page: whom it asked, and its sequence.
    Joining(Endpoint, u64),
    /// A join for the page after a member.
    JoiningAfter(Endpoint, u64, Endpoint),
    /// The next member of the turn list.
    Listed(Endpoint),
    /// The era begins.
    Begin(Start),
    /// Who makes the next call.
    Caller(u64),
    /// The ceiling that stands for the next call.
    Granted(u64),
    /// The datagram of the next call, counted from 1, that is lost.
    Lost(u64),
}

/// The line of a row, or of an update that waits.
fn told(head: Head, who: Endpoint, number: u64, last: u64) -> Option<Line>
    ensures line { IfSome result (λ l. (head_in l ≡ head)
        × (arguments_of l ≡ Who who ∷ Number number ∷ Number last ∷ [])) }
    ensures none { IfNone result (No (λ l. (head_in l ≡ head)
        × (arguments_of l ≡ Who who ∷ Number number ∷ Number last ∷ []))) }
{
    match head {
        Head::RowAlive => Some(Line::Row(UpdateKind::Alive, who, number, last)),
        Head::RowSuspect => Some(Line::Row(UpdateKind::Suspect, who, number, last)),
        Head::RowConfirm => Some(Line::Row(UpdateKind::Confirm, who, number, last)),
        Head::SayAlive => Some(Line::Say(UpdateKind::Alive, who, number, last)),
        Head::SaySuspect => Some(Line::Say(UpdateKind::Suspect, who, number, last)),
        Head::SayConfirm => Some(Line::Say(UpdateKind::Confirm, who, number, last)),
        _ => None,
    }
}

/// The line of one endpoint and one number.
fn paired(head: Head, who: Endpoint, number: u64) -> Option<Line>
    ensures line { IfSome result (λ l. (head_in l ≡ head)
        × (arguments_of l ≡ Who who ∷ Number number ∷ [])) }
    ensures none { IfNone result (No (λ l. (head_in l ≡ head)
        × (arguments_of l ≡ Who who ∷ Number number ∷ []))) }
{
    match head {
        Head::Probe => Some(Line::Probe(who, number)),
        Head::Answered => Some(Line::Answered(who, number)),
        Head::Joining => Some(Line::Joining(who, number)),
        _ => None,
    }
}

/// The line of one endpoint, a number and the member after which a page begins.
fn joined(head: Head, peer: Endpoint, seq: u64, after: Endpoint) -> Option<Line>
    ensures line { IfSome result (λ l. (head_in l ≡ head)
        × (arguments_of l ≡ Who peer ∷ Number seq ∷ Who after ∷ [])) }
    ensures none { IfNone result (No (λ l. (head_in l ≡ head)
        × (arguments_of l ≡ Who peer ∷ Number seq ∷ Who after ∷ []))) }
{
    match head {
        Head::Joining => Some(Line::JoiningAfter(peer, seq, after)),
        _ => None,
    }
}

/// The line of one number.
fn counted(head: Head, number: u64) -> Option<Line>
    ensures line { IfSome result (λ l. (head_in l ≡ head) × (arguments_of l ≡ Number number ∷ [])) }
    ensures none { IfNone result (No (λ l. (head_in l ≡ head)
        × (arguments_of l ≡ Number number ∷ []))) }
{
    match head {
        Head::Caller => Some(Line::Caller(number)),
        Head::Granted => Some(Line::Granted(number)),
        Head::Lost => Some(Line::Lost(number)),
        _ => None,
    }
}

/// The line of who the member is.
fn named(head: Head, group: u64, me: Endpoint, lambda: u64, rules: u64) -> Option<Line>
    ensures line { IfSome result (λ l. (head_in l ≡ head)
        × (arguments_of l ≡ Number group ∷ Who me ∷ Number lambda ∷ Number rules ∷ [])) }
    ensures none { IfNone result (No (λ l. (head_in l ≡ head)
        × (arguments_of l ≡ Number group ∷ Who me ∷ Number lambda ∷ Number rules ∷ []))) }
{
    match head {
        Head::Member => Some(Line::Member(group, me, lambda, rules)),
        _ => None,
    }
}

/// The line of the other settings.
fn timed(head: Head, times: Times) -> Option<Line>
    ensures line { IfSome result (λ l. (head_in l ≡ head)
        × (arguments_of l ≡ arguments_of (Line.Times times))) }
    ensures none { IfNone result (No (λ l. (head_in l ≡ head)
        × (arguments_of l ≡ arguments_of (Line.Times times)))) }
{
    match head {
        Head::Times => Some(Line::Times(times)),
        _ => None,
    }
}

/// The line of one endpoint.
fn listed(head: Head, who: Endpoint) -> Option<Line>
    ensures line { IfSome result (λ l. (head_in l ≡ head) × (arguments_of l ≡ Who who ∷ [])) }
    ensures none { IfNone result (No (λ l. (head_in l ≡ head)
        × (arguments_of l ≡ Who who ∷ []))) }
{
    match head {
        Head::Listed => Some(Line::Listed(who)),
        _ => None,
    }
}

/// The line of a ping for another member.
fn relayed(
    head: Head,
    target: Endpoint,
    seq: u64,
    asker: Endpoint,
    asked: u64,
    made: u64,
) -> Option<Line>
    ensures line { IfSome result (λ l. (head_in l ≡ head)
        × (arguments_of l
        ≡ Who target ∷ Number seq ∷ Who asker ∷ Number asked ∷ Number made ∷ [])) }
    ensures none { IfNone result (No (λ l. (head_in l ≡ head)
        × (arguments_of l
        ≡ Who target ∷ Number seq ∷ Who asker ∷ Number asked ∷ Number made ∷ []))) }
{
    match head {
        Head::Relay => Some(Line::Relay(target, seq, asker, asked, made)),
        _ => None,
    }
}

/// The line with which an era begins. The phase is that of the head.
fn begun(head: Head, start: Start) -> Option<Line>
    ensures line { IfSome result (λ l. (head_in l ≡ head)
        × (arguments_of l ≡ arguments_of (Line.Begin start))) }
    ensures none { IfNone result (No (λ l. (head_in l ≡ head)
        × (arguments_of l ≡ arguments_of (Line.Begin start)))) }
{
    let phase = match head {
        Head::Running => Phase::Running,
        Head::Left => Phase::Left,
        Head::Expelled => Phase::Expelled,
        _ => return None,
    };
    Some(Line::Begin(Start { phase, ..start }))
}
/// The line that a head and one argument say.
fn of_one(head: Head, argument: Argument) -> Option<Line>
    ensures line { IfSome result (λ l. (head_in l ≡ head) × (arguments_of l ≡ argument ∷ [])) }
    ensures none { IfNone result (No (λ l. (head_in l ≡ head)
        × (arguments_of l ≡ argument ∷ []))) }
{
    match argument {
        Argument::Number(number) => counted(head, number),
        Argument::Who(who) => listed(head, who),
    }
}

/// The line that a head and two arguments say.
fn of_two(head: Head, first: Argument, second: Argument) -> Option<Line>
    ensures line { IfSome result (λ l. (head_in l ≡ head)
        × (arguments_of l ≡ first ∷ second ∷ [])) }
    ensures none { IfNone result (No (λ l. (head_in l ≡ head)
        × (arguments_of l ≡ first ∷ second ∷ []))) }
{
    paired(head, first.who()?, second.number()?)
}

/// The line that a head, an endpoint, a number and an argument say.
fn of_last(head: Head, who: Endpoint, number: u64, last: Argument) -> Option<Line>
    ensures line { IfSome result (λ l. (head_in l ≡ head)
        × (arguments_of l ≡ Who who ∷ Number number ∷ last ∷ [])) }
    ensures none { IfNone result (No (λ l. (head_in l ≡ head)
        × (arguments_of l ≡ Who who ∷ Number number ∷ last ∷ []))) }
{
    match last {
        Argument::Number(last) => told(head, who, number, last),
        Argument::Who(after) => joined(head, who, number, after),
    }
}

/// The line that a head and three arguments say.
fn of_three(head: Head, first: Argument, second: Argument, third: Argument) -> Option<Line>
    ensures line { IfSome result (λ l. (head_in l ≡ head)
        × (arguments_of l ≡ first ∷ second ∷ third ∷ [])) }
    ensures none { IfNone result (No (λ l. (head_in l ≡ head)
        × (arguments_of l ≡ first ∷ second ∷ third ∷ []))) }
{
    of_last(head, first.who()?, second.number()?, third)
}

/// The line that a head, an endpoint and four arguments say.
fn of_relay(head: Head, target: Endpoint, rest: [Argument; 4]) -> Option<Line>
    ensures line { IfSome result (λ l. (head_in l ≡ head)
        × (arguments_of l ≡ Who target ∷ rest)) }
    ensures none { IfNone result (No (λ l. (head_in l ≡ head)
        × (arguments_of l ≡ Who target ∷ rest))) }
{
    let [seq, asker, asked, made] = rest;
    relayed(
        head,
        target,
        seq.number()?,
        asker.who()?,
        asked.number()?,
        made.number()?,
    )
}

/// The line that a head, a number, four arguments and perhaps another number say.
fn of_start(head: Head, number: u64, rest: [Argument; 4], past: Option<u64>) -> Option<Line>
    ensures line { IfSome result (λ l. (head_in l ≡ head)
        × (arguments_of l ≡ Number number ∷ rest ++ number_or_none past)) }
    ensures none { IfNone result (No (λ l. (head_in l ≡ head)
        × (arguments_of l ≡ Number number ∷ rest ++ number_or_none past))) }
{
    let [time, seq, place, granted] = rest;
    let start = Start {
        phase: Phase::Running,
        number,
        time: time.number()?,
        seq: seq.number()?,
        place: place.number()?,
        granted: granted.number()?,
        past,
    };
    begun(head, start)
}

/// The line that a head and five arguments say.
fn of_five(head: Head, first: Argument, rest: [Argument; 4]) -> Option<Line>
    ensures line { IfSome result (λ l. (head_in l ≡ head) × (arguments_of l ≡ first ∷ rest)) }
    ensures none { IfNone result (No (λ l. (head_in l ≡ head)
        × (arguments_of l ≡ first ∷ rest))) }
{
    match first {
        Argument::Who(target) => of_relay(head, target, rest),
        Argument::Number(number) => of_start(head, number, rest, None),
    }
}

/// The line that a head and six arguments say.
fn of_six(head: Head, first: Argument, rest: [Argument; 4], last: Argument) -> Option<Line>
    ensures line { IfSome result (λ l. (head_in l ≡ head)
        × (arguments_of l ≡ first ∷ rest ++ last ∷ [])) }
    ensures none { IfNone result (No (λ l. (head_in l ≡ head)
        × (arguments_of l ≡ first ∷ rest ++ last ∷ []))) }
{
    of_start(head, first.number()?, rest, Some(last.number()?))
}

/// The line that a head and four arguments say.
fn of_four(head: Head, first: Argument, rest: [Argument; 3]) -> Option<Line>
    ensures line { IfSome result (λ l. (head_in l ≡ head) × (arguments_of l ≡ first ∷ rest)) }
    ensures none { IfNone result (No (λ l. (head_in l ≡ head)
        × (arguments_of l ≡ first ∷ rest))) }
{
    let [me, lambda, rules] = rest;
    named(
        head,
        first.number()?,
        me.who()?,
        lambda.number()?,
        rules.number()?,
    )
}

/// The line that a head and seven arguments say.
fn of_seven(head: Head, first: Argument, rest: [Argument; 6]) -> Option<Line>
    ensures line { IfSome result (λ l. (head_in l ≡ head) × (arguments_of l ≡ first ∷ rest)) }
    ensures none { IfNone result (No (λ l. (head_in l ≡ head)
        × (arguments_of l ≡ first ∷ rest))) }
{
    let [direct, suspect, forget, helpers, block, limit] = rest;
    let times = Times {
        period: first.number()?,
        direct: direct.number()?,
        suspect: suspect.number()?,
        forget: forget.number()?,
        helpers: helpers.number()?,
        block: block.number()?,
        limit: limit.number()?,
    };
    timed(head, times)
}

/// The line that these words say.
fn of(head: Head, arguments: &[Argument]) -> Option<Line>
    ensures line { IfSome result (λ l. (head_in l ≡ head) × (arguments_of l ≡ arguments.now)) }
    ensures none { IfNone result (No (λ l. (head_in l ≡ head)
        × (arguments_of l ≡ arguments.now))) }
{
    match arguments {
        [a] => of_one(head, *a),
        [a, b] => of_two(head, *a, *b),
        [a, b, c] => of_three(head, *a, *b, *c),
        [a, b, c, d] => of_four(head, *a, [*b, *c, *d]),
        [a, b, c, d, e] => of_five(head, *a, [*b, *c, *d, *e]),
        [a, b, c, d, e, f] => of_six(head, *a, [*b, *c, *d, *e], *f),
        [a, b, c, d, e, f, g] => of_seven(head, *a, [*b, *c, *d, *e, *f, *g]),
        _ => None,
    }
}

/// The line that a text is.
pub fn read_line(text: &[u8]) -> Option<Line>
    ensures line { IfSome result (λ l. Says text.now l) }
    ensures none { IfNone result (No (Says text.now)) }
    // what was written as a line is read as that line
    ensures back { (l : Lines) → Says text.now l → result ≡ Some l }
{
    let (word, rest) = first_word(text);
    let head = Head::of(word)?;
    let arguments = read_arguments(rest)?;
    of(head, &arguments)
}
