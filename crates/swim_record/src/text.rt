//! The text of a line: its head, and after it its other words.

ghost use Rattle.std.specs.Prelude.{◌≡◌, ◌≤◌, ◌++◌};
ghost use Rattle.std.specs.Fmt.{WritesOnOk};
ghost use Rattle.swim_record.specs.Lines.{arguments_of, head_in, phase_head, row_head, say_head};
ghost use Rattle.swim_record.specs.Text.{arguments_text, head_word};

use crate::argument::{ARGUMENTS_MAX, Argument};
use crate::head::Head;
use crate::line::{Line, Start, Times};
use arrayvec::ArrayVec;
use std::fmt;
use swim_member::Phase;
use swim_wire::UpdateKind;
use swim_words::Word;

/// The head of a row.
fn row_head(kind: UpdateKind) -> Head
    ensures { result ≡ row_head kind }
{
    match kind {
        UpdateKind::Alive => Head::RowAlive,
        UpdateKind::Suspect => Head::RowSuspect,
        UpdateKind::Confirm => Head::RowConfirm,
    }
}

/// The head of an update that waits.
fn say_head(kind: UpdateKind) -> Head
    ensures { result ≡ say_head kind }
{
    match kind {
        UpdateKind::Alive => Head::SayAlive,
        UpdateKind::Suspect => Head::SaySuspect,
        UpdateKind::Confirm => Head::SayConfirm,
    }
}

/// The head of the line with which an era begins.
fn phase_head(phase: Phase) -> Head
    ensures { result ≡ phase_head phase }
{
    match phase {
        Phase::Running => Head::Running,
        Phase::Left => Head::Left,
        Phase::Expelled => Head::Expelled,
    }
}

/// Writes a head, and after it arguments, each after a space.
fn write_words<W: fmt::Write>(
    f: &mut fmt::Formatter<W>,
    head: Head,
    arguments: &[Argument],
) -> fmt::Result
    ensures { WritesOnOk W.write_str_gives f.old result
        (head_word head ++ arguments_text arguments.now) f.new }
{
    f.write_str(head.text())?;
    for argument in arguments {
        write!(f, " {argument}")?;
    }
    Ok(())
}

/// The arguments as a list.
fn list_of<const N: usize>(arguments: [Argument; N]) -> ArrayVec<Argument, ARGUMENTS_MAX>
    requires { N ≤ ARGUMENTS_MAX }
    ensures { result.items ≡ arguments.entry }
{
    let mut list = ArrayVec::new();
    let _ = list.try_extend_from_slice(&arguments);
    list
}

impl Start {
    /// The words after the head of the line.
    fn arguments(self) -> ArrayVec<Argument, ARGUMENTS_MAX>
        ensures { result.items ≡ arguments_of (Line.Begin self) }
    {
        let number = Argument::Number(self.number);
        let time = Argument::Number(self.time);
        let seq = Argument::Number(self.seq);
        let place = Argument::Number(self.place);
        let granted = Argument::Number(self.granted);
        match self.past {
            None => list_of([number, time, seq, place, granted]),
            Some(past) => list_of([number, time, seq, place, granted, Argument::Number(past)]),
        }
    }
}

impl Times {
    /// The words after the head of the line.
    fn arguments(self) -> ArrayVec<Argument, ARGUMENTS_MAX>
        ensures { result.items ≡ arguments_of (Line.Times self) }
    {
        list_of([
            Argument::Number(self.period),
            Argument::Number(self.direct),
            Argument::Number(self.suspect),
            Argument::Number(self.forget),
            Argument::Number(self.helpers),
            Argument::Number(self.block),
            Argument::Number(self.limit),
        ])
    }
}

impl Line {
    /// The first word of the line.
    fn head(self) -> Head
        ensures { result ≡ head_in self }
    {
        match self {
            Line::Member(..) => Head::Member,
            Line::Times(_) => Head::Times,
            Line::Row(kind, ..) => row_head(kind),
            Line::Say(kind, ..) => say_head(kind),
            Line::Probe(..) => Head::Probe,
            Line::Answered(..) => Head::Answered,
            Line::Relay(..) => Head::Relay,
            Line::Joining(..) | Line::JoiningAfter(..) => Head::Joining,
            Line::Listed(_) => Head::Listed,
            Line::Begin(start) => phase_head(start.phase),
            Line::Caller(_) => Head::Caller,
            Line::Granted(_) => Head::Granted,
            Line::Lost(_) => Head::Lost,
        }
    }

    /// Its other words.
    fn arguments(self) -> ArrayVec<Argument, ARGUMENTS_MAX>
        ensures { result.items ≡ arguments_of self }
    {
        match self {
            Line::Member(group, me, lambda, rules) => {
                list_of([
                    Argument::Number(group),
                    Argument::Who(me),
                    Argument::Number(lambda),
                    Argument::Number(rules),
                ])
            }
            Line::Times(times) => times.arguments(),
            Line::Row(_, who, number, last) | Line::Say(_, who, number, last) => {
                list_of([
                    Argument::Who(who),
                    Argument::Number(number),
                    Argument::Number(last),
                ])
            }
            Line::Probe(who, number) | Line::Answered(who, number) | Line::Joining(who, number) => {
                list_of([Argument::Who(who), Argument::Number(number)])
            }
            Line::Relay(target, seq, asker, asked, made) => {
                list_of([
                    Argument::Who(target),
                    Argument::Number(seq),
                    Argument::Who(asker),
                    Argument::Number(asked),
                    Argument::Number(made),
                ])
            }
            Line::JoiningAfter(peer, seq, after) => list_of([
                Argument::Who(peer),
                Argument::Number(seq),
                Argument::Who(after),
            ]),
            Line::Listed(who) => list_of([Argument::Who(who)]),
            Line::Begin(start) => start.arguments(),
            Line::Caller(number) | Line::Granted(number) | Line::Lost(number) => {
                list_of([Argument::Number(number)])
            }
        }
    }
}

impl fmt::Display for Line {
    ghost use Rattle.std.specs.Prelude.{Some};
    ghost use Rattle.swim_record.specs.Lines.{line_text};

    ghost output = { λ l. Some (line_text l) };

    fn fmt<W: fmt::Write>(&self, f: &mut fmt::Formatter<W>) -> fmt::Result {
        write_words(f, self.head(), &self.arguments())
    }
}
