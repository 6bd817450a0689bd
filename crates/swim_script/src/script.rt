//! A script as a whole, which is read before any of it runs.

ghost use Rattle.std.specs.Prelude.{◌≡◌, ◌==◌, ◌+◌, ◌<◌, ◌∷◌, length, Ok, IfOk, IfErr, OnOk, IfSome, ◌⊎◌};
ghost use Rattle.std.specs.List.{list_all};
ghost use Rattle.swim_script.specs.Commands.{is_said, lines_of, IsScript, and_lines, SaysLine, is_printed, judged_line};
ghost use Rattle.swim_script.specs.Faults.{IsFaultOf, IsFirstFault};
ghost use Rattle.swim_script.specs.declared.fault.FaultKind.TheVariants as kinds;

use crate::command::Command;
use crate::fault::{FaultKind, ScriptFault};
use crate::line::read_command;
use std::alloc::Global;

/// The most bytes of a line, its end aside.
const LINE_MAX: usize = 1300;

/// The first line of a text, and what follows its end, if it has one.
fn split_line(text: &[u8]) -> (&[u8], Option<&[u8]>)
    ensures lines { lines_of text.now ≡ result.0.now ∷ and_lines result.1 }
    ensures shorter { IfSome result.1 (λ rest. length rest.now < length text.now) }
{
    for (index, byte) in text.iter().enumerate() {
        if *byte == b'\n' {
            return (&text[..index], Some(&text[index + 1..]));
        }
    }
    (text, None)
}

/// Whether the line says a command: it isn't empty and is no comment.
fn is_command(line: &[u8]) -> bool
    ensures { result ≡ is_said line.now }
{
    if line.is_empty() {
        return false;
    }
    line[0] != b'#'
}

/// Whether each byte of the line prints or is a space.
fn is_text(line: &[u8]) -> bool
    ensures { result ≡ list_all is_printed line.now }
{
    line.iter().all(|byte| 0x20 <= *byte && *byte <= 0x7e)
}

/// Judges the bytes of a line, whatever it says: Text comes first, then Long.
fn check_line(line: &[u8]) -> Result<(), FaultKind>
    ensures { result ≡ judged_line line.now }
{
    if !is_text(line) {
        return Err(FaultKind::Text);
    }
    if line.len() > LINE_MAX {
        return Err(FaultKind::Long);
    }
    Ok(())
}

/// The command that a line says, or none where the line is empty or a comment.
fn read_line(alloc: Global, line: &[u8]) -> Result<Option<Command>, FaultKind>
    ensures bytes { OnOk result (judged_line line.now ≡ Ok tt) }
    ensures said { IfOk result (λ said. SaysLine line.now said) }
    ensures fault { IfErr result (λ kind. (kind ≡ kinds.NoMemory) ⊎ IsFaultOf line.now kind) }
{
    check_line(line)?;
    if !is_command(line) {
        return Ok(None);
    }
    let command = read_command(alloc, line)?;
    Ok(Some(command))
}

/// The commands of the script, in order, or the first fault of its first faulty line.
pub fn read_script(alloc: Global, script: &[u8]) -> Result<Vec<Command>, ScriptFault>
    ensures commands { IfOk result (λ commands. IsScript script.now commands.items) }
    ensures fault { IfErr result (λ fault. IsFirstFault script.now fault) }
{
    let mut commands = Vec::new(alloc);
    let mut rest = Some(script);
    let mut number: usize = 0;
    while let Some(text) = rest {
        let (line, next) = split_line(text);
        rest = next;
        number += 1;
        match read_line(alloc, line) {
            Ok(Some(command)) => {
                if commands.push(command).is_err() {
                    return Err(ScriptFault::NO_MEMORY);
                }
            }
            Ok(None) => {}
            Err(kind) => return Err(ScriptFault::at(number, kind)),
        }
    }
    Ok(commands)
}
