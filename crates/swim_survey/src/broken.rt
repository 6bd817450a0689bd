//! What is said of a run that breaks the law of a group: a script of `swim play` where one member shows it, and else a plan.

use crate::fault::AskedFault;
use crate::shrink::{Trial, shrunk, write_plan};
use std::alloc::{AllocError, Global};
use std::fmt::Write;
use swim_plan::Plan;
use swim_play::play;
use swim_simulate::{Done, Kill, LawBreak, Script, SimulateFault, script_of, simulate};

/// A run by a seed, which fails where it breaks the law of a group.
#[derive(Drop)]
struct Lawful {
    alloc: Global,
    seed: u64,
}

impl Trial for Lawful {
    fn fails(&mut self, plan: &Plan) -> Result<bool, SimulateFault> {
        let done = simulate(self.alloc, plan, self.seed, 0)?;
        Ok(done.stop.is_some())
    }
}

/// What was done to a member, as comments.
fn write_kill(text: &mut String, kill: &Kill) -> Result<(), AllocError> {
    let member = kill.who.saturating_add(1);
    let tick = kill.tick;
    writeln!(text, "# tick {tick}: member {member} is killed")?;
    match kill.back {
        Some(tick) => writeln!(text, "# tick {tick}: member {member} is opened again"),
        None => Ok(()),
    }
}

/// The seed and the events of a run, as comments.
fn write_events(text: &mut String, seed: u64, done: &Done) -> Result<(), AllocError> {
    writeln!(text, "# seed {seed}")?;
    for kill in done.measures.kills.as_slice() {
        write_kill(text, kill)?;
    }
    match &done.stop {
        Some(stop) => writeln!(text, "# {stop}"),
        None => Ok(()),
    }
}

/// The lines of the datagrams in a transcript.
fn sent_in(alloc: Global, transcript: &str) -> Result<String, AllocError> {
    let mut sent = String::new(alloc);
    for line in transcript.lines() {
        if line.starts_with("send ") {
            writeln!(sent, "{line}")?;
        }
    }
    Ok(sent)
}

/// Whether a member that plays its script alone sends what it sent among the others.
fn is_played(alloc: Global, script: &Script) -> Result<bool, AllocError> {
    match play(alloc, script.lines.as_bytes()) {
        Ok(transcript) => {
            let sent = sent_in(alloc, transcript.text.as_str())?;
            Ok(sent.as_str() == script.sent.as_str())
        }
        Err(_) => Ok(false),
    }
}

/// The script in which the member that broke the law shows it alone, if there is one.
fn script_that_shows(
    alloc: Global,
    plan: &Plan,
    seed: u64,
    stop: &LawBreak,
) -> Result<Option<Script>, AskedFault> {
    let script = script_of(alloc, plan, seed, stop.sender, stop.tick)?;
    if !is_played(alloc, &script)? {
        return Ok(None);
    }
    Ok(Some(script))
}

/// What a run did, as comments, and then the script in which one member shows where it broke the law, or else its plan.
pub fn told(alloc: Global, plan: &Plan, seed: u64, done: &Done) -> Result<String, AskedFault> {
    let script = match &done.stop {
        Some(stop) => script_that_shows(alloc, plan, seed, stop)?,
        None => None,
    };
    let mut text = String::new(alloc);
    write_events(&mut text, seed, done)?;
    match script {
        Some(script) => {
            writeln!(text, "# in swim play this member does it alone")?;
            text.push_str(script.lines.as_str())?;
        }
        None => write_plan(&mut text, plan)?,
    }
    Ok(text)
}

/// What is said of a plan that breaks the law by this seed: what happened in the run of the smallest such plan.
pub(crate) fn broken(alloc: Global, plan: &Plan, seed: u64) -> Result<AskedFault, AskedFault> {
    let mut lawful = Lawful { alloc, seed };
    let smaller = shrunk(&mut lawful, plan)?;
    let done = simulate(alloc, &smaller, seed, 0)?;
    let text = told(alloc, &smaller, seed, &done)?;
    Ok(AskedFault::Broken(text))
}
