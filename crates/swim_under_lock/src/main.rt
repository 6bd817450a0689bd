//! Callers of a member under its lock. `two-callers` as the word: two of them, each on a thread.
//! `call-again`: those that make a call again for which there was no memory. A load, a number of
//! threads and a count: the lock and the outbox under that load, of which the nanoseconds are
//! printed; `bench/` runs it so, beside plain Rust. Without words it runs all of them, each load
//! with a few turns.
#![tactic(auto)]

mod call_again;
mod era;
mod load;
mod two_callers;

use std::alloc::Global;
use std::env::{self, Args};
use std::io;
use std::process::ExitCode;
use std::sync::Wait;
use std::thread::Threads;
use std::time::Clock;

/// Runs what the words ask for. False where they are refused, or it did not end as it should.
fn run<R: Threads + Wait + Clock + Print + Eprint + Sync>(
    rt: &R,
    alloc: Global,
    mut words: Args<Global>,
) -> io::Result<bool> {
    let _ = words.next();
    let Some(word) = words.next() else {
        return Ok(
            two_callers::run(rt, alloc)?
                && call_again::run(rt, alloc)?
                && load::run_all(rt, alloc)?,
        );
    };
    match (word.as_str(), words.next(), words.next()) {
        ("two-callers", None, None) => two_callers::run(rt, alloc),
        ("call-again", None, None) => call_again::run(rt, alloc),
        (load, Some(threads), Some(count)) => {
            load::run_one(rt, alloc, load, threads.as_str(), count.as_str())
        }
        _ => Ok(false),
    }
}

fn main(rt: HostRuntime) -> io::Result<ExitCode> {
    // Once more where there was no memory, so that one refusal changes nothing.
    let is_done = match env::args(&rt).or_else(|_| env::args(&rt)) {
        Ok(words) => run(&rt, rt.alloc(), words)?,
        Err(_) => false,
    };
    if !is_done {
        eprintln!(rt; "swim_under_lock: the words are refused, or there was no memory")?;
        return Ok(ExitCode::FAILURE);
    }
    Ok(ExitCode::SUCCESS)
}
