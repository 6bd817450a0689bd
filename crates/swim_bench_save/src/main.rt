//! Saves of the state file on a real file, timed: for each count on a line of standard input, that many
//! saves, and the nanoseconds that they took on a line of standard output. With a block as a second word
//! it times refutations of a member with that block. `bench/` runs it, beside the same writes and syncs by
//! hand.
#![tactic(auto)]

mod refutations;
mod saves;

use crate::refutations::{open, refute};
use crate::saves::save;
use std::alloc::Global;
use std::fs::File;
use std::process::ExitCode;
use std::rt::{Clock, Files};
use std::time::Instant;
use std::{env, io};
use swim_disk::FileDisk;
use swim_node::Node;
use swim_state::{Owner, Store, init, recover};
use swim_wire::Endpoint;

/// The exit status where the words or a line are refused.
const REFUSED: u8 = 2;

/// What is timed.
#[derive(Drop)]
enum Timed {
    /// A save a turn.
    Saves(Store<FileDisk>),
    /// A refutation a turn.
    Refutations(Node<FileDisk>),
}

fn file_owner() -> Owner {
    Owner {
        group: 7,
        me: Endpoint::default(),
    }
}

/// What is timed over a new state file on this disk, or none where that can't be made.
fn begin(alloc: Global, disk: FileDisk, block: Option<u64>) -> Option<Timed> {
    match block {
        None => match recover(disk, file_owner()) {
            Ok(store) => Some(Timed::Saves(store)),
            Err(_) => None,
        },
        Some(block) => match open(alloc, disk, file_owner(), block) {
            Some(node) => Some(Timed::Refutations(node)),
            None => None,
        },
    }
}

/// What is timed over a new file at this path, or none where that can't be made.
fn make<R: Files<File = File>>(
    rt: &R,
    alloc: Global,
    path: &str,
    block: Option<u64>,
) -> Option<Timed> {
    let mut disk = FileDisk::create(alloc, rt, path).ok()?;
    match init(&mut disk, file_owner(), 0) {
        Ok(()) => begin(alloc, disk, block),
        Err(_) => None,
    }
}

/// Makes so many turns, and answers whether each was done.
fn turn(timed: &mut Timed, count: u32) -> bool {
    match timed {
        Timed::Saves(store) => save(store, count),
        Timed::Refutations(node) => {
            node.rebase();
            refute(node, &file_owner(), count)
        }
    }
}

/// The nanoseconds of so many turns, or none where one wasn't done.
fn time<R: Clock>(rt: &R, timed: &mut Timed, count: u32) -> io::Result<Option<u128>> {
    let start = Instant::now(rt)?;
    let is_done = turn(timed, count);
    let nanos = start.elapsed(rt)?.as_nanos();
    Ok(is_done.then_some(nanos))
}

/// Times the turns that a line asks for, and prints their nanoseconds. False where it is refused, or a turn wasn't done.
fn time_line<R: Clock + Print>(rt: &R, timed: &mut Timed, line: &str) -> io::Result<bool> {
    let Ok(count) = line.parse::<u32>() else {
        return Ok(false);
    };
    let Some(nanos) = time(rt, timed, count)? else {
        return Ok(false);
    };
    println!(rt; "{nanos}")?;
    Ok(true)
}

/// Times what each line of standard input asks for, until one is refused.
fn time_lines(rt: &HostRuntime, timed: &mut Timed) -> io::Result<bool> {
    for line in rt.stdin().lines(rt.alloc()) {
        if !time_line(rt, timed, line?.as_str())? {
            return Ok(false);
        }
    }
    Ok(true)
}

/// The file and the block that the words name; none where they name no file.
fn read_words(rt: &HostRuntime) -> io::Result<Option<(String, Option<u64>)>> {
    let mut words = env::args(rt)?;
    let _ = words.next();
    let Some(path) = words.next() else {
        return Ok(None);
    };
    let block = words
        .next()
        .and_then(|word| word.as_str().parse::<u64>().ok());
    Ok(Some((path, block)))
}

/// Times over a new file what the lines ask for. False where the file can't be made, or a line is refused.
fn run(rt: &HostRuntime, path: &str, block: Option<u64>) -> io::Result<bool> {
    match make(rt, rt.alloc(), path, block) {
        Some(mut timed) => time_lines(rt, &mut timed),
        None => {
            eprintln!(rt; "swim_bench_save: the file can't be made")?;
            Ok(false)
        }
    }
}

fn main(rt: HostRuntime) -> io::Result<ExitCode> {
    let Some((path, block)) = read_words(&rt)? else {
        eprintln!(rt; "usage: swim_bench_save FILE [BLOCK] < COUNTS")?;
        return Ok(ExitCode::from(REFUSED));
    };
    let is_done = run(&rt, path.as_str(), block)?;
    Ok(ExitCode::from(if is_done { 0 } else { REFUSED }))
}
