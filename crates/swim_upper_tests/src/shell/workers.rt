//! The receiver, the ticker and the joiner.

use super::direct::Direct;
use super::fakes::Goes;
use super::inbounds::{Given, Listed};
use crate::same::{holds, same};
use arrayvec::ArrayVec;
use rand_chacha::ChaCha20Rng;
use rand_core::SeedableRng;
use std::test::Fail;
use std::time::Duration;
use swim_join::{Intervals, Joiner};
use swim_member::Event;
use swim_scenes::endpoint;
use swim_shell::{Receiver, Refusal, Ticker, WorkerEnd, run};
use swim_wire::Rules;

pub(super) const KEY: [u8; 32] = [
    0, 1, 2, 3, 4, 5, 6, 7, 8, 9, 10, 11, 12, 13, 14, 15, 16, 17, 18, 19, 20, 21, 22, 23, 24, 25,
    26, 27, 28, 29, 30, 31,
];

/// Three turns are three ticks, with the first three deals of the generator: here are the first numbers of each.
#[test]
fn three_ticks(rt: HostRuntime) -> Result<(), Fail> {
    let mut caller = Direct::<8>::new(rt.alloc())?;
    let mut ticker = Ticker::new(ChaCha20Rng::from_seed(KEY));
    let end = run(&rt, &mut ticker, &mut caller, &mut Goes { left: 3 });
    same(&rt, end, None);
    same(&rt, caller.node().len(), 3);
    for (entry, want) in caller.node().journal().iter().zip([
        [247, 49, 152, 45, 86, 109, 135, 188],
        [161, 190, 170, 75, 177, 4, 119, 128],
        [23, 42, 143, 18, 250, 25, 54, 194],
    ]) {
        let Event::Tick { deal } = &entry.event else {
            return Err("a tick".into());
        };
        same(&rt, deal.numbers().first_chunk(), Some(&want));
    }
    Ok(())
}

/// Fifteen failures on each side of a receive of nothing are 30 calls and no end; sixteen in a row are 16, and a fault.
#[test]
fn failed_receives(rt: HostRuntime) -> Result<(), Fail> {
    let mut parted = [Given::Failed; 31];
    parted[15] = Given::Nothing;
    let in_a_row = [Given::Failed; 31];
    for (given, end, calls) in [(&parted, None, 30), (&in_a_row, Some(WorkerEnd::Fault), 16)] {
        let mut caller = Direct::<40>::new(rt.alloc())?;
        let mut receiver = Receiver::new(Listed::new(given));
        let ended = run(&rt, &mut receiver, &mut caller, &mut Goes { left: 31 });
        same(&rt, (ended, caller.node().len()), (end, calls));
    }
    Ok(())
}

/// A failure row goes on over an era's end: of 16 failures 10 fit into each era, and the last one is a fault.
#[test]
fn failed_receives_over_an_era(rt: HostRuntime) -> Result<(), Fail> {
    let mut caller = Direct::<10>::new(rt.alloc())?;
    let mut receiver = Receiver::new(Listed::new(&[Given::Failed; 31]));
    for (end, calls) in [
        (WorkerEnd::Refused(Refusal::EraFull), 10),
        (WorkerEnd::Fault, 6),
    ] {
        let ended = run(&rt, &mut receiver, &mut caller, &mut Goes { left: 31 });
        same(&rt, (ended, caller.node().len()), (Some(end), calls));
        caller.begin_era();
    }
    Ok(())
}

/// Of five pings two fit into each era. The one that finds the era full is the first of the next, so all five are entered,
/// once each and in order.
#[test]
fn pings_over_three_eras(rt: HostRuntime) -> Result<(), Fail> {
    let mut caller = Direct::<2>::new(rt.alloc())?;
    let pings = [1, 2, 3, 4, 5].map(Given::Ping);
    let mut receiver = Receiver::new(Listed::new(&pings));
    let full = Some(WorkerEnd::Refused(Refusal::EraFull));
    for (end, calls) in [(full, 2), (full, 2), (None, 1)] {
        let ended = run(&rt, &mut receiver, &mut caller, &mut Goes { left: 4 });
        same(&rt, (ended, caller.node().len()), (end, calls));
        caller.begin_era();
    }
    let acks = caller.link.taken();
    same(&rt, acks.len(), 5);
    for (ack, number) in acks.iter().zip(1u8..) {
        same(&rt, ack.bytes.get(19), Some(&number));
    }
    Ok(())
}

/// The peer of the list is joined first. Then all members are read for their news: 10.0.0.1:7000 and 10.0.0.3:7000. Where it
/// is time for a join, the second is drawn if the next of the list is known. Else it's the list's turn, and by rules 2, where
/// the generator's first word is an odd one. But by rules 2 one of the list that no row shows is looked for first.
#[test]
fn joins_listed_and_drawn(rt: HostRuntime) -> Result<(), Fail> {
    let me = endpoint(1).expect(&rt, "an endpoint");
    for (rules, rejoin, list, calls, joined) in [
        (Rules::One, None, [2, 2], 3, None),
        (Rules::One, Some(Duration::ZERO), [2, 1], 4, endpoint(3)),
        (Rules::One, Some(Duration::ZERO), [2, 4], 4, endpoint(4)),
        (Rules::Two, Some(Duration::ZERO), [3, 1], 4, endpoint(1)),
        (Rules::Two, Some(Duration::ZERO), [2, 1], 4, endpoint(2)),
    ] {
        let [first_listed, _] = list;
        let peer = endpoint(first_listed).expect(&rt, "an endpoint");
        let mut caller = Direct::<8>::new(rt.alloc())?;
        let mut peers = ArrayVec::new();
        for last in list {
            let _ = peers.try_push(endpoint(last).expect(&rt, "an endpoint"));
        }
        let intervals = Intervals {
            answer: Duration::from_millis(300),
            period: Duration::from_secs(1),
            rejoin,
            introduce: 0,
            forget: Duration::from_secs(600),
        };
        let mut joiner = Joiner::new(me, rules, peers, intervals, ChaCha20Rng::from_seed(KEY));
        same(&rt, joiner.turn(&rt, &mut caller), Ok(()));
        let mut receiver = Receiver::new(Listed::new(&[Given::Ping(1)]));
        run(&rt, &mut receiver, &mut caller, &mut Goes { left: 1 });
        same(&rt, joiner.turn(&rt, &mut caller), Ok(()));
        let journal = caller.node().journal();
        same(&rt, journal.len(), calls);
        let first = journal.first().expect(&rt, "an entry");
        holds(
            &rt,
            matches!(first.event, Event::Join { peer: asked } if asked == peer),
        );
        let last = journal.last().expect(&rt, "an entry");
        let last_joined = match last.event {
            Event::Join { peer: asked } => Some(asked),
            _ => None,
        };
        same(&rt, last_joined, joined);
    }
    Ok(())
}

/// Peers of a list are joined soon after another while nobody has answered, a period after another once somebody has, and
/// again by a lone member alone: quickly at first, then each period, and later each third.
#[test]
fn waits_between_joins(rt: HostRuntime) -> Result<(), Fail> {
    let intervals = Intervals {
        answer: Duration::from_millis(300),
        period: Duration::from_secs(1),
        rejoin: None,
        introduce: 0,
        forget: Duration::from_secs(600),
    };
    for (joins, were_all, is_alone, millis) in [
        (0, false, true, Some(300)),
        (1, false, false, Some(1_000)),
        (1, true, true, Some(100)),
        (2, true, true, Some(200)),
        (3, true, true, Some(400)),
        (4, true, true, Some(1_000)),
        (9, true, true, Some(1_000)),
        (10, true, true, Some(3_000)),
        (1, true, false, None),
    ] {
        let rest = intervals.until_next(joins, were_all, is_alone);
        same(&rt, rest, millis.map(Duration::from_millis));
    }
    Ok(())
}
