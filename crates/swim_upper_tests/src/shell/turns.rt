//! What a joiner does as a clock goes on.

use super::direct::Direct;
use super::fakes::Goes;
use super::inbounds::{Given, Listed};
use super::workers::KEY;
use crate::same::{holds, same};
use arrayvec::ArrayVec;
use log::kv::Source;
use log::sink::Memory;
use log::span::Spans;
use log::{Log, Metadata, Record};
use rand_chacha::ChaCha20Rng;
use rand_core::SeedableRng;
use std::alloc::Global;
use std::fmt::Display;
use std::io::{self, ErrorKind};
use std::sync::Wait;
use std::test::Fail;
use std::time::{Clock, Duration};
use swim_join::{Intervals, Joiner, LIST_MAX};
use swim_member::Event;
use swim_scenes::endpoint;
use swim_shell::{Receiver, Refusal, run};
use swim_wire::{Endpoint, Rules};

/// A clock that a test sets, beside a log in memory.
#[derive(Drop)]
struct SetClock {
    /// What the clock reads; none where it cannot be read.
    millis: Option<u64>,
    is_shown: bool,
    lines: Memory,
}

impl Clock for SetClock {
    fn monotonic(&self) -> io::Result<Duration> {
        match self.millis {
            Some(millis) => Ok(Duration::from_millis(millis)),
            None => Err(io::Error::from(ErrorKind::Other)),
        }
    }

    fn since_1970(&self) -> io::Result<Duration> {
        self.monotonic()
    }
}

impl Log for SetClock {
    fn enabled(&self, metadata: &Metadata<'_>) -> bool {
        self.is_shown && self.lines.enabled(metadata)
    }

    fn log<D: Display, K: Source, S: Spans>(&self, record: &Record<'_, D, K, S>) {
        self.lines.log(record);
    }

    fn flush(&self) {}

    fn target(&self) -> &str {
        ""
    }
}

/// What a turn does: when it is and whether the log is shown, how many pages it reads, and which member it then joins.
type Step = (Option<u64>, bool, usize, Option<u8>);

/// The turns of a lone member with the list 10.0.0.2:7000 and 10.0.0.5:7000, which asks it again quickly at first.
const LONE: [Step; 12] = [
    (Some(0), true, 0, Some(2)),
    (None, true, 1, None),
    (Some(299), true, 1, None),
    (Some(300), true, 0, Some(5)),
    (Some(499), true, 0, None),
    (Some(500), true, 0, Some(2)),
    (Some(899), true, 0, None),
    (Some(900), true, 0, Some(5)),
    (Some(1298), true, 0, None),
    (Some(1299), true, 1, None),
    (None, true, 0, None),
    (Some(1899), false, 0, None),
];

/// Its turns once it knows 10.0.0.3:7000, and nobody of the list, which is asked again: the answer came after more than one was asked.
const KNOWN: [Step; 11] = [
    (Some(1900), false, 0, Some(2)),
    (Some(2301), true, 1, None),
    (Some(2899), false, 0, None),
    (Some(2900), false, 0, Some(5)),
    (Some(12_899), false, 0, None),
    (Some(12_900), true, 1, Some(2)),
    (Some(12_901), true, 0, None),
    (Some(22_900), false, 1, Some(5)),
    (Some(22_900), true, 1, None),
    (Some(22_900), true, 0, None),
    (Some(32_900), true, 1, Some(2)),
];

/// What is logged in these turns.
const LINES: [&str; 3] = [
    "member 10.0.0.1:7000 alive 1, was unknown",
    "member 10.0.0.3:7000 alive 1, was unknown",
    "listed 10.0.0.2:7000 is not known here: it is asked again, in case the group is in two parts",
];

/// One turn at a time of the clock. Says how many pages it read, and which member it then joined.
fn turn<const LIMIT: u32>(
    clock: &SetClock,
    joiner: &mut Joiner,
    caller: &mut Direct<LIMIT>,
) -> Result<(usize, Option<Endpoint>), Fail> {
    let before = caller.node().len();
    joiner.turn(clock, caller).map_err(|_| "a turn")?;
    let mut pages = 0usize;
    let mut joined = None;
    for entry in caller.node().journal().iter().skip(before) {
        match entry.event {
            Event::Members { .. } => pages = pages.wrapping_add(1),
            Event::Join { peer } => joined = Some(peer),
            _ => return Err("another event".into()),
        }
    }
    Ok((pages, joined))
}

/// The joiner of 10.0.0.1:7000 with this list, which introduces itself to so many. The answer time is 300 ms and the period 1 s, and a
/// member is drawn each 10 s.
fn joiner_of(peers: ArrayVec<Endpoint, LIST_MAX>, introduce: u32) -> Result<Joiner, Fail> {
    let intervals = Intervals {
        answer: Duration::from_millis(300),
        period: Duration::from_secs(1),
        rejoin: Some(Duration::from_secs(10)),
        introduce,
        forget: Duration::from_secs(600),
    };
    let me = endpoint(1).ok_or("an endpoint")?;
    let rng = ChaCha20Rng::from_seed(KEY);
    Ok(Joiner::new(me, Rules::One, peers, intervals, rng))
}

/// What is due is done in each turn, and nothing else. A clock that is not read holds nothing for passed.
#[test]
fn turns_by_the_clock(rt: HostRuntime) -> Result<(), Fail> {
    let mut peers = ArrayVec::new();
    for last in [2, 5] {
        let _ = peers.try_push(endpoint(last).expect(&rt, "an endpoint"));
    }
    let mut joiner = joiner_of(peers, 0)?;
    let mut caller = Direct::<64>::new(rt.alloc())?;
    let mut clock = SetClock {
        millis: None,
        is_shown: true,
        lines: Memory::new(rt.alloc()),
    };
    for steps in [LONE.as_slice(), KNOWN.as_slice()] {
        for (millis, is_shown, pages, joined) in steps {
            clock.millis = *millis;
            clock.is_shown = *is_shown;
            let did = turn(&clock, &mut joiner, &mut caller)?;
            same(&rt, did, (*pages, joined.and_then(endpoint)));
        }
        let mut receiver = Receiver::new(Listed::new(&[Given::Ping(1)]));
        run(&rt, &mut receiver, &mut caller, &mut Goes { left: 1 });
    }
    let lines = clock.lines.into_lines();
    same(&rt, lines.len(), LINES.len());
    for (line, want) in lines.as_slice().iter().zip(LINES) {
        holds(&rt, line.as_str().ends_with(want));
    }
    Ok(())
}

/// After how many seconds a lone member with that list has said how often that nobody answers. It joins each second, and each third one
/// after ten joins. The eighth join is the first of the third round, beside three that come quickly; the first one after ten minutes more
/// is made at second 609.
const SILENT: [(u64, usize); 4] = [(6, 0), (7, 1), (608, 1), (609, 2)];

/// How often a joiner of 10.0.0.2:7000 and 10.0.0.5:7000 says within so many seconds that nobody answers.
fn silences(alloc: Global, seconds: u64) -> Result<usize, Fail> {
    let mut peers = ArrayVec::new();
    for last in [2, 5] {
        let _ = peers.try_push(endpoint(last).ok_or("an endpoint")?);
    }
    let mut joiner = joiner_of(peers, 0)?;
    let mut caller = Direct::<64>::new(alloc)?;
    let mut clock = SetClock {
        millis: None,
        is_shown: true,
        lines: Memory::new(alloc),
    };
    for second in 0..seconds.saturating_add(1) {
        clock.millis = Some(second.saturating_mul(1000));
        caller.begin_era();
        let _ = turn(&clock, &mut joiner, &mut caller)?;
    }
    let first =
        "alone: none of 10.0.0.2:7000, 10.0.0.5:7000 has answered 8 joins: are they up, reachable over UDP, of the same group, and with rules 1? They are asked on";
    let lines = clock.lines.into_lines();
    let mut told = 0usize;
    for line in lines.as_slice() {
        if line.as_str().contains("alone: ") {
            if told == 0 && !line.as_str().ends_with(first) {
                return Err("another line".into());
            }
            told = told.saturating_add(1);
        }
    }
    Ok(told)
}

/// That nobody answers is said once two rounds of joins are over, and again after ten minutes.
#[test]
fn silence_by_the_clock(rt: HostRuntime) -> Result<(), Fail> {
    for (seconds, told) in SILENT {
        same(&rt, silences(rt.alloc(), seconds)?, told);
    }
    Ok(())
}

/// The members that a joiner joins at these milliseconds, once it was told of 10.0.0.3:7000 to 10.0.0.6:7000 by the one that it joins first.
fn introduced_at<R: Wait>(
    rt: &R,
    alloc: Global,
    introduce: u32,
    millis: &[u64],
) -> Result<ArrayVec<Option<Endpoint>, 8>, Fail> {
    let mut peers = ArrayVec::new();
    let _ = peers.try_push(endpoint(2).ok_or("an endpoint")?);
    let mut joiner = joiner_of(peers, introduce)?;
    let mut caller = Direct::<64>::new(alloc)?;
    let mut clock = SetClock {
        millis: Some(0),
        is_shown: false,
        lines: Memory::new(alloc),
    };
    let first = turn(&clock, &mut joiner, &mut caller)?;
    if first != (0, endpoint(2)) {
        return Err("the peer of the list first".into());
    }
    let mut receiver = Receiver::new(Listed::new(&[Given::Group]));
    run(rt, &mut receiver, &mut caller, &mut Goes { left: 1 });
    let mut joined = ArrayVec::new();
    for millis in millis {
        clock.millis = Some(*millis);
        let _ = joined.try_push(turn(&clock, &mut joiner, &mut caller)?.1);
    }
    Ok(joined)
}

/// A member that was answered introduces itself to each that it was told of, once, sixteen in the time of an answer, or to fewer if it
/// shall. Then a member is drawn after ten seconds.
#[test]
fn introductions_by_the_clock(rt: HostRuntime) -> Result<(), Fail> {
    let millis = [18, 19, 37, 38, 57, 76, 95, 10_076];
    for (introduce, when) in [
        (0, [false, false, false, false, false, false, false, true]),
        (2, [false, true, false, true, false, false, false, true]),
        (256, [false, true, false, true, true, true, false, false]),
    ] {
        let joined = introduced_at(&rt, rt.alloc(), introduce, &millis)?;
        let mut others = ArrayVec::<Endpoint, 8>::new();
        for (who, is_joined) in joined.as_slice().iter().zip(when) {
            same(&rt, who.is_some(), is_joined);
            if let Some(who) = who {
                let is_known = (2..7).any(|last| endpoint(last) == Some(*who));
                holds(&rt, is_known);
                let _ = others.try_push(*who);
            }
        }
        if introduce == 256 {
            let first = others.as_slice();
            for (place, who) in first.iter().enumerate() {
                holds(
                    &rt,
                    !first
                        .iter()
                        .skip(place.wrapping_add(1))
                        .any(|other| other == who),
                );
            }
        }
    }
    Ok(())
}

/// A drawn member whose join meets a full era is joined in the next one, and nothing is read again for it.
#[test]
fn draws_again_in_the_next_era(rt: HostRuntime) -> Result<(), Fail> {
    let mut joiner = joiner_of(ArrayVec::new(), 0)?;
    let mut caller = Direct::<2>::new(rt.alloc())?;
    let mut clock = SetClock {
        millis: Some(0),
        is_shown: false,
        lines: Memory::new(rt.alloc()),
    };
    let mut receiver = Receiver::new(Listed::new(&[Given::Ping(1)]));
    run(&rt, &mut receiver, &mut caller, &mut Goes { left: 1 });
    same(&rt, turn(&clock, &mut joiner, &mut caller)?, (0, None));
    clock.millis = Some(10_000);
    same(&rt, joiner.turn(&clock, &mut caller), Err(Refusal::EraFull));
    caller.begin_era();
    same(
        &rt,
        turn(&clock, &mut joiner, &mut caller)?,
        (0, endpoint(3)),
    );
    Ok(())
}
