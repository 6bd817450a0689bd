//! Plans, refused ones, and whole runs.

ghost use Rattle.std.specs.Prelude.{◌<◌};

use crate::same::{given, holds, holds_at, same, same_at};
use arrayvec::ArrayVec;
use std::alloc::{AllocError, Global};
use std::test::Fail;
use swim_plan::{Plan, PlanKey};
use swim_simulate::{LawRecord, RunCounts, endpoint_of, simulate};
use swim_wire::{Cursor, Datagram, Kind, Rules, Update, UpdateKind};

/// What a plan is refused for, and nothing where it is not.
fn refusal_of(alloc: Global, text: &str) -> Result<String, AllocError> {
    match Plan::read(alloc, text.as_bytes()) {
        Ok(_) => Ok(String::new(alloc)),
        Err(refusal) => format!(in alloc; "{refusal}"),
    }
}

#[test]
fn plans_are_refused_by_key(rt: HostRuntime) -> Result<(), Fail> {
    let rows = [
        ("", ""),
        ("members = 257\nloss = 100\n", ""),
        ("members = 258\n", "members"),
        ("members = 0\n", "members"),
        ("loss = 101\n", "loss"),
        ("loss = -1\n", "loss"),
        ("loss = '1'\n", "loss"),
        // the first in the order of the keys, and an unknown one last
        ("kills = 101\nminutes = 0\nspeed = 1\n", "minutes"),
        ("speed = 1\n", "speed"),
        ("\"a b\" = 1\n", "\"a b\""),
        ("direct = 10\n", "direct"),
        ("period = 11\ndirect = 10\n", ""),
        ("members", "toml"),
    ];
    for (text, refusal) in rows {
        let found = given(&rt, refusal_of(rt.alloc(), text));
        same_at(&rt, &text, found.as_str(), refusal);
    }
    Ok(())
}

#[test]
fn a_default_plan_has_fifty_members(rt: HostRuntime) {
    let plan = Plan::default();
    same(&rt, plan.get(PlanKey::Members), 50);
    same(&rt, plan.get(PlanKey::Loss), 2);
    same(&rt, plan.ticks(), 6000);
    same(&rt, plan.kill_tick(0), 1500);
    same(&rt, plan.kill_tick(2), 4500);
}

#[test]
fn a_plan_takes_another_number_in_its_range(rt: HostRuntime) {
    let plan = Plan::default();
    let with = |key, number| plan.with(key, number).map(|plan| plan.get(key));
    same(&rt, with(PlanKey::Loss, 100), Some(100));
    same(&rt, with(PlanKey::Loss, 101), None);
    same(&rt, with(PlanKey::Members, 0), None);
    same(
        &rt,
        plan.with(PlanKey::Loss, 9)
            .map(|plan| plan.get(PlanKey::Members)),
        Some(50),
    );
}

/// The most ticks that a lone member made in a minute of 60, of which it begins at one of the first two, by any of some seeds.
fn most_ticks(alloc: Global) -> Result<u64, Fail> {
    let text = b"members = 1\nminutes = 1\ntick_ms = 1000\nperiod = 2\ndirect = 1\nkills = 0\n";
    let plan = Plan::read(alloc, text)?;
    let mut most = 0;
    for seed in 1..9 {
        most = simulate(alloc, &plan, seed, 0)?
            .measures
            .counts
            .ticks
            .max(most);
    }
    Ok(most)
}

#[test]
fn who_begins_at_once_makes_each_tick(rt: HostRuntime) -> Result<(), Fail> {
    same(&rt, most_ticks(rt.alloc())?, 60);
    Ok(())
}

#[test]
fn who_is_killed_is_confirmed(rt: HostRuntime) -> Result<(), Fail> {
    let text = b"members = 5\nminutes = 1\nloss = 0\nkills = 1\n";
    let plan = given(&rt, Plan::read(rt.alloc(), text));
    let measures = simulate(rt.alloc(), &plan, 1, 0)?.measures;
    same(&rt, measures.kills.len(), 1);
    same(&rt, measures.counts.lost, 0);
    same(&rt, measures.counts.suspicions, 0);
    for kill in measures.kills.as_slice() {
        same(&rt, kill.tick, 300);
        // it is suspected within a round of probes, and confirmed 50 ticks later
        let suspected = kill.suspected.unwrap_or(0);
        holds_at(&rt, &suspected, 300 < suspected && suspected <= 340);
        same(&rt, kill.confirmed, Some(suspected + 50));
        holds(&rt, kill.known >= kill.confirmed);
    }
    Ok(())
}

#[test]
fn who_is_opened_again_is_agreed_on(rt: HostRuntime) -> Result<(), Fail> {
    let text = b"members = 5\nminutes = 1\nloss = 0\nkills = 1\nrules = 2\nrestart_after = 100\n";
    let plan = given(&rt, Plan::read(rt.alloc(), text));
    let done = given(&rt, simulate(rt.alloc(), &plan, 1, 60));
    same(&rt, done.stop, None);
    // sixty moments of five members
    same(&rt, done.history.len(), 300);
    for kill in done.measures.kills.as_slice() {
        same(&rt, kill.back, Some(400));
        holds_at(&rt, &kill, kill.known.is_some() && kill.known < kill.back);
        holds_at(&rt, &kill, kill.alive > kill.back);
    }
    Ok(())
}

#[test]
fn who_is_paused_is_suspected_and_comes_back(rt: HostRuntime) -> Result<(), Fail> {
    let text = b"members = 5\nminutes = 1\nloss = 0\nkills = 0\npauses = 1\npause_for = 20\n";
    let plan = given(&rt, Plan::read(rt.alloc(), text));
    let counts = simulate(rt.alloc(), &plan, 1, 0)?.measures.counts;
    same(&rt, counts.pauses, 1);
    holds_at(&rt, &counts, counts.suspicions > 0 && counts.confirms == 0);
    // of 600 ticks of five members each began at most nine late, and one missed twenty
    holds_at(&rt, &counts, counts.ticks > 2900 && counts.ticks <= 2980);
    Ok(())
}

/// A ping of the first member that says this number of another one.
fn ping_that_says(who: usize, number: u64) -> Datagram
    requires { who < 1000 }
{
    let mut updates = ArrayVec::new();
    updates.push(Update {
        kind: UpdateKind::Alive,
        who: endpoint_of(who),
        number,
    });
    Datagram {
        version: Rules::One,
        kind: Kind::Ping,
        group: 1,
        seq: 1,
        sender: endpoint_of(0),
        subject: Cursor::at(endpoint_of(1)),
        updates,
    }
}

#[test]
fn a_number_that_nobody_told_breaks_the_law(rt: HostRuntime) -> Result<(), Fail> {
    let mut law = LawRecord::new(rt.alloc());
    given(&rt, law.look(6, &ping_that_says(0, 5)));
    same(&rt, law.stop(), None);
    given(&rt, law.look(7, &ping_that_says(1, 5)));
    given(&rt, law.look(8, &ping_that_says(2, 5)));
    // the first one counts
    let found = law
        .stop()
        .map(|stop| (stop.tick, stop.sender, stop.update.who));
    same(&rt, found, Some((7, endpoint_of(0), endpoint_of(1))));
    Ok(())
}

/// The counts of a minute of five members that suspect one another, where of 100 saves so many fail.
fn with_failing(alloc: Global, failing: u64) -> Result<RunCounts, Fail> {
    let text = b"members = 5\nminutes = 1\nloss = 50\nkills = 0\n";
    let plan = Plan::read(alloc, text)?;
    let plan = plan.with(PlanKey::FailingSyncs, failing).unwrap_or(plan);
    Ok(simulate(alloc, &plan, 1, 0)?.measures.counts)
}

#[test]
fn saves_fail_as_the_plan_says(rt: HostRuntime) -> Result<(), Fail> {
    let none = with_failing(rt.alloc(), 0)?;
    holds_at(&rt, &none, none.saves > 0 && none.failed_saves == 0);
    let all = with_failing(rt.alloc(), 100)?;
    holds_at(&rt, &all, all.saves == 0 && all.failed_saves > 0);
    let some = with_failing(rt.alloc(), 50)?;
    holds_at(&rt, &some, some.saves > 0 && some.failed_saves > 0);
    Ok(())
}
