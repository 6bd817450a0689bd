//! What is printed of small runs, sweeps, and plans that are made smaller.

use crate::same::{given, holds, holds_at, same, same_at};
use std::alloc::{AllocError, Global};
use std::test::Fail;
use swim_group::Breach;
use swim_plan::{Plan, PlanKey};
use swim_simulate::{Broken, Kill, LawBreak, SimulateFault, simulate};
use swim_survey::{
    Gathered, Made, Series, Span, Stage, Sweep, Trial, draw_runs, draw_sweep, numbers_of, placed,
    read_span, report, run_all, run_sweep, shrunk, told, write_plan,
};
use swim_wire::{Endpoint, Update, UpdateKind};

/// What runs of a plan print.
fn printed(alloc: Global, text: &str, seed: u64, runs: u64) -> Result<String, Fail> {
    let plan = Plan::read(alloc, text.as_bytes())?;
    let runs = run_all(
        alloc,
        &plan,
        &mut Series::new(seed, runs),
        &mut Made::none(),
    )?;
    Ok(report(alloc, &plan, seed, &runs)?)
}

#[test]
fn a_seed_gives_one_run(rt: HostRuntime) -> Result<(), Fail> {
    let plan = "members = 4\nminutes = 1\nrestart_after = 100\nrepeats = 20\nloss = 20\n";
    let first = printed(rt.alloc(), plan, 7, 2)?;
    let second = printed(rt.alloc(), plan, 7, 2)?;
    same(&rt, first.as_str(), second.as_str());
    holds(
        &rt,
        first.as_str().contains("medians and rates of each run\n"),
    );
    Ok(())
}

#[test]
fn stages_count_from_the_kill_or_the_opening(rt: HostRuntime) {
    let kill = Kill {
        who: 0,
        tick: 100,
        suspected: Some(110),
        confirmed: Some(160),
        known: None,
        back: Some(200),
        alive: Some(230),
    };
    same(&rt, Stage::Suspected.ticks(&kill), Some(10));
    same(&rt, Stage::Confirmed.ticks(&kill), Some(60));
    same(&rt, Stage::Failed.ticks(&kill), None);
    same(&rt, Stage::Alive.ticks(&kill), Some(30));
}

#[test]
fn spans_are_read_in_the_range_of_a_key(rt: HostRuntime) {
    let range = PlanKey::Loss.range();
    let rows = [
        ("0..30", Some((0, 30, None))),
        ("5..5", Some((5, 5, None))),
        ("0..100/20", Some((0, 100, Some(20)))),
        ("0..101", None),
        ("30..0", None),
        ("0..30/0", None),
        ("0..30/", None),
        ("0.30", None),
        ("0...30", None),
        ("-1..30", None),
        ("", None),
        ("7", None),
    ];
    for (text, span) in rows {
        let span = span.map(|(least, most, step)| Span { least, most, step });
        same_at(&rt, &text, read_span(text.as_bytes(), range), span);
    }
}

#[test]
fn a_row_has_six_numbers_or_its_step(rt: HostRuntime) -> Result<(), Fail> {
    let span = |least, most, step| Span { least, most, step };
    let rows: [(Span, &[u64]); 4] = [
        (span(0, 30, None), &[0, 6, 12, 18, 24, 30]),
        (span(0, 2, None), &[0, 1, 2]),
        (span(20, 100, Some(40)), &[20, 60, 100]),
        (span(20, 99, Some(40)), &[20, 60]),
    ];
    for (span, numbers) in rows {
        let found = given(&rt, numbers_of(rt.alloc(), span));
        same(&rt, found.as_slice(), numbers);
    }
    Ok(())
}

/// What a sweep is refused for, and nothing where it is not.
fn refusal_of(alloc: Global, text: &str) -> Result<String, AllocError> {
    match Sweep::read(alloc, text) {
        Ok(_) => Ok(String::new(alloc)),
        Err(refusal) => format!(in alloc; "{refusal}"),
    }
}

#[test]
fn sweeps_are_refused_by_name(rt: HostRuntime) -> Result<(), Fail> {
    let rows = [
        ("suspect=20..200,loss=0..30", ""),
        ("suspect=20..200/20", ""),
        ("loss=0..101", "loss"),
        ("suspect=20..200,loss=0..30/0", "loss"),
        ("loss=0..1,loss=2..3", "loss"),
        ("loss=7", "loss"),
        ("speed=1..2", "\"speed=1..2\""),
        ("loss", "loss"),
        ("", "\"\""),
        ("loss=0..1,", "\"\""),
        // more than ten thousand plans
        ("suspect=1..20000/1", "suspect"),
        ("suspect=1..200/1,loss=0..100/1", "loss"),
    ];
    for (text, refusal) in rows {
        let found = given(&rt, refusal_of(rt.alloc(), text));
        same_at(&rt, &text, found.as_str(), refusal);
    }
    Ok(())
}

/// What a plan is refused for and where, and nothing where it is not.
fn placed_refusal_of(alloc: Global, text: &str) -> Result<String, AllocError> {
    match Plan::read(alloc, text.as_bytes()) {
        Ok(_) => Ok(String::new(alloc)),
        Err(refusal) => format!(in alloc; "{}", placed(text.as_bytes(), refusal)),
    }
}

#[test]
fn plans_are_refused_with_their_line(rt: HostRuntime) -> Result<(), Fail> {
    let rows = [
        ("members = 258\n", "members on line 1"),
        ("# loss\nlossy = 1\n", "lossy on line 2"),
        ("kills = 1\n\n  loss=101", "loss on line 3"),
        // no line gives it
        ("period = 2\n", "direct"),
        ("\"a b\" = 1\n", "\"a b\""),
        ("loss", "toml"),
    ];
    for (text, refusal) in rows {
        let found = given(&rt, placed_refusal_of(rt.alloc(), text));
        same_at(&rt, &text, found.as_str(), refusal);
    }
    Ok(())
}

#[test]
fn a_sweep_has_a_line_for_each_choice(rt: HostRuntime) -> Result<(), Fail> {
    let alloc = rt.alloc();
    let plan = given(
        &rt,
        Plan::read(alloc, b"members = 3\nminutes = 1\nkills = 1\n"),
    );
    let sweep = given(&rt, Sweep::read(alloc, "suspect=20..40/20,loss=0..10/10"));
    let table = run_sweep(
        alloc,
        &plan,
        &sweep,
        &mut Series::new(1, 1),
        &mut Made::none(),
    )?;
    let mut lines = table.as_str().lines();
    let head =
        "suspect,loss,started_s,suspected_s,confirmed_s,agreed_failed_s,agreed_alive_s,false_suspicions_by_hour,false_confirms_by_hour,datagrams_by_second,bytes_by_second,saves_by_hour";
    same(&rt, lines.next(), Some(head));
    for begin in ["20,0,", "20,10,", "40,0,", "40,10,"] {
        let line = lines.next().unwrap_or("");
        holds_at(&rt, &line, line.starts_with(begin));
    }
    same(&rt, lines.next(), None);
    Ok(())
}

/// Fails with so many members, minutes and kills and as much loss, whatever else there is.
#[derive(Drop)]
struct Planted {
    tried: u64,
}

impl Trial for Planted {
    fn fails(&mut self, plan: &Plan) -> Result<bool, SimulateFault> {
        self.tried = self.tried.saturating_add(1);
        Ok(
            plan.get(PlanKey::Members) >= 5
                && plan.get(PlanKey::Minutes) >= 2
                && plan.get(PlanKey::Kills) >= 3
                && plan.get(PlanKey::Loss) >= 7,
        )
    }
}

#[test]
fn a_planted_breach_is_made_as_small_as_it_is(rt: HostRuntime) -> Result<(), Fail> {
    let text =
        b"members = 200\nminutes = 900\nkills = 90\nloss = 55\npauses = 9\ncut_members = 9\njitter = 3\n";
    let plan = given(&rt, Plan::read(rt.alloc(), text));
    let mut planted = Planted { tried: 0 };
    let smaller = given(&rt, shrunk(&mut planted, &plan));
    let mut found = String::new(rt.alloc());
    given(&rt, write_plan(&mut found, &smaller));
    let least = "members = 5\nminutes = 2\nloss = 7\ncut_for = 0\npause_for = 0\n";
    same(&rt, found.as_str(), least);
    holds_at(&rt, &planted.tried, planted.tried < 400);
    Ok(())
}

#[test]
fn a_run_is_told_as_a_plan(rt: HostRuntime) -> Result<(), Fail> {
    let alloc = rt.alloc();
    let text = "members = 3\nminutes = 1\nrules = 2\nkills = 1\nrestart_after = 100\n";
    let plan = given(&rt, Plan::read(alloc, text.as_bytes()));
    let done = given(&rt, simulate(alloc, &plan, 1, 0));
    let found = given(&rt, told(alloc, &plan, 1, &done));
    holds_at(
        &rt,
        &found,
        found.as_str().starts_with("# seed 1\n# tick 300: member "),
    );
    holds_at(&rt, &found, found.as_str().contains("# tick 400: member "));
    // it is a plan, and the same one
    let again = given(&rt, Plan::read(alloc, found.as_str().as_bytes()));
    for key in PlanKey::ALL {
        same_at(&rt, &key, again.get(key), plan.get(key));
    }
    Ok(())
}

#[test]
fn pictures_end_as_they_begin(rt: HostRuntime) -> Result<(), Fail> {
    let alloc = rt.alloc();
    let plan = given(
        &rt,
        Plan::read(alloc, b"members = 3\nminutes = 1\nkills = 1\n"),
    );
    let runs = given(
        &rt,
        run_all(alloc, &plan, &mut Series::new(1, 1), &mut Made::none()),
    );
    let picture = given(&rt, draw_runs(alloc, &plan, 1, runs));
    holds(
        &rt,
        picture.as_str().starts_with("<svg ") && picture.as_str().ends_with("</svg>\n"),
    );
    let sweep = given(&rt, Sweep::read(alloc, "loss=0..1"));
    let picture = given(&rt, draw_sweep(alloc, &sweep, &[Some(1); 20]));
    holds_at(&rt, &picture, picture.as_str().contains(">loss 1</text>"));
    Ok(())
}

#[test]
fn what_is_gathered_adds_up(rt: HostRuntime) -> Result<(), Fail> {
    let alloc = rt.alloc();
    let plan = given(
        &rt,
        Plan::read(alloc, b"members = 4\nminutes = 1\nkills = 2\n"),
    );
    let mut all = Gathered::none(alloc);
    for seed in 0..2 {
        let done = given(&rt, simulate(alloc, &plan, seed, 0));
        all.add(&Gathered::of(alloc, &done.measures, 100)?)?;
    }
    same(&rt, all.kills, 4);
    same(&rt, all.sorted(alloc, Stage::Confirmed)?.len(), 4);
    Ok(())
}

/// A law that no member knows: a datagram of this tick breaks it.
fn planted_stop(tick: u64) -> LawBreak {
    let who = Endpoint::new(0x0a00_0002, 7000).unwrap_or_default();
    let update = Update {
        kind: UpdateKind::Alive,
        who,
        number: 9,
    };
    LawBreak {
        tick,
        sender: who,
        update,
        broken: Broken::Group(Breach::WentBack),
    }
}

#[test]
fn a_broken_run_is_told_as_a_script(rt: HostRuntime) -> Result<(), Fail> {
    let alloc = rt.alloc();
    // of three members one is killed and opened again, saves fail, and eras are short
    let text =
        "members = 3\nminutes = 1\nrules = 2\nloss = 30\nrepeats = 20\njitter = 3\nkills = 4\nrestart_after = 20\ndropped = 50\nfilled = 25\nfailing_syncs = 50\nlimit = 7\n";
    let plan = given(&rt, Plan::read(alloc, text.as_bytes()));
    let mut done = given(&rt, simulate(alloc, &plan, 1, 0));
    done.stop = Some(planted_stop(590));
    let found = given(&rt, told(alloc, &plan, 1, &done));
    let line =
        "# tick 590: 10.0.0.2:7000 told number 9 of 10.0.0.2:7000: it told a greater number of itself before\n# in swim play this member does it alone\ngroup 1\nme 10.0.0.2:7000\n";
    holds_at(&rt, &found, found.as_str().contains(line));
    // it has each kind of line
    for begin in [
        "tick ",
        "recv 10.0.0.3:7000 ",
        "join ",
        "rebase",
        "fail sync 1",
        "crash ",
        "open",
    ] {
        let is_there = found.as_str().lines().any(|line| line.starts_with(begin));
        holds_at(&rt, &begin, is_there);
    }
    Ok(())
}

#[test]
fn a_run_that_no_script_plays_is_told_as_a_plan(rt: HostRuntime) -> Result<(), Fail> {
    let alloc = rt.alloc();
    // a script does not know each order of so many
    let text = "members = 9\nminutes = 1\nkills = 0\n";
    let plan = given(&rt, Plan::read(alloc, text.as_bytes()));
    let mut done = given(&rt, simulate(alloc, &plan, 1, 0));
    done.stop = Some(planted_stop(590));
    let found = given(&rt, told(alloc, &plan, 1, &done));
    holds_at(
        &rt,
        &found,
        found
            .as_str()
            .ends_with("before\nmembers = 9\nminutes = 1\nkills = 0\n"),
    );
    Ok(())
}
