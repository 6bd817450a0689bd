//! Small groups, by tables of what happens. What each row expects was written by hand.

ghost use Rattle.std.specs.Prelude.{◌<◌};

use crate::same::{holds, same, same_at};
use std::alloc::Global;
use std::process::Abort;
use swim_disk::Choice;
use swim_group::{Breach, CheckFault, Checker, Failure, Group, GroupFault, Nodes, NodesFault};
use swim_member::{Deal, Event, Out, Settings, SettingsFault};
use swim_node::Save;
use swim_wire::{Datagram, Endpoint, Update, UpdateKind};

/// The endpoint 10.0.0.`last`:7000.
fn endpoint(last: u32) -> Endpoint
    requires { last < 200 }
{
    Endpoint::new(0x0a00_0000 + last, 7000).unwrap()
}

/// The settings of 10.0.0.`last`:7000.
fn settings(last: u32) -> Settings
    requires { last < 200 }
{
    Settings::usual(7, endpoint(last))
}

/// Three members, with room for 8 datagrams.
fn three(alloc: Global) -> Result<Group, GroupFault> {
    let all = [settings(1), settings(2), settings(3)];
    Group::new(alloc, &all, 8)
}

/// What happens to a group. The members are counted from 0, and so are the datagrams.
#[derive(Clone, Copy, Debug)]
enum Happening {
    /// A member asks the one with the endpoint 10.0.0.`peer`:7000 for all that it knows.
    Join { member: usize, peer: u32 },
    /// A kept datagram comes to a member.
    Deliver { member: usize, datagram: usize },
    /// A member begins anew.
    Restart { member: usize, last: u32 },
    /// A kept datagram is lost.
    Lose { datagram: usize },
}

use Happening::{Deliver, Join, Lose, Restart};

/// Does it.
fn apply(group: &mut Group, happening: Happening) -> Result<(), GroupFault> {
    match happening {
        Join { member, peer } => {
            let peer = endpoint(peer % 200);
            group.step(member, &Event::Join { peer }, 0)
        }
        Deliver { member, datagram } => group.deliver(member, datagram, 0),
        Restart { member, last } => group.restart(member, settings(last % 200)),
        Lose { datagram } => group.lose(datagram),
    }
}

/// The number of a member.
fn number(group: &Group, member: usize) -> Option<u64> {
    group.members().get(member).map(|one| one.number())
}

/// The number in a member's first row, if it has a row.
fn row(group: &Group, member: usize) -> Option<u64> {
    let one = group.members().get(member)?;
    one.eligible(0).map(|row| row.update.number)
}

#[test]
fn begins_anew_and_is_believed(rt: HostRuntime) {
    let mut group = three(rt.alloc()).ok().expect(&rt, "memory");
    // what happens; then how many datagrams are kept, the number of the second member, and the first member's row of it
    let rows = [
        (Join { member: 1, peer: 1 }, 1, Some(1), None),
        (
            Deliver {
                member: 0,
                datagram: 0,
            },
            2,
            Some(1),
            Some(1),
        ),
        (
            Deliver {
                member: 1,
                datagram: 1,
            },
            2,
            Some(1),
            Some(1),
        ),
        (Restart { member: 1, last: 2 }, 2, Some(2), Some(1)),
        (Join { member: 1, peer: 1 }, 3, Some(2), Some(1)),
        (
            Deliver {
                member: 0,
                datagram: 2,
            },
            4,
            Some(2),
            Some(2),
        ),
        // the join of its earlier life comes once more
        (
            Deliver {
                member: 0,
                datagram: 0,
            },
            5,
            Some(2),
            Some(2),
        ),
        (Lose { datagram: 4 }, 4, Some(2), Some(2)),
    ];
    for (happening, kept, second, first) in rows {
        same_at(&rt, &happening, apply(&mut group, happening), Ok(()));
        same_at(&rt, &happening, group.kept().len(), kept);
        same_at(&rt, &happening, number(&group, 1), second);
        same_at(&rt, &happening, row(&group, 0), first);
    }
}

#[test]
fn refuses(rt: HostRuntime) {
    let mut group = three(rt.alloc()).ok().expect(&rt, "memory");
    let rows = [
        (Join { member: 3, peer: 1 }, GroupFault::NoMember),
        (
            Deliver {
                member: 3,
                datagram: 0,
            },
            GroupFault::NoMember,
        ),
        (
            Deliver {
                member: 0,
                datagram: 0,
            },
            GroupFault::NoDatagram,
        ),
        (Restart { member: 3, last: 3 }, GroupFault::NoMember),
        (Restart { member: 1, last: 3 }, GroupFault::OtherName),
        (Lose { datagram: 0 }, GroupFault::NoDatagram),
    ];
    for (happening, fault) in rows {
        same_at(&rt, &happening, apply(&mut group, happening), Err(fault));
    }
}

#[test]
fn begins_with_sound_settings_and_names_apart(rt: HostRuntime) {
    let twice = [settings(1), settings(2), settings(1)];
    same(
        &rt,
        Group::new(rt.alloc(), &twice, 8).err(),
        Some(GroupFault::SameName),
    );
    let mut odd = [settings(1), settings(2)];
    odd[1].suspect = 0;
    let unsound = GroupFault::Unsound(SettingsFault::Suspect);
    same(&rt, Group::new(rt.alloc(), &odd, 8).err(), Some(unsound));
    holds(&rt, Group::new(rt.alloc(), &[], 8).is_ok());
}

/// The first number of a node's life.
fn first(group: &Nodes, node: usize) -> Option<u64> {
    let seat = group.seats().get(node)?;
    seat.node.as_ref().map(|node| node.first())
}

/// The own number and the rows held for alive that a node shows.
fn shown(group: &Nodes, node: usize) -> Option<(u64, usize)> {
    let seat = group.seats().get(node)?;
    let status = seat.node.as_ref()?.status();
    Some((status.number, status.alive))
}

#[test]
fn a_node_crashes_and_is_opened_anew(rt: HostRuntime) {
    let both = [settings(1), settings(2)];
    let mut group = Nodes::new(rt.alloc(), &both, 8, 8)
        .ok()
        .expect(&rt, "memory");
    same(&rt, shown(&group, 1), Some((1, 0)));
    holds(
        &rt,
        group.step(1, Event::Join { peer: endpoint(1) }).is_ok(),
    );
    holds(&rt, group.deliver(0, 0).is_ok());
    same(&rt, shown(&group, 0), Some((1, 1)));
    let born = first(&group, 1);
    for choice in [Choice::Keep, Choice::Drop, Choice::Fill(7)] {
        let before = first(&group, 1);
        same(&rt, group.crash(1, choice), Ok(()));
        holds(&rt, before < first(&group, 1));
    }
    holds(&rt, born < first(&group, 1));
    // it knows nobody, and says its new number, which the other takes
    holds(
        &rt,
        group.step(1, Event::Join { peer: endpoint(1) }).is_ok(),
    );
    let last = group.kept().len();
    holds(&rt, last > 0);
    holds(&rt, group.deliver(0, last - 1).is_ok());
    same(&rt, shown(&group, 0), Some((1, 1)));
}

#[test]
fn nodes_refuse(rt: HostRuntime) {
    let both = [settings(1), settings(2)];
    let mut group = Nodes::new(rt.alloc(), &both, 1, 8)
        .ok()
        .expect(&rt, "memory");
    same(
        &rt,
        group.step(2, Event::Leave).err(),
        Some(NodesFault::NoNode),
    );
    same(&rt, group.deliver(0, 0).err(), Some(NodesFault::NoDatagram));
    same(&rt, group.crash(2, Choice::Keep), Err(NodesFault::NoNode));
    holds(&rt, group.step(0, Event::Leave).is_ok());
    // the era has its one entry
    holds(&rt, group.step(0, Event::Leave).is_err());
    same(&rt, group.end_era(0), Ok(()));
    holds(&rt, group.step(0, Event::Leave).is_ok());
}

/// What became of the ceiling at the last event of a node, if it had any.
fn last_save(group: &Nodes, node: usize) -> Option<Save> {
    let seat = group.seats().get(node)?;
    match &seat.node {
        Some(node) if node.len() > 0 => Some(node.last().save),
        _ => None,
    }
}

/// A tick of the first node. What it sends comes to the second one, whose answers are lost. Says whether it sent anything.
fn tick(group: &mut Nodes) -> Result<bool, NodesFault> {
    let deal = Deal::from_first(0);
    group.step(0, Event::Tick { deal })?;
    let sent = group.kept().len();
    for datagram in 0..sent {
        group.deliver(1, datagram)?;
    }
    for _ in 0..group.kept().len() {
        group.lose(0)?;
    }
    Ok(sent > 0)
}

/// How many saves of a node fail, until one is done, where these failures were planned one after another.
fn saves_until_done(rt: &impl Abort, alloc: Global, planned: &[Failure]) -> u32 {
    let both = [settings(1), settings(2)];
    let mut group = Nodes::new(alloc, &both, 1000, 8).ok().expect(rt, "memory");
    holds(rt, group.step(1, Event::Join { peer: endpoint(1) }).is_ok());
    holds(rt, group.deliver(0, 0).is_ok());
    for failure in planned {
        same(rt, group.plan_failure(1, *failure), Ok(()));
    }
    // who is suspected wants to save a greater number, again and again until it has
    let mut failed = 0_u32;
    for _ in 0..40 {
        let has_sent = tick(&mut group).ok().expect(rt, "a tick");
        match last_save(&group, 1) {
            Some(Save::Failed) if has_sent => failed = failed.saturating_add(1),
            Some(Save::Done) if has_sent => return failed,
            _ => {}
        }
    }
    u32::MAX
}

#[test]
fn the_last_plan_counts_and_fails_once(rt: HostRuntime) {
    let [sync, write, late] = [Failure::Sync(1), Failure::Write(1), Failure::Sync(100)];
    for (planned, failed) in [
        ([late, sync], 1_u32),
        ([late, write], 1),
        ([write, sync], 1),
        ([sync, write], 1),
        ([write, late], 0),
    ] {
        same(&rt, saves_until_done(&rt, rt.alloc(), &planned), failed);
    }
}

#[test]
fn who_is_not_there_has_no_plan(rt: HostRuntime) {
    let mut group = Nodes::new(rt.alloc(), &[settings(1)], 8, 8)
        .ok()
        .expect(&rt, "memory");
    same(
        &rt,
        group.plan_failure(1, Failure::Sync(1)),
        Err(NodesFault::NoNode),
    );
}

#[test]
fn after_a_crash_nothing_is_planned(rt: HostRuntime) {
    let mut group = Nodes::new(rt.alloc(), &[settings(1)], 8, 8)
        .ok()
        .expect(&rt, "memory");
    let born = first(&group, 0);
    for failure in [
        Failure::Read(1),
        Failure::Write(1),
        Failure::TornWrite(1),
        Failure::Sync(1),
    ] {
        same(&rt, group.plan_failure(0, failure), Ok(()));
        same(&rt, group.crash(0, Choice::Keep), Ok(()));
    }
    holds(&rt, born < first(&group, 0));
}

/// A datagram of 10.0.0.`sender`:7000 that says this.
fn says(sender: u32, update: &Update) -> Datagram
    requires { sender < 200 }
{
    let mut datagram = Out::default().datagram;
    datagram.sender = endpoint(sender);
    datagram.updates.push(*update);
    datagram
}

/// What the checker answers to it, if it breaks the law so.
fn answer(update: &Update, breach: Option<Breach>) -> Result<(), CheckFault> {
    match breach {
        None => Ok(()),
        Some(breach) => Err(CheckFault::Broken(*update, breach)),
    }
}

#[test]
fn checks(rt: HostRuntime) {
    // who says of whom which number; and how that breaks the law
    let rows = [
        (1, 1, 3, None),
        (2, 1, 3, None),
        (2, 1, 4, Some(Breach::Passed)),
        (2, 1, 2, Some(Breach::Invented)),
        (2, 3, 1, Some(Breach::Passed)),
        (1, 1, 5, None),
        (2, 1, 4, Some(Breach::Invented)),
        (2, 1, 5, None),
        (3, 1, 3, None),
        (1, 1, 4, Some(Breach::WentBack)),
        (1, 1, 5, None),
    ];
    let mut checker = Checker::new(rt.alloc());
    for (sender, about, number, breach) in rows {
        let update = Update {
            kind: UpdateKind::Alive,
            who: endpoint(about % 200),
            number,
        };
        let datagram = says(sender % 200, &update);
        same_at(
            &rt,
            &(sender, about, number),
            checker.check(&datagram),
            answer(&update, breach),
        );
    }
}
