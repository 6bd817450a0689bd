//! A recording, by the tables of its page, written by hand.

use crate::same::{holds, same};
use swim_member::Event;
use swim_node::{MemoryLink, Tag};
use swim_record::{EraTime, recording};
use swim_replay::{era_is_recorded, play_era};
use swim_scenes::{endpoint, opened_by_plan, ping, suspicion, update};
use swim_wire::UpdateKind;

/// A member that knows two others, and told each update once. Its era is of at most four calls: the member is suspected and
/// refutes it; a second caller joins, and its leave loses the first bye.
pub(crate) const RECORDING: &str = "recording 1
member 7 10.0.0.1:7000 3 1
times 10 3 50 6000 3 1 4
alive 10.0.0.2:7000 1 0
alive 10.0.0.3:7000 1 0
+alive 10.0.0.1:7000 1 1
+alive 10.0.0.2:7000 1 1
+alive 10.0.0.3:7000 1 1
running 1 0 1 0 1 1
sendfail 4
granted 2
recv 10.0.0.2:7000 5357494d010101000000000000000007000000010a0000021b580a0000011b5802000a0000011b580000000000000001
caller 3
join 10.0.0.4:7000
caller 3
lost 1
leave
";

/// When the era was, and how its recording begins then.
const TIME: EraTime = EraTime {
    begun: 1_795_910_399_050,
    ended: 1_795_910_401_050,
    tick: 100,
};

const TIMED: &str = "recording 2\nclock 1795910399050 1795910401050 100\n";

#[test]
fn an_era_is_written(rt: HostRuntime) {
    let (mut node, _) = opened_by_plan(rt.alloc(), 4).expect(&rt, "a node");
    let mut link = MemoryLink::new(rt.alloc(), 1);
    let second = update(UpdateKind::Alive, 2, 1).expect(&rt, "a port");
    let third = update(UpdateKind::Alive, 3, 1).expect(&rt, "a port");
    let heard = ping(1, &[second, third]).expect(&rt, "a text");
    let first = Tag { caller: 0, turn: 1 };
    holds(&rt, node.apply(&mut link, first, heard).is_ok());
    let beginning = node.beginning();
    node.rebase();
    let suspected = suspicion(1).expect(&rt, "a text");
    let peer = endpoint(4).expect(&rt, "a port");
    for (caller, turn, lose, event) in [
        (0, 1, 0, Event::SendFailed { count: 4 }),
        (0, 2, 0, suspected),
        (3, 1, 0, Event::Join { peer }),
        (3, 2, 1, Event::Leave),
    ] {
        holds(&rt, caller < 16);
        if lose > 0 {
            link.lose(lose);
        }
        holds(
            &rt,
            node.apply(&mut link, Tag { caller, turn }, event).is_ok(),
        );
    }
    let text = recording(rt.alloc(), None, &beginning, node.journal())
        .ok()
        .expect(&rt, "memory");
    same(&rt, text.as_str(), RECORDING);
    let text = recording(rt.alloc(), Some(TIME), &beginning, node.journal())
        .ok()
        .expect(&rt, "memory");
    same(
        &rt,
        text.as_str().strip_prefix(TIMED),
        RECORDING.strip_prefix("recording 1\n"),
    );
    era_is_recorded(&node, &beginning);
    for time in [None, Some(TIME)] {
        let played = play_era(rt.alloc(), time, &node, &beginning)
            .ok()
            .expect(&rt, "an era");
        same(&rt, played.journal().len(), node.len());
    }
}
