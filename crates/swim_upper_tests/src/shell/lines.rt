//! Control lines by their bytes.

use super::fakes::{Goes, MOST, Pieces, Said, Scripted, ShownStatus, Slow};
use crate::same::same;
use arrayvec::ArrayString;
use std::io::ErrorKind;
use std::test::Fail;
use swim_member::Phase;
use swim_shell::{ControlEnd, Conversation, Refusal, run};

/// A conversation: its input, what the calls tell, what it must answer, and how it must end.
#[derive(Clone, Copy)]
struct Talk {
    input: &'static [u8],
    script: &'static [Said],
    output: &'static [u8],
    end: ControlEnd,
}

/// The longest answer to `counters`, and that to `status`.
const COUNTED: &[u8] = b"ok 30
eras 18446744073709551615
number_saves 18446744073709551615
peer_saves 18446744073709551615
peer_saves_failed 18446744073709551615
entries 18446744073709551615
ticks 18446744073709551615
joins 18446744073709551615
datagrams_received 18446744073709551615
receive_failures 18446744073709551615
datagrams_sent 18446744073709551615
datagrams_lost 18446744073709551615
refutations 18446744073709551615
BadDatagram 18446744073709551615
OtherGroup 18446744073709551615
NotSender 18446744073709551615
FromSelf 18446744073709551615
Leap 18446744073709551615
NoNumberLeft 18446744073709551615
TableFull 18446744073709551615
Misdirected 18446744073709551615
RelaysFull 18446744073709551615
UnknownTarget 18446744073709551615
Unasked 18446744073709551615
SaveFailed 18446744073709551615
Expelled 18446744073709551615
Stopped 18446744073709551615
ReceiveFailed 18446744073709551615
SendFailed 18446744073709551615
TimeOver 18446744073709551615
OtherVersion 18446744073709551615
ok running number 1 alive 3 suspect 1 confirmed 2 length 0
";

/// In an era of three calls.
const TALKS: [Talk; 13] = [
    Talk {
        input: b"status\nsta",
        script: &[],
        output: b"ok running number 1 alive 3 suspect 1 confirmed 2 length 0\n",
        end: ControlEnd::Closed,
    },
    Talk {
        input: b"members\nstatus\nmembers 10.0.0.3:7000\n",
        script: &[Said::Member(4)],
        output: b"ok 1\nalive 10.0.0.3:7000 4\nok running number 1 alive 3 suspect 1 confirmed 2 length 1\nok 0\n",
        end: ControlEnd::Closed,
    },
    Talk {
        input: b"frob\nmembers x\njoin 10.0.0.2\njoin 10.0.0.1:7000\njoin 10.0.0.2:7000\njoin 10.0.0.2:7000\n",
        script: &[Said::ToItself, Said::Done, Said::Lost],
        output: b"error 1 unknown\nerror 2 address\nerror 2 address\nerror 7 self\nok sent\nok lost\n",
        end: ControlEnd::Closed,
    },
    Talk {
        input: b"0123456789012345678901234567890123456789012345678901234567890123\n01234567890123456789012345678901234567890123456789012345678901234\n",
        script: &[],
        output: b"error 1 unknown\nerror 3 too long\n",
        end: ControlEnd::Closed,
    },
    Talk {
        input: b"leave\nleave\njoin 10.0.0.2:7000\n",
        script: &[Said::Done, Said::Stopped, Said::Stopped],
        output: b"ok left\nok stopped\nok stopped\n",
        end: ControlEnd::Closed,
    },
    Talk {
        input: b"leave\nleave\nleave\nleave\nstatus\n",
        script: &[],
        output: b"ok left\nok left\nok left\nerror 5 era full\n",
        end: ControlEnd::Refused(Refusal::EraFull),
    },
    Talk {
        input: b"leave\nleave\nleave\n",
        script: &[Said::NoMemory, Said::Unread],
        output: b"error 4 memory\nerror 6 unread\n",
        end: ControlEnd::Refused(Refusal::Unread),
    },
    Talk {
        input: b"stop\nstatus\n",
        script: &[],
        output: b"ok stopping\n",
        end: ControlEnd::Asked,
    },
    Talk {
        input: b"counters\nstatus\n",
        script: &[],
        output: COUNTED,
        end: ControlEnd::Closed,
    },
    Talk {
        input: b"about\nabouts\n",
        script: &[],
        output: b"ok member 10.0.0.1:7000 group 7 rules 2 version 0.1.0 uptime 3661 listed 2 alone no\nerror 1 unknown\n",
        end: ControlEnd::Closed,
    },
    Talk {
        input: b"leave\nabout\nleave\nabout\n",
        script: &[Said::Done, Said::Unread],
        output: b"ok left\nok member 10.0.0.1:7000 group 7 rules 2 version 0.1.0 uptime 3661 listed 2 alone no\nerror 6 unread\n",
        end: ControlEnd::Refused(Refusal::Unread),
    },
    Talk {
        input: b"reload\nstatus\n",
        script: &[],
        output: b"",
        end: ControlEnd::Reloading,
    },
    Talk {
        input: b"",
        script: &[],
        output: b"",
        end: ControlEnd::Closed,
    },
];

/// The errors that come before each read and write of a connection that is slow, and of which signals interrupt each.
const PAUSES: &[ErrorKind] = &[ErrorKind::Interrupted, ErrorKind::WouldBlock];

/// Each line is answered by these bytes, however the connection takes them apart.
#[test]
fn control_lines(rt: HostRuntime) -> Result<(), Fail> {
    for (size, kinds) in [
        (MOST, &[] as &[ErrorKind]),
        (MOST, PAUSES),
        (7, PAUSES),
        (1, PAUSES),
    ] {
        for talk in TALKS {
            let mut reader = Pieces::new(talk.input, size, kinds);
            let mut writer = Slow::new(MOST, size, kinds);
            let mut caller = Scripted::<3>::new(talk.script);
            let mut conversation = Conversation::new(&mut reader, &mut writer);
            let end = run(
                &rt,
                &mut conversation,
                &mut caller,
                &mut Goes { left: 9999 },
            );
            same(&rt, end, Some(talk.end));
            same(&rt, writer.out(), talk.output);
        }
    }
    Ok(())
}

/// Of a member in a phase, with so many that it holds for alive and for suspected, and so many to join: whether it is alone.
const ALONE: [(Phase, usize, usize, usize, bool); 7] = [
    (Phase::Running, 0, 0, 1, true),
    (Phase::Running, 0, 0, 16, true),
    (Phase::Running, 0, 0, 0, false),
    (Phase::Running, 1, 0, 1, false),
    (Phase::Running, 0, 1, 1, false),
    (Phase::Left, 0, 0, 1, false),
    (Phase::Expelled, 0, 0, 1, false),
];

/// A member is alone that takes part, has others to join, and knows nobody.
#[test]
fn alone(rt: HostRuntime) -> Result<(), Fail> {
    for (phase, alive, suspect, listed, is_alone) in ALONE {
        let mut writer = Slow::new(MOST, MOST, &[]);
        let mut caller = Scripted::<1>::showing(ShownStatus {
            phase,
            alive,
            suspect,
            listed,
        });
        let mut conversation = Conversation::new(b"about\n".as_slice(), &mut writer);
        run(&rt, &mut conversation, &mut caller, &mut Goes { left: 9 });
        let end = if is_alone {
            b" alone yes\n".as_slice()
        } else {
            b" alone no\n".as_slice()
        };
        same(&rt, writer.out().ends_with(end), true);
    }
    Ok(())
}

/// Four lines, of which three make a call, and their answers.
const CALLS: &[u8] = b"members 10.0.0.9:7000\nleave\nfrob\nleave\n";

const REPLIES: &[u8] = b"ok 0\nok left\nerror 1 unknown\nok left\n";

/// What stands after each line, and before the first: the bytes of the lines, those of the answers, and the calls.
const STANDING: [(usize, usize, usize); 5] = [
    (0, 0, 0),
    (22, 5, 1),
    (28, 13, 2),
    (33, 29, 2),
    (39, 37, 3),
];

/// The input ends, or a read fails, after each count of bytes. A cut line makes no call, and all before it are answered.
#[test]
fn each_cut(rt: HostRuntime) -> Result<(), Fail> {
    for (fails, end) in [(false, ControlEnd::Closed), (true, ControlEnd::ReadFault)] {
        for count in 0..=39 {
            let mut whole = STANDING.iter().filter(|(read, ..)| *read <= count);
            let (_, written, calls) = whole.next_back().expect(&rt, "a line");
            let mut reader = Pieces::new(CALLS.get(..count).expect(&rt, "a cut"), MOST, &[]);
            reader.fail_at_end(fails);
            let mut writer = Slow::new(MOST, MOST, &[]);
            let mut caller = Scripted::<8>::new(&[]);
            let mut conversation = Conversation::new(&mut reader, &mut writer);
            let ended = run(&rt, &mut conversation, &mut caller, &mut Goes { left: 9 });
            same(&rt, ended, Some(end));
            same(
                &rt,
                writer.out(),
                REPLIES.get(..*written).expect(&rt, "replies"),
            );
            same(&rt, caller.calls(), *calls);
        }
    }
    Ok(())
}

/// The writes fail after each count of bytes. The line whose answer is cut has made its call, and no later one is heard.
#[test]
fn each_write_fails(rt: HostRuntime) -> Result<(), Fail> {
    for room in 0..37 {
        let mut cut = STANDING.iter().filter(|(_, written, _)| room < *written);
        let (_, _, calls) = cut.next().expect(&rt, "a line");
        let mut reader = Pieces::new(CALLS, MOST, &[]);
        let mut writer = Slow::new(room, MOST, &[]);
        let mut caller = Scripted::<8>::new(&[]);
        let mut conversation = Conversation::new(&mut reader, &mut writer);
        let ended = run(&rt, &mut conversation, &mut caller, &mut Goes { left: 9 });
        same(&rt, ended, Some(ControlEnd::WriteFault));
        same(
            &rt,
            writer.taken(),
            REPLIES.get(..room).expect(&rt, "replies"),
        );
        same(&rt, caller.calls(), *calls);
    }
    Ok(())
}

/// A line of 70 bytes, one that leaves, and one that stops.
const OVER: &[u8] =
    b"0123456789012345678901234567890123456789012345678901234567890123456789\nleave\nstop\nleave\n";

/// Each turn is an era of its own, with another caller. No byte of a line or of an answer is lost, and the end comes once
/// the last answer is written.
#[test]
fn turns_in_eras(rt: HostRuntime) -> Result<(), Fail> {
    for size in [1, 5, MOST] {
        let mut reader = Pieces::new(OVER, size, PAUSES);
        let mut writer = Slow::new(MOST, size, PAUSES);
        let mut conversation = Conversation::new(&mut reader, &mut writer);
        let mut end = None;
        let mut calls = 0u64;
        for _ in 0..400 {
            if end.is_none() {
                let mut caller = Scripted::<1>::new(&[]);
                end = run(&rt, &mut conversation, &mut caller, &mut Goes { left: 1 });
                calls = calls.wrapping_add(caller.calls() as u64);
            }
        }
        same(&rt, end, Some(ControlEnd::Asked));
        same(
            &rt,
            writer.out(),
            b"error 3 too long\nok left\nok stopping\n".as_slice(),
        );
        same(&rt, calls, 1);
    }
    Ok(())
}

/// The line `reload` ends an era once nothing is left to write, also where each turn is an era of its own. Its answer comes after that,
/// and the next line is heard then.
#[test]
fn reloads(rt: HostRuntime) -> Result<(), Fail> {
    for size in [1, 5, MOST] {
        let mut reader = Pieces::new(b"frob\nreload\nleave\n", size, PAUSES);
        let mut writer = Slow::new(MOST, size, PAUSES);
        let mut conversation = Conversation::new(&mut reader, &mut writer);
        let mut end = None;
        for _ in 0..400 {
            if end.is_none() {
                let mut caller = Scripted::<0>::new(&[]);
                end = run(&rt, &mut conversation, &mut caller, &mut Goes { left: 1 });
            }
        }
        same(&rt, end, Some(ControlEnd::Reloading));
        let mut answer = ArrayString::new();
        answer.push_str("ok reloaded\n");
        conversation.answer(answer);
        let mut caller = Scripted::<1>::new(&[]);
        let end = run(&rt, &mut conversation, &mut caller, &mut Goes { left: 999 });
        same(&rt, end, Some(ControlEnd::Closed));
        same(
            &rt,
            writer.out(),
            b"error 1 unknown\nok reloaded\nok left\n".as_slice(),
        );
    }
    Ok(())
}

/// A call that a full era refuses ends the conversation, which goes on with the next line in the next era. Where the answer
/// is not out at the era's end, the next caller writes the rest of it, and does not end for it.
#[test]
fn full_eras(rt: HostRuntime) -> Result<(), Fail> {
    for (kinds, turns, first) in [
        (
            &[] as &[ErrorKind],
            9,
            Some(ControlEnd::Refused(Refusal::EraFull)),
        ),
        (PAUSES, 3, None),
    ] {
        let mut reader = Pieces::new(b"leave\nleave\nstatus\n", MOST, &[]);
        let mut writer = Slow::new(MOST, 4, kinds);
        let mut conversation = Conversation::new(&mut reader, &mut writer);
        let mut full = Scripted::<0>::new(&[]);
        let end = run(&rt, &mut conversation, &mut full, &mut Goes { left: turns });
        same(&rt, end, first);
        let mut caller = Scripted::<1>::new(&[]);
        let end = run(&rt, &mut conversation, &mut caller, &mut Goes { left: 99 });
        same(&rt, end, Some(ControlEnd::Closed));
        same(
            &rt,
            writer.out(),
            b"error 5 era full\nok left\nok running number 1 alive 3 suspect 1 confirmed 2 length 1\n".as_slice(),
        );
    }
    Ok(())
}
