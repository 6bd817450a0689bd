//! Turns of a member.

ghost use Rattle.std.specs.Prelude.{◌≡◌, ◌≤◌, ◌<◌, ℕ, length, take, All};
ghost use Rattle.swim_wire.specs.declared.datagram.TheConstants.{DATAGRAM_MAX};
ghost use Rattle.swim_wire.specs.Spelling.{HasText, Spells};
ghost use Rattle.swim_bench.specs.Texts.{BeginsWithText};
ghost use Rattle.swim_member.specs.declared.answer.TheConstants.{OUTS_MAX};

use crate::codec::write;
use crate::scene::{deal, make_newer, member_after, received};
use swim_member::{Answer, Event, Member, Out};
use swim_wire::Datagram;

/// Writes the datagrams over the first bytes, one after the other, and answers how many there are.
pub(crate) fn write_all(outs: &[Out], out: &mut [u8]) -> usize
    requires texts { All (λ o. HasText o.datagram) outs.now }
    requires room { DATAGRAM_MAX ≤ length out.old }
    ensures count { result ≡ length outs.now }
    ensures text { 0 < result → BeginsWithText out.new }
    ensures kept { result ≡ 0 → out.new ≡ out.old }
{
    for sent in outs {
        write(&sent.datagram, out);
    }
    outs.len()
}

/// One step, in which no number is granted above the own one, and what it sends. Its places are lent, as a node lends them.
#[inline(always)]
fn turn_of(
    member: &mut Member,
    event: &Event,
    read: &mut Datagram,
    answer: &mut Answer,
    out: &mut [u8],
) -> usize
    requires { DATAGRAM_MAX ≤ length out.old }
    ensures few { result ≤ OUTS_MAX }
    ensures text { 0 < result → BeginsWithText out.new }
    ensures kept { result ≡ 0 → out.new ≡ out.old }
{
    answer.clear();
    let granted = member.number();
    let judged = member.judge(event, read);
    member.act(event, judged, read, granted, answer);
    write_all(answer.outs.as_slice(), out)
}

/// Answers the same ping in each turn, and answers how many datagrams were sent. The last one's text
/// stands in `out`.
#[unsafe(no_mangle)]
pub extern "C" fn swim_bench_pings(before: &[u8], text: &[u8], turns: u32, out: &mut [u8]) -> u64
    requires { DATAGRAM_MAX ≤ length out.old }
    ensures text { 0 < result → BeginsWithText out.new }
{
    let Some(mut member) = member_after(before, 1000) else {
        return 0;
    };
    let event = received(text);
    let mut read = Datagram::default();
    let mut answer = Answer::nothing();
    let mut sent = 0;
    for _ in 0..turns {
        sent += turn_of(&mut member, &event, &mut read, &mut answer, out) as u64;
    }
    sent
}

/// The same with pings whose updates are newer in each turn.
#[unsafe(no_mangle)]
pub extern "C" fn swim_bench_newer_pings(
    before: &[u8],
    text: &mut [u8],
    turns: u32,
    out: &mut [u8],
) -> u64
    requires ping { DATAGRAM_MAX ≤ length text.old }
    requires room { DATAGRAM_MAX ≤ length out.old }
    ensures text { 0 < result → BeginsWithText out.new }
{
    let Some(mut member) = member_after(before, 1000) else {
        return 0;
    };
    let mut read = Datagram::default();
    let mut answer = Answer::nothing();
    let mut sent = 0;
    for turn in 0..turns {
        make_newer(text, turn);
        sent += turn_of(&mut member, &received(text), &mut read, &mut answer, out) as u64;
    }
    sent
}

/// The same with ticks, of which one in so many begins a probe.
#[unsafe(no_mangle)]
pub extern "C" fn swim_bench_ticks(before: &[u8], period: u64, turns: u32, out: &mut [u8]) -> u64
    requires { DATAGRAM_MAX ≤ length out.old }
    ensures text { 0 < result → BeginsWithText out.new }
{
    let Some(mut member) = member_after(before, period) else {
        return 0;
    };
    let event = Event::Tick { deal: deal() };
    let mut read = Datagram::default();
    let mut answer = Answer::nothing();
    let mut sent = 0;
    for _ in 0..turns {
        sent += turn_of(&mut member, &event, &mut read, &mut answer, out) as u64;
    }
    sent
}
