//! Turns of a node over a disk in memory: calls that plan, step, send and are journaled.

ghost use Rattle.std.specs.Prelude.{◌≡◌, ◌≤◌, ◌<◌, ◌++◌, ◌∷◌, [], length, take, All, true, false};
ghost use Rattle.swim_node.specs.Sending.{HasTexts};
ghost use Rattle.swim_node.specs.declared.entry.Entry.{Entry as Entries};
ghost use Rattle.swim_wire.specs.declared.datagram.TheConstants.{DATAGRAM_MAX};
ghost use Rattle.swim_bench.specs.declared.node.TheConstants.{SHOWN};

use crate::scene::{GROUP, ME, deal, endpoint, make_newer, received, settings_of};
use crate::steps::write_all;
use byteorder::{BigEndian, ByteOrder};
use std::alloc::Global;
use std::mem;
use swim_disk::MemDisk;
use swim_member::Event;
use swim_node::{Entry, Link, LinkFault, Node, Save};
use swim_state::{Owner, init};
use swim_wire::{DATAGRAM_MAX, Endpoint};

/// The bytes in which a run shows its last entry: three datagrams and sixteen numbers.
const SHOWN: usize = 1664;

/// A link that keeps the bytes of the datagram that it took last, and sends nothing.
#[derive(Drop)]
struct LastLink {
    bytes: [u8; DATAGRAM_MAX],
}

impl LastLink {
    fn new() -> LastLink {
        LastLink {
            bytes: [0; DATAGRAM_MAX],
        }
    }
}

impl Link for LastLink {
    ghost use Rattle.std.specs.Prelude.{[]};
    ghost use Rattle.swim_node.specs.Link.{link_number};

    ghost name = { λ _. link_number 0 };

    ghost tells = { ⊥ };

    ghost took = { λ _. [] };

    ghost failures = { λ _. 0 };

    fn send(&mut self, to: Endpoint, bytes: &[u8]) -> Result<(), LinkFault> {
        let _ = to;
        copy(bytes, &mut self.bytes);
        Ok(())
    }
}

/// Copies bytes over the first ones, as far as there is room.
fn copy(bytes: &[u8], out: &mut [u8])
    ensures length { length out.new ≡ length out.old }
    ensures copied { length bytes.now ≤ length out.old
        → take (length bytes.now) out.new ≡ bytes.now }
{
    let len = bytes.len().min(out.len());
    out[..len].copy_from_slice(&bytes[..len]);
}

/// A node whose member probes once in so many ticks, and whose eras have so many entries. None where no member has
/// such a period, no era so many entries, or there is no memory.
fn opened(alloc: Global, period: u64, era: u32) -> Option<Node<MemDisk>> {
    let settings = settings_of(period)?;
    let owner = Owner {
        group: GROUP,
        me: endpoint(ME),
    };
    let mut disk = MemDisk::new(alloc, 1, Vec::new(alloc));
    init(&mut disk, owner, 0).ok()?;
    Node::open(alloc, disk, settings, era).ok()
}

/// One call. Whether it was entered.
fn call(node: &mut Node<MemDisk>, link: &mut LastLink, event: Event) -> bool
    ensures journaled { result ≡ true → (e : Entries) × (e.event ≡ event)
        × (node.new.entries ≡ node.old.entries ++ e ∷ []) }
    ensures refused { result ≡ false → node.new ≡ node.old }
{
    let tag = node.next_tag(0);
    node.apply(link, tag, event).is_ok()
}

/// Begins the next era if this one has so many entries.
fn end_era_of(node: &mut Node<MemDisk>, era: u32)
    ensures { 0 < era → length node.new.entries < era }
{
    if node.len() >= era as usize {
        node.rebase();
    }
}

/// Fills an era with texts that are no datagrams, and begins the next, whose memory has then been written.
fn fill_era(node: &mut Node<MemDisk>, link: &mut LastLink, era: u32) {
    node.rebase();
    for _ in 0..era {
        call(node, link, received(&[]));
    }
    node.rebase();
}

/// The same node after it has received the texts, each of 512 bytes.
fn node_after(alloc: Global, texts: &[u8], period: u64, era: u32) -> Option<Node<MemDisk>> {
    let mut node = opened(alloc, period, era)?;
    let mut link = LastLink::new();
    for text in texts.chunks_exact(DATAGRAM_MAX) {
        call(&mut node, &mut link, received(text));
        end_era_of(&mut node, era);
    }
    fill_era(&mut node, &mut link, era);
    Some(node)
}

/// Where the event of an entry came from, or the first number of its deal.
fn source_of(entry: &Entry) -> u32 {
    match &entry.event {
        Event::Datagram { from, .. } => from.address(),
        Event::Tick { deal } => u32::from(deal.numbers()[0]),
        _ => 0,
    }
}

/// Where the last datagram of an entry went, or 0.
fn target_of(entry: &Entry) -> u32 {
    match entry.outs.as_slice().last() {
        Some(sent) => sent.to.address(),
        None => 0,
    }
}

/// The numbers of an entry.
fn numbers_of(entry: &Entry) -> [u64; 16] {
    let status = entry.reply.status;
    [
        entry.tag.turn as u64,
        entry.granted,
        u64::from(entry.save == Save::Kept),
        status.number,
        status.alive as u64,
        status.suspect as u64,
        status.confirmed as u64,
        status.length as u64,
        entry.outs.len() as u64,
        entry.outcomes.len() as u64,
        entry.reply.sent as u64,
        entry.reply.lost as u64,
        entry.reply.notes.len() as u64,
        entry.reply.page.len() as u64,
        source_of(entry) as u64,
        target_of(entry) as u64,
    ]
}

/// Writes an entry: the last datagram that it has, the received bytes, and the numbers.
fn write_entry(entry: &Entry, out: &mut [u8])
    requires texts { HasTexts entry.now }
    requires room { SHOWN ≤ length out.old }
{
    write_all(entry.outs.as_slice(), out);
    if let Event::Datagram { bytes, .. } = &entry.event {
        copy(bytes, &mut out[512..1024]);
    }
    let numbers = numbers_of(entry);
    for (part, number) in out[1536..].chunks_exact_mut(8).zip(&numbers) {
        BigEndian::write_u64(part, *number);
    }
}

/// Writes the last entry, and after the received bytes the datagram that the link took last.
fn write_last(node: &Node<MemDisk>, link: &LastLink, out: &mut [u8])
    requires { SHOWN ≤ length out.old }
{
    copy(&link.bytes, &mut out[1024..1536]);
    if node.len() > 0 {
        write_entry(node.last(), out);
    }
}

/// The bytes of an entry.
#[unsafe(no_mangle)]
pub extern "C" fn swim_bench_entry_bytes() -> usize {
    mem::size_of::<Entry>()
}

/// Hands the same ping to the node in each turn, whose eras have so many entries, and answers how many calls were
/// entered. The last entry stands in `out`, if its era has not ended.
#[unsafe(no_mangle)]
pub extern "C" fn swim_bench_node_pings(
    alloc: Global,
    before: &[u8],
    text: &[u8],
    era: u32,
    turns: u32,
    out: &mut [u8],
) -> u64
    requires { SHOWN ≤ length out.old }
    ensures { result ≤ turns }
{
    let Some(mut node) = node_after(alloc, before, 1000, era) else {
        return 0;
    };
    let mut link = LastLink::new();
    let mut entered = 0;
    for _ in 0..turns {
        if call(&mut node, &mut link, received(text)) {
            entered += 1;
        }
        end_era_of(&mut node, era);
    }
    write_last(&node, &link, out);
    entered
}

/// The same with pings whose updates are newer in each turn.
#[unsafe(no_mangle)]
pub extern "C" fn swim_bench_node_newer_pings(
    alloc: Global,
    before: &[u8],
    text: &mut [u8],
    era: u32,
    turns: u32,
    out: &mut [u8],
) -> u64
    requires ping { DATAGRAM_MAX ≤ length text.old }
    requires room { SHOWN ≤ length out.old }
    ensures { result ≤ turns }
{
    let Some(mut node) = node_after(alloc, before, 1000, era) else {
        return 0;
    };
    let mut link = LastLink::new();
    let mut entered = 0;
    for turn in 0..turns {
        make_newer(text, turn);
        if call(&mut node, &mut link, received(text)) {
            entered += 1;
        }
        end_era_of(&mut node, era);
    }
    write_last(&node, &link, out);
    entered
}

/// The same with ticks, of which one in so many begins a probe.
#[unsafe(no_mangle)]
pub extern "C" fn swim_bench_node_ticks(
    alloc: Global,
    before: &[u8],
    period: u64,
    era: u32,
    turns: u32,
    out: &mut [u8],
) -> u64
    requires { SHOWN ≤ length out.old }
    ensures { result ≤ turns }
{
    let Some(mut node) = node_after(alloc, before, period, era) else {
        return 0;
    };
    let mut link = LastLink::new();
    let mut entered = 0;
    let deal = deal();
    for _ in 0..turns {
        if call(&mut node, &mut link, Event::Tick { deal }) {
            entered += 1;
        }
        end_era_of(&mut node, era);
    }
    write_last(&node, &link, out);
    entered
}
