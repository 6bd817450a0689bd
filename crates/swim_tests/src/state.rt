//! State files byte by byte, their faults, and every call that may fail or be cut short by a crash.

ghost use Rattle.std.specs.Prelude.{◌≡◌};

use crate::same::{given, holds, holds_at, prints, same, same_at};
use std::alloc::Global;
use std::fs;
use std::process::Abort;
use std::test::Fail;
use swim_disk::{Choice, Disk, DiskFault, FaultDisk, FileDisk, MemDisk, Plan};
use swim_scenes::Device;
use swim_state::{
    InitFault, Owner, Peers, Reading, RecoverFault, SPARE_MAX, SaveFault, Saved, Slots, init,
    recover, slots_in,
};
use swim_wire::{Endpoint, NUMBER_MAX};

/// The member of group 7 at 10.0.0.LAST:7000.
fn member(rt: &impl Abort, last: u32) -> Owner {
    holds(rt, last < 256);
    Owner {
        group: 7,
        me: Endpoint::new(0x0a00_0000 + last, 7000).expect(rt, "a port"),
    }
}

fn empty(rt: &impl Abort, alloc: Global) -> (Device, Plan) {
    FaultDisk::new(alloc, MemDisk::new(alloc, 1, Vec::new(alloc)))
        .ok()
        .expect(rt, "memory")
}

/// A disk after `init` with ceiling 0, and its plan.
fn made(rt: &impl Abort, alloc: Global) -> (Device, Plan) {
    let (mut disk, plan) = empty(rt, alloc);
    holds(rt, init(&mut disk, member(rt, 1), 0).is_ok());
    (disk, plan)
}

/// The number of an opening, or its fault, and the disk.
fn open(disk: Device, owner: Owner) -> (Result<u64, RecoverFault>, Device) {
    match recover(disk, owner) {
        Ok(store) => {
            let first = store.ceiling();
            (Ok(first), store.into_disk())
        }
        Err((disk, fault)) => (Err(fault), disk),
    }
}

fn crashed(rt: &impl Abort, alloc: Global, disk: Device, choice: Choice) -> Device {
    let (disk, _) = FaultDisk::new(alloc, disk.into_inner().crash(choice))
        .ok()
        .expect(rt, "memory");
    disk
}

#[test]
fn init_file(rt: HostRuntime) {
    let (disk, _) = made(&rt, rt.alloc());
    let bytes = disk.inner().bytes().expect(&rt, "memory");
    same(&rt, bytes.len(), 16_385);
    for (at, want) in [
        (
            0,
            b"SWIMSTAT\0\x01\0\0\0\0\0\0\0\x07\x0a\0\0\x01\x1b\x58".as_slice(),
        ),
        (
            4096,
            b"\0\0\0\0\0\0\0\0\xff\xff\xff\xff\xff\xff\xff\xff".as_slice(),
        ),
        (8192, b"\xa5".as_slice()),
        (16_384, b"\0".as_slice()),
    ] {
        same_at(&rt, &at, bytes.get(at..at + want.len()), Some(want));
    }
}

#[test]
fn init_refuses(rt: HostRuntime) {
    let (mut disk, _) = made(&rt, rt.alloc());
    for (ceiling, want) in [(0, InitFault::NotEmpty), (NUMBER_MAX + 1, InitFault::Range)] {
        same(&rt, init(&mut disk, member(&rt, 1), ceiling), Err(want));
    }
}

#[test]
fn refused_opens(rt: HostRuntime) -> Result<(), Fail> {
    for (at, byte, last, want) in [
        (8192, 0, 1, Err(RecoverFault::NoSlot)),
        (4103, 1, 1, Err(RecoverFault::Damaged)),
        (16_384, 0, 9, Err(RecoverFault::WrongOwner)),
        (0, 0, 1, Err(RecoverFault::NotState)),
        (9, 2, 1, Err(RecoverFault::NotState)),
        (2048, 0xa5, 1, Err(RecoverFault::NotState)),
        (2048, 0x5a, 1, Ok(1)),
        (16_384, 0, 1, Ok(1)),
    ] {
        let (mut disk, _) = made(&rt, rt.alloc());
        given(&rt, disk.write_at(at, &[byte]));
        let (got, _) = open(disk, member(&rt, last));
        same_at(&rt, &at, got, want);
    }
    Ok(())
}

/// An opening on a device that fails from its first call on, and another one after a crash.
#[test]
fn refused_open_of_a_device(rt: HostRuntime) {
    let (disk, plan) = made(&rt, rt.alloc());
    plan.halt(1);
    let (got, disk) = open(disk, member(&rt, 1));
    same(&rt, got, Err(RecoverFault::Device));
    let disk = crashed(&rt, rt.alloc(), disk, Choice::Keep);
    same(&rt, open(disk, member(&rt, 1)).0, Ok(1));
}

/// What a failed opening saved without an answer isn't used again.
#[test]
fn recovered_twice(rt: HostRuntime) {
    let (disk, plan) = made(&rt, rt.alloc());
    plan.fail_sync(3);
    let (got, disk) = open(disk, member(&rt, 1));
    same(&rt, got, Err(RecoverFault::Device));
    same(&rt, open(disk, member(&rt, 1)).0, Ok(2));
}

/// A call of a device: its letter, and its offset where it has one.
type Call = (u8, u64);

/// A disk in memory that keeps its first 32 calls.
#[derive(Drop)]
struct RecordingDisk {
    disk: MemDisk,
    calls: [Call; 32],
    count: usize,
}

impl RecordingDisk {
    fn new(alloc: Global) -> RecordingDisk {
        RecordingDisk {
            disk: MemDisk::new(alloc, 1, Vec::new(alloc)),
            calls: [(0, 0); 32],
            count: 0,
        }
    }

    fn note(&mut self, letter: u8, at: u64)
        ensures { self.new.disk ≡ self.old.disk }
    {
        if self.count < 32 {
            self.calls[self.count] = (letter, at);
            self.count += 1;
        }
    }
}

impl Disk for RecordingDisk {
    ghost use Rattle.swim_disk.specs.MemDisk.{state_of};

    ghost state = { λ r. state_of r.disk };

    ghost keeps_model = { Unit {0} };

    fn len(&mut self) -> Result<u64, DiskFault> {
        self.note(b'L', 0);
        self.disk.len()
    }

    fn read_at(&mut self, at: u64, buffer: &mut [u8]) -> Result<(), DiskFault> {
        self.note(b'R', at);
        self.disk.read_at(at, buffer)
    }

    fn write_at(&mut self, at: u64, bytes: &[u8]) -> Result<(), DiskFault> {
        self.note(b'W', at);
        self.disk.write_at(at, bytes)
    }

    fn sync(&mut self) -> Result<(), DiskFault> {
        self.note(b'S', 0);
        self.disk.sync()
    }
}

/// Whether the calls from this one on are these, and no more.
fn are_calls(disk: &RecordingDisk, from: usize, want: &[Call]) -> bool {
    disk.calls.get(from..disk.count) == Some(want)
}

/// A disk after `init` with this ceiling, whose calls are forgotten.
fn made_recorded(rt: &impl Abort, alloc: Global, ceiling: u64) -> RecordingDisk {
    let mut disk = RecordingDisk::new(alloc);
    holds(rt, init(&mut disk, member(rt, 1), ceiling).is_ok());
    disk.count = 0;
    disk
}

const INIT: [Call; 7] = [
    (b'L', 0),
    (b'W', 0),
    (b'W', 4096),
    (b'W', 16_384),
    (b'S', 0),
    (b'W', 8192),
    (b'S', 0),
];

#[test]
fn init_calls_the_device(rt: HostRuntime) -> Result<(), Fail> {
    let mut disk = RecordingDisk::new(rt.alloc());
    given(&rt, init(&mut disk, member(&rt, 1), 0));
    holds(&rt, are_calls(&disk, 0, &INIT));
    Ok(())
}

/// An opening of a file of version 1. The first eight calls are those of one that is refused.
const MIGRATION: [Call; 14] = [
    (b'S', 0),
    (b'L', 0),
    (b'R', 0),
    (b'R', 2048),
    (b'R', 8192),
    (b'R', 4096),
    (b'R', 16_384),
    (b'R', 12_288),
    (b'W', 20_480),
    (b'W', 24_576),
    (b'W', 32_768),
    (b'S', 0),
    (b'W', 2048),
    (b'S', 0),
];

/// An opening of a file of version 2, with gate B shut.
const OPENING: [Call; 13] = [
    (b'S', 0),
    (b'L', 0),
    (b'R', 0),
    (b'R', 2048),
    (b'R', 24_576),
    (b'R', 20_480),
    (b'R', 32_768),
    (b'R', 28_672),
    (b'S', 0),
    (b'W', 28_672),
    (b'S', 0),
    (b'W', 32_768),
    (b'S', 0),
];

/// A raise with both gates open and the lower ceiling in slot A.
const RAISE: [Call; 6] = [
    (b'W', 24_576),
    (b'S', 0),
    (b'W', 20_480),
    (b'S', 0),
    (b'W', 24_576),
    (b'S', 0),
];

#[test]
fn lives_call_the_device(rt: HostRuntime) -> Result<(), Fail> {
    let disk = made_recorded(&rt, rt.alloc(), 0);
    let store = recover(disk, member(&rt, 1)).ok().expect(&rt, "an opening");
    holds(&rt, are_calls(store.disk(), 0, &MIGRATION));
    let mut disk = store.into_disk();
    disk.count = 0;
    let mut store = recover(disk, member(&rt, 1)).ok().expect(&rt, "an opening");
    holds(&rt, are_calls(store.disk(), 0, &OPENING));
    holds(&rt, store.ceiling() == 2);
    given(&rt, store.raise(3, 0, &[]));
    holds(&rt, are_calls(store.disk(), 13, &RAISE));
    Ok(())
}

/// The peers of the last save come back, and an opening keeps them.
#[test]
fn peers_come_back(rt: HostRuntime) -> Result<(), Fail> {
    let (disk, _) = made(&rt, rt.alloc());
    let mut store = recover(disk, member(&rt, 1)).ok().expect(&rt, "an opening");
    holds(&rt, store.peers().as_slice().is_empty());
    holds(&rt, store.ceiling() == 1);
    let known = [member(&rt, 2).me];
    given(&rt, store.raise(2, 0, &known));
    let mut disk = store.into_disk();
    for next in 3..6 {
        disk = crashed(&rt, rt.alloc(), disk, Choice::Drop);
        let store = recover(disk, member(&rt, 1)).ok().expect(&rt, "an opening");
        same(&rt, store.ceiling(), next);
        same(&rt, store.peers().as_slice(), known.as_slice());
        disk = store.into_disk();
    }
    Ok(())
}

/// A body of version 2 that isn't good is refused behind an open gate.
#[test]
fn refused_opens_of_version_2(rt: HostRuntime) -> Result<(), Fail> {
    for (at, byte, want) in [
        (20_487, 2, Err(RecoverFault::Damaged)),
        (20_488, 9, Err(RecoverFault::Damaged)),
        (20_488, 1, Err(RecoverFault::Damaged)),
        (20_489, 1, Err(RecoverFault::Damaged)),
        (20_593, 0, Err(RecoverFault::Damaged)),
        (24_576, 0, Err(RecoverFault::NoSlot)),
        (28_672, 7, Ok(2)),
        (32_768, 0xa5, Err(RecoverFault::Damaged)),
        (4096, 7, Ok(2)),
        (2048, 0, Ok(1)),
    ] {
        let (disk, _) = made(&rt, rt.alloc());
        let (_, mut disk) = open(disk, member(&rt, 1));
        given(&rt, disk.write_at(at, &[byte]));
        let (got, _) = open(disk, member(&rt, 1));
        same_at(&rt, &at, got, want);
    }
    Ok(())
}

#[test]
fn last_number(rt: HostRuntime) {
    let disk = made_recorded(&rt, rt.alloc(), NUMBER_MAX);
    let (disk, fault) = recover(disk, member(&rt, 1)).err().expect(&rt, "a refusal");
    same(&rt, fault, RecoverFault::Exhausted);
    holds(&rt, are_calls(&disk, 0, &MIGRATION[..8]));
}

/// What goes wrong at some call of the device.
#[derive(Clone, Copy, Debug)]
enum Trouble {
    FailRead,
    FailWrite,
    TearWrite,
    FailSync,
    Halt,
}

const TROUBLES: [Trouble; 5] = [
    Trouble::FailRead,
    Trouble::FailWrite,
    Trouble::TearWrite,
    Trouble::FailSync,
    Trouble::Halt,
];

const CHOICES: [Choice; 4] = [
    Choice::Keep,
    Choice::Drop,
    Choice::Fill(0),
    Choice::Fill(0xa5),
];

impl Trouble {
    fn begin(self, plan: &Plan, k: u64) {
        match self {
            Trouble::FailRead => plan.fail_read(k),
            Trouble::FailWrite => plan.fail_write(k),
            Trouble::TearWrite => plan.tear_write(k),
            Trouble::FailSync => plan.fail_sync(k),
            Trouble::Halt => plan.halt(k),
        }
    }
}

fn slots(a: Option<u64>, b: Option<u64>) -> Slots {
    let reading = |ceiling: Option<u64>| match ceiling {
        Some(ceiling) => Reading::Holds(Saved {
            ceiling,
            peers: Peers::none(),
        }),
        None => Reading::Shut,
    };
    Slots {
        a: reading(a),
        b: reading(b),
    }
}

/// A life with number 1 raises to 2 in trouble: what a crash leaves, and the next life's number.
#[test]
fn raise_in_trouble(rt: HostRuntime) {
    for (trouble, k, choice, left, next) in [
        (Trouble::Halt, 6, Choice::Drop, slots(Some(1), Some(2)), 3),
        (
            Trouble::FailSync,
            3,
            Choice::Keep,
            slots(Some(1), Some(2)),
            3,
        ),
        (Trouble::FailSync, 3, Choice::Drop, slots(Some(1), None), 2),
        (
            Trouble::Halt,
            4,
            Choice::Fill(0xa5),
            slots(Some(1), None),
            2,
        ),
    ] {
        let (disk, plan) = made(&rt, rt.alloc());
        let mut store = recover(disk, member(&rt, 1)).ok().expect(&rt, "an opening");
        trouble.begin(&plan, k);
        holds(&rt, store.ceiling() == 1);
        let raised = store.raise(2, 0, &[]);
        same(&rt, raised.is_ok(), k == 6);
        let disk = crashed(&rt, rt.alloc(), store.into_disk(), choice);
        let bytes = disk.inner().bytes().expect(&rt, "memory");
        same_at(&rt, &trouble, slots_in(&bytes), left);
        same_at(&rt, &trouble, open(disk, member(&rt, 1)).0, Ok(next));
    }
}

/// A raise that failed is tried again: the ceiling stands until then.
#[test]
fn raise_again(rt: HostRuntime) {
    let (disk, plan) = made(&rt, rt.alloc());
    let mut store = recover(disk, member(&rt, 1)).ok().expect(&rt, "an opening");
    plan.fail_write(2);
    for want in [Err(SaveFault::Device), Ok(())] {
        holds(&rt, store.ceiling() == 1);
        same(&rt, store.raise(2, 0, &[]), want);
    }
    same(&rt, store.ceiling(), 2);
}

/// One save reserves more numbers than it is asked for, and the next opening is above them all.
#[test]
fn raise_reserves(rt: HostRuntime) {
    let (disk, _) = made(&rt, rt.alloc());
    let mut store = recover(disk, member(&rt, 1)).ok().expect(&rt, "an opening");
    holds(&rt, store.ceiling() == 1);
    same(&rt, store.raise(2, 3, &[]), Ok(()));
    same(&rt, store.ceiling(), 5);
    let disk = crashed(&rt, rt.alloc(), store.into_disk(), Choice::Drop);
    let bytes = disk.inner().bytes().expect(&rt, "memory");
    same(&rt, slots_in(&bytes), slots(Some(1), Some(5)));
    same(&rt, open(disk, member(&rt, 1)).0, Ok(6));
}

/// As many numbers are reserved as there are.
#[test]
fn raise_reserves_the_last(rt: HostRuntime) {
    let (mut disk, _) = empty(&rt, rt.alloc());
    holds(&rt, init(&mut disk, member(&rt, 1), NUMBER_MAX - 3).is_ok());
    let mut store = recover(disk, member(&rt, 1)).ok().expect(&rt, "an opening");
    holds(&rt, store.ceiling() == NUMBER_MAX - 2);
    same(&rt, store.raise(NUMBER_MAX - 1, SPARE_MAX, &[]), Ok(()));
    same(&rt, store.ceiling(), NUMBER_MAX);
    let (got, _) = open(store.into_disk(), member(&rt, 1));
    same(&rt, got, Err(RecoverFault::Exhausted));
}

/// What a raise that failed reserved is the ceiling of the next one, which writes nothing.
#[test]
fn raise_finds_what_it_reserved(rt: HostRuntime) {
    let (disk, plan) = made(&rt, rt.alloc());
    let mut store = recover(disk, member(&rt, 1)).ok().expect(&rt, "an opening");
    plan.fail_sync(3);
    holds(&rt, store.ceiling() == 1);
    same(&rt, store.raise(2, 3, &[]), Err(SaveFault::Device));
    plan.fail_write(1);
    holds(&rt, store.ceiling() == 1);
    same(&rt, store.raise(2, 0, &[]), Ok(()));
    same(&rt, store.ceiling(), 5);
}

/// The greatest ceiling that an opening and a raise with spare granted, which is tried twice, or 0; and
/// the disk.
fn granted(disk: Device, owner: Owner) -> (u64, Device) {
    match recover(disk, owner) {
        Ok(mut store) => {
            let first = store.ceiling();
            if first < NUMBER_MAX && store.raise(first + 1, SPARE_MAX, &[]).is_err() {
                let _ = store.raise(first + 1, SPARE_MAX, &[]);
            }
            (store.ceiling(), store.into_disk())
        }
        Err((disk, _)) => (0, disk),
    }
}

/// Each of the 19 calls of an opening and a raise fails, or is torn, or is the first that fails: the
/// next life's number is above every ceiling that was granted.
#[test]
fn numbers_rise_whatever_fails(rt: HostRuntime) {
    for trouble in TROUBLES {
        for choice in CHOICES {
            for k in 1..=20_u64 {
                let (disk, plan) = made(&rt, rt.alloc());
                trouble.begin(&plan, k);
                let (most, disk) = granted(disk, member(&rt, 1));
                let disk = crashed(&rt, rt.alloc(), disk, choice);
                let (next, _) = open(disk, member(&rt, 1));
                let is_above = next.is_ok_and(|next| next > most);
                holds_at(&rt, &(trouble, k, choice), is_above);
            }
        }
    }
}

/// A file of version 1, with ceilings 6 and 7, byte by byte as a program made it that knew no other
/// version. The bytes between these parts are zero.
fn old_file(rt: &impl Abort, alloc: Global) -> (Device, Plan) {
    let (mut disk, plan) = empty(rt, alloc);
    for (at, part) in [
        (
            0,
            b"SWIMSTAT\0\x01\0\0\0\0\0\0\0\x07\x0a\0\0\x01\x1b\x58".as_slice(),
        ),
        (
            4096,
            b"\0\0\0\0\0\0\0\x06\xff\xff\xff\xff\xff\xff\xff\xf9".as_slice(),
        ),
        (8192, b"\xa5".as_slice()),
        (
            12_288,
            b"\0\0\0\0\0\0\0\x07\xff\xff\xff\xff\xff\xff\xff\xf8".as_slice(),
        ),
        (16_384, b"\xa5".as_slice()),
    ] {
        holds(rt, disk.write_at(at, part).is_ok());
    }
    holds(rt, disk.sync().is_ok());
    (disk, plan)
}

/// What becomes of a disk whose process is killed, or whose machine goes down.
fn ended(rt: &impl Abort, alloc: Global, disk: Device, choice: Option<Choice>) -> Device {
    match choice {
        Some(choice) => crashed(rt, alloc, disk, choice),
        None => {
            let (disk, _) = FaultDisk::new(alloc, disk.into_inner())
                .ok()
                .expect(rt, "memory");
            disk
        }
    }
}

/// Each of the 14 calls that open an old file fails, or is torn, or is the first that fails: the next
/// number is above all that the file had, and above the one that was granted.
#[test]
fn old_file_in_trouble(rt: HostRuntime) {
    for trouble in TROUBLES {
        for end in [
            None,
            Some(Choice::Keep),
            Some(Choice::Drop),
            Some(Choice::Fill(0)),
            Some(Choice::Fill(0xa5)),
        ] {
            for k in 1..=15_u64 {
                let (disk, plan) = old_file(&rt, rt.alloc());
                trouble.begin(&plan, k);
                let (got, disk) = open(disk, member(&rt, 1));
                let most = got.unwrap_or(7);
                let disk = ended(&rt, rt.alloc(), disk, end);
                let (next, _) = open(disk, member(&rt, 1));
                holds_at(&rt, &(trouble, k, end), next.is_ok_and(|next| next > most));
            }
        }
    }
}

/// Each of the seven calls of `init` fails, or is torn, or is the first that fails: what a crash leaves
/// opens with the first number or not at all, and with the first number where `init` succeeded.
#[test]
fn init_fails_at_each_call(rt: HostRuntime) {
    for trouble in TROUBLES {
        for choice in CHOICES {
            for k in 1..=8_u64 {
                let (mut disk, plan) = empty(&rt, rt.alloc());
                trouble.begin(&plan, k);
                let made = init(&mut disk, member(&rt, 1), 0);
                let disk = crashed(&rt, rt.alloc(), disk, choice);
                let (got, _) = open(disk, member(&rt, 1));
                let is_first = got == Ok(1) || (made.is_err() && got.is_err());
                holds_at(&rt, &(trouble, k, choice), is_first);
            }
        }
    }
}

/// The state file on a real disk: made, opened, raised, and opened again.
#[test]
fn real_file(rt: HostRuntime) -> Result<(), Fail> {
    let _ = fs::remove_file(&rt, "state");
    let mut disk = given(&rt, FileDisk::create(rt.alloc(), &rt, "state"));
    given(&rt, init(&mut disk, member(&rt, 1), 0));
    for want in [1, 3] {
        let disk = given(&rt, FileDisk::open(rt.alloc(), &rt, "state"));
        let mut store = recover(disk, member(&rt, 1)).ok().expect(&rt, "an opening");
        holds(&rt, store.ceiling() == want);
        holds(&rt, want < NUMBER_MAX);
        given(&rt, store.raise(want + 1, 0, &[]));
    }
    given(&rt, fs::remove_file(&rt, "state"));
    Ok(())
}

#[test]
fn faults_print_number_and_name(rt: HostRuntime) {
    for (fault, want) in [
        (RecoverFault::Device, "1 Device"),
        (RecoverFault::NotState, "2 NotState"),
        (RecoverFault::WrongOwner, "3 WrongOwner"),
        (RecoverFault::NoSlot, "4 NoSlot"),
        (RecoverFault::Damaged, "5 Damaged"),
        (RecoverFault::Exhausted, "6 Exhausted"),
    ] {
        prints(&rt, &fault, want);
    }
    for (fault, want) in [
        (InitFault::NotEmpty, "1 NotEmpty"),
        (InitFault::Device, "2 Device"),
        (InitFault::Range, "3 Range"),
    ] {
        prints(&rt, &fault, want);
    }
    for (fault, want) in [
        (SaveFault::Device, "1 Device"),
        (SaveFault::Changed, "2 Changed"),
        (SaveFault::Exhausted, "3 Exhausted"),
    ] {
        prints(&rt, &fault, want);
    }
}
