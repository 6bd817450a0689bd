//! Making a state file, opening a member on one, and closing it.

ghost use Rattle.std.specs.Prelude.{◌≡◌, ◌≢◌, ◌≤◌, ◌⊎◌, [], IfErr, IfOk, IsErrOf, OnOk, Some, None};
ghost use Rattle.swim_disk.specs.Disk.{IsSettled};
ghost use Rattle.swim_disk.specs.File.{FileView, file_state};
ghost use Rattle.swim_library.specs.Codes.{BAD_ADDRESS, CLOSED, IS_OPEN, NO_ENDPOINT, OK, code_of};
ghost use Rattle.swim_library.specs.Holding.{held};
ghost use Rattle.swim_library.specs.Opening.{Begins, IsLoaded, OpensOn, RefusesFile, RefusesOpening};
ghost use Rattle.swim_library.specs.Outbox.{waiting_in};
ghost use Rattle.swim_library.specs.Shapes.{settings_of};
ghost use Rattle.swim_library.specs.declared.refusal.Refusal.{Refusal as Refusals};
ghost use Rattle.swim_library.specs.declared.refusal.Refusal.TheVariants as why;
ghost use Rattle.swim_library.specs.declared.running.Running.{Running};
ghost use Rattle.swim_member.specs.Checks.{AreSound};
ghost use Rattle.swim_node.specs.Lives.{MayEnd};
ghost use Rattle.swim_wire.specs.Numbers.{IsNoMembers};

use crate::changes::Told;
use crate::handle::{SwimMember, put, take};
use crate::outbox::Outbox;
use crate::refusal::{Refusal, code};
use crate::running::Running;
use crate::seeking::Seeking;
use crate::shapes::SwimSettings;
use arrayvec::ArrayVec;
use os::{FromRawFd, duplicate};
use std::alloc::Global;
use std::io::ErrorKind;
use std::os::fd::OwnedFd;
use swim_disk::FileDisk;
use swim_member::{Deal, Event, Settings};
use swim_node::Node;
use swim_state::{Owner, init};

/// A disk over the file of a descriptor, which stays its owner's to close.
fn disk_of(alloc: Global, fd: i32) -> Result<FileDisk, Refusal>
    ensures loaded { IfOk result IsLoaded }
    ensures none { IfErr result (λ refusal. (refusal ≡ why.NoMemory) ⊎ (refusal ≡ why.File)) }
{
    let own = duplicate(fd);
    if own < 0 {
        return Err(Refusal::File);
    }
    let own = unsafe { OwnedFd::from_raw_fd(own) };
    match FileDisk::load_descriptor(alloc, own) {
        Ok(disk) => Ok(disk),
        Err(error) if error.kind() == ErrorKind::OutOfMemory => Err(Refusal::NoMemory),
        Err(_) => Err(Refusal::File),
    }
}

fn make(alloc: Global, fd: i32, given: &SwimSettings) -> Result<(), Refusal>
    ensures sound { OnOk result (AreSound (settings_of given.now)) }
    ensures endpoint { given.now.port ≡ 0 → IsErrOf result why.NoEndpoint }
    ensures address { given.now.port ≢ 0 → IsNoMembers given.now.address
        → IsErrOf result why.Address }
{
    let settings = given.checked()?;
    let owner = Owner {
        group: settings.group,
        me: settings.me,
    };
    let mut disk = disk_of(alloc, fd)?;
    init(&mut disk, owner, 0).map_err(Refusal::Making)
}

/// A node on the file of a descriptor, whose life begins.
fn node_on(
    alloc: Global,
    fd: i32,
    settings: Settings,
    limit: u32,
) -> Result<Node<FileDisk>, Refusal>
    requires { AreSound settings }
    ensures begins { IfOk result (Begins settings limit) }
    ensures limit { IfOk result (λ node. (1 ≤ limit) × (node.base.limit ≡ limit)
        × (node.entries ≡ [])) }
    ensures refused { IfErr result (RefusesFile limit) }
{
    let disk = disk_of(alloc, fd)?;
    match Node::open(alloc, disk, settings, limit) {
        Ok(node) => {
            node.life_may_end();
            Ok(node)
        }
        Err((_, fault)) => Err(Refusal::Opening(fault)),
    }
}

/// A member on the file of a descriptor, of which nothing waits yet.
fn running_on(
    alloc: Global,
    fd: i32,
    given: &SwimSettings,
    limit: u32,
) -> Result<Box<Running>, Refusal>
    ensures opened { IfOk result (λ running. OpensOn (settings_of given.now) limit running.value) }
    ensures refused { IfErr result (RefusesOpening given.now limit) }
    ensures endpoint { given.now.port ≡ 0 → IsErrOf result why.NoEndpoint }
    ensures address { given.now.port ≢ 0 → IsNoMembers given.now.address
        → IsErrOf result why.Address }
{
    let settings = given.checked()?;
    let seeking = Seeking::of(&settings);
    let node = node_on(alloc, fd, settings, limit)?;
    let running = Running {
        node,
        outbox: Outbox::new(),
        notes: ArrayVec::new(),
        told: Told::new(),
        due: None,
        seeking,
        undealt: Event::Tick {
            deal: Deal::from_first(0),
        },
        limit,
    };
    match Box::new(alloc, running) {
        Ok(running) => Ok(running),
        Err(_) => Err(Refusal::NoMemory),
    }
}

/// Makes the state file of a member on an empty file.
#[unsafe(no_mangle)]
pub extern "C" fn swim_library_make_state(alloc: Global, fd: i32, settings: &SwimSettings) -> u32
    ensures sound { result ≡ OK → AreSound (settings_of settings.now) }
    ensures endpoint { settings.now.port ≡ 0 → result ≡ NO_ENDPOINT }
    ensures address { settings.now.port ≢ 0 → IsNoMembers settings.now.address
        → result ≡ BAD_ADDRESS }
{
    code(make(alloc, fd, settings))
}

/// Opens a member on its state file. A handle that is open already stays as it is.
#[unsafe(no_mangle)]
pub extern "C" fn swim_library_open(
    alloc: Global,
    member: &mut SwimMember,
    fd: i32,
    settings: &SwimSettings,
    limit: u32,
) -> u32
    ensures opened { result ≡ OK → (running : Running)
        × (held member.new ≡ Some running)
        × OpensOn (settings_of settings.now) limit running }
    ensures refused { result ≢ OK → held member.new ≡ held member.old }
    ensures open { held member.old ≢ None → result ≡ IS_OPEN }

    ensures says { held member.old ≡ None → result ≢ OK → (refusal : Refusals)
        × (result ≡ code_of refusal) × RefusesOpening settings.now limit refusal }
    ensures endpoint { held member.old ≡ None → settings.now.port ≡ 0 → result ≡ NO_ENDPOINT }
    ensures address { held member.old ≡ None → settings.now.port ≢ 0
        → IsNoMembers settings.now.address → result ≡ BAD_ADDRESS }
{
    if member.is_open() {
        return code(Err(Refusal::IsOpen));
    }
    match running_on(alloc, fd, settings, limit) {
        Ok(running) => {
            put(member, running);
            code(Ok(()))
        }
        Err(refusal) => code(Err(refusal)),
    }
}

/// Closes a member, and its descriptor of the state file, which stays as it is. The life may end so.
#[unsafe(no_mangle)]
pub extern "C" fn swim_library_close(member: &mut SwimMember) -> u32
    ensures shut { held member.new ≡ None }
    ensures closed { held member.old ≡ None → result ≡ CLOSED }
    ensures open { held member.old ≢ None → result ≡ OK }
    ensures ends { result ≡ OK → (running : Running) × (held member.old ≡ Some running)
        × MayEnd file_state running.node }
{
    match take(member) {
        None => code(Err(Refusal::Closed)),
        Some(running) => {
            running.node.life_may_end();
            code(Ok(()))
        }
    }
}
