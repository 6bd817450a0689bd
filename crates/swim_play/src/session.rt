//! The lives of a script, one after another on the disks that it makes.

ghost use Rattle.std.specs.Prelude.{◌≡◌, ◌≢◌, ◌+◌, ◌<◌, ◌++◌, ◌∷◌, [], None, Some, false, true, List, map, length, vec_capacity, is_some, All, IfOk, IfSome, OnOk};
ghost use Rattle.swim_disk.specs.Fault.{inner_of};
ghost use Rattle.swim_script.specs.Patches.{IsPatched};
ghost use Rattle.swim_node.specs.Node.{owner_of};
ghost use Rattle.swim_node.specs.Sending.{HasTexts};
ghost use Rattle.swim_member.specs.declared.event.Event.{Event as Events};
ghost use Rattle.swim_play.specs.Life.{PlayDisk as PlayDisks, disk_state, AreOnOneDisk};
ghost use Rattle.swim_play.specs.Play.{Becomes, IfDisk, IsCrashed, IsOpening, IsRefused, IsRun, IsRising, WritesState, all_of, and_run, asked_of, first_scene, with_life_ended, with_disk, with_settings, with_new_era, run_of, with_setting};
ghost use Rattle.swim_play.specs.Machinery.Session.{IsAnswered, events_in};

use crate::life::{Life, OpenLife, PlayDisk};
use crate::setup::Setup;
use std::alloc::{AllocError, Global};
use std::marker::Model;
use std::{fmt, mem};
use swim_disk::{Choice, MemDisk};
use swim_member::{Event, SettingsFault};
use swim_node::{ApplyFault, Entry, MemoryLink, OpenFault, own_numbers_rise};
use swim_script::{Patch, Setting};
use swim_state::{Owner, Peers, SaveFault};
use swim_wire::Endpoint;

/// Lives of one owner on one disk, one after another.
#[derive(Drop)]
pub struct Run {
    /// The lives, in order.
    pub lives: Vec<Life>,
}

/// What there is now.
#[derive(Drop)]
pub(crate) enum SessionStage {
    /// No disk.
    Bare,
    /// A disk, and no member.
    Idle(PlayDisk),
    /// An open member with its disk.
    Open(OpenLife),
}

/// Why an opening was refused. It prints the line of a transcript.
#[derive(Clone, Copy, Debug, PartialEq, Eq)]
pub(crate) enum OpeningRefusal {
    /// The settings were not sound.
    Settings(SettingsFault),
    /// The node was not opened.
    Open(OpenFault),
}

impl fmt::Display for OpeningRefusal {
    ghost use Rattle.std.specs.Prelude.{Some};
    ghost use Rattle.swim_play.specs.Text.{refusal_text};

    ghost output = { λ refusal. Some (refusal_text refusal) };

    fn fmt<W: fmt::Write>(&self, f: &mut fmt::Formatter<W>) -> fmt::Result {
        match self {
            OpeningRefusal::Settings(fault) => write!(f, "settings refused {fault}"),
            OpeningRefusal::Open(fault) => write!(f, "open refused {fault}"),
        }
    }
}

/// What came of an opening.
#[derive(Clone, Copy, Debug, PartialEq, Eq)]
pub(crate) enum OpeningOutcome {
    /// A life began with this number.
    Begun(u64),
    /// Nothing was opened.
    Refused(OpeningRefusal),
}

/// The setup of the next opening, what there is now, and the lives that ended before.
#[derive(Drop)]
pub(crate) struct Session {
    setup: Setup,
    apart: bool,
    runs: Vec<Run>,
    lives: Vec<Life>,
    stage: SessionStage,
}

impl Model for Session {
    ghost use Rattle.std.specs.Prelude.{map};
    ghost use Rattle.swim_node.specs.Node.{owner_of};
    ghost use Rattle.swim_play.specs.Play.{Playing, run_of, asked_of};
    ghost use Rattle.swim_play.specs.Machinery.Session.{IsSession, disk_in, life_in};

    ghost Value = { Playing };

    ghost view = { λ s. record {
      setup = s.setup;
      disk = disk_in s.stage;
      apart = s.apart;
      runs = map run_of s.runs.items;
      lives = map asked_of s.lives.items;
      life = life_in s.stage;
    } };

    ghost invariant = { λ s.
        IsSession (owner_of s.setup.settings) s.apart s.runs.items s.lives.items s.stage };
}

/// Puts these lives into a run of their own, if there are any. It takes no memory.
fn close_run(runs: &mut Vec<Run>, lives: &mut Vec<Life>)
    requires room { length runs.old.items < vec_capacity runs.old }
    ensures runs { map run_of runs.new.items
        ≡ and_run (map run_of runs.old.items) (map asked_of lives.old.items) }
    ensures lives { lives.new.items ≡ [] }
    ensures kept { All IsRun runs.old.items
        → AreOnOneDisk lives.old.items
        → All IsRun runs.new.items }
{
    if lives.is_empty() {
        return;
    }
    let alloc = *lives.allocator();
    let lives = mem::replace(lives, Vec::new(alloc));
    runs.push_reserved(Run { lives });
}

/// The disk becomes what a crash leaves of it.
fn crash_disk(alloc: Global, disk: &mut PlayDisk, choice: Choice)
    ensures { IsCrashed choice disk.old disk.new }
{
    let before = disk.replace(MemDisk::new(alloc, 0, Vec::new(alloc)));
    disk.replace(before.crash(choice));
}

/// What an opening that the node refused comes to: want of memory is the whole script's.
fn refused(fault: OpenFault) -> Result<OpeningOutcome, AllocError>
    ensures ok { IfOk result (λ opening. opening
        ≡ OpeningOutcome.Refused (OpeningRefusal.Open fault)) }
    ensures memory { OnOk result (fault ≢ OpenFault.NoMemory) }
{
    match fault {
        OpenFault::NoMemory => Err(AllocError),
        _ => Ok(OpeningOutcome::Refused(OpeningRefusal::Open(fault))),
    }
}

impl Session {
    /// No disk, and no life so far.
    pub(crate) fn new(alloc: Global) -> Session
        ensures { result ≡ first_scene.playing }
    {
        Session {
            setup: Setup::first(),
            apart: false,
            runs: Vec::new(alloc),
            lives: Vec::new(alloc),
            stage: SessionStage::Bare,
        }
    }

    /// Names the group of the next opening.
    pub(crate) fn set_group(&mut self, group: u64)
        ensures { self.new
            ≡ with_settings (record self.old.setup.settings { group = group }) self.old }
    {
        self.setup.settings.group = group;
        self.apart = true;
    }

    /// Names the member of the next opening.
    pub(crate) fn set_me(&mut self, me: Endpoint)
        ensures { self.new ≡ with_settings (record self.old.setup.settings { me = me }) self.old }
    {
        self.setup.settings.me = me;
        self.apart = true;
    }

    /// Changes a setting of the next opening.
    pub(crate) fn set(&mut self, setting: Setting, value: u32)
        ensures { self.new ≡ record self.old { setup = with_setting self.old.setup setting value } }
    {
        self.setup.set(setting, value);
    }

    /// Whose state file the next opening is to find.
    pub(crate) fn owner(&self) -> Owner
        ensures { result ≡ owner_of self.now.setup.settings }
    {
        Owner {
            group: self.setup.settings.group,
            me: self.setup.settings.me,
        }
    }

    /// Whether a member is open.
    pub(crate) fn is_open(&self) -> bool
        ensures { result ≡ is_some self.now.life }
    {
        matches!(self.stage, SessionStage::Open(_))
    }

    /// Whether there is a disk.
    pub(crate) fn has_disk(&self) -> bool
        ensures { result ≡ is_some self.now.disk }
    {
        !matches!(self.stage, SessionStage::Bare)
    }

    /// The disk, if there is one.
    pub(crate) fn disk(&self) -> Option<&PlayDisk>
        ensures some { IfSome result (λ disk. self.now.disk ≡ Some disk.now) }
        ensures none { result ≡ None → self.now.disk ≡ None }
    {
        match &self.stage {
            SessionStage::Bare => None,
            SessionStage::Idle(disk) => Some(disk),
            SessionStage::Open(living) => Some(living.disk()),
        }
    }

    /// What the disk reads, if there is one. Err: there was no memory for it.
    pub(crate) fn image(&self) -> Result<Option<Vec<u8>>, AllocError>
        ensures some { IfOk result (λ read. IfSome read (λ image. (disk : PlayDisks)
            × (self.now.disk ≡ Some disk)
            × (image.items ≡ (disk_state disk).content))) }
        ensures none { IfOk result (λ read. read ≡ None → self.now.disk ≡ None) }
    {
        let Some(disk) = self.disk() else {
            return Ok(None);
        };
        Ok(Some(disk.inner().bytes()?))
    }

    /// The last entry of the open member's era, if it has any.
    pub(crate) fn last(&self) -> Option<&Entry>
        ensures some { IfSome result (λ e. (before : List Events)
            × (events_in self.now.life ≡ before ++ e.now.event ∷ [])) }
        ensures texts { IfSome result (λ e. HasTexts e.now) }
        ensures none { result ≡ None → events_in self.now.life ≡ [] }
    {
        match &self.stage {
            SessionStage::Open(living) => living.last(),
            _ => None,
        }
    }

    /// Puts another disk in the place of the one that there is.
    pub(crate) fn put(&mut self, disk: PlayDisk)
        requires closed { is_some self.old.life ≡ false }
        ensures { self.new ≡ with_disk disk self.old }
    {
        self.apart = true;
        self.stage = SessionStage::Idle(disk);
    }

    /// Opens a member on the disk, if its settings are sound. Err: the node, or the list of runs, found no memory.
    pub(crate) fn open(&mut self, alloc: Global) -> Result<OpeningOutcome, AllocError>
        requires closed { is_some self.old.life ≡ false }
        requires disk { is_some self.old.disk ≡ true }
        ensures { IfOk result (λ opening. IfDisk self.old.disk self.old self.new
            (λ disk. IsOpening disk opening self.old self.new)) }
    {
        if let Err(fault) = self.setup.settings.check() {
            return Ok(OpeningOutcome::Refused(OpeningRefusal::Settings(fault)));
        }
        self.runs.reserve(1)?;
        let SessionStage::Idle(disk) = mem::replace(&mut self.stage, SessionStage::Bare) else {
            unreachable!()
        };
        match OpenLife::open(alloc, disk, self.setup) {
            Ok(living) => {
                let first = living.first();
                if self.apart {
                    close_run(&mut self.runs, &mut self.lives);
                }
                self.apart = false;
                self.stage = SessionStage::Open(living);
                Ok(OpeningOutcome::Begun(first))
            }
            Err((disk, fault)) => {
                self.stage = SessionStage::Idle(disk);
                refused(fault)
            }
        }
    }

    /// Gives the open member an event.
    pub(crate) fn happen(&mut self, link: &mut MemoryLink, event: Event) -> Result<(), ApplyFault>
        requires opened { is_some self.old.life ≡ true }
        ensures { IsAnswered event self.old.life self.old self.new result }
    {
        match &mut self.stage {
            SessionStage::Open(living) => living.happen(link, event),
            _ => unreachable!(),
        }
    }

    /// Begins an era of the open member.
    pub(crate) fn rebase(&mut self) -> Result<(), AllocError>
        requires opened { is_some self.old.life ≡ true }
        ensures { OnOk result (self.new ≡ record self.old { life = with_new_era self.old.life }) }
    {
        match &mut self.stage {
            SessionStage::Open(living) => living.rebase(),
            _ => unreachable!(),
        }
    }

    /// Saves whom the open member knows, at the begin of an era.
    pub(crate) fn keep_peers(&mut self) -> Result<(), SaveFault>
        requires opened { is_some self.old.life ≡ true }
        requires empty { events_in self.old.life ≡ [] }
        ensures { WritesState self.old self.new }
    {
        match &mut self.stage {
            SessionStage::Open(living) => living.keep_peers(),
            _ => unreachable!(),
        }
    }

    /// Whom the state file of the open member keeps, if one is open.
    pub(crate) fn peers(&self) -> Option<Peers>
        ensures none { result ≡ None → self.now.life ≡ None }
    {
        match &self.stage {
            SessionStage::Open(living) => Some(living.peers()),
            _ => None,
        }
    }

    /// Ends the open life: the member is dropped, and the disk stays as it is.
    pub(crate) fn end(&mut self) -> Result<(), AllocError>
        requires opened { is_some self.old.life ≡ true }
        ensures ended { OnOk result (self.new ≡ with_life_ended self.old) }
        ensures closed { OnOk result (is_some self.new.life ≡ false) }
        ensures disk { OnOk result (is_some self.new.disk ≡ true) }
    {
        self.lives.reserve(1)?;
        let SessionStage::Open(living) = mem::replace(&mut self.stage, SessionStage::Bare) else {
            unreachable!()
        };
        let (life, disk) = living.end();
        self.lives.push_reserved(life);
        self.stage = SessionStage::Idle(disk);
        Ok(())
    }

    /// The disk becomes what a crash leaves of it.
    pub(crate) fn crash(&mut self, alloc: Global, choice: Choice)
        requires closed { is_some self.old.life ≡ false }
        requires disk { is_some self.old.disk ≡ true }
        ensures { IfDisk self.old.disk self.old self.new
            (λ disk. Becomes (IsCrashed choice disk) self.old self.new) }
    {
        match &mut self.stage {
            SessionStage::Idle(disk) => crash_disk(alloc, disk, choice),
            _ => unreachable!(),
        }
    }

    /// Writes over a part of the disk, at once and for good.
    pub(crate) fn overwrite(&mut self, patch: &Patch) -> Result<(), AllocError>
        requires closed { is_some self.old.life ≡ false }
        requires disk { is_some self.old.disk ≡ true }
        ensures { OnOk result (IfDisk self.old.disk self.old self.new
            (λ disk. Becomes (λ new. IsPatched patch.now.at patch.now.bytes.items
            (inner_of disk) (inner_of new)) (record self.old { apart = true }) self.new)) }
    {
        match &mut self.stage {
            SessionStage::Idle(disk) => {
                let inner = patch.over(disk.inner())?;
                disk.replace(inner);
                self.apart = true;
                Ok(())
            }
            _ => unreachable!(),
        }
    }

    /// All lives, the open one among them.
    pub(crate) fn finish(mut self) -> Result<Vec<Run>, AllocError>
        ensures told { IfOk result (λ runs. map run_of runs.items ≡ all_of self) }
        ensures lived { IfOk result (λ runs. All IsRun runs.items) }
        ensures rising { IfOk result (λ runs. All IsRising runs.items) }
    {
        if self.is_open() {
            self.end()?;
        }
        self.runs.reserve(1)?;
        let Session {
            setup: _,
            apart: _,
            mut runs,
            mut lives,
            stage: _,
        } = self;
        close_run(&mut runs, &mut lives);
        own_numbers_rise::<PlayDisk>();
        Ok(runs)
    }
}
