//! Plays the commands of a script.

ghost use Rattle.std.specs.Prelude.{◌≡◌, List, None, map, All, OnOk, IfOk, IfErr};
ghost use Rattle.swim_script.specs.Commands.{IsScript};
ghost use Rattle.swim_script.specs.Faults.{IsFirstFault};
ghost use Rattle.swim_script.specs.declared.command.Command.{Command as Commands};
ghost use Rattle.swim_play.specs.Play.{ArePlayed, Shows, IsMade, IsRun, IsRising, all_of, first_scene, lost_by, run_of};

use crate::life::PlayDisk;
use crate::session::{Run, Session};
use crate::transcript::{write_entry, write_opening, write_peers, write_slots};
use std::alloc::{AllocError, Global};
use std::fmt::Write;
use std::marker::Model;
use swim_disk::{Choice, FaultDisk, MemDisk, Plan};
use swim_member::Event;
use swim_node::{ApplyFault, MemoryLink};
use swim_script::{Command, Failure, FirstNumber, Patch, ScriptFault, read_script};
use swim_state::{InitFault, Owner, init};

/// What a script did.
#[derive(Drop)]
pub struct Transcript {
    /// A line for each thing that happened.
    pub text: String,
    /// The lives that were lived, each with its journals. Those between two lines that make or overwrite a disk or name
    /// an owner are together.
    pub lives: Vec<Run>,
}

/// A new disk, the plan of what it is to fail, and what came of making a state file there.
#[derive(Drop)]
struct MadeDisk {
    disk: PlayDisk,
    plan: Plan,
    answer: Result<(), InitFault>,
}

/// A new disk with a state file of this ceiling.
fn make_disk(alloc: Global, owner: Owner, ceiling: u64) -> Result<MadeDisk, AllocError>
    ensures { IfOk result (λ made. IsMade owner ceiling made.disk made.answer) }
{
    let Ok((mut disk, plan)) = FaultDisk::new(alloc, MemDisk::new(alloc, 0, Vec::new(alloc))) else {
        return Err(AllocError);
    };
    let answer = init(&mut disk, owner, ceiling);
    Ok(MadeDisk { disk, plan, answer })
}

/// Plans a failure of the link.
fn plan_send(link: &mut MemoryLink, failure: Failure)
    ensures { link.new.loses ≡ lost_by failure link.old.loses }
{
    if let Failure::Send(k) = failure {
        link.lose(u64::from(k));
    }
}

/// A new link, which has taken nothing and is to lose nothing.
fn renew(link: &mut MemoryLink, alloc: Global)
    ensures { link.new.loses ≡ None }
{
    *link = MemoryLink::new(alloc, 0);
}

/// Plans a failure of the disk, if there is one.
fn plan_failure(plan: Option<&Plan>, failure: Failure) {
    let Some(plan) = plan else {
        return;
    };
    match failure {
        Failure::Read(k) => plan.fail_read(u64::from(k)),
        Failure::Write(k) => plan.fail_write(u64::from(k)),
        Failure::TornWrite(k) => plan.tear_write(u64::from(k)),
        Failure::Sync(k) => plan.fail_sync(u64::from(k)),
        Failure::Halt(k) => plan.halt(u64::from(k)),
        Failure::Send(_) => {}
    }
}

/// Nothing of the disk is planned to fail any more.
fn clear_plan(plan: Option<&Plan>) {
    if let Some(plan) = plan {
        plan.clear();
    }
}

/// What plays: the lives, the plans of what is to fail, and the text so far. Contracts see the lives and the plan of the
/// link.
#[derive(Drop)]
struct Player {
    alloc: Global,
    session: Session,
    plan: Option<Plan>,
    link: MemoryLink,
    text: String,
}

impl Model for Player {
    ghost use Rattle.swim_play.specs.Play.{Scene};

    ghost Value = { Scene };

    ghost view = { λ p. record { playing = p.session; loses = p.link.loses } };
}

impl Player {
    fn new(alloc: Global) -> Player
        ensures { result ≡ first_scene }
    {
        Player {
            alloc,
            session: Session::new(alloc),
            plan: None,
            link: MemoryLink::new(alloc, 0),
            text: String::new(alloc),
        }
    }

    /// Makes a disk with a state file of this ceiling.
    fn init(&mut self, ceiling: u64) -> Result<(), AllocError>
        ensures { OnOk result (Shows self.old (Command.Init ceiling) self.new) }
    {
        if self.session.is_open() {
            return writeln!(self.text, "open already");
        }
        let made = make_disk(self.alloc, self.session.owner(), ceiling)?;
        self.plan = Some(made.plan);
        self.session.put(made.disk);
        match made.answer {
            Ok(()) => writeln!(self.text, "init ok"),
            Err(fault) => writeln!(self.text, "init refused {fault}"),
        }
    }

    /// Makes a disk and opens a member with this number on it.
    fn start(&mut self, first: FirstNumber) -> Result<(), AllocError>
        ensures { OnOk result (Shows self.old (Command.Start first) self.new) }
    {
        if self.session.is_open() {
            return writeln!(self.text, "open already");
        }
        let made = make_disk(self.alloc, self.session.owner(), first.ceiling())?;
        self.plan = Some(made.plan);
        self.session.put(made.disk);
        if let Err(fault) = made.answer {
            return writeln!(self.text, "init refused {fault}");
        }
        let opening = self.session.open(self.alloc)?;
        write_opening(&mut self.text, "start", opening)
    }

    /// Opens a member on the disk that there is.
    fn open(&mut self) -> Result<(), AllocError>
        ensures { OnOk result (Shows self.old Command.Open self.new) }
    {
        if self.session.is_open() {
            return writeln!(self.text, "open already");
        }
        if !self.session.has_disk() {
            return writeln!(self.text, "no disk");
        }
        let opening = self.session.open(self.alloc)?;
        write_opening(&mut self.text, "open", opening)
    }

    /// Gives the open member an event.
    fn happen(&mut self, event: Event) -> Result<(), AllocError>
        ensures { OnOk result (Shows self.old (Command.Happen event) self.new) }
    {
        if !self.session.is_open() {
            return writeln!(self.text, "no member");
        }
        match self.session.happen(&mut self.link, event) {
            Ok(()) => match self.session.last() {
                Some(entry) => write_entry(self.alloc, &mut self.text, entry),
                None => unreachable!(),
            },
            Err(ApplyFault::NoMemory) => Err(AllocError),
            Err(fault) => writeln!(self.text, "refused {fault}"),
        }
    }

    /// Drops the member.
    fn kill(&mut self) -> Result<(), AllocError>
        ensures { OnOk result (Shows self.old Command.Kill self.new) }
    {
        if !self.session.is_open() {
            return writeln!(self.text, "no member");
        }
        self.session.end()?;
        writeln!(self.text, "killed")
    }

    /// Drops the member, if there is one, and leaves of the disk what a crash leaves. Nothing is planned to fail then.
    fn crash(&mut self, choice: Choice) -> Result<(), AllocError>
        ensures { OnOk result (Shows self.old (Command.Crash choice) self.new) }
    {
        if self.session.is_open() {
            self.session.end()?;
        }
        if !self.session.has_disk() {
            return writeln!(self.text, "no disk");
        }
        self.session.crash(self.alloc, choice);
        renew(&mut self.link, self.alloc);
        clear_plan(self.plan.as_ref());
        writeln!(self.text, "crashed")
    }

    /// Writes over a part of the disk.
    fn overwrite(&mut self, patch: Patch) -> Result<(), AllocError>
        ensures { OnOk result (Shows self.old (Command.Overwrite patch) self.new) }
    {
        if self.session.is_open() {
            return writeln!(self.text, "open already");
        }
        if !self.session.has_disk() {
            return writeln!(self.text, "no disk");
        }
        self.session.overwrite(&patch)
    }

    /// Begins an era.
    fn rebase(&mut self) -> Result<(), AllocError>
        ensures { OnOk result (Shows self.old Command.Rebase self.new) }
    {
        if !self.session.is_open() {
            return writeln!(self.text, "no member");
        }
        self.session.rebase()?;
        writeln!(self.text, "rebase ok")
    }

    /// Begins an era, and saves whom the member knows.
    fn keep_peers(&mut self) -> Result<(), AllocError>
        ensures { OnOk result (Shows self.old Command.KeepPeers self.new) }
    {
        if !self.session.is_open() {
            return writeln!(self.text, "no member");
        }
        self.session.rebase()?;
        match self.session.keep_peers() {
            Ok(()) => writeln!(self.text, "keep ok"),
            Err(fault) => writeln!(self.text, "keep refused {fault}"),
        }
    }

    /// Does what a line says.
    fn execute(&mut self, command: Command) -> Result<(), AllocError>
        ensures { OnOk result (Shows self.old command self.new) }
    {
        match command {
            Command::Group(group) => self.session.set_group(group),
            Command::Me(me) => self.session.set_me(me),
            Command::Set(setting, value) => self.session.set(setting, value),
            Command::Start(first) => self.start(first)?,
            Command::Init(ceiling) => self.init(ceiling)?,
            Command::Open => self.open()?,
            Command::Happen(event) => self.happen(event)?,
            Command::Plan(failure) => {
                plan_send(&mut self.link, failure);
                plan_failure(self.plan.as_ref(), failure);
            }
            Command::Kill => self.kill()?,
            Command::Crash(choice) => self.crash(choice)?,
            Command::Overwrite(patch) => self.overwrite(patch)?,
            Command::Slots => write_slots(&mut self.text, self.session.image()?)?,
            Command::Rebase => self.rebase()?,
            Command::KeepPeers => self.keep_peers()?,
            Command::Peers => write_peers(&mut self.text, self.session.peers())?,
        }
        Ok(())
    }

    /// What the script did.
    fn finish(self) -> Result<Transcript, AllocError>
        ensures asked { IfOk result (λ transcript. map run_of transcript.lives.items
            ≡ all_of self.playing) }
        ensures lived { IfOk result (λ transcript. All IsRun transcript.lives.items) }
        ensures rising { IfOk result (λ transcript. All IsRising transcript.lives.items) }
    {
        let Player {
            alloc: _,
            session,
            plan: _,
            link: _,
            text,
        } = self;
        let lives = session.finish()?;
        Ok(Transcript { text, lives })
    }
}

/// Does what the lines say, in order.
fn run(alloc: Global, commands: Vec<Command>) -> Result<Transcript, AllocError>
    ensures { IfOk result (λ transcript. ArePlayed commands.items transcript.lives.items) }
{
    let mut player = Player::new(alloc);
    for command in commands {
        player.execute(command)?;
    }
    player.finish()
}

/// Plays a script: reads the whole of it, then does what its lines say, in order.
///
/// The lives are those that the script asks for, with its event lines in order, those left out that came while no
/// member was open or the era was full. Each era has a legal history and all its calls are of one caller; a life's first
/// era begins afresh, and each next one with what the one before left. The lives of each run were lived by one owner on
/// one disk, one after another, and every own number of a later one is above every own number of an earlier one; between
/// them an opening is refused only by its settings or limit, a failed call of the disk, or for want of a number. Err: the
/// first fault of the first faulty line, and nothing has run; or `5 NoMemory` with line 0, where memory ran out.
pub fn play(alloc: Global, script: &[u8]) -> Result<Transcript, ScriptFault>
    ensures played { IfOk result (λ transcript. (commands : List Commands)
        × IsScript script.now commands
        × ArePlayed commands transcript.lives.items) }
    ensures err { IfErr result (λ fault. IsFirstFault script.now fault) }
{
    let commands = read_script(alloc, script)?;
    run(alloc, commands).map_err(|_| ScriptFault::NO_MEMORY)
}
