//! Why the program ends before it is done, with the text on standard error and the exit status.

ghost use Rattle.std.specs.Prelude.{◌≡◌};
ghost use Rattle.swim_exit.specs.Exit.{has_no_locks, refused_by};

use std::io::{self, ErrorKind};
use std::process::ExitCode;
use swim_input::InputFault;
use swim_node::OpenFault;
use swim_script::ScriptFault;
use swim_settings::SettingsRefusal;
use swim_shell::WorkerEnd;
use swim_state::{InitFault, RecoverFault};
use thiserror::Error;

/// The exit status of a refusal or a fault.
const FAILED: u8 = 1;

/// The exit status where words, settings or a script are refused.
const REFUSED: u8 = 2;

/// The exit status of a member that ended because it was expelled.
const EXPELLED: u8 = 3;

/// The exit status where nobody reads standard output any more, as a shell has it of a program that SIGPIPE ends.
const UNREAD: u8 = 141;

/// The system's number of a disk that fails, EIO.
const INPUT_OUTPUT: i32 = 5;

/// The system's number where there is no lock to be had, as on NFS without its lock service, ENOLCK.
const NO_LOCK: i32 = 37;

/// The system's number of a call that it does not have, ENOSYS.
const NOT_IMPLEMENTED: i32 = 38;

/// The system's number of what a file system does not do, EOPNOTSUPP.
const NOT_SUPPORTED: i32 = 95;

/// Why the program ends. Each prints its one line, after `swim: `, and some have a hint for a second one.
#[derive(Debug, Drop, Error)]
pub enum Exit {
    /// The state file was not made.
    #[error("init refused {0}")]
    Init(InitFault),
    /// The state file was not opened as this member's.
    #[error("open refused {0}")]
    Open(OpenFault),
    /// The settings or the state file cannot be opened, read, made or locked, or standard input failed.
    #[error("file refused")]
    File,
    /// The same, since its file system takes no writes.
    #[error("file refused")]
    ReadOnly,
    /// The same, since its disk fails.
    #[error("file refused")]
    Device,
    /// The same, since another process has the lock of it.
    #[error("file refused")]
    Locked,
    /// The same, since its file system gives no lock.
    #[error("file refused")]
    NoLocks,
    /// What is to be read is a pipe, a device or a socket.
    #[error("file refused: it is a pipe, a device or a socket, and no file")]
    NotFile,
    /// What is read has more bytes than this.
    #[error("file refused: it has more than {0} bytes")]
    TooLong(u64),
    /// Standard output was not taken whole.
    #[error("file refused")]
    Output,
    /// Nobody reads standard output any more.
    #[error("output unread")]
    Unread,
    /// A socket was not bound.
    #[error("socket refused")]
    Socket,
    /// A member that was asked was not reached, or its connection ended before the whole answer.
    #[error("socket refused")]
    Unreached,
    /// A member that was asked did not answer in time.
    #[error("socket refused")]
    Silent,
    /// No IPv4 address was found of a host.
    #[error("host refused")]
    Host,
    /// A member did not answer with its rows.
    #[error("answer refused")]
    Answer,
    /// Whom a member was told to join did not answer in time.
    #[error("nobody answered")]
    Unjoined,
    /// A member that was told to stop has not ended in time.
    #[error("not ended")]
    NotEnded,
    /// A worker ended by itself.
    #[error("worker ended {0}")]
    Worker(WorkerEnd),
    /// The member was expelled, and was to end then.
    #[error("expelled")]
    Expelled,
    /// There is no memory.
    #[error("memory")]
    Memory,
    /// The system had no thread for a worker, for some seconds.
    #[error("threads refused")]
    Threads,
    /// The journal of an era did not have the calls of a worker as that one knew them.
    #[error("era refused")]
    Odd,
    /// An endpoint among the words is none.
    #[error("address refused")]
    Address,
    /// The words name several members, or several lines, where one has to be.
    #[error("words refused")]
    Words,
    /// A key of the settings is refused, or their text.
    #[error("settings refused {0}")]
    Settings(SettingsRefusal),
    /// The script is refused.
    #[error("script refused {0}")]
    Script(ScriptFault),
}

/// What else to say where a file may be what an interrupted `swim init` left.
const MAYBE_PART: &str =
    "if a member has run on this file, keep it, and see \"A lost state file\" in OPERATIONS.md. If none has, it is what an interrupted `swim init` or `swim up` left: no incarnation was sent then, so delete it and begin again";

/// What else to say where a new state file was not written.
const UNWRITTEN: &str =
    "a write or a sync failed: look at the room of its disk (`df`) and at `dmesg`. No number was used: make room, and begin again";

/// What else to say where a state file could not be read or written at the start.
const UNOPENED: &str =
    "a read, a write or a sync of it failed: look at the room of its disk (`df`) and at `dmesg`, leave the file as it is, and start again";

/// What else to say where a state file is damaged.
const DAMAGED: &str =
    "something else wrote to it, or its disk lost what it had synced: `swim show FILE` says which bytes are wrong. Do not repair it, and see \"A lost state file\" in OPERATIONS.md";

/// What else to say where the owner of a state file is another.
const OTHER_OWNER: &str =
    "`group` or `me` is not the one that the file was made with: `swim show FILE` prints what it was made with";

/// What else to say where settings are refused.
const SETTINGS: &str =
    "SETTINGS.md says what each key takes; `swim run --show-settings FILE` tries a file and starts nothing";

/// What else to say where a file was refused.
const FILE: &str =
    "look at the path, and who owns it and its folder (`ls -la`). If a state file is lost, see \"A lost state file\" in OPERATIONS.md before any `swim init`";

/// What else to say where another process has a state file.
const LOCKED: &str =
    "this member runs already, and `swim status ADDR` asks it at its `control`; or another process has its state file. Nothing is lost: make no new one";

/// What else to say where a file system gives no lock.
const NO_LOCKS: &str =
    "its file system gives no lock (flock), and without one a second process could write the file: ENOLCK comes of NFS without its lock service, ENOSYS and EOPNOTSUPP of a file system that has none. Move the file to a local disk (`findmnt -T FILE`), while no member runs on it; nothing was written";

/// What else to say where a file system takes no writes.
const READ_ONLY: &str =
    "its file system takes no writes (EROFS): it was mounted so, or the system made it so after its disk had failed. Look at `findmnt -T FILE` and `dmesg`; leave the file where it is, and start again once its file system can be written";

/// What else to say where a disk fails.
const DEVICE: &str =
    "its disk fails (EIO): look at `dmesg`. Leave a state file where it is, and put no copy in its place: see \"The disk\" in OPERATIONS.md";

/// What else to say where standard output was not taken.
const OUTPUT: &str =
    "standard output was not taken whole: look whether its disk is full (`df`), and whether it was closed (`>&-`)";

/// What else to say where a socket of this process was refused.
const SOCKET: &str =
    "the addresses have to be this machine's and free (`ss -lntup`), and each member of a machine needs a `control` of its own, a port or a path (`ss -lxp`)";

/// What else to say where a member was not reached.
const UNREACHED: &str =
    "a member has to run with this `control`: look whether it runs, and where it listens (`ss -lntp`, or `ss -lxp` for a path, which only the member's own user may use)";

/// What else to say where a member did not answer in time.
const SILENT: &str =
    "the member stands still or hangs (`ps`; SIGCONT wakes one that was stopped), or others hold all of its control connections (`ss -tnp`)";

/// What else to say where a member did not end.
const NOT_ENDED: &str =
    "the member said that it stops, and a minute later its control socket was still open: it records eras, waits for its disk, or is not what answers there. Look at its log; `swim ctl ADDR stop --now` waits for nothing";

/// What else to say where an address was refused.
const ADDRESS: &str =
    "an address is an IPv4 endpoint without leading zeros, such as 127.0.0.1:7001; where a member is asked, it may be the path of its control socket, with a slash, and there and at `up --join` a host name with a port, such as db1.example:7001";

/// What else to say where a host was refused.
const HOST: &str =
    "the system knows no IPv4 address of this host, or did not say within 5 seconds: `getent ahostsv4 NAME` asks it the same";

/// Whether an error of this number says that the file system gives no lock.
fn has_no_locks(code: Option<i32>) -> bool
    ensures { result ≡ has_no_locks code }
{
    match code {
        Some(code) => code == NO_LOCK || code == NOT_IMPLEMENTED || code == NOT_SUPPORTED,
        None => false,
    }
}

/// The exit where a file is refused with an error of this number, which may be the disk's.
fn refused_by(code: Option<i32>) -> Exit
    ensures { result ≡ refused_by code }
{
    match code {
        Some(INPUT_OUTPUT) => Exit::Device,
        _ => Exit::File,
    }
}

impl From<InputFault> for Exit {
    fn from(fault: InputFault) -> Exit {
        match fault {
            InputFault::Memory => Exit::Memory,
            InputFault::NotFile => Exit::NotFile,
            InputFault::TooLong(most) => Exit::TooLong(most),
            InputFault::System(error) => Exit::of(&error, Exit::File),
        }
    }
}

/// What else to say where there was no thread.
const THREADS: &str =
    "a running member has four threads: look at `TasksMax` of its unit, the pids limit of its container, and `ulimit -u` of its user, which other programs may have used up; its state file is good for the next start";

/// What else to say where an era was refused.
const ODD: &str =
    "this is a fault of the program, which ends before it goes on: please report it; its state file is good for the next start";

impl Exit {
    ghost use Rattle.std.specs.Prelude.{◌≡◌, ◌↔◌, IsTrue};
    ghost use Rattle.std.specs.IoError.{error_kind, raw_os_error};
    ghost use Rattle.std.specs.Process.{exit_status};
    ghost use Rattle.swim_exit.specs.Exit.{ending_by, ending_of_output, ending_of_state_file, ending_status};

    /// What else there is to say, on a line of its own.
    pub fn hint(&self) -> Option<&'static str> {
        match self {
            Exit::Init(InitFault::NotEmpty) => Some(MAYBE_PART),
            Exit::Init(InitFault::Device) => Some(UNWRITTEN),
            Exit::Open(OpenFault::Refused(RecoverFault::Device)) => Some(UNOPENED),
            Exit::Open(OpenFault::Refused(RecoverFault::Damaged)) => Some(DAMAGED),
            Exit::Open(OpenFault::Refused(RecoverFault::NotState | RecoverFault::NoSlot)) => {
                Some(MAYBE_PART)
            }
            Exit::Open(OpenFault::Refused(RecoverFault::WrongOwner)) => Some(OTHER_OWNER),
            Exit::Settings(_) => Some(SETTINGS),
            Exit::File => Some(FILE),
            Exit::Locked => Some(LOCKED),
            Exit::NoLocks => Some(NO_LOCKS),
            Exit::ReadOnly => Some(READ_ONLY),
            Exit::Device => Some(DEVICE),
            Exit::Output => Some(OUTPUT),
            Exit::Socket => Some(SOCKET),
            Exit::Unreached => Some(UNREACHED),
            Exit::Silent => Some(SILENT),
            Exit::Host => Some(HOST),
            Exit::NotEnded => Some(NOT_ENDED),
            Exit::Address => Some(ADDRESS),
            Exit::Threads => Some(THREADS),
            Exit::Odd => Some(ODD),
            _ => None,
        }
    }

    /// The exit by an error of the system: the lack of memory, what is wrong with the file system or the disk of a file, or else the
    /// other one.
    pub fn of(error: &io::Error, otherwise: Exit) -> Exit
        ensures { result ≡ ending_by (error_kind error.now) (raw_os_error error.now) otherwise }
    {
        match (error.kind(), otherwise) {
            (ErrorKind::OutOfMemory, _) => Exit::Memory,
            (ErrorKind::ReadOnlyFilesystem, Exit::File) => Exit::ReadOnly,
            (_, Exit::File) => refused_by(error.raw_os_error()),
            (_, otherwise) => otherwise,
        }
    }

    /// The exit by an error of opening or locking a state file. Another process has its lock where the error is `ResourceBusy` and has
    /// no number of the system's.
    pub fn of_state_file(error: &io::Error) -> Exit
        ensures { result ≡ ending_of_state_file (error_kind error.now) (raw_os_error error.now) }
    {
        match (error.kind(), error.raw_os_error()) {
            (ErrorKind::ResourceBusy, None) => Exit::Locked,
            (_, code) if has_no_locks(code) => Exit::NoLocks,
            _ => Exit::of(error, Exit::File),
        }
    }

    /// The exit by an error of standard output.
    pub fn of_output(error: &io::Error) -> Exit
        ensures { result ≡ ending_of_output (error_kind error.now) }
    {
        match error.kind() {
            ErrorKind::BrokenPipe => Exit::Unread,
            _ => Exit::Output,
        }
    }

    /// Whether nothing is said of it: it is no fault that a reader has read enough.
    pub fn is_silent(&self) -> bool
        ensures { IsTrue result ↔ (self.now ≡ Exit.Unread) }
    {
        matches!(self, Exit::Unread)
    }

    /// The exit status: 2 where what was written is at fault, 3 where the member was expelled and was to end then, 141 where nobody
    /// reads standard output any more, and 1 else.
    pub fn status(&self) -> ExitCode
        ensures { exit_status result ≡ ending_status self.now }
    {
        match self {
            Exit::Address | Exit::Words | Exit::Settings(_) | Exit::Script(_) => {
                ExitCode::from(REFUSED)
            }
            Exit::Expelled => ExitCode::from(EXPELLED),
            Exit::Unread => ExitCode::from(UNREAD),
            _ => ExitCode::from(FAILED),
        }
    }
}
