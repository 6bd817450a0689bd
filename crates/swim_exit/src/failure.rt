//! Why the program ends, and what that is about.

use crate::exits::Exit;
use crate::mistake::mistake_in;
use std::alloc::Global;
use std::fmt::{self, Display, Formatter};
use std::io;
use swim_input::InputFault;
use swim_settings::SettingsRefusal;
use swim_words::read_host;

/// Why the program ends, and which thing that is about, where one is known: a file with its path, an address, a line. It prints on
/// one line.
#[derive(Debug, Drop)]
pub struct Failure {
    exit: Exit,
    about: Option<String>,
}

/// What is wrong with a word that is not the address that it has to be.
fn wrong_with(word: &str) -> &'static str {
    if word.as_bytes().contains(&b'/') {
        "it is a path, which is no endpoint; that of a control socket has at most 103 bytes"
    } else if read_host(word.as_bytes()).is_some() {
        "it has a host name, where an IPv4 address has to be"
    } else if word.as_bytes().contains(&b':') {
        "it is no IPv4 address with a port of 1 to 65535"
    } else {
        "it has no port"
    }
}

impl Failure {
    ghost use Rattle.std.specs.Prelude.{◌≡◌, ◌≢◌, IfSome, string_bytes, option_map};
    ghost use Rattle.std.specs.IoError.{error_kind, raw_os_error};
    ghost use Rattle.swim_exit.specs.Exit.{ending_of_state_file};
    ghost use Rattle.swim_settings.specs.declared.refusal.SettingsRefusal.TheVariants as refusals;

    /// This exit, about what prints so. Without memory for that it is not told.
    pub fn about<D: Display + Drop>(alloc: Global, exit: Exit, about: D) -> Failure
        ensures exit { result.exit ≡ exit }
        ensures about { IfSome result.about
            (λ told. IfSome (D.output about) (λ text. string_bytes told ≡ text)) }
    {
        Failure {
            exit,
            about: format!(in alloc; "{about}").ok(),
        }
    }

    /// The exit where a file at this path, which is the one that it is called, is not read.
    pub fn of_input(alloc: Global, called: &str, path: &str, fault: InputFault) -> Failure {
        match fault {
            InputFault::System(error) => Failure::of_file(alloc, called, path, &error),
            fault => Failure::about(alloc, Exit::from(fault), format_args!("{called} {path}")),
        }
    }

    /// The exit where the system refuses a file at this path, which is the one that it is called.
    pub fn of_file(alloc: Global, called: &str, path: &str, error: &io::Error) -> Failure {
        let exit = Exit::of(error, Exit::File);
        Failure::about(alloc, exit, format_args!("{called} {path}: {error}"))
    }

    /// The exit where the settings of this text are refused, which a file at this path has.
    pub fn of_settings(alloc: Global, path: &str, text: &[u8], refusal: SettingsRefusal) -> Failure
        ensures memory { refusal ≡ refusals.Memory → result.exit ≡ Exit.Memory }
        ensures settings { refusal ≢ refusals.Memory → result.exit ≡ Exit.Settings refusal }
    {
        let about = mistake_in(alloc, path, text, &refusal).ok();
        match refusal {
            SettingsRefusal::Memory => Failure::from(Exit::Memory),
            refusal => Failure {
                exit: Exit::Settings(refusal),
                about,
            },
        }
    }

    /// The exit where the system does not open or lock a state file, or another process has the lock of it.
    pub fn of_state_file(alloc: Global, path: &str, error: &io::Error) -> Failure
        ensures { result.exit
            ≡ ending_of_state_file (error_kind error.now) (raw_os_error error.now) }
    {
        match Exit::of_state_file(error) {
            Exit::Locked => {
                let about = format_args!("state file {path}: locked by another process");
                Failure::about(alloc, Exit::Locked, about)
            }
            Exit::NoLocks => {
                let about = format_args!("state file {path} cannot be locked: {error}");
                Failure::about(alloc, Exit::NoLocks, about)
            }
            exit => Failure::about(alloc, exit, format_args!("state file {path}: {error}")),
        }
    }

    /// The exit where a word, which is the one that it is called, is not the address that it has to be, with what is wrong with it.
    pub fn of_address(alloc: Global, called: &str, word: &str) -> Failure
        ensures { result.exit ≡ Exit.Address }
    {
        let wrong = wrong_with(word);
        Failure::about(
            alloc,
            Exit::Address,
            format_args!("{called} {word:?}: {wrong}"),
        )
    }

    /// The exit by an error of standard output.
    pub fn of_output(alloc: Global, error: &io::Error) -> Failure {
        let exit = Exit::of_output(error);
        Failure::about(alloc, exit, format_args!("standard output: {error}"))
    }

    /// Why the program ends.
    pub fn exit(&self) -> &Exit
        ensures { result.now ≡ self.now.exit }
    {
        &self.exit
    }

    /// What that is about, if it is known.
    pub fn thing(&self) -> Option<&str>
        ensures { option_map (λ thing. thing.now) result ≡ option_map string_bytes self.now.about }
    {
        match &self.about {
            Some(about) => Some(about.as_str()),
            None => None,
        }
    }
}

/// An exit about nothing that is known.
impl From<Exit> for Failure {
    ghost use Rattle.std.specs.Prelude.{◌≡◌, None};

    ghost from_gives = { λ exit failure.
        (failure.exit ≡ exit) × (failure.about ≡ None) };

    fn from(exit: Exit) -> Failure {
        Failure { exit, about: None }
    }
}

impl Display for Failure {
    fn fmt<W: fmt::Write>(&self, f: &mut Formatter<W>) -> fmt::Result {
        let exit = &self.exit;
        match &self.about {
            Some(about) => write!(f, "{exit}: {about}"),
            None => write!(f, "{exit}"),
        }
    }
}
