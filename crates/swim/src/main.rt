//! A member of a group, as a program: `swim up` makes its files and runs it, `swim init` makes its state file, `swim run` runs it, `swim ctl`,
//! `swim members` and `swim watch` ask it, `swim web` shows it over HTTP, `swim show` says what a state file holds, `swim explain`
//! what recordings tell of a member, `swim play` plays a script over a member in memory, or a recording, `swim check` looks at what
//! the members of a group sent, and `swim simulate` plays whole groups.
#![tactic(auto)]

mod build_note;

use build_note::build_note;
use clap::Error;
use clap::error::ErrorKind;
use log::{LevelFilter, Log, Logged, info};
use std::fmt::Display;
use std::io::{self, IsTerminal, Write};
use std::process::ExitCode;
use std::sync::Wait;
use std::thread::Threads;
use std::time::Clock;
use std::{env, fs};
use swim_ask::{
    AboutJson, Addresses, Answered, CountersJson, JoinRequest, Paint, StatusJson, Watched,
    WholeJson, ask, ask_about, await_end, read_about, read_counters, read_status, show_members,
    watch_members,
};
use swim_check::{CaptureStop, check};
use swim_cli::{MemberWords, Subcommand, hold_standard, make, read_words};
use swim_exit::{Exit, Failure};
use swim_explain::{ExplainFault, Printed, Tale, in_order, print_tales, recordings_at, tell_file};
use swim_input::{InputFault, SETTINGS_MAX, look_at, open_file};
use swim_log::{LogLevel, LogStream, Stamped};
use swim_play::{play, play_recorded};
use swim_replay::{RecordingFault, RecordingReason, after_first_line};
use swim_run::{run, shown_settings};
use swim_script::ScriptFault;
use swim_shell::Alone;
use swim_show::ShowFault;
use swim_survey::{Asked, AskedFault};
use swim_up::{control_here, control_in, prepare};
use swim_web::{Web, serve_web};
use swim_wire::Endpoint;
use swim_words::read_endpoint;

/// The exit status where the words are refused.
const REFUSED: u8 = 2;

/// All of standard input, or this exit where there is no memory for it.
fn read_input(rt: &HostRuntime, lacks: Exit) -> Result<Vec<u8>, Failure> {
    match swim_input::read_input(rt) {
        Ok(input) => Ok(input),
        Err(InputFault::Memory) => Err(Failure::from(lacks)),
        Err(fault) => Err(Failure::of_input(rt.alloc(), "standard", "input", fault)),
    }
}

/// Prints bytes.
fn print_bytes(rt: &HostRuntime, bytes: &[u8]) -> Result<(), Failure> {
    io::writer(rt)
        .write_all(bytes)
        .map_err(|error| Failure::of_output(rt.alloc(), &error))
}

/// Prints how the program was built, as far as that is known.
fn print_build(rt: &HostRuntime) -> Result<(), Failure> {
    match build_note(rt) {
        Ok(note) => print_bytes(rt, note.as_bytes()),
        Err(_) => Err(Failure::from(Exit::Memory)),
    }
}

/// Prints a line.
fn print_line<D: Display + Drop>(rt: &HostRuntime, line: D) -> Result<(), Failure> {
    println!(rt; "{line}").map_err(|error| Failure::of_output(rt.alloc(), &error))
}

/// Plays a recording, and prints what happened. A refused one is named on standard error.
fn play_era(rt: &HostRuntime, recording: &[u8]) -> Result<ExitCode, Failure> {
    match play_recorded(rt.alloc(), recording) {
        Ok(recorded) => {
            print_bytes(rt, recorded.text.as_bytes())?;
            Ok(ExitCode::SUCCESS)
        }
        Err(
            RecordingFault {
                reason: RecordingReason::NoMemory,
                ..
            },
        ) => Err(Failure::from(Exit::Memory)),
        Err(fault) => {
            let _ = eprintln!(rt; "swim: recording refused {fault}");
            Ok(ExitCode::from(REFUSED))
        }
    }
}

/// Plays the script or the recording on standard input, and prints its transcript.
fn play_input(rt: &HostRuntime) -> Result<ExitCode, Failure> {
    let input = read_input(rt, Exit::Script(ScriptFault::NO_MEMORY))?;
    if after_first_line(&input).is_some() {
        return play_era(rt, &input);
    }
    let transcript = play(rt.alloc(), &input).map_err(|fault| Failure::from(Exit::Script(fault)))?;
    print_bytes(rt, transcript.text.as_bytes())?;
    Ok(ExitCode::SUCCESS)
}

/// Says whether the capture on standard input keeps the law of the group, or which of its datagrams breaks it first.
fn check_input(rt: &HostRuntime) -> Result<ExitCode, Failure> {
    let capture = read_input(rt, Exit::Memory)?;
    match check(rt.alloc(), &capture) {
        Ok(count) => {
            print_line(rt, format_args!("{count} datagrams keep the law"))?;
            Ok(ExitCode::SUCCESS)
        }
        Err(stop @ CaptureStop::Broken(..)) => {
            print_line(rt, stop)?;
            Ok(ExitCode::FAILURE)
        }
        Err(CaptureStop::NoMemory) => Err(Failure::from(Exit::Memory)),
        Err(stop) => {
            let _ = eprintln!(rt; "swim: capture refused {stop}");
            Ok(ExitCode::from(REFUSED))
        }
    }
}

/// Prints the answer of a member, a status, counters or who it is as a JSON object.
fn print_json(rt: &HostRuntime, answer: &[u8]) -> Result<(), Failure> {
    if let Some(status) = read_status(answer) {
        return print_line(rt, StatusJson(status));
    }
    if let Some(counters) = read_counters(answer) {
        return print_line(rt, CountersJson(counters));
    }
    if let Some(about) = read_about(answer) {
        return print_line(rt, AboutJson(about));
    }
    print_bytes(rt, answer)
}

/// The line that ends a member.
const STOP: &str = "stop";

/// A control line that is asked, and what becomes of its answer.
#[derive(Clone, Copy, Debug)]
struct Question<'a> {
    /// Which member.
    of: MemberWords<'a>,
    line: &'a str,
    /// Whether a status or counters are printed as a JSON object.
    as_json: bool,
    /// Whether a member that stops is left as soon as it answered.
    at_once: bool,
}

/// Prints an answer, as a JSON object where that is wanted.
fn print_answer(rt: &HostRuntime, text: &[u8], as_json: bool) -> Result<(), Failure> {
    if as_json {
        print_json(rt, text)
    } else {
        print_bytes(rt, text)
    }
}

/// Waits until a member has ended that has answered that it stops, if that is wanted.
fn await_stop(rt: &HostRuntime, question: &Question<'_>, answer: &Answered) -> Result<(), Failure> {
    if question.line == STOP && !question.at_once {
        return await_end(rt, &answer.at);
    }
    Ok(())
}

/// The control lines that there are.
const LINES: &str =
    "status, about, members, members A, counters, join A, leave, record, reload, stop";

/// What a member answers to a line that it does not know.
const UNKNOWN: &[u8] = b"error 1 ";

/// Says which control lines there are, where an answer says that there is no such line.
fn help_out(rt: &HostRuntime, answer: &[u8]) {
    if answer.starts_with(UNKNOWN) {
        let _ = eprintln!(rt; "  the lines are {LINES}");
    }
}

/// Asks a member, and prints its answer. Where that is to `stop`, the member has ended then, if that is wanted. The exit status says
/// whether the answer begins with `ok`.
fn ask_member<T: Threads>(
    rt: &HostRuntime,
    threads: &T,
    question: &Question<'_>,
) -> Result<ExitCode, Failure> {
    let to = control_of(rt, question.of)?;
    let answer = ask(rt, threads, to.as_str(), question.line)?;
    let printed = print_answer(rt, answer.text.as_slice(), question.as_json);
    if !answer.text.as_slice().starts_with(b"ok") {
        printed?;
        help_out(rt, answer.text.as_slice());
        return Ok(ExitCode::FAILURE);
    }
    await_stop(rt, question, &answer)?;
    printed?;
    Ok(ExitCode::SUCCESS)
}

/// The exit where a state file is not shown. Why it is not read is asked once more.
fn unshown(rt: &HostRuntime, path: &str, fault: ShowFault) -> Failure {
    let exit = match fault {
        ShowFault::Memory => return Failure::from(Exit::Memory),
        ShowFault::NotFile => Exit::NotFile,
        ShowFault::File => Exit::File,
    };
    if let Err(fault) = open_file(rt, path) {
        return Failure::of_input(rt.alloc(), "state file", path, fault);
    }
    Failure::about(rt.alloc(), exit, format_args!("state file {path}"))
}

/// The control socket of a member that no word names.
const CONTROL: &str = "127.0.0.1:7001";

/// The environment variable that names another one.
const CONTROL_VARIABLE: &str = "SWIM_CONTROL";

/// A word of its own.
fn owned(rt: &HostRuntime, word: &str) -> Result<String, Failure> {
    String::from_str(rt.alloc(), word).map_err(|_| Failure::from(Exit::Memory))
}

/// The control socket of a member that no word names: the environment's, or else that of the member whose folder is here or of the
/// service, or else the usual one. It is not yet judged.
fn usual_control(rt: &HostRuntime) -> Result<String, Failure> {
    if let Ok(named) = env::var(rt, CONTROL_VARIABLE) {
        return Ok(named);
    }
    match control_here(rt)? {
        Some(control) => Ok(control),
        None => owned(rt, CONTROL),
    }
}

/// The control socket of the member that these words name, not yet judged.
fn control_of(rt: &HostRuntime, words: MemberWords<'_>) -> Result<String, Failure> {
    match (words.to, words.dir) {
        (Some(word), _) => owned(rt, word),
        (None, Some(folder)) => control_in(rt, folder),
        (None, None) => usual_control(rt),
    }
}

/// Prints what a member says of itself: its status, who it is, and that it is alone, where it is. One of an older version tells its
/// status only.
fn show_status<T: Threads>(
    rt: &HostRuntime,
    threads: &T,
    of: MemberWords<'_>,
    as_json: bool,
) -> Result<ExitCode, Failure> {
    let to = control_of(rt, of)?;
    let answer = ask(rt, threads, to.as_str(), "status")?;
    let text = answer.text.as_slice();
    let Some(status) = read_status(text) else {
        print_bytes(rt, text)?;
        return Ok(ExitCode::FAILURE);
    };
    match ask_about(rt, &answer.at)? {
        Some(about) if as_json => print_line(rt, WholeJson(status, about))?,
        Some(about) => {
            print_bytes(rt, text)?;
            print_line(rt, about.who)?;
            if about.is_alone {
                print_line(rt, Alone(about.who))?;
            }
        }
        None => print_answer(rt, text, as_json)?,
    }
    Ok(ExitCode::SUCCESS)
}

/// The addresses that are named, or where none is that of the member in this folder, or else the usual one.
fn named_or(
    rt: &HostRuntime,
    mut named: Vec<String>,
    dir: Option<&str>,
) -> Result<Vec<String>, Failure> {
    if named.is_empty() {
        let control = control_of(rt, MemberWords { to: None, dir })?;
        let pushed = named.push(control);
        pushed.map_err(|_| Failure::from(Exit::Memory))?;
    }
    Ok(named)
}

/// Has a member join another one, and says what is known of that one within seconds.
fn join_peer<T: Threads>(
    rt: &HostRuntime,
    threads: &T,
    of: MemberWords<'_>,
    peer: &str,
) -> Result<ExitCode, Failure> {
    let Some(who) = read_endpoint(peer.as_bytes()) else {
        return Err(Failure::of_address(rt.alloc(), "A", peer));
    };
    let to = control_of(rt, of)?;
    let joining = JoinRequest::new(rt, threads, to.as_str(), who)?;
    let answer = joining.send(rt)?;
    print_bytes(rt, answer.as_slice())?;
    if answer.as_slice() != SENT {
        let own = "itself is what it was told to join: name another member";
        let why = if answer.as_slice() == SELF {
            own
        } else {
            "it did not take the line `join`"
        };
        let about = format_args!("{to} (control): {why}");
        return Err(Failure::about(rt.alloc(), Exit::Answer, about));
    }
    print_line(rt, joining.wait(rt)?)?;
    Ok(ExitCode::SUCCESS)
}

/// What a member answers that has sent a join.
const SENT: &[u8] = b"ok sent\n";

/// What a member answers that was told to join itself.
const SELF: &[u8] = b"error 7 self\n";

/// Prints what a state file says. The status says whether an opening would begin a life.
fn show_file(rt: &HostRuntime, path: &str, as_json: bool) -> Result<ExitCode, Failure> {
    let shown = match swim_show::answer(rt, path, as_json) {
        Ok(shown) => shown,
        Err(fault) => return Err(unshown(rt, path, fault)),
    };
    print_bytes(rt, shown.text.as_bytes())?;
    Ok(if shown.is_sound {
        ExitCode::SUCCESS
    } else {
        ExitCode::FAILURE
    })
}

/// What recordings tell of a member, and whether all of them do.
#[derive(Drop)]
struct ToldTales {
    tales: Vec<Tale>,
    are_all: bool,
}

/// Names a file or a folder that tells nothing on standard error; why it is not read is asked once more. An error is that there is no
/// memory.
fn name_refused(rt: &HostRuntime, path: &str, fault: ExplainFault) -> Result<(), Failure> {
    if fault == ExplainFault::Memory {
        return Err(Failure::from(Exit::Memory));
    }
    let refused = match fault {
        ExplainFault::File => open_file(rt, path).err(),
        _ => None,
    };
    let _ = match refused {
        Some(InputFault::System(error)) => eprintln!(rt; "swim: {path}: {fault}: {error}"),
        _ => eprintln!(rt; "swim: {path}: {fault}"),
    };
    Ok(())
}

/// Names a folder without recordings on standard error.
fn name_empty(rt: &HostRuntime, folder: &str) {
    let _ = eprintln!(rt;
        "swim: {folder}: no recordings here: the setting `record` has a member write them"
    );
}

/// Adds what the recordings at a path tell of a member.
fn tell_place(
    rt: &HostRuntime,
    told: &mut ToldTales,
    path: &str,
    who: Endpoint,
) -> Result<(), Failure> {
    let files = match recordings_at(rt, path) {
        Ok(files) => files,
        Err(fault) => {
            told.are_all = false;
            return name_refused(rt, path, fault);
        }
    };
    if files.is_empty() {
        told.are_all = false;
        name_empty(rt, path);
    }
    for file in &files {
        match tell_file(rt, file, who) {
            Ok(tale) => {
                let kept = told.tales.push(tale);
                kept.map_err(|_| Failure::from(Exit::Memory))?;
            }
            Err(fault) => {
                told.are_all = false;
                name_refused(rt, file, fault)?;
            }
        }
    }
    Ok(())
}

/// Prints what recordings tell of a member, in the order of time. A file that tells nothing and a folder without recordings are named on
/// standard error, and the status says whether there was one.
fn explain_places(
    rt: &HostRuntime,
    member: &str,
    places: &[String],
    all: bool,
    as_json: bool,
) -> Result<ExitCode, Failure> {
    let Some(who) = read_endpoint(member.as_bytes()) else {
        return Err(Failure::of_address(rt.alloc(), "--member", member));
    };
    let mut told = ToldTales {
        tales: Vec::new(rt.alloc()),
        are_all: true,
    };
    for place in &in_order(rt, places).map_err(|_| Failure::from(Exit::Memory))? {
        tell_place(rt, &mut told, place, who)?;
    }
    if !told.tales.is_empty() {
        let asked = Printed { who, all, as_json };
        let text = print_tales(rt.alloc(), &told.tales, &asked);
        print_bytes(
            rt,
            text.map_err(|_| Failure::from(Exit::Memory))?.as_bytes(),
        )?;
    }
    Ok(if told.are_all {
        ExitCode::SUCCESS
    } else {
        ExitCode::FAILURE
    })
}

/// The colours of standard output.
fn paint(rt: &HostRuntime) -> Paint {
    Paint::of(rt, rt.stdout().is_terminal())
}

/// Refuses a plan that is no file, or too long. Other faults are told where it is read.
fn refuse_endless(rt: &HostRuntime, plan: &str) -> Result<(), Failure> {
    match look_at(rt, plan, SETTINGS_MAX) {
        Ok(()) | Err(InputFault::System(_)) => Ok(()),
        Err(fault) => Err(Failure::of_input(rt.alloc(), "plan", plan, fault)),
    }
}

/// Simulates a group, and prints what was measured. A refused plan or sweep is named on standard error.
fn simulate_group(rt: &HostRuntime, asked: &Asked<'_>) -> Result<ExitCode, Failure> {
    if let Some(plan) = asked.plan {
        refuse_endless(rt, plan)?;
    }
    let stream = rt.stderr();
    let terminal = if stream.is_terminal() {
        Some(stream)
    } else {
        None
    };
    let fault = match swim_survey::answer(rt, asked, terminal) {
        Ok(text) => {
            print_bytes(rt, text.as_bytes())?;
            return Ok(ExitCode::SUCCESS);
        }
        Err(fault) => fault,
    };
    let _ = eprintln!(rt; "swim: {fault}");
    if let Some(allowed) = fault.allowed() {
        let _ = eprintln!(rt; "  {allowed}");
    }
    Ok(match fault {
        AskedFault::Plan(_) | AskedFault::Sweep(_) => ExitCode::from(REFUSED),
        _ => ExitCode::FAILURE,
    })
}

/// Prints the settings of a file as they will be used.
fn show_settings(rt: &HostRuntime, config: &str) -> Result<(), Failure> {
    let text = shown_settings(rt, config)?;
    print_bytes(rt, text.as_bytes())
}

/// Runs the member that a settings file describes until it is told to stop, and says so then.
fn run_until_stopped<T: Threads + Wait + Log + Clock + Send + Sync + Copy + Drop>(
    rt: &HostRuntime,
    logged: &T,
    level: &LogLevel,
    config: &str,
) -> Result<(), Failure> {
    run(rt, logged, level, config)?;
    info!(logged; "stopped, as it was told to: its state file is good for its next start");
    Ok(())
}

/// Does what was asked. A member that runs has its threads and its log by the other handle, and sets how much is logged.
fn answer<T: Threads + Wait + Log + Clock + Send + Sync + Copy + Drop>(
    rt: &HostRuntime,
    logged: &T,
    level: &LogLevel,
    asked: Subcommand<'_>,
) -> Result<ExitCode, Failure> {
    match asked {
        Subcommand::Init {
            file,
            group,
            me,
            ceiling,
        } => {
            make(rt, file, group, me, ceiling)?;
            Ok(ExitCode::SUCCESS)
        }
        Subcommand::Up(words) => {
            let named = env::var(rt, CONTROL_VARIABLE).ok();
            let config = prepare(rt, &words, named.as_ref().map(|word| word.as_str()))?;
            run_until_stopped(rt, logged, level, config.as_str())?;
            Ok(ExitCode::SUCCESS)
        }
        Subcommand::Run { config, shows } => {
            if shows {
                show_settings(rt, config)?;
            } else {
                run_until_stopped(rt, logged, level, config)?;
            }
            Ok(ExitCode::SUCCESS)
        }
        Subcommand::Ctl {
            words,
            dir,
            as_json,
            at_once,
        } => {
            let of = MemberWords { to: words.to, dir };
            let question = Question {
                of,
                line: words.line.as_str(),
                as_json,
                at_once,
            };
            ask_member(rt, logged, &question)
        }
        Subcommand::Line {
            of,
            line,
            as_json,
            at_once,
        } => {
            let question = Question {
                of,
                line,
                as_json,
                at_once,
            };
            ask_member(rt, logged, &question)
        }
        Subcommand::Status { of, as_json } => show_status(rt, logged, of, as_json),
        Subcommand::Join { peer, of } => join_peer(rt, logged, of, peer),
        Subcommand::Members { of, as_json } => {
            let to = control_of(rt, of)?;
            show_members(rt, logged, to.as_str(), as_json, paint(rt))?;
            Ok(ExitCode::SUCCESS)
        }
        Subcommand::Watch {
            to,
            dir,
            as_json,
            every,
            once,
        } => {
            let to = named_or(rt, to, dir)?;
            let watched = Watched {
                to: Addresses::judged(rt.alloc(), to.as_slice())?,
                as_json,
                every,
                once,
                paint: paint(rt),
            };
            watch_members(rt, logged, watched)?;
            Ok(ExitCode::SUCCESS)
        }
        Subcommand::Web { of, dir, listen } => {
            let of = named_or(rt, of, dir)?;
            let web = Web {
                of: of.as_slice(),
                listen,
            };
            serve_web(rt, logged, &web)?;
            Ok(ExitCode::SUCCESS)
        }
        Subcommand::Show { file, as_json } => show_file(rt, file, as_json),
        Subcommand::Explain {
            member,
            places,
            all,
            as_json,
        } => explain_places(rt, member, places, all, as_json),
        Subcommand::Play => play_input(rt),
        Subcommand::Check => check_input(rt),
        Subcommand::Simulate {
            plan,
            seed,
            runs,
            csv,
            svg,
            sweep,
        } => {
            let asked = Asked {
                plan,
                seed,
                runs,
                csv,
                svg,
                sweep,
            };
            simulate_group(rt, &asked)
        }
    }
}

/// Prints why the program ends, if that is said: on the first line why, on the second what that is about, if it is known, and then a
/// hint where there is one. The status is the same where standard error cannot be written.
fn end(rt: &HostRuntime, failure: &Failure) -> ExitCode {
    let exit = failure.exit();
    if exit.is_silent() {
        return exit.status();
    }
    let _ = eprintln!(rt; "swim: {exit}");
    if let Some(thing) = failure.thing() {
        let _ = eprintln!(rt; "  {thing}");
    }
    if let Some(hint) = exit.hint() {
        let _ = eprintln!(rt; "swim: {hint}");
    }
    exit.status()
}

/// Prints help or the version, which how the program was built goes with, or what is wrong with the words.
fn explain(rt: &HostRuntime, error: &Error) -> ExitCode {
    if error.kind() == ErrorKind::OutOfMemory {
        return end(rt, &Failure::from(Exit::Memory));
    }
    let printed = error.print(rt);
    if error.use_stderr() {
        return ExitCode::from(REFUSED);
    }
    let printed = printed.map_err(|error| Failure::of_output(rt.alloc(), &error));
    let noted = match (printed, error.kind()) {
        (Ok(()), ErrorKind::DisplayVersion) => print_build(rt),
        (printed, _) => printed,
    };
    match noted {
        Ok(()) => ExitCode::SUCCESS,
        Err(failure) => end(rt, &failure),
    }
}

/// The words of the command line.
fn words(rt: &HostRuntime) -> Result<Vec<String>, ExitCode> {
    let found = match env::args(rt) {
        Ok(words) => words.collect(rt.alloc()),
        Err(error) if error.kind() == io::ErrorKind::OutOfMemory => {
            return Err(end(rt, &Failure::from(Exit::Memory)));
        }
        Err(_) => {
            let _ = eprintln!(rt; "error: a word is not UTF-8");
            return Err(ExitCode::from(REFUSED));
        }
    };
    found.map_err(|_| end(rt, &Failure::from(Exit::Memory)))
}

fn main(rt: HostRuntime) -> ExitCode {
    let _held = hold_standard(&rt);
    let words = match words(&rt) {
        Ok(words) => words,
        Err(status) => return status,
    };
    let stream = LogStream::new(&rt);
    let level = LogLevel::of_environment(&rt);
    let logged = Logged::new(rt, LevelFilter::Trace, Stamped::new(rt, &stream, &level));
    match read_words(rt.alloc(), words.as_slice()) {
        Ok(Some(asked)) => match answer(&rt, &logged, &level, asked) {
            Ok(status) => status,
            Err(failure) => end(&rt, &failure),
        },
        Ok(None) => {
            let _ = eprintln!(rt; "error: no control line is named\n  the lines are {LINES}");
            ExitCode::from(REFUSED)
        }
        Err(error) => explain(&rt, &error),
    }
}
