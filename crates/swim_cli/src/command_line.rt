//! The words of the command line.

use crate::control_words::ControlWords;
use crate::examples;
use crate::member_words::MemberWords;
use crate::up_words::UpWords;
use clap::builder::ValueParser;
use clap::{Arg, ArgAction, ArgMatches, Command, Error};
use std::alloc::{AllocError, Global};
use swim_shell::VERSION;

/// The greatest group number and ceiling among the words, 2^63 - 1.
const NUMBER_LIMIT: u64 = 9_223_372_036_854_775_807;

/// The most milliseconds from one comparison to the next, an hour.
const EVERY_LIMIT: u64 = 3_600_000;

/// The most runs of a simulation.
const RUNS_LIMIT: u64 = 100_000;

/// What the words ask for.
#[derive(Debug, Drop)]
pub enum Subcommand<'a> {
    /// A new state file.
    Init {
        /// Its path.
        file: &'a str,
        /// The group's number.
        group: u64,
        /// The member's endpoint, not yet judged.
        me: &'a str,
        /// The incarnation above which the member begins.
        ceiling: u64,
    },
    /// A member that runs, for which what it lacks is made.
    Up(UpWords<'a>),
    /// A member that runs.
    Run {
        /// The path of its settings.
        config: &'a str,
        /// Whether they are only shown.
        shows: bool,
    },
    /// One control line.
    Ctl {
        /// The control socket, if it is named, and the line.
        words: ControlWords<'a>,
        /// The member's folder, if that is named in its place.
        dir: Option<&'a str>,
        /// Whether as JSON, which only the lines `status`, `about` and `counters` have.
        as_json: bool,
        /// Whether to wait for nothing but the answer, which only the line `stop` has.
        at_once: bool,
    },
    /// A control line that has a command of its own: `leave`, `reload`, `record`, `counters` or `stop`.
    Line {
        /// Which member.
        of: MemberWords<'a>,
        /// The line.
        line: &'static str,
        /// Whether as JSON, which only `counters` has.
        as_json: bool,
        /// Whether to wait for nothing but the answer, which only `stop` has.
        at_once: bool,
    },
    /// What a member says of itself.
    Status {
        /// Which member.
        of: MemberWords<'a>,
        /// Whether as JSON.
        as_json: bool,
    },
    /// A member is asked to join another one.
    Join {
        /// The other one, not yet judged.
        peer: &'a str,
        /// Which member.
        of: MemberWords<'a>,
    },
    /// All rows of a member.
    Members {
        /// Which member.
        of: MemberWords<'a>,
        /// Whether as JSON.
        as_json: bool,
    },
    /// What changes of the rows of a member.
    Watch {
        /// The control sockets that are named, not yet judged.
        to: Vec<String>,
        /// The member's folder, if that is named.
        dir: Option<&'a str>,
        /// Whether as JSON.
        as_json: bool,
        /// Milliseconds from one comparison to the next.
        every: u64,
        /// Whether to end where the member does not answer.
        once: bool,
    },
    /// A server that shows what a member says.
    Web {
        /// The control sockets that are named, not yet judged.
        of: Vec<String>,
        /// A member's folder, if one is named.
        dir: Option<&'a str>,
        /// Where it listens, not yet judged.
        listen: &'a str,
    },
    /// What a state file says.
    Show {
        /// Its path.
        file: &'a str,
        /// Whether as JSON.
        as_json: bool,
    },
    /// The story of a member in recordings.
    Explain {
        /// The member's endpoint, not yet judged.
        member: &'a str,
        /// The paths of the recordings, or of folders of them.
        places: &'a [String],
        /// Whether all is printed, also what changes nothing.
        all: bool,
        /// Whether as JSON.
        as_json: bool,
    },
    /// A script from standard input.
    Play,
    /// A capture from standard input.
    Check,
    /// A group that is simulated.
    Simulate {
        /// The path of its plan, if there is one.
        plan: Option<&'a str>,
        /// What all that is drawn comes from.
        seed: u64,
        /// How many runs.
        runs: u64,
        /// The path of a file for the kills or for a sweep, if one is wanted.
        csv: Option<&'a str>,
        /// The path of a file for a picture, if one is wanted.
        svg: Option<&'a str>,
        /// The keys and numbers of a sweep, if there is one, not yet judged.
        sweep: Option<&'a str>,
    },
}

// What a command is made of ends early in these two functions alone: each early end of a function costs the prover more, the more
// values are alive there.

/// A command with one argument more.
fn with_arg<'a>(command: Result<Command<'a>, Error>, arg: Arg<'a>) -> Result<Command<'a>, Error> {
    Ok(command?.arg(arg)?)
}

/// A command with one subcommand more.
fn with_subcommand<'a>(
    command: Result<Command<'a>, Error>,
    made: Result<Command<'a>, Error>,
) -> Result<Command<'a>, Error> {
    Ok(command?.subcommand(made?)?)
}

/// A word that has to be there, by its place.
fn word<'a>(alloc: Global, id: &'a str, name: &'a str, help: &'a str) -> Arg<'a> {
    Arg::new(alloc, id)
        .required(true)
        .value_name(name)
        .help(help)
}

/// A number after its name.
fn number<'a>(alloc: Global, id: &'a str, help: &'a str) -> Arg<'a> {
    Arg::new(alloc, id)
        .long(id)
        .action(ArgAction::Set)
        .value_parser(ValueParser::unsigned(0, NUMBER_LIMIT))
        .value_name("N")
        .help(help)
}

/// `swim init FILE --group N --me A [--ceiling N]`.
fn init_command<'a>(alloc: Global) -> Result<Command<'a>, Error> {
    let group = number(alloc, "group", "The number of the group").required(true);
    let me = word(alloc, "me", "A", "The member's endpoint, as 10.0.0.1:7000").long("me");
    let ceiling = number(
        alloc,
        "ceiling",
        "The incarnation above which the member begins",
    );
    let command = Command::new(alloc, "init")
        .about("Makes a state file")
        .after_help(examples::INIT);
    let command = with_arg(
        Ok(command),
        word(alloc, "file", "FILE", "The state file to make"),
    );
    let command = with_arg(command, group);
    let command = with_arg(command, me);
    with_arg(command, ceiling.default_value("0"))
}

/// What is said of the control socket of a member.
const ADDRESS: &str =
    "The member's control socket, a path or e.g. 127.0.0.1:7001; without it and --dir that of SWIM_CONTROL, or else of the member whose folder is here, or else of the service, or else 127.0.0.1:7001";

/// The same where several may be named.
const ADDRESSES: &str =
    "The member's control socket, a path or e.g. 127.0.0.1:7001, and those of others to ask where it does not answer; without any and --dir as for `swim members`";

/// What the addresses are whose members are shown over HTTP.
const SHOWN: &str =
    "A member's control socket, a path or e.g. 127.0.0.1:7001; of several in one group the next one is asked where one does not answer, and several groups are shown together; without any and --dir as for `swim members`";

/// What is said of the folder of a member.
const FOLDER: &str = "The member's folder, whose settings name its control socket";

/// The control socket of a member.
fn address<'a>(alloc: Global) -> Arg<'a> {
    word(alloc, "addr", "ADDR", ADDRESS).required(false)
}

/// `--dir DIR`, in the place of what has this name.
fn folder<'a>(alloc: Global, other: &'a str) -> Result<Arg<'a>, Error> {
    Ok(option(alloc, "dir", "DIR", FOLDER).conflicts_with(other)?)
}

/// A command of one member, which is named by `[ADDR | --dir DIR]`.
fn of_member<'a>(alloc: Global, command: Result<Command<'a>, Error>) -> Result<Command<'a>, Error> {
    let command = with_arg(command, address(alloc));
    with_arg(command, folder(alloc, "addr")?)
}

/// `--json`.
fn json<'a>(alloc: Global) -> Arg<'a> {
    Arg::new(alloc, "json")
        .long("json")
        .action(ArgAction::SetTrue)
        .help("Prints JSON, an object a line")
}

/// `swim show FILE [--json]`.
fn show_command<'a>(alloc: Global) -> Result<Command<'a>, Error> {
    let about =
        "Prints what a state file says, and what `swim run` would do with it; it writes nothing";
    let command = Command::new(alloc, "show")
        .about(about)
        .after_help(examples::SHOW);
    let command = with_arg(
        Ok(command),
        word(
            alloc,
            "file",
            "FILE",
            "The state file, no pipe and no device",
        ),
    );
    with_arg(command, json(alloc))
}

/// `swim explain --member A [--all] [--json] PLACE..`.
fn explain_command<'a>(alloc: Global) -> Result<Command<'a>, Error> {
    let member = word(alloc, "member", "A", "The member that the story is of").long("member");
    let places = word(
        alloc,
        "files",
        "PLACE",
        "Recordings of at most 256 MiB each, or members' folders of them",
    )
    .num_args(1..)
    .trailing_var_arg(true);
    let all = Arg::new(alloc, "all")
        .long("all")
        .help("Also what changes nothing")
        .action(ArgAction::SetTrue);
    let command = Command::new(alloc, "explain")
        .about("Prints when a member was suspected, confirmed and refuted, and why")
        .after_help(examples::EXPLAIN);
    let command = with_arg(Ok(command), member);
    let command = with_arg(command, all);
    let command = with_arg(command, json(alloc));
    with_arg(command, places)
}

/// `swim status [ADDR | --dir DIR] [--json]`.
fn status_command<'a>(alloc: Global) -> Result<Command<'a>, Error> {
    let command = Command::new(alloc, "status")
        .about("Prints what a member says of itself")
        .after_help(examples::STATUS);
    let command = of_member(alloc, Ok(command));
    with_arg(command, json(alloc))
}

/// `swim join A [ADDR | --dir DIR]`.
fn join_command<'a>(alloc: Global) -> Result<Command<'a>, Error> {
    let peer = word(alloc, "peer", "A", "Whom it joins, e.g. 10.0.0.2:7000");
    let command = Command::new(alloc, "join")
        .about("Has a member join another one, and waits up to 3 seconds for it")
        .after_help(examples::JOIN);
    let command = with_arg(Ok(command), peer);
    of_member(alloc, command)
}

/// `swim leave [ADDR | --dir DIR]`.
fn leave_command<'a>(alloc: Global) -> Result<Command<'a>, Error> {
    let command = Command::new(alloc, "leave")
        .about("Has a member leave its group, which goes on answering until it is stopped")
        .after_help(examples::LEAVE);
    of_member(alloc, Ok(command))
}

/// `swim reload [ADDR | --dir DIR]`.
fn reload_command<'a>(alloc: Global) -> Result<Command<'a>, Error> {
    let command = Command::new(alloc, "reload")
        .about("Has a member read its settings again, and prints which keys need a restart")
        .after_help(examples::RELOAD);
    of_member(alloc, Ok(command))
}

/// `swim record [ADDR | --dir DIR]`.
fn record_command<'a>(alloc: Global) -> Result<Command<'a>, Error> {
    let command = Command::new(alloc, "record")
        .about("Has a member end the present era, so that its recording is written now")
        .after_help(examples::RECORD);
    of_member(alloc, Ok(command))
}

/// `swim counters [ADDR | --dir DIR] [--json]`.
fn counters_command<'a>(alloc: Global) -> Result<Command<'a>, Error> {
    let command = Command::new(alloc, "counters")
        .about("Prints what a member has counted since it began")
        .after_help(examples::COUNTERS);
    let command = of_member(alloc, Ok(command));
    with_arg(command, json(alloc))
}

/// `swim stop [ADDR | --dir DIR] [--now]`.
fn stop_command<'a>(alloc: Global) -> Result<Command<'a>, Error> {
    let command = Command::new(alloc, "stop")
        .about("Stops a member, and waits until it has ended")
        .after_help(examples::STOP);
    let command = of_member(alloc, Ok(command));
    with_arg(command, at_once(alloc))
}

/// `swim members [ADDR | --dir DIR] [--json]`.
fn members_command<'a>(alloc: Global) -> Result<Command<'a>, Error> {
    let command = Command::new(alloc, "members")
        .about("Prints all members that a member knows")
        .after_help(examples::MEMBERS);
    let command = of_member(alloc, Ok(command));
    with_arg(command, json(alloc))
}

/// `swim watch [ADDR.. | --dir DIR] [--json] [--every N] [--once]`.
fn watch_command<'a>(alloc: Global) -> Result<Command<'a>, Error> {
    let every = number(
        alloc,
        "every",
        "Milliseconds from one comparison to the next",
    )
    .value_parser(ValueParser::unsigned(1, EVERY_LIMIT))
    .default_value("1000");
    let once = Arg::new(alloc, "once")
        .long("once")
        .action(ArgAction::SetTrue)
        .help("Ends with status 1 where no member answers");
    let command = Command::new(alloc, "watch")
        .about(
            "Prints what changes of the members, a line a change, until it is stopped or nobody reads it",
        )
        .after_help(examples::WATCH);
    let addresses = word(alloc, "addr", "ADDR", ADDRESSES)
        .required(false)
        .num_args(0..);
    let command = with_arg(Ok(command), addresses);
    let command = with_arg(command, folder(alloc, "addr")?);
    let command = with_arg(command, json(alloc));
    let command = with_arg(command, every);
    with_arg(command, once)
}

/// `swim web [--of ADDR.. | --dir DIR] [--listen ADDR]`.
fn web_command<'a>(alloc: Global) -> Result<Command<'a>, Error> {
    let of = option(alloc, "of", "ADDR", SHOWN).action(ArgAction::Append);
    let listen = option(
        alloc,
        "listen",
        "ADDR",
        "Where it listens; everyone who reaches that can read the group",
    );
    let command = Command::new(alloc, "web")
        .about("Serves what a member says over HTTP: a page, metrics, all rows and its health")
        .after_help(examples::WEB);
    let command = with_arg(Ok(command), of);
    let command = with_arg(command, folder(alloc, "of")?);
    with_arg(command, listen.default_value("127.0.0.1:7080"))
}

/// `--now`.
fn at_once<'a>(alloc: Global) -> Arg<'a> {
    Arg::new(alloc, "now")
        .long("now")
        .action(ArgAction::SetTrue)
        .help("Ends at the answer to stop, and not once the member has ended")
}

/// `swim ctl [ADDR | --dir DIR] LINE.. [--json] [--now]`.
fn ctl_command<'a>(alloc: Global) -> Result<Command<'a>, Error> {
    let line =
        "The control socket, if it is another one, and then status, about, members, members A, counters, join A, leave, record, reload or stop";
    let line = word(alloc, "line", "LINE", line).num_args(1..);
    let as_json = json(alloc).help(
        "Prints the answer to status, about or counters as a JSON object",
    );
    let command = Command::new(alloc, "ctl")
        .about("Sends a control line and prints the answer")
        .after_help(examples::CTL);
    let command = with_arg(Ok(command), line);
    let command = with_arg(command, option(alloc, "dir", "DIR", FOLDER));
    let command = with_arg(command, as_json);
    with_arg(command, at_once(alloc))
}

/// A word that may stand after its name.
fn option<'a>(alloc: Global, id: &'a str, name: &'a str, help: &'a str) -> Arg<'a> {
    word(alloc, id, name, help).long(id).required(false)
}

/// `swim simulate [PLAN] [--seed N] [--runs N] [--csv FILE] [--svg FILE] [--sweep KEY=A..B,..]`.
fn simulate_command<'a>(alloc: Global) -> Result<Command<'a>, Error> {
    let seed = number(alloc, "seed", "What all that is drawn comes from").default_value("1");
    let runs = number(alloc, "runs", "How many runs, each by the next seed")
        .value_parser(ValueParser::unsigned(1, RUNS_LIMIT))
        .default_value("1");
    let csv = "A new file for the kills, a line each, or for the table of a sweep";
    let sweep =
        "Plans with each of these numbers, as suspect=20..200,loss=0..30 or suspect=20..200/20";
    let command = Command::new(alloc, "simulate")
        .about("Simulates a group, and prints how soon it noticed who was killed")
        .after_help(examples::SIMULATE);
    let command = with_arg(
        Ok(command),
        word(
            alloc,
            "plan",
            "PLAN",
            "What is simulated, a TOML table of at most 1 MiB",
        )
        .required(false),
    );
    let command = with_arg(command, seed);
    let command = with_arg(command, runs);
    let command = with_arg(command, option(alloc, "csv", "FILE", csv));
    let command = with_arg(
        command,
        option(alloc, "svg", "FILE", "A new file for a picture"),
    );
    with_arg(command, option(alloc, "sweep", "KEYS", sweep))
}

/// `swim run [--show-settings] CONFIG`.
fn run_command<'a>(alloc: Global) -> Result<Command<'a>, Error> {
    let shows = Arg::new(alloc, "show-settings")
        .long("show-settings")
        .action(ArgAction::SetTrue)
        .help("Prints the settings as they will be used, and starts nothing");
    let command = Command::new(alloc, "run")
        .about("Runs a member until it is stopped")
        .after_help(examples::RUN);
    let command = with_arg(
        Ok(command),
        word(
            alloc,
            "config",
            "CONFIG",
            "The settings, a TOML table of at most 1 MiB",
        ),
    );
    with_arg(command, shows)
}

/// What begins a member, after `swim up`: `[--first] [--ceiling N] [--ask ADDR]`.
fn with_beginning<'a>(
    alloc: Global,
    command: Result<Command<'a>, Error>,
) -> Result<Command<'a>, Error> {
    let first = Arg::new(alloc, "first")
        .long("first")
        .action(ArgAction::SetTrue)
        .help("Begins a new member in the folder of --dir, where none is");
    let ceiling = "The incarnation above which a new member begins; 0 without it";
    let ask =
        "The control socket of a member of its group, which tells the group, and what it holds of a new member: that one begins above";
    let command = with_arg(command, first);
    let command = with_arg(command, number(alloc, "ceiling", ceiling));
    with_arg(command, option(alloc, "ask", "ADDR", ask))
}

/// `swim up --me A [--join A].. [--group N] [--control A] [--preset P] [--dir DIR] [--first] [--ceiling N] [--ask ADDR]`.
fn up_command<'a>(alloc: Global) -> Result<Command<'a>, Error> {
    let me = word(
        alloc,
        "me",
        "A",
        "The member's endpoint, e.g. 10.0.0.1:7000",
    )
    .long("me");
    let join = option(alloc, "join", "A", "Whom it joins; up to eight times").action(
        ArgAction::Append,
    );
    let command = Command::new(alloc, "up")
        .about("Makes what a member lacks, its state file and its settings, and runs it")
        .after_help(examples::UP);
    let command = with_arg(Ok(command), me);
    let command = with_arg(command, join);
    let group = number(
        alloc,
        "group",
        "The number of the group; a new member that joins nobody draws one",
    );
    let command = with_arg(command, group);
    let control =
        "The control socket, a path with a slash or e.g. 127.0.0.1:7001; SWIM_CONTROL, or else `control` in the folder of both files, where they are new";
    let command = with_arg(command, option(alloc, "control", "ADDR", control));
    let preset = "The times that it takes: local, lan or wan";
    let command = with_arg(command, option(alloc, "preset", "P", preset));
    let dir = "The folder of both files; without it swim-A, in this folder";
    let command = with_arg(command, option(alloc, "dir", "DIR", dir));
    with_beginning(alloc, command)
}

/// All that the program takes.
fn command<'a>(alloc: Global) -> Result<Command<'a>, Error> {
    let play = Command::new(alloc, "play")
        .about("Plays a script or a recording from standard input, of at most 256 MiB")
        .after_help(examples::PLAY);
    let check = Command::new(alloc, "check")
        .about(
            "Looks in a capture from standard input, of at most 256 MiB, for a datagram that breaks the law of the group",
        )
        .after_help(examples::CHECK);
    let command = Command::new(alloc, "swim")
        .version(VERSION)
        .about("A member of a SWIM group that survives its own restarts")
        .bin_name("swim")?
        .propagate_version(true)
        .override_help(examples::PROGRAM)
        .subcommand_required(true);
    let command = with_subcommand(Ok(command), up_command(alloc));
    let command = with_subcommand(command, init_command(alloc));
    let command = with_subcommand(command, run_command(alloc));
    let command = with_subcommand(command, join_command(alloc));
    let command = with_subcommand(command, leave_command(alloc));
    let command = with_subcommand(command, reload_command(alloc));
    let command = with_subcommand(command, record_command(alloc));
    let command = with_subcommand(command, stop_command(alloc));
    let command = with_subcommand(command, status_command(alloc));
    let command = with_subcommand(command, counters_command(alloc));
    let command = with_subcommand(command, ctl_command(alloc));
    let command = with_subcommand(command, members_command(alloc));
    let command = with_subcommand(command, watch_command(alloc));
    let command = with_subcommand(command, web_command(alloc));
    let command = with_subcommand(command, show_command(alloc));
    let command = with_subcommand(command, explain_command(alloc));
    let command = with_subcommand(command, Ok(play));
    let command = with_subcommand(command, Ok(check));
    with_subcommand(command, simulate_command(alloc))
}

/// A word that the parser saw to.
fn text<'a>(matches: &ArgMatches<'a>, id: &str) -> &'a str {
    matches.get_str(id).unwrap_or("")
}

/// As many of the last words as there are matched files: no option stands behind the first of them.
fn last_words<'a>(words: &'a [String], matches: &ArgMatches<'a>) -> Option<&'a [String]> {
    let count = matches.get_raw("files")?.len();
    let first = words.len().checked_sub(count)?;
    words.get(first..)
}

/// What the words after `init` ask for.
fn init<'a>(words: &ArgMatches<'a>) -> Option<Subcommand<'a>> {
    let group = words.get_one::<u64>("group")?;
    let ceiling = words.get_one::<u64>("ceiling")?;
    Some(Subcommand::Init {
        file: text(words, "file"),
        group,
        me: text(words, "me"),
        ceiling,
    })
}

/// All words that stand for this.
fn texts(alloc: Global, words: &ArgMatches<'_>, id: &str) -> Result<Vec<String>, AllocError> {
    let mut texts = Vec::new(alloc);
    for word in words.get_strs(id).unwrap_or(&[]) {
        texts.push(String::from_str(alloc, word)?)?;
    }
    Ok(texts)
}

/// What the words after `up` ask for.
fn up<'a>(alloc: Global, words: &ArgMatches<'a>) -> Result<Subcommand<'a>, AllocError> {
    let join = texts(alloc, words, "join")?;
    Ok(Subcommand::Up(UpWords {
        me: text(words, "me"),
        join,
        group: words.get_one::<u64>("group"),
        control: words.get_str("control"),
        preset: words.get_str("preset"),
        dir: words.get_str("dir"),
        first: words.get_flag("first"),
        ceiling: words.get_one::<u64>("ceiling"),
        ask: words.get_str("ask"),
    }))
}

/// Which member the words of a command name.
fn member<'a>(words: &ArgMatches<'a>) -> MemberWords<'a> {
    MemberWords {
        to: words.get_str("addr"),
        dir: words.get_str("dir"),
    }
}

/// What the words after a command ask for that stands for a control line.
fn line<'a>(words: &ArgMatches<'a>, line: &'static str) -> Option<Subcommand<'a>> {
    Some(Subcommand::Line {
        of: member(words),
        line,
        as_json: words.get_flag("json"),
        at_once: words.get_flag("now"),
    })
}

/// What the words after `ctl` ask for; none where they name no line.
fn ctl<'a>(alloc: Global, words: &ArgMatches<'a>) -> Result<Option<Subcommand<'a>>, AllocError> {
    let dir = words.get_str("dir");
    let said = ControlWords::of(alloc, words.get_strs("line").unwrap_or(&[]), dir.is_some())?;
    let Some(said) = said else {
        return Ok(None);
    };
    Ok(Some(Subcommand::Ctl {
        words: said,
        dir,
        as_json: words.get_flag("json"),
        at_once: words.get_flag("now"),
    }))
}

/// What the words after `watch` ask for.
fn watch<'a>(alloc: Global, words: &ArgMatches<'a>) -> Result<Option<Subcommand<'a>>, AllocError> {
    let to = texts(alloc, words, "addr")?;
    let Some(every) = words.get_one::<u64>("every") else {
        return Ok(None);
    };
    Ok(Some(Subcommand::Watch {
        to,
        dir: words.get_str("dir"),
        as_json: words.get_flag("json"),
        every,
        once: words.get_flag("once"),
    }))
}

/// What the words after `web` ask for.
fn web<'a>(alloc: Global, words: &ArgMatches<'a>) -> Result<Subcommand<'a>, AllocError> {
    Ok(Subcommand::Web {
        of: texts(alloc, words, "of")?,
        dir: words.get_str("dir"),
        listen: text(words, "listen"),
    })
}

/// What the words after `explain` ask for, which are among all words.
fn explain<'a>(words: &ArgMatches<'a>, all: &'a [String]) -> Option<Subcommand<'a>> {
    let places = last_words(all, words)?;
    Some(Subcommand::Explain {
        member: text(words, "member"),
        places,
        all: words.get_flag("all"),
        as_json: words.get_flag("json"),
    })
}

/// What the words after `simulate` ask for.
fn simulate<'a>(words: &ArgMatches<'a>) -> Option<Subcommand<'a>> {
    let seed = words.get_one::<u64>("seed")?;
    let runs = words.get_one::<u64>("runs")?;
    Some(Subcommand::Simulate {
        plan: words.get_str("plan"),
        seed,
        runs,
        csv: words.get_str("csv"),
        svg: words.get_str("svg"),
        sweep: words.get_str("sweep"),
    })
}

/// What the matched words ask for.
fn chosen<'a>(matches: &ArgMatches<'a>, all: &'a [String]) -> Option<Subcommand<'a>> {
    let (name, words) = matches.subcommand()?;
    match name {
        "init" => init(words),
        "run" => Some(Subcommand::Run {
            config: text(words, "config"),
            shows: words.get_flag("show-settings"),
        }),
        "status" => Some(Subcommand::Status {
            of: member(words),
            as_json: words.get_flag("json"),
        }),
        "join" => Some(Subcommand::Join {
            peer: text(words, "peer"),
            of: member(words),
        }),
        "members" => Some(Subcommand::Members {
            of: member(words),
            as_json: words.get_flag("json"),
        }),
        "leave" => line(words, "leave"),
        "reload" => line(words, "reload"),
        "record" => line(words, "record"),
        "counters" => line(words, "counters"),
        "stop" => line(words, "stop"),
        "show" => Some(Subcommand::Show {
            file: text(words, "file"),
            as_json: words.get_flag("json"),
        }),
        "explain" => explain(words, all),
        "play" => Some(Subcommand::Play),
        "check" => Some(Subcommand::Check),
        "simulate" => simulate(words),
        _ => None,
    }
}

/// What the matched words ask for, where memory is needed for it too.
fn asked<'a>(
    alloc: Global,
    matches: &ArgMatches<'a>,
    all: &'a [String],
) -> Result<Option<Subcommand<'a>>, AllocError> {
    match matches.subcommand() {
        Some(("up", words)) => Ok(Some(up(alloc, words)?)),
        Some(("ctl", words)) => ctl(alloc, words),
        Some(("watch", words)) => watch(alloc, words),
        Some(("web", words)) => Ok(Some(web(alloc, words)?)),
        _ => Ok(chosen(matches, all)),
    }
}

/// What the words ask for, the program's name among them; none where they ask for nothing that is known. An error is
/// help, a version or a mistake, with its text; want of memory is of kind `OutOfMemory`.
pub fn read_words<'a>(alloc: Global, words: &'a [String]) -> Result<Option<Subcommand<'a>>, Error> {
    let command = command(alloc)?;
    let matches = command.try_get_matches_from(words)?;
    Ok(asked(alloc, &matches, words)?)
}
