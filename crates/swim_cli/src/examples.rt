//! Examples, which stand at the end of the help texts. Each line is a command and what it does, with two spaces or more between them.

/// The help of the program: its commands by what they are for, each with what its own help begins with.
pub(crate) const PROGRAM: &str = "A member of a SWIM group that survives its own restarts

Usage: swim <COMMAND>

Run:
  up        Makes what a member lacks, its state file and its settings, and runs it
  init      Makes a state file
  run       Runs a member until it is stopped
  join      Has a member join another one, and waits up to 3 seconds for it
  leave     Has a member leave its group, which goes on answering until it is stopped
  reload    Has a member read its settings again, and prints which keys need a restart
  record    Has a member end the present era, so that its recording is written now
  stop      Stops a member, and waits until it has ended

Look:
  status    Prints what a member says of itself
  members   Prints all members that a member knows
  watch     Prints what changes of the members, a line a change, until it is stopped or nobody reads it
  web       Serves what a member says over HTTP: a page, metrics, all rows and its health
  counters  Prints what a member has counted since it began
  ctl       Sends a control line and prints the answer

Explain:
  show      Prints what a state file says, and what `swim run` would do with it; it writes nothing
  explain   Prints when a member was suspected, confirmed and refuted, and why

Try:
  simulate  Simulates a group, and prints how soon it noticed who was killed
  play      Plays a script or a recording from standard input, of at most 256 MiB

Check:
  check     Looks in a capture from standard input, of at most 256 MiB, for a datagram that breaks the law of the group
  help      Print this message or the help of the given subcommand(s)

Options:
  -h, --help     Print help
  -V, --version  Print version

Examples:
  swim up --me 127.0.0.1:7000                         runs a member, and makes its files the first time
  swim up --me 127.0.0.1:7002 --join 127.0.0.1:7000   another one, which joins it
  swim members                                        prints whom it knows
  swim stop                                           stops it
  swim help run                                       says more about one command
";

/// Examples of `swim up`.
pub(crate) const UP: &str = "Examples:
  swim up --me 10.0.0.1:7000                                     the first member of a group, which draws its number
  swim up --me 10.0.0.2:7000 --join 10.0.0.1:7000 --group 7      another one, which joins it
  swim up --me 10.0.0.2:7000                                     the same, from the second time on
  swim up --me 10.0.0.2:7000 --dir /var/lib/swim/2 --first --group 7 --join 10.0.0.1:7000   in a folder of its own, the first time
  swim up --me 10.0.0.2:7000 --ask 10.0.0.1:7001 --join 10.0.0.1:7000   on a new disk, above what the group holds of it";

/// Examples of `swim init`.
pub(crate) const INIT: &str = "Examples:
  swim init member.state --group 7 --me 10.0.0.1:7000                    makes the file of a new member
  swim init member.state --group 7 --me 10.0.0.1:7000 --ceiling 1000003  in the place of a lost one";

/// Examples of `swim run`.
pub(crate) const RUN: &str = "Examples:
  swim run member.toml                  runs until the control line stop
  swim run --show-settings member.toml  prints all keys with their values";

/// Examples of `swim status`.
pub(crate) const STATUS: &str = "Examples:
  swim status                                    of the member whose folder is here, or of the service
  swim status --dir swim-10.0.0.1:7000           of the member of this folder
  swim status 10.0.0.1:7001 --json               of one whose control socket is TCP, as an object";

/// Examples of `swim join`.
pub(crate) const JOIN: &str = "Examples:
  swim join 10.0.0.2:7000  asks the member at 10.0.0.2:7000 for all that it knows";

/// Examples of `swim leave`.
pub(crate) const LEAVE: &str = "Examples:
  swim leave  the others hold it for failed at once; then stop it";

/// Examples of `swim reload`.
pub(crate) const RELOAD: &str = "Examples:
  swim reload                           takes the keys that need no restart
  swim reload --dir swim-10.0.0.1:7000  the same of the member of this folder";

/// Examples of `swim record`.
pub(crate) const RECORD: &str = "Examples:
  swim record  then `swim explain` tells the story up to now";

/// Examples of `swim counters`.
pub(crate) const COUNTERS: &str = "Examples:
  swim counters         what the member has done since it began
  swim counters --json  the same as an object";

/// Examples of `swim stop`.
pub(crate) const STOP: &str = "Examples:
  swim stop        ends once the member has ended
  swim stop --now  ends at its answer";

/// Examples of `swim ctl`.
pub(crate) const CTL: &str = "Examples:
  swim ctl counters                                 what the member has done since it began
  swim ctl 127.0.0.1:7001 join 10.0.0.2:7000        has it join another one
  swim ctl --dir swim-10.0.0.1:7000 members         the first thirty rows of the member of this folder";

/// Examples of `swim members`.
pub(crate) const MEMBERS: &str = "Examples:
  swim members                                  a table of all members
  swim members --dir swim-10.0.0.1:7000 --json  an object a line, for scripts";

/// Examples of `swim watch`.
pub(crate) const WATCH: &str = "Examples:
  swim watch                              each change, until it is stopped
  swim watch --json --every 500           for scripts, twice a second
  swim watch 10.0.0.1:7001 10.0.0.2:7001  the second one while the first does not answer";

/// Examples of `swim web`.
pub(crate) const WEB: &str = "Examples:
  swim web                                        of the member whose folder is here, at http://127.0.0.1:7080
  swim web --dir 1 --listen 127.0.0.1:8080        of another one, elsewhere
  swim web --of 10.0.0.1:7001 --of 10.0.0.2:7001  of the second one while the first does not answer
  swim web --of 10.0.0.1:7001 --of 10.0.9.1:7001  of both groups, if they are of two";

/// Examples of `swim show`.
pub(crate) const SHOW: &str = "Examples:
  swim show member.state         what it holds, and whether a member would start
  swim show member.state --json  the same as an object";

/// Examples of `swim explain`.
pub(crate) const EXPLAIN: &str = "Examples:
  swim explain --member 10.0.0.2:7000 /var/lib/swim/recordings  why it was suspected
  swim explain --member 10.0.0.2:7000 member1 member3           what two members saw, by time
  swim explain --member 10.0.0.2:7000 --all --json member1      all, as an object a line";

/// Examples of `swim play`.
pub(crate) const PLAY: &str = "Examples:
  swim play < restart.swim  prints what a member does in a script
  swim play < recording     prints what a member did in a recorded era";

/// Examples of `swim check`.
pub(crate) const CHECK: &str = "Examples:
  swim check < capture  says which datagram breaks the law first";

/// Examples of `swim simulate`.
pub(crate) const SIMULATE: &str = "Examples:
  swim simulate                                       50 members for ten minutes
  swim simulate plan.toml --runs 20 --csv kills.csv   twenty runs, a line for each kill
  swim simulate plan.toml --sweep suspect=20..100/20  a line for each setting";
