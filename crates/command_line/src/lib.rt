//! The command line: what the program can be asked for, and what it is asked for.
#![tactic(auto)]

ghost use Rattle.clap.specs.Matches.{first_value, found_of};
ghost use Rattle.rule_pages.specs.Naming.{IsCalled};
ghost use Rattle.std.specs.Prelude.{◌≡◌, ◌≢◌, ◌⊎◌, ℕ, List, None, Some, IfNone, IfSome, codes};

use block_text::BlockWords;
use clap::builder::ValueParser;
use clap::error::ErrorKind;
use clap::{Arg, ArgAction, ArgMatches, Command, Error};
use rule_pages::{Subject, subject_called};
use std::alloc::{AllocError, Global};

/// The version, and the formats that are read.
const VERSION: &str = "1.0 (xtrace 1 to 4, xplan 1, xsched 1, XHCICRT1)";

const STATUSES: &str = "\
Without a command it checks the trace on standard input.

Exit status:
  0  the trace is accepted; the plan, the block, the schedule or the page of `show` is printed; a replay does no harm; a
     certificate is the trace's
  1  a row breaks a rule (row R: C Name), a line of a plan can't be followed (line L: C Name), a replay does harm, or a
     certificate isn't the trace's
  2  a line is no line of a trace, a plan or a schedule (xhcitrace: line L: C Name), a file is no certificate, a word is no
     number, a row can't be shown, or the arguments are wrong
  3  memory is wanted (xhcitrace: 30 Memory), or a file can't be opened, read or written (xhcitrace: 31 Device, and behind it a
     line that names the file)

`xhcitrace explain` has a page on each number that is printed.";

const CHECK: &str = "\
Prints `accepted: N leases`, status 0, or the first row that breaks a rule of ownership as `row R: C Name`, status 1; on
standard error the first bad line as `xhcitrace: line L: C Name`, status 2; else status 3. The certificate is the leases of the
trace, and is written before `accepted` is; of every other trace no file is written.

With --show a schedule stands behind `row R: C Name`: a run of a controller that goes no further than row R and does harm with its
last step, as `replay` tells; or `no harmful schedule found`, which doesn't say that there is none. With --search beside it more
are tried: ring by ring, runs in which the controller is late on this ring.

With --follow a trace is judged as it comes, a log or a pipe that is still written to: the first row that breaks a rule is told at
once, and nothing is read behind it. Without it the lines behind that row are read too, and a bad one is told in its place. At the
end of input an accepted trace is told as without. There is no --cert and no --show beside it.

Of several traces each is checked, in order, and `FILE: ` stands before each answer; the status is that of the worst one. There is
no certificate of several traces, and no --show.

A row that xHCI allows may be refused by the checker's profile or by the version of the trace's format alone, as --explain tells:
with --unjudged its status is another one than that of a bug. It is worse than `accepted`, and better than each other answer. With
--summary a last line is `N traces: A accepted, R refused, U not judged, B unreadable`: these have status 2 or 3.

With --format json the answer to each trace is an object on a line, and with --format sarif there is a log of all (SARIF 2.1.0);
both have what --explain says in its parts, on standard output, and so are bad lines and files that fail. The status is the same.

Examples:
  xhcitrace check --explain examples/written_to_owned.xtrace
  xhcitrace check --show examples/write_after_the_doorbell.xtrace
  xhcitrace check --cert leases examples/two_descriptors.xtrace
  xhcitrace check --summary --unjudged 0 traces/*.xtrace
  tail -n +1 -f driver.xtrace | xhcitrace check --follow -";

const WRITE: &str = "\
Prints the trace, status 0, or the first line that can't be followed as `line L: C Name`, status 1; on standard error the
first bad line as `xhcitrace: line L: C Name`, status 2; else status 3.

Example:
  printf 'xplan 1\\nring 02 xfer 0000000000030000:0004\\nsub 02 00000000 00000000 00000000 00002020\\n' | xhcitrace write -";

const REPLAY: &str = "\
Prints `took ID ADDR W W W W` for each block that the controller takes, and then `no harm`, status 0, or `step S: harm K` or
`step S: not possible`, status 1; on standard error the first bad line as `xhcitrace: line L: C Name`, status 2; else status 3.
Steps count from 1. The harms:
  1  it takes a block that wasn't declared, or not the next one      4  it looks outside the ring
  2  it takes other words than the declared ones                     5  it posts over an unread event
  3  it waits within a descriptor                                    6  an input context changed while its command is under way

Example:
  xhcitrace replay examples/write_after_the_doorbell.xtrace examples/write_after_the_doorbell.xsched";

const SCHEDULE: &str = "\
Prints the schedule, status 0, or the first row that breaks a rule of ownership as `row R: C Name`, status 1; on standard error
the first bad line as `xhcitrace: line L: C Name`, status 2; else status 3. It has all rows, and directly before each event that
is read the controller's steps that it needs. `replay` replays it and finds no harm, where the trace reads no success of a ring
that the driver holds.

Example:
  xhcitrace schedule examples/control_transfer.xtrace";

const VERIFY: &str = "\
Prints `yes`, status 0, where the trace breaks no rule and the certificate is its leases, else `no`, status 1; on standard error
that the file is no certificate as `xhcitrace: C Name`, or the first bad line of the trace as `xhcitrace: line L: C Name`,
status 2; else status 3. The certificate is read first.

Example:
  xhcitrace check --cert leases examples/two_descriptors.xtrace && xhcitrace verify examples/two_descriptors.xtrace leases";

const SHOW: &str = "\
Prints a page, status 0: whether the controller runs, the registers that were written, each ring (its endpoint and that one's
state; how many TRBs are declared, given and passed; its floor, which the controller's dequeue pointer has surely reached, and its
ceiling, which it may have reached; `open` where it goes on to what is given next), the slots, the unfinished commands, and what
is under lease with the row that gave it. Errors are those of `check`; a row that can't be shown is told with those that can
(`xhcitrace: no such row: A to B can be shown`), status 2: nothing is known behind the first row that breaks a rule.

Example:
  xhcitrace show examples/write_after_the_doorbell.xtrace";

const BENCH: &str = "\
A driver speaks on standard input and is answered on standard output: its rows as in a trace; `?` where it looks at memory, answered
by lines `w ADDR WORD`, a word that the controller wrote since, and `.`; `wait` where it waits for an event, answered likewise, or by
`idle` in place of `.` where none will come. Last comes a line, on standard error too: `no harm`, status 0; `row R: C Name`, the first
row that broke a rule (told on standard error at once), `harm K at step S`, or `step S: 27 NotPossible`, a row that reads an event which
the controller hasn't posted, status 1; of a bad line `xhcitrace: line L: C Name`, status 2; else status 3.

Example:
  mkfifo answers && ./driver <answers | xhcitrace bench --seed 7 --errors 20 --out run >answers";

const SEED_HELP: &str = "The number by which it is drawn what the controller does; without it 1";

const STEPS_HELP: &str = "The controller makes no more steps than these; without it 1000000";

const DECODE: &str = "\
Prints one line, status 0; on standard error that a word isn't 8 hex digits, status 2; else status 3.

Example:
  xhcitrace decode 00030000 00000000 01000000 01018001";

const EXPLAIN: &str = "\
Prints a page, status 0; else status 3. Of a rule (10 to 25 and 32 to 36) it tells what that is for, what a controller does to a
driver that breaks it, what to write instead, and a trace that breaks it; of what is wrong with a text (1 to 5), a certificate
(6 to 8), a plan (26), memory (30) or a file (31), and of a harm (harm-1 to harm-6), what is meant and what to do.

Examples:
  xhcitrace explain 13
  xhcitrace explain WriteToOwned
  xhcitrace explain harm-2";

/// What the program can be asked for.
pub fn command<'a>(alloc: Global) -> Result<Command<'a>, AllocError> {
    let command = Command::new(alloc, "xhcitrace")
        .about("Checks recorded traces of drivers of USB host controllers (xHCI)")
        .version(VERSION)
        .after_help(STATUSES)
        .bin_name("xhcitrace")?;
    with_pages(alloc, with_writers(alloc, with_judges(alloc, command)?)?)
}

/// The commands that judge a trace, or what belongs to one.
fn with_judges<'a>(alloc: Global, command: Command<'a>) -> Result<Command<'a>, AllocError> {
    command
        .subcommand(check(alloc)?)?
        .subcommand(verify(alloc)?)?
        .subcommand(schedule(alloc)?)?
        .subcommand(replay(alloc)?)
}

/// Those that show a trace, write one or run a driver for one.
fn with_writers<'a>(alloc: Global, command: Command<'a>) -> Result<Command<'a>, AllocError> {
    command
        .subcommand(show(alloc)?)?
        .subcommand(write(alloc)?)?
        .subcommand(bench(alloc)?)
}

/// Those that read no trace.
fn with_pages<'a>(alloc: Global, command: Command<'a>) -> Result<Command<'a>, AllocError> {
    command
        .subcommand(decode(alloc)?)?
        .subcommand(tell_page(alloc)?)
}

fn check<'a>(alloc: Global) -> Result<Command<'a>, AllocError> {
    let command = Command::new(alloc, "check")
        .about("Checks traces against the rules of ownership")
        .after_help(CHECK)
        .arg(traces(alloc))?
        .arg(certificate(alloc))?
        .arg(shown(alloc))?
        .arg(searched(alloc)?)?
        .arg(followed(alloc))?;
    with_manner(alloc, command)
}

/// How traces that are checked are answered.
fn with_manner<'a>(alloc: Global, command: Command<'a>) -> Result<Command<'a>, AllocError> {
    command
        .arg(report_format(alloc)?)?
        .arg(unjudged(alloc))?
        .arg(summary(alloc))?
        .arg(explain(alloc))?
        .arg(color(alloc))
}

fn verify<'a>(alloc: Global) -> Result<Command<'a>, AllocError> {
    Command::new(alloc, "verify")
        .about("Verifies a certificate: whether a trace breaks no rule, and these are its leases")
        .after_help(VERIFY)
        .arg(needed(alloc, "TRACE", "The file of the trace; -: standard input"))?
        .arg(needed(
            alloc,
            "CERT",
            "The file of the certificate, which is read first; -: standard input",
        ))?
        .arg(object_format(alloc)?)?
        .arg(explain(alloc))?
        .arg(color(alloc))
}

fn schedule<'a>(alloc: Global) -> Result<Command<'a>, AllocError> {
    Command::new(alloc, "schedule")
        .about(
            "Writes the lazy schedule of a trace: a run of the controller that reads all its rows",
        )
        .after_help(SCHEDULE)
        .arg(file(
            alloc,
            "TRACE",
            "The file of the trace; -, or none: standard input",
        ))?
        .arg(explain(alloc))?
        .arg(color(alloc))
}

fn write<'a>(alloc: Global) -> Result<Command<'a>, AllocError> {
    Command::new(alloc, "write")
        .about("Writes the trace of a plan: what a driver writes that declares these descriptors")
        .after_help(WRITE)
        .arg(file(
            alloc,
            "PLAN",
            "The file of the plan; -, or none: standard input",
        ))?
        .arg(explain(alloc))?
        .arg(color(alloc))
}

fn replay<'a>(alloc: Global) -> Result<Command<'a>, AllocError> {
    Command::new(alloc, "replay")
        .about("Replays a schedule beside a trace: what the controller takes, and the first harm")
        .after_help(REPLAY)
        .arg(needed(
            alloc,
            "TRACE",
            "The file of the trace, which is read first; -: standard input",
        ))?
        .arg(needed(
            alloc,
            "SCHEDULE",
            "The file of the schedule; -: standard input",
        ))?
        .arg(object_format(alloc)?)?
        .arg(explain(alloc))?
        .arg(color(alloc))
}

fn show<'a>(alloc: Global) -> Result<Command<'a>, AllocError> {
    Command::new(alloc, "show")
        .about("Shows who owns what before a row: registers, rings, slots, commands, leases")
        .after_help(SHOW)
        .arg(needed(alloc, "TRACE", "The file of the trace; -: standard input"))?
        .arg(row(alloc))?
        .arg(object_format(alloc)?)?
        .arg(explain(alloc))?
        .arg(color(alloc))
}

fn bench<'a>(alloc: Global) -> Result<Command<'a>, AllocError> {
    Command::new(alloc, "bench")
        .about("Runs a driver, live, beside the controller's model")
        .after_help(BENCH)
        .arg(number(alloc, "seed", "S", SEED_HELP))?
        .arg(policy(alloc)?)?
        .arg(errors(alloc))?
        .arg(number(alloc, "steps", "N", STEPS_HELP))?
        .arg(out(alloc))
}

fn decode<'a>(alloc: Global) -> Result<Command<'a>, AllocError> {
    Command::new(alloc, "decode")
        .about("Tells what a block (TRB) of four words says")
        .after_help(DECODE)
        .arg(word(alloc, "WORD0"))?
        .arg(word(alloc, "WORD1"))?
        .arg(word(alloc, "WORD2"))?
        .arg(word(alloc, "WORD3"))?
        .arg(explain(alloc))
}

fn tell_page<'a>(alloc: Global) -> Result<Command<'a>, AllocError> {
    Command::new(alloc, "explain")
        .about("Explains a rule, or another number that is printed")
        .after_help(EXPLAIN)
        .arg(needed(
            alloc,
            "NUMBER",
            "The number, or the name behind it in upper or lower case; a harm's is harm-1 to harm-6",
        ))?
        .arg(object_format(alloc)?)
}

/// Words that the grammar of the command line allows, and that mean nothing together.
#[derive(Clone, Copy, Debug, PartialEq, Eq)]
pub enum Misuse {
    /// An argument isn't text.
    NotText,
    /// The certificate of several traces is asked for.
    SeveralCertificates,
    /// A schedule that does harm is asked for of several traces.
    SeveralShown,
    /// A schedule that does harm is asked for in a form that has no place for it.
    ShownAsSarif,
    /// A summary is asked for of answers that aren't text.
    SummaryOfReports,
    /// A word is asked for on which there is no page.
    NoPage,
    /// Standard input is to be two inputs.
    InputTwice,
    /// The certificate would be written over the trace.
    OverTheTrace,
    /// Several traces are to be judged as they come, or a certificate or a schedule of such a trace is asked for.
    MoreThanFollowed,
}

impl Misuse {
    fn kind(self) -> ErrorKind {
        match self {
            Misuse::NotText | Misuse::NoPage => ErrorKind::InvalidValue,
            _ => ErrorKind::ArgumentConflict,
        }
    }

    fn words(self) -> &'static str {
        match self {
            Misuse::NotText =>
                "an argument isn't UTF-8: a file with such a name is read on standard input, as in xhcitrace check - <FILE",
            Misuse::SeveralCertificates =>
                "--cert writes the certificate of one trace, and several are named",
            Misuse::SeveralShown => "--show makes a schedule for one trace, and several are named",
            Misuse::ShownAsSarif =>
                "--show makes a schedule, which --format sarif has no place for; --format json has one",
            Misuse::SummaryOfReports =>
                "--summary sums up answers as text, and JSON and a SARIF log have each answer apart",
            Misuse::NoPage =>
                "there is no such page: there are those on 1 to 8, 10 to 26 and 30 to 36, by name too, as WriteToOwned, and on harm-1 to harm-6",
            Misuse::InputTwice => "standard input, -, can be one of the files alone",
            Misuse::OverTheTrace => "--cert would write the certificate over the trace",
            Misuse::MoreThanFollowed =>
                "--follow judges one trace as it comes: several traces, --cert and --show don't go with it",
        }
    }
}

/// What is told of such words.
pub fn misused(alloc: Global, misuse: Misuse) -> Result<Error, AllocError> {
    command(alloc)?.error(misuse.kind(), misuse.words())
}

fn file<'a>(alloc: Global, name: &'a str, help: &'a str) -> Arg<'a> {
    Arg::new(alloc, name).help(help)
}

fn traces<'a>(alloc: Global) -> Arg<'a> {
    Arg::new(alloc, "TRACE")
        .num_args(0..)
        .action(ArgAction::Append)
        .help("The file of the trace, or several; -, or none: standard input")
}

fn needed<'a>(alloc: Global, name: &'a str, help: &'a str) -> Arg<'a> {
    Arg::new(alloc, name).help(help).required(true)
}

fn explain<'a>(alloc: Global) -> Arg<'a> {
    Arg::new(alloc, "explain")
        .long("explain")
        .action(ArgAction::SetTrue)
        .help(
            "Says in plain words what is wrong, on standard error (as it does where that is a terminal)",
        )
}

/// In which form a command that judges traces answers.
fn report_format<'a>(alloc: Global) -> Result<Arg<'a>, AllocError> {
    Ok(
        Arg::new(alloc, "format")
            .long("format")
            .value_name("FORM")
            .value_parser(["text", "json", "sarif"].as_slice())
            .help("Answers as text, as a JSON object for each trace, or as a SARIF log of all"),
    )
}

/// In which form another command answers.
fn object_format<'a>(alloc: Global) -> Result<Arg<'a>, AllocError> {
    Ok(
        Arg::new(alloc, "format")
            .long("format")
            .value_name("FORM")
            .value_parser(["text", "json"].as_slice())
            .help("Answers as text, or as a JSON object"),
    )
}

fn certificate<'a>(alloc: Global) -> Arg<'a> {
    Arg::new(alloc, "cert").long("cert").value_name("FILE").help(
        "Writes the certificate of an accepted trace to FILE: which memory the controller owned, and when",
    )
}

/// Whether a schedule that does harm is made.
fn shown<'a>(alloc: Global) -> Arg<'a> {
    Arg::new(alloc, "show")
        .long("show")
        .action(ArgAction::SetTrue)
        .help(
            "Prints, behind a row that breaks a rule, a schedule of a controller that does harm there",
        )
}

/// Whether more schedules than two are tried to do harm.
fn searched<'a>(alloc: Global) -> Result<Arg<'a>, AllocError> {
    Arg::new(alloc, "search")
        .long("search")
        .action(ArgAction::SetTrue)
        .help("Tries more schedules for --show: in each of them the controller is late on one ring")
        .requires_arg("show")
}

/// Whether a trace is judged as it comes.
fn followed<'a>(alloc: Global) -> Arg<'a> {
    Arg::new(alloc, "follow")
        .long("follow")
        .action(ArgAction::SetTrue)
        .help(
            "Tells the first row that breaks a rule as soon as its line comes, and reads no further",
        )
}

/// With which status a row ends that isn't judged.
fn unjudged<'a>(alloc: Global) -> Arg<'a> {
    Arg::new(alloc, "unjudged")
        .long("unjudged")
        .value_name("STATUS")
        .value_parser(clap::value_parser!(u8))
        .help(
            "The status, 0 to 255, of a row that xHCI allows and the profile or the trace's version alone refuses; without it 1",
        )
}

/// Whether traces are summed up.
fn summary<'a>(alloc: Global) -> Arg<'a> {
    Arg::new(alloc, "summary")
        .long("summary")
        .action(ArgAction::SetTrue)
        .help("Prints last how many traces had which answer")
}

/// Whether explanations are coloured.
fn color<'a>(alloc: Global) -> Arg<'a> {
    Arg::new(alloc, "color")
        .long("color")
        .value_name("WHEN")
        .value_parser(ValueParser::Names(&["auto", "always", "never"]))
        .help(
            "Whether what --explain tells is coloured; auto, or none: on a terminal, unless NO_COLOR is set",
        )
}

/// The row before which a trace is shown.
fn row<'a>(alloc: Global) -> Arg<'a> {
    Arg::new(alloc, "ROW")
        .value_parser(clap::value_parser!(u32))
        .help("The row, by its line from 1; none: the first that breaks a rule, or the end")
}

/// A number that may be given.
fn number<'a>(alloc: Global, name: &'a str, value: &'a str, help: &'a str) -> Arg<'a> {
    Arg::new(alloc, name)
        .long(name)
        .value_name(value)
        .value_parser(clap::value_parser!(u64))
        .help(help)
}

/// When the controller does what it may do.
fn policy<'a>(alloc: Global) -> Result<Arg<'a>, AllocError> {
    Ok(
        Arg::new(alloc, "policy")
            .long("policy")
            .value_name("WHEN")
            .value_parser(["random", "eager", "lazy"].as_slice())
            .help("The controller does what it can as it is drawn, as soon as it can, or as late"),
    )
}

/// How often the controller tells of errors.
fn errors<'a>(alloc: Global) -> Arg<'a> {
    Arg::new(alloc, "errors")
        .long("errors")
        .value_name("PERCENT")
        .value_parser(clap::value_parser!(u8).range(..=100))
        .help("How many in a hundred events are errors, or from elsewhere; without it 0")
}

/// Where a run on the bench is kept.
fn out<'a>(alloc: Global) -> Arg<'a> {
    Arg::new(alloc, "out").long("out").value_name("NAME").help(
        "Writes the trace to NAME.xtrace and the schedule to NAME.xsched",
    )
}

/// A word of the block that is to be decoded.
fn word<'a>(alloc: Global, name: &'a str) -> Arg<'a> {
    Arg::new(alloc, name)
        .help("8 hex digits, the first word first")
        .required(true)
}

/// The words of the block that is to be decoded, in their order; none only where one of them wasn't given.
pub fn block_words<'a>(decode: &ArgMatches<'a>) -> Option<BlockWords<'a>>
    ensures first { IfSome result (λ words. Some words.first.now ≡ first_value (found_of decode.now) (codes "WORD0")) }
    ensures second { IfSome result (λ words. Some words.second.now ≡ first_value (found_of decode.now) (codes "WORD1")) }
    ensures third { IfSome result (λ words. Some words.third.now ≡ first_value (found_of decode.now) (codes "WORD2")) }
    ensures fourth { IfSome result (λ words. Some words.fourth.now ≡ first_value (found_of decode.now) (codes "WORD3")) }
    ensures none { IfNone result (((first_value (found_of decode.now) (codes "WORD0") ≡ None) ⊎ (first_value (found_of decode.now) (codes "WORD1") ≡ None))
        ⊎ ((first_value (found_of decode.now) (codes "WORD2") ≡ None) ⊎ (first_value (found_of decode.now) (codes "WORD3") ≡ None))) }
{
    Some(BlockWords {
        first: decode.get_str("WORD0")?,
        second: decode.get_str("WORD1")?,
        third: decode.get_str("WORD2")?,
        fourth: decode.get_str("WORD3")?,
    })
}

/// What is to be explained, where there is a page on the word.
pub fn subject(explain: &ArgMatches) -> Option<Subject>
    ensures { IfSome result (λ subject. (word : List ℕ) × (Some word ≡ first_value (found_of explain.now) (codes "NUMBER")) × IsCalled subject word) }
{
    subject_called(explain.get_str("NUMBER")?)
}

/// In which form a command answers.
#[derive(Clone, Copy, Debug, PartialEq, Eq)]
pub enum Format {
    /// Lines of text.
    Text,
    /// A JSON object on a line for each input.
    Json,
    /// A SARIF log of all inputs.
    Sarif,
}

/// The form that a command's answer is asked for in, by default text.
pub fn format_of(matches: &ArgMatches) -> Format {
    match matches.get_str("format") {
        Some("json") => Format::Json,
        Some("sarif") => Format::Sarif,
        _ => Format::Text,
    }
}

/// The file that is named so, where there is one and it isn't standard input.
pub fn path<'a>(matches: &ArgMatches<'a>, name: &str) -> Option<&'a str>
    ensures named { IfSome result (λ path. Some path.now ≡ first_value (found_of matches.now) name.now) }
    ensures file { IfSome result (λ path. path.now ≢ codes "-") }
    ensures input { IfNone result ((first_value (found_of matches.now) name.now ≡ None) ⊎ (first_value (found_of matches.now) name.now ≡ Some (codes "-"))) }
{
    let path = matches.get_str(name)?;
    if path == "-" { None } else { Some(path) }
}

/// The files of the traces that are to be checked, where `-` is standard input.
pub fn paths<'a>(check: &'a ArgMatches<'_>) -> &'a [&'a str] {
    check.get_strs("TRACE").unwrap_or(&[])
}

/// Whether standard input is more than one of the files.
pub fn is_read_twice(paths: &[&str]) -> bool {
    paths.iter().filter(|path| **path == "-").count() > 1
}
