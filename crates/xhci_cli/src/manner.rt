//! How answers are told: whether they are explained, and in which colours.
use answers::Asked;
use clap::ArgMatches;
use diagnostics::Colors;
use std::env::{self, VarError};
use std::io::{IsTerminal, Write};

/// What a command is asked for beside its answer; its input isn't named yet.
pub fn manner(rt: &HostRuntime, matches: &ArgMatches) -> Asked<'static> {
    Asked {
        input: "",
        explains: explains(rt, matches),
        colors: colors(rt, matches.get_str("color")),
        classifies: false,
    }
}

/// The same of `check`, which may be asked for the class of a refusal.
pub fn manner_of_check(rt: &HostRuntime, check: &ArgMatches) -> Asked<'static> {
    let mut asked = manner(rt, check);
    asked.classifies = check.get_flag("summary") || check.contains_id("unjudged");
    asked
}

/// The same where no command is named.
pub fn unasked(rt: &HostRuntime) -> Asked<'static> {
    Asked {
        input: "",
        explains: rt.stderr().is_terminal(),
        colors: colors(rt, None),
        classifies: false,
    }
}

/// What is wrong is told in plain words too: where that is asked for, or a person reads it.
pub fn explains(rt: &HostRuntime, matches: &ArgMatches) -> bool {
    matches.get_flag("explain") || rt.stderr().is_terminal()
}

/// Whether explanations are coloured.
fn colors(rt: &HostRuntime, when: Option<&str>) -> Colors {
    let colored = match when {
        Some("always") => true,
        Some("never") => false,
        _ => rt.stderr().is_terminal() && !is_told_no_color(rt),
    };
    if colored { Colors::Ansi } else { Colors::Plain }
}

/// Whether the environment asks for no colours (https://no-color.org).
fn is_told_no_color(rt: &HostRuntime) -> bool {
    match env::var(rt, "NO_COLOR") {
        Ok(value) => !value.is_empty(),
        Err(VarError::NotPresent) => false,
        Err(_) => true,
    }
}

/// Tells a person at a terminal what is waited for, where no file is named.
pub fn tell_waiting(rt: &HostRuntime, what: &str) {
    if rt.stdin().is_terminal() {
        let _ = write_waiting(rt, what);
    }
}

fn write_waiting(rt: &HostRuntime, what: &str) -> std::io::Result<()> {
    let line = format!(in rt.alloc();
        "xhcitrace: waiting for a {what} on standard input: type or paste it, and end it with Ctrl-D; or name a file (xhcitrace --help)\n"
    )?;
    rt.stderr().write_all(line.as_bytes())
}
