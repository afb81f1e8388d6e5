//! Tests of the program's runs over readers and writers in memory: what no contract says of them. They stand behind `command_runs`, apart from the
//! tests of what lies below it, which need not wait for it.
#![tactic(auto)]

#[cfg(test)]
mod runs;
