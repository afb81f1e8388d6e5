//! Tests of what no contract says: that a call answers where memory is ample, generic items at a type of the caller's own, and writers
//! and memory that fail. They stand in one crate, so that each library is proved once. What a contract says no test repeats.
#![tactic(auto)]

#[cfg(test)]
mod books;
#[cfg(test)]
mod certificates;
#[cfg(test)]
mod context_fields;
#[cfg(test)]
mod enqueues;
#[cfg(test)]
mod events;
#[cfg(test)]
mod faults;
#[cfg(test)]
mod lazy;
#[cfg(test)]
mod memory;
#[cfg(test)]
mod plans;
#[cfg(test)]
mod replays;
#[cfg(test)]
mod ring_rows;
#[cfg(test)]
mod ring_shapes;
#[cfg(test)]
mod second_runs;
#[cfg(test)]
mod sinks;
#[cfg(test)]
mod sources;
#[cfg(test)]
mod streams;
#[cfg(test)]
mod telling;
#[cfg(test)]
mod texts;
#[cfg(test)]
mod worlds;
