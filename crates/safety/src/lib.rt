//! The headline: rows that break no rule do no harm, whatever a controller does beside them. Definitions and proofs, no code.
//! `RingChanges` has rings that come and go and descriptors that are withdrawn, `LazyRuns` the run of a controller that looks as late as it can.
#![tactic(auto)]
