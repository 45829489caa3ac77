//! Tests of `g1_replay` through its public calls, which no file can show: readers and writers that
//! fail, and the options of the command line. The worked traces are files, and
//! `.ci/checks/check-traces` replays them; beside it `check-faults` has tables of lines that are
//! refused, and `check-statuses` command lines with what they print.
//!
//! A crate of its own for the gate: a proof of the tests does not prove the libraries again.
#![tactic(auto)]

#[cfg(test)]
mod failing_ends;
#[cfg(test)]
mod options;
#[cfg(test)]
mod played;
#[cfg(test)]
mod reading;
#[cfg(test)]
mod streams;
