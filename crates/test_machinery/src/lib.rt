//! Tests of the machinery through its public calls: of the parts that a core is made of, of the
//! core, of a race ([`races`]), and of what all tests share ([`support`]).
//!
//! A crate of its own for the gate: a proof of the tests does not prove the libraries again. What a
//! worked trace (examples/traces) or a scenario of `gate_growths` shows has no test here.
#![tactic(auto)]

#[cfg(test)]
mod cores;
#[cfg(test)]
mod heap;
#[cfg(test)]
mod hot;
#[cfg(test)]
mod layout;
#[cfg(test)]
mod line;
#[cfg(test)]
mod line_in_threads;
#[cfg(test)]
mod logs;
#[cfg(test)]
mod races;
#[cfg(test)]
mod sets;
#[cfg(test)]
mod support;
