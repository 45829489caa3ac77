//! A race: what its steps leave, that it becomes a core and a race again, what a pause lists, and
//! threads that race and read.
//!
//! Each call of the library for C is a call of `g1_race`, so what its programs show is not shown
//! here again: swaps, exchanges, words and data, logs over a pause, clears and walks
//! (`tests/c/race_checks.c`).
mod again;
mod in_threads;
mod lists;
mod readers;
mod rows;
mod steps;
