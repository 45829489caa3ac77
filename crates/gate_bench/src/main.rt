//! Makes one call of a core or of a race a number of times, and prints a checksum of what it
//! answered.
//!
//! What a call costs in instructions is the difference of two runs under callgrind, by the
//! difference of their numbers of calls: making the heap and recording its references is the same
//! in both. `measure` in this folder prints the tables.
//!
//! - [`stores`]: the list of stores, and where they go.
//! - [`core_calls`]: the calls of a core.
//! - [`race_calls`]: those of a race, and at its pause.
#![tactic(auto)]

mod core_calls;
mod race_calls;
mod stores;

use core_calls::CoreCalls;
use g1_layout::{Layout, NoMemory};
use g1_race::Race;
use race_calls::{RaceCalls, pause, refine};
use std::alloc::Global;
use std::env;
use std::process::ExitCode;
use stores::{Barrier, Nowhere, Target, list_of, store_all};

const USAGE: &str = "usage: gate_bench CALL TIMES REGIONS CARDS SLOTS REFERENCES\n";

// One run: what is called, how often, on which heap, and how many slots of each of its cards refer
// into other regions.
#[derive(Drop)]
struct Plan<'a> {
    call: &'a str,
    times: u32,
    layout: Layout,
    references: u32,
}

fn main(rt: HostRuntime) -> ExitCode {
    let Some(words) = words_of(&rt) else {
        return refused(&rt);
    };
    let Some(plan) = read_plan(words.as_slice()) else {
        let _ = rt.eprint(USAGE);
        return ExitCode::from(1);
    };
    match checksum_of(rt.alloc(), &plan) {
        Err(NoMemory) => refused(&rt),
        Ok(None) => {
            let _ = rt.eprint(USAGE);
            ExitCode::from(1)
        }
        Ok(Some(checksum)) => match println!(rt; "checksum {checksum}") {
            Ok(()) => ExitCode::from(0),
            Err(_) => ExitCode::from(5),
        },
    }
}

fn refused(rt: &HostRuntime) -> ExitCode {
    let _ = rt.eprint("no memory\n");
    ExitCode::from(3)
}

// The words of the command line after the program's name.
fn words_of(rt: &HostRuntime) -> Option<Vec<String>> {
    let words = env::args(rt).ok()?;
    let mut texts = Vec::new(rt.alloc());
    for word in words.skip(1) {
        texts.push(word).ok()?;
    }
    Some(texts)
}

// The plan of these words. `None` where one of them is missing or is none.
fn read_plan(words: &[String]) -> Option<Plan<'_>> {
    let [call, times, regions, cards, slots, references] = words else {
        return None;
    };
    let regions = number_of(regions)?;
    let cards = number_of(cards)?;
    let slots = number_of(slots)?;
    Some(Plan {
        call: call.as_str(),
        times: number_of(times)?,
        layout: Layout::large(regions, cards, slots)?,
        references: number_of(references)?,
    })
}

fn number_of(word: &String) -> Option<u32> {
    word.as_str().parse::<u32>().ok()
}

// The checksum of the calls that are planned, or `None` if there is no such call.
fn checksum_of(alloc: Global, plan: &Plan) -> Result<Option<u64>, NoMemory> {
    if let Some(call) = plan.call.strip_prefix("walk-") {
        let mut nowhere = Nowhere::new(plan.layout);
        let is_one = make_stores(alloc, &mut nowhere, call, plan)?;
        return Ok(is_one.then_some(nowhere.checksum()));
    }
    if let Some(call) = plan.call.strip_prefix("raced-") {
        return by_race(alloc, call, plan);
    }
    by_core(alloc, plan)
}

// Makes stores of this name, if there are such.
fn make_stores<B: Barrier>(
    alloc: Global,
    barrier: &mut B,
    call: &str,
    plan: &Plan,
) -> Result<bool, NoMemory> {
    let target = match call {
        "null" => Target::Null,
        "same-region" => Target::SameRegion,
        "logged" | "dirty" => Target::OtherRegion(0),
        _ => return Ok(false),
    };
    let list = list_of(alloc, plan.layout, target)?;
    if call == "dirty" {
        store_all(barrier, list.as_slice());
    }
    store_all(barrier, first_of(list.as_slice(), plan.times));
    Ok(true)
}

// The first stores of a list, or all if it has no more.
fn first_of(list: &[(u32, u32)], times: u32) -> &[(u32, u32)] {
    list.get(..times as usize).unwrap_or(list)
}

fn by_core(alloc: Global, plan: &Plan) -> Result<Option<u64>, NoMemory> {
    let times = plan.times;
    let list = list_of(alloc, plan.layout, Target::OtherRegion(0))?;
    let first = first_of(list.as_slice(), times);
    let mut calls = CoreCalls::new(alloc, plan.layout, plan.references)?;
    match plan.call {
        "refine" => calls.refine(first)?,
        "drain" => {
            store_all(&mut calls, first);
            calls.drain()?;
        }
        "idle-drain" => calls.drain_again(times)?,
        "clear" => calls.clear(times),
        "redirect" => calls.redirect(times)?,
        "paused-logged" => pause(alloc, &mut calls, first, 0)?,
        "paused-drain" => pause(alloc, &mut calls, first, 1)?,
        "paused-idle-drain" => pause(alloc, &mut calls, &[], times)?,
        call => {
            if !make_stores(alloc, &mut calls, call, plan)? {
                return Ok(None);
            }
        }
    }
    Ok(Some(calls.checksum()))
}

fn by_race(alloc: Global, call: &str, plan: &Plan) -> Result<Option<u64>, NoMemory> {
    let (race, mut racers, mut sweepers) = Race::open(alloc, plan.layout, 1, 1)?;
    let (racer, sweeper) = (&mut racers[0], &mut sweepers[0]);
    let mut calls = RaceCalls::new(&race, racer);
    if call == "refine" {
        // (which records each reference before)
        make_stores(alloc, &mut calls, "dirty", plan)?;
        refine(&race, sweeper, plan.layout.card_count());
        return Ok(Some(refine(&race, sweeper, plan.times)));
    }
    let is_one = make_stores(alloc, &mut calls, call, plan)?;
    Ok(is_one.then_some(calls.checksum()))
}
