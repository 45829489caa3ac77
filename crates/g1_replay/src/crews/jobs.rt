//! The jobs of a crew, and the book that they leave.
ghost use Rattle.std.specs.Prelude.{◌≡◌, ◌+◌, ◌≤◌, ◌^◌, ◌<◌};
ghost use Rattle.g1_replay.specs.{[], true, IfErr, IfOk, All, map, count_by, sum_by, vec_len};
ghost use Rattle.g1_replay.specs.{vec_capacity, IsCallerOf, is_store, kept_terms, shared_terms};
ghost use Rattle.g1_replay.specs.{terms_of, slot_count, StepFits, AllFrom, IsUnstarted};
ghost use Rattle.g1_replay.specs.{first_refusal, HasCome, IsScriptAt, stored_by, layout_in};
ghost use Rattle.g1_replay.specs.{IsOpened};

use crate::scripts::{next_script, refusal_of};
use crate::stop::Stop;
use g1_history::{Book, Refusal};
use g1_layout::NoMemory;
use g1_options::Options;
use g1_shared::{Caller, Ledgers, Shared, SharedDesk, Terms};
use g1_steps::{Job, Step, run_crew};
use std::alloc::Global;
use std::marker::Send;
use std::sync::Wait;
use std::sync::ledger::Ledger;
use std::thread::Threads;

// One job for each caller, in the order of the callers: each mutator's calls, and then rounds of
// refinement.
fn jobs_of<'a, T, M: Terms, S: Ledger>(
    rt: &'a T,
    alloc: Global,
    shared: &'a Shared<M, S>,
    callers: Vec<Caller<M, S>>,
    scripts: Vec<Vec<Step>>,
    rounds: u32,
) -> Result<Vec<Job<SharedDesk<'a, T, M, S>>>, NoMemory>
    requires { AllFrom (λ k caller. IsCallerOf shared.now caller × (caller.counts.number ≡ k)) 0
        callers.items }
    ensures scripts { IfOk result (λ jobs.
        All (λ job. IsScriptAt (λ steps. steps.items) rounds scripts.items
        job.desk.caller.counts.number job.script) jobs.items) }
    ensures callers { IfOk result (λ jobs.
        map (λ job. job.desk.caller) jobs.items ≡ callers.items) }
    ensures shared { IfOk result (λ jobs.
        All (λ job. job.desk.shared.now ≡ shared.now) jobs.items) }
    ensures len { IfOk result (λ jobs. vec_len jobs ≡ vec_len callers) }
{
    let mut jobs = Vec::with_capacity(alloc, callers.len())?;
    let mut left = scripts;
    for caller in callers {
        let script = next_script(&mut left, rounds);
        jobs.push_reserved(Job {
            desk: SharedDesk::new(rt, shared, caller),
            script,
            outcome: None,
        });
    }
    Ok(jobs)
}

// The callers, how many stores they have made, and why the first job that was refused was.
fn callers_of<'a, T, M: Terms, S: Ledger>(
    jobs: Vec<Job<SharedDesk<'a, T, M, S>>>,
    room: Vec<Caller<M, S>>,
) -> (Vec<Caller<M, S>>, u64, Option<Refusal>)
    requires { (vec_len room ≡ 0) × (vec_len jobs ≤ vec_capacity room) }
    ensures callers { result.0.items ≡ map (λ job. job.desk.caller) jobs.entry.items }
    ensures len { vec_len result.0 ≡ vec_len jobs.entry }
    ensures stores { let sum = sum_by (λ caller. stored_by caller.counts) result.0.items in
        sum < 2 ^ 64 → result.1 ≡ sum }
    ensures first { result.2 ≡ first_refusal (map (λ job. job.outcome) jobs.entry.items) }
{
    let mut callers = room;
    let mut stores = 0u64;
    let mut refused = None;
    for job in jobs {
        let Job { desk, outcome, .. } = job;
        let caller = desk.into_caller();
        stores = stores.saturating_add(caller.stored());
        callers.push_reserved(caller);
        refused = refused.or(refusal_of(outcome));
    }
    (callers, stores, refused)
}

/// Runs one job for each mutator, with its script, and one for each refinement thread, over a book
/// that was opened by the options. Returns the book, how many of its entries are stores, and why
/// the first of the jobs that were refused was, in the order of the callers. What each caller made
/// are the calls that serve its script, up to its refusal, in order, and the entries of the book
/// are these and none beside.
///
/// Returns `NoMemory` if a growth for callers, jobs or scripts was refused, and `NoThread` if a
/// thread could not be started. The book is then given up.
pub(crate) fn run_jobs<T: Threads + Wait + Sync, M: Terms + Send + Sync, S: Ledger + Send + Sync>(
    rt: &T,
    alloc: Global,
    ledgers: Ledgers,
    book: Book,
    scripts: Vec<Vec<Step>>,
    options: &Options,
) -> Result<(Book, u64, Option<Refusal>), Stop>
    requires ledgers { (ledgers.made ≡ M.name) × (ledgers.stored ≡ S.name) }
    requires parts { let callers = options.now.mutators + options.now.refiners in
        (ledgers.parts ≡ callers) × (M.parts ≡ callers) × (S.parts ≡ callers) }
    requires terms { shared_terms book ledgers.records ≡ M.terms }
    requires mutators { options.now.mutators ≡ M.terms.mutators }
    requires opened { IsOpened (layout_in book) options.now book }
    requires empty { book.entries ≡ [] }
    requires count { vec_len scripts ≡ M.terms.mutators }
    requires fits { All (λ steps. All (StepFits (slot_count M.terms.layout) true) steps.items)
        scripts.items }
    ensures terms { IfOk result (λ done. terms_of done.0 ≡ kept_terms M.terms) }
    ensures stores { IfOk result (λ done. done.1 ≡ count_by is_store done.0.entries) }
    ensures came { IfOk result (λ done. HasCome
        (IsScriptAt (λ steps. steps.items) options.now.rounds scripts.items)
        (options.now.mutators + options.now.refiners) M.terms.settings.limit
        done.2 done.0.entries) }
    ensures stops { IfErr result IsUnstarted }
{
    let count = options.mutators + options.refiners;
    let room = Vec::with_capacity(alloc, count as usize)?;
    let Ok((shared, callers)) = Shared::<M, S>::open(ledgers, book, count) else {
        return Err(Stop::NoMemory);
    };
    let jobs = jobs_of(rt, alloc, &shared, callers, scripts, options.rounds)?;
    let done = run_crew(rt, alloc, jobs)?;
    let (callers, stores, refused) = callers_of(done, room);
    let book = shared.finish(callers);
    let _entries = book.entries();
    Ok((book, stores, refused))
}
