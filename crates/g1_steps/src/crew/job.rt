//! A crew: workers in threads of their own.
ghost use Rattle.std.specs.Prelude.{◌≡◌, ◌<◌, ◌≤◌};
ghost use Rattle.g1_steps.specs.Prelude.{[], map, IfOk, IfErr, All, vec_len, vec_capacity};
ghost use Rattle.g1_steps.specs.Prelude.{AllZip};
ghost use Rattle.g1_steps.specs.Ask.{JobRan, JobFits, JobEnded, IsAnswered};

use crate::crew::desk::{Desk, Outcome, Script};
use crate::crew::worker::{mutate, refiner};
use std::alloc::Global;
use std::marker::Send;
use std::snapshot::Snapshot;
use std::sync::Wait;
use std::thread;
use std::thread::{Promise, PromisedHandle, Scope, Threads};

/// A worker's desk and script, and after the run its outcome.
#[derive(Drop)]
pub struct Job<D> {
    /// Where its calls are made.
    pub desk: D,
    /// What the worker does.
    pub script: Script,
    /// `None` before the run; then what the worker returned.
    pub outcome: Option<Outcome>,
}

/// A thread could not be started, or room for it was refused. The threads that were started have
/// been joined, and the desks are given up.
#[derive(Drop, Debug, Clone, Copy, PartialEq, Eq, thiserror::Error)]
#[error("no thread")]
pub struct NotStarted;

/// Runs the script at the desk.
fn run_job<D: Desk>(job: Job<D>) -> Job<D>
    requires { JobFits D.slots D.may_store job }
    ensures ran { JobRan D.did job result }
    ensures ended { JobEnded (IsAnswered D.stored D.flushed D.worked) D.refused job result }
{
    let Job {
        mut desk,
        script,
        ..
    } = job;
    let outcome = match &script {
        Script::Mutate(steps) => mutate(&mut desk, steps.as_slice()),
        Script::Refine(rounds) => refiner(&mut desk, *rounds),
    };
    Job {
        desk,
        script,
        outcome: Some(outcome),
    }
}

/// The job that a thread began with.
#[derive(Drop)]
struct Begun<D>(Snapshot<Job<D>>);

/// A thread that runs a job.
type Running<D> = PromisedHandle<Job<D>, Begun<D>>;

impl<D: Desk> Promise<Job<D>> for Begun<D> {
    ghost kept_by = { λ p r. JobRan D.did p.0.value r
        × JobEnded (IsAnswered D.stored D.flushed D.worked) D.refused p.0.value r };
}

/// Starts a thread for each job, or gives back those that were started.
fn start_all<'s, E, D: Desk + Send + Drop + 's>(
    scope: &Scope<'s, E>,
    jobs: Vec<Job<D>>,
    room: Vec<Running<D>>,
) -> Result<Vec<Running<D>>, Vec<Running<D>>>
    requires fits { All (JobFits D.slots D.may_store) jobs.items }
    requires empty { room.items ≡ [] }
    requires room { vec_len jobs ≤ vec_capacity room }
    ensures ok { IfOk result (λ all. map (λ h. h.promise.0.value) all.items ≡ jobs.items) }
    ensures err { IfErr result (λ all. vec_len all ≤ vec_len jobs) }
{
    let mut running = room;
    for job in jobs {
        let begun = Begun(Snapshot::of(&job));
        let work = move || -> Job<D>
            requires { JobFits D.slots D.may_store job }
            ensures ran { JobRan D.did job result }
            ensures ended { JobEnded (IsAnswered D.stored D.flushed D.worked) D.refused job result }
        { run_job(job) };
        match scope.spawn_with(begun, work) {
            Ok(handle) => running.push_reserved(handle),
            Err(_) => return Err(running),
        }
    }
    Ok(running)
}

/// Joins the threads in order.
#[tactic(auto, using(crate::specs::append_assoc, crate::proofs::all_zip_push))]
fn join_all<D: Desk + Drop, R: Threads>(
    rt: &R,
    running: Vec<Running<D>>,
    room: Vec<Job<D>>,
) -> Vec<Job<D>>
    requires empty { room.items ≡ [] }
    requires room { vec_len running ≤ vec_capacity room }
    ensures ran { AllZip (JobRan D.did) (map (λ h. h.promise.0.value) running.items) result.items }
    ensures ended { AllZip (JobEnded (IsAnswered D.stored D.flushed D.worked) D.refused)
        (map (λ h. h.promise.0.value) running.items) result.items }
{
    let mut done = room;
    for handle in running {
        done.push_reserved(handle.join(rt));
    }
    done
}

/// Runs each job in a thread of its own (docs/rules.md, Workers and a crew).
///
/// Every job is started before one is joined. The jobs are returned in their order, each with its
/// script, its outcome, and the desk at which exactly the calls of that outcome were made: a worker
/// whose call is refused makes no further one. Room for handles and jobs is made first. After
/// `NotStarted` the threads that were started have been joined, and the desks are given up.
pub fn run_crew<D: Desk + Send + Drop, R: Threads + Wait + Sync>(
    rt: &R,
    alloc: Global,
    jobs: Vec<Job<D>>,
) -> Result<Vec<Job<D>>, NotStarted>
    requires { All (JobFits D.slots D.may_store) jobs.items }
    ensures ran { IfOk result (λ done. AllZip (JobRan D.did) jobs.items done.items) }
    ensures ended { IfOk result (λ done.
        AllZip (JobEnded (IsAnswered D.stored D.flushed D.worked) D.refused)
        jobs.items done.items) }
{
    let Ok(running) = Vec::with_capacity(alloc, jobs.len()) else {
        return Err(NotStarted);
    };
    let Ok(done) = Vec::with_capacity(alloc, jobs.len()) else {
        return Err(NotStarted);
    };
    thread::scope(
        thread::scope_env(),
        rt,
        |scope| -> Result<Vec<Job<D>>, NotStarted>
            requires fits { All (JobFits D.slots D.may_store) jobs.items }
            requires empty { (running.items ≡ []) × (done.items ≡ []) }
            requires room { (vec_len jobs ≤ vec_capacity running)
                × (vec_len jobs ≤ vec_capacity done) }
            ensures ran { IfOk result (λ done. AllZip (JobRan D.did) jobs.items done.items) }
            ensures ended { IfOk result (λ done.
                AllZip (JobEnded (IsAnswered D.stored D.flushed D.worked) D.refused)
                jobs.items done.items) }
        {
            match start_all(scope, jobs, running) {
                Ok(running) => Ok(join_all(rt, running, done)),
                Err(running) => {
                    drop(join_all(rt, running, done));
                    Err(NotStarted)
                }
            }
        },
    )
}
