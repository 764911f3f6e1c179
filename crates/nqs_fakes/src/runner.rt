//! A runner in memory, which answers the ends that it was given.

ghost use Rattle.std.specs.Prelude.{◌≡◌, ◌||◌, ◌∷◌, [], Some, false, map, is_err, IfOk};
ghost use Rattle.nqs_outside.specs.Causes.{HasCause};
ghost use Rattle.nqs_outside.specs.Memory.{next};
ghost use Rattle.nqs_outside.specs.Told.{Extends};
ghost use Rattle.nqs_outside.specs.Asked.{ran, end_of};
ghost use Rattle.nqs_fakes.specs.Failures.{fails_next};
ghost use Rattle.nqs_fakes.specs.Runner.{job_of, is_none, TakesEnd};

use crate::failures::Failures;
use crate::first::take_first;
use nqs_base::Items;
use nqs_outside::{Failed, RunEnd, Runner};
use nqs_types::RequestId;
use std::alloc::{AllocError, Global};
use std::collections::VecDeque;

/// A job that was to be run, and how it ended, if it was.
#[derive(Drop)]
pub struct JobRun {
    pub id: RequestId,
    pub start: u16,
    pub end: Option<RunEnd>,
}

/// A runner that keeps the jobs that it was to run. It answers its ends in order, and then fails.
pub struct MemRunner {
    ends: VecDeque<RunEnd>,
    kept: Items<JobRun>,
    calls: Failures,
    starved: bool,
}

// Written out, so that it is let go by a call, and not field by field in each function that owns
// one.
impl Drop for MemRunner {
    fn drop(self) {
        let MemRunner {
            ends: _,
            kept: _,
            calls: _,
            starved: _,
        } = self;
    }
}

fn copy_of(end: &RunEnd) -> Result<RunEnd, AllocError>
    ensures { IfOk result (λ e. e ≡ end.now) }
{
    let out = end.out.clone()?;
    let err = end.err.clone()?;
    Ok(RunEnd {
        status: end.status,
        out,
        err,
    })
}

fn kept_end(answer: &Result<RunEnd, Failed>) -> Result<Option<RunEnd>, AllocError>
    ensures { IfOk result (λ end. end ≡ end_of answer.now) }
{
    match answer {
        Ok(end) => Ok(Some(copy_of(end)?)),
        Err(_) => Ok(None),
    }
}

impl MemRunner {
    ghost use Rattle.nqs_fakes.specs.Runner.{runs_of};

    /// A runner with these ends, whose calls of these numbers fail, from 1 on. A call that fails
    /// leaves the ends.
    pub fn new(alloc: Global, ends: Items<RunEnd>, failing: Vec<u64>) -> MemRunner
        ensures runs { runs_of result ≡ Some [] }
        ensures ends { result.ends.items ≡ ends }
        ensures numbers { result.calls.numbers.items ≡ failing.items }
        ensures calls { result.calls.calls ≡ 0 }
        ensures faults { result.calls.faults ≡ 0 }
    {
        MemRunner {
            ends: VecDeque::from(ends.into_vec()),
            kept: Items::new(alloc),
            calls: Failures::new(failing),
            starved: false,
        }
    }

    /// The ends that it has still to answer.
    pub fn ends(&self) -> &VecDeque<RunEnd>
        ensures { result.now ≡ self.now.ends }
    {
        &self.ends
    }

    /// The jobs that were to be run.
    pub fn kept(&self) -> &[JobRun]
        ensures { result.now ≡ self.now.kept }
    {
        self.kept.as_slice()
    }

    /// Whether memory for what it keeps was refused. Where it wasn't, the runner tells all that it
    /// keeps.
    pub fn is_starved(&self) -> bool
        ensures starved { result ≡ self.now.starved }
        ensures runs { result ≡ false → runs_of self.now ≡ Some (map job_of self.now.kept) }
    {
        self.starved
    }

    fn take_end(&mut self) -> Result<RunEnd, Failed>
        ensures runs { runs_of self.new ≡ runs_of self.old }
        ensures cause { HasCause self.old.calls.faults self.new.calls.faults result }
        ensures ends { TakesEnd self.old.ends.items self.new.ends.items result }
        ensures due { is_err result ≡ (fails_next self.old.calls || is_none self.old.ends.items) }
        ensures numbers { self.new.calls.numbers.items ≡ self.old.calls.numbers.items }
        ensures calls { self.new.calls.calls ≡ next self.old.calls.calls }
    {
        self.calls.count()?;
        match take_first(&mut self.ends) {
            Some(end) => Ok(end),
            None => Err(self.calls.fail()),
        }
    }

    fn keep(&mut self, id: RequestId, start: u16, answer: &Result<RunEnd, Failed>)
        ensures runs { Extends (runs_of self.old) (runs_of self.new) (ran id start (end_of answer.now) ∷ []) }
        ensures others { (self.new.ends ≡ self.old.ends) × (self.new.calls ≡ self.old.calls) }
    {
        let Ok(end) = kept_end(answer) else {
            self.starved = true;
            return;
        };
        if self.kept.push(JobRun { id, start, end }).is_err() {
            self.starved = true;
        }
    }
}

impl Runner for MemRunner {
    ghost use Rattle.nqs_fakes.specs.Runner.{runs_of};

    ghost runs = { runs_of };

    ghost faults = { λ r. r.calls.faults };

    fn run(&mut self, id: RequestId, start: u16) -> Result<RunEnd, Failed>
        ensures runs { Extends (runs_of self.old) (runs_of self.new) (ran id start (end_of result) ∷ []) }
        ensures cause { HasCause self.old.calls.faults self.new.calls.faults result }
        ensures ends { TakesEnd self.old.ends.items self.new.ends.items result }
        ensures due { is_err result ≡ (fails_next self.old.calls || is_none self.old.ends.items) }
        ensures numbers { self.new.calls.numbers.items ≡ self.old.calls.numbers.items }
        ensures calls { self.new.calls.calls ≡ next self.old.calls.calls }
    {
        let answer = self.take_end();
        self.keep(id, start, &answer);
        answer
    }
}
