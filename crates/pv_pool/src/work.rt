//! What the workers of a pool work on.

use pv_tree::Batch;
use std::sync::Wait;

/// The answer to a worker that found no job.
#[derive(Drop)]
pub enum Idle<J> {
    /// A job for it.
    Job(J),
    /// All is done.
    Done,
    /// Something changed: it is to look again, and to come with this number the next time.
    Look(u64),
}

/// Work that is cut into jobs, each of which may give further jobs.
///
/// A worker's `Told` keeps five numbers: how many jobs it was given, how many it handed in, how
/// often it was told to look again, how often it was told that all is done, and its parts. No call
/// changes the parts. Each call counts on given, handed in and looks below `told_room`.
pub trait Work {
    ghost use Rattle.std.specs.Prelude.{◌≡◌, ℕ, ◌≤◌, [], length};
    ghost use Rattle.pv_pool.specs.Counting.{Numbers, AreBelow, after_work, after_return, after_job, after_look, after_end};
    ghost use Rattle.pv_pool.specs.Idling.{MatchIdle};
    ghost use Rattle.pv_tree.specs.Limits.{told_room};

    /// A piece of the work.
    type Job: Drop + Send;

    /// What a worker keeps of what it did.
    type Told: Drop + Send;

    /// The five numbers.
    ghost numbers: { Self.Told → Numbers };

    /// Works a job, which is handed in by that. The jobs that it gives become `children`, of which
    /// there were none.
    fn work<R: Wait>(
        &self,
        rt: &R,
        worker: u64,
        job: Self::Job,
        told: &mut Self::Told,
        children: &mut Batch<Self::Job>,
    )
        requires none { children.old ≡ [] }
        requires room { AreBelow told_room (numbers told.old) }
        ensures { numbers told.new ≡ after_work (length children.new) (numbers told.old) };

    /// Hands a job in that was not worked.
    fn give_back<R: Wait>(&self, rt: &R, job: Self::Job, told: &mut Self::Told)
        requires { AreBelow told_room (numbers told.old) }
        ensures { numbers told.new ≡ after_return (numbers told.old) };

    /// Tells the others that there are new jobs to be found.
    fn announce<R: Wait>(&self, rt: &R);

    /// What a worker is to do that found no job. It may wait for another worker. `seen` is the
    /// number of the last `Look` that it was answered, and 0 before the first.
    fn idle<R: Wait>(&self, rt: &R, seen: u64, told: &mut Self::Told) -> Idle<Self::Job>
        requires { AreBelow told_room (numbers told.old) }
        ensures { MatchIdle result
            (λ _. numbers told.new ≡ after_job (numbers told.old))
            (numbers told.new ≡ after_end (numbers told.old))
            (λ _. numbers told.new ≡ after_look (numbers told.old)) };
}
