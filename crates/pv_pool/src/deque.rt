//! The deques of the pool under their rule: each job that is pushed on a deque is taken once, or
//! is left there.
ghost use Rattle.std.specs.Prelude.{◌≡◌, ℕ, ◌+◌, ◌-◌, ◌<◌, [], ◌∷◌, ◌++◌, ◌≤◌, ◌⊎◌, length, IfOk, IfSome, IfNone, MatchOption, MatchResult};
ghost use Rattle.crossbeam_deque.specs.Handles.{view, taken, IsPassOf, worker_deque, worker_view, worker_flavor, stealer_deque};
ghost use Rattle.pv_pool.specs.Hands.{SameBag, hand};
ghost use Rattle.pv_tree.specs.declared.limit.TheConstants.{MOST_WORKERS};

use crossbeam_deque::protocol::{Join, Outcome, Protocol, Split};
use crossbeam_deque::{Pass, Steal, Stealer, Worker};
use std::alloc::{AllocError, Global};
use std::collections::LinkedList;

/// What a pass of a deque knows: its parts, and the jobs that went through it. No value of it is
/// made.
pub struct Hand<J> {
    /// Its parts of the right to know the whole. All passes of a deque have 16 together.
    pub parts: u64,
    /// The jobs that it pushed.
    pub pushed: LinkedList<J>,
    /// The jobs that it popped or stole.
    pub taken: LinkedList<J>,
}

/// The rule of a deque.
pub struct Fair;

impl<J> Protocol<J, Hand<J>> for Fair {
    ghost use Rattle.std.specs.Prelude.{[]};
    ghost use Rattle.pv_pool.specs.Hands.{hand, Balanced};
    ghost use Rattle.pv_tree.specs.declared.limit.TheConstants.{MOST_WORKERS};

    ghost holds = { Balanced };

    ghost first = { hand MOST_WORKERS [] [] };

    ghost guest = { hand 0 [] [] };
}

/// A pass is cut in two, of which the second has one part.
pub struct Cut;

impl<J> Split<Hand<J>> for Cut {
    ghost use Rattle.std.specs.Prelude.{◌-◌, []};
    ghost use Rattle.pv_pool.specs.Hands.{hand};

    ghost left = { λ v. hand (v.parts - 1) v.pushed v.taken };

    ghost right = { λ v. hand 1 [] [] };
}

impl<J> Join<Hand<J>> for Cut {
    ghost use Rattle.std.specs.Prelude.{◌+◌, ◌++◌, []};
    ghost use Rattle.pv_pool.specs.Hands.{hand};

    ghost both = { λ v w. hand (v.parts + w.parts) (v.pushed ++ w.pushed) (v.taken ++ w.taken) };

    ghost spent = { hand 0 [] [] };
}

/// A push.
pub struct Pushing;

impl<J> Outcome<J, Hand<J>> for Pushing {
    ghost use Rattle.std.specs.Prelude.{◌≡◌, ◌++◌};
    ghost use Rattle.pv_pool.specs.Hands.{hand};

    ghost then = { λ v xs w. w ≡ hand v.parts (v.pushed ++ xs) v.taken };
}

/// A steal. Where it finds no job, a pass that has all parts took all that was pushed but one at
/// most, which the deque's own worker may be about to pop.
pub struct Stealing;

impl<J> Outcome<J, Hand<J>> for Stealing {
    ghost use Rattle.std.specs.Prelude.{◌≡◌, ◌+◌, ◌++◌, ◌≤◌, length};
    ghost use Rattle.pv_pool.specs.Hands.{hand};
    ghost use Rattle.pv_tree.specs.declared.limit.TheConstants.{MOST_WORKERS};

    ghost then = { λ v xs w. w ≡ hand v.parts v.pushed (v.taken ++ xs) };

    ghost empty = { λ v. v.parts ≡ MOST_WORKERS → length v.pushed ≤ length v.taken + 1 };
}

/// A pop. Where its pass has all parts, it took no more than was pushed, and all of it where it
/// finds no job.
pub struct Popping;

impl<J> Outcome<J, Hand<J>> for Popping {
    ghost use Rattle.std.specs.Prelude.{◌≡◌, ◌++◌, ◌≤◌, length};
    ghost use Rattle.pv_pool.specs.Hands.{hand, SameBag};
    ghost use Rattle.pv_tree.specs.declared.limit.TheConstants.{MOST_WORKERS};

    ghost then = { λ v xs w. (w ≡ hand v.parts v.pushed (v.taken ++ xs)) × (v.parts ≡ MOST_WORKERS → length w.taken ≤ length w.pushed) };

    ghost empty = { λ v. v.parts ≡ MOST_WORKERS → SameBag v.pushed v.taken };
}

/// The end of a deque that its own worker uses.
#[derive(Drop)]
pub struct Owner<J: Drop> {
    pub worker: Worker<J, Global, Hand<J>, Fair>,
    ghost lifo: { worker_flavor worker ≡ 1 },
}

impl<J: Drop> Owner<J> {
    /// An empty deque.
    pub fn new(alloc: Global) -> Result<Owner<J>, AllocError>
        ensures { IfOk result (λ o. worker_view o.worker ≡ hand MOST_WORKERS [] []) }
    {
        let worker = Worker::lifo_as(alloc, 64)?;
        Ok(Owner { worker })
    }

    /// Pushes a job, or hands it back.
    pub fn push(&mut self, job: J) -> Result<(), J>
        requires { 0 < (worker_view self.old.worker).parts }
        ensures same { worker_deque self.new.worker ≡ worker_deque self.old.worker }
        ensures pushed { MatchResult result
            (λ _. worker_view self.new.worker ≡ hand (worker_view self.old.worker).parts
            ((worker_view self.old.worker).pushed ++ job ∷ [])
            (worker_view self.old.worker).taken)
            (λ back. (back ≡ job) × (worker_view self.new.worker ≡ worker_view self.old.worker)) }
    {
        self.worker.push_as::<Pushing>(job)
    }

    /// Takes the last job.
    pub fn pop(&mut self) -> Option<J>
        requires { 0 < (worker_view self.old.worker).parts }
        ensures same { worker_deque self.new.worker ≡ worker_deque self.old.worker }
        ensures popped { MatchOption result
            ((worker_view self.new.worker ≡ worker_view self.old.worker)
            × ((worker_view self.old.worker).parts ≡ MOST_WORKERS →
            SameBag (worker_view self.old.worker).pushed
            (worker_view self.old.worker).taken))
            (λ x. worker_view self.new.worker ≡ hand (worker_view self.old.worker).parts
            (worker_view self.old.worker).pushed
            ((worker_view self.old.worker).taken ++ x ∷ [])) }
        ensures within { IfSome result (λ _. (worker_view self.old.worker).parts ≡ MOST_WORKERS →
            length (worker_view self.new.worker).taken ≤ length
            (worker_view self.new.worker).pushed) }
    {
        self.worker.pop_as::<Popping>()
    }
}

impl<J: Drop> Owner<J> {
    /// A way to steal from this deque, for another worker. `number` says whose deque it is.
    pub fn share(&mut self, number: usize) -> Result<Thief<J>, AllocError>
        requires { 1 < (worker_view self.old.worker).parts }
        ensures same { worker_deque self.new.worker ≡ worker_deque self.old.worker }
        ensures number { IfOk result (λ t. t.deque ≡ number) }
        ensures deque { IfOk result (λ t. stealer_deque t.stealer ≡ worker_deque self.new.worker) }
        ensures cut { IfOk result (λ t. view t.pass ≡ hand 1 [] []) }
        ensures left { IfOk result (λ t. worker_view self.new.worker ≡
            hand ((worker_view self.old.worker).parts - 1) (worker_view self.old.worker).pushed
            (worker_view self.old.worker).taken) }
    {
        let stealer = self.worker.stealer()?;
        let pass = self.worker.another::<Cut>();
        Ok(Thief {
            deque: number,
            stealer,
            pass,
        })
    }

    /// Takes back the pass of a thief.
    pub fn absorb(&mut self, thief: Thief<J>)
        requires part { 0 < (worker_view self.old.worker).parts }
        requires deque { stealer_deque thief.stealer ≡ worker_deque self.old.worker }
        ensures same { worker_deque self.new.worker ≡ worker_deque self.old.worker }
        ensures both { worker_view self.new.worker ≡
            hand ((worker_view self.old.worker).parts + (view thief.pass).parts)
            ((worker_view self.old.worker).pushed ++ (view thief.pass).pushed)
            ((worker_view self.old.worker).taken ++ (view thief.pass).taken) }
    {
        self.worker.absorb::<Cut>(thief.pass);
    }
}

/// A way to steal from the deque of another worker.
#[derive(Drop)]
pub struct Thief<J: Drop> {
    /// The number of the worker whose deque it is.
    pub deque: usize,
    pub stealer: Stealer<J, Global, Hand<J>, Fair>,
    pub pass: Pass<J, Hand<J>>,
    ghost of: { IsPassOf (stealer_deque stealer) pass },
}

impl<J: Drop> Thief<J> {
    /// Tries once to take the first job. None where another took it meanwhile, or where no job was
    /// found.
    pub fn steal(&mut self) -> Option<J>
        requires { 0 < (view self.old.pass).parts }
        ensures number { self.new.deque ≡ self.old.deque }
        ensures same { stealer_deque self.new.stealer ≡ stealer_deque self.old.stealer }
        ensures stolen { MatchOption result
            (view self.new.pass ≡ view self.old.pass)
            (λ x. view self.new.pass ≡ hand (view self.old.pass).parts
            (view self.old.pass).pushed ((view self.old.pass).taken ++ x ∷ [])) }
        ensures none { IfNone result ((taken self.old.pass < taken self.new.pass)
            ⊎ ((view self.old.pass).parts ≡ MOST_WORKERS → length (view self.old.pass).pushed ≤
            length (view self.old.pass).taken + 1)) }
    {
        match self.stealer.steal_as::<Stealing>(&mut self.pass) {
            Steal::Success(job) => Some(job),
            Steal::Empty | Steal::Retry => None,
        }
    }
}
