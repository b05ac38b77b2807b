//! What the workers of a paving do with a ticket.
ghost use Rattle.std.specs.Prelude.{◌≡◌, ◌+◌, ◌-◌, ◌<◌, ◌≤◌, [], length, option_to_list, IsSome};
ghost use Rattle.pv_tree.specs.Trees.{subtree, box_of};
ghost use Rattle.pv_tree.specs.Stages.{full_of};
ghost use Rattle.pv_board.specs.Tallies.{handed_in, IsLow};
ghost use Rattle.pv_pool.specs.Counting.{after_work};
ghost use Rattle.pv_workers.specs.Accounts.{numbers_of};
ghost use Rattle.pv_board.specs.declared.told.TheConstants.{MOST_TICKET_NODES};

use crate::account::Account;
use crate::bench::Bench;
use crate::ruled::Ruled;
use crate::stage::Stager;
use crate::task::{Task, TaskParts, hand_out};
use pv_board::{Look, MOST_GRANT, Naming, Settled, Shared, Ticket, Told};
use pv_box::IBox;
use pv_num::Memory;
use pv_pool::{Gate, Idle, Work};
use pv_tree::{Batch, KnowingSettler, Outcome};
use std::alloc::Global;
use std::sync::Wait;

// A leaf whose path has this number of steps or more is settled together with nodes below it.
const STAGED_FROM: u32 = 4;

// The most nodes of a stage.
const MOST_STAGE: u64 = 1024;

/// What the workers share: the board, the settler and the gate.
#[derive(Drop)]
pub(crate) struct Crew<'a, N: Naming, S: KnowingSettler, G: Gate> {
    pub(crate) alloc: Global,
    pub(crate) shared: &'a Shared<N>,
    pub(crate) ruled: &'a Ruled<'a, N, S>,
    pub(crate) gate: &'a G,
    pub(crate) workers: u32,
}

impl<'a, N: Naming + Send + Sync, S: KnowingSettler + Sync, G: Gate> Work for Crew<'a, N, S, G>
where
    S::Room: Send,
    S::Known: Send,
{
    type Job = Task<'a, N, S>;

    type Told = Account<N, S>;

    ghost use Rattle.pv_workers.specs.Accounts.{numbers_of};

    ghost numbers = { numbers_of };

    fn work<R: Wait>(
        &self,
        rt: &R,
        worker: u64,
        task: Task<'a, N, S>,
        account: &mut Account<N, S>,
        children: &mut Batch<Task<'a, N, S>>,
    ) {
        self.begin(rt, account);
        let mut parts = task.into_parts();
        let told = &mut account.told;
        let bench = &mut account.bench;
        let want = wanted(&parts.ticket);
        let Some(left) = self
            .shared
            .prepare(rt, &mut parts.ticket, want, &mut bench.workspace.scratch)
        else {
            self.shared.give_back(rt, parts.ticket, told);
            return;
        };
        if is_staged(&parts.ticket) {
            self.settle_stage(rt, worker, parts, left, bench, told, children);
        } else {
            self.settle(rt, worker, parts, &bench.workspace.scratch, told, children);
        }
    }

    fn give_back<R: Wait>(&self, rt: &R, task: Task<'a, N, S>, account: &mut Account<N, S>) {
        let parts = task.into_parts();
        self.shared.give_back(rt, parts.ticket, &mut account.told);
    }

    // Who begins the next job tells the others.
    fn announce<R: Wait>(&self, _rt: &R) {}

    fn idle<R: Wait>(
        &self,
        rt: &R,
        seen: u64,
        account: &mut Account<N, S>,
    ) -> Idle<Task<'a, N, S>> {
        let seen = self.hungry_since(seen, account);
        match self.shared.idle(rt, seen, &mut account.told) {
            Look::Work(ticket) => Idle::Job(Task::of(ticket, self.ruled)),
            Look::Done => {
                // Those who wait are told.
                self.shared.announce(rt);
                Idle::Done
            }
            Look::Changed(steps) => Idle::Look(steps),
            Look::Same => unreachable!(),
        }
    }
}

impl<'a, N: Naming, S: KnowingSettler, G: Gate> Crew<'a, N, S, G> {
    // Ends a worker's hunger, and tells those who are still hungry: where its job was there may be
    // more, and what its last job gave lies on its deque.
    fn begin<R: Wait>(&self, rt: &R, account: &mut Account<N, S>)
        ensures { account.new ≡ account.old }
    {
        if account.is_hungry {
            account.is_hungry = false;
            self.shared.feed();
        }
        self.shared.tell(rt);
    }

    // The number to wait with. A worker that was not hungry before is now, and is to look at all
    // deques once more before it waits, so it gets a number that is never reached.
    fn hungry_since(&self, seen: u64, account: &mut Account<N, S>) -> u64
        ensures { account.new ≡ account.old }
    {
        if account.is_hungry {
            return seen;
        }
        account.is_hungry = true;
        self.shared.hunger();
        u64::MAX
    }

    // Settles the leaf of a ticket. The tasks of a cut's children become `children`.
    fn settle<R: Wait>(
        &self,
        rt: &R,
        worker: u64,
        parts: TaskParts<'a, N, S>,
        leaf: &IBox,
        told: &mut Told<N>,
        children: &mut Batch<Task<'a, N, S>>,
    )
        requires low { IsLow told.old }
        requires places { length leaf.now ≡ N.dims }
        requires there { IsSome (subtree (full_of N.rule N.depth N.root N.opening 0)
            parts.ticket.path) }
        requires leaf { leaf.now ≡ box_of N.root
            (full_of N.rule N.depth N.root N.opening 0) parts.ticket.path }
        requires none { children.old ≡ [] }
        ensures { numbers_of told.new ≡ after_work (length children.new) (numbers_of told.old) }
    {
        let TaskParts {
            ticket,
            ruled,
            known: _,
        } = parts;
        let path = ticket.path();
        self.gate.enter(worker, path);
        match ruled.settle(self.alloc, leaf, path) {
            Ok(outcome) => hand_in(rt, self.shared, ruled, ticket, outcome, told, children),
            Err(Memory) => give_up(rt, self.shared, ticket, told),
        }
    }

    // Settles some nodes from the leaf of a ticket on, whose box is in the workspace. The tasks of
    // the stage's open leaves become `children`.
    fn settle_stage<R: Wait>(
        &self,
        rt: &R,
        worker: u64,
        parts: TaskParts<'a, N, S>,
        left: u64,
        bench: &mut Bench<S>,
        told: &mut Told<N>,
        children: &mut Batch<Task<'a, N, S>>,
    )
        requires low { IsLow told.old }
        requires places { length bench.old.workspace.scratch ≡ N.dims }
        requires there { IsSome (subtree (full_of N.rule N.depth N.root N.opening 0)
            parts.ticket.path) }
        requires leaf { bench.old.workspace.scratch ≡ box_of N.root
            (full_of N.rule N.depth N.root N.opening 0) parts.ticket.path }
        requires known { S.knows parts.ruled.now.settler.now parts.known bench.old.workspace.scratch }
        requires tickets { bench.old.tickets ≡ [] }
        requires none { children.old ≡ [] }
        ensures told { numbers_of told.new ≡
            after_work (length children.new) (numbers_of told.old) }
        ensures places { length bench.new.workspace.scratch ≡ N.dims }
        ensures tickets { bench.new.tickets ≡ [] }
    {
        let TaskParts {
            ticket,
            ruled,
            known,
        } = parts;
        let path = ticket.path();
        let most = most_of(ticket.grant(), left, self.workers);
        let stager = Stager {
            alloc: self.alloc,
            ruled,
            shared: self.shared,
            gate: self.gate,
            worker,
            at: path,
        };
        match stager.grow(known, most, bench) {
            Ok(stage) => {
                let tickets = &mut bench.tickets;
                let leaves = bench.leaves.as_slice();
                self.shared
                    .settle_stage(rt, ticket, &stage, leaves, told, tickets);
                let _count = tickets.len();
                hand_out(ruled, tickets, &mut bench.workspace.facts, children);
            }
            Err(Memory) => give_up(rt, self.shared, ticket, told),
        }
    }
}

// Whether the leaf of a ticket is settled together with nodes below it.
fn is_staged(ticket: &Ticket) -> bool {
    ticket.path().len() >= STAGED_FROM
}

// How many nodes a stage may have whose ticket has this grant, where so many units are left.
fn most_of(grant: u64, left: u64, workers: u32) -> u64
    requires { grant ≤ MOST_GRANT }
    ensures some { 1 ≤ result }
    ensures few { result ≤ MOST_TICKET_NODES }
{
    let share = left / 4 / u64::from(workers.max(1));
    share.min(MOST_STAGE).max(1 + grant)
}

// How many units more are wanted for a ticket.
fn wanted(ticket: &Ticket) -> u64
    ensures { ticket.now.grant + result ≤ MOST_GRANT }
{
    let granted = ticket.grant();
    if is_staged(ticket) {
        MOST_GRANT - granted
    } else {
        0
    }
}

// Hands an outcome in. The tasks of a cut's children become `children`.
fn hand_in<'a, N: Naming, S: KnowingSettler, R: Wait>(
    rt: &R,
    shared: &Shared<N>,
    ruled: &'a Ruled<'a, N, S>,
    ticket: Ticket,
    outcome: Outcome,
    told: &mut Told<N>,
    children: &mut Batch<Task<'a, N, S>>,
)
    requires low { IsLow told.old }
    requires there { IsSome (subtree (full_of N.rule N.depth N.root N.opening 0) ticket.path) }
    requires due { outcome ≡ N.rule
        (box_of N.root (full_of N.rule N.depth N.root N.opening 0) ticket.path)
        (N.depth - length ticket.path) (length ticket.path) }
    requires none { children.old ≡ [] }
    ensures { numbers_of told.new ≡ after_work (length children.new) (numbers_of told.old) }
{
    let Settled {
        fresh: _,
        low,
        high,
    } = shared.settle(rt, ticket, outcome, told);
    add(children, ruled, low);
    add(children, ruled, high);
}

// Appends the task of a ticket, if there is one.
fn add<'a, N: Naming, S: KnowingSettler>(
    children: &mut Batch<Task<'a, N, S>>,
    ruled: &'a Ruled<'a, N, S>,
    ticket: Option<Ticket>,
)
    requires { length children.old ≤ 1 }
    ensures { length children.new ≡ length children.old + length (option_to_list ticket) }
{
    if let Some(ticket) = ticket {
        children.push(Task::of(ticket, ruled));
    }
}

// Gives a ticket back that found no memory, and stops the board.
fn give_up<N: Naming, R: Wait>(rt: &R, shared: &Shared<N>, ticket: Ticket, told: &mut Told<N>)
    requires { IsLow told.old }
    ensures { told.new ≡ handed_in told.old 0 0 }
{
    shared.give_back(rt, ticket, told);
    shared.stop(rt);
}
