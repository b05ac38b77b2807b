//! Random events on a board beside a plain list of leaves: all numbers are compared after each.
ghost use Rattle.std.specs.Prelude.{◌≡◌, ◌+◌, ◌≤◌, length, IfOk, IfSome, Some};
ghost use Rattle.pv_tree.specs.Trees.{leaf, subtree};
ghost use Rattle.pv_board.specs.Rules.{IsFitting};

use crate::stages::{Absorbed, absorb_audited};
use pv_board::{Board, Look, Naming, Settled, Ticket};
use pv_box::IBox;
use pv_interval::Interval;
use pv_num::{Memory, Num};
use pv_tree::{Outcome, Path, Paving, Settler, Shape};
use std::alloc::Global;
use std::marker::Brand;
use std::test::Fail;
use test_sample::Above;

/// An open leaf, with its grant where it is issued.
#[derive(Clone, Copy)]
struct PlainLeaf {
    path: Path,
    issued: Option<u64>,
}

/// The numbers of a board, and its open leaves in any order.
#[derive(Drop)]
struct Plain {
    leaves: Vec<PlainLeaf>,
    used: u64,
    added: u64,
    left: u64,
    stopped: bool,
    steps: u64,
}

/// A board, a plain one beside it, the tickets that are out, and a source of random numbers.
#[derive(Drop)]
struct Table<N: Naming> {
    board: Board<N>,
    plain: Plain,
    tickets: Vec<Ticket>,
    seed: u64,
}

/// The next number of a shift register.
fn next(seed: u64) -> u64 {
    let a = seed ^ (seed << 13);
    let b = a ^ (a >> 7);
    b ^ (b << 17)
}

/// The open leaf before which `place` others come in preorder, or the last one.
fn some_open(paving: &Paving, place: u64) -> Option<Path>
    ensures { IfSome result (λ p. subtree paving.now.tree p ≡ Some leaf) }
{
    let mut path = paving.first_open()?;
    for _ in 0..place {
        match paving.next_open(path) {
            Some(next) => path = next,
            None => return Some(path),
        }
    }
    Some(path)
}

/// A stage of an open box: random open leaves were settled.
fn random_stage<S: Settler>(
    alloc: Global,
    settler: &S,
    root: &IBox,
    seed: u64,
) -> Result<Paving, Memory>
    requires dims { length root.now ≡ S.dims settler.now }
    ensures root { IfOk result (λ p. p.root ≡ root.now) }
{
    let mut seed = seed;
    let mut scratch = root.clone_of(alloc)?;
    let mut stage = Paving::open(alloc, root.clone_of(alloc)?)?;
    for _ in 0..40 {
        seed = next(seed);
        match some_open(&stage, seed % 16) {
            Some(path) => stage.settle_leaf(alloc, settler, path, &mut scratch)?,
            None => return Ok(stage),
        }
    }
    Ok(stage)
}

/// The box [0,1] x [0,1].
fn square(alloc: Global) -> Result<IBox, Memory>
    ensures { IfOk result (λ b. length b ≡ 2) }
{
    let mut parts = Vec::new(alloc);
    parts.push(Interval::new(Num::ZERO, Num::ONE).unwrap_or(Interval::ALL))?;
    parts.push(Interval::new(Num::ZERO, Num::ONE).unwrap_or(Interval::ALL))?;
    Ok(IBox::new(parts))
}

fn is_cut(outcome: &Outcome) -> bool {
    match outcome {
        Outcome::Cut { .. } => true,
        _ => false,
    }
}

impl Plain {
    /// Where a leaf stands in the list.
    fn place(&self, path: Path) -> Option<usize> {
        for i in 0..self.leaves.len() {
            if self.leaves[i].path == path {
                return Some(i);
            }
        }
        None
    }

    /// How many leaves are issued, and the sum of their grants.
    fn issued(&self) -> (u64, u64) {
        let mut count = 0u64;
        let mut grants = 0u64;
        for i in 0..self.leaves.len() {
            if let Some(grant) = self.leaves[i].issued {
                count = count.wrapping_add(1);
                grants = grants.wrapping_add(grant);
            }
        }
        (count, grants)
    }

    /// Whether a leaf is issued with this grant.
    fn is_current(&self, path: Path, grant: u64) -> bool {
        match self.place(path) {
            Some(i) => match self.leaves.get(i) {
                Some(leaf) => leaf.issued == Some(grant),
                None => false,
            },
            None => false,
        }
    }

    /// Changes a leaf's grant, or frees it.
    fn mark(&mut self, path: Path, issued: Option<u64>) {
        if let Some(i) = self.place(path) {
            if let Some(leaf) = self.leaves.get_mut(i) {
                leaf.issued = issued;
            }
        }
    }

    /// Whether one more leaf may be issued.
    fn may_issue(&self) -> bool {
        !self.stopped && self.left > 0
    }

    /// Issues a leaf that is free. False where there is no such leaf, or it may not be issued.
    fn take(&mut self, path: Path) -> bool {
        let Some(i) = self.place(path) else {
            return false;
        };
        if !self.may_issue() {
            return false;
        }
        let Some(leaf) = self.leaves.get_mut(i) else {
            return false;
        };
        if leaf.issued.is_some() {
            return false;
        }
        leaf.issued = Some(0);
        self.left = self.left.wrapping_sub(1);
        true
    }

    /// Adds the child of a leaf that was cut, issued if one more may be. Answers whether it is.
    fn add(&mut self, path: Path) -> Result<bool, Memory> {
        let issues = self.may_issue();
        let issued = if issues { Some(0) } else { None };
        self.leaves.push(PlainLeaf { path, issued })?;
        if issues {
            self.left = self.left.wrapping_sub(1);
        }
        Ok(issues)
    }

    /// Takes a leaf out of the list.
    fn remove(&mut self, path: Path) {
        if let Some(i) = self.place(path) {
            if i < self.leaves.len() {
                self.leaves.swap_remove(i);
            }
        }
    }

    /// Adds the open leaves at and below a node of a stage, all of them free. Answers how many
    /// nodes are settled there.
    fn add_below(&mut self, stage: &Paving, path: Path) -> Result<u64, Memory> {
        match stage.shape_at(path) {
            Shape::Absent => Ok(0),
            Shape::OpenLeaf => {
                self.leaves.push(PlainLeaf { path, issued: None })?;
                Ok(0)
            }
            Shape::Removed | Shape::Inner | Shape::Small => Ok(1),
            Shape::Cut { .. } => {
                if path.len() >= 200 {
                    return Ok(1);
                }
                let low = self.add_below(stage, path.low())?;
                let high = self.add_below(stage, path.high())?;
                Ok(low.wrapping_add(high).wrapping_add(1))
            }
        }
    }

    /// Puts what a stage has at a free leaf in the leaf's place. Answers how many nodes that
    /// settles.
    fn absorb_at(&mut self, stage: &Paving, leaf: PlainLeaf) -> Result<u64, Memory> {
        if leaf.issued.is_some() {
            return Ok(0);
        }
        if let Shape::Absent = stage.shape_at(leaf.path) {
            return Ok(0);
        }
        self.remove(leaf.path);
        self.add_below(stage, leaf.path)
    }

    /// Puts what a stage has at the free leaves in their places. Answers how many nodes that
    /// settles.
    fn absorb(&mut self, alloc: Global, stage: &Paving) -> Result<u64, Memory> {
        let leaves = Vec::from_slice(alloc, self.leaves.as_slice())?;
        let mut added = 0u64;
        for i in 0..leaves.len() {
            added = added.wrapping_add(self.absorb_at(stage, leaves[i])?);
        }
        self.added = self.added.wrapping_add(added);
        Ok(added)
    }

    /// Frees all leaves.
    fn recall(&mut self) {
        let (count, grants) = self.issued();
        self.left = self.left.wrapping_add(count).wrapping_add(grants);
        self.steps = self.steps.wrapping_add(count);
        for i in 0..self.leaves.len() {
            if let Some(leaf) = self.leaves.get_mut(i) {
                leaf.issued = None;
            }
        }
    }
}

impl<N: Naming> Table<N> {
    /// Whether board and list have the same numbers.
    fn agrees(&self) -> bool {
        let (issued, grants) = self.plain.issued();
        let counts = self.board.counts();
        let units = self
            .board
            .used()
            .wrapping_add(issued)
            .wrapping_add(grants)
            .wrapping_add(self.board.left());
        self.board.used() == self.plain.used
            && self.board.left() == self.plain.left
            && self.board.issued() == issued
            && units == BUDGET
            && counts.settled() == self.plain.used.wrapping_add(self.plain.added)
            && counts.open_leaves == self.plain.leaves.len() as u64
    }

    /// Takes some ticket that is out.
    fn draw(&mut self) -> Option<Ticket> {
        let out = self.tickets.len();
        if out == 0 {
            return None;
        }
        let i = (self.seed >> 8) as usize % out;
        if i < out {
            return Some(self.tickets.swap_remove(i));
        }
        None
    }

    /// Takes a leaf.
    fn take(&mut self) -> Result<bool, Memory> {
        match self.board.take() {
            Some(ticket) => {
                let fits = ticket.grant() == 0 && self.plain.take(ticket.path());
                self.tickets.push(ticket)?;
                Ok(fits)
            }
            None => {
                let (issued, _) = self.plain.issued();
                Ok(!self.plain.may_issue() || issued == self.plain.leaves.len() as u64)
            }
        }
    }

    /// Looks for a leaf.
    fn look(&mut self) -> Result<bool, Memory> {
        match self.board.look(self.seed) {
            Look::Work(ticket) => {
                let fits = ticket.grant() == 0 && self.plain.take(ticket.path());
                self.tickets.push(ticket)?;
                Ok(fits)
            }
            Look::Done => Ok(self.plain.issued().0 == 0),
            Look::Changed(steps) => Ok(self.plain.issued().0 > 0 && steps == self.plain.steps),
            Look::Same => Ok(self.plain.issued().0 > 0 && self.seed == self.plain.steps),
        }
    }

    /// Gives a ticket back.
    fn give_back(&mut self) -> bool {
        let Some(ticket) = self.draw() else {
            return true;
        };
        let path = ticket.path();
        let grant = ticket.grant();
        if self.plain.is_current(path, grant) {
            self.plain.mark(path, None);
            self.plain.steps = self.plain.steps.wrapping_add(1);
            self.plain.left = self.plain.left.wrapping_add(1).wrapping_add(grant);
        }
        self.board.give_back(ticket);
        true
    }

    /// Extends a ticket by one unit.
    fn extend(&mut self) -> Result<bool, Memory> {
        let Some(mut ticket) = self.draw() else {
            return Ok(true);
        };
        let grant = ticket.grant();
        if grant >= 15 {
            self.tickets.push(ticket)?;
            return Ok(true);
        }
        let current = self.plain.is_current(ticket.path(), grant);
        let gives = current && self.plain.may_issue();
        let units = self.board.extend(&mut ticket, 1);
        if gives {
            self.plain.mark(ticket.path(), Some(grant.wrapping_add(1)));
            self.plain.left = self.plain.left.wrapping_sub(1);
        }
        self.tickets.push(ticket)?;
        Ok(units == if gives { 1 } else { 0 })
    }

    /// Recalls all.
    fn recall(&mut self) -> bool {
        self.board.recall();
        self.plain.recall();
        true
    }

    /// Keeps the tickets of a cut's children, and compares them with the list's.
    fn keep(&mut self, ticket: Option<Ticket>, path: Path, issued: bool) -> Result<bool, Memory> {
        match ticket {
            Some(ticket) => {
                let fits = issued && ticket.path() == path;
                self.tickets.push(ticket)?;
                Ok(fits)
            }
            None => Ok(!issued),
        }
    }

    /// Adds a settled leaf's children to the list.
    fn split(
        &mut self,
        path: Path,
        low: Option<Ticket>,
        high: Option<Ticket>,
    ) -> Result<bool, Memory> {
        if path.len() >= 200 {
            return Ok(false);
        }
        let left = self.plain.add(path.low())?;
        let right = self.plain.add(path.high())?;
        let fits = self.keep(low, path.low(), left)?;
        Ok(self.keep(high, path.high(), right)? && fits)
    }

    /// Settles a ticket's leaf.
    fn settle<S: Settler>(&mut self, alloc: Global, settler: &S) -> Result<bool, Memory>
        requires rule { N.rule ≡ S.settle_of settler.now }
        requires depth { N.depth ≡ S.depth_of settler.now }
        requires dims { N.dims ≡ S.dims settler.now }
        requires places { N.dims ≡ 2 }
    {
        let Some(ticket) = self.draw() else {
            return Ok(true);
        };
        let _used = self.board.used();
        let mut scratch = square(alloc)?;
        if !self.board.box_of(&ticket, &mut scratch) {
            return Ok(false);
        }
        let path = ticket.path();
        let grant = ticket.grant();
        let steps = path.len();
        let cuts_left = settler.depth().saturating_sub(steps);
        let outcome = settler.settle(alloc, &scratch, cuts_left, steps)?;
        let cuts = is_cut(&outcome);
        let current = self.plain.is_current(path, grant);
        let Settled { fresh, low, high } = self.board.settle(ticket, outcome);
        if !current {
            return Ok(!fresh && low.is_none() && high.is_none());
        }
        self.plain.remove(path);
        self.plain.used = self.plain.used.wrapping_add(1);
        self.plain.steps = self.plain.steps.wrapping_add(1);
        self.plain.left = self.plain.left.wrapping_add(grant);
        if !cuts {
            return Ok(fresh && low.is_none() && high.is_none());
        }
        Ok(self.split(path, low, high)? && fresh)
    }

    /// Absorbs a stage.
    fn absorb<S: Settler>(
        &mut self,
        alloc: Global,
        settler: &S,
        root: &IBox,
    ) -> Result<bool, Memory>
        requires rule { N.rule ≡ S.settle_of settler.now }
        requires depth { N.depth ≡ S.depth_of settler.now }
        requires dims { N.dims ≡ S.dims settler.now }
        requires opening { N.opening ≡ leaf }
        requires root { root.now ≡ N.root }
        requires places { length N.root ≡ N.dims }
    {
        self.seed = next(self.seed);
        let stage = random_stage(alloc, settler, root, self.seed)?;
        let added = self.plain.absorb(alloc, &stage)?;
        let absorbed = absorb_audited(alloc, settler, &mut self.board, &stage)?;
        Ok(absorbed == Absorbed::Added(added))
    }

    /// One random event.
    fn event<S: Settler>(&mut self, alloc: Global, settler: &S, root: &IBox) -> Result<bool, Memory>
        requires rule { N.rule ≡ S.settle_of settler.now }
        requires depth { N.depth ≡ S.depth_of settler.now }
        requires dims { N.dims ≡ S.dims settler.now }
        requires places { N.dims ≡ 2 }
        requires opening { N.opening ≡ leaf }
        requires root { root.now ≡ N.root }
        requires root_places { length N.root ≡ N.dims }
    {
        self.seed = next(self.seed);
        match self.seed % 256 {
            0 => Ok(self.recall()),
            1..=20 => self.look(),
            21..=80 => self.take(),
            81..=110 => Ok(self.give_back()),
            111..=150 => self.extend(),
            151..=155 => {
                self.board.announce();
                self.plain.steps = self.plain.steps.wrapping_add(1);
                Ok(true)
            }
            156..=158 => self.absorb(alloc, settler, root),
            _ => self.settle(alloc, settler),
        }
    }

    /// So many random events. Answers whether board and list agreed after each.
    fn events<S: Settler>(
        &mut self,
        alloc: Global,
        settler: &S,
        root: &IBox,
        n: u32,
    ) -> Result<bool, Memory>
        requires rule { N.rule ≡ S.settle_of settler.now }
        requires depth { N.depth ≡ S.depth_of settler.now }
        requires dims { N.dims ≡ S.dims settler.now }
        requires places { N.dims ≡ 2 }
        requires opening { N.opening ≡ leaf }
        requires root { root.now ≡ N.root }
        requires root_places { length N.root ≡ N.dims }
    {
        for _ in 0..n {
            if !self.event(alloc, settler, root)? || !self.agrees() {
                return Ok(false);
            }
        }
        Ok(true)
    }
}

/// The board's budget.
const BUDGET: u64 = 3000;

/// Random events on a board, and then a few more after a stop.
fn plays<N: Naming, S: Settler>(
    alloc: Global,
    settler: &S,
    opening: Paving,
    n: u32,
) -> Result<bool, Memory>
    requires rule { N.rule ≡ S.settle_of settler.now }
    requires depth { N.depth ≡ S.depth_of settler.now }
    requires dims { N.dims ≡ S.dims settler.now }
    requires dims_two { N.dims ≡ 2 }
    requires fits { IsFitting N.rule N.depth N.dims }
    requires root { opening.root ≡ N.root }
    requires tree { opening.tree ≡ N.opening }
    requires is_open { opening.tree ≡ leaf }
    requires budget { N.budget ≡ 3000 }
    requires limit { N.limit ≡ 100000 }
    requires places { length N.root ≡ N.dims }
{
    let _places = opening.dims();
    let mut root = square(alloc)?;
    opening.box_at(Path::root(), &mut root);
    let board = match Board::<N>::open(alloc, opening, BUDGET) {
        Ok(board) => board,
        Err(_) => return Ok(false),
    };
    let mut leaves = Vec::new(alloc);
    leaves.push(PlainLeaf {
        path: Path::root(),
        issued: None,
    })?;
    let plain = Plain {
        leaves,
        used: 0,
        added: 0,
        left: BUDGET,
        stopped: false,
        steps: 0,
    };
    let mut table = Table {
        board,
        plain,
        tickets: Vec::new(alloc),
        seed: 88172645463325252,
    };
    let first = table.events(alloc, settler, &root, n)?;
    table.board.stop();
    table.plain.stopped = true;
    Ok(table.events(alloc, settler, &root, 200)? && first && table.plain.added > 0)
}

/// The same with the settler's own rule.
fn plays_with<S: Settler>(
    alloc: Global,
    settler: &S,
    opening: Paving,
    n: u32,
) -> Result<bool, Memory>
    requires root { length opening.root ≡ S.dims settler.now }
    requires is_open { opening.tree ≡ leaf }
    requires dims { S.dims settler.now ≡ 2 }
{
    plays::<Brand, S>(alloc, settler, opening, n)
}

#[test]
fn random_events_beside_a_list(rt: HostRuntime) -> Result<(), Fail> {
    let alloc = rt.alloc();
    let settler = Above::new(2, Num::fin(1, -2).unwrap_or(Num::ZERO), 9, 14);
    let opening = Paving::open(alloc, square(alloc)?)?;
    assert!(rt; plays_with(alloc, &settler, opening, 10000)?);
    Ok(())
}
