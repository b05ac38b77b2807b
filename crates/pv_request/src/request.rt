//! What a command asks for, with the values of its options.
ghost use Rattle.std.specs.Prelude.{◌≢◌, ◌<◌, ◌≤◌, ◌^◌, pos, IsTrue};
ghost use Rattle.pv_num.specs.Extended.{Fin, PosInf};
ghost use Rattle.pv_num.specs.Order.{le};
ghost use Rattle.pv_tree.specs.declared.path.TheConstants.{MOST_STEPS};
ghost use Rattle.pv_tree.specs.declared.limit.TheConstants.{MOST_WORKERS};
ghost use Rattle.pv_request.specs.declared.request.TheConstants.{MOST_CIRCLES, MOST_ROUNDS};

use pv_box::Bisector;
use pv_num::Num;
use pv_scope::{Order, Share};
use pv_slope::Form;
use pv_tree::NodeLimit;
use pv_workers::Budget;

/// The most circles of a sample.
pub const MOST_CIRCLES: u32 = 16;

/// The greatest number that makes circles.
pub const MOST_SEED: u32 = 2_147_483_647;

/// The most rounds of a campaign that a call asks for.
pub const MOST_ROUNDS: u32 = 100;

/// The most paving files of a command.
pub const MOST_PAVINGS: usize = 8;

/// How boxes are settled.
#[derive(Clone, Copy)]
pub struct Settings<'a> {
    pub eps: Num,
    pub depth: u32,
    pub bisector: Bisector,
    /// The text of the contractor program.
    pub contract: &'a str,
    pub form: Form,
    ghost eps_from: { IsTrue (le (Fin (pos 0)) eps) },
    ghost eps_finite: { eps ≢ PosInf },
    ghost depth_fits: { (1 ≤ depth) × (depth ≤ MOST_STEPS) },
}

/// How much is settled at most, and in which order.
#[derive(Clone, Copy)]
pub struct Effort {
    pub budget: Budget,
    pub order: Order,
}

/// By how many threads a paving is checked.
#[derive(Clone, Copy)]
pub struct Workers {
    pub count: u32,
    ghost count_fits: { (1 ≤ count) × (count ≤ MOST_WORKERS) },
}

/// Which plane of a paving a picture shows.
#[derive(Drop)]
pub struct View<'a> {
    /// The name of the variable that goes to the right.
    pub x: &'a str,
    /// The name of the variable that goes up.
    pub y: &'a str,
    /// The numbers of the other variables, in their order.
    pub at: Vec<Num>,
}

/// Which circles a sample has.
#[derive(Clone, Copy)]
pub struct Circles {
    /// The number that makes them.
    pub seed: u32,
    pub count: u32,
    ghost seed_fits: { seed < 2 ^ 31 },
    ghost count_fits: { (1 ≤ count) × (count ≤ MOST_CIRCLES) },
}

/// Which expression's least value is sought, and how many boxes are settled for it at most.
#[derive(Clone, Copy)]
pub struct Search<'a> {
    /// The text of the expression.
    pub of: &'a str,
    pub limit: NodeLimit,
    pub boxes: u64,
    ghost boxes_fit: { (1 ≤ boxes) × (boxes ≤ limit) },
}

/// Under which name a campaign is kept, and how many rounds it is gone on with.
#[derive(Clone, Copy)]
pub struct Rounds<'a> {
    /// The name for the keeper.
    pub name: &'a str,
    pub count: u32,
    ghost count_fits: { (1 ≤ count) × (count ≤ MOST_ROUNDS) },
}

/// What the words of a command ask for.
#[derive(Drop)]
pub enum Request<'a> {
    /// Print the canonical text of a system.
    Check {
        system: &'a str,
    },
    /// Pave the search box of a system.
    Run {
        system: &'a str,
        settings: Settings<'a>,
        effort: Effort,
        out: Option<&'a str>,
    },
    /// Go on from the join of paving files, with all open leaves or with a share of them.
    Resume {
        system: &'a str,
        pavings: Vec<&'a str>,
        settings: Settings<'a>,
        effort: Effort,
        share: Option<Share>,
        out: Option<&'a str>,
    },
    /// Join paving files.
    Merge {
        system: &'a str,
        pavings: Vec<&'a str>,
        settings: Settings<'a>,
        limit: NodeLimit,
        out: Option<&'a str>,
    },
    /// Settle again what a paving file says is settled.
    Audit {
        system: &'a str,
        paving: &'a str,
        settings: Settings<'a>,
        limit: NodeLimit,
        workers: Workers,
    },
    /// Draw a plane of a paving file.
    Svg {
        system: &'a str,
        paving: &'a str,
        settings: Settings<'a>,
        limit: NodeLimit,
        view: View<'a>,
    },
    /// Pave a system that a number makes.
    Sample {
        circles: Circles,
    },
    /// Bound the least value of an expression over a system's set.
    Least {
        system: &'a str,
        settings: Settings<'a>,
        search: Search<'a>,
    },
    /// Go on with a paving that is kept between rounds.
    Campaign {
        system: &'a str,
        settings: Settings<'a>,
        effort: Effort,
        rounds: Rounds<'a>,
    },
}
