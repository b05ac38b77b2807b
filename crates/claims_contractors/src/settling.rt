//! What the settler of a system promises.
ghost use Rattle.std.specs.Prelude.{◌≡◌, ◌≢◌, ◌≤◌, pos, IsTrue, length, map, IfOk};
ghost use Rattle.pv_num.specs.Extended.{Fin, PosInf};
ghost use Rattle.pv_num.specs.Order.{le};
ghost use Rattle.pv_expr.specs.Searches.{search_bounds};
ghost use Rattle.pv_ctc.specs.Contracting.{sides_in};
ghost use Rattle.pv_ctc.specs.Facts.{Knows};
ghost use Rattle.pv_ctc.specs.Plans.{plan_of, IsFor};
ghost use Rattle.pv_tree.specs.KnownHalves.{HoldsOfHalves};
ghost use Rattle.pv_tree.specs.declared.path.TheConstants.{MOST_STEPS};
ghost use Rattle.pv_settle.specs.Rules.{dims_of};
ghost use Rattle.pv_settle.specs.Settlers.{rule_of};
ghost use Rattle.pv_settle.specs.Settling.{settle_by};
ghost use Rattle.pv_settle.specs.Spelling.{settings_text, identity_of};

use pv_box::IBox;
use pv_ctc::{Known, Program};
use pv_expr::System;
use pv_hc4::Scratch;
use pv_num::Memory;
use pv_settle::{Settings, SystemSettler};
use pv_tree::{Outcome, Settled};
use std::alloc::Global;

/// A settler with these settings.
pub fn with_settings(
    alloc: Global,
    system: System,
    program: Program,
    settings: Settings,
) -> Result<SystemSettler, Memory>
    requires program { IsFor (length system.constraints) (plan_of program) }
    requires eps_from { IsTrue (le (Fin (pos 0)) settings.eps) }
    requires eps_finite { settings.eps ≢ PosInf }
    requires depth_some { 1 ≤ settings.depth }
    requires depth_few { settings.depth ≤ MOST_STEPS }
    ensures eps { IfOk result (λ s. (rule_of s).eps ≡ settings.eps) }
    ensures depth { IfOk result (λ s. (rule_of s).depth ≡ settings.depth) }
    ensures bisector { IfOk result (λ s. (rule_of s).bisector ≡ settings.bisector) }
{
    SystemSettler::new(alloc, system, program, settings)
}

/// The most cuts on a path.
pub fn most_cuts(settler: &SystemSettler) -> u32
    ensures value { result ≡ (rule_of settler.now).depth }
{
    settler.depth()
}

/// The system's search intervals in order.
pub fn search_box(settler: &SystemSettler, alloc: Global) -> Result<IBox, Memory>
    ensures intervals { IfOk result (λ b. b ≡
        map search_bounds (rule_of settler.now).system.domains) }
{
    settler.search_box(alloc)
}

/// The settings, a line each.
pub fn settings(settler: &SystemSettler, alloc: Global) -> Result<Vec<u8>, Memory>
    ensures { IfOk result (λ text. text.items ≡ settings_text (rule_of settler.now)) }
{
    settler.settings_text(alloc)
}

/// The digest of the system and the settings.
pub fn identity(settler: &SystemSettler, alloc: Global) -> Result<[u8; 32], Memory>
    ensures { IfOk result (λ digest. digest ≡ identity_of (rule_of settler.now)) }
{
    settler.identity(alloc)
}

/// How a box is settled.
pub fn settle(
    settler: &SystemSettler,
    alloc: Global,
    bx: &IBox,
    depth_left: u32,
    path_len: u32,
) -> Result<Outcome, Memory>
    requires { length bx.now ≡ dims_of (rule_of settler.now) }
    ensures { IfOk result (λ o. o ≡ settle_by (rule_of settler.now) bx.now depth_left path_len) }
{
    settler.settle(alloc, bx, depth_left, path_len)
}

/// What is known of both halves of a box that was contracted, and is cut.
pub fn halves_of_left(
    settler: &SystemSettler,
    to: IBox,
    known: Known,
    depth_left: u32,
    path_len: u32,
) -> Settled<Known>
    requires dims { length to ≡ dims_of (rule_of settler.now) }
    requires known { Knows (sides_in settler.now.graphs) known to }
    ensures known { HoldsOfHalves
        (Knows (sides_in settler.now.graphs) result.known) result.outcome }
{
    settler.settle_unsure(to, known, depth_left, path_len)
}

/// What is known of both halves of a box that is contracted and cut.
pub fn halves(
    settler: &SystemSettler,
    alloc: Global,
    scratch: &mut Scratch,
    bx: &IBox,
    known: Known,
    depth_left: u32,
    path_len: u32,
) -> Result<Settled<Known>, Memory>
    requires dims { length bx.now ≡ dims_of (rule_of settler.now) }
    requires known { Knows (sides_in settler.now.graphs) known bx.now }
    ensures known { IfOk result (λ s.
        HoldsOfHalves (Knows (sides_in settler.now.graphs) s.known) s.outcome) }
{
    settler.settle_knowing(alloc, scratch, bx, known, depth_left, path_len)
}
