//! What centered forms promise, and the settlers that may use them.
ghost use Rattle.std.specs.Prelude.{◌≡◌, ◌≢◌, ◌≤◌, pos, IsTrue, length, IfOk};
ghost use Rattle.pv_num.specs.Extended.{Fin, PosInf};
ghost use Rattle.pv_num.specs.Order.{le};
ghost use Rattle.pv_ctc.specs.Plans.{plan_of, IsFor};
ghost use Rattle.pv_tree.specs.declared.path.TheConstants.{MOST_STEPS};
ghost use Rattle.pv_settle.specs.Rules.{dims_of};
ghost use Rattle.pv_settle.specs.Settlers.{rule_of};
ghost use Rattle.pv_slope.specs.Centered.{centered_of, slope_where, Encloses};
ghost use Rattle.pv_slope.specs.Flat.{term_in};
ghost use Rattle.pv_slope.specs.Methods.{method_of, identity_of as form_identity_of};
ghost use Rattle.pv_slope.specs.Settling.{settle_centered};
ghost use Rattle.pv_slope.specs.Spelling.{identity_of};

use pv_box::IBox;
use pv_ctc::Program;
use pv_expr::System;
use pv_interval::Interval;
use pv_num::Memory;
use pv_settle::Settings;
use pv_slope::{CenteredSettler, Form, FormSettler, Slopes};
use pv_tree::Outcome;
use std::alloc::Global;

/// The slope on a box of the left side minus the right side for a variable.
pub fn slope(slopes: &Slopes, alloc: Global, bx: &IBox, i: u8) -> Result<Option<Interval>, Memory>
    requires { length bx.now ≡ slopes.now.dims }
    ensures { IfOk result (λ s. s ≡ slope_where bx.now i (term_in slopes.now)) }
{
    slopes.slope(alloc, bx, i)
}

/// The centered form on a box of the left side minus the right side.
pub fn range(slopes: &Slopes, alloc: Global, bx: &IBox) -> Result<Option<Interval>, Memory>
    requires { length bx.now ≡ slopes.now.dims }
    ensures value { IfOk result (λ r. r ≡ centered_of bx.now (term_in slopes.now)) }
{
    slopes.range(alloc, bx)
}

/// The value at each point of a box lies in the centered form.
pub fn enclose(slopes: &Slopes, alloc: Global, part: &IBox) -> Result<Option<Interval>, Memory>
    requires { length part.now ≡ slopes.now.dims }
    ensures encloses { IfOk result (λ r. Encloses (term_in slopes.now) part.now r) }
{
    slopes.range(alloc, part)
}

/// How a box is settled where centered forms are used, too.
pub fn settle(
    settler: &CenteredSettler,
    alloc: Global,
    bx: &IBox,
    depth_left: u32,
    path_len: u32,
) -> Result<Outcome, Memory>
    requires { length bx.now ≡ dims_of (rule_of settler.now.settler) }
    ensures { IfOk result (λ o. o ≡
        settle_centered (rule_of settler.now.settler) bx.now depth_left path_len) }
{
    settler.settle(alloc, bx, depth_left, path_len)
}

/// The digest of the system, the settings and the line of centered forms.
pub fn identity(settler: &CenteredSettler, alloc: Global) -> Result<[u8; 32], Memory>
    ensures { IfOk result (λ digest. digest ≡ identity_of (rule_of settler.now.settler)) }
{
    settler.identity(alloc)
}

/// A settler by the form that is asked for.
pub fn by_form(
    alloc: Global,
    form: Form,
    system: System,
    program: Program,
    settings: Settings,
) -> Result<FormSettler, Memory>
    requires program { IsFor (length system.constraints) (plan_of program) }
    requires eps_from { IsTrue (le (Fin (pos 0)) settings.eps) }
    requires eps_finite { settings.eps ≢ PosInf }
    requires depth_some { 1 ≤ settings.depth }
    requires depth_few { settings.depth ≤ MOST_STEPS }
    ensures form { IfOk result (λ s. (method_of s).form ≡ form) }
{
    FormSettler::new(alloc, form, system, program, settings)
}

/// The digest for which the pavings of either form are stored.
pub fn identity_by_form(either: &FormSettler, alloc: Global) -> Result<[u8; 32], Memory>
    ensures { IfOk result (λ digest. digest ≡ form_identity_of (method_of either.now)) }
{
    either.identity(alloc)
}
