//! The settler with centered forms.

ghost use Rattle.std.specs.Prelude.{◌≡◌, ◌≢◌, ◌≤◌, pos, IsTrue, length, map, IfOk};
ghost use Rattle.pv_num.specs.Extended.{Fin, PosInf};
ghost use Rattle.pv_num.specs.Order.{le};
ghost use Rattle.pv_expr.specs.Searches.{search_bounds};
ghost use Rattle.pv_hc4.specs.Graphs.{sides_named};
ghost use Rattle.pv_ctc.specs.Contracting.{sides_in};
ghost use Rattle.pv_ctc.specs.Members.{AllOver};
ghost use Rattle.pv_ctc.specs.Plans.{plan_of, IsFor};
ghost use Rattle.pv_ctc.proofs.Props.{IsFor-prop, AllOver-prop};
ghost use Rattle.pv_settle.specs.Rules.{dims_of};
ghost use Rattle.pv_settle.specs.Settlers.{rule_of};
ghost use Rattle.pv_slope.specs.Centered.{CenteredEncloses};
ghost use Rattle.pv_slope.specs.Matching.{all_match};
ghost use Rattle.pv_slope.specs.Props.{CenteredEncloses-prop};
ghost use Rattle.pv_box.specs.declared.boxes.TheConstants.{MOST_PLACES};
ghost use Rattle.pv_tree.specs.declared.path.TheConstants.{MOST_STEPS};

use crate::laws::enclosure;
use crate::room::Room;
use crate::slopes::Slopes;
use pv_box::{Bisector, IBox};
use pv_ctc::{Known, Program};
use pv_expr::System;
use pv_num::{Memory, Num};
use pv_settle::{Settings, SystemSettler};
use pv_tree::Outcome;
use std::alloc::Global;

/// A settler of a system that tests boxes by centered forms, too.
#[derive(Drop)]
pub struct CenteredSettler {
    pub(crate) settler: SystemSettler,
    pub(crate) slopes: Vec<Slopes>,
    ghost dims_some: { 1 ≤ dims_of (rule_of settler) },
    ghost dims_few: { dims_of (rule_of settler) ≤ MOST_PLACES },
    ghost depth_some: { 1 ≤ (rule_of settler).depth },
    ghost depth_few: { (rule_of settler).depth ≤ MOST_STEPS },
    ghost dims: { (rule_of settler).graphs.dims ≡ dims_of (rule_of settler) },
    ghost over: { AllOver (rule_of settler).graphs.dims (sides_in (rule_of settler).graphs) } by { AllOver-prop (rule_of settler).graphs.dims (sides_in (rule_of settler).graphs) },
    ghost program_fits: { IsFor (length (sides_in (rule_of settler).graphs)) (plan_of (rule_of settler).program) } by { IsFor-prop (length (sides_in (rule_of settler).graphs)) (plan_of (rule_of settler).program) },
    ghost encloses: { CenteredEncloses } by { CenteredEncloses-prop },
    ghost slopes_fit: { IsTrue (all_match (dims_of (rule_of settler)) slopes.items (sides_in (rule_of settler).graphs)) },
}

impl CenteredSettler {
    ghost use Rattle.pv_slope.specs.Settling.{settle_centered};

    /// The settler of a system. The program was read for as many constraints as the system has; the
    /// width `eps` is finite and at least 0, and the depth from 1 to 200.
    pub fn new(
        alloc: Global,
        system: System,
        program: Program,
        eps: Num,
        depth: u32,
        bisector: Bisector,
    ) -> Result<CenteredSettler, Memory>
        requires program { IsFor (length system.constraints) (plan_of program) }
        requires eps_from { IsTrue (le (Fin (pos 0)) eps) }
        requires eps_finite { eps ≢ PosInf }
        requires depth_some { 1 ≤ depth }
        requires depth_few { depth ≤ MOST_STEPS }
        ensures system { IfOk result (λ s. (rule_of s.settler).system ≡ system) }
        ensures program { IfOk result (λ s. (rule_of s.settler).program ≡ program) }
        ensures eps { IfOk result (λ s. (rule_of s.settler).eps ≡ eps) }
        ensures depth { IfOk result (λ s. (rule_of s.settler).depth ≡ depth) }
        ensures bisector { IfOk result (λ s. (rule_of s.settler).bisector ≡ bisector) }
        ensures sides { IfOk result (λ s. sides_in (rule_of s.settler).graphs ≡
            map sides_named system.constraints) }
    {
        let slopes = slopes_of(alloc, &system)?;
        let settings = Settings {
            eps,
            depth,
            bisector,
        };
        let settler = SystemSettler::new(alloc, system, program, settings)?;
        settler.learn();
        enclosure();
        let _dims = settler.dims();
        let _depth = settler.depth();
        Ok(CenteredSettler { settler, slopes })
    }

    /// The most cuts on a path, from 1 to 200.
    pub fn depth(&self) -> u32
        ensures value { result ≡ (rule_of self.now.settler).depth }
        ensures limits { (1 ≤ result) × (result ≤ MOST_STEPS) }
    {
        self.settler.depth()
    }

    /// Settles a box: it is contracted, and then removed, inner, small, or cut.
    pub fn settle(
        &self,
        alloc: Global,
        bx: &IBox,
        depth_left: u32,
        path_len: u32,
    ) -> Result<Outcome, Memory>
        requires { length bx.now ≡ dims_of (rule_of self.now.settler) }
        ensures { IfOk result (λ o. o ≡
            settle_centered (rule_of self.now.settler) bx.now depth_left path_len) }
    {
        let mut room = Room::new(alloc);
        let nothing = Known::nothing();
        let settled = self.settle_knowing(alloc, &mut room, bx, nothing, depth_left, path_len)?;
        Ok(settled.outcome)
    }

    /// The search box: the system's search intervals in order.
    pub fn search_box(&self, alloc: Global) -> Result<IBox, Memory>
        ensures intervals { IfOk result (λ b. b ≡
            map search_bounds (rule_of self.now.settler).system.domains) }
        ensures dims { IfOk result (λ b. length b ≡ dims_of (rule_of self.now.settler)) }
    {
        self.settler.search_box(alloc)
    }
}

// The slopes of each constraint of a system.
fn slopes_of(alloc: Global, system: &System) -> Result<Vec<Slopes>, Memory>
    ensures { IfOk result (λ v. IsTrue (all_match (length system.now.names) v.items
        (map sides_named system.now.constraints))) }
{
    let dims = system.variable_count();
    let mut slopes = Vec::new(alloc);
    for i in 0..system.constraint_count() {
        slopes.push(Slopes::of(alloc, system.constraint(i), dims)?)?;
    }
    Ok(slopes)
}
