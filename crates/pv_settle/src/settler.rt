//! The settler of a system.

ghost use Rattle.std.specs.Prelude.{◌≡◌, ◌≢◌, ◌<◌, ◌≤◌, pos, IsTrue, length, map, IfOk, IfSome, List, Some};
ghost use Rattle.pv_num.specs.Extended.{Fin, PosInf};
ghost use Rattle.pv_num.specs.Order.{le};
ghost use Rattle.pv_hc4.specs.Graphs.{sides_named};
ghost use Rattle.pv_expr.specs.Searches.{search_bounds};
ghost use Rattle.pv_ctc.specs.Contracting.{sides_in, contract_of};
ghost use Rattle.pv_ctc.specs.Members.{AllOver};
ghost use Rattle.pv_ctc.specs.Plans.{plan_of, IsFor};
ghost use Rattle.pv_ctc.proofs.Props.{IsFor-prop, AllOver-prop};
ghost use Rattle.pv_box.specs.declared.boxes.TheConstants.{MOST_PLACES};
ghost use Rattle.pv_tree.specs.declared.path.TheConstants.{MOST_STEPS};

use crate::settings::Settings;
use pv_box::IBox;
use pv_ctc::{Graphs, Known, Program};
use pv_expr::System;
use pv_hc4::Scratch;
use pv_num::Memory;
use pv_tree::Outcome;
use std::alloc::Global;

/// A system with the program and the settings by which its boxes are settled.
#[derive(Drop)]
pub struct SystemSettler {
    pub(crate) system: System,
    pub(crate) program: Program,
    pub(crate) settings: Settings,
    pub(crate) graphs: Graphs,
    ghost names_some: { 1 ≤ length system.names },
    ghost names_few: { length system.names ≤ MOST_PLACES },
    ghost depth_some: { 1 ≤ settings.depth },
    ghost depth_few: { settings.depth ≤ MOST_STEPS },
    ghost dims: { graphs.dims ≡ length system.names },
    ghost over: { AllOver graphs.dims (sides_in graphs) } by { AllOver-prop graphs.dims (sides_in graphs) },
    ghost program_fits: { IsFor (length (sides_in graphs)) (plan_of program) } by { IsFor-prop (length (sides_in graphs)) (plan_of program) },
}

impl SystemSettler {
    ghost use Rattle.pv_settle.specs.Rules.{dims_of};
    ghost use Rattle.pv_settle.specs.Settlers.{rule_of};
    ghost use Rattle.pv_settle.specs.Settling.{settle_by};

    /// The settler of a system. The program was read for as many constraints as the system has.
    pub fn new(
        alloc: Global,
        system: System,
        program: Program,
        settings: Settings,
    ) -> Result<SystemSettler, Memory>
        requires program { IsFor (length system.constraints) (plan_of program) }
        requires eps_from { IsTrue (le (Fin (pos 0)) settings.eps) }
        requires eps_finite { settings.eps ≢ PosInf }
        requires depth_some { 1 ≤ settings.depth }
        requires depth_few { settings.depth ≤ MOST_STEPS }
        ensures system { IfOk result (λ s. (rule_of s).system ≡ system) }
        ensures program { IfOk result (λ s. (rule_of s).program ≡ program) }
        ensures eps { IfOk result (λ s. (rule_of s).eps ≡ settings.eps) }
        ensures depth { IfOk result (λ s. (rule_of s).depth ≡ settings.depth) }
        ensures bisector { IfOk result (λ s. (rule_of s).bisector ≡ settings.bisector) }
        ensures sides { IfOk result (λ s. sides_in (rule_of s).graphs ≡
            map sides_named system.constraints) }
    {
        let graphs = Graphs::of(alloc, &system)?;
        let _constraints = system.constraint_count();
        Ok(SystemSettler {
            system,
            program,
            settings,
            graphs,
        })
    }

    /// The system.
    pub fn system(&self) -> &System
        ensures { result.now ≡ (rule_of self.now).system }
    {
        &self.system
    }

    /// The program by which boxes are contracted.
    pub fn program(&self) -> &Program
        ensures { result.now ≡ (rule_of self.now).program }
    {
        &self.program
    }

    /// The graphs of the system's constraints.
    pub fn graphs(&self) -> &Graphs
        ensures { result.now ≡ (rule_of self.now).graphs }
    {
        &self.graphs
    }

    /// Every constraint is over the system's variables, and the program is one for as many
    /// constraints as there are. It holds by its contract alone; the call does nothing.
    pub fn learn(&self)
        ensures dims { (rule_of self.now).graphs.dims ≡ dims_of (rule_of self.now) }
        ensures over { AllOver (rule_of self.now).graphs.dims
            (sides_in (rule_of self.now).graphs) }
        ensures program { IsFor (length (sides_in (rule_of self.now).graphs))
            (plan_of (rule_of self.now).program) }
    {
        let _ = &self.graphs;
    }

    /// How many variables the system has, from 1 to 12.
    pub fn dims(&self) -> u8
        ensures value { result ≡ dims_of (rule_of self.now) }
        ensures limits { (1 ≤ result) × (result ≤ MOST_PLACES) }
    {
        self.system.variable_count()
    }

    /// The most cuts on a path, from 1 to 200.
    pub fn depth(&self) -> u32
        ensures value { result ≡ (rule_of self.now).depth }
        ensures limits { (1 ≤ result) × (result ≤ MOST_STEPS) }
    {
        self.settings.depth
    }

    /// Settles a box: it is contracted, and then removed, inner, small, or cut.
    pub fn settle(
        &self,
        alloc: Global,
        bx: &IBox,
        depth_left: u32,
        path_len: u32,
    ) -> Result<Outcome, Memory>
        requires { length bx.now ≡ dims_of (rule_of self.now) }
        ensures { IfOk result (λ o. o ≡ settle_by (rule_of self.now) bx.now depth_left path_len) }
    {
        let mut scratch = Scratch::new(alloc);
        let nothing = Known::nothing();
        let settled = self.settle_knowing(alloc, &mut scratch, bx, nothing, depth_left, path_len)?;
        Ok(settled.outcome)
    }

    /// The search box: the system's search intervals in order.
    pub fn search_box(&self, alloc: Global) -> Result<IBox, Memory>
        ensures intervals { IfOk result (λ b. b ≡
            map search_bounds (rule_of self.now).system.domains) }
        ensures dims { IfOk result (λ b. length b ≡ dims_of (rule_of self.now)) }
    {
        let mut parts = Vec::new(alloc);
        for i in 0..self.system.variable_count() {
            parts.push(self.system.search_interval(i))?;
        }
        Ok(IBox::new(parts))
    }
}
