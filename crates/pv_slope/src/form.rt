//! The settler of a system by either form of intervals.

ghost use Rattle.std.specs.Prelude.{◌≡◌, ◌≢◌, ◌≤◌, pos, IsTrue, length, map, IfOk};
ghost use Rattle.pv_num.specs.Extended.{Fin, PosInf};
ghost use Rattle.pv_num.specs.Order.{le};
ghost use Rattle.pv_expr.specs.Searches.{search_bounds};
ghost use Rattle.pv_hc4.specs.Graphs.{sides_named};
ghost use Rattle.pv_ctc.specs.Contracting.{sides_in};
ghost use Rattle.pv_ctc.specs.Plans.{plan_of, IsFor};
ghost use Rattle.pv_box.specs.declared.boxes.TheConstants.{MOST_PLACES};
ghost use Rattle.pv_tree.specs.declared.path.TheConstants.{MOST_STEPS};

use crate::room::Room;
use crate::settler::CenteredSettler;
use pv_box::IBox;
use pv_ctc::{Known, Program};
use pv_expr::System;
use pv_num::Memory;
use pv_settle::{Settings, SystemSettler};
use pv_tree::{KnowingSettler, Outcome, Settled, Settler};
use std::alloc::Global;

/// By which intervals boxes are tested.
#[derive(Clone, Copy, Debug, PartialEq, Eq)]
pub enum Form {
    /// By the intervals of a constraint's sides alone.
    Plain,
    /// By centered forms, too.
    Centered,
}

/// The settler of a system by one of the forms.
#[derive(Drop)]
pub enum FormSettler {
    Plain(SystemSettler),
    Centered(CenteredSettler),
}

impl FormSettler {
    ghost use Rattle.pv_slope.specs.Methods.{method_of, dims_of, identity_of};

    /// The settler of a system by a form. The program was read for as many constraints as the
    /// system has; the settings are those that a settler of either form takes.
    pub fn new(
        alloc: Global,
        form: Form,
        system: System,
        program: Program,
        settings: Settings,
    ) -> Result<FormSettler, Memory>
        requires program { IsFor (length system.constraints) (plan_of program) }
        requires eps_from { IsTrue (le (Fin (pos 0)) settings.eps) }
        requires eps_finite { settings.eps ≢ PosInf }
        requires depth_some { 1 ≤ settings.depth }
        requires depth_few { settings.depth ≤ MOST_STEPS }
        ensures form { IfOk result (λ s. (method_of s).form ≡ form) }
        ensures system { IfOk result (λ s. (method_of s).parts.system ≡ system) }
        ensures program { IfOk result (λ s. (method_of s).parts.program ≡ program) }
        ensures eps { IfOk result (λ s. (method_of s).parts.eps ≡ settings.eps) }
        ensures depth { IfOk result (λ s. (method_of s).parts.depth ≡ settings.depth) }
        ensures bisector { IfOk result (λ s. (method_of s).parts.bisector ≡ settings.bisector) }
        ensures sides { IfOk result (λ s. sides_in (method_of s).parts.graphs ≡
            map sides_named system.constraints) }
    {
        match form {
            Form::Plain => Ok(FormSettler::Plain(SystemSettler::new(
                alloc, system, program, settings,
            )?)),
            Form::Centered => Ok(FormSettler::Centered(CenteredSettler::new(
                alloc,
                system,
                program,
                settings.eps,
                settings.depth,
                settings.bisector,
            )?)),
        }
    }

    /// The system.
    pub fn system(&self) -> &System
        ensures { result.now ≡ (method_of self.now).parts.system }
    {
        match self {
            FormSettler::Plain(settler) => settler.system(),
            FormSettler::Centered(settler) => settler.settler.system(),
        }
    }

    /// How many variables the system has, from 1 to 12.
    pub fn dims(&self) -> u8
        ensures value { result ≡ dims_of (method_of self.now) }
        ensures limits { (1 ≤ result) × (result ≤ MOST_PLACES) }
    {
        match self {
            FormSettler::Plain(settler) => settler.dims(),
            FormSettler::Centered(settler) => settler.settler.dims(),
        }
    }

    /// The digest for which its pavings are stored.
    pub fn identity(&self, alloc: Global) -> Result<[u8; 32], Memory>
        ensures { IfOk result (λ digest. digest ≡ identity_of (method_of self.now)) }
    {
        match self {
            FormSettler::Plain(settler) => settler.identity(alloc),
            FormSettler::Centered(settler) => settler.identity(alloc),
        }
    }

    /// The search box: the system's search intervals in order.
    pub fn search_box(&self, alloc: Global) -> Result<IBox, Memory>
        ensures intervals { IfOk result (λ b. b ≡
            map search_bounds (method_of self.now).parts.system.domains) }
        ensures dims { IfOk result (λ b. length b ≡ dims_of (method_of self.now)) }
    {
        match self {
            FormSettler::Plain(settler) => settler.search_box(alloc),
            FormSettler::Centered(settler) => settler.search_box(alloc),
        }
    }
}

impl Settler for FormSettler {
    ghost use Rattle.pv_slope.specs.Methods.{method_of, dims_of, settle_by, is_member};
    ghost use Rattle.pv_slope.specs.FormLaws.{form_dims, form_depth, form_fits, form_keeps_box, form_ends, form_sound};

    ghost dims = { λ s. dims_of (method_of s) };

    ghost depth_of = { λ s. (method_of s).parts.depth };

    ghost settle_of = { λ s. settle_by (method_of s) };

    ghost inside = { λ s. is_member (method_of s) };

    fn depth(&self) -> u32 {
        match self {
            FormSettler::Plain(settler) => settler.depth(),
            FormSettler::Centered(settler) => settler.depth(),
        }
    }

    fn settle(
        &self,
        alloc: Global,
        bx: &IBox,
        depth_left: u32,
        path_len: u32,
    ) -> Result<Outcome, Memory> {
        match self {
            FormSettler::Plain(settler) => settler.settle(alloc, bx, depth_left, path_len),
            FormSettler::Centered(settler) => settler.settle(alloc, bx, depth_left, path_len),
        }
    }

    ghost dims_fit = { form_dims };

    ghost depth_fits = { form_depth };

    ghost fits = { form_fits };

    ghost keeps_box = { form_keeps_box };

    ghost ends = { form_ends };

    ghost sound = { form_sound };
}

impl KnowingSettler for FormSettler {
    type Known = Known;

    type Room = Room;

    ghost use Rattle.pv_ctc.specs.Contracting.{sides_in};
    ghost use Rattle.pv_ctc.specs.Facts.{Knows};
    ghost use Rattle.pv_slope.specs.Methods.{method_of};

    ghost knows = { λ s k b. Knows (sides_in (method_of s).parts.graphs) k b };

    fn room(&self, alloc: Global) -> Room {
        Room::new(alloc)
    }

    fn nothing(&self) -> Known {
        Known::nothing()
    }

    fn settle_knowing(
        &self,
        alloc: Global,
        room: &mut Room,
        bx: &IBox,
        known: Known,
        depth_left: u32,
        path_len: u32,
    ) -> Result<Settled<Known>, Memory> {
        match self {
            FormSettler::Plain(settler) => {
                settler.settle_knowing(alloc, &mut room.scratch, bx, known, depth_left, path_len)
            }
            FormSettler::Centered(settler) => {
                settler.settle_knowing(alloc, room, bx, known, depth_left, path_len)
            }
        }
    }
}
