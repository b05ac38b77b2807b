//! What contractor programs promise: their texts, what they leave of a box, and what is known of
//! one.
ghost use Rattle.std.specs.Prelude.{◌≡◌, ◌⊎◌, ◌+◌, ◌<◌, ◌≤◌, List, length, IsTrue, IfOk, IfErr, OnOk, OnErr};
ghost use Rattle.pv_interval.specs.Bounds.{Bounds};
ghost use Rattle.pv_box.specs.declared.boxes.TheConstants.{MOST_PLACES};
ghost use Rattle.pv_hc4.specs.declared.revised.Revised.TheVariants.{Empty};
ghost use Rattle.pv_ctc.specs.Contracting.{sides_in, contract_of};
ghost use Rattle.pv_ctc.specs.Counters.{raised};
ghost use Rattle.pv_ctc.specs.Facts.{Knows, IsPartAt};
ghost use Rattle.pv_ctc.specs.Members.{AreMembers, MembersStay};
ghost use Rattle.pv_ctc.specs.Plans.{plan_of, IsFor};
ghost use Rattle.pv_ctc.specs.Refusals.{IsRefusal};
ghost use Rattle.pv_ctc.specs.Revisions.{revisions};
ghost use Rattle.pv_ctc.specs.Steps.{IsStep};
ghost use Rattle.pv_ctc.specs.Sureness.{program_sure};
ghost use Rattle.pv_ctc.specs.Texts.{program_text};

use pv_box::IBox;
use pv_ctc::{Counter, Graphs, Known, Program, ProgramRefused};
use pv_hc4::{Revised, Scratch, Steps};
use pv_num::Memory;
use std::alloc::Global;
use std::sync::ledger::Ledger;

/// The one spelling of a program.
pub fn spelling(program: &Program, alloc: Global) -> Result<Vec<u8>, Memory>
    ensures { IfOk result (λ text. text.items ≡ program_text (plan_of program.now)) }
{
    program.text(alloc)
}

/// The program that a text spells, for a system of `count` constraints.
pub fn spelled(alloc: Global, text: &[u8], count: u32) -> Result<Program, ProgramRefused>
    ensures fits { IfOk result (λ p. IsFor count (plan_of p)) }
    ensures spelled { IfOk result (λ p. text.now ≡ program_text (plan_of p)) }
{
    Program::read(alloc, text, count)
}

/// The byte at which a text is refused that spells no program.
pub fn refusal(alloc: Global, bytes: &[u8], count: u32) -> Result<Program, ProgramRefused>
    ensures refused { IfErr result (IsRefusal count bytes.now) }
{
    Program::read(alloc, bytes, count)
}

/// What a program leaves of a box.
pub fn left(
    program: &Program,
    alloc: Global,
    graphs: &Graphs,
    bx: &IBox,
) -> Result<Option<IBox>, Memory>
    requires program { IsFor (length graphs.now.graphs) (plan_of program.now) }
    requires dims { length bx.now ≡ graphs.now.dims }
    ensures left { IfOk result (λ o. o ≡
        contract_of (sides_in graphs.now) (plan_of program.now) bx.now) }
{
    program.contract(alloc, graphs, bx)
}

/// Each point of a box that is in the program's set lies in what is left of the box.
pub fn keep_members(
    program: &Program,
    alloc: Global,
    graphs: &Graphs,
    whole: &IBox,
) -> Result<Option<IBox>, Memory>
    requires program { IsFor (length graphs.now.graphs) (plan_of program.now) }
    requires dims { length whole.now ≡ graphs.now.dims }
    ensures members { IfOk result
        (MembersStay (sides_in graphs.now) (plan_of program.now) whole.now) }
{
    program.contract(alloc, graphs, whole)
}

/// The steps rise by the number of revisions that the contraction needs.
pub fn left_counted<L: Ledger>(
    program: &Program,
    alloc: Global,
    graphs: &Graphs,
    bx: &IBox,
    steps: &mut Steps<L>,
) -> Result<Option<IBox>, Memory>
    requires program { IsFor (length graphs.now.graphs) (plan_of program.now) }
    requires dims { length bx.now ≡ graphs.now.dims }
    ensures counted { OnOk result (steps.new ≡
        steps.old + revisions (sides_in graphs.now) (plan_of program.now) bx.now) }
    ensures at_most { OnErr result (steps.new ≤ steps.old + revisions (sides_in graphs.now)
        (plan_of program.now) bx.now) }
{
    program.contract_counted(alloc, graphs, bx, steps)
}

/// A counter tells each revision that the contraction needs.
pub fn left_by<C: Counter>(
    program: &Program,
    alloc: Global,
    graphs: &Graphs,
    bx: &IBox,
    counter: &mut C,
) -> Result<Option<IBox>, Memory>
    requires program { IsFor (length graphs.now.graphs) (plan_of program.now) }
    requires dims { length bx.now ≡ graphs.now.dims }
    ensures counted { OnOk result (C.told counter.new ≡
        raised (C.told counter.old)
        (revisions (sides_in graphs.now) (plan_of program.now) bx.now)) }
{
    program.contract_by(alloc, graphs, bx, counter)
}

/// What a program leaves of a box of whose constraints something is known, and what is known of
/// them afterwards.
pub fn narrow_knowing(
    program: &Program,
    alloc: Global,
    graphs: &Graphs,
    scratch: &mut Scratch,
    bx: &mut IBox,
    known: &mut Known,
) -> Result<Revised, Memory>
    requires program { IsFor (length graphs.now.graphs) (plan_of program.now) }
    requires dims { length bx.old ≡ graphs.now.dims }
    requires known { Knows (sides_in graphs.now) known.old bx.old }
    ensures step { IfOk result (λ r.
        IsStep (contract_of (sides_in graphs.now) (plan_of program.now) bx.old) r bx.old bx.new) }
    ensures known { IfOk result (λ r. (r ≡ Empty) ⊎
        Knows (sides_in graphs.now) known.new bx.new) }
{
    program.narrow_knowing(alloc, graphs, scratch, bx, known)
}

/// What is known of each half of a box that is cut at a variable.
pub fn known_of_halves(known: Known, graphs: &Graphs, var: u8) -> Known
    requires { var < MOST_PLACES }
    ensures { (b c : List Bounds) → Knows (sides_in graphs.now) known b → IsPartAt var b c →
        Knows (sides_in graphs.now) result c }
{
    known.after_cut(graphs, var)
}

/// Whether each point of a box is in the program's set, as the intervals show.
pub fn is_sure(program: &Program, alloc: Global, graphs: &Graphs, bx: &IBox) -> Result<bool, Memory>
    requires program { IsFor (length graphs.now.graphs) (plan_of program.now) }
    requires dims { length bx.now ≡ graphs.now.dims }
    ensures answer { IfOk result (λ t. t ≡
        program_sure (sides_in graphs.now) (plan_of program.now) bx.now) }
    ensures members { IfOk result (λ t. IsTrue t →
        AreMembers (sides_in graphs.now) (plan_of program.now) bx.now) }
{
    program.sure(alloc, graphs, bx)
}
