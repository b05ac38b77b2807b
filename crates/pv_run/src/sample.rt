//! `sample`: a report on the paving of a system that a number makes.
ghost use Rattle.std.specs.Prelude.{◌≡◌, ◌++◌, ◌∷◌, [], IfOk, IfErr, OnOk, codes};
ghost use Rattle.hex.specs.Hex.{encode_lower};
ghost use Rattle.sha2.specs.Sha256.{sha256};
ghost use Rattle.pv_file.specs.Texts.{file_text};
ghost use Rattle.pv_file.specs.declared.version.Version.TheVariants as version;
ghost use Rattle.pv_expr.specs.Systems.{Parts};
ghost use Rattle.pv_tree.specs.Trees.{leaf};
ghost use Rattle.pv_slope.specs.Methods.{method_of, identity_of};
ghost use Rattle.pv_product.specs.Products.{AreForSamples, ComesOfSample, RefusesSample, IsHonest, full_by, report_of};
ghost use Rattle.pv_run.specs.Samples.{IsMadeRule};
ghost use Rattle.pv_rule.specs.Systems.{IsRuleFor, search_box};
ghost use Rattle.pv_request.specs.declared.request.Settings as declared;
ghost use Rattle.pv_product.specs.Made.{made};

use crate::run::pave_box;
use pv_box::Bisector;
use pv_file::{hex_digits, write};
use pv_honest::learn_honest;
use pv_io::PlainSink;
use pv_made::sample_system;
use pv_num::{End, Memory, Num};
use pv_parse::parse;
use pv_pool::Gate;
use pv_product::Product;
use pv_product::summary::push_counts;
use pv_request::{Circles, Effort, Refusal, Settings, push_decimal};
use pv_rule::settler_for;
use pv_scope::Order;
use pv_slope::{Form, FormSettler};
use pv_tree::{NodeLimit, Paving};
use pv_workers::Budget;
use sha2::{Digest, Sha256};
use std::alloc::Global;
use std::sync::Wait;
use std::thread::Threads;

/// A report on the full tree of the system that the circles make: its summary, and the digest of
/// its file.
pub fn sample<'a, G: Gate + Sync, R: Threads + Wait + Sync>(
    rt: &R,
    alloc: Global,
    circles: &Circles,
    gate: &G,
) -> Result<Product, Refusal<'a>>
    ensures comes { IfOk result (λ p. ComesOfSample circles.now (made p)) }
    ensures refused { IfErr result RefusesSample }
{
    let settings = settings();
    let settler = match settler_of(alloc, circles, &settings) {
        Ok(settler) => settler,
        Err(refusal) => return Err(refusal),
    };
    Ok(Product::Text(report_full(rt, alloc, circles, &settler, gate)?))
}

// The report on what a settler makes of its search box.
fn report_full<G: Gate + Sync, R: Threads + Wait + Sync>(
    rt: &R,
    alloc: Global,
    circles: &Circles,
    settler: &FormSettler,
    gate: &G,
) -> Result<Vec<u8>, Memory>
    requires { (method_of settler.now).parts.depth ≡ 14 }
    ensures report { IfOk result
        (λ text. text.items ≡ report_of circles.now (identity_of (method_of settler.now))
        (search_box (method_of settler.now)) (full_by (method_of settler.now) leaf)) }
    ensures honest { OnOk result ((system : Parts) (s : declared.Settings)
        → IsRuleFor system s (method_of settler.now)
        → IsHonest s (method_of settler.now) (full_by (method_of settler.now) leaf)) }
{
    let identity = settler.identity(alloc)?;
    // A tree of at most 14 cuts on a path has fewer nodes.
    let budget = Budget {
        nodes: 100_000,
        limit: NodeLimit::DEFAULT,
        workers: 4,
    };
    let effort = Effort {
        budget,
        order: Order::Depth,
    };
    let root = settler.search_box(alloc)?;
    let paving = pave_box(rt, alloc, settler, root, &effort, gate)?;
    learn_honest(&paving, settler);
    report(alloc, circles, identity, &paving)
}

// By these a sample is paved.
fn settings<'a>() -> Settings<'a>
    ensures { AreForSamples result }
{
    Settings {
        eps: Num::from_ratio(8, 1, End::Down),
        depth: 14,
        bisector: Bisector::Largest,
        contract: "prop(8)",
        form: Form::Plain,
    }
}

// The settler of the system that the circles make.
fn settler_of<'a>(
    alloc: Global,
    circles: &Circles,
    settings: &Settings<'a>,
) -> Result<FormSettler, Refusal<'a>>
    requires { AreForSamples settings.now }
    ensures rule { IfOk result (λ s. IsMadeRule circles.now settings.now (method_of s)) }
    ensures refused { IfErr result RefusesSample }
{
    let text = sample_system(alloc, circles.seed, circles.count)?;
    let system = match parse(alloc, &text) {
        Ok(system) => system,
        Err(fault) => return Err(fault.into()),
    };
    settler_for(alloc, system, settings)
}

#[tactic(auto, unfolding(pv_product::specs::Products::report_of))]
fn report(
    alloc: Global,
    circles: &Circles,
    identity: [u8; 32],
    paving: &Paving,
) -> Result<Vec<u8>, Memory>
    ensures { IfOk result
        (λ text. text.items ≡ report_of circles.now identity paving.now.root paving.now.tree) }
{
    let mut out = Vec::new(alloc);
    out.extend_from_slice(b"sample seed ")?;
    push_decimal(&mut out, u64::from(circles.seed))?;
    out.extend_from_slice(b" count ")?;
    push_decimal(&mut out, u64::from(circles.count))?;
    out.push(b'\n')?;
    push_counts(paving.counts(), &mut out)?;
    push_digest(alloc, identity, paving, &mut out)?;
    Ok(out)
}

// Appends the line with the digest of a paving's file.
fn push_digest(
    alloc: Global,
    identity: [u8; 32],
    paving: &Paving,
    out: &mut Vec<u8>,
) -> Result<(), Memory>
    ensures { OnOk result (out.new.items ≡ out.old.items ++ (codes "file "
        ++ (encode_lower (sha256 (file_text version.Two identity paving.now.root paving.now.tree))
        ++ 10 ∷ []))) }
{
    let mut text = PlainSink::new(alloc);
    let Ok(()) = write(alloc, paving, identity, &mut text) else {
        return Err(Memory);
    };
    let mut hasher = Sha256::new();
    hasher.update(text.bytes());
    out.extend_from_slice(b"file ")?;
    out.extend_from_slice(&hex_digits(&hasher.finalize()))?;
    out.push(b'\n')?;
    Ok(())
}
