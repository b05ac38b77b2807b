//! The join of the paving files of a system.
ghost use Rattle.std.specs.Prelude.{◌≡◌, ◌++◌, [], ◌∷◌, ℕ, List, map, IfOk, IfErr, IsSome, OnOk};
ghost use Rattle.pv_interval.specs.Bounds.{Bounds};
ghost use Rattle.pv_tree.specs.Trees.{Tree, subtree, outcome_at};
ghost use Rattle.pv_join.specs.Joins.{IsJoin, IsJoinRefusal};
ghost use Rattle.pv_file.specs.Lines.{outcome_line};
ghost use Rattle.pv_tree.specs.declared.outcome.Outcome.{Outcome};
ghost use Rattle.pv_slope.specs.Methods.{Method, method_of};
ghost use Rattle.pv_request.specs.Requests.{names_in};
ghost use Rattle.pv_rule.specs.Systems.{files, AreOnlyRead, search_box};
ghost use Rattle.pv_product.specs.Files.{IsJoinOf, RefusesJoin, RefusesOpening};
ghost use Rattle.pv_opening.specs.Reads.{IsKeyOf, IsOpened, IsJoinOn, RefusesJoinOn, IsLineAt, IsDisagree};

use crate::pavings::{Key, check_pavings, paving_in};
use pv_box::IBox;
use pv_file::write_node;
use pv_io::Folder;
use pv_join::{JoinRefused, join};
use pv_num::Memory;
use pv_request::{Refusal, Settings};
use pv_rule::settler_in;
use pv_slope::FormSettler;
use pv_tree::{NodeLimit, Path, Paving};
use std::alloc::Global;

/// A system's settler, and the join of its paving files.
#[derive(Drop)]
pub struct Opening {
    pub settler: FormSettler,
    pub paving: Paving,
}

/// The join of the files of these names, which hold pavings of the system in a file by the
/// settings.
pub fn opening_in<'a, F: Folder>(
    alloc: Global,
    folder: &mut F,
    system: &'a str,
    names: &[&'a str],
    settings: &Settings<'a>,
    limit: NodeLimit,
) -> Result<Opening, Refusal<'a>>
    ensures read { AreOnlyRead
        (files (F.content folder.old) (F.fetch_faults folder.old) (F.store_faults folder.old))
        (files (F.content folder.new) (F.fetch_faults folder.new) (F.store_faults folder.new)) }
    ensures opened { IfOk result
        (IsOpened (files (F.content folder.old) (F.fetch_faults folder.old)
        (F.store_faults folder.old)) system.now (names_in names.now) settings.now limit) }
    ensures refused { IfErr result
        (RefusesOpening
        (files (F.content folder.old) (F.fetch_faults folder.old) (F.store_faults folder.old))
        (files (F.content folder.new) (F.fetch_faults folder.new) (F.store_faults folder.new))
        system.now (names_in names.now) settings.now limit) }
{
    let settler = match settler_in(alloc, folder, system, settings) {
        Ok(settler) => settler,
        Err(refusal) => return Err(refusal),
    };
    let key = Key::of(alloc, &settler, limit)?;
    let root = settler.search_box(alloc)?;
    let paving = match join_files(alloc, folder, &key, root, names) {
        Ok(paving) => paving,
        Err(refusal) => return Err(refusal),
    };
    Ok(Opening { settler, paving })
}

/// The join of the files of these names, which hold pavings over a box. Of the files no more is held
/// at a time than the join of those that were read, and the next one.
fn join_files<'a, F: Folder>(
    alloc: Global,
    folder: &mut F,
    key: &Key,
    root: IBox,
    names: &[&'a str],
) -> Result<Paving, Refusal<'a>>
    requires { root ≡ key.now.root }
    ensures read { AreOnlyRead
        (files (F.content folder.old) (F.fetch_faults folder.old) (F.store_faults folder.old))
        (files (F.content folder.new) (F.fetch_faults folder.new) (F.store_faults folder.new)) }
    ensures root { IfOk result (λ p. p.root ≡ key.now.root) }
    ensures join { IfOk result
        (λ p. (rule : Method) (limit : ℕ) → IsKeyOf rule limit key.now
        → IsJoinOn (files (F.content folder.old) (F.fetch_faults folder.old)
        (F.store_faults folder.old)) limit rule [] (names_in names.now) p.tree) }
    ensures refused { IfErr result
        (λ r. (rule : Method) (limit : ℕ) → IsKeyOf rule limit key.now
        → RefusesJoinOn
        (files (F.content folder.old) (F.fetch_faults folder.old) (F.store_faults folder.old))
        (files (F.content folder.new) (F.fetch_faults folder.new) (F.store_faults folder.new))
        limit rule [] (names_in names.now) r) }
{
    let Some((name, rest)) = names.split_first() else {
        return Ok(Paving::open(alloc, root)?);
    };
    let first = match paving_in(alloc, folder, key, *name) {
        Ok(first) => first,
        Err(refusal) => return Err(refusal),
    };
    join_on(alloc, folder, key, first, rest)
}

// The join of a paving, which is the join of the files so far, with the files of further names. Where one
// disagrees, the files after it are still read: a fault of theirs is told first.
fn join_on<'a, F: Folder>(
    alloc: Global,
    folder: &mut F,
    key: &Key,
    earlier: Paving,
    names: &[&'a str],
) -> Result<Paving, Refusal<'a>>
    requires { earlier.root ≡ key.now.root }
    ensures read { AreOnlyRead
        (files (F.content folder.old) (F.fetch_faults folder.old) (F.store_faults folder.old))
        (files (F.content folder.new) (F.fetch_faults folder.new) (F.store_faults folder.new)) }
    ensures root { IfOk result (λ p. p.root ≡ key.now.root) }
    ensures join { IfOk result
        (λ p. (rule : Method) (limit : ℕ) (ts : List Tree) → IsKeyOf rule limit key.now
        → IsJoinOf ts earlier.tree
        → IsJoinOn (files (F.content folder.old) (F.fetch_faults folder.old)
        (F.store_faults folder.old)) limit rule ts (names_in names.now) p.tree) }
    ensures refused { IfErr result
        (λ r. (rule : Method) (limit : ℕ) (ts : List Tree) → IsKeyOf rule limit key.now
        → IsJoinOf ts earlier.tree
        → RefusesJoinOn
        (files (F.content folder.old) (F.fetch_faults folder.old) (F.store_faults folder.old))
        (files (F.content folder.new) (F.fetch_faults folder.new) (F.store_faults folder.new))
        limit rule ts (names_in names.now) r) }
{
    let Some((name, rest)) = names.split_first() else {
        return Ok(earlier);
    };
    let next = match paving_in(alloc, folder, key, *name) {
        Ok(next) => next,
        Err(refusal) => return Err(refusal),
    };
    let joined = match join_two(alloc, earlier, next) {
        Ok(joined) => joined,
        Err(refusal) => match check_pavings(alloc, folder, key, rest) {
            Ok(()) => return Err(refusal),
            Err(fault) => return Err(fault),
        },
    };
    join_on(alloc, folder, key, joined, rest)
}

// The join of a paving, which is the join of earlier ones, with another one. Both are let go.
fn join_two<'a>(alloc: Global, earlier: Paving, next: Paving) -> Result<Paving, Refusal<'a>>
    requires { next.root ≡ earlier.root }
    ensures root { IfOk result (λ p. p.root ≡ earlier.root) }
    ensures join { IfOk result (λ p. IsJoin earlier.tree next.tree p.tree) }
    ensures refused { IfErr result
        (λ r. (ts us : List Tree) → IsJoinOf ts earlier.tree
        → RefusesJoin (ts ++ next.tree ∷ us) r) }
{
    match join(alloc, &earlier, &next) {
        Ok(joined) => Ok(joined),
        Err(refused) => Err(no_join(alloc, &earlier, &next, refused)),
    }
}

// The refusal for two pavings that have no join.
fn no_join<'a>(alloc: Global, earlier: &Paving, next: &Paving, refused: JoinRefused) -> Refusal<'a>
    requires { IsJoinRefusal earlier.now.tree next.now.tree refused }
    ensures { (ts us : List Tree) → IsJoinOf ts earlier.now.tree
        → RefusesJoin (ts ++ next.now.tree ∷ us) result }
{
    match refused {
        JoinRefused::Memory => Refusal::Memory,
        JoinRefused::Disagree { path } => disagree(alloc, earlier, next, path),
    }
}

// The refusal for two pavings that disagree at a path.
fn disagree<'a>(alloc: Global, joined: &Paving, file: &Paving, path: Path) -> Refusal<'a>
    requires joined { IsSome (outcome_at joined.now.tree path) }
    requires file { IsSome (outcome_at file.now.tree path) }
    ensures { IsDisagree joined.now.tree file.now.tree path result }
{
    match (line_at(alloc, joined, path), line_at(alloc, file, path)) {
        (Ok(joined), Ok(file)) => Refusal::Disagree { path, joined, file },
        _ => Refusal::Memory,
    }
}

/// The line of the settled node at a path.
pub fn line_at(alloc: Global, p: &Paving, path: Path) -> Result<Vec<u8>, Memory>
    requires { IsSome (outcome_at p.now.tree path) }
    ensures { IfOk result (λ line. IsLineAt p.now.tree path line.items) }
{
    let mut line = Vec::new(alloc);
    write_node(alloc, p, path, &mut line)?;
    Ok(line)
}
