//! A paving file, read.
ghost use Rattle.std.specs.Prelude.{◌≡◌, ◌≢◌, ◌↔◌, ◌==◌, ◌+◌, ◌^◌, ◌≤◌, ◌<◌, ◌++◌, ◌∷◌, ℕ, List, Option, IfOk, IfSome, Err, None, MatchResult, IsTrue, codes};
ghost use Rattle.pv_tree.specs.Trees.{Tree, HasDepth};
ghost use Rattle.pv_tree.specs.Holes.{IsNext, IsFirstBox};
ghost use Rattle.pv_tree.specs.declared.outcome.Outcome.{Outcome};
ghost use Rattle.pv_file.specs.Lines.{kept_text, node_line_with, lines_of};
ghost use Rattle.pv_file.specs.Texts.{header_text, version_text, identity_text};
ghost use Rattle.pv_file.specs.Readings.{IsFree, IsTextOf, IsPavingInFormat, settled_count, HasOtherIdentity, IsFirstBadLine, IsOneTooMany};
ghost use Rattle.pv_file.specs.Lengths.{length_limit};
ghost use Rattle.pv_file.specs.Reading.{IsBadHeader, HasOtherHeader, HasOtherSecond, HasNoIdentity, IsRightNode, node_of, SaysNode, StandsAt, TakesNode, IsPut, IsMany, IsStep, IsStuck, IsFull, IsBadBody, IsManyBody};
ghost use Rattle.pv_tree.specs.declared.limit.TheConstants.{LEAST_LIMIT};

use crate::cut::line_end;
use crate::header::{IdentityLine, learn_digest, read_identity, read_version};
use crate::outcome_line::read_line;
use crate::refusal::FileRefused;
use crate::version::Version;
use pv_box::IBox;
use pv_num::Memory;
use pv_tree::{Growth, MOST_STEPS, NodeLimit, Outcome, Path, Paving};
use std::alloc::Global;

/// So many bytes of a file are read for each settled node that the limit allows: its line, and the
/// line of an open leaf.
pub const NODE_BYTES: u64 = 662;

/// So many bytes of a file are read whatever the limit is.
pub const SPARE_BYTES: u64 = 3_800_000;

// The number of the first node's line.
const FIRST_NODE: u64 = 3;

/// The greatest length of a file that is read where a tree has at most so many settled nodes as the
/// limit. No file of such a paving is longer, as `laws::text_lengths` says.
pub fn most_bytes(limit: NodeLimit) -> u64
    ensures { result ≡ length_limit limit }
{
    NODE_BYTES * limit.nodes() + SPARE_BYTES
}

/// The paving of a file with at most 100,000 settled nodes, as `read_within` gives it.
pub fn read(
    alloc: Global,
    bytes: &[u8],
    identity: [u8; 32],
    root: &IBox,
) -> Result<Paving, FileRefused>
    ensures root { IfOk result (λ p. p.root ≡ root.now) }
    ensures text { IfOk result (λ p. IsTextOf bytes.now identity root.now p.tree) }
    ensures numbers { IfOk result (λ p. IsPavingInFormat root.now p.tree) }
    ensures few { IfOk result (λ p. settled_count p.tree ≤ LEAST_LIMIT) }
    ensures complete { (t : Tree) → IsPavingInFormat root.now t → settled_count t ≤ LEAST_LIMIT
        → IsTextOf bytes.now identity root.now t
        → MatchResult result (λ p. p.tree ≡ t) (λ e. e ≡ FileRefused.Memory) }
    ensures wrong_identity { result ≡ Err FileRefused.WrongIdentity
        → HasOtherIdentity bytes.now identity root.now }
    ensures bad_line { (n : ℕ) → result ≡ Err (FileRefused.BadLine n)
        → IsFirstBadLine LEAST_LIMIT n bytes.now identity root.now }
    ensures too_many { (n : ℕ) → result ≡ Err (FileRefused.TooManyNodes n)
        → IsOneTooMany LEAST_LIMIT n bytes.now identity root.now }
{
    read_within(alloc, bytes, identity, root, NodeLimit::by_default())
}

/// The paving of a file, of either version, over a root box. A refusal but want of memory is the
/// first fault of the bytes, which are then no file of a paving over that box for that identity
/// with at most so many settled nodes as the limit.
pub fn read_within(
    alloc: Global,
    bytes: &[u8],
    identity: [u8; 32],
    root: &IBox,
    limit: NodeLimit,
) -> Result<Paving, FileRefused>
    ensures root { IfOk result (λ p. p.root ≡ root.now) }
    ensures text { IfOk result (λ p. IsTextOf bytes.now identity root.now p.tree) }
    ensures numbers { IfOk result (λ p. IsPavingInFormat root.now p.tree) }
    ensures few { IfOk result (λ p. settled_count p.tree ≤ limit) }
    ensures complete { (t : Tree) → IsPavingInFormat root.now t → settled_count t ≤ limit
        → IsTextOf bytes.now identity root.now t
        → MatchResult result (λ p. p.tree ≡ t) (λ e. e ≡ FileRefused.Memory) }
    ensures wrong_identity { result ≡ Err FileRefused.WrongIdentity
        → HasOtherIdentity bytes.now identity root.now }
    ensures bad_line { (n : ℕ) → result ≡ Err (FileRefused.BadLine n)
        → IsFirstBadLine limit n bytes.now identity root.now }
    ensures too_many { (n : ℕ) → result ≡ Err (FileRefused.TooManyNodes n)
        → IsOneTooMany limit n bytes.now identity root.now }
{
    let _places = root.dims();
    learn_digest(&identity);
    match read_header(bytes, &identity) {
        Ok(header) => read_nodes(alloc, header.version, header.rest, root, limit),
        Err(refusal) => Err(refusal),
    }
}

// What the first two lines say, and what follows them.
#[derive(Clone, Copy)]
struct Header<'a> {
    version: Version,
    rest: &'a [u8],
}

fn read_header<'a>(bytes: &'a [u8], identity: &[u8; 32]) -> Result<Header<'a>, FileRefused>
    ensures text { IfOk result (λ h. bytes.now ≡ header_text h.version identity.now ++ h.rest.now) }
    ensures other { result ≡ Err FileRefused.WrongIdentity → HasOtherHeader bytes.now identity.now }
    ensures bad { (n : ℕ) → result ≡ Err (FileRefused.BadLine n) → IsBadHeader n bytes.now }
    ensures not_many { (n : ℕ) → result ≢ Err (FileRefused.TooManyNodes n) }
    ensures not_memory { result ≢ Err FileRefused.Memory }
{
    match cut_version(bytes) {
        Some(first) => read_second(first, identity),
        None => Err(FileRefused::BadLine { line: 1 }),
    }
}

// The second line, after the first one.
fn read_second<'a>(first: Header<'a>, identity: &[u8; 32]) -> Result<Header<'a>, FileRefused>
    ensures text { IfOk result
        (λ h. first.entry.rest.now ≡ identity_text identity.now ++ 10 ∷ h.rest.now) }
    ensures version { IfOk result (λ h. h.version ≡ first.entry.version) }
    ensures other { result ≡ Err FileRefused.WrongIdentity
        → HasOtherSecond first.entry.rest.now identity.now }
    ensures bad { (n : ℕ) → result ≡ Err (FileRefused.BadLine n)
        → (n ≡ 2) × HasNoIdentity first.entry.rest.now }
    ensures not_many { (n : ℕ) → result ≢ Err (FileRefused.TooManyNodes n) }
    ensures not_memory { result ≢ Err FileRefused.Memory }
{
    match cut_line(first.rest) {
        Some(second) => match read_identity(second.line, identity) {
            IdentityLine::Same => Ok(Header {
                version: first.version,
                rest: second.rest,
            }),
            IdentityLine::Other => Err(FileRefused::WrongIdentity),
            IdentityLine::Bad => Err(FileRefused::BadLine { line: 2 }),
        },
        None => Err(FileRefused::BadLine { line: 2 }),
    }
}

fn cut_version(bytes: &[u8]) -> Option<Header<'_>>
    ensures sound { IfSome result (λ h. bytes.now ≡ version_text h.version ++ 10 ∷ h.rest.now) }
    ensures complete { result ≡ None → (v : Version) (rest : List ℕ)
        → bytes.now ≡ version_text v ++ 10 ∷ rest → ⊥ }
{
    let first = cut_line(bytes)?;
    match read_version(first.line) {
        Some(version) => Some(Header {
            version,
            rest: first.rest,
        }),
        None => None,
    }
}

// A line without its line feed, and what follows it.
#[derive(Clone, Copy)]
struct LineCut<'a> {
    line: &'a [u8],
    rest: &'a [u8],
}

// The first line. None where no line feed is there.
fn cut_line(bytes: &[u8]) -> Option<LineCut<'_>>
    ensures sound { IfSome result (λ r. bytes.now ≡ r.line.now ++ 10 ∷ r.rest.now) }
    ensures free { IfSome result (λ r. IsFree 10 r.line.now) }
    ensures none { result ≡ None → IsFree 10 bytes.now }
{
    let (line, rest) = bytes.split_at(line_end(bytes));
    let (_, rest) = rest.split_first()?;
    Some(LineCut { line, rest })
}

/// What a line says of a node.
#[derive(Drop)]
pub(crate) enum NodeLine {
    /// It is open.
    Open,
    /// It is settled.
    Settled { outcome: Outcome },
    /// Nothing that is right there.
    Bad,
}

fn read_node(
    alloc: Global,
    version: Version,
    line: &[u8],
    path: Path,
    bx: &IBox,
) -> Result<NodeLine, Memory>
    ensures sound { IfOk result (λ n. SaysNode version path bx.now line.now n) }
    ensures complete { (q : Option Outcome) → IsRightNode path bx.now q
        → line.now ≡ node_line_with (kept_text version bx.now) q
        → IfOk result (λ n. n ≡ node_of q) }
{
    if is_open_line(line) {
        return Ok(NodeLine::Open);
    }
    match read_line(alloc, version, line, bx)? {
        Some(outcome) => Ok(node_at(path, outcome)),
        None => Ok(NodeLine::Bad),
    }
}

fn is_open_line(line: &[u8]) -> bool
    ensures { IsTrue result ↔ (line.now ≡ codes "O") }
{
    line == b"O".as_slice()
}

// An outcome where it may stand: no cut is at the end of a longest path.
fn node_at(path: Path, outcome: Outcome) -> NodeLine
    ensures { StandsAt path outcome result }
{
    if may_stand(path, &outcome) {
        NodeLine::Settled { outcome }
    } else {
        NodeLine::Bad
    }
}

fn may_stand(path: Path, outcome: &Outcome) -> bool
    ensures { IsTrue result ↔ HasDepth path outcome.now }
{
    match outcome {
        Outcome::Cut { .. } => path.len() < MOST_STEPS,
        Outcome::Removed | Outcome::Inner { .. } | Outcome::Small { .. } => true,
    }
}

// What follows the line of a node, and how many nodes are settled then.
#[derive(Clone, Copy)]
struct Taken<'a> {
    rest: &'a [u8],
    settled: u64,
}

// Reads the line of the node that comes next.
fn take_node<'a>(
    alloc: Global,
    version: Version,
    bx: &IBox,
    rest: &'a [u8],
    at: Place,
    growth: &mut Growth,
) -> Result<Taken<'a>, FileRefused>
    requires next { IsNext growth.old at.path }
    requires bx { IsFirstBox growth.old.holes bx.now }
    requires settled { at.settled ≤ at.limit }
    ensures step { IfOk result
        (λ t. IsStep version growth.old growth.new rest.now t.rest.now at.settled t.settled) }
    ensures few { IfOk result (λ t. t.settled ≤ at.limit) }
    ensures bad { (n : ℕ) → result ≡ Err (FileRefused.BadLine n)
        → (n ≡ at.line) × IsStuck version growth.old rest.now }
    ensures full { (n : ℕ) → result ≡ Err (FileRefused.TooManyNodes n)
        → (n ≡ at.line) × IsFull at.limit version growth.old rest.now at.settled }
    ensures not_other { result ≢ Err FileRefused.WrongIdentity }
{
    match cut_line(rest) {
        Some(cut) => {
            let node = read_node(alloc, version, cut.line, at.path, bx)?;
            match put_node(growth, node, at) {
                Ok(settled) => Ok(Taken {
                    rest: cut.rest,
                    settled,
                }),
                Err(refusal) => Err(refusal),
            }
        }
        None => Err(FileRefused::BadLine { line: at.line }),
    }
}

// Where a reading stands: at the line of a node, with the number of settled ones before it, of
// which there may be so many as the limit.
#[derive(Clone, Copy)]
struct Place {
    path: Path,
    line: u64,
    settled: u64,
    limit: NodeLimit,
}

// Puts a node at the leaf that comes next, and counts the settled nodes.
fn put_node(growth: &mut Growth, node: NodeLine, at: Place) -> Result<u64, FileRefused>
    requires takes { TakesNode growth.old.holes node }
    requires few { at.settled ≤ at.limit }
    ensures put { IfOk result (λ total. IsPut growth.old growth.new at.settled total node) }
    ensures few { IfOk result (λ total. total ≤ at.limit) }
    ensures bad { (n : ℕ) → result ≡ Err (FileRefused.BadLine n)
        → (n ≡ at.line) × (node ≡ NodeLine.Bad) }
    ensures many { (n : ℕ) → result ≡ Err (FileRefused.TooManyNodes n)
        → IsMany at.limit node n at.line at.settled }
    ensures not_other { result ≢ Err FileRefused.WrongIdentity }
{
    match node {
        NodeLine::Open => {
            growth.pass();
            Ok(at.settled)
        }
        NodeLine::Settled { outcome } => {
            if at.settled == at.limit.nodes() {
                return Err(FileRefused::TooManyNodes { line: at.line });
            }
            growth.settle(outcome)?;
            Ok(at.settled + 1)
        }
        NodeLine::Bad => Err(FileRefused::BadLine { line: at.line }),
    }
}

// The paving of the lines of nodes.
fn read_nodes(
    alloc: Global,
    version: Version,
    body: &[u8],
    root: &IBox,
    limit: NodeLimit,
) -> Result<Paving, FileRefused>
    ensures root { IfOk result (λ p. p.root ≡ root.now) }
    ensures text { IfOk result (λ p. body.now ≡ lines_of version root.now p.tree) }
    ensures numbers { IfOk result (λ p. IsPavingInFormat root.now p.tree) }
    ensures few { IfOk result (λ p. settled_count p.tree ≤ limit) }
    ensures complete { (t : Tree) → IsPavingInFormat root.now t → settled_count t ≤ limit
        → body.now ≡ lines_of version root.now t
        → MatchResult result (λ p. p.tree ≡ t) (λ e. e ≡ FileRefused.Memory) }
    ensures not_other { result ≢ Err FileRefused.WrongIdentity }
    ensures bad { (n : ℕ) → result ≡ Err (FileRefused.BadLine n)
        → IsBadBody limit version root.now body.now n }
    ensures many { (n : ℕ) → result ≡ Err (FileRefused.TooManyNodes n)
        → IsManyBody limit version root.now body.now n }
{
    let _places = root.dims();
    let mut growth = Growth::open(alloc, root.clone_of(alloc)?)?;
    let mut bx = root.clone_of(alloc)?;
    let (mut rest, mut line, mut settled) = (body, FIRST_NODE, 0);
    while let Some(path) = growth.next_leaf() {
        growth.write_box(&mut bx);
        let at = Place {
            path,
            line,
            settled,
            limit,
        };
        match take_node(alloc, version, &bx, rest, at, &mut growth) {
            Ok(taken) => {
                rest = taken.rest;
                settled = taken.settled;
            }
            Err(refusal) => return Err(refusal),
        }
        line += 1;
    }
    if rest.is_empty() {
        Ok(growth.finish())
    } else {
        Err(FileRefused::BadLine { line })
    }
}
