//! Lines of nodes, read.
ghost use Rattle.std.specs.Prelude.{◌≡◌, ◌↔◌, ◌==◌, ◌+◌, ◌<◌, ◌≤◌, ◌++◌, ◌∷◌, ℕ, IfOk, IfSome, MatchOption, Some, None, IsTrue, List, length, drop, codes, decimal};
ghost use Rattle.pv_num.specs.Extended.{Extended};
ghost use Rattle.pv_num.specs.Parts.{IsNumber, number_text};
ghost use Rattle.pv_interval.specs.Bounds.{Bounds};
ghost use Rattle.pv_box.specs.Boxes.{IsBox};
ghost use Rattle.pv_tree.specs.Trees.{IsBetween, IsStrictlyInside};
ghost use Rattle.pv_file.specs.Lines.{pair_text, kept_text, line_with, outcome_line, cut_text, change_text};
ghost use Rattle.pv_file.specs.Readings.{IsRightFor};
ghost use Rattle.pv_file.specs.Words.{IsPlain, EndsAWord, end_text, part_text, IsPartOf, IsKeptOf, PutsEnds};
ghost use Rattle.pv_box.specs.declared.boxes.TheConstants.{MOST_PLACES};

use crate::cut::end_at;
use crate::version::Version;
use itoa::Buffer;
use pv_box::IBox;
use pv_interval::Interval;
use pv_num::laws::is_number;
use pv_num::{Memory, Num};
use pv_tree::Outcome;
use std::alloc::Global;

/// The outcome of a version 1 line without its line feed. None exactly where the bytes are no such
/// line of an outcome that is right for the box.
pub fn read_outcome(alloc: Global, line: &[u8], bx: &IBox) -> Result<Option<Outcome>, Memory>
    ensures sound { IfOk result (λ r. IfSome r (λ o. line.now ≡ outcome_line o)) }
    ensures right { IfOk result (λ r. IfSome r (λ o. IsRightFor bx.now o)) }
    ensures complete { (o : Outcome) → IsRightFor bx.now o → line.now ≡ outcome_line o
        → IfOk result (λ r. r ≡ Some o) }
{
    read_line(alloc, Version::One, line, bx)
}

/// The outcome of a line without its line feed. None exactly where the bytes are no line of an
/// outcome that is right for the box.
pub(crate) fn read_line(
    alloc: Global,
    version: Version,
    line: &[u8],
    bx: &IBox,
) -> Result<Option<Outcome>, Memory>
    ensures sound { IfOk result
        (λ r. IfSome r (λ o. line.now ≡ line_with (kept_text version bx.now) o)) }
    ensures right { IfOk result (λ r. IfSome r (λ o. IsRightFor bx.now o)) }
    ensures complete { (o : Outcome) → IsRightFor bx.now o
        → line.now ≡ line_with (kept_text version bx.now) o → IfOk result (λ r. r ≡ Some o) }
{
    let Some((letter, rest)) = line.split_first() else {
        return Ok(None);
    };
    match *letter {
        b'X' if rest.is_empty() => Ok(Some(Outcome::Removed)),
        b'I' => match read_kept(alloc, version, rest, bx)? {
            Some(to) => Ok(Some(Outcome::Inner { to })),
            None => Ok(None),
        },
        b'S' => match read_kept(alloc, version, rest, bx)? {
            Some(to) => Ok(Some(Outcome::Small { to })),
            None => Ok(None),
        },
        b'C' => read_cut(alloc, version, rest, bx),
        _ => Ok(None),
    }
}

// The box of the ends that follow, within the given one.
fn read_kept(
    alloc: Global,
    version: Version,
    rest: &[u8],
    bx: &IBox,
) -> Result<Option<IBox>, Memory>
    ensures sound { IfOk result (λ r. IfSome r (λ to. rest.now ≡ kept_text version bx.now to)) }
    ensures kept { IfOk result (λ r. IfSome r (λ to. IsKeptOf bx.now to)) }
    ensures is_box { IfOk result (λ r. IfSome r (λ to. IsBox to)) }
    ensures complete { (to : List Bounds) → IsKeptOf bx.now to
        → rest.now ≡ kept_text version bx.now to → IfOk result (λ r. r ≡ Some to) }
{
    let mut parts = Vec::with_capacity(alloc, bx.dims() as usize)?;
    if read_ends(version, bx, 0, rest, &mut parts)? {
        Ok(Some(IBox::new(parts)))
    } else {
        Ok(None)
    }
}

// Puts the intervals that the text writes for the places from the i-th on after those that are
// there.
fn read_ends(
    version: Version,
    bx: &IBox,
    i: u8,
    rest: &[u8],
    parts: &mut Vec<Interval>,
) -> Result<bool, Memory>
    requires { i ≤ length bx.now }
    ensures sound { IfOk result
        (λ good. IsTrue good
        → PutsEnds version (drop i bx.now) rest.now parts.old.items parts.new.items) }
    ensures complete { (to : List Bounds) → IsKeptOf (drop i bx.now) to
        → rest.now ≡ kept_text version (drop i bx.now) to
        → IfOk result (λ good. IsTrue good × (parts.new.items ≡ parts.old.items ++ to)) }
{
    if i == bx.dims() {
        return Ok(rest.is_empty());
    }
    match read_part(version, bx.get(i), rest) {
        Some(first) => {
            parts.push(first.part)?;
            read_ends(version, bx, i + 1, first.rest, parts)
        }
        None => Ok(false),
    }
}

// An interval, and what follows on the line.
#[derive(Clone, Copy)]
struct PartRead<'a> {
    part: Interval,
    rest: &'a [u8],
}

// The interval whose ends come first, within the given one.
fn read_part(version: Version, old: Interval, bytes: &[u8]) -> Option<PartRead<'_>>
    ensures sound { IfSome result (λ r. bytes.now ≡ part_text version old r.part ++ r.rest.now) }
    ensures part { IfSome result (λ r. IsPartOf old r.part) }
    ensures ends { IfSome result (λ r. EndsAWord r.rest.now) }
    ensures complete { (x : Bounds) (more : List ℕ) → IsPartOf old x → EndsAWord more
        → bytes.now ≡ part_text version old x ++ more
        → MatchOption result ⊥ (λ r. (r.part ≡ x) × (r.rest.now ≡ more)) }
{
    match version {
        Version::One => read_moved(version, old, bytes),
        Version::Two => match read_kept_part(old, bytes) {
            Some(kept) => Some(kept),
            None => read_moved(version, old, bytes),
        },
    }
}

// The given interval, where neither end moved. Most places of most nodes are so, so this comes
// first.
fn read_kept_part(old: Interval, bytes: &[u8]) -> Option<PartRead<'_>>
    ensures sound { IfSome result
        (λ r. bytes.now ≡ part_text Version.Two old r.part ++ r.rest.now) }
    ensures part { IfSome result (λ r. IsPartOf old r.part) }
    ensures ends { IfSome result (λ r. EndsAWord r.rest.now) }
    ensures only { (x : Bounds) (more : List ℕ) → IsPartOf old x → EndsAWord more
        → bytes.now ≡ part_text Version.Two old x ++ more
        → IfSome result (λ r. (r.part ≡ x) × (r.rest.now ≡ more)) }
{
    let rest = behind_marks(bytes)?;
    is_number(old.lo());
    is_number(old.hi());
    Some(PartRead { part: old, rest })
}

// What follows two marks, each after a space.
fn behind_marks(bytes: &[u8]) -> Option<&[u8]>
    ensures sound { IfSome result (λ r. bytes.now ≡ pair_text (codes "=") (codes "=") ++ r.now) }
    ensures ends { IfSome result (λ r. EndsAWord r.now) }
{
    match bytes {
        [b' ', b'=', b' ', b'='] => Some(&[]),
        [b' ', b'=', b' ', b'=', b' ', ..] => Some(&bytes[4..]),
        _ => None,
    }
}

// The interval whose ends are the first two words, within the given one.
fn read_moved(version: Version, old: Interval, bytes: &[u8]) -> Option<PartRead<'_>>
    ensures sound { IfSome result (λ r. bytes.now ≡ part_text version old r.part ++ r.rest.now) }
    ensures part { IfSome result (λ r. IsPartOf old r.part) }
    ensures ends { IfSome result (λ r. EndsAWord r.rest.now) }
    ensures complete { (x : Bounds) (more : List ℕ) → IsPartOf old x → EndsAWord more
        → bytes.now ≡ part_text version old x ++ more
        → MatchOption result ⊥ (λ r. (r.part ≡ x) × (r.rest.now ≡ more)) }
{
    let words = cut_words(bytes)?;
    let part = read_interval(version, old, words.first, words.second)?;
    Some(PartRead {
        part,
        rest: words.rest,
    })
}

// The interval of two words, within the given one.
fn read_interval(version: Version, old: Interval, lower: &[u8], upper: &[u8]) -> Option<Interval>
    ensures lower { IfSome result (λ x. lower.now ≡ end_text version old.lo x.lo) }
    ensures upper { IfSome result (λ x. upper.now ≡ end_text version old.hi x.hi) }
    ensures part { IfSome result (λ x. IsPartOf old x) }
    ensures complete { (x : Bounds) → IsPartOf old x → lower.now ≡ end_text version old.lo x.lo
        → upper.now ≡ end_text version old.hi x.hi → result ≡ Some x }
{
    let lo = read_end(version, old.lo(), lower)?;
    let hi = read_end(version, old.hi(), upper)?;
    if old.lo() <= lo && hi <= old.hi() {
        let part = Interval::new(lo, hi)?;
        let _lo = part.lo();
        Some(part)
    } else {
        None
    }
}

// An end that a word writes, given the old end at that place.
fn read_end(version: Version, old: Num, word: &[u8]) -> Option<Num>
    ensures sound { IfSome result (λ n. word.now ≡ end_text version old n) }
    ensures number { IfSome result (λ n. IsNumber n) }
    ensures complete { (n : Extended) → IsNumber n → word.now ≡ end_text version old n
        → result ≡ Some n }
{
    match version {
        Version::One => read_number(word),
        Version::Two => read_change(old, word),
    }
}

fn read_number(word: &[u8]) -> Option<Num>
    ensures sound { IfSome result (λ n. word.now ≡ number_text n) }
    ensures number { IfSome result (λ n. IsNumber n) }
    ensures complete { (n : Extended) → IsNumber n → word.now ≡ number_text n → result ≡ Some n }
{
    let n = Num::read_text(word)?;
    is_number(n);
    Some(n)
}

// An end that is `=` exactly where it is the old one.
fn read_change(old: Num, word: &[u8]) -> Option<Num>
    ensures sound { IfSome result (λ n. word.now ≡ change_text old n) }
    ensures number { IfSome result (λ n. IsNumber n) }
    ensures complete { (n : Extended) → IsNumber n → word.now ≡ change_text old n
        → result ≡ Some n }
{
    if is_same_mark(word) {
        is_number(old);
        return Some(old);
    }
    let n = read_number(word)?;
    if n == old { None } else { Some(n) }
}

fn is_same_mark(word: &[u8]) -> bool
    ensures { IsTrue result ↔ (word.now ≡ codes "=") }
{
    word == b"=".as_slice()
}

// The place and the number of a cut that follow, and then the ends.
fn read_cut(
    alloc: Global,
    version: Version,
    rest: &[u8],
    bx: &IBox,
) -> Result<Option<Outcome>, Memory>
    ensures sound { IfOk result
        (λ r. IfSome r (λ o. 67 ∷ rest.now ≡ line_with (kept_text version bx.now) o)) }
    ensures right { IfOk result (λ r. IfSome r (λ o. IsRightFor bx.now o)) }
    ensures complete { (to : List Bounds) (var : ℕ) (at : Extended)
        → IsRightFor bx.now (Outcome.Cut to var at)
        → 67 ∷ rest.now ≡ line_with (kept_text version bx.now) (Outcome.Cut to var at)
        → IfOk result (λ r. r ≡ Some (Outcome.Cut to var at)) }
{
    match read_cut_place(rest) {
        Some(cut) => match read_kept(alloc, version, cut.rest, bx)? {
            Some(to) => Ok(cut_there(to, cut.var, cut.at)),
            None => Ok(None),
        },
        None => Ok(None),
    }
}

// The cut of a box at a number that is strictly inside a place of it.
fn cut_there(to: IBox, var: u8, at: Num) -> Option<Outcome>
    ensures is_cut { IfSome result (λ o. o ≡ Outcome.Cut to var at) }
    ensures inside { IfSome result (λ _. IsStrictlyInside at var to) }
    ensures none { result ≡ None → IsStrictlyInside at var to → ⊥ }
{
    if is_cut_by(&to, var, at) {
        Some(Outcome::Cut { to, var, at })
    } else {
        None
    }
}

// Where a line cuts, and what follows on it.
#[derive(Clone, Copy)]
struct CutPlace<'a> {
    var: u8,
    at: Num,
    rest: &'a [u8],
}

// Whether a number is strictly inside a place of a box.
fn is_cut_by(to: &IBox, var: u8, at: Num) -> bool
    ensures { IsTrue result ↔ IsStrictlyInside at var to.now }
{
    var < to.dims() && is_between(at, to.get(var))
}

fn is_between(at: Num, part: Interval) -> bool
    ensures { IsTrue result ↔ IsBetween at part }
{
    part.lo() < at && at < part.hi()
}

fn read_cut_place(bytes: &[u8]) -> Option<CutPlace<'_>>
    ensures sound { IfSome result (λ c. 67 ∷ bytes.now ≡ cut_text c.var c.at ++ c.rest.now) }
    ensures number { IfSome result (λ c. IsNumber c.at) }
    ensures complete { (var : ℕ) (at : Extended) (more : List ℕ) → var < MOST_PLACES → IsNumber at
        → EndsAWord more → 67 ∷ bytes.now ≡ cut_text var at ++ more
        → MatchOption result ⊥ (λ c. (c.var ≡ var) × (c.at ≡ at) × (c.rest.now ≡ more)) }
{
    let words = cut_words(bytes)?;
    let var = read_var(words.first)?;
    let at = read_number(words.second)?;
    Some(CutPlace {
        var,
        at,
        rest: words.rest,
    })
}

// The number of a place in decimal.
fn read_var(word: &[u8]) -> Option<u8>
    ensures sound { IfSome result (λ v. word.now ≡ decimal v) }
    ensures complete { (v : ℕ) → v < MOST_PLACES → word.now ≡ decimal v → result ≡ Some v }
{
    let guess = likely_var(word);
    if is_decimal(word, guess) {
        return Some(guess);
    }
    for var in 0..12 {
        if is_decimal(word, var) {
            return Some(var);
        }
    }
    None
}

// The number of one digit, without a proof that it's right.
fn likely_var(word: &[u8]) -> u8 {
    match word {
        [digit] => digit.wrapping_sub(b'0'),
        _ => 0,
    }
}

fn is_decimal(word: &[u8], n: u8) -> bool
    ensures { IsTrue result ↔ (word.now ≡ decimal n) }
{
    let mut digits = Buffer::new();
    word == digits.format(n).as_bytes()
}

// Two words, and what follows on the line.
#[derive(Clone, Copy)]
struct WordPair<'a> {
    first: &'a [u8],
    second: &'a [u8],
    rest: &'a [u8],
}

// The two words that come first, each after a space.
fn cut_words(bytes: &[u8]) -> Option<WordPair<'_>>
    ensures sound { IfSome result
        (λ r. bytes.now ≡ pair_text r.first.now r.second.now ++ r.rest.now) }
    ensures ends { IfSome result (λ r. EndsAWord r.rest.now) }
    ensures complete { (first second more : List ℕ) → IsPlain first → IsPlain second
        → EndsAWord more → bytes.now ≡ pair_text first second ++ more
        → MatchOption result ⊥
        (λ r. (r.first.now ≡ first) × (r.second.now ≡ second) × (r.rest.now ≡ more)) }
{
    let one = cut_word(bytes)?;
    let two = cut_word(one.rest)?;
    Some(WordPair {
        first: one.word,
        second: two.word,
        rest: two.rest,
    })
}

// A word, and what follows on the line.
#[derive(Clone, Copy)]
struct WordCut<'a> {
    word: &'a [u8],
    rest: &'a [u8],
}

// The word after the space that comes first.
fn cut_word(bytes: &[u8]) -> Option<WordCut<'_>>
    ensures sound { IfSome result (λ r. bytes.now ≡ 32 ∷ (r.word.now ++ r.rest.now)) }
    ensures ends { IfSome result (λ r. EndsAWord r.rest.now) }
    ensures complete { (word more : List ℕ) → IsPlain word → EndsAWord more
        → bytes.now ≡ 32 ∷ (word ++ more)
        → MatchOption result ⊥ (λ r. (r.word.now ≡ word) × (r.rest.now ≡ more)) }
{
    let (first, text) = bytes.split_first()?;
    if *first != b' ' {
        return None;
    }
    let (word, rest) = text.split_at(end_at(text, b' '));
    Some(WordCut { word, rest })
}
