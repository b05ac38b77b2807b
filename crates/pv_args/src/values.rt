//! The values of options.
ghost use Rattle.std.specs.Prelude.{◌≡◌, ◌≢◌, ◌<◌, ◌==◌, ℕ, List, pos, true, IsTrue, MatchOption, MatchResult, IfSome, IfErr, IfOk, OnOk, length, slice_index, ◌∷◌, []};
ghost use Rattle.pv_num.specs.Extended.{Extended, Fin, PosInf};
ghost use Rattle.pv_num.specs.Order.{le};
ghost use Rattle.pv_request.specs.Requests.{IsDigits, IsCount, IsWidth, IsLevel, AreLevels, IsShare, words_between, words_by_slash, bisector_name, form_name, order_name};
ghost use Rattle.pv_slope.specs.declared.form.Form as declared;
ghost use Rattle.pv_scope.specs.declared.order.Order as declared_order;
ghost use Rattle.pv_scope.specs.declared.share.Share as declared_share;
ghost use Rattle.pv_args.specs.Found.{RefusesValues, EndsWithLevel};

use pv_box::Bisector;
use pv_num::{End, Num};
use pv_parse::read_number;
use pv_request::Refusal;
use pv_scope::{Order, Share};
use pv_slope::Form;
use std::alloc::Global;

/// The number of one to ten digits, where it is from `low` to `high`.
pub(crate) fn count_of(text: &str, low: u64, high: u64) -> Option<u64>
    ensures { MatchOption result ((n : ℕ) → IsCount low high text.now n → ⊥)
        (λ n. IsCount low high text.now n) }
{
    let n = number_of(text)?;
    if low <= n && n <= high { Some(n) } else { None }
}

// The number of one to ten digits.
#[tactic(auto, using(crate::proofs::Counts::plus_is_none, crate::proofs::Counts::read_digits, crate::proofs::Counts::no_digits))]
fn number_of(text: &str) -> Option<u64>
    ensures { MatchOption result ((n : ℕ) → IsDigits text.now n → ⊥) (λ n. IsDigits text.now n) }
{
    if text.len() > 10 {
        return None;
    }
    if begins_with(text.as_bytes(), b'+') {
        return None;
    }
    match text.parse::<u64>() {
        Ok(n) => Some(n),
        Err(_) => None,
    }
}

fn begins_with(bytes: &[u8], mark: u8) -> bool
    requires { 0 < mark }
    ensures { result ≡ (slice_index bytes.now 0 == mark) }
{
    !bytes.is_empty() && bytes[0] == mark
}

/// An unsigned number, rounded down.
pub(crate) fn width_of(text: &str) -> Option<Num>
    ensures width { MatchOption result ((n : Extended) → IsWidth text.now n → ⊥)
        (λ n. IsWidth text.now n) }
    ensures from { IfSome result (λ n. IsTrue (le (Fin (pos 0)) n)) }
    ensures finite { IfSome result (λ n. n ≢ PosInf) }
{
    let (p, q) = read_number(text.as_bytes())?;
    Some(Num::from_ratio(p, q, End::Down))
}

/// The numbers between commas. Each may have a minus before it, and is rounded down.
pub(crate) fn levels_of<'a>(alloc: Global, text: &str) -> Result<Vec<Num>, Refusal<'a>>
    ensures { MatchResult result (λ ns. AreLevels (words_between text.now) ns.items)
        (RefusesValues ((ns : List Extended) → AreLevels (words_between text.now) ns → ⊥)) }
{
    let mut numbers = Vec::new(alloc);
    let mut rest = text;
    while let Some((word, behind)) = first_word(rest) {
        if let Err(refusal) = push_level(&mut numbers, word) {
            return Err(refusal);
        }
        rest = behind;
    }
    match push_level(&mut numbers, rest) {
        Ok(()) => Ok(numbers),
        Err(refusal) => Err(refusal),
    }
}

// The word before the first comma, and what comes after that.
fn first_word(text: &str) -> Option<(&str, &str)>
    ensures { MatchOption result (words_between text.now ≡ text.now ∷ [])
        (λ r. (words_between text.now ≡ r.0.now ∷ words_between r.1.now)
        × (length r.1.now < length text.now)) }
{
    text.split_once(',')
}

fn push_level<'a>(numbers: &mut Vec<Num>, word: &str) -> Result<(), Refusal<'a>>
    ensures pushed { OnOk result
        (EndsWithLevel word.now numbers.old.items numbers.new.items) }
    ensures refused { IfErr result
        (RefusesValues ((n : Extended) → IsLevel word.now n → ⊥)) }
{
    match level_of(word) {
        Some(number) => {
            numbers.push(number)?;
            Ok(())
        }
        None => Err(Refusal::Usage),
    }
}

// A number that may have a minus before it, rounded down.
fn level_of(word: &str) -> Option<Num>
    ensures { MatchOption result ((n : Extended) → IsLevel word.now n → ⊥)
        (λ n. IsLevel word.now n) }
{
    if begins_with(word.as_bytes(), b'-') {
        below_zero(word.as_bytes())
    } else {
        width_of(word)
    }
}

// The number after a minus.
fn below_zero(word: &[u8]) -> Option<Num>
    requires { (slice_index word.now 0 == 45) ≡ true }
    ensures { MatchOption result ((n : Extended) → IsLevel word.now n → ⊥)
        (λ n. IsLevel word.now n) }
{
    let (_, digits) = word.split_first()?;
    let (p, q) = read_number(digits)?;
    Some(Num::from_ratio(-p, q, End::Down))
}

/// The bisector of a name.
pub(crate) fn bisector_of(text: &str) -> Option<Bisector>
    ensures { MatchOption result ((b : Bisector) → text.now ≡ bisector_name b → ⊥)
        (λ b. text.now ≡ bisector_name b) }
{
    match text {
        "largest" => Some(Bisector::Largest),
        "round" => Some(Bisector::Round),
        _ => None,
    }
}

/// The form of a name.
pub(crate) fn form_of(text: &str) -> Option<Form>
    ensures { MatchOption result ((f : declared.Form) → text.now ≡ form_name f → ⊥)
        (λ f. text.now ≡ form_name f) }
{
    match text {
        "plain" => Some(Form::Plain),
        "centered" => Some(Form::Centered),
        _ => None,
    }
}

/// The name of a form.
pub(crate) fn name_of_form(form: Form) -> &'static str
    ensures { result.now ≡ form_name form }
{
    match form {
        Form::Plain => "plain",
        Form::Centered => "centered",
    }
}

/// The order of a name.
pub(crate) fn order_of(text: &str) -> Option<Order>
    ensures { MatchOption result ((o : declared_order.Order) → text.now ≡ order_name o → ⊥)
        (λ o. text.now ≡ order_name o) }
{
    match text {
        "depth" => Some(Order::Depth),
        "level" => Some(Order::Level),
        _ => None,
    }
}

/// The share that two numbers with a slash between them give.
pub(crate) fn share_of(text: &str) -> Option<Share>
    ensures { MatchOption result ((s : declared_share.Share) → IsShare text.now s → ⊥)
        (λ s. IsShare text.now s) }
{
    let (number, of) = around_slash(text)?;
    let number = number_of(number)?;
    let of = number_of(of)?;
    Share::new(number, of)
}

// What stands before the only slash and behind it.
fn around_slash(text: &str) -> Option<(&str, &str)>
    ensures { MatchOption result
        ((a b : List ℕ) → words_by_slash text.now ≡ a ∷ b ∷ [] → ⊥)
        (λ r. words_by_slash text.now ≡ r.0.now ∷ r.1.now ∷ []) }
{
    let (number, of) = text.split_once('/')?;
    match of.split_once('/') {
        Some(_) => None,
        None => Some((number, of)),
    }
}
