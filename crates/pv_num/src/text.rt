//! The spelling of numbers: `m:e` in decimal with canonical parts, `-oo` and `+oo`.
ghost use Rattle.std.specs.Prelude.{◌≡◌, ◌↔◌, ◌==◌, position, IsTrue, ◌+◌, ◌++◌, ◌∷◌, ℕ, List, length, drop, IfSome, ◌^◌, ◌<◌, ℤ, unsigned_abs, OnOk, OnErr, take, vec_len, is_ok, if◌then◌else◌};
ghost use Rattle.pv_num.specs.Parts.{number_text, parts_text, IsNumber};
ghost use Rattle.pv_num.specs.Extended.{Extended};
ghost use Rattle.std.specs.Fmt.{signed_decimal};

use crate::convert::Parts;
use crate::memory::Memory;
use crate::num::Num;
use itoa::Buffer;

impl Num {
    /// Appends the spelling. After a refusal the text is as before.
    pub fn write_text(self, out: &mut Vec<u8>) -> Result<(), Memory>
        ensures written { out.new.items ≡
            (if is_ok result then out.old.items ++ number_text self else out.old.items) }
    {
        let before = out.len();
        match append(self.parts(), out) {
            Ok(()) => Ok(()),
            Err(refusal) => {
                out.truncate(before);
                Err(refusal)
            }
        }
    }

    /// The number of a spelling. None exactly where the bytes are not the spelling of a number.
    pub fn read_text(bytes: &[u8]) -> Option<Num>
        ensures sound { IfSome result (λ x. bytes.now ≡ number_text x) }
        ensures complete { (x : Extended) → IsNumber x → bytes.now ≡ number_text x → result ≡
            Some x }
    {
        if same_bytes(bytes, b"-oo") {
            return Some(Num::NEG_INF);
        }
        if same_bytes(bytes, b"+oo") {
            return Some(Num::POS_INF);
        }
        let (m, e) = read_parts(bytes)?;
        let number = Num::fin(m, e)?;
        if are_parts(number.parts(), m, e) {
            Some(number)
        } else {
            None
        }
    }
}

// Where it fails, the text has grown or is as it was.
fn append(parts: Parts, out: &mut Vec<u8>) -> Result<(), Memory>
    ensures written { OnOk result (out.new.items ≡ out.old.items ++ parts_text parts) }
    ensures grown { OnErr result (take (vec_len out.old) out.new.items ≡ out.old.items) }
{
    match parts {
        Parts::NegInf => out.extend_from_slice(b"-oo")?,
        Parts::PosInf => out.extend_from_slice(b"+oo")?,
        Parts::Fin { m, e } => {
            let mut digits = Buffer::new();
            out.extend_from_slice(digits.format(m).as_bytes())?;
            out.extend_from_slice(b":")?;
            out.extend_from_slice(digits.format(e).as_bytes())?;
        }
    }
    Ok(())
}

fn are_parts(parts: Parts, m: i64, e: i16) -> bool
    ensures { IsTrue result ↔ (parts ≡ Parts.Fin m e) }
{
    parts == Parts::Fin { m, e }
}

// Two whole numbers with a colon between.
fn read_parts(bytes: &[u8]) -> Option<(i64, i16)>
    ensures sound { IfSome result (λ p. bytes.now ≡ signed_decimal p.0 ++ 58 ∷ signed_decimal p.1) }
    ensures complete { (m e : ℤ) → unsigned_abs m < 2 ^ 63 → unsigned_abs e < 2 ^ 15 → bytes.now ≡
        signed_decimal m ++ 58 ∷ signed_decimal e → result ≡ Some (m, e) }
{
    let colon = colon_of(bytes)?;
    let m = read_whole(&bytes[..colon])?;
    let e = read_whole(&bytes[colon + 1..])?;
    let e = small(e)?;
    Some((m, e))
}

fn small(e: i64) -> Option<i16>
    ensures sound { IfSome result (λ s. s ≡ e) }
    ensures complete { unsigned_abs e < 2 ^ 15 → result ≡ Some e }
{
    if e < -32_767 {
        return None;
    }
    if e > 32_767 {
        return None;
    }
    Some(e as i16)
}

// Where the first colon is.
fn colon_of(bytes: &[u8]) -> Option<usize>
    ensures found { IfSome result (λ i. i < length bytes.now) }
    ensures split { IfSome result (λ i. bytes.now ≡
        take i bytes.now ++ 58 ∷ drop (i + 1) bytes.now) }
    ensures first { result ≡ position (λ b. b == 58) bytes.now }
{
    bytes.iter().position(|b| *b == b':')
}

// A whole number in the one spelling that is written.
fn read_whole(bytes: &[u8]) -> Option<i64>
    ensures sound { IfSome result (λ z. bytes.now ≡ signed_decimal z) }
    ensures complete { (z : ℤ) → unsigned_abs z < 2 ^ 63 → bytes.now ≡ signed_decimal z → result ≡
        Some z }
{
    let number = parsed(bytes)?;
    let mut digits = Buffer::new();
    if same_bytes(digits.format(number).as_bytes(), bytes) {
        Some(number)
    } else {
        None
    }
}

fn same_bytes(a: &[u8], b: &[u8]) -> bool
    ensures { IsTrue result ↔ (a.now ≡ b.now) }
{
    a == b
}

fn parsed(bytes: &[u8]) -> Option<i64>
    ensures { (z : ℤ) → unsigned_abs z < 2 ^ 63 → bytes.now ≡ signed_decimal z → result ≡ Some z }
{
    match std::str::from_utf8(bytes) {
        Ok(text) => text.parse::<i64>().ok(),
        Err(_) => None,
    }
}
