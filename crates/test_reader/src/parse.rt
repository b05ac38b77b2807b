// What no clause says yet: a table of texts, and texts at the limits. The table of faults is run on
// the real program, by tests/runners/reader_table.py: with it among these tests the prover does not
// finish.

mod systems;

use pv_expr::Expr;
use pv_grammar::Cause;
use pv_parse::{ParseRefused, parse, parse_expr, read_number};
use std::alloc::{AllocError, Global};
use std::test::Fail;
use systems::SYSTEMS;

const DISCS: &[u8] =
    b"/* two discs and a line */\nConstants\n  r = 2.1;\nVariables\n  x in [-4, 4], y in [-4, 4];\nConstraints\n  sqr(x - 0.5) + y^2 <= r^2;  // first disc\n  sqr(x + 0.5) + y^2 <= 4;\n  y >= 0.1 * x;\nend\n";

// So many copies of a part between two others.
fn around(
    alloc: Global,
    before: &[u8],
    part: &[u8],
    copies: u32,
    after: &[u8],
) -> Result<Vec<u8>, AllocError> {
    let mut text = Vec::from_slice(alloc, before)?;
    for _ in 0..copies {
        text.extend_from_slice(part)?;
    }
    text.extend_from_slice(after)?;
    Ok(text)
}

fn outcome(alloc: Global, text: &[u8]) -> Option<(u32, Cause)> {
    match parse(alloc, text) {
        Err(ParseRefused::Fault { byte, cause, .. }) => Some((byte, cause)),
        _ => None,
    }
}

#[test]
fn numbers(rt: HostRuntime) {
    assert_eq!(rt;
        read_number(b"1e36"),
        Some((1_000_000_000_000_000_000_000_000_000_000_000_000, 1))
    );
    assert_eq!(rt; read_number(b"1e37"), None);
    assert_eq!(rt; read_number(b"0.50"), Some((1, 2)));
}

#[test]
fn systems_have_their_canonical_text(rt: HostRuntime) -> Result<(), Fail> {
    for (i, (text, canonical)) in SYSTEMS.iter().enumerate() {
        let system = parse(rt.alloc(), text)?;
        assert_eq!(rt;
            system.canonical_text(rt.alloc())?.as_slice(),
            *canonical,
            "system {i}"
        );
    }
    Ok(())
}

#[test]
fn cut_texts_are_faults(rt: HostRuntime) {
    let whole = DISCS.len() - 1;
    for n in 0..whole {
        assert!(rt; outcome(rt.alloc(), &DISCS[..n]).is_some(), "cut at {n}");
    }
    assert!(rt; parse(rt.alloc(), &DISCS[..whole]).is_ok());
    assert!(rt; parse(rt.alloc(), DISCS).is_ok());
}

#[test]
fn levels(rt: HostRuntime) -> Result<(), Fail> {
    let alloc = rt.alloc();
    let start: &[u8] = b"Variables x; Constraints ";
    let nested = around(alloc, start, b"(", 100, b"x")?;
    let closed = around(alloc, nested.as_slice(), b")", 100, b" < 1; end")?;
    assert!(rt; parse(alloc, closed.as_slice()).is_ok());
    let deeper = around(alloc, start, b"(", 101, b"x")?;
    assert_eq!(rt;
        outcome(alloc, deeper.as_slice()),
        Some((125, Cause::TooDeep))
    );
    let word = around(alloc, start, b"(", 100, b"abs(x)")?;
    assert_eq!(rt;
        outcome(alloc, word.as_slice()),
        Some((125, Cause::Unexpected))
    );
    Ok(())
}

#[test]
fn operations(rt: HostRuntime) -> Result<(), Fail> {
    let alloc = rt.alloc();
    let sum = around(
        alloc,
        b"Variables x; Constraints x",
        b"+x",
        1000,
        b" < 1; end",
    )?;
    assert!(rt; parse(alloc, sum.as_slice()).is_ok());
    let longer = around(
        alloc,
        b"Variables x; Constraints x",
        b"+x",
        1001,
        b" < 1; end",
    )?;
    assert_eq!(rt;
        outcome(alloc, longer.as_slice()),
        Some((2026, Cause::TooDeep))
    );
    Ok(())
}

#[test]
fn the_longest_text(rt: HostRuntime) -> Result<(), Fail> {
    let alloc = rt.alloc();
    let blanks = around(alloc, b"", b" ", 65537, b"")?;
    assert_eq!(rt;
        parse(alloc, blanks.as_slice()).err(),
        Some(ParseRefused::Fault {
            byte: 65536,
            line: 1,
            column: 65537,
            cause: Cause::TextTooLong,
        })
    );
    Ok(())
}

// Functions f1 to f15, each the sum of two calls of the one before.
fn doubling(alloc: Global, call: &[u8]) -> Result<Vec<u8>, AllocError> {
    let mut text = Vec::from_slice(alloc, b"function fa(a) return a+a; end ")?;
    for k in b'b'..=b'o' {
        text.extend_from_slice(b"function f")?;
        text.push(k)?;
        text.extend_from_slice(b"(a) return f")?;
        text.push(k - 1)?;
        text.extend_from_slice(b"(a)+f")?;
        text.push(k - 1)?;
        text.extend_from_slice(b"(a); end ")?;
    }
    text.extend_from_slice(b"Variables x; Constraints ")?;
    text.extend_from_slice(call)?;
    text.extend_from_slice(b"; end")?;
    Ok(text)
}

// The fault of a constraint that begins `back` bytes before the end.
fn too_large_before_end(text: &[u8], back: usize) -> Option<(u32, Cause)> {
    let byte = u32::try_from(text.len().checked_sub(back)?).ok()?;
    Some((byte, Cause::TooLarge))
}

#[test]
fn expanded_sizes(rt: HostRuntime) -> Result<(), Fail> {
    let alloc = rt.alloc();
    let fits = doubling(alloc, b"fo(x) <= 1")?;
    assert!(rt; parse(alloc, fits.as_slice()).is_ok());
    let large = doubling(alloc, b"fo(x) <= -1")?;
    assert_eq!(rt;
        outcome(alloc, large.as_slice()),
        too_large_before_end(large.as_slice(), 16)
    );
    let vast = doubling(alloc, b"x < 1; fo(fo(fo(fo(fo(x))))) <= 1")?;
    assert_eq!(rt;
        outcome(alloc, vast.as_slice()),
        too_large_before_end(vast.as_slice(), 31)
    );
    Ok(())
}

fn is_twice_and_one(e: &Expr) -> bool {
    match e {
        Expr::Add(left, right) => is_twice(left) && matches!(&**right, Expr::Const { p: 1, q: 1 }),
        _ => false,
    }
}

fn is_twice(e: &Expr) -> bool {
    match e {
        Expr::Mul(left, right) => matches!(&**left, Expr::Const { p: 2, q: 1 })
            && matches!(&**right, Expr::Var(0)),
        _ => false,
    }
}

#[test]
fn expressions(rt: HostRuntime) -> Result<(), Fail> {
    let system = parse(
        rt.alloc(),
        b"Constants k = 1; Variables x in [0,4]; Constraints x <= k; end",
    )?;
    let e = parse_expr(rt.alloc(), &system, b"2*x+1")?;
    assert!(rt; is_twice_and_one(&e));
    for (text, byte, cause) in [
        (b"2*".as_slice(), 2, Cause::EndOfText),
        (b"x k", 2, Cause::Unexpected),
        (b" k", 1, Cause::UnknownName),
        (b"x<1", 1, Cause::Unexpected),
        (b"x^33", 2, Cause::BadExponent),
    ] {
        let wanted = ParseRefused::Fault {
            byte,
            line: 1,
            column: byte + 1,
            cause,
        };
        assert_eq!(rt; parse_expr(rt.alloc(), &system, text).err(), Some(wanted));
    }
    Ok(())
}
