//! Worked cases, whose values come from exact integers and fractions.
use pv_num::{End, Num, Parts};
use std::test::Fail;

mod vectors;

#[derive(Clone, Copy)]
pub(crate) enum Operation {
    Add,
    Mul,
    Div,
}

// A mantissa and an exponent; the exponent 999 stands for an infinite end.
pub(crate) type Spelled = (i64, i16);

fn spelled((m, e): Spelled) -> Option<Num> {
    if e == 999 {
        return Some(if m < 0 { Num::NEG_INF } else { Num::POS_INF });
    }
    Num::fin(m, e)
}

fn outcome(operation: Operation, a: Num, b: Num, side: End) -> Num {
    match operation {
        Operation::Add => a.add(b, side),
        Operation::Mul => a.mul(b, side),
        Operation::Div => {
            if b == Num::ZERO {
                return b;
            }
            a.div(b, side)
        }
    }
}

fn number(text: &str) -> Option<Num> {
    Num::read_text(text.as_bytes())
}

fn holds(case: &(Operation, Spelled, Spelled, End, Spelled)) -> Option<bool> {
    let a = spelled(case.1)?;
    let b = spelled(case.2)?;
    let want = spelled(case.4)?;
    Some(outcome(case.0, a, b, case.3) == want)
}

#[test]
fn arithmetic(rt: HostRuntime) {
    for (i, case) in vectors::CASES.iter().enumerate() {
        assert_eq!(rt; holds(case), Some(true), "case {i}");
    }
}

#[test]
fn conversions(rt: HostRuntime) -> Result<(), Fail> {
    for text in [
        "2:0",
        "+1:0",
        "01:0",
        "0:1",
        "",
        "1:0 ",
        "-0:0",
        "1",
        "1:512",
        "4611686018427387905:450",
    ] {
        assert!(rt; number(text).is_none(), "at {text}");
    }
    assert_eq!(rt; Num::fin(1, 511), number("1:511"));
    assert_eq!(rt; Num::fin(1, 512), None);
    assert_eq!(rt; Num::fin(1, -513), None);
    assert_eq!(rt; Num::fin(2, -513), number("1:-512"));
    assert_eq!(rt;
        Num::from_ratio(1, 10, End::Down),
        number("3689348814741910323:-65").unwrap_or(Num::ZERO)
    );
    assert_eq!(rt;
        Num::from_ratio(1, 10, End::Up),
        number("922337203685477581:-63").unwrap_or(Num::ZERO)
    );
    let mut text = Vec::new(rt.alloc());
    Num::MAX.neg().write_text(&mut text)?;
    assert_eq!(rt; text.as_slice(), b"-4611686018427387903:450".as_slice());
    assert_eq!(rt; Num::ONE.neg().parts(), Parts::Fin { m: -1, e: 0 });
    Ok(())
}

#[test]
fn roots_and_middles(rt: HostRuntime) -> Result<(), Fail> {
    let two = Num::fin(2, 0).ok_or("no number")?;
    let root = two.root(2, End::Down);
    let next = root.add(Num::fin(1, -61).ok_or("no number")?, End::Up);
    assert!(rt; Num::ZERO <= root && Num::ZERO <= next);
    assert!(rt; root.pow(2, End::Up) <= two);
    assert!(rt; two < next.pow(2, End::Up));
    let nine = Num::fin(9, 0).ok_or("no number")?;
    assert_eq!(rt; nine.root(2, End::Up), Num::fin(3, 0).ok_or("no number")?);
    assert_eq!(rt; Num::ONE.floor(9), 1);
    let least = Num::fin(1, -512).ok_or("no number")?;
    assert_eq!(rt; Num::middle(Num::ZERO, Num::ONE), Num::fin(1, -1));
    assert_eq!(rt; Num::middle(Num::ZERO, least), None);
    Ok(())
}
