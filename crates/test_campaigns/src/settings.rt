//! The settings' text and the identity of a settler, whose digest was worked out by another program.
use pv_box::Bisector;
use pv_ctc::Program;
use pv_num::Num;
use pv_parse::parse;
use pv_settle::{Settings, SystemSettler};
use std::alloc::Global;
use test_calls::texts::{IDENTITY, SYSTEM};

const TEXT: &str = "eps 1:-2\ndepth 60\nbisect largest\ncontract prop(8)\n";

/// The settler of a system by the default program, with a width of 2^exponent.
pub(crate) fn settler_of(alloc: Global, text: &str, exponent: i16) -> Option<SystemSettler> {
    let system = parse(alloc, text.as_bytes()).ok()?;
    let program = Program::read(alloc, b"prop(8)", system.constraint_count()).ok()?;
    let eps = Num::fin(1, exponent)?;
    if Num::ZERO <= eps && eps < Num::POS_INF {
        let settings = Settings {
            eps,
            depth: 60,
            bisector: Bisector::Largest,
        };
        SystemSettler::new(alloc, system, program, settings).ok()
    } else {
        None
    }
}

fn are_as_worked_out(alloc: Global) -> Option<bool> {
    let settler = settler_of(alloc, SYSTEM, -2)?;
    let text = settler.settings_text(alloc).ok()?;
    let identity = settler.identity(alloc).ok()?;
    Some(text.as_slice() == TEXT.as_bytes() && identity == IDENTITY)
}

#[test]
fn settings_and_identity(rt: HostRuntime) {
    assert_eq!(rt; are_as_worked_out(rt.alloc()), Some(true));
}
