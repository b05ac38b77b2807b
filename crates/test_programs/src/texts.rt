//! Texts of programs: those that are right, and the byte of each refusal.

mod programs;

use programs::{ACCEPTED, MORE_REFUSED, REFUSED};
use pv_ctc::{Program, ProgramRefused};
use std::alloc::Global;
use std::process::Abort;
use std::test::Fail;

#[test]
fn reads_and_writes(rt: HostRuntime) -> Result<(), Fail> {
    for (count, text) in ACCEPTED {
        let program = Program::read(rt.alloc(), text.as_bytes(), *count)
            .ok()
            .ok_or("refused")?;
        let written = program.text(rt.alloc())?;
        assert_eq!(rt; written.as_slice(), text.as_bytes());
    }
    Ok(())
}

fn all_refused(rt: &impl Abort, alloc: Global, cases: &[(u32, &str, u32)]) -> Result<(), Fail> {
    for (count, text, byte) in cases {
        let refused = Program::read(alloc, text.as_bytes(), *count)
            .err()
            .ok_or("read")?;
        assert_eq!(rt; refused, ProgramRefused::Bad { byte: *byte }, "{text}");
    }
    Ok(())
}

#[test]
fn refuses_at_the_byte(rt: HostRuntime) -> Result<(), Fail> {
    all_refused(&rt, rt.alloc(), REFUSED)
}

#[test]
fn refuses_more_at_the_byte(rt: HostRuntime) -> Result<(), Fail> {
    all_refused(&rt, rt.alloc(), MORE_REFUSED)
}
