//! Whether hints are wanted.
use std::env::Env;
use std::io::IsTerminal;

/// Whether standard error is a terminal or `PAVER_HINTS` is `1`; where that is `0`, never.
pub(crate) fn wants_hints(rt: &HostRuntime) -> bool {
    let mut value = [0u8; 2];
    match rt.var("PAVER_HINTS", &mut value) {
        Ok(1) if value[0] == b'1' => true,
        Ok(1) if value[0] == b'0' => false,
        _ => rt.stderr().is_terminal(),
    }
}
