//! The text of the line.
use std::alloc::{AllocError, Global};

/// How far a run has come: `1,234,000 settled, 812,000 a second, 4 workers`.
pub(crate) fn line_of(
    alloc: Global,
    settled: u64,
    milliseconds: u64,
    workers: u64,
) -> Result<Vec<u8>, AllocError> {
    let rate = settled.saturating_mul(1000) / milliseconds.max(1);
    let mut line = Vec::new(alloc);
    push_grouped(alloc, settled, &mut line)?;
    line.extend_from_slice(b" settled, ")?;
    push_grouped(alloc, rate, &mut line)?;
    line.extend_from_slice(b" a second, ")?;
    push_grouped(alloc, workers, &mut line)?;
    line.extend_from_slice(if workers == 1 {
        b" worker"
    } else {
        b" workers"
    })?;
    Ok(line)
}

// Writes a number whose digits stand in groups of three.
fn push_grouped(alloc: Global, number: u64, out: &mut Vec<u8>) -> Result<(), AllocError> {
    let digits = format!(in alloc; "{number}")?;
    let digits = digits.as_bytes();
    for (place, digit) in digits.iter().enumerate() {
        let behind = digits.len() - place;
        if 0 < place && behind % 3 == 0 {
            out.push(b',')?;
        }
        out.push(*digit)?;
    }
    Ok(())
}
