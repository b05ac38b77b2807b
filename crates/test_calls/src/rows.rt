//! Rows that a keeper keeps, as text.
use pv_keep::Rows;
use std::test::Fail;

/// Appends the path and the line of each row.
pub fn push_rows(rows: &Rows, out: &mut Vec<u8>) -> Result<(), Fail> {
    for i in 0..rows.len() {
        let row = rows.get(i);
        if row.path.write_text(out).is_err() {
            return Err("no memory")?;
        }
        out.push(b' ')?;
        out.extend_from_slice(row.line.bytes())?;
        out.push(b'\n')?;
    }
    Ok(())
}
