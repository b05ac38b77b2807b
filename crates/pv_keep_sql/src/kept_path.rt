//! Paths as the keys of a table: a digit a step, and nothing for the root.
ghost use Rattle.std.specs.Prelude.{◌≡◌, ◌≤◌, ◌++◌, ℕ, List, Bool, MatchOption, OnOk, IfSome, None, length};
ghost use Rattle.pv_keep_sql.specs.Digits.{digits_of, NamesNoPath};

use pv_num::Memory;
use pv_tree::{MOST_STEPS, Path};

/// Appends the digits of a path: 0 for a step to the low child, 1 for one to the high child.
pub(crate) fn push_digits(path: Path, out: &mut Vec<u8>) -> Result<(), Memory>
    ensures { OnOk result (out.new.items ≡ out.old.items ++ digits_of path) }
{
    if path.len() > 0 {
        path.write_text(out)?;
    }
    Ok(())
}

/// The path of these digits. None exactly where there are more than 200, or one is neither 0 nor 1.
pub(crate) fn path_of(digits: &[u8]) -> Option<Path>
    ensures { MatchOption result (NamesNoPath digits.now) (λ path. digits.now ≡ digits_of path) }
{
    if digits.len() > MOST_STEPS as usize {
        return None;
    }
    let mut path = Path::root();
    for i in 0..digits.len() {
        path = match digits[i] {
            b'0' => path.low(),
            b'1' => path.high(),
            _ => return None,
        };
    }
    Some(path)
}
