//! The settings' text and the identity of a settler.

ghost use Rattle.std.specs.Prelude.{◌≡◌, ◌++◌, IfOk, OnOk};
ghost use Rattle.pv_num.specs.Parts.{number_text};
ghost use Rattle.pv_settle.specs.Settlers.{rule_of};
ghost use Rattle.pv_settle.specs.Spelling.{bisector_text, settings_text, identity_of};

use crate::settler::SystemSettler;
use pv_box::Bisector;
use pv_expr::text::{put, put_number};
use pv_num::{Memory, Num};
use sha2::{Digest, Sha256};
use std::alloc::Global;

impl SystemSettler {
    /// The settings, a line each: the width, the depth, the bisector and the program.
    pub fn settings_text(&self, alloc: Global) -> Result<Vec<u8>, Memory>
        ensures { IfOk result (λ text. text.items ≡ settings_text (rule_of self.now)) }
    {
        let program = self.program.text(alloc)?;
        let mut out = Vec::new(alloc);
        put(&mut out, b"eps ")?;
        put_end(&mut out, self.settings.eps)?;
        put(&mut out, b"\ndepth ")?;
        put_number(&mut out, u64::from(self.settings.depth))?;
        put(&mut out, bisector_words(self.settings.bisector))?;
        put(&mut out, &program)?;
        put(&mut out, b"\n")?;
        Ok(out)
    }

    /// The SHA-256 digest of the system's canonical text followed by the settings' text.
    pub fn identity(&self, alloc: Global) -> Result<[u8; 32], Memory>
        ensures { IfOk result (λ digest. digest ≡ identity_of (rule_of self.now)) }
    {
        let canonical = self.system.canonical_text(alloc)?;
        let settings = self.settings_text(alloc)?;
        let mut hasher = Sha256::new();
        hasher.update(canonical.as_slice());
        hasher.update(settings.as_slice());
        Ok(hasher.finalize())
    }
}

fn bisector_words(bisector: Bisector) -> &'static [u8]
    ensures { result.now ≡ bisector_text bisector }
{
    match bisector {
        Bisector::Largest => b"\nbisect largest\ncontract ",
        Bisector::Round => b"\nbisect round\ncontract ",
    }
}

fn put_end(out: &mut Vec<u8>, end: Num) -> Result<(), Memory>
    ensures { OnOk result (out.new.items ≡ out.old.items ++ number_text end) }
{
    end.write_text(out)?;
    Ok(())
}
