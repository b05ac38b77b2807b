//! The identity of a settler with centered forms.

ghost use Rattle.std.specs.Prelude.{◌≡◌, IfOk};
ghost use Rattle.pv_settle.specs.Settlers.{rule_of};
ghost use Rattle.pv_slope.specs.Spelling.{identity_of};

use crate::settler::CenteredSettler;
use pv_num::Memory;
use sha2::{Digest, Sha256};
use std::alloc::Global;

impl CenteredSettler {
    /// The SHA-256 digest of the system's canonical text, the settings' text and the line
    /// `centered`.
    pub fn identity(&self, alloc: Global) -> Result<[u8; 32], Memory>
        ensures { IfOk result (λ digest. digest ≡ identity_of (rule_of self.now.settler)) }
    {
        let canonical = self.settler.system().canonical_text(alloc)?;
        let settings = self.settler.settings_text(alloc)?;
        let mut hasher = Sha256::new();
        hasher.update(canonical.as_slice());
        hasher.update(settings.as_slice());
        hasher.update(b"centered\n");
        Ok(hasher.finalize())
    }
}
