//! Paving files of a system, read.
ghost use Rattle.std.specs.Prelude.{◌≡◌, ◌≤◌, ℕ, IfOk, IfErr, OnOk};
ghost use Rattle.pv_slope.specs.Methods.{Method, method_of, identity_of};
ghost use Rattle.pv_request.specs.Requests.{names_in};
ghost use Rattle.pv_rule.specs.Systems.{files, AreOnlyRead, search_box};
ghost use Rattle.pv_product.specs.Files.{HoldsPaving, RefusesFile, RefusesPavings};
ghost use Rattle.pv_opening.specs.Reads.{AreHeld, IsKeyOf};

use pv_box::IBox;
use pv_file::{FileRefused, most_bytes, read_within};
use pv_io::{FetchRefused, Folder};
use pv_num::Memory;
use pv_request::{FileFault, Refusal};
use pv_slope::FormSettler;
use pv_tree::{NodeLimit, Paving};
use std::alloc::Global;

/// What the paving files of a system and its settings have in common.
#[derive(Drop)]
pub struct Key {
    pub identity: [u8; 32],
    pub root: IBox,
    pub limit: NodeLimit,
}

impl Key {
    /// The key of the paving files of a settler within a limit.
    pub fn of(alloc: Global, settler: &FormSettler, limit: NodeLimit) -> Result<Key, Memory>
        ensures { IfOk result (IsKeyOf (method_of settler.now) limit) }
    {
        Ok(Key {
            identity: settler.identity(alloc)?,
            root: settler.search_box(alloc)?,
            limit,
        })
    }
}

/// Reads the files of these names in order, each of which holds a paving, and keeps none of them.
pub(crate) fn check_pavings<'a, F: Folder>(
    alloc: Global,
    folder: &mut F,
    key: &Key,
    names: &[&'a str],
) -> Result<(), Refusal<'a>>
    ensures read { AreOnlyRead
        (files (F.content folder.old) (F.fetch_faults folder.old) (F.store_faults folder.old))
        (files (F.content folder.new) (F.fetch_faults folder.new) (F.store_faults folder.new)) }
    ensures held { OnOk result ((rule : Method) (limit : ℕ) → IsKeyOf rule limit key.now
        → AreHeld (files (F.content folder.old) (F.fetch_faults folder.old)
        (F.store_faults folder.old)) limit rule (names_in names.now)) }
    ensures refused { IfErr result
        (λ r. (rule : Method) (limit : ℕ) → IsKeyOf rule limit key.now
        → RefusesPavings
        (files (F.content folder.old) (F.fetch_faults folder.old) (F.store_faults folder.old))
        (files (F.content folder.new) (F.fetch_faults folder.new) (F.store_faults folder.new))
        limit rule
        (names_in names.now) r) }
{
    let Some((name, rest)) = names.split_first() else {
        return Ok(());
    };
    match paving_in(alloc, folder, key, *name) {
        Ok(_paving) => {}
        Err(refusal) => return Err(refusal),
    }
    check_pavings(alloc, folder, key, rest)
}

/// The paving in the file of a name.
pub fn paving_in<'a, F: Folder>(
    alloc: Global,
    folder: &mut F,
    key: &Key,
    name: &'a str,
) -> Result<Paving, Refusal<'a>>
    ensures read { AreOnlyRead
        (files (F.content folder.old) (F.fetch_faults folder.old) (F.store_faults folder.old))
        (files (F.content folder.new) (F.fetch_faults folder.new) (F.store_faults folder.new)) }
    ensures root { IfOk result (λ p. p.root ≡ key.now.root) }
    ensures paving { IfOk result
        (λ p. HoldsPaving (files (F.content folder.old) (F.fetch_faults folder.old)
        (F.store_faults folder.old)) key.now.limit key.now.identity key.now.root name.now p.tree) }
    ensures refused { IfErr result
        (RefusesFile (files (F.content folder.old) (F.fetch_faults folder.old)
        (F.store_faults folder.old))
        (files (F.content folder.new) (F.fetch_faults folder.new) (F.store_faults folder.new))
        key.now.limit key.now.identity key.now.root name.now) }
{
    let mut bytes = Vec::new(alloc);
    match folder.fetch(name, most_bytes(key.limit), &mut bytes) {
        Ok(()) => {}
        Err(FetchRefused::TooLong) => return Err(bad(name, FileFault::TooLong)),
        Err(FetchRefused::Absent) => return Err(Refusal::NoFile { name }),
        Err(FetchRefused::Failed) => return Err(Refusal::ReadFault { name }),
        Err(FetchRefused::Memory) => return Err(Refusal::Memory),
    }
    match read_within(alloc, &bytes, key.identity, &key.root, key.limit) {
        Ok(paving) => Ok(paving),
        Err(FileRefused::WrongIdentity) => Err(bad(name, FileFault::WrongIdentity)),
        Err(FileRefused::BadLine { line }) => Err(bad(name, FileFault::BadLine { line })),
        Err(FileRefused::TooManyNodes { line }) => Err(bad(name, FileFault::TooManyNodes { line })),
        Err(FileRefused::Memory) => Err(Refusal::Memory),
    }
}

fn bad<'a>(name: &'a str, fault: FileFault) -> Refusal<'a>
    ensures { result ≡ Refusal.Paving name.entry fault }
{
    Refusal::Paving { name, fault }
}
