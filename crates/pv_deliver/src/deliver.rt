//! Stores and prints what comes of a command's work.
ghost use Rattle.std.specs.Prelude.{◌≡◌, ◌≤◌, ◌++◌, option_map, IfOk, IfErr, OnOk, length};
ghost use Rattle.pv_tree.specs.Trees.{counts_of};
ghost use Rattle.pv_io.specs.Outside.{appended};
ghost use Rattle.pv_file.specs.Lines.{lines_of};
ghost use Rattle.pv_file.specs.Texts.{file_text};
ghost use Rattle.pv_svg.specs.Texts.{picture_text};
ghost use Rattle.pv_file.specs.declared.version.Version.TheVariants as version;
ghost use Rattle.pv_rule.specs.Systems.{files};
ghost use Rattle.pv_product.specs.Products.{summary_of, status_by, HasStatus};
ghost use Rattle.pv_product.specs.Ends.{stream, IsDelivered, RefusesDelivery, IsStored};
ghost use Rattle.pv_product.specs.Printing.{RefusesStore, RefusesPrint};
ghost use Rattle.pv_product.specs.Made.{made};

use pv_io::{FileWriteRefused, Folder, IoRefused, PlainSink, Sink};
use pv_lines::{write_by, write_lines_by};
use pv_num::Memory;
use pv_product::Product;
use pv_product::summary::summary;
use pv_request::{Refusal, Status};
use pv_svg::Picture;
use pv_tree::{MOST_WORKERS, Paving};
use std::alloc::Global;
use std::thread::Threads;

/// Stores a product where a file is asked for, prints it, and answers the status with which the
/// command ends. The lines of a paving are made by `workers` workers.
pub fn deliver<'a, F: Folder, K: Sink, R: Threads + Sync>(
    rt: &R,
    alloc: Global,
    folder: &mut F,
    out: &mut K,
    product: &Product,
    file: Option<&'a str>,
    workers: u32,
) -> Result<Status, Refusal<'a>>
    requires one { 1 ≤ workers }
    requires few { workers ≤ MOST_WORKERS }
    ensures status { IfOk result (HasStatus (made product.now)) }
    ensures delivered { OnOk result
        (IsDelivered (option_map (λ name. name.now) file.entry) (made product.now)
        (files (F.content folder.old) (F.fetch_faults folder.old) (F.store_faults folder.old))
        (files (F.content folder.new) (F.fetch_faults folder.new) (F.store_faults folder.new))
        (stream (K.written out.old) (K.faults out.old))
        (stream (K.written out.new) (K.faults out.new))) }
    ensures refused { IfErr result
        (RefusesDelivery (option_map (λ name. name.now) file.entry) (made product.now)
        (files (F.content folder.old) (F.fetch_faults folder.old) (F.store_faults folder.old))
        (files (F.content folder.new) (F.fetch_faults folder.new) (F.store_faults folder.new))
        (stream (K.written out.old) (K.faults out.old))
        (stream (K.written out.new) (K.faults out.new))) }
{
    match (product, file) {
        (Product::Text(text), _) => {
            print(out, text)?;
            Ok(Status::Done)
        }
        (Product::Unfinished(text), _) => {
            print(out, text)?;
            Ok(Status::OpenLeft)
        }
        (Product::Picture(picture), _) => {
            print_picture(alloc, out, picture)?;
            Ok(Status::Done)
        }
        (Product::Paved { paving, done, .. }, None) => {
            print_paving(rt, alloc, out, paving, workers)?;
            Ok(status_when(*done))
        }
        (
            Product::Paved {
                identity,
                paving,
                done,
            },
            Some(name),
        ) => {
            store(rt, alloc, folder, name, *identity, paving, workers)?;
            print_summary(alloc, out, paving)?;
            Ok(status_when(*done))
        }
    }
}

// The status of work that is done, or was cut short.
fn status_when(done: bool) -> Status
    ensures { result ≡ status_by done }
{
    if done { Status::Done } else { Status::OpenLeft }
}

// Stores the text of a paving's file.
fn store<'a, F: Folder, R: Threads + Sync>(
    rt: &R,
    alloc: Global,
    folder: &mut F,
    name: &'a str,
    identity: [u8; 32],
    paving: &Paving,
    workers: u32,
) -> Result<(), Refusal<'a>>
    requires one { 1 ≤ workers }
    requires few { workers ≤ MOST_WORKERS }
    ensures stored { OnOk result
        (IsStored name.now (file_text version.Two identity paving.now.root paving.now.tree)
        (files (F.content folder.old) (F.fetch_faults folder.old) (F.store_faults folder.old))
        (files (F.content folder.new) (F.fetch_faults folder.new) (F.store_faults folder.new))) }
    ensures refused { IfErr result
        (RefusesStore name.now
        (files (F.content folder.old) (F.fetch_faults folder.old) (F.store_faults folder.old))
        (files (F.content folder.new) (F.fetch_faults folder.new) (F.store_faults folder.new))) }
{
    let mut text = PlainSink::new(alloc);
    match write_by(rt, alloc, paving, identity, workers, &mut text) {
        Ok(()) => keep(folder, name, text.bytes()),
        Err(_) => Err(Refusal::Memory),
    }
}

// Stores bytes under a name.
fn keep<'a, F: Folder>(folder: &mut F, name: &'a str, bytes: &[u8]) -> Result<(), Refusal<'a>>
    ensures stored { OnOk result
        (IsStored name.now bytes.now
        (files (F.content folder.old) (F.fetch_faults folder.old) (F.store_faults folder.old))
        (files (F.content folder.new) (F.fetch_faults folder.new) (F.store_faults folder.new))) }
    ensures refused { IfErr result
        (RefusesStore name.now
        (files (F.content folder.old) (F.fetch_faults folder.old) (F.store_faults folder.old))
        (files (F.content folder.new) (F.fetch_faults folder.new) (F.store_faults folder.new))) }
{
    match folder.store(name, bytes) {
        Ok(()) => Ok(()),
        Err(IoRefused::Failed) => Err(Refusal::NotStored { name }),
        Err(IoRefused::Memory) => Err(Refusal::Memory),
    }
}

// Prints the summary of a paving, and the lines of its nodes.
fn print_paving<'a, K: Sink, R: Threads + Sync>(
    rt: &R,
    alloc: Global,
    out: &mut K,
    paving: &Paving,
    workers: u32,
) -> Result<(), Refusal<'a>>
    requires one { 1 ≤ workers }
    requires few { workers ≤ MOST_WORKERS }
    ensures whole { OnOk result
        (K.written out.new
        ≡ appended (K.written out.old)
        (summary_of (counts_of paving.now.tree)
        ++ lines_of version.One paving.now.root paving.now.tree)) }
    ensures refused { IfErr result
        (RefusesPrint (stream (K.written out.old) (K.faults out.old))
        (stream (K.written out.new) (K.faults out.new))
        (summary_of (counts_of paving.now.tree)
        ++ lines_of version.One paving.now.root paving.now.tree)) }
{
    print_summary(alloc, out, paving)?;
    match write_lines_by(rt, alloc, paving, workers, out) {
        Ok(()) => Ok(()),
        Err(FileWriteRefused::WriteFailed) => Err(Refusal::NotPrinted),
        Err(FileWriteRefused::Memory) => Err(Refusal::Memory),
    }
}

fn print_picture<'a, K: Sink>(
    alloc: Global,
    out: &mut K,
    picture: &Picture,
) -> Result<(), Refusal<'a>>
    ensures whole { OnOk result
        (K.written out.new ≡ appended (K.written out.old) (picture_text picture.now)) }
    ensures refused { IfErr result
        (RefusesPrint (stream (K.written out.old) (K.faults out.old))
        (stream (K.written out.new) (K.faults out.new)) (picture_text picture.now)) }
{
    match picture.write(alloc, out) {
        Ok(()) => Ok(()),
        Err(FileWriteRefused::WriteFailed) => Err(Refusal::NotPrinted),
        Err(FileWriteRefused::Memory) => Err(Refusal::Memory),
    }
}

fn print_summary<'a, K: Sink>(
    alloc: Global,
    out: &mut K,
    paving: &Paving,
) -> Result<(), Refusal<'a>>
    ensures whole { OnOk result
        (K.written out.new
        ≡ appended (K.written out.old) (summary_of (counts_of paving.now.tree))) }
    ensures refused { IfErr result
        (RefusesPrint (stream (K.written out.old) (K.faults out.old))
        (stream (K.written out.new) (K.faults out.new)) (summary_of (counts_of paving.now.tree))) }
    ensures counts_on { K.faults out.old ≤ K.faults out.new }
{
    let line = summary(alloc, paving)?;
    print(out, &line)
}

fn print<'a, K: Sink>(out: &mut K, text: &[u8]) -> Result<(), Refusal<'a>>
    ensures whole { OnOk result (K.written out.new ≡ appended (K.written out.old) text.now) }
    ensures refused { IfErr result
        (RefusesPrint (stream (K.written out.old) (K.faults out.old))
        (stream (K.written out.new) (K.faults out.new)) text.now) }
    ensures counts_on { K.faults out.old ≤ K.faults out.new }
{
    match out.write(text) {
        Ok(()) => Ok(()),
        Err(IoRefused::Failed) => Err(Refusal::NotPrinted),
        Err(IoRefused::Memory) => Err(Refusal::Memory),
    }
}
