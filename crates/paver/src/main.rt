//! The interval paver as a program: its words, the files of the folder in which it runs, and its
//! streams.
#![tactic(auto)]

use pv_cli::{Status, Unread, paver_main, tell_unread};
use pv_hints::tell_hint;
use pv_io::{Folder, RealFolder, RealSink, Sink};
use pv_keep_sql::FileKeeper;
use pv_progress::{Clearing, Progress};
use std::env;
use std::env::Env;
use std::io::ErrorKind;
use std::process::ExitCode;
use std::sync::Wait;
use std::thread::Threads;

fn main(rt: HostRuntime) -> ExitCode {
    let progress = Progress::new(&rt);
    let mut err = Clearing::new(RealSink::new(rt.stderr()), &progress);
    let status = match words(&rt) {
        Ok(words) => {
            let mut folder = RealFolder::new(&rt);
            let mut out = Clearing::new(RealSink::new(rt.stdout()), &progress);
            let status = answer(&rt, &rt, &words, &mut folder, &mut out, &mut err, &progress);
            progress.clear();
            tell_hint(&rt, &words, status, &mut folder, &mut err);
            status
        }
        Err(why) => tell_unread(&mut err, why),
    };
    ExitCode::from(status.code())
}

// Does what the words ask for, by threads of `rt` and over the databases of `machine`. A keeper's
// type is large, and each step of a function that has one is checked with all of it.
fn answer<F: Folder, K: Sink, E: Sink, R: Threads + Wait + Sync>(
    rt: &R,
    machine: &HostRuntime,
    words: &[String],
    folder: &mut F,
    out: &mut K,
    err: &mut E,
    progress: &Progress<'_>,
) -> Status {
    let mut keeper = FileKeeper::new(machine);
    let status = paver_main(
        rt,
        machine.alloc(),
        words,
        folder,
        out,
        err,
        progress,
        &mut keeper,
    );
    keeper.close();
    status
}

// The words of the command line, of which the first is the program's name.
fn words<R: Env + AllocGlobal>(rt: &R) -> Result<Vec<String>, Unread> {
    match env::args(rt) {
        Ok(words) => words.collect(rt.alloc()).map_err(|_| Unread::Memory),
        Err(error) => Err(unread_by(error.kind())),
    }
}

fn unread_by(kind: ErrorKind) -> Unread {
    match kind {
        ErrorKind::OutOfMemory => Unread::Memory,
        _ => Unread::NoText,
    }
}
