//! Stores after which a file holds its old content or the new one, whole.
//!
//! The new content is written into a file beside the target, and that file is then given the
//! target's name. A target that is no regular file, or whose folder takes no new file or no new
//! name, is written in place.

use crate::IoRefused;
use crate::real_sink::takes_all;
use std::fs::{File, Metadata, OpenOptions, Permissions};
use std::io::ErrorKind;
use std::os::unix::fs::{MetadataExt, OpenOptionsExt, PermissionsExt, lchown};
use std::path::PathBuf;
use std::{fs, io, process};

/// How many links are followed at most, as by the system.
const MOST_LINKS: u32 = 40;

/// How many names for a new file are tried.
const MOST_NAMES: u32 = 100;

/// The longest name that the name of the file beside it repeats.
const LONGEST_SHOWN: usize = 200;

/// How often a call is made again that a signal interrupted.
const MOST_TRIES: u32 = 1000;

const USUAL_MODE: u32 = 0o666;

/// Makes the bytes the content of a name. Want of memory is told before anything is changed.
pub(crate) fn store_whole(rt: &HostRuntime, name: &str, bytes: &[u8]) -> Result<(), IoRefused> {
    match replaces(rt, name, bytes) {
        Ok(true) => Ok(()),
        Ok(false) => store_in_place(rt, name, bytes),
        Err(refused) => Err(refused),
    }
}

fn store_in_place(rt: &HostRuntime, name: &str, bytes: &[u8]) -> Result<(), IoRefused> {
    let written = match File::create(rt, name) {
        Ok(file) => fills(file, bytes),
        Err(_) => false,
    };
    if written {
        Ok(())
    } else {
        Err(IoRefused::Failed)
    }
}

// Puts the bytes into a file beside the target and gives it the target's name. False where the
// target has to be written in place; nothing is changed then.
fn replaces(rt: &HostRuntime, name: &str, bytes: &[u8]) -> Result<bool, IoRefused> {
    let found = place_of(rt, name).map_err(|e| refusal(&e))?;
    let Some(place) = found else {
        return Ok(false);
    };
    let folder = open_folder(rt, &place.target).map_err(|e| refusal(&e))?;
    let made = make_beside(rt, &place).map_err(|e| refusal(&e))?;
    let Some(made) = made else {
        return Ok(false);
    };
    let Beside { file, path } = made;
    let ready = gets_access(rt, &file, &path, &place.old) && fills(file, bytes);
    if !ready {
        remove(rt, &path);
        return Err(IoRefused::Failed);
    }
    match rename(rt, &path, &place.target) {
        Ok(()) if is_synced(&folder) => Ok(true),
        Ok(()) => Err(IoRefused::Failed),
        Err(error) => {
            remove(rt, &path);
            if bars_names(error.kind()) {
                Ok(false)
            } else {
                Err(IoRefused::Failed)
            }
        }
    }
}

fn refusal(error: &io::Error) -> IoRefused {
    match error.kind() {
        ErrorKind::OutOfMemory => IoRefused::Memory,
        _ => IoRefused::Failed,
    }
}

// Where a name leads, and the file that is there.
#[derive(Drop)]
struct Place {
    target: PathBuf,
    old: Option<Metadata>,
}

// The place that a name leads to. None where it is no regular file, or no path tells where it lies,
// as of a file that is only open.
fn place_of(rt: &HostRuntime, name: &str) -> io::Result<Option<Place>> {
    match fs::metadata(rt, name) {
        Ok(found) if found.is_file() => place_of_file(rt, name),
        Ok(_) => Ok(None),
        Err(error) if error.kind() == ErrorKind::NotFound => {
            let target = followed(rt, name)?;
            Ok(Some(Place { target, old: None }))
        }
        Err(error) => Err(error),
    }
}

// A file that may not be written is refused, as it would be in place.
fn place_of_file(rt: &HostRuntime, name: &str) -> io::Result<Option<Place>> {
    let file = OpenOptions::new().write(true).open(rt, name)?;
    let old = file.metadata()?;
    let target = match followed(rt, name) {
        Ok(target) => target,
        Err(error) if error.kind() == ErrorKind::InvalidData => return Ok(None),
        Err(error) => return Err(error),
    };
    match fs::symlink_metadata(rt, target.as_str()) {
        Ok(named) if is_one_file(&old, &named) => Ok(Some(Place {
            target,
            old: Some(old),
        })),
        Ok(_) => Ok(None),
        Err(error) if error.kind() == ErrorKind::NotFound => Ok(None),
        Err(error) => Err(error),
    }
}

pub(crate) fn is_one_file(one: &Metadata, other: &Metadata) -> bool {
    one.dev() == other.dev() && one.ino() == other.ino()
}

// The path at the end of the links that begin at a name.
fn followed(rt: &HostRuntime, name: &str) -> io::Result<PathBuf> {
    let mut path = PathBuf::from_str(rt.alloc(), name)?;
    for _ in 0..MOST_LINKS {
        if !is_link(rt, &path)? {
            return Ok(path);
        }
        let next = fs::read_link(rt, path.as_str())?;
        path.pop();
        path.push(next.as_str())?;
    }
    Err(ErrorKind::FilesystemLoop.into())
}

fn is_link(rt: &HostRuntime, path: &PathBuf) -> io::Result<bool> {
    match fs::symlink_metadata(rt, path.as_str()) {
        Ok(found) => Ok(found.is_symlink()),
        Err(error) if error.kind() == ErrorKind::NotFound => Ok(false),
        Err(error) => Err(error),
    }
}

// The folder of a path, to be synced. None where it may not be read.
fn open_folder(rt: &HostRuntime, path: &PathBuf) -> io::Result<Option<File>> {
    let folder = match path.parent() {
        Some(folder) if !folder.as_str().is_empty() => folder.as_str(),
        _ => ".",
    };
    match File::open(rt, folder) {
        Ok(folder) => Ok(Some(folder)),
        Err(error) if error.kind() == ErrorKind::PermissionDenied => Ok(None),
        Err(error) => Err(error),
    }
}

// A new file, and where it lies.
#[derive(Drop)]
struct Beside {
    file: File,
    path: PathBuf,
}

// Makes a file beside the target, whose name says what it is. None where the folder takes none. A
// file that an ended run left is never touched: it might be another machine's, which still writes.
fn make_beside(rt: &HostRuntime, place: &Place) -> io::Result<Option<Beside>> {
    let mode = match &place.old {
        Some(old) => old.mode() & 0o700,
        None => USUAL_MODE,
    };
    for number in 0..MOST_NAMES {
        let path = path_beside(rt, &place.target, number)?;
        let mut how = OpenOptions::new();
        how.write(true);
        how.create_new(true);
        how.mode(mode);
        match how.open(rt, path.as_str()) {
            Ok(file) => return Ok(Some(Beside { file, path })),
            Err(error) if error.kind() == ErrorKind::AlreadyExists => {}
            Err(error) if bars_names(error.kind()) => return Ok(None),
            Err(error) => return Err(error),
        }
    }
    Err(ErrorKind::AlreadyExists.into())
}

// `.NAME.paver-new-PROCESS-NUMBER` in the target's folder.
fn path_beside(rt: &HostRuntime, target: &PathBuf, number: u32) -> io::Result<PathBuf> {
    let shown = match target.file_name() {
        Some(name) if name.len() <= LONGEST_SHOWN => name,
        _ => "",
    };
    let own = process::id(rt.process());
    let name = format!(in rt.alloc(); ".{shown}.paver-new-{own}-{number}")?;
    Ok(target.with_file_name(rt.alloc(), name.as_str())?)
}

// What a folder answers that takes no new file, or gives none another one's name.
fn bars_names(kind: ErrorKind) -> bool {
    matches!(
        kind,
        ErrorKind::PermissionDenied
            | ErrorKind::ReadOnlyFilesystem
            | ErrorKind::ResourceBusy
            | ErrorKind::CrossesDevices
    )
}

// Gives a new file the old one's mode, and its group and owner where this process may.
fn gets_access(rt: &HostRuntime, file: &File, path: &PathBuf, old: &Option<Metadata>) -> bool {
    let Some(old) = old else {
        return true;
    };
    let Ok(new) = file.metadata() else {
        return false;
    };
    if new.gid() != old.gid() && !unless_denied(lchown(rt, path.as_str(), None, Some(old.gid()))) {
        return false;
    }
    if new.uid() != old.uid() && !unless_denied(lchown(rt, path.as_str(), Some(old.uid()), None)) {
        return false;
    }
    let mode = old.mode() & 0o777;
    new.mode() & 0o777 == mode || file.set_permissions(Permissions::from_mode(mode)).is_ok()
}

fn unless_denied(answer: io::Result<()>) -> bool {
    match answer {
        Ok(()) => true,
        Err(error) => error.kind() == ErrorKind::PermissionDenied,
    }
}

// Writes all bytes into a file, and waits until the disk has them.
fn fills(mut file: File, bytes: &[u8]) -> bool {
    takes_all(&mut file, bytes) && is_kept(&file)
}

fn is_synced(folder: &Option<File>) -> bool {
    match folder {
        Some(folder) => is_kept(folder),
        None => true,
    }
}

// Whether the disk has what a file holds. Where nothing can be synced, as at a pipe, that is right.
fn is_kept(file: &File) -> bool {
    match file.sync_all() {
        Ok(()) => true,
        Err(error) => matches!(
            error.kind(),
            ErrorKind::InvalidInput | ErrorKind::Unsupported
        ),
    }
}

fn rename(rt: &HostRuntime, from: &PathBuf, to: &PathBuf) -> io::Result<()> {
    for _ in 0..MOST_TRIES {
        match fs::rename(rt, from.as_str(), to.as_str()) {
            Err(error) if error.kind() == ErrorKind::Interrupted => {}
            answer => return answer,
        }
    }
    Err(ErrorKind::Interrupted.into())
}

fn remove(rt: &HostRuntime, path: &PathBuf) {
    for _ in 0..MOST_TRIES {
        match fs::remove_file(rt, path.as_str()) {
            Err(error) if error.kind() == ErrorKind::Interrupted => {}
            _ => return,
        }
    }
}
