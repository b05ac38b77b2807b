//! Where a database and its log lie, and what was there before they were opened.

use crate::faults::Refused;
use std::fs;
use std::fs::{File, OpenOptions};
use std::io::{self, ErrorKind, Read, Write};
use std::os::unix::fs::MetadataExt;
use std::path::PathBuf;

/// The longest log that holds nothing: the head of a log, and the nine bytes behind it.
const EMPTY_LOG: usize = 41;

/// What logs begin with. A byte is 0 where a crash came before it was written.
const LOG_MARK: [u8; 3] = [0x37, 0x7f, 0x06];

/// The longest file that is no database yet.
const BLANK: u64 = 1;

/// How often a call is made again that a signal interrupted.
pub(crate) const MOST_TRIES: u32 = 1000;

/// A file of the machine, whatever its names are.
#[derive(Clone, Copy, PartialEq, Eq)]
struct Identity {
    device: u64,
    number: u64,
}

/// Where a database and its log lie, with no link in the paths.
#[derive(Drop)]
struct Paths {
    database: PathBuf,
    log: PathBuf,
}

/// The files of a database that is open.
#[derive(Drop)]
pub(crate) struct Place {
    paths: Paths,
    database: Identity,
    log: Identity,
}

/// What lay at a name before it was opened.
#[derive(Drop)]
pub(crate) struct Before {
    place: Place,
    is_blank: bool,
    /// None where there was none.
    log: Option<Vec<u8>>,
}

impl From<io::Error> for Refused {
    ghost use Rattle.std.specs.Prelude.{◌≡◌};
    ghost use Rattle.std.specs.IoError.{error_kind};
    ghost use Rattle.pv_keep_sql.specs.Counting.{refusal_of_kind};

    ghost from_gives = { λ e r. r ≡ refusal_of_kind (error_kind e) };

    fn from(error: io::Error) -> Self {
        match error.kind() {
            ErrorKind::OutOfMemory => Refused::Memory,
            _ => Refused::Failed,
        }
    }
}

impl Paths {
    fn of(rt: &HostRuntime, name: &str) -> io::Result<Paths> {
        let database = match fs::canonicalize(rt, name) {
            Err(error) if error.kind() == ErrorKind::NotFound => {
                PathBuf::from_str(rt.alloc(), name)?
            }
            found => found?,
        };
        let log = format!(in rt.alloc(); "{}-wal", database.as_str())?;
        Ok(Paths {
            database,
            log: PathBuf::from_str(rt.alloc(), log.as_str())?,
        })
    }
}

impl Place {
    fn of(rt: &HostRuntime, name: &str) -> Result<Place, Refused> {
        let paths = Paths::of(rt, name)?;
        let database = identity_of(rt, &paths.database)?;
        let log = identity_of(rt, &paths.log)?;
        Ok(Place {
            paths,
            database,
            log,
        })
    }

    /// Whether both files are still at their names.
    pub(crate) fn is_kept(&self, rt: &HostRuntime) -> bool {
        has(rt, &self.paths.database, self.database) && has(rt, &self.paths.log, self.log)
    }
}

fn identity_of(rt: &HostRuntime, path: &PathBuf) -> io::Result<Identity> {
    let found = fs::symlink_metadata(rt, path.as_str())?;
    Ok(Identity {
        device: found.dev(),
        number: found.ino(),
    })
}

fn has(rt: &HostRuntime, path: &PathBuf, wanted: Identity) -> bool {
    match identity_of(rt, path) {
        Ok(found) => found == wanted,
        Err(_) => false,
    }
}

/// Whether a log has the name of that of a database, before either is opened. Where no database is
/// there and anything but the beginning of a log is, that is refused: it would be overwritten.
pub(crate) fn has_log(rt: &HostRuntime, name: &str) -> Result<bool, Refused> {
    let paths = Paths::of(rt, name)?;
    let log = log_at(rt, &paths.log)?;
    if is_blank(rt, &paths.database)? && !begins_log(&log) {
        return Err(Refused::Failed);
    }
    Ok(log.is_some())
}

impl Before {
    /// What lies at a name whose files are open and locked, so that nobody else writes them. Where
    /// it had no log, the opening made one.
    pub(crate) fn of(rt: &HostRuntime, name: &str, had_log: bool) -> Result<Before, Refused> {
        let place = Place::of(rt, name)?;
        let is_blank = is_blank(rt, &place.paths.database)?;
        let found = log_at(rt, &place.paths.log)?;
        Ok(Before {
            place,
            is_blank,
            log: log_before(found, had_log),
        })
    }

    /// Makes the log what it was, beside a database that was refused and is still locked. Where no
    /// database was there, none is refused. What the machine fails to do stays undone: a log with
    /// nothing kept in it, which the next opening takes.
    pub(crate) fn restore(&self, rt: &HostRuntime) {
        if self.is_blank {
            return;
        }
        let log = &self.place.paths.log;
        match &self.log {
            Some(bytes) => rewrite(rt, log, bytes),
            None => remove(rt, log),
        }
    }

    /// The files themselves.
    pub(crate) fn into_place(self) -> Place {
        let Before {
            place,
            is_blank: _,
            log: _,
        } = self;
        place
    }
}

// Whether no database is there.
fn is_blank(rt: &HostRuntime, path: &PathBuf) -> io::Result<bool> {
    match fs::metadata(rt, path.as_str()) {
        Ok(found) => Ok(found.is_file() && found.len() <= BLANK),
        Err(error) if error.kind() == ErrorKind::NotFound => Ok(true),
        Err(error) => Err(error),
    }
}

// The bytes of a log. None where there is none. What is no regular file is refused and not read,
// since it might never end.
fn log_at(rt: &HostRuntime, path: &PathBuf) -> Result<Option<Vec<u8>>, Refused> {
    match fs::symlink_metadata(rt, path.as_str()) {
        Ok(found) if found.is_file() => Ok(Some(fs::read(rt, path.as_str())?)),
        Ok(_) => Err(Refused::Failed),
        Err(error) if error.kind() == ErrorKind::NotFound => Ok(None),
        Err(error) => Err(error.into()),
    }
}

// The log before the opening, which makes an empty one where there was none.
fn log_before(found: Option<Vec<u8>>, had_log: bool) -> Option<Vec<u8>> {
    let bytes = found?;
    if had_log || bytes.len() > 0 {
        Some(bytes)
    } else {
        None
    }
}

// Whether a log holds nothing that is kept, and is no other file.
fn begins_log(log: &Option<Vec<u8>>) -> bool {
    match log {
        Some(bytes) => bytes.len() <= EMPTY_LOG && is_marked(bytes),
        None => true,
    }
}

fn is_marked(bytes: &[u8]) -> bool {
    for i in 0..bytes.len().min(LOG_MARK.len()) {
        if bytes[i] != LOG_MARK[i] && bytes[i] != 0 {
            return false;
        }
    }
    true
}

// Gives a file these bytes, if it has others.
fn rewrite(rt: &HostRuntime, path: &PathBuf, bytes: &[u8]) {
    let is_same = match fs::read(rt, path.as_str()) {
        Ok(found) => found.as_slice() == bytes,
        Err(_) => false,
    };
    if !is_same {
        let _ = fill(rt, path, bytes);
    }
}

fn fill(rt: &HostRuntime, path: &PathBuf, bytes: &[u8]) -> io::Result<()> {
    let mut file = OpenOptions::new().write(true).open(rt, path.as_str())?;
    file.write_all(bytes)?;
    file.set_len(bytes.len() as u64)?;
    file.sync_all()
}

fn remove(rt: &HostRuntime, path: &PathBuf) {
    for _ in 0..MOST_TRIES {
        match fs::remove_file(rt, path.as_str()) {
            Err(error) if error.kind() == ErrorKind::Interrupted => {}
            _ => return,
        }
    }
}
