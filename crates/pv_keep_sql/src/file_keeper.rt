//! A keeper over the machine's files.
ghost use Rattle.std.specs.Prelude.{◌≡◌, Some, None, IfOk, IfErr, IfSome};
ghost use Rattle.pv_keep.specs.Keeping.{untold};
ghost use Rattle.pv_keep_sql.specs.Keepers.{begun_in, begun_in_file, faults_of_files, IsOtherThan};

use crate::ConnectionKeeper;
use crate::database::{Standing, look};
use crate::faults::{Refused, counted};
use crate::place::{Before, MOST_TRIES, Place, has_log};
use pv_io::IoRefused;
use pv_keep::{BeginRefused, Keeper, LoadRefused, Rows};
use sqlite::{Connection, File, FileStore, Files, Options, Unknown};
use sqlite_std_file::OpenError;
use std::hash::{BuildHasher, RandomState};
use std::io::ErrorKind;

/// Keeps campaigns in database files of the folder in which the program runs: a campaign's name is
/// that of its file, which is made where it is absent. Beside it lies the log of the database,
/// `NAME-wal`. A database of somebody else, or of another identity, is refused with both files as
/// they were; so is a log that lies beside no database and is none. A save whose files were taken
/// away or replaced is refused. It tells no rows.
pub struct FileKeeper<'a> {
    rt: &'a HostRuntime,
    open: Option<ConnectionKeeper<FileStore<File>>>,
    place: Option<Place>,
    faults: u64,
}

impl Drop for FileKeeper<'_> {
    fn drop(self) {
        let FileKeeper {
            rt: _,
            open: _,
            place: _,
            faults: _,
        } = self;
    }
}

impl<'a> FileKeeper<'a> {
    /// A keeper over the machine's files. It has begun no name and met no fault.
    pub fn new(rt: &'a HostRuntime) -> FileKeeper<'a>
        ensures none { begun_in_file result ≡ None }
        ensures no_fault { faults_of_files result ≡ 0 }
    {
        FileKeeper {
            rt,
            open: None,
            place: None,
            faults: 0,
        }
    }

    /// Closes the file that is open: what is kept is copied from its log into the file itself.
    /// Where that can't be done it stays in the log, and nothing is lost.
    pub fn close(self) {
        let FileKeeper {
            rt: _,
            open,
            place: _,
            faults: _,
        } = self;
        if let Some(keeper) = open {
            let _ = keeper.into_connection().close();
        }
    }
}

/// A database that is open, and its files.
struct Opened {
    connection: Connection<FileStore<File>>,
    place: Place,
}

// Opens and locks the files of a name, and makes those that are absent. What a signal interrupted
// is tried again.
fn lock(rt: &HostRuntime, name: &str) -> Result<Files<File>, Refused> {
    if name == ":memory:" || name.starts_with("file:") {
        return Err(Refused::Failed);
    }
    for _ in 0..MOST_TRIES {
        match sqlite_std_file::open(rt, name, Unknown) {
            Ok(files) => return Ok(files),
            Err(OpenError::OutOfMemory) => return Err(Refused::Memory),
            Err(OpenError::Io(error)) if error.kind() == ErrorKind::Interrupted => {}
            Err(OpenError::Io(error)) => return Err(error.into()),
            Err(OpenError::Busy | OpenError::HotJournal) => return Err(Refused::Failed),
        }
    }
    Err(Refused::Failed)
}

// The database in two files. Where it is refused, they are as before.
fn connect(
    rt: &HostRuntime,
    files: Files<File>,
    before: &Before,
) -> Result<Connection<FileStore<File>>, Refused> {
    if !files.may_be_used() {
        return Err(Refused::Failed);
    }
    let options = Options::new(RandomState::new(rt)?.hash_one(&0u8));
    match Connection::open_files(rt.alloc(), files, options) {
        Ok(connection) => Ok(connection),
        Err((error, left)) => {
            before.restore(rt);
            drop(left);
            Err(error.into())
        }
    }
}

// Why a database may not be entered under an identity, if it may not.
fn refusal(
    rt: &HostRuntime,
    connection: &mut Connection<FileStore<File>>,
    identity: &[u8; 32],
) -> Option<BeginRefused>
    ensures { IfSome result (IsOtherThan identity.now) }
{
    match look(rt.alloc(), connection, identity) {
        Ok(Standing::Other { kept }) => Some(BeginRefused::OtherIdentity { kept }),
        Ok(Standing::New | Standing::Bare | Standing::Same) => None,
        Err(refused) => Some(refused.into()),
    }
}

// The database of a name that may be entered under an identity. Where there is none, the files of
// the name are as before.
fn open_for(rt: &HostRuntime, name: &str, identity: &[u8; 32]) -> Result<Opened, BeginRefused>
    ensures { IfErr result (IsOtherThan identity.now) }
{
    let had_log = has_log(rt, name)?;
    let files = lock(rt, name)?;
    let before = Before::of(rt, name, had_log)?;
    let mut connection = connect(rt, files, &before)?;
    if let Some(refused) = refusal(rt, &mut connection, identity) {
        before.restore(rt);
        return Err(refused);
    }
    Ok(Opened {
        connection,
        place: before.into_place(),
    })
}

/// A keeper that has begun a name, and the files that it writes.
struct Begun {
    keeper: ConnectionKeeper<FileStore<File>>,
    place: Place,
}

fn begin_in(rt: &HostRuntime, name: &str, identity: [u8; 32]) -> Result<Begun, BeginRefused>
    ensures begun { IfOk result (λ b. begun_in b.keeper ≡ Some name.now) }
    ensures other { IfErr result (IsOtherThan identity) }
{
    let Opened { connection, place } = open_for(rt, name, &identity)?;
    let mut keeper = ConnectionKeeper::new(rt.alloc(), connection);
    keeper.begin(name, identity)?;
    Ok(Begun { keeper, place })
}

fn is_kept(rt: &HostRuntime, place: &Option<Place>) -> bool {
    match place {
        Some(place) => place.is_kept(rt),
        None => false,
    }
}

// What a save came to, where its files may have been taken away or replaced meanwhile.
fn judged(answer: Result<(), IoRefused>, is_kept: bool) -> Result<(), IoRefused> {
    if answer.is_ok() && !is_kept {
        return Err(IoRefused::Failed);
    }
    answer
}

impl Keeper for FileKeeper<'_> {
    ghost begun = { begun_in_file };

    ghost kept = { λ _ _. untold };

    ghost faults = { faults_of_files };

    fn begin(&mut self, name: &str, identity: [u8; 32]) -> Result<(), BeginRefused> {
        self.open = None;
        match begin_in(self.rt, name, identity) {
            Ok(Begun { keeper, place }) => {
                self.open = Some(keeper);
                self.place = Some(place);
                Ok(())
            }
            Err(refused) => {
                if refused == BeginRefused::Failed {
                    self.faults = self.faults.saturating_add(1);
                }
                Err(refused)
            }
        }
    }

    fn load(&mut self, limit: u64, into: &mut Rows) -> Result<(), LoadRefused> {
        let Some(keeper) = &mut self.open else {
            unreachable!()
        };
        let answer = keeper.load(limit, into);
        if answer == Err(LoadRefused::Failed) {
            self.faults = self.faults.saturating_add(1);
        }
        answer
    }

    fn save(&mut self, rows: &Rows) -> Result<(), IoRefused> {
        let Some(keeper) = &mut self.open else {
            unreachable!()
        };
        let answer = keeper.save(rows);
        let answer = judged(answer, is_kept(self.rt, &self.place));
        if answer == Err(IoRefused::Failed) {
            self.faults = self.faults.saturating_add(1);
        }
        answer
    }
}
