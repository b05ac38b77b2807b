//! A keeper over an open connection.
ghost use Rattle.std.specs.Prelude.{◌≡◌, None};
ghost use Rattle.pv_keep.specs.Keeping.{untold};
ghost use Rattle.pv_keep_sql.specs.Counting.{IsCounted};
ghost use Rattle.pv_keep_sql.specs.Keepers.{begun_in, faults_in};

use crate::database::{Entered, Extent, enter, read_rows, write_rows};
use crate::faults::{Refused, counted};
use pv_io::IoRefused;
use pv_keep::{BeginRefused, Keeper, LoadRefused, Rows};
use sqlite::{Alter, Connection};
use std::alloc::Global;

/// Keeps one campaign in the database of a connection. The first name that is begun is the
/// campaign's, and a begin of another name fails. It tells no rows.
pub struct ConnectionKeeper<S: Alter> {
    alloc: Global,
    connection: Connection<S>,
    name: Option<String>,
    is_begun: bool,
    faults: u64,
}

impl<S: Alter + Drop> Drop for ConnectionKeeper<S> {
    fn drop(self) {
        let ConnectionKeeper {
            alloc: _,
            connection: _,
            name: _,
            is_begun: _,
            faults: _,
        } = self;
    }
}

impl<S: Alter + Drop> ConnectionKeeper<S> {
    /// A keeper over a connection. It has begun no name and met no fault.
    pub fn new(alloc: Global, connection: Connection<S>) -> ConnectionKeeper<S>
        ensures none { begun_in result ≡ None }
        ensures no_fault { faults_in result ≡ 0 }
    {
        ConnectionKeeper {
            alloc,
            connection,
            name: None,
            is_begun: false,
            faults: 0,
        }
    }

    /// The connection.
    pub fn into_connection(self) -> Connection<S> {
        let ConnectionKeeper {
            alloc: _,
            connection,
            name: _,
            is_begun: _,
            faults: _,
        } = self;
        connection
    }
}

impl<S: Alter> ConnectionKeeper<S> {
    // Counts a refusal, unless memory was wanting.
    fn refuse(&mut self, refused: Refused) -> Refused
        ensures same { result ≡ refused }
        ensures begun { begun_in self.new ≡ begun_in self.old }
        ensures counted { IsCounted refused (faults_in self.old) (faults_in self.new) }
    {
        self.faults = counted(self.faults, refused);
        refused
    }

    fn serves_other(&self, name: &str) -> bool {
        match &self.name {
            Some(own) => own.as_str() != name,
            None => false,
        }
    }
}

impl<S: Alter> Keeper for ConnectionKeeper<S> {
    ghost begun = { begun_in };

    ghost kept = { λ _ _. untold };

    ghost faults = { faults_in };

    fn begin(&mut self, name: &str, identity: [u8; 32]) -> Result<(), BeginRefused> {
        self.is_begun = false;
        if self.serves_other(name) {
            return Err(self.refuse(Refused::Failed).into());
        }
        let name = String::from_str(self.alloc, name)?;
        match enter(self.alloc, &mut self.connection, &identity) {
            Ok(Entered::Same) => {
                self.name = Some(name);
                self.is_begun = true;
                Ok(())
            }
            Ok(Entered::Other { kept }) => {
                self.name = Some(name);
                Err(BeginRefused::OtherIdentity { kept })
            }
            Err(Refused::Failed) => {
                self.name = Some(name);
                Err(self.refuse(Refused::Failed).into())
            }
            Err(Refused::Memory) => Err(BeginRefused::Memory),
        }
    }

    fn load(&mut self, limit: u64, into: &mut Rows) -> Result<(), LoadRefused> {
        match read_rows(self.alloc, &mut self.connection, limit, into) {
            Ok(Extent::Whole) => Ok(()),
            Ok(Extent::OneTooMany) => Err(LoadRefused::TooMany),
            Err(refused) => {
                *into = Rows::new(self.alloc);
                Err(self.refuse(refused).into())
            }
        }
    }

    fn save(&mut self, rows: &Rows) -> Result<(), IoRefused> {
        match write_rows(self.alloc, &mut self.connection, rows) {
            Ok(()) => Ok(()),
            Err(refused) => Err(self.refuse(refused).into()),
        }
    }
}
