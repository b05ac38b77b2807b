//! The statements that keep a campaign in a database.
ghost use Rattle.std.specs.Prelude.{◌≡◌, ◌≢◌, ◌+◌, ◌≤◌, ◌<◌, [], length, IfErr, IfOk, OnOk, MatchOption};
ghost use Rattle.sqlite.specs.Held.{state};
ghost use Rattle.sqlite.specs.State.{HasCleanDisk, KeepsCommit};
ghost use Rattle.pv_keep_sql.specs.Crashes.{CommitsNothing, IsAllOrNothing};
ghost use Rattle.pv_keep_sql.specs.Keepers.{IsOther, IsRead, StandsBeside};

use crate::faults::Refused;
use crate::kept_path::{path_of, push_digits};
use crate::listing::{HEAD, Listed, NODE, read_list};
use pv_keep::{Line, Row, Rows};
use sqlite::types::ValueRef;
use sqlite::{Alter, Connection, Statement, Transaction, params};
use std::alloc::Global;

const IDENTITY: &str = "SELECT identity FROM head WHERE id = 1";

const SET_IDENTITY: &str = "INSERT INTO head (id, identity) VALUES (1, ?1)";

/// The key of a row, if there is one.
const SOME_ROW: &str = "SELECT path FROM node LIMIT 1";

const ROWS: &str = "SELECT path, line FROM node ORDER BY path";

/// How many rows a statement adds at most. Each statement copies the pages that it writes, so one
/// for each row would take twice as long.
const AT_ONCE: u64 = 64;

/// A statement that adds one row, and what each further row adds to it.
const ADD_ROW: &str = "INSERT INTO node (path, line) VALUES (?, ?)";

const ADD_ANOTHER: &str = ", (?, ?)";

/// How a database stands to an identity.
#[derive(Clone, Copy)]
pub(crate) enum Entered {
    /// It has this identity, perhaps since this call.
    Same,
    /// It has another one, which is `kept`.
    Other { kept: [u8; 32] },
}

/// What was read of the kept rows.
#[derive(Clone, Copy)]
pub(crate) enum Extent {
    /// All of them.
    Whole,
    /// The limit and one more.
    OneTooMany,
}

/// How a database stands to an identity before anything is written to it.
#[derive(Clone, Copy)]
pub(crate) enum Standing {
    /// It lists nothing.
    New,
    /// It has the two tables, no identity and no row.
    Bare,
    /// It has this identity.
    Same,
    /// It has another one, which is `kept`.
    Other { kept: [u8; 32] },
}

/// Sees to it that a database has the two tables and an identity. Where the identity is another
/// one, or the database is refused, nothing was written.
pub(crate) fn enter<S: Alter>(
    alloc: Global,
    connection: &mut Connection<S>,
    identity: &[u8; 32],
) -> Result<Entered, Refused>
    ensures { IfOk result (IsOther identity.now) }
{
    if !connection.is_autocommit() {
        return Err(Refused::Failed);
    }
    match look(alloc, connection, identity)? {
        Standing::New => make(connection, identity)?,
        Standing::Bare => sign(connection, identity)?,
        Standing::Same => {}
        Standing::Other { kept } => return Ok(Entered::Other { kept }),
    }
    Ok(Entered::Same)
}

/// How a database stands to an identity. One that lists anything but a campaign's tables is refused
/// before a table of it is read, and so is one that has rows and no identity. Nothing is written.
pub(crate) fn look<S: Alter>(
    alloc: Global,
    connection: &mut Connection<S>,
    identity: &[u8; 32],
) -> Result<Standing, Refused>
    ensures { IfOk result (StandsBeside identity.now) }
{
    match read_list(connection)? {
        Listed::Nothing => Ok(Standing::New),
        Listed::Own => own_standing(alloc, connection, identity),
        Listed::Other => Err(Refused::Failed),
    }
}

fn own_standing<S: Alter>(
    alloc: Global,
    connection: &mut Connection<S>,
    identity: &[u8; 32],
) -> Result<Standing, Refused>
    ensures { IfOk result (StandsBeside identity.now) }
{
    match kept_identity(alloc, connection)? {
        Some(kept) => compared(identity, &kept),
        None => unsigned(connection),
    }
}

// Rows with no identity are nobody's, and so they are refused.
fn unsigned<S: Alter>(connection: &mut Connection<S>) -> Result<Standing, Refused>
    ensures { IfOk result (λ found. found ≡ Standing.Bare) }
{
    if has_row(connection)? {
        Err(Refused::Failed)
    } else {
        Ok(Standing::Bare)
    }
}

fn has_row<S: Alter>(connection: &mut Connection<S>) -> Result<bool, Refused> {
    let mut found = connection.query(SOME_ROW, &[])?;
    Ok(found.next()?.is_some())
}

// Makes the two tables and the identity in one transaction.
fn make<S: Alter>(connection: &mut Connection<S>, identity: &[u8; 32]) -> Result<(), Refused> {
    if !connection.is_autocommit() {
        return Err(Refused::Failed);
    }
    let mut change = connection.transaction();
    change.execute_batch(HEAD)?;
    change.execute_batch(NODE)?;
    set_identity(&mut change, identity)?;
    change.commit()?;
    Ok(())
}

// Gives the tables an identity.
fn sign<S: Alter>(connection: &mut Connection<S>, identity: &[u8; 32]) -> Result<(), Refused> {
    if !connection.is_autocommit() {
        return Err(Refused::Failed);
    }
    let mut change = connection.transaction();
    set_identity(&mut change, identity)?;
    change.commit()?;
    Ok(())
}

// The identity that is kept, if there is one.
fn kept_identity<S: Alter>(
    alloc: Global,
    connection: &mut Connection<S>,
) -> Result<Option<Vec<u8>>, Refused> {
    let mut found = connection.query(IDENTITY, &[])?;
    let Some(row) = found.next()? else {
        return Ok(None);
    };
    match row.get_ref(0)? {
        ValueRef::Blob(bytes) => Ok(Some(Vec::from_slice(alloc, bytes)?)),
        _ => Err(Refused::Failed),
    }
}

fn set_identity<S: Alter>(
    change: &mut Transaction<'_, S>,
    identity: &[u8; 32],
) -> Result<(), Refused> {
    change.execute(SET_IDENTITY, &[ValueRef::Blob(identity)])?;
    Ok(())
}

// How a kept identity stands to the one that is asked for. One that is not 32 bytes long is
// refused.
fn compared(identity: &[u8; 32], kept: &[u8]) -> Result<Standing, Refused>
    ensures { IfOk result (StandsBeside identity.now) }
{
    let Some(kept) = digest_of(kept) else {
        return Err(Refused::Failed);
    };
    if kept == *identity {
        Ok(Standing::Same)
    } else {
        Ok(Standing::Other { kept })
    }
}

fn digest_of(bytes: &[u8]) -> Option<[u8; 32]>
    ensures { MatchOption result (length bytes.now ≢ 32) (λ digest. digest ≡ bytes.now) }
{
    if bytes.len() != 32 {
        return None;
    }
    let mut digest = [0; 32];
    digest.copy_from_slice(bytes);
    Some(digest)
}

/// Reads the kept rows into an empty list, one at a time in the order of their keys, up to the
/// limit and one more.
pub(crate) fn read_rows<S: Alter>(
    alloc: Global,
    connection: &mut Connection<S>,
    limit: u64,
    into: &mut Rows,
) -> Result<Extent, Refused>
    requires { into.old ≡ [] }
    ensures { IfOk result (IsRead limit into.new) }
{
    let mut found = connection.query(ROWS, &[])?;
    while into.len() <= limit {
        let Some(row) = found.next()? else {
            return Ok(Extent::Whole);
        };
        let row = kept_row(alloc, row)?;
        into.push(row)?;
    }
    Ok(Extent::OneTooMany)
}

// A row of the table, if its key is that of a path and its line no longer than lines are.
fn kept_row(alloc: Global, row: &sqlite::Row) -> Result<Row, Refused> {
    let (ValueRef::Text(digits), ValueRef::Text(line)) = (row.get_ref(0)?, row.get_ref(1)?) else {
        return Err(Refused::Failed);
    };
    let Some(path) = path_of(digits) else {
        return Err(Refused::Failed);
    };
    match Line::of(alloc, line)? {
        Some(line) => Ok(Row { path, line }),
        None => Err(Refused::Failed),
    }
}

/// Keeps further rows in one transaction. A crash at any time leaves what one before would have
/// left or one state of the tables, and a refusal what was committed before, as far as the disk
/// returns what was written.
#[tactic(auto, using(crate::proofs::Crashes::untouched, crate::proofs::Crashes::undone, crate::proofs::Crashes::undone_keeps, crate::proofs::Crashes::same_commit))]
pub(crate) fn write_rows<S: Alter>(
    alloc: Global,
    connection: &mut Connection<S>,
    rows: &Rows,
) -> Result<(), Refused>
    ensures crash { IsAllOrNothing S.Store connection.old connection.new }
    ensures refused { IfErr result (λ _. HasCleanDisk (state S.Store connection.new) →
        KeepsCommit (state S.Store connection.old) (state S.Store connection.new)) }
{
    if !connection.is_autocommit() {
        return Err(Refused::Failed);
    }
    let mut change = connection.transaction();
    add_all(alloc, &mut change, rows)?;
    change.commit()?;
    Ok(())
}

// Adds all rows: as many at once as may be, and then the rest.
#[tactic(auto, using(crate::proofs::Crashes::nothing_then))]
fn add_all<S: Alter>(
    alloc: Global,
    change: &mut Transaction<'_, S>,
    rows: &Rows,
) -> Result<(), Refused>
    ensures same { change.new.conn.ghost_name ≡ change.old.conn.ghost_name }
    ensures nothing { CommitsNothing S.Store change.old.conn.now change.new.conn.now }
{
    let rest = rows.len() % AT_ONCE;
    let whole = rows.len() - rest;
    add_rows(alloc, change, rows, 0, whole, AT_ONCE)?;
    add_rows(alloc, change, rows, whole, rows.len(), rest)
}

// Adds the rows from a number to another, so many by each statement.
#[tactic(auto, using(crate::proofs::Crashes::nothing_yet, crate::proofs::Crashes::nothing_then))]
fn add_rows<S: Alter>(
    alloc: Global,
    change: &mut Transaction<'_, S>,
    rows: &Rows,
    start: u64,
    end: u64,
    at_once: u64,
) -> Result<(), Refused>
    ensures same { change.new.conn.ghost_name ≡ change.old.conn.ghost_name }
    ensures nothing { CommitsNothing S.Store change.old.conn.now change.new.conn.now }
{
    if start >= end {
        return Ok(());
    }
    if at_once == 0 {
        return Ok(());
    }
    let text = addition(alloc, at_once)?;
    let add = prepared(change, text.as_str())?;
    for first in (start..end).step_by(at_once as usize) {
        add_some(alloc, change, &add, rows, first, at_once)?;
    }
    Ok(())
}

fn prepared<S: Alter>(change: &mut Transaction<'_, S>, text: &str) -> Result<Statement, Refused>
    ensures same { change.new.conn.ghost_name ≡ change.old.conn.ghost_name }
    ensures nothing { CommitsNothing S.Store change.old.conn.now change.new.conn.now }
{
    Ok(change.prepare(text)?)
}

// Adds so many rows from a number on, by a statement that takes so many.
#[tactic(auto, using(crate::proofs::Crashes::nothing_yet))]
fn add_some<S: Alter>(
    alloc: Global,
    change: &mut Transaction<'_, S>,
    add: &Statement,
    rows: &Rows,
    first: u64,
    count: u64,
) -> Result<(), Refused>
    ensures same { change.new.conn.ghost_name ≡ change.old.conn.ghost_name }
    ensures nothing { CommitsNothing S.Store change.old.conn.now change.new.conn.now }
{
    let given = given_from(alloc, rows, first, count)?;
    let values = values_of(alloc, &given)?;
    change.execute_prepared(add, &values)?;
    Ok(())
}

// The statement that adds so many rows, at least one.
fn addition(alloc: Global, count: u64) -> Result<String, Refused> {
    let mut text = String::from_str(alloc, ADD_ROW)?;
    for _ in 1..count {
        text.push_str(ADD_ANOTHER)?;
    }
    Ok(text)
}

// A row as a statement takes it.
#[derive(Drop)]
struct Given<'a> {
    digits: Vec<u8>,
    line: &'a [u8],
}

// So many rows from a number on, as far as there are any.
fn given_from<'a>(
    alloc: Global,
    rows: &'a Rows,
    first: u64,
    count: u64,
) -> Result<Vec<Given<'a>>, Refused> {
    let end = rows.len().min(first.saturating_add(count));
    let mut given = Vec::new(alloc);
    for i in first..end {
        let row = rows.get(i);
        let mut digits = Vec::new(alloc);
        push_digits(row.path, &mut digits)?;
        let put = given.push(Given {
            digits,
            line: row.line.bytes(),
        });
        if put.is_err() {
            return Err(Refused::Memory);
        }
    }
    Ok(given)
}

// The values of rows, in the order of a statement's places.
fn values_of<'a>(alloc: Global, given: &'a [Given<'_>]) -> Result<Vec<ValueRef<'a>>, Refused> {
    let mut values = Vec::new(alloc);
    for row in given {
        put_value(&mut values, &row.digits)?;
        put_value(&mut values, row.line)?;
    }
    Ok(values)
}

fn put_value<'a>(values: &mut Vec<ValueRef<'a>>, text: &'a [u8]) -> Result<(), Refused> {
    match values.push(ValueRef::Text(text)) {
        Ok(()) => Ok(()),
        Err(_) => Err(Refused::Memory),
    }
}
