//! What a database lists, beside what a campaign's does.

use crate::faults::Refused;
use sqlite::types::ValueRef;
use sqlite::{Alter, Connection};

/// The table of the identity, as it is made and as it is listed.
pub(crate) const HEAD: &str = "CREATE TABLE head (
    id INTEGER PRIMARY KEY CHECK (id = 1), identity BLOB NOT NULL) STRICT";

/// The table of the rows.
pub(crate) const NODE: &str =
    "CREATE TABLE node (path TEXT PRIMARY KEY NOT NULL, line TEXT NOT NULL) STRICT";

/// The same tables as earlier versions made them.
const EARLIER_HEAD: &str = "CREATE TABLE IF NOT EXISTS head (
    id INTEGER PRIMARY KEY CHECK (id = 1), identity BLOB NOT NULL) STRICT";

const EARLIER_NODE: &str =
    "CREATE TABLE IF NOT EXISTS node (path TEXT PRIMARY KEY NOT NULL, line TEXT NOT NULL) STRICT";

/// How many objects there are, and how many of them are the table of the identity, the table of the
/// rows and the index of its key. Nothing of the database but its list is read.
const LISTED: &str = "SELECT count(*),
    coalesce(sum(type = 'table' AND name = 'head' AND tbl_name = 'head' AND sql IN (?1, ?2)), 0),
    coalesce(sum(type = 'table' AND name = 'node' AND tbl_name = 'node' AND sql IN (?3, ?4)), 0),
    coalesce(sum(type = 'index' AND name = 'sqlite_autoindex_node_1' AND tbl_name = 'node'
        AND sql IS NULL), 0)
FROM sqlite_master";

/// What a database lists.
#[derive(Clone, Copy)]
pub(crate) enum Listed {
    Nothing,
    /// A campaign's tables, by their texts, and the index of a key: all of them, and nothing else.
    Own,
    Other,
}

/// Reads the list of a database, before anything that it lists is looked at.
pub(crate) fn read_list<S: Alter>(connection: &mut Connection<S>) -> Result<Listed, Refused> {
    let texts = [
        ValueRef::Text(HEAD.as_bytes()),
        ValueRef::Text(EARLIER_HEAD.as_bytes()),
        ValueRef::Text(NODE.as_bytes()),
        ValueRef::Text(EARLIER_NODE.as_bytes()),
    ];
    let row = connection.query_row(LISTED, &texts)?;
    let mut counts = [0; 4];
    for i in 0..4 {
        counts[i] = row.get(i)?;
    }
    Ok(listed_by(counts))
}

fn listed_by(counts: [i64; 4]) -> Listed {
    if counts[0] == 0 {
        Listed::Nothing
    } else if counts == [3, 1, 1, 1] {
        Listed::Own
    } else {
        Listed::Other
    }
}
