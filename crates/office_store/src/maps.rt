// The fuse maps that the texts of maps describe.
ghost use Rattle.std.specs.Prelude.{◌≡◌, option_and_then, IfOk, IsOkAnd, IsTrue};
ghost use Rattle.sqlite.specs.State.{HasCleanDisk};
ghost use Rattle.sqlite.specs.Held.{state};
ghost use Rattle.fusemap_core.specs.Prelude.{map_in};
ghost use Rattle.fusemap_core.specs.Numbers.{AreMapsOfNumbers};
ghost use Rattle.office_sql.specs.Prelude.{SqlReads, HasOffice, tables_in};
ghost use Rattle.office_store.specs.Prelude.{fuse_map_at};

use fusemap_core::{FuseMap, NumberCache, map_of_text};
use office_sql as sql;
use office_tables::MapRow;
use sqlite::{Alter, Connection, Error, ErrorCode};
use std::alloc::Global;

/// The fuse map that the text of a row describes, where there is a row.
fn described(alloc: Global, row: Result<Option<MapRow>, Error>) -> Result<Option<FuseMap>, Error>
    ensures { IfOk result (λ map. IsOkAnd row (λ r. map ≡ option_and_then (λ m. map_in m.body) r)) }
{
    match row {
        Ok(Some(row)) => match map_of_text(alloc, &row.body) {
            Ok(map) => Ok(map),
            Err(_) => Err(Error::SqliteFailure(ErrorCode::OutOfMemory)),
        },
        Ok(None) => Ok(None),
        Err(error) => Err(error),
    }
}

/// Reads the fuse map of a number.
fn read_map<S: Alter>(
    alloc: Global,
    conn: &mut Connection<S>,
    id: u64,
) -> Result<Option<FuseMap>, Error>
    requires { HasOffice (state S.Store conn.old) }
    ensures { SqlReads S.Store conn.old conn.new result (λ t map. map ≡ fuse_map_at t id) }
{
    let row = sql::map_row(alloc, conn, id);
    described(alloc, row)
}

/// The fuse map of a number: the one that is kept, if there is one. What is read is kept, if there
/// is memory for it. A store that is shut tells neither.
pub(crate) fn fuse_map<S: Alter>(
    alloc: Global,
    conn: &mut Connection<S>,
    maps: &mut NumberCache,
    id: u64,
) -> Result<Option<FuseMap>, Error>
    requires office { HasOffice (state S.Store conn.old) }
    requires known { IsTrue (state S.Store conn.old).is_open
        → AreMapsOfNumbers (fuse_map_at (tables_in (state S.Store conn.old).now.trees)) maps.old }
    ensures asks { SqlReads S.Store conn.old conn.new result (λ t map. map ≡ fuse_map_at t id) }
    ensures right { IsTrue (state S.Store conn.old).is_open → HasCleanDisk (state S.Store conn.new)
        → AreMapsOfNumbers (fuse_map_at (tables_in (state S.Store conn.old).now.trees)) maps.new }
{
    if let Some(map) = maps.find(id) {
        return match sql::ask_open(conn) {
            Ok(()) => Ok(Some(map)),
            Err(error) => Err(error),
        };
    }
    match read_map(alloc, conn, id) {
        Ok(Some(map)) => {
            maps.keep(id, &map);
            Ok(Some(map))
        }
        Ok(None) => Ok(None),
        Err(error) => Err(error),
    }
}
