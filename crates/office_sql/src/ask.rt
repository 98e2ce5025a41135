// Whether the store is open.
ghost use Rattle.std.specs.Prelude.{⊤};
ghost use Rattle.office_sql.specs.Prelude.{SqlReads};

use sqlite::{Alter, Connection, Error};

/// Asks whether the store is open. The empty text is a statement that reads no page.
///
/// # Errors
///
/// `Closed` where the store is shut, and want of memory.
pub fn ask_open<S: Alter>(conn: &mut Connection<S>) -> Result<(), Error>
    ensures { SqlReads S.Store conn.old conn.new result (λ _ _. ⊤) }
{
    match conn.prepare("") {
        Ok(_) => Ok(()),
        Err(error) => Err(error),
    }
}
