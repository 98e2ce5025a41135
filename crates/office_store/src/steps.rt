// The texts by which a store comes to be: each step from nothing to today's tables and a site's text.
ghost use Rattle.std.specs.Prelude.{◌≡◌, ◌<◌, length, map};
ghost use Rattle.sqlite.specs.Held.{state};
ghost use Rattle.office_sql.specs.Prelude.{SqlWrites};
ghost use Rattle.office_store.specs.Prelude.{text_of, HasRun, HaveRun};

use site_core::SiteText;
use sqlite::{Alter, Error, Transaction, params};

/// What a text takes of the site.
#[derive(Clone, Copy)]
pub enum Takes {
    Nothing,
    /// The site's text.
    Text,
    /// The SHA-256 of it.
    Name,
}

/// A text of SQL, with what it takes of the site.
#[derive(Clone, Copy)]
pub struct Step<'a> {
    pub text: &'a str,
    pub takes: Takes,
}

/// Makes the table of what the store tells of itself.
const CREATE_META: &str =
    "CREATE TABLE meta (id INTEGER PRIMARY KEY, schema INTEGER NOT NULL, site BLOB NOT NULL) STRICT";

/// Makes the table of seats.
const CREATE_SEAT: &str =
    "CREATE TABLE seat (name TEXT NOT NULL, customer TEXT NOT NULL, last INTEGER NOT NULL, digest BLOB NOT NULL, reply TEXT NOT NULL, PRIMARY KEY (name)) STRICT";

/// Makes the table of maps.
const CREATE_MAP: &str =
    "CREATE TABLE map (id INTEGER PRIMARY KEY, body TEXT NOT NULL, digest BLOB NOT NULL, UNIQUE (body)) STRICT";

/// Makes the table of links.
const CREATE_LINK: &str =
    "CREATE TABLE link (customer TEXT NOT NULL, digest BLOB NOT NULL, map INTEGER NOT NULL, PRIMARY KEY (customer, digest), FOREIGN KEY (map) REFERENCES map (id)) STRICT";

/// Makes the table of records.
const CREATE_GIVEN: &str =
    "CREATE TABLE given (issuer TEXT NOT NULL, serial TEXT NOT NULL, customer TEXT NOT NULL, key BLOB NOT NULL, chip TEXT, mac TEXT, not_after TEXT NOT NULL, PRIMARY KEY (issuer, serial), UNIQUE (issuer, key), UNIQUE (mac, issuer, serial)) STRICT";

/// Makes the table of the ledger.
const CREATE_LEDGER: &str =
    "CREATE TABLE ledger (id INTEGER PRIMARY KEY, customer TEXT NOT NULL, chip TEXT NOT NULL, n INTEGER NOT NULL, event TEXT NOT NULL, note TEXT NOT NULL, seat TEXT NOT NULL, bits BLOB NOT NULL, keys BLOB NOT NULL, UNIQUE (customer, chip, n), FOREIGN KEY (customer, chip) REFERENCES device (customer, chip)) STRICT";

/// Makes the table of orders.
const CREATE_ORDERS: &str =
    "CREATE TABLE orders (customer TEXT NOT NULL, name TEXT NOT NULL, issuer TEXT NOT NULL, prefix TEXT NOT NULL, width INTEGER NOT NULL, first INTEGER NOT NULL, quantity INTEGER NOT NULL, macs INTEGER NOT NULL, mac TEXT, cursor INTEGER NOT NULL, PRIMARY KEY (customer, name)) STRICT";

/// Makes the table of devices.
const CREATE_DEVICE: &str =
    "CREATE TABLE device (customer TEXT NOT NULL, chip TEXT NOT NULL, ord TEXT NOT NULL, map BLOB NOT NULL, state TEXT NOT NULL, reason TEXT, bits BLOB NOT NULL, keys BLOB NOT NULL, todo BLOB NOT NULL, serial TEXT, PRIMARY KEY (customer, chip), FOREIGN KEY (customer, ord) REFERENCES orders (customer, name), FOREIGN KEY (customer, map) REFERENCES link (customer, digest)) STRICT";

/// Makes the table of orders' beginnings of validity.
const CREATE_ORDER_START: &str =
    "CREATE TABLE order_start (customer TEXT NOT NULL, ord TEXT NOT NULL, not_before TEXT, PRIMARY KEY (customer, ord), FOREIGN KEY (customer, ord) REFERENCES orders (customer, name)) STRICT";

/// Makes the table of records' beginnings of validity.
const CREATE_GIVEN_START: &str =
    "CREATE TABLE given_start (issuer TEXT NOT NULL, serial TEXT NOT NULL, not_before TEXT, PRIMARY KEY (issuer, serial), FOREIGN KEY (issuer, serial) REFERENCES given (issuer, serial)) STRICT";

/// Makes the table of the site's text.
const CREATE_SITE_TEXT: &str =
    "CREATE TABLE site_text (id INTEGER PRIMARY KEY, body TEXT NOT NULL) STRICT";

/// Tells that the store is of the first version, whose site isn't known yet.
const INSERT_INTO_META: &str = "INSERT INTO meta (id, schema, site) VALUES (1, 1, x'')";

/// Adds a row without a beginning of validity for each order.
const INSERT_NULL_INTO_ORDER_START: &str =
    "INSERT INTO order_start (customer, ord, not_before) SELECT customer, name, NULL FROM orders";

/// Adds a row without a beginning of validity for each record.
const INSERT_NULL_INTO_GIVEN_START: &str =
    "INSERT INTO given_start (issuer, serial, not_before) SELECT issuer, serial, NULL FROM given";

/// Holds no text yet.
const INSERT_INTO_SITE_TEXT: &str = "INSERT INTO site_text (id, body) VALUES (1, '')";

/// Holds the text of the site.
const UPDATE_OF_SITE_TEXT: &str = "UPDATE site_text SET body = ?1 WHERE id = 1";

/// Tells the third version, and the site.
const UPDATE_OF_META: &str = "UPDATE meta SET schema = 3, site = ?1 WHERE id = 1";

/// Drops the ledger.
const DROP_LEDGER: &str = "DROP TABLE ledger";

/// Drops `given`.
const DROP_GIVEN: &str = "DROP TABLE given";

// A text that takes nothing.
macro_rules! plain {
    ($text:expr) => {
        Step { text: $text, takes: Takes::Nothing }
    };
}

/// The steps in turn: nine to a store of the first version without a row, four to one of the second,
/// two to the tables of the third, and two that hold the text of a site and tell it.
pub const STEPS: [Step<'static>; 17] = [
    plain!(CREATE_META),
    plain!(CREATE_SEAT),
    plain!(CREATE_MAP),
    plain!(CREATE_LINK),
    plain!(CREATE_ORDERS),
    plain!(CREATE_DEVICE),
    plain!(CREATE_GIVEN),
    plain!(CREATE_LEDGER),
    plain!(INSERT_INTO_META),
    plain!(CREATE_ORDER_START),
    plain!(CREATE_GIVEN_START),
    plain!(INSERT_NULL_INTO_ORDER_START),
    plain!(INSERT_NULL_INTO_GIVEN_START),
    plain!(CREATE_SITE_TEXT),
    plain!(INSERT_INTO_SITE_TEXT),
    Step {
        text: UPDATE_OF_SITE_TEXT,
        takes: Takes::Text,
    },
    Step {
        text: UPDATE_OF_META,
        takes: Takes::Name,
    },
];

/// The steps that make `given` and the ledger of a store before the first version anew, with no row.
pub const ANEW: [Step<'static>; 4] = [
    plain!(DROP_LEDGER),
    plain!(DROP_GIVEN),
    plain!(CREATE_GIVEN),
    plain!(CREATE_LEDGER),
];

fn run_step<S: Alter>(
    tx: &mut Transaction<'_, S>,
    step: Step<'_>,
    site: &SiteText,
) -> Result<(), Error>
    ensures same_reference { tx.new.conn.ghost_name ≡ tx.old.conn.ghost_name }
    ensures changes { SqlWrites S.Store tx.old.conn.now tx.new.conn.now result
        (λ old new _. HasRun S.Store (text_of step.entry) site.now.text old new) }
{
    match step.takes {
        Takes::Nothing => tx.execute(step.text, &[])?,
        Takes::Text => tx.execute(step.text, params![site.text()])?,
        Takes::Name => tx.execute(step.text, params![site.digest().as_bytes().as_slice()])?,
    };
    Ok(())
}

/// Runs the texts of steps, one after another.
pub fn run_steps<S: Alter>(
    tx: &mut Transaction<'_, S>,
    steps: &[Step<'_>],
    site: &SiteText,
) -> Result<(), Error>
    requires some { 0 < length steps.now }
    ensures same_reference { tx.new.conn.ghost_name ≡ tx.old.conn.ghost_name }
    ensures changes { SqlWrites S.Store tx.old.conn.now tx.new.conn.now result
        (λ old new _. HaveRun S.Store (map text_of steps.now) site.now.text old new) }
{
    for step in steps {
        run_step(tx, *step, site)?;
    }
    Ok(())
}
