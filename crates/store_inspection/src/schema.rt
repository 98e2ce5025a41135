// The schema of an opened database, tested column by column, so that a file with other tables is
// refused and not misread.
ghost use Rattle.std.specs.Prelude.{◌≡◌, ◌↔◌, IsTrue, IfSome, IfNone, map, []};
ghost use Rattle.sqlite_value.specs.Keys.{plain};
ghost use Rattle.store_inspection.specs.Prelude.{column_of_form, reference_of, table_of_form, index_of, with_columns, with_table_keys, schema_of_forms, bare};
ghost use Rattle.store_inspection.specs.Prelude.{schema_of, IsOfNoVersion};
ghost use Rattle.office_sql.specs.Schema as spec;

use crate::version::Version;
use sqlite_items::Items;
use sqlite_schema::code::Terms;
use sqlite_schema::schema::{Action, Column, Index, Kind, Reference, Schema, Stamps, Table};
use sqlite_value::keys::{Collation, Order};
use sqlite_value::value::{Bytes, Value};

/// A column as the office has it, of a strict table and with no default: its name, its kind, and
/// whether each row must have it.
#[derive(Clone, Copy)]
struct ColumnForm<'a>(&'a [u8], Kind, bool);

/// A reference as the office has it: tested after each statement, with no action.
#[derive(Clone, Copy)]
struct ReferenceForm<'a> {
    columns: &'a [usize],
    parent: &'a [u8],
    names: &'a [&'a [u8]],
}

/// A table as the office has it: with no check, and no default that is computed.
#[derive(Clone, Copy)]
struct TableForm<'a> {
    tree: u32,
    name: &'a [u8],
    columns: &'a [ColumnForm<'a>],
    key: Option<usize>,
    primary: &'a [usize],
    uniques: &'a [&'a [usize]],
    references: &'a [ReferenceForm<'a>],
}

/// An index as the office has it, unique, and each column ascends by its bytes: its tree, its name,
/// the tree of its table, and its columns.
#[derive(Clone, Copy)]
struct IndexForm<'a>(u32, &'a [u8], u32, &'a [usize]);

/// A description of a part of a schema.
trait Describes<T> {
    /// The part that is described.
    ghost part: { Self → T };

    /// Whether what was found is the part that is described.
    fn fits(&self, found: &T) -> bool
        ensures { IsTrue result ↔ (found.now ≡ part self.now) };
}

/// Whether what was found are the parts that are described, in their order.
fn are_all<T, D: Describes<T>>(found: &[T], forms: &[D]) -> bool
    ensures { IsTrue result ↔ (found.now ≡ map D.part forms.now) }
{
    if found.len() != forms.len() {
        return false;
    }
    for (at, form) in forms.iter().enumerate() {
        if !form.fits(&found[at]) {
            return false;
        }
    }
    true
}

fn is_named(name: &Bytes, wanted: &[u8]) -> bool
    ensures { IsTrue result ↔ (name.now ≡ wanted.now) }
{
    name.as_slice() == wanted
}

impl Describes<Bytes> for &[u8] {
    ghost part = { λ name. name.now };

    fn fits(&self, found: &Bytes) -> bool {
        is_named(found, *self)
    }
}

fn is_plain(order: Order) -> bool
    ensures { IsTrue result ↔ (order ≡ plain) }
{
    order.digits == 0
}

fn are_places(places: &[usize], wanted: &[usize]) -> bool
    ensures { IsTrue result ↔ (places.now ≡ wanted.now) }
{
    places == wanted
}

impl Describes<Items<usize>> for &[usize] {
    ghost part = { λ places. places.now };

    fn fits(&self, found: &Items<usize>) -> bool {
        are_places(found.as_slice(), *self)
    }
}

fn is_no_term(terms: &Terms) -> bool
    ensures { IsTrue result ↔ (terms.now ≡ []) }
{
    terms.roots.is_empty()
}

fn has_rule(column: &Column, kind: Kind, required: bool) -> bool
    ensures { IsTrue result ↔ (column.now ≡ spec.column column.now.name kind required) }
{
    column.kind == kind
        && column.is_strict
        && column.not_null == required
        && matches!(column.default, Value::Null)
        && matches!(column.collation, Collation::Binary)
}

impl Describes<Column> for ColumnForm<'_> {
    ghost part = { column_of_form };

    fn fits(&self, found: &Column) -> bool {
        is_named(&found.name, self.0) && has_rule(found, self.1, self.2)
    }
}

fn is_at_once(reference: &Reference) -> bool
    ensures { IsTrue result ↔ (reference.now
        ≡ spec.to reference.now.columns reference.now.parent reference.now.parent_columns) }
{
    matches!(reference.on_delete, Action::NoAction)
        && matches!(reference.on_update, Action::NoAction)
        && !reference.is_deferred
}

impl Describes<Reference> for ReferenceForm<'_> {
    ghost part = { reference_of };

    fn fits(&self, found: &Reference) -> bool {
        are_places(found.columns.as_slice(), self.columns)
            && is_named(&found.parent, self.parent)
            && are_all(found.parent_columns.as_slice(), self.names)
            && is_at_once(found)
    }
}

impl Describes<Order> for &[usize] {
    ghost part = { λ _. plain };

    fn fits(&self, found: &Order) -> bool {
        is_plain(*found)
    }
}

fn has_plain_orders(table: &Table, form: TableForm<'_>) -> bool
    ensures { IsTrue result
        ↔ (table.now.orders ≡ map (λ _. plain) (map (λ places. places.now) form.entry.uniques.now)) }
{
    are_all(table.orders.as_slice(), form.uniques)
}

fn is_no_stamp(stamps: &Stamps) -> bool
    ensures { IsTrue result ↔ (stamps.now ≡ record { places = []; terms = []; formats = [] }) }
{
    stamps.places.is_empty() && is_no_term(&stamps.terms) && stamps.formats.is_empty()
}

impl Describes<Index> for IndexForm<'_> {
    ghost part = { index_of };

    fn fits(&self, found: &Index) -> bool {
        found.tree == self.0
            && is_named(&found.name, self.1)
            && found.table == self.2
            && are_places(found.columns.as_slice(), self.3)
            && is_plain(found.order)
            && found.is_unique
    }
}

/// Whether the database has nothing in it.
pub fn is_empty_schema(schema: &Schema) -> bool
    ensures { IsTrue result ↔ (schema.now ≡ spec.no_schema) }
{
    schema.tables.is_empty() && schema.indexes.is_empty() && schema.views.is_empty()
}

fn has_columns(table: &Table, form: TableForm<'_>) -> bool
    ensures { IsTrue result ↔ (table.now ≡ with_columns form.entry table.now) }
{
    table.tree == form.tree
        && is_named(&table.name, form.name)
        && are_all(table.columns.as_slice(), form.columns)
}

fn has_keys(table: &Table, form: TableForm<'_>) -> bool
    ensures { IsTrue result ↔ (table.now ≡ with_table_keys form.entry table.now) }
{
    table.key == form.key
        && are_places(table.primary.as_slice(), form.primary)
        && are_all(table.uniques.as_slice(), form.uniques)
        && has_plain_orders(table, form)
}

fn is_bare(table: &Table) -> bool
    ensures { IsTrue result ↔ (table.now ≡ bare table.now) }
{
    is_no_term(&table.checks)
        && table.computed.is_empty()
        && is_no_stamp(&table.stamps)
        && !table.is_counted
}

fn is_table(table: &Table, form: TableForm<'_>) -> bool
    ensures { IsTrue result ↔ (table.now ≡ table_of_form form.entry) }
{
    if !has_columns(table, form) {
        return false;
    }
    if !has_keys(table, form) {
        return false;
    }
    if !is_bare(table) {
        return false;
    }
    are_all(table.references.as_slice(), form.references)
}

impl Describes<Table> for TableForm<'_> {
    ghost part = { table_of_form };

    fn fits(&self, found: &Table) -> bool {
        is_table(found, *self)
    }
}

const META: TableForm<'static> = TableForm {
    tree: 0,
    name: b"meta",
    columns: &[
        ColumnForm(b"id", Kind::Integer, false),
        ColumnForm(b"schema", Kind::Integer, true),
        ColumnForm(b"site", Kind::Blob, true),
    ],
    key: Some(0),
    primary: &[0],
    uniques: &[],
    references: &[],
};

const SEAT: TableForm<'static> = TableForm {
    tree: 1,
    name: b"seat",
    columns: &[
        ColumnForm(b"name", Kind::Text, true),
        ColumnForm(b"customer", Kind::Text, true),
        ColumnForm(b"last", Kind::Integer, true),
        ColumnForm(b"digest", Kind::Blob, true),
        ColumnForm(b"reply", Kind::Text, true),
    ],
    key: None,
    primary: &[1],
    uniques: &[&[1]],
    references: &[],
};

const MAP: TableForm<'static> = TableForm {
    tree: 3,
    name: b"map",
    columns: &[
        ColumnForm(b"id", Kind::Integer, false),
        ColumnForm(b"body", Kind::Text, true),
        ColumnForm(b"digest", Kind::Blob, true),
    ],
    key: Some(0),
    primary: &[0],
    uniques: &[&[2]],
    references: &[],
};

const LINK: TableForm<'static> = TableForm {
    tree: 5,
    name: b"link",
    columns: &[
        ColumnForm(b"customer", Kind::Text, true),
        ColumnForm(b"digest", Kind::Blob, true),
        ColumnForm(b"map", Kind::Integer, true),
    ],
    key: None,
    primary: &[1, 2],
    uniques: &[&[1, 2]],
    references: &[ReferenceForm {
        columns: &[3],
        parent: b"map",
        names: &[b"id"],
    }],
};

const ORDERS: TableForm<'static> = TableForm {
    tree: 7,
    name: b"orders",
    columns: &[
        ColumnForm(b"customer", Kind::Text, true),
        ColumnForm(b"name", Kind::Text, true),
        ColumnForm(b"issuer", Kind::Text, true),
        ColumnForm(b"prefix", Kind::Text, true),
        ColumnForm(b"width", Kind::Integer, true),
        ColumnForm(b"first", Kind::Integer, true),
        ColumnForm(b"quantity", Kind::Integer, true),
        ColumnForm(b"macs", Kind::Integer, true),
        ColumnForm(b"mac", Kind::Text, false),
        ColumnForm(b"cursor", Kind::Integer, true),
    ],
    key: None,
    primary: &[1, 2],
    uniques: &[&[1, 2]],
    references: &[],
};

const DEVICE: TableForm<'static> = TableForm {
    tree: 9,
    name: b"device",
    columns: &[
        ColumnForm(b"customer", Kind::Text, true),
        ColumnForm(b"chip", Kind::Text, true),
        ColumnForm(b"ord", Kind::Text, true),
        ColumnForm(b"map", Kind::Blob, true),
        ColumnForm(b"state", Kind::Text, true),
        ColumnForm(b"reason", Kind::Text, false),
        ColumnForm(b"bits", Kind::Blob, true),
        ColumnForm(b"keys", Kind::Blob, true),
        ColumnForm(b"todo", Kind::Blob, true),
        ColumnForm(b"serial", Kind::Text, false),
    ],
    key: None,
    primary: &[1, 2],
    uniques: &[&[1, 2]],
    references: &[
        ReferenceForm {
            columns: &[1, 3],
            parent: b"orders",
            names: &[b"customer", b"name"],
        },
        ReferenceForm {
            columns: &[1, 4],
            parent: b"link",
            names: &[b"customer", b"digest"],
        },
    ],
};

const GIVEN: TableForm<'static> = TableForm {
    tree: 11,
    name: b"given",
    columns: &[
        ColumnForm(b"issuer", Kind::Text, true),
        ColumnForm(b"serial", Kind::Text, true),
        ColumnForm(b"customer", Kind::Text, true),
        ColumnForm(b"key", Kind::Blob, true),
        ColumnForm(b"chip", Kind::Text, false),
        ColumnForm(b"mac", Kind::Text, false),
        ColumnForm(b"not_after", Kind::Text, true),
    ],
    key: None,
    primary: &[1, 2],
    uniques: &[&[1, 2], &[1, 4], &[6, 1, 2]],
    references: &[],
};

const LEDGER: TableForm<'static> = TableForm {
    tree: 15,
    name: b"ledger",
    columns: &[
        ColumnForm(b"id", Kind::Integer, false),
        ColumnForm(b"customer", Kind::Text, true),
        ColumnForm(b"chip", Kind::Text, true),
        ColumnForm(b"n", Kind::Integer, true),
        ColumnForm(b"event", Kind::Text, true),
        ColumnForm(b"note", Kind::Text, true),
        ColumnForm(b"seat", Kind::Text, true),
        ColumnForm(b"bits", Kind::Blob, true),
        ColumnForm(b"keys", Kind::Blob, true),
    ],
    key: Some(0),
    primary: &[0],
    uniques: &[&[2, 3, 4]],
    references: &[ReferenceForm {
        columns: &[2, 3],
        parent: b"device",
        names: &[b"customer", b"chip"],
    }],
};

const ORDER_START: TableForm<'static> = TableForm {
    tree: 17,
    name: b"order_start",
    columns: &[
        ColumnForm(b"customer", Kind::Text, true),
        ColumnForm(b"ord", Kind::Text, true),
        ColumnForm(b"not_before", Kind::Text, false),
    ],
    key: None,
    primary: &[1, 2],
    uniques: &[&[1, 2]],
    references: &[ReferenceForm {
        columns: &[1, 2],
        parent: b"orders",
        names: &[b"customer", b"name"],
    }],
};

const GIVEN_START: TableForm<'static> = TableForm {
    tree: 19,
    name: b"given_start",
    columns: &[
        ColumnForm(b"issuer", Kind::Text, true),
        ColumnForm(b"serial", Kind::Text, true),
        ColumnForm(b"not_before", Kind::Text, false),
    ],
    key: None,
    primary: &[1, 2],
    uniques: &[&[1, 2]],
    references: &[ReferenceForm {
        columns: &[1, 2],
        parent: b"given",
        names: &[b"issuer", b"serial"],
    }],
};

const SITE_TEXT: TableForm<'static> = TableForm {
    tree: 21,
    name: b"site_text",
    columns: &[
        ColumnForm(b"id", Kind::Integer, false),
        ColumnForm(b"body", Kind::Text, true),
    ],
    key: Some(0),
    primary: &[0],
    uniques: &[],
    references: &[],
};

const SEAT_KEY: IndexForm<'static> = IndexForm(2, b"sqlite_autoindex_seat_1", 1, &[1]);

const MAP_KEY: IndexForm<'static> = IndexForm(4, b"sqlite_autoindex_map_1", 3, &[2]);

const LINK_KEY: IndexForm<'static> = IndexForm(6, b"sqlite_autoindex_link_1", 5, &[1, 2]);

const ORDERS_KEY: IndexForm<'static> = IndexForm(8, b"sqlite_autoindex_orders_1", 7, &[1, 2]);

const DEVICE_KEY: IndexForm<'static> = IndexForm(10, b"sqlite_autoindex_device_1", 9, &[1, 2]);

const GIVEN_KEY: IndexForm<'static> = IndexForm(12, b"sqlite_autoindex_given_1", 11, &[1, 2]);

const GIVEN_PUBLIC_KEY: IndexForm<'static> = IndexForm(
    13,
    b"sqlite_autoindex_given_2",
    11,
    &[1, 4],
);

const LEDGER_KEY: IndexForm<'static> = IndexForm(16, b"sqlite_autoindex_ledger_1", 15, &[2, 3, 4]);

/// The tables, in the order in which they are made.
const TABLES: [TableForm<'static>; 11] = [
    META,
    SEAT,
    MAP,
    LINK,
    ORDERS,
    DEVICE,
    GIVEN,
    LEDGER,
    ORDER_START,
    GIVEN_START,
    SITE_TEXT,
];

/// The indexes of their keys, in the same order.
const INDEXES: [IndexForm<'static>; 11] = [
    SEAT_KEY,
    MAP_KEY,
    LINK_KEY,
    ORDERS_KEY,
    DEVICE_KEY,
    GIVEN_KEY,
    GIVEN_PUBLIC_KEY,
    IndexForm(14, b"sqlite_autoindex_given_3", 11, &[6, 1, 2]),
    LEDGER_KEY,
    IndexForm(18, b"sqlite_autoindex_order_start_1", 17, &[1, 2]),
    IndexForm(20, b"sqlite_autoindex_given_start_1", 19, &[1, 2]),
];

// The tables of a version before the first, with the keys of its `given`.
macro_rules! first_tables {
    ($keys:expr) => {
        [META, SEAT, MAP, LINK, ORDERS, DEVICE, TableForm { uniques: $keys, ..GIVEN }, LEDGER]
    };
}

// The indexes of their keys, with those of `given`.
macro_rules! first_indexes {
    ($($given:expr),+) => {
        [SEAT_KEY, MAP_KEY, LINK_KEY, ORDERS_KEY, DEVICE_KEY, $($given),+, LEDGER_KEY]
    };
}

/// The tables of the first program.
const V1A_TABLES: [TableForm<'static>; 8] = first_tables!(&[&[1, 2], &[1, 4], &[6]]);

/// The indexes of their keys.
const V1A_INDEXES: [IndexForm<'static>; 9] = first_indexes!(
    GIVEN_KEY,
    GIVEN_PUBLIC_KEY,
    IndexForm(14, b"sqlite_autoindex_given_3", 11, &[6])
);

/// The tables of the program after it.
const V1B_TABLES: [TableForm<'static>; 8] = first_tables!(&[&[6], &[1, 2], &[1, 4]]);

/// The indexes of their keys.
const V1B_INDEXES: [IndexForm<'static>; 9] = first_indexes!(
    IndexForm(12, b"sqlite_autoindex_given_1", 11, &[6]),
    IndexForm(13, b"sqlite_autoindex_given_2", 11, &[1, 2]),
    IndexForm(14, b"sqlite_autoindex_given_3", 11, &[1, 4])
);

fn has_forms(schema: &Schema, tables: &[TableForm<'_>], indexes: &[IndexForm<'_>]) -> bool
    ensures { IsTrue result ↔ (schema.now ≡ schema_of_forms tables.now indexes.now) }
{
    are_all(schema.tables.as_slice(), tables)
        && are_all(schema.indexes.as_slice(), indexes)
        && schema.views.is_empty()
}

fn is_of(schema: &Schema, version: Version) -> bool
    ensures { IsTrue result ↔ (schema.now ≡ schema_of version) }
{
    match version {
        Version::V1a => has_forms(schema, &V1A_TABLES, &V1A_INDEXES),
        Version::V1b => has_forms(schema, &V1B_TABLES, &V1B_INDEXES),
        Version::V1 => has_forms(schema, &TABLES[..8], &INDEXES[..9]),
        Version::V2 => has_forms(schema, &TABLES[..10], &INDEXES),
        Version::V3 => has_forms(schema, &TABLES, &INDEXES),
    }
}

/// Which schema of the office the database has, if one: each column and key is as it has to be.
pub fn version_of(schema: &Schema) -> Option<Version>
    ensures some { IfSome result (λ version. schema.now ≡ schema_of version) }
    ensures none { IfNone result (IsOfNoVersion schema.now) }
{
    if is_of(schema, Version::V1a) {
        Some(Version::V1a)
    } else if is_of(schema, Version::V1b) {
        Some(Version::V1b)
    } else if is_of(schema, Version::V1) {
        Some(Version::V1)
    } else if is_of(schema, Version::V2) {
        Some(Version::V2)
    } else if is_of(schema, Version::V3) {
        Some(Version::V3)
    } else {
        None
    }
}
