//! A store of schema 2, as the program of that schema took one of schema 1 to it and went on, and what is
//! served over it.
use crate::earlier::Earlier;
use crate::samples::{OTHER_SITE, SITE, SITE_WITH_A_POOL};
use crate::schema_one::{BEFORE_GIVEN, BEHIND_GIVEN, GIVEN};

/// What that program did to the store of schema 1: two tables more, in which no order and no record has a
/// beginning of validity, and the number.
const TAKEN_TO_TWO: &str = r#"
CREATE TABLE order_start (customer TEXT NOT NULL, ord TEXT NOT NULL, not_before TEXT, PRIMARY KEY (customer, ord), FOREIGN KEY (customer, ord) REFERENCES orders (customer, name)) STRICT;
CREATE TABLE given_start (issuer TEXT NOT NULL, serial TEXT NOT NULL, not_before TEXT, PRIMARY KEY (issuer, serial), FOREIGN KEY (issuer, serial) REFERENCES given (issuer, serial)) STRICT;
INSERT INTO order_start (customer, ord, not_before) SELECT customer, name, NULL FROM orders;
INSERT INTO given_start (issuer, serial, not_before) SELECT issuer, serial, NULL FROM given;
UPDATE meta SET schema = 2 WHERE id = 1;
"#;

/// What four requests of `a1` led to then: an order that has a beginning, and a device of it with its
/// identity. The seat's row has the last of them; its digest is by Python's hashlib.
const BEGUN: &str = r#"
INSERT INTO orders VALUES ('acme', 'begun', 'acme-ca', 'D', 3, 1, 2, 0, NULL, 2);
INSERT INTO order_start VALUES ('acme', 'begun', '20240229120000Z');
INSERT INTO device VALUES ('acme', '00000000000b', 'begun', x'$DIGEST', 'identified', NULL, x'$TIMES~124~00~', x'$TIMES~66~00~', x'$TIMES~314~00~', 'D001');
INSERT INTO given VALUES ('acme-ca', 'D001', 'acme', x'dbc1b4c900ffe48d575b5da5c638040125f65db0fe3e24494b76ea986457d986', '00000000000b', NULL, '99991231235959Z');
INSERT INTO given_start VALUES ('acme-ca', 'D001', '20240229120000Z');
INSERT INTO ledger VALUES (35, 'acme', '00000000000b', 1, 'registered', '', 'a1', x'$TIMES~124~00~', x'$TIMES~66~00~');
INSERT INTO ledger VALUES (36, 'acme', '00000000000b', 2, 'planned', '', 'a1', x'$TIMES~124~00~', x'$TIMES~66~00~');
INSERT INTO ledger VALUES (37, 'acme', '00000000000b', 3, 'identified', 'D001', 'a1', x'$TIMES~124~00~', x'$TIMES~66~00~');
UPDATE seat SET last = 38, digest = x'ffc55996ef8196cd0f148e37b5819b691532b8c69e3466e3cf0589deb04b6e99', reply = '{"chip":"00000000000b","issuer":"acme-ca","key_sha256":"dbc1b4c900ffe48d575b5da5c638040125f65db0fe3e24494b76ea986457d986","mac":null,"not_after":"99991231235959Z","not_before":"20240229120000Z","serial":"D001"}' WHERE name = 'a1';
"#;

/// What the books show: each order and each record has the beginning that it had, or none.
const SHOWN: &str = r#"
a1 GET /v1/order?name=with-macs
200 {"first":9,"issuer":"acme-ca","mac":"020000000010","macs":1,"name":"with-macs","next":"A0011",
  "not_before":null,"prefix":"A","quantity":3,"width":4}
a1 GET /v1/order?name=begun
200 {"first":1,"issuer":"acme-ca","mac":null,"macs":0,"name":"begun","next":"D002",
  "not_before":"20240229120000Z","prefix":"D","quantity":2,"width":3}
b1 GET /v1/order?name=with-macs
200 {"first":9,"issuer":"bolt-ca","mac":null,"macs":0,"name":"with-macs","next":null,
  "not_before":null,"prefix":"A","quantity":2,"width":4}
a1 GET /v1/device?chip=00000000000b
200 {"bits":[],"chip":"00000000000b","keys":{},"map":"$DIGEST","order":"begun",
  "pending":{"batch1":$NONE,"batch2":$NONE},"reason":null,"serial":"D001","state":"identified"}
a1 GET /v1/ledger?chip=00000000000b
200 {"chip":"00000000000b","entries":[
  {"bits":[],"event":"registered","keys":{},"n":1,"note":"","seat":"a1"},
  {"bits":[],"event":"planned","keys":{},"n":2,"note":"","seat":"a1"},
  {"bits":[],"event":"identified","keys":{},"n":3,"note":"D001","seat":"a1"}]}
manager GET /v1/site/report
csv customer,orders,quantity,registered,planned,settled,identified,shipped,quarantined,scrapped,serials_left|
  acme,3,14,1,2,1,3,1,1,1,7|
  bolt,1,2,0,0,0,1,0,0,0,0|
"#;

/// The last request of each seat again.
const REPEATED: &str = r#"
a1 POST /v1/identity {"nr":38,"chip":"00000000000b","public_key":"02"}
200 {"chip":"00000000000b","issuer":"acme-ca",
  "key_sha256":"dbc1b4c900ffe48d575b5da5c638040125f65db0fe3e24494b76ea986457d986","mac":null,
  "not_after":"99991231235959Z","not_before":"20240229120000Z","serial":"D001"}
b1 POST /v1/import {"nr":7,"issuer":"bolt-ca","csv":"serial,key_sha256\nA0010,c119101f900d88d36f3ffdbfa06f6238fb319a1b1b7996425bbc67c973dcd969\n"}
200 {"added":1,"present":0}
"#;

/// What is asked for then: an identity under an order from schema 1 and one under the order that has a
/// beginning.
const GOES_ON: &str = r#"
a1 POST /v1/identity {"nr":39,"chip":"000000000004","public_key":"00"}
200 {"chip":"000000000004","issuer":"acme-ca",
  "key_sha256":"6e340b9cffb37a989ca544e6bb780a2c78901d3fb33738768511a30617afa01d","mac":null,
  "not_after":"99991231235959Z","not_before":null,"serial":"B0013"}
a1 POST /v1/device {"nr":40,"chip":"00000000000c","order":"begun","map":"$DIGEST","blocks":<>}
200 {"bits":[],"chip":"00000000000c","keys":{},"map":"$DIGEST","order":"begun",
  "pending":{"batch1":$NONE,"batch2":$NONE},"reason":null,"serial":null,"state":"registered"}
a1 POST /v1/plan {"nr":41,"chip":"00000000000c","wishes":[]}
200 {"batch1":$NONE,"batch2":$NONE,"state":"settled"}
a1 POST /v1/identity {"nr":42,"chip":"00000000000c","public_key":"03"}
200 {"chip":"00000000000c","issuer":"acme-ca",
  "key_sha256":"084fed08b978af4d7d196a7446a86b58009e636b611db16211b65a9aadff29c5","mac":null,
  "not_after":"99991231235959Z","not_before":"20240229120000Z","serial":"D002"}
"#;

/// What the books show of orders once `GOES_ON` was asked for.
const SHOWN_THEN: &str = r#"
a1 GET /v1/order?name=without
200 {"first":9,"issuer":"acme-ca","mac":null,"macs":0,"name":"without","next":"B0014",
  "not_before":null,"prefix":"B","quantity":9,"width":4}
a1 GET /v1/order?name=begun
200 {"first":1,"issuer":"acme-ca","mac":null,"macs":0,"name":"begun","next":null,
  "not_before":"20240229120000Z","prefix":"D","quantity":2,"width":3}
"#;

/// The store, and what is asked for of it.
pub const TWO: Earlier = Earlier {
    schema: 2,
    sql: &[BEFORE_GIVEN, GIVEN, BEHIND_GIVEN, TAKEN_TO_TWO, BEGUN],
    shown: SHOWN,
    life: &[SHOWN, REPEATED, SHOWN, GOES_ON, SHOWN_THEN],
};

/// Changes of the store by SQL, the text of the site for which it is adopted then, and the number of the
/// fault, 0 where there is none. It is taken with its own text alone, and not with one that grew.
pub const CHANGED_TWO: &[(&str, &str, u8)] = &[
    ("", SITE, 0),
    ("", OTHER_SITE, 1),
    ("", SITE_WITH_A_POOL, 1),
    // Nothing but the site.
    (
        "DELETE FROM ledger; DELETE FROM given_start; DELETE FROM given; DELETE FROM device; DELETE FROM order_start; DELETE FROM orders; DELETE FROM link; DELETE FROM map; DELETE FROM seat",
        SITE,
        0,
    ),
    ("UPDATE meta SET schema = 1", SITE, 2),
    ("UPDATE meta SET schema = 3", SITE, 2),
    ("UPDATE meta SET schema = 3", OTHER_SITE, 2),
    ("UPDATE meta SET id = 2", SITE, 2),
    ("DELETE FROM meta", SITE, 2),
    ("DROP TABLE given_start", SITE, 2),
    // An order and a record without their starts. That the store is another site's comes first.
    ("DELETE FROM order_start", SITE, 2),
    ("DELETE FROM given_start", SITE, 2),
    ("DELETE FROM order_start", OTHER_SITE, 1),
    // The tables of schema 3, and the number of schema 2.
    (
        "CREATE TABLE site_text (id INTEGER PRIMARY KEY, body TEXT NOT NULL) STRICT",
        SITE,
        2,
    ),
];
