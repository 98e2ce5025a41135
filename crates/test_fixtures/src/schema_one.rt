//! A store of schema 1, as the program wrote it before records had a beginning of validity, and what is
//! served over it.
use crate::earlier::Earlier;
use crate::samples::{OTHER_SITE, SITE, SITE_WITH_A_POOL};

/// The store as SQL that makes it anew, in three parts: its tables in the order in which they were made, and
/// their rows. It is `bench/schema1.sql`, with `$TEXT` in place of the sample map's text, its digest and long
/// runs of zeros by their placeholders. Two customers have orders with addresses and without, a map that both
/// imported, a device in each state, serial numbers that an import brought, and the reply of each seat's last
/// request.
pub const BEFORE_GIVEN: &str =
    r#"CREATE TABLE meta (id INTEGER PRIMARY KEY, schema INTEGER NOT NULL, site BLOB NOT NULL) STRICT;
CREATE TABLE seat (name TEXT NOT NULL, customer TEXT NOT NULL, last INTEGER NOT NULL, digest BLOB NOT NULL, reply TEXT NOT NULL, PRIMARY KEY (name)) STRICT;
CREATE TABLE map (id INTEGER PRIMARY KEY, body TEXT NOT NULL, digest BLOB NOT NULL, UNIQUE (body)) STRICT;
CREATE TABLE link (customer TEXT NOT NULL, digest BLOB NOT NULL, map INTEGER NOT NULL, PRIMARY KEY (customer, digest), FOREIGN KEY (map) REFERENCES map (id)) STRICT;
CREATE TABLE orders (customer TEXT NOT NULL, name TEXT NOT NULL, issuer TEXT NOT NULL, prefix TEXT NOT NULL, width INTEGER NOT NULL, first INTEGER NOT NULL, quantity INTEGER NOT NULL, macs INTEGER NOT NULL, mac TEXT, cursor INTEGER NOT NULL, PRIMARY KEY (customer, name)) STRICT;
CREATE TABLE device (customer TEXT NOT NULL, chip TEXT NOT NULL, ord TEXT NOT NULL, map BLOB NOT NULL, state TEXT NOT NULL, reason TEXT, bits BLOB NOT NULL, keys BLOB NOT NULL, todo BLOB NOT NULL, serial TEXT, PRIMARY KEY (customer, chip), FOREIGN KEY (customer, ord) REFERENCES orders (customer, name), FOREIGN KEY (customer, map) REFERENCES link (customer, digest)) STRICT;
"#;

/// Its table `given`.
pub const GIVEN: &str =
    "CREATE TABLE given (issuer TEXT NOT NULL, serial TEXT NOT NULL, customer TEXT NOT NULL, key BLOB NOT NULL, chip TEXT, mac TEXT, not_after TEXT NOT NULL, PRIMARY KEY (issuer, serial), UNIQUE (issuer, key), UNIQUE (mac, issuer, serial)) STRICT;\n";

/// The ledger, and the rows of all tables.
pub const BEHIND_GIVEN: &str =
    r#"CREATE TABLE ledger (id INTEGER PRIMARY KEY, customer TEXT NOT NULL, chip TEXT NOT NULL, n INTEGER NOT NULL, event TEXT NOT NULL, note TEXT NOT NULL, seat TEXT NOT NULL, bits BLOB NOT NULL, keys BLOB NOT NULL, UNIQUE (customer, chip, n), FOREIGN KEY (customer, chip) REFERENCES device (customer, chip)) STRICT;
INSERT INTO meta VALUES (1, 1, x'57ba0f753ed41ffe5734c9f5a8648bfa0b2304459a94f590d3bd5c9ea74c431c');
INSERT INTO seat VALUES ('a1', 'acme', 34, x'76b71bf1784f7502a9755d317fe3758a541941a04bcdd4f3a083a8c5b7498c70', '{"chip":"000000000009","issuer":"acme-ca","key_sha256":"2c9b255b3fa784b93c407cd04bc84674dcd7ea867a5903be37bd09a88101cd83","mac":null,"not_after":"99991231235959Z","serial":"B0011"}');
INSERT INTO seat VALUES ('b1', 'bolt', 7, x'f8cbd84ed620d5dd99249d832006bd5b36faeb508f3fd74021ef866a9aed3684', '{"added":1,"present":0}');
INSERT INTO map VALUES (1, '$TEXT', x'$DIGEST');
INSERT INTO link VALUES ('acme', x'$DIGEST', 1);
INSERT INTO link VALUES ('bolt', x'$DIGEST', 1);
INSERT INTO orders VALUES ('acme', 'with-macs', 'acme-ca', 'A', 4, 9, 3, 1, '020000000010', 11);
INSERT INTO orders VALUES ('acme', 'without', 'acme-ca', 'B', 4, 9, 9, 0, NULL, 12);
INSERT INTO orders VALUES ('bolt', 'with-macs', 'bolt-ca', 'A', 4, 9, 2, 0, NULL, 10);
INSERT INTO device VALUES ('acme', '000000000001', 'without', x'$DIGEST', 'registered', NULL, x'$TIMES~124~00~', x'$TIMES~66~00~', x'$TIMES~314~00~', NULL);
INSERT INTO device VALUES ('acme', '000000000002', 'without', x'$DIGEST', 'awaiting1', NULL, x'$TIMES~124~00~', x'$TIMES~66~00~', x'$TIMES~24~00~40$TIMES~289~00~', NULL);
INSERT INTO device VALUES ('acme', '000000000003', 'without', x'$DIGEST', 'awaiting2', NULL, x'$TIMES~124~00~', x'01630dcd2966c4336691125448bbb25b4ff412a49c732db2c8abc1b8581bd710dd$TIMES~33~00~', x'$TIMES~124~00~800001$TIMES~187~00~', NULL);
INSERT INTO device VALUES ('acme', '000000000004', 'without', x'$DIGEST', 'settled', NULL, x'$TIMES~24~00~40$TIMES~99~00~', x'$TIMES~66~00~', x'$TIMES~314~00~', NULL);
INSERT INTO device VALUES ('acme', '000000000005', 'with-macs', x'$DIGEST', 'identified', NULL, x'$TIMES~24~00~40$TIMES~99~00~', x'$TIMES~66~00~', x'$TIMES~314~00~', 'A0009');
INSERT INTO device VALUES ('acme', '000000000006', 'with-macs', x'$DIGEST', 'shipped', NULL, x'$TIMES~24~00~40$TIMES~99~00~', x'$TIMES~66~00~', x'$TIMES~314~00~', 'A0010');
INSERT INTO device VALUES ('acme', '000000000007', 'without', x'$DIGEST', 'quarantined', 'stray', x'$TIMES~24~00~4001$TIMES~98~00~', x'$TIMES~66~00~', x'$TIMES~314~00~', NULL);
INSERT INTO device VALUES ('acme', '000000000008', 'without', x'$DIGEST', 'scrapped', NULL, x'$TIMES~24~00~40$TIMES~99~00~', x'$TIMES~66~00~', x'$TIMES~314~00~', 'B0009');
INSERT INTO device VALUES ('acme', '000000000009', 'without', x'$DIGEST', 'identified', NULL, x'$TIMES~24~00~40$TIMES~99~00~', x'$TIMES~66~00~', x'$TIMES~314~00~', 'B0011');
INSERT INTO device VALUES ('bolt', '000000000001', 'with-macs', x'$DIGEST', 'identified', NULL, x'$TIMES~24~00~40$TIMES~99~00~', x'$TIMES~66~00~', x'$TIMES~314~00~', 'A0009');
INSERT INTO given VALUES ('acme-ca', 'A0009', 'acme', x'b3de8d11ed29d284fa9f064bf11a89a78ed549405c90e4610b0000d336633ca4', '000000000005', '020000000010', '99991231235959Z');
INSERT INTO given VALUES ('acme-ca', 'A0010', 'acme', x'5de10aa8def0982ac777395a1ce3f4022339f1f9b8117f90b55e97a31fd2af08', '000000000006', '020000000011', '99991231235959Z');
INSERT INTO given VALUES ('acme-ca', 'B0009', 'acme', x'048096947e591ad72b48dfa4917525e652d07ee9abff840ee673fd85a6ff82a2', '000000000008', NULL, '99991231235959Z');
INSERT INTO given VALUES ('acme-ca', 'B0010', 'acme', x'd1a58e5b0fca33931f992eea2af1232ce96678038ba76e30a92ab3f11a8f743a', NULL, NULL, '99991231235959Z');
INSERT INTO given VALUES ('acme-ca', 'B0012', 'acme', x'a3dd5c5dcd3a9e2cdba11ef6404d42bc22e71f31d74fd14ca67275856d7ded9e', NULL, NULL, '99991231235959Z');
INSERT INTO given VALUES ('acme-ca', 'C0001', 'acme', x'a1d8410fbe469cf450c6f74c6b1c3e19c373a60a6cbb534ad132b06eb34c6c3e', NULL, NULL, '99991231235959Z');
INSERT INTO given VALUES ('acme-ca', 'B0011', 'acme', x'2c9b255b3fa784b93c407cd04bc84674dcd7ea867a5903be37bd09a88101cd83', '000000000009', NULL, '99991231235959Z');
INSERT INTO given VALUES ('bolt-ca', 'A0009', 'bolt', x'f39420dbe14caee4a41f6751031f9c21323eb09996512f3fce4c90c5758e0945', '000000000001', NULL, '99991231235959Z');
INSERT INTO given VALUES ('bolt-ca', 'A0010', 'bolt', x'c119101f900d88d36f3ffdbfa06f6238fb319a1b1b7996425bbc67c973dcd969', NULL, NULL, '99991231235959Z');
INSERT INTO ledger VALUES (1, 'acme', '000000000001', 1, 'registered', '', 'a1', x'$TIMES~124~00~', x'$TIMES~66~00~');
INSERT INTO ledger VALUES (2, 'acme', '000000000002', 1, 'registered', '', 'a1', x'$TIMES~124~00~', x'$TIMES~66~00~');
INSERT INTO ledger VALUES (3, 'acme', '000000000002', 2, 'planned', '', 'a1', x'$TIMES~124~00~', x'$TIMES~66~00~');
INSERT INTO ledger VALUES (4, 'acme', '000000000003', 1, 'registered', '', 'a1', x'$TIMES~124~00~', x'$TIMES~66~00~');
INSERT INTO ledger VALUES (5, 'acme', '000000000003', 2, 'planned', '', 'a1', x'$TIMES~124~00~', x'$TIMES~66~00~');
INSERT INTO ledger VALUES (6, 'acme', '000000000003', 3, 'read', 'match', 'a1', x'$TIMES~124~00~', x'01630dcd2966c4336691125448bbb25b4ff412a49c732db2c8abc1b8581bd710dd$TIMES~33~00~');
INSERT INTO ledger VALUES (7, 'acme', '000000000004', 1, 'registered', '', 'a1', x'$TIMES~124~00~', x'$TIMES~66~00~');
INSERT INTO ledger VALUES (8, 'acme', '000000000004', 2, 'planned', '', 'a1', x'$TIMES~124~00~', x'$TIMES~66~00~');
INSERT INTO ledger VALUES (9, 'acme', '000000000004', 3, 'read', 'match', 'a1', x'$TIMES~24~00~40$TIMES~99~00~', x'$TIMES~66~00~');
INSERT INTO ledger VALUES (10, 'acme', '000000000005', 1, 'registered', '', 'a1', x'$TIMES~124~00~', x'$TIMES~66~00~');
INSERT INTO ledger VALUES (11, 'acme', '000000000005', 2, 'planned', '', 'a1', x'$TIMES~124~00~', x'$TIMES~66~00~');
INSERT INTO ledger VALUES (12, 'acme', '000000000005', 3, 'read', 'match', 'a1', x'$TIMES~24~00~40$TIMES~99~00~', x'$TIMES~66~00~');
INSERT INTO ledger VALUES (13, 'acme', '000000000005', 4, 'identified', 'A0009', 'a1', x'$TIMES~124~00~', x'$TIMES~66~00~');
INSERT INTO ledger VALUES (14, 'acme', '000000000006', 1, 'registered', '', 'a1', x'$TIMES~124~00~', x'$TIMES~66~00~');
INSERT INTO ledger VALUES (15, 'acme', '000000000006', 2, 'planned', '', 'a1', x'$TIMES~124~00~', x'$TIMES~66~00~');
INSERT INTO ledger VALUES (16, 'acme', '000000000006', 3, 'read', 'match', 'a1', x'$TIMES~24~00~40$TIMES~99~00~', x'$TIMES~66~00~');
INSERT INTO ledger VALUES (17, 'acme', '000000000006', 4, 'identified', 'A0010', 'a1', x'$TIMES~124~00~', x'$TIMES~66~00~');
INSERT INTO ledger VALUES (18, 'acme', '000000000006', 5, 'shipped', '', 'a1', x'$TIMES~124~00~', x'$TIMES~66~00~');
INSERT INTO ledger VALUES (19, 'acme', '000000000007', 1, 'registered', '', 'a1', x'$TIMES~124~00~', x'$TIMES~66~00~');
INSERT INTO ledger VALUES (20, 'acme', '000000000007', 2, 'planned', '', 'a1', x'$TIMES~124~00~', x'$TIMES~66~00~');
INSERT INTO ledger VALUES (21, 'acme', '000000000007', 3, 'read', 'stray', 'a1', x'$TIMES~24~00~4001$TIMES~98~00~', x'$TIMES~66~00~');
INSERT INTO ledger VALUES (22, 'acme', '000000000008', 1, 'registered', '', 'a1', x'$TIMES~124~00~', x'$TIMES~66~00~');
INSERT INTO ledger VALUES (23, 'acme', '000000000008', 2, 'planned', '', 'a1', x'$TIMES~124~00~', x'$TIMES~66~00~');
INSERT INTO ledger VALUES (24, 'acme', '000000000008', 3, 'read', 'match', 'a1', x'$TIMES~24~00~40$TIMES~99~00~', x'$TIMES~66~00~');
INSERT INTO ledger VALUES (25, 'acme', '000000000008', 4, 'identified', 'B0009', 'a1', x'$TIMES~124~00~', x'$TIMES~66~00~');
INSERT INTO ledger VALUES (26, 'acme', '000000000008', 5, 'scrapped', '', 'a1', x'$TIMES~124~00~', x'$TIMES~66~00~');
INSERT INTO ledger VALUES (27, 'acme', '000000000009', 1, 'registered', '', 'a1', x'$TIMES~124~00~', x'$TIMES~66~00~');
INSERT INTO ledger VALUES (28, 'acme', '000000000009', 2, 'planned', '', 'a1', x'$TIMES~124~00~', x'$TIMES~66~00~');
INSERT INTO ledger VALUES (29, 'acme', '000000000009', 3, 'read', 'match', 'a1', x'$TIMES~24~00~40$TIMES~99~00~', x'$TIMES~66~00~');
INSERT INTO ledger VALUES (30, 'acme', '000000000009', 4, 'identified', 'B0011', 'a1', x'$TIMES~124~00~', x'$TIMES~66~00~');
INSERT INTO ledger VALUES (31, 'bolt', '000000000001', 1, 'registered', '', 'b1', x'$TIMES~124~00~', x'$TIMES~66~00~');
INSERT INTO ledger VALUES (32, 'bolt', '000000000001', 2, 'planned', '', 'b1', x'$TIMES~124~00~', x'$TIMES~66~00~');
INSERT INTO ledger VALUES (33, 'bolt', '000000000001', 3, 'read', 'match', 'b1', x'$TIMES~24~00~40$TIMES~99~00~', x'$TIMES~66~00~');
INSERT INTO ledger VALUES (34, 'bolt', '000000000001', 4, 'identified', 'A0009', 'b1', x'$TIMES~124~00~', x'$TIMES~66~00~');
"#;

/// What the books show, over the store once it is upgraded: no order and no record has a beginning of
/// validity.
pub const SHOWN: &str = r#"
a1 GET /v1/order?name=with-macs
200 {"first":9,"issuer":"acme-ca","mac":"020000000010","macs":1,"name":"with-macs","next":"A0011",
  "not_before":null,"prefix":"A","quantity":3,"width":4}
a1 GET /v1/order?name=without
200 {"first":9,"issuer":"acme-ca","mac":null,"macs":0,"name":"without","next":"B0013",
  "not_before":null,"prefix":"B","quantity":9,"width":4}
b1 GET /v1/order?name=with-macs
200 {"first":9,"issuer":"bolt-ca","mac":null,"macs":0,"name":"with-macs","next":null,
  "not_before":null,"prefix":"A","quantity":2,"width":4}
a1 GET /v1/device?chip=000000000001
200 {"bits":[],"chip":"000000000001","keys":{},"map":"$DIGEST","order":"without",
  "pending":{"batch1":$NONE,"batch2":$NONE},"reason":null,"serial":null,"state":"registered"}
a1 GET /v1/device?chip=000000000002
200 {"bits":[],"chip":"000000000002","keys":{},"map":"$DIGEST","order":"without",
  "pending":{"batch1":{"bits":[{"block":0,"mask":"00000040","word":6}],"keys":{}},"batch2":$NONE},
  "reason":null,"serial":null,"state":"awaiting1"}
a1 GET /v1/device?chip=000000000003
200 {"bits":[],"chip":"000000000003",
  "keys":{"BLOCK1":"630dcd2966c4336691125448bbb25b4ff412a49c732db2c8abc1b8581bd710dd"},
  "map":"$DIGEST","order":"without",
  "pending":{"batch1":$NONE,"batch2":{"bits":[{"block":0,"mask":"00010080","word":0}],"keys":{}}},
  "reason":null,"serial":null,"state":"awaiting2"}
a1 GET /v1/device?chip=000000000004
200 {"bits":[{"block":0,"mask":"00000040","word":6}],"chip":"000000000004","keys":{},
  "map":"$DIGEST","order":"without","pending":{"batch1":$NONE,"batch2":$NONE},"reason":null,
  "serial":null,"state":"settled"}
a1 GET /v1/device?chip=000000000005
200 {"bits":[{"block":0,"mask":"00000040","word":6}],"chip":"000000000005","keys":{},
  "map":"$DIGEST","order":"with-macs","pending":{"batch1":$NONE,"batch2":$NONE},"reason":null,
  "serial":"A0009","state":"identified"}
a1 GET /v1/device?chip=000000000006
200 {"bits":[{"block":0,"mask":"00000040","word":6}],"chip":"000000000006","keys":{},
  "map":"$DIGEST","order":"with-macs","pending":{"batch1":$NONE,"batch2":$NONE},"reason":null,
  "serial":"A0010","state":"shipped"}
a1 GET /v1/device?chip=000000000007
200 {"bits":[{"block":0,"mask":"00000140","word":6}],"chip":"000000000007","keys":{},
  "map":"$DIGEST","order":"without","pending":{"batch1":$NONE,"batch2":$NONE},"reason":"stray",
  "serial":null,"state":"quarantined"}
a1 GET /v1/device?chip=000000000008
200 {"bits":[{"block":0,"mask":"00000040","word":6}],"chip":"000000000008","keys":{},
  "map":"$DIGEST","order":"without","pending":{"batch1":$NONE,"batch2":$NONE},"reason":null,
  "serial":"B0009","state":"scrapped"}
b1 GET /v1/device?chip=000000000001
200 {"bits":[{"block":0,"mask":"00000040","word":6}],"chip":"000000000001","keys":{},
  "map":"$DIGEST","order":"with-macs","pending":{"batch1":$NONE,"batch2":$NONE},"reason":null,
  "serial":"A0009","state":"identified"}
a1 GET /v1/ledger?chip=000000000003
200 {"chip":"000000000003","entries":[
  {"bits":[],"event":"registered","keys":{},"n":1,"note":"","seat":"a1"},
  {"bits":[],"event":"planned","keys":{},"n":2,"note":"","seat":"a1"},
  {"bits":[],"event":"read",
    "keys":{"BLOCK1":"630dcd2966c4336691125448bbb25b4ff412a49c732db2c8abc1b8581bd710dd"},"n":3,
    "note":"match","seat":"a1"}]}
a1 GET /v1/ledger?chip=000000000006
200 {"chip":"000000000006","entries":[
  {"bits":[],"event":"registered","keys":{},"n":1,"note":"","seat":"a1"},
  {"bits":[],"event":"planned","keys":{},"n":2,"note":"","seat":"a1"},
  {"bits":[{"block":0,"mask":"00000040","word":6}],"event":"read","keys":{},"n":3,"note":"match",
    "seat":"a1"},
  {"bits":[],"event":"identified","keys":{},"n":4,"note":"A0010","seat":"a1"},
  {"bits":[],"event":"shipped","keys":{},"n":5,"note":"","seat":"a1"}]}
manager GET /v1/site/report
csv customer,orders,quantity,registered,planned,settled,identified,shipped,quarantined,scrapped,serials_left|
  acme,2,12,1,2,1,2,1,1,1,6|
  bolt,1,2,0,0,0,1,0,0,0,0|
"#;

/// The last request of each seat again: its reply as it was kept, without the member that it has now.
pub const REPEATED: &str = r#"
a1 POST /v1/identity {"nr":34,"chip":"000000000009","public_key":"d366132a5d40829f8fbb3f2e0be5357b67e50573c42ebbcffe2257a76ee8162c"}
200 {"chip":"000000000009","issuer":"acme-ca",
  "key_sha256":"2c9b255b3fa784b93c407cd04bc84674dcd7ea867a5903be37bd09a88101cd83","mac":null,
  "not_after":"99991231235959Z","serial":"B0011"}
b1 POST /v1/import {"nr":7,"issuer":"bolt-ca","csv":"serial,key_sha256\nA0010,c119101f900d88d36f3ffdbfa06f6238fb319a1b1b7996425bbc67c973dcd969\n"}
200 {"added":1,"present":0}
"#;

/// What is asked for then: identities under orders from before, which have no beginning, and an order that
/// has one, with an identity of it.
pub const GOES_ON: &str = r#"
a1 POST /v1/identity {"nr":35,"chip":"000000000004","public_key":"00"}
200 {"chip":"000000000004","issuer":"acme-ca",
  "key_sha256":"6e340b9cffb37a989ca544e6bb780a2c78901d3fb33738768511a30617afa01d","mac":null,
  "not_after":"99991231235959Z","not_before":null,"serial":"B0013"}
a1 POST /v1/device {"nr":36,"chip":"00000000000a","order":"with-macs","map":"$DIGEST","blocks":<>}
200 {"bits":[],"chip":"00000000000a","keys":{},"map":"$DIGEST","order":"with-macs",
  "pending":{"batch1":$NONE,"batch2":$NONE},"reason":null,"serial":null,"state":"registered"}
a1 POST /v1/plan {"nr":37,"chip":"00000000000a","wishes":[]}
200 {"batch1":$NONE,"batch2":$NONE,"state":"settled"}
a1 POST /v1/identity {"nr":38,"chip":"00000000000a","public_key":"01"}
200 {"chip":"00000000000a","issuer":"acme-ca",
  "key_sha256":"4bf5122f344554c53bde2ebb8cd2b7e3d1600ad631c385a5d7cce23c7785459a",
  "mac":"020000000012","not_after":"99991231235959Z","not_before":null,"serial":"A0011"}
a1 POST /v1/order {"nr":39,"name":"begun","issuer":"acme-ca","prefix":"D","width":3,"first":1,"quantity":2,"macs":0,"not_before":"20240229120000Z"}
200 {"first":1,"issuer":"acme-ca","mac":null,"macs":0,"name":"begun","next":"D001",
  "not_before":"20240229120000Z","prefix":"D","quantity":2,"width":3}
a1 POST /v1/device {"nr":40,"chip":"00000000000b","order":"begun","map":"$DIGEST","blocks":<>}
200 {"bits":[],"chip":"00000000000b","keys":{},"map":"$DIGEST","order":"begun",
  "pending":{"batch1":$NONE,"batch2":$NONE},"reason":null,"serial":null,"state":"registered"}
a1 POST /v1/plan {"nr":41,"chip":"00000000000b","wishes":[]}
200 {"batch1":$NONE,"batch2":$NONE,"state":"settled"}
a1 POST /v1/identity {"nr":42,"chip":"00000000000b","public_key":"02"}
200 {"chip":"00000000000b","issuer":"acme-ca",
  "key_sha256":"dbc1b4c900ffe48d575b5da5c638040125f65db0fe3e24494b76ea986457d986","mac":null,
  "not_after":"99991231235959Z","not_before":"20240229120000Z","serial":"D001"}
"#;

/// What the books show of orders once `GOES_ON` was asked for.
pub const SHOWN_THEN: &str = r#"
a1 GET /v1/order?name=with-macs
200 {"first":9,"issuer":"acme-ca","mac":"020000000010","macs":1,"name":"with-macs","next":null,
  "not_before":null,"prefix":"A","quantity":3,"width":4}
a1 GET /v1/order?name=without
200 {"first":9,"issuer":"acme-ca","mac":null,"macs":0,"name":"without","next":"B0014",
  "not_before":null,"prefix":"B","quantity":9,"width":4}
a1 GET /v1/order?name=begun
200 {"first":1,"issuer":"acme-ca","mac":null,"macs":0,"name":"begun","next":"D002",
  "not_before":"20240229120000Z","prefix":"D","quantity":2,"width":3}
"#;

/// What is asked for of it in turn.
pub const LIFE: &[&str] = &[SHOWN, REPEATED, SHOWN, GOES_ON, SHOWN_THEN];

/// The store, and what is asked for of it.
pub const ONE: Earlier = Earlier {
    schema: 1,
    sql: &[BEFORE_GIVEN, GIVEN, BEHIND_GIVEN],
    shown: SHOWN,
    life: LIFE,
};

/// Changes of the store by SQL, the text of the site for which it is adopted then, and the number of the
/// fault, 0 where there is none. It is taken with its own text alone, and not with one that grew.
pub const CHANGED_ONE: &[(&str, &str, u8)] = &[
    ("", SITE, 0),
    ("", OTHER_SITE, 1),
    ("", SITE_WITH_A_POOL, 1),
    // Nothing but the site.
    (
        "DELETE FROM ledger; DELETE FROM given; DELETE FROM device; DELETE FROM orders; DELETE FROM link; DELETE FROM map; DELETE FROM seat",
        SITE,
        0,
    ),
    ("UPDATE meta SET schema = 2", SITE, 2),
    ("UPDATE meta SET schema = 3", SITE, 2),
    ("UPDATE meta SET schema = 3", OTHER_SITE, 2),
    ("UPDATE meta SET schema = 0", SITE, 2),
    ("UPDATE meta SET id = 2", SITE, 2),
    ("DELETE FROM meta", SITE, 2),
    ("DROP TABLE ledger", SITE, 2),
    (
        "CREATE TABLE order_start (customer TEXT NOT NULL, ord TEXT NOT NULL, not_before TEXT, PRIMARY KEY (customer, ord), FOREIGN KEY (customer, ord) REFERENCES orders (customer, name)) STRICT",
        SITE,
        2,
    ),
    (
        "CREATE TABLE site_text (id INTEGER PRIMARY KEY, body TEXT NOT NULL) STRICT",
        SITE,
        2,
    ),
];
