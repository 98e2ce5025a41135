//! The sample texts.

/// A fuse map of an ESP32's four eFuse blocks: the fields of its write locks, its read locks and its
/// coding scheme, one plain field of a bit, two key blocks and a plain block.
pub const MAP: &str = r#"name = "esp32-sample"
wr = "WR_DIS"
rd = "RD_DIS"
coding = "CODING_SCHEME"
[[block]]
words = 7
[[block]]
words = 8
[[block]]
words = 8
[[block]]
words = 8
[[field]]
name = "WR_DIS"
block = 0
bit = 0
count = 16
[[field]]
name = "RD_DIS"
block = 0
bit = 16
count = 4
[[field]]
name = "CODING_SCHEME"
block = 0
bit = 192
count = 2
[[field]]
name = "JTAG_DISABLE"
block = 0
bit = 198
count = 1
write = 14
[[field]]
name = "BLOCK1"
block = 1
bit = 0
count = 256
write = 7
read = 0
key = true
[[field]]
name = "BLOCK2"
block = 2
bit = 0
count = 256
write = 8
read = 1
key = true
[[field]]
name = "BLOCK3"
block = 3
bit = 0
count = 256
write = 9
read = 2
"#;

/// A site of two customers and a manager. The token of acme's seat `a1` is `abc`, that of bolt's
/// seat `b1` is `hello`, and the manager's is `test`; acme alone has pools, two of 4 addresses.
pub const SITE: &str = r#"[[customer]]
name = "acme"
issuer = ["acme-ca"]
[[customer.pool]]
first = "020000000010"
count = 4
[[customer.pool]]
first = "020000000020"
count = 4
[[customer.seat]]
name = "a1"
token = "ba7816bf8f01cfea414140de5dae2223b00361a396177a9cb410ff61f20015ad"
[[customer]]
name = "bolt"
issuer = ["bolt-ca"]
[[customer.seat]]
name = "b1"
token = "2cf24dba5fb0a30e26e83b2ac5b9e29e1b161e5c1fa7425e73043362938b9824"
[manager]
token = "9f86d081884c7d659a2feaa0c55ad015a3bf4f1b2b0b822cd15d6c15b0f00a08"
"#;

/// The sample site, grown: a third pool of 4 addresses for acme, behind the others.
pub const SITE_WITH_A_POOL: &str = r#"[[customer]]
name = "acme"
issuer = ["acme-ca"]
[[customer.pool]]
first = "020000000010"
count = 4
[[customer.pool]]
first = "020000000020"
count = 4
[[customer.pool]]
first = "020000000030"
count = 4
[[customer.seat]]
name = "a1"
token = "ba7816bf8f01cfea414140de5dae2223b00361a396177a9cb410ff61f20015ad"
[[customer]]
name = "bolt"
issuer = ["bolt-ca"]
[[customer.seat]]
name = "b1"
token = "2cf24dba5fb0a30e26e83b2ac5b9e29e1b161e5c1fa7425e73043362938b9824"
[manager]
token = "9f86d081884c7d659a2feaa0c55ad015a3bf4f1b2b0b822cd15d6c15b0f00a08"
"#;

/// The sample site, grown: a second seat for bolt, `b2` with the token `world`, and a third customer,
/// crux, whose seat `c1` has the token `key`.
pub const SITE_WITH_A_CUSTOMER: &str = r#"[[customer]]
name = "acme"
issuer = ["acme-ca"]
[[customer.pool]]
first = "020000000010"
count = 4
[[customer.pool]]
first = "020000000020"
count = 4
[[customer.seat]]
name = "a1"
token = "ba7816bf8f01cfea414140de5dae2223b00361a396177a9cb410ff61f20015ad"
[[customer]]
name = "bolt"
issuer = ["bolt-ca"]
[[customer.seat]]
name = "b1"
token = "2cf24dba5fb0a30e26e83b2ac5b9e29e1b161e5c1fa7425e73043362938b9824"
[[customer.seat]]
name = "b2"
token = "486ea46224d1bb4fb680f34f7c9ad96a8f24ec88be73ea8e5a6c65260e9cb8a7"
[[customer]]
name = "crux"
issuer = ["crux-ca"]
[[customer.seat]]
name = "c1"
token = "2c70e12b7a0646f92279f427c7b38e7334d8e5389cff167a1dc30e73f826b683"
[manager]
token = "9f86d081884c7d659a2feaa0c55ad015a3bf4f1b2b0b822cd15d6c15b0f00a08"
"#;

/// The text of a site that isn't the sample.
pub const OTHER_SITE: &str = "customer = []\n";

/// What may grow of the sample site: a part of it, and what stands in its place then.
pub const GROWING: &[(&str, &str)] = &[
    // A comment.
    ("name = \"bolt\"", "name = \"bolt\" # the second"),
    // An issuer of the second customer, and a seat, in front of those that it has.
    ("[\"bolt-ca\"]", "[\"bolt-cb\", \"bolt-ca\"]"),
    (
        "[[customer.seat]]\nname = \"b1\"",
        "[[customer.seat]]\nname = \"b2\"\ntoken = \"486ea46224d1bb4fb680f34f7c9ad96a8f24ec88be73ea8e5a6c65260e9cb8a7\"\n[[customer.seat]]\nname = \"b1\"",
    ),
    // A pool behind those of the first customer, and the first one of the second.
    (
        "first = \"020000000020\"\ncount = 4\n",
        "first = \"020000000020\"\ncount = 4\n[[customer.pool]]\nfirst = \"020000000030\"\ncount = 4\n",
    ),
    (
        "issuer = [\"bolt",
        "pool = [{ first = \"020000000040\", count = 4 }]\nissuer = [\"bolt",
    ),
    // A customer.
    (
        "[manager]",
        "[[customer]]\nname = \"crux\"\nissuer = [\"crux-ca\"]\n[manager]",
    ),
];

/// A part of the sample site, what stands in its place when its store is next opened, and the number of the
/// fault, 0 where there is none.
pub const NEXT_TEXTS: &[(&str, &str, u8)] = &[
    // The sample's own text.
    ("acme", "acme", 0),
    // Acme's pools in the other order.
    (
        "first = \"020000000010\"\ncount = 4\n[[customer.pool]]\nfirst = \"020000000020\"",
        "first = \"020000000020\"\ncount = 4\n[[customer.pool]]\nfirst = \"020000000010\"",
        1,
    ),
    // A pool in front of the others.
    (
        "[[customer.pool]]\nfirst = \"020000000010\"",
        "[[customer.pool]]\nfirst = \"020000000030\"\ncount = 4\n[[customer.pool]]\nfirst = \"020000000010\"",
        1,
    ),
    // Another token of `a1`, and one of the manager.
    (
        "ba7816bf8f01cfea414140de5dae2223b00361a396177a9cb410ff61f20015ad",
        "60303ae22b998861bce3b28f33eec1be758a213c86c93c076dbe9f558c11c752",
        1,
    ),
    (
        "9f86d081884c7d659a2feaa0c55ad015a3bf4f1b2b0b822cd15d6c15b0f00a08",
        "60303ae22b998861bce3b28f33eec1be758a213c86c93c076dbe9f558c11c752",
        1,
    ),
    // No manager.
    (
        "[manager]\ntoken = \"9f86d081884c7d659a2feaa0c55ad015a3bf4f1b2b0b822cd15d6c15b0f00a08\"\n",
        "",
        1,
    ),
    // Another issuer, another customer, and a pool that is shorter.
    ("bolt-ca", "bolt-cb", 1),
    ("name = \"bolt\"", "name = \"crux\"", 1),
    (
        "first = \"020000000020\"\ncount = 4",
        "first = \"020000000020\"\ncount = 3",
        1,
    ),
    // Acme's second pool is bolt's.
    (
        "[[customer.pool]]\nfirst = \"020000000020\"\ncount = 4\n[[customer.seat]]\nname = \"a1\"\ntoken = \"ba7816bf8f01cfea414140de5dae2223b00361a396177a9cb410ff61f20015ad\"\n[[customer]]\nname = \"bolt\"\nissuer = [\"bolt-ca\"]\n",
        "[[customer.seat]]\nname = \"a1\"\ntoken = \"ba7816bf8f01cfea414140de5dae2223b00361a396177a9cb410ff61f20015ad\"\n[[customer]]\nname = \"bolt\"\nissuer = [\"bolt-ca\"]\n[[customer.pool]]\nfirst = \"020000000020\"\ncount = 4\n",
        1,
    ),
    // No customer.
    (SITE, "customer = []\n", 1),
];
