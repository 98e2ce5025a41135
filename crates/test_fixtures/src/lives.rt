//! The life of a device from its registration to its end, as a conversation with marks in braces,
//! and what stands for them in each kind of order and chip. `{nr}` is the next number of the seat,
//! and `{nr=}` the last one again.

/// What stands for marks of a text, mark by mark.
pub type Marks = &'static [(&'static str, &'static str)];

/// The sample map, and the same with eight words in block 0, by its digest of Python's hashlib.
pub const MAPS: &str = r#"
a1 POST /v1/map {"nr":{nr},"text":"$MAP"}
200 {"map":"$DIGEST"}
a1 POST /v1/map {"nr":{nr},"text":"$MAP~words = 7~words = 8~"}
200 {"map":"1e8e6d54c8de1994a208c610c9693fe7310b4c5736b717193fb742b69f142cc8"}
"#;

/// An order, and how it is shown.
pub const ORDER: &str = r#"
a1 POST /v1/order {"nr":{nr},"name":"o{index}","issuer":"acme-ca","prefix":"P{index}-","width":{width},"first":{first},"quantity":16,"macs":{macs}{begins}}
200 {"first":{first},"issuer":"acme-ca","mac":{start},"macs":{macs},"name":"o{index}",
  "next":{next},"not_before":{begin},"prefix":"P{index}-","quantity":16,"width":{width}}
"#;

/// A device from its registration to its end, and what is shown of it and of its order then.
pub const LIFE: &str = r#"
a1 POST /v1/device {"nr":{nr},"chip":"{chip}","order":"o{index}","map":"{map}","blocks":<{words}{key}>}
200 {"bits":[{bits}],"chip":"{chip}","keys":{keys},"map":"{map}","order":"o{index}",
  "pending":{"batch1":$NONE,"batch2":$NONE},"reason":null,"serial":null,"state":"registered"}
a1 POST /v1/plan {"nr":{nr},"chip":"{chip}","wishes":[{"kind":"bit","field":"JTAG_DISABLE","index":0}{wishes}]}
200 {"batch1":{"bits":[{"block":0,"mask":"00000040","word":6}],"keys":{}},
  "batch2":{"bits":[{lock}],"keys":{}},"state":"awaiting1"}
a1 GET /v1/device?chip={chip}
200 {"bits":[{bits}],"chip":"{chip}","keys":{keys},"map":"{map}","order":"o{index}",
  "pending":{"batch1":{"bits":[{"block":0,"mask":"00000040","word":6}],"keys":{}},
    "batch2":{"bits":[{lock}],"keys":{}}},"reason":null,"serial":null,"state":"awaiting1"}
a1 POST /v1/readback {"nr":{nr},"chip":"{chip}","blocks":<0.6=00000040 {words}{key}>}
200 {"outcome":"match","rest":$NONE,"state":"{then}"}
{second}
a1 POST /v1/identity {"nr":{nr},"chip":"{chip}","public_key":"{public}"}
200 {"chip":"{chip}","issuer":"acme-ca","key_sha256":"{digest}","mac":{address},
  "not_after":"99991231235959Z","not_before":{begin},"serial":"{serial}"}
a1 POST /v1/identity {"nr":{nr=},"chip":"{chip}","public_key":"{public}"}
200 {"chip":"{chip}","issuer":"acme-ca","key_sha256":"{digest}","mac":{address},
  "not_after":"99991231235959Z","not_before":{begin},"serial":"{serial}"}
a1 POST /v1/{end} {"nr":{nr},"chip":"{chip}"}
200 {"chip":"{chip}","state":"{state}"}
a1 GET /v1/identity?chip={chip}
200 {"chip":"{chip}","issuer":"acme-ca","key_sha256":"{digest}","mac":{address},
  "not_after":"99991231235959Z","not_before":{begin},"serial":"{serial}"}
a1 GET /v1/device?chip={chip}
200 {"bits":[{lock}{behind lock}{"block":0,"mask":"00000040","word":6}{before bits}{bits}],
  "chip":"{chip}","keys":{keys},"map":"{map}","order":"o{index}",
  "pending":{"batch1":$NONE,"batch2":$NONE},"reason":null,"serial":"{serial}","state":"{state}"}
a1 GET /v1/ledger?chip={chip}
200 {"chip":"{chip}","entries":[
  {"bits":[{bits}],"event":"registered","keys":{keys},"n":1,"note":"","seat":"a1"},
  {"bits":[],"event":"planned","keys":{},"n":2,"note":"","seat":"a1"},
  {"bits":[{"block":0,"mask":"00000040","word":6}],"event":"read","keys":{},"n":3,"note":"match",
    "seat":"a1"},
  {entry}
  {"bits":[],"event":"identified","keys":{},"n":{n},"note":"{serial}","seat":"a1"},
  {"bits":[],"event":"{state}","keys":{},"n":{n'},"note":"","seat":"a1"}]}
a1 GET /v1/order?name=o{index}
200 {"first":{first},"issuer":"acme-ca","mac":{start},"macs":{macs},"name":"o{index}",
  "next":{next},"not_before":{begin},"prefix":"P{index}-","quantity":16,"width":{width}}
"#;

/// No lock in the plan, and those of the bit and of a key's reading: the key isn't seen then.
pub const LOCKS: &[Marks] = &[
    &[
        ("{wishes}", ""),
        ("{lock}", ""),
        ("{behind lock}", ""),
        ("{then}", "settled"),
        ("{second}", ""),
        ("{entry}", ""),
        ("{n}", "4"),
        ("{n'}", "5"),
    ],
    &[
        (
            "{wishes}",
            r#",{"kind":"wlock","field":"JTAG_DISABLE"},{"kind":"rlock","field":"BLOCK1"}"#,
        ),
        ("{then}", "awaiting2"),
        (
            "{second}",
            r#"a1 POST /v1/readback {"nr":{nr},"chip":"{chip}","blocks":<0.0=00014000 0.6=00000040 {words}>}
200 {"outcome":"match","rest":$NONE,"state":"settled"}"#,
        ),
        (
            "{entry}",
            r#"{"bits":[{lock}],"event":"read","keys":{},"n":4,"note":"match","seat":"a1"},"#,
        ),
        ("{lock}", r#"{"block":0,"mask":"00014000","word":0}"#),
        ("{behind lock}", ","),
        ("{n}", "5"),
        ("{n'}", "6"),
    ],
];

/// Chips of either map, without a bit and with one: the last of block 3, and the last of block 0,
/// which is in no field.
pub const CHIPS: &[Marks] = &[
    &[
        ("{map}", "$DIGEST"),
        ("{words}", ""),
        ("{before bits}", ""),
        ("{bits}", ""),
    ],
    &[
        ("{map}", "$DIGEST"),
        ("{words}", "3.7=80000000"),
        ("{before bits}", ","),
        ("{bits}", r#"{"block":3,"mask":"80000000","word":7}"#),
    ],
    &[
        (
            "{map}",
            "1e8e6d54c8de1994a208c610c9693fe7310b4c5736b717193fb742b69f142cc8",
        ),
        ("{words}", "0.7=00000000"),
        ("{before bits}", ""),
        ("{bits}", ""),
    ],
    &[
        (
            "{map}",
            "1e8e6d54c8de1994a208c610c9693fe7310b4c5736b717193fb742b69f142cc8",
        ),
        ("{words}", "0.7=80000000"),
        ("{before bits}", ","),
        ("{bits}", r#"{"block":0,"mask":"80000000","word":7}"#),
    ],
];

/// No key, and one of the bytes 0 to 31.
pub const KEYS: &[Marks] = &[
    &[("{key}", ""), ("{keys}", "{}")],
    &[
        (
            "{key}",
            " 1.0=03020100 1.1=07060504 1.2=0b0a0908 1.3=0f0e0d0c 1.4=13121110 1.5=17161514 1.6=1b1a1918 1.7=1f1e1d1c",
        ),
        (
            "{keys}",
            r#"{"BLOCK1":"630dcd2966c4336691125448bbb25b4ff412a49c732db2c8abc1b8581bd710dd"}"#,
        ),
    ],
];

/// The ends of a device.
pub const SHIPPED: Marks = &[("{end}", "ship"), ("{state}", "shipped")];

pub const SCRAPPED: Marks = &[("{end}", "scrap"), ("{state}", "scrapped")];

/// No beginning of validity, and one.
pub const BEGINNINGS: &[Marks] = &[
    &[("{begins}", ""), ("{begin}", "null")],
    &[
        ("{begins}", r#","not_before":"20240229120000Z""#),
        ("{begin}", r#""20240229120000Z""#),
    ],
];

/// Widths, and the first number of each: the least, and one whose last number is the greatest.
pub const FIRSTS: &[(u64, u64)] = &[(2, 0), (3, 1), (9, 999_999_984)];
