//! Preludes: the few requests and replies with which many conversations begin.

/// The preludes by their names, each with its parts. No name is that of none.
const PRELUDES: &[(&str, &[&str])] = &[
    ("", &[]),
    ("order", &[ORDER]),
    ("map", &[ORDER, MAP]),
    ("chip", &[ORDER, MAP, CHIP]),
    ("settled", &[ORDER, MAP, CHIP, SETTLED]),
];

/// An order of two devices without addresses.
const ORDER: &str = r#"
a1 POST /v1/order {"nr":1,"name":"o1","issuer":"acme-ca","prefix":"A","width":3,"first":998,"quantity":2,"macs":0}
200 {"first":998,"issuer":"acme-ca","mac":null,"macs":0,"name":"o1","next":"A998","not_before":null,
  "prefix":"A","quantity":2,"width":3}
"#;

/// The sample map.
const MAP: &str = r#"
a1 POST /v1/map {"nr":2,"text":"$MAP"}
200 {"map":"$DIGEST"}
"#;

/// A blank chip of the order.
const CHIP: &str = r#"
a1 POST /v1/device {"nr":3,"chip":"00000000000a","order":"o1","map":"$DIGEST","blocks":<>}
200 {"bits":[],"chip":"00000000000a","keys":{},"map":"$DIGEST","order":"o1",
  "pending":{"batch1":$NONE,"batch2":$NONE},"reason":null,"serial":null,"state":"registered"}
"#;

/// A plan of no wishes, by which the chip is settled.
const SETTLED: &str = r#"
a1 POST /v1/plan {"nr":4,"chip":"00000000000a","wishes":[]}
200 {"batch1":$NONE,"batch2":$NONE,"state":"settled"}
"#;

/// The parts of the prelude with a name.
pub fn parts_of_prelude(name: &str) -> Option<&'static [&'static str]> {
    for row in PRELUDES {
        if row.0 == name {
            return Some(row.1);
        }
    }
    None
}
