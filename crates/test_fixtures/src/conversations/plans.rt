//! Conversations about plans and read-backs: what is to be burnt of a device, and what its chip shows then.

/// The conversations, each under its name.
pub const PLANS: &[(&str, &str)] = &[
    ("a bit and its lock", A_BIT_AND_ITS_LOCK),
    ("a key and its lock", A_KEY_AND_ITS_LOCK),
    ("what is wrong with a chip", QUARANTINE),
    ("wishes that can't be burnt", WISHES),
    ("bodies of plans and read-backs", BODIES),
];

/// A bit of a chip and then its lock, each read back, and the same wishes once both are burnt.
pub const A_BIT_AND_ITS_LOCK: &str = r#"
@ map
a1 POST /v1/plan {"nr":3,"chip":"00000000000a","wishes":[]}
404 {"error":"unknown_device","no":15}
a1 POST /v1/readback {"nr":3,"chip":"00000000000a","blocks":<>}
404 {"error":"unknown_device","no":15}
a1 POST /v1/device {"nr":3,"chip":"00000000000a","order":"o1","map":"$DIGEST","blocks":<>}
200 {"bits":[],"chip":"00000000000a","keys":{},"map":"$DIGEST","order":"o1",
  "pending":{"batch1":$NONE,"batch2":$NONE},"reason":null,"serial":null,"state":"registered"}
a1 POST /v1/readback {"nr":4,"chip":"00000000000a","blocks":<>}
409 {"error":"wrong_state","no":17}
a1 POST /v1/plan {"nr":4,"chip":"00000000000a","wishes":[{"kind":"bit","field":"JTAG_DISABLE","index":0},{"kind":"wlock","field":"JTAG_DISABLE"}]}
200 {"batch1":{"bits":[{"block":0,"mask":"00000040","word":6}],"keys":{}},
  "batch2":{"bits":[{"block":0,"mask":"00004000","word":0}],"keys":{}},"state":"awaiting1"}
# a repeat
a1 POST /v1/plan {"nr":4,"chip":"00000000000a","wishes":[{"kind":"bit","field":"JTAG_DISABLE","index":0},{"kind":"wlock","field":"JTAG_DISABLE"}]}
200 {"batch1":{"bits":[{"block":0,"mask":"00000040","word":6}],"keys":{}},
  "batch2":{"bits":[{"block":0,"mask":"00004000","word":0}],"keys":{}},"state":"awaiting1"}
a1 GET /v1/device?chip=00000000000a
200 {"bits":[],"chip":"00000000000a","keys":{},"map":"$DIGEST","order":"o1",
  "pending":{"batch1":{"bits":[{"block":0,"mask":"00000040","word":6}],"keys":{}},
    "batch2":{"bits":[{"block":0,"mask":"00004000","word":0}],"keys":{}}},
  "reason":null,"serial":null,"state":"awaiting1"}
a1 POST /v1/plan {"nr":5,"chip":"00000000000a","wishes":[{"kind":"bit","field":"JTAG_DISABLE","index":0},{"kind":"wlock","field":"JTAG_DISABLE"}]}
409 {"error":"wrong_state","no":17}
a1 POST /v1/readback {"nr":5,"chip":"00000000000a","blocks":[["00000000"]]}
422 {"error":"bad_readback","no":41}
a1 POST /v1/readback {"nr":5,"chip":"00000000000a","blocks":<0.6=00000040>}
200 {"outcome":"match","rest":$NONE,"state":"awaiting2"}
a1 POST /v1/readback {"nr":6,"chip":"00000000000a","blocks":<0.0=00004000 0.6=00000040>}
200 {"outcome":"match","rest":$NONE,"state":"settled"}
a1 POST /v1/plan {"nr":7,"chip":"00000000000a","wishes":[{"kind":"bit","field":"JTAG_DISABLE","index":0},{"kind":"wlock","field":"JTAG_DISABLE"}]}
200 {"batch1":$NONE,"batch2":$NONE,"state":"settled"}
a1 POST /v1/plan {"nr":8,"chip":"00000000000a","wishes":[{"kind":"value","field":"JTAG_DISABLE","value":"0"}]}
422 {"error":"clears_burnt","no":22}
a1 POST /v1/plan {"nr":8,"chip":"00000000000a","wishes":[{"kind":"bit","field":"JTAG_DISABLE","index":0}]}
200 {"batch1":$NONE,"batch2":$NONE,"state":"settled"}
a1 GET /v1/ledger?chip=00000000000a
200 {"chip":"00000000000a","entries":[
  {"bits":[],"event":"registered","keys":{},"n":1,"note":"","seat":"a1"},
  {"bits":[],"event":"planned","keys":{},"n":2,"note":"","seat":"a1"},
  {"bits":[{"block":0,"mask":"00000040","word":6}],"event":"read","keys":{},"n":3,"note":"match",
    "seat":"a1"},
  {"bits":[{"block":0,"mask":"00004000","word":0}],"event":"read","keys":{},"n":4,"note":"match",
    "seat":"a1"},
  {"bits":[],"event":"planned","keys":{},"n":5,"note":"","seat":"a1"},
  {"bits":[],"event":"planned","keys":{},"n":6,"note":"","seat":"a1"}]}
"#;

/// A key of a chip and then its read lock, and on another chip a key that is gone before its lock is
/// burnt. The digest is that of the bytes 0 to 31.
const A_KEY_AND_ITS_LOCK: &str = r#"
@ chip
a1 POST /v1/plan {"nr":4,"chip":"00000000000a","wishes":[{"kind":"key","field":"BLOCK1","key_sha256":"630dcd2966c4336691125448bbb25b4ff412a49c732db2c8abc1b8581bd710dd"},{"kind":"rlock","field":"BLOCK1"}]}
200 {"batch1":{"bits":[],
    "keys":{"BLOCK1":"630dcd2966c4336691125448bbb25b4ff412a49c732db2c8abc1b8581bd710dd"}},
  "batch2":{"bits":[{"block":0,"mask":"00010000","word":0}],"keys":{}},"state":"awaiting1"}
a1 POST /v1/readback {"nr":5,"chip":"00000000000a","blocks":<>}
200 {"outcome":"short",
  "rest":{"bits":[],
    "keys":{"BLOCK1":"630dcd2966c4336691125448bbb25b4ff412a49c732db2c8abc1b8581bd710dd"}},
  "state":"awaiting1"}
a1 POST /v1/readback {"nr":6,"chip":"00000000000a","blocks":<1.0=03020100 1.1=07060504 1.2=0b0a0908 1.3=0f0e0d0c 1.4=13121110 1.5=17161514 1.6=1b1a1918 1.7=1f1e1d1c>}
200 {"outcome":"match","rest":$NONE,"state":"awaiting2"}
a1 POST /v1/readback {"nr":7,"chip":"00000000000a","blocks":<0.0=00010000>}
200 {"outcome":"match","rest":$NONE,"state":"settled"}
a1 POST /v1/device {"nr":8,"chip":"00000000000b","order":"o1","map":"$DIGEST","blocks":<>}
200 {"bits":[],"chip":"00000000000b","keys":{},"map":"$DIGEST","order":"o1",
  "pending":{"batch1":$NONE,"batch2":$NONE},"reason":null,"serial":null,"state":"registered"}
a1 POST /v1/plan {"nr":9,"chip":"00000000000b","wishes":[{"kind":"key","field":"BLOCK1","key_sha256":"630dcd2966c4336691125448bbb25b4ff412a49c732db2c8abc1b8581bd710dd"},{"kind":"rlock","field":"BLOCK1"}]}
200 {"batch1":{"bits":[],
    "keys":{"BLOCK1":"630dcd2966c4336691125448bbb25b4ff412a49c732db2c8abc1b8581bd710dd"}},
  "batch2":{"bits":[{"block":0,"mask":"00010000","word":0}],"keys":{}},"state":"awaiting1"}
a1 POST /v1/readback {"nr":10,"chip":"00000000000b","blocks":<1.0=03020100 1.1=07060504 1.2=0b0a0908 1.3=0f0e0d0c 1.4=13121110 1.5=17161514 1.6=1b1a1918 1.7=1f1e1d1c>}
200 {"outcome":"match","rest":$NONE,"state":"awaiting2"}
a1 POST /v1/readback {"nr":11,"chip":"00000000000b","blocks":<>}
200 {"outcome":"key","rest":$NONE,"state":"quarantined"}
a1 GET /v1/device?chip=00000000000b
200 {"bits":[],"chip":"00000000000b",
  "keys":{"BLOCK1":"630dcd2966c4336691125448bbb25b4ff412a49c732db2c8abc1b8581bd710dd"},
  "map":"$DIGEST","order":"o1","pending":{"batch1":$NONE,"batch2":$NONE},"reason":"key",
  "serial":null,"state":"quarantined"}
"#;

/// A bit that nobody asked for and a bit that is lost: each quarantines its chip, whose place in the
/// order is free again. What was read stays known.
const QUARANTINE: &str = r#"
@ chip
a1 POST /v1/device {"nr":4,"chip":"00000000000b","order":"o1","map":"$DIGEST","blocks":<>}
200 {"bits":[],"chip":"00000000000b","keys":{},"map":"$DIGEST","order":"o1",
  "pending":{"batch1":$NONE,"batch2":$NONE},"reason":null,"serial":null,"state":"registered"}
a1 POST /v1/plan {"nr":5,"chip":"00000000000a","wishes":[{"kind":"bit","field":"JTAG_DISABLE","index":0},{"kind":"wlock","field":"JTAG_DISABLE"}]}
200 {"batch1":{"bits":[{"block":0,"mask":"00000040","word":6}],"keys":{}},
  "batch2":{"bits":[{"block":0,"mask":"00004000","word":0}],"keys":{}},"state":"awaiting1"}
a1 POST /v1/readback {"nr":6,"chip":"00000000000a","blocks":<0.6=00000044>}
200 {"outcome":"stray","rest":$NONE,"state":"quarantined"}
a1 GET /v1/device?chip=00000000000a
200 {"bits":[{"block":0,"mask":"00000044","word":6}],"chip":"00000000000a","keys":{},
  "map":"$DIGEST","order":"o1","pending":{"batch1":$NONE,"batch2":$NONE},"reason":"stray",
  "serial":null,"state":"quarantined"}
a1 POST /v1/plan {"nr":7,"chip":"00000000000a","wishes":[{"kind":"bit","field":"JTAG_DISABLE","index":0},{"kind":"wlock","field":"JTAG_DISABLE"}]}
409 {"error":"wrong_state","no":17}
# its place in the order is free again
a1 POST /v1/device {"nr":7,"chip":"00000000000c","order":"o1","map":"$DIGEST","blocks":<>}
200 {"bits":[],"chip":"00000000000c","keys":{},"map":"$DIGEST","order":"o1",
  "pending":{"batch1":$NONE,"batch2":$NONE},"reason":null,"serial":null,"state":"registered"}
a1 POST /v1/device {"nr":8,"chip":"00000000000d","order":"o1","map":"$DIGEST","blocks":<>}
409 {"error":"quantity_reached","no":18}
a1 POST /v1/plan {"nr":8,"chip":"00000000000b","wishes":[{"kind":"bit","field":"BLOCK3","index":0},{"kind":"bit","field":"BLOCK3","index":1}]}
200 {"batch1":{"bits":[{"block":3,"mask":"00000003","word":0}],"keys":{}},"batch2":$NONE,
  "state":"awaiting1"}
a1 POST /v1/readback {"nr":9,"chip":"00000000000b","blocks":<3.0=00000001>}
200 {"outcome":"short","rest":{"bits":[{"block":3,"mask":"00000002","word":0}],"keys":{}},
  "state":"awaiting1"}
a1 POST /v1/readback {"nr":10,"chip":"00000000000b","blocks":<3.0=00000001>}
200 {"outcome":"short","rest":{"bits":[{"block":3,"mask":"00000002","word":0}],"keys":{}},
  "state":"awaiting1"}
a1 GET /v1/ledger?chip=00000000000b
200 {"chip":"00000000000b","entries":[
  {"bits":[],"event":"registered","keys":{},"n":1,"note":"","seat":"a1"},
  {"bits":[],"event":"planned","keys":{},"n":2,"note":"","seat":"a1"},
  {"bits":[{"block":3,"mask":"00000001","word":0}],"event":"read","keys":{},"n":3,"note":"short",
    "seat":"a1"},
  {"bits":[],"event":"read","keys":{},"n":4,"note":"short","seat":"a1"}]}
a1 POST /v1/readback {"nr":11,"chip":"00000000000b","blocks":<>}
200 {"outcome":"lost","rest":$NONE,"state":"quarantined"}
a1 GET /v1/device?chip=00000000000b
200 {"bits":[{"block":3,"mask":"00000001","word":0}],"chip":"00000000000b","keys":{},
  "map":"$DIGEST","order":"o1","pending":{"batch1":$NONE,"batch2":$NONE},"reason":"lost",
  "serial":null,"state":"quarantined"}
"#;

/// Wishes that can't be burnt, each with its chip: the lowest fault of them, and no number is taken.
/// Zeros of the coding scheme are there already.
const WISHES: &str = r#"
a1 POST /v1/order {"nr":1,"name":"o1","issuer":"acme-ca","prefix":"A","width":3,"first":1,"quantity":20,"macs":0}
200 {"first":1,"issuer":"acme-ca","mac":null,"macs":0,"name":"o1","next":"A001","not_before":null,
  "prefix":"A","quantity":20,"width":3}
a1 POST /v1/map {"nr":2,"text":"$MAP"}
200 {"map":"$DIGEST"}
a1 POST /v1/device {"nr":3,"chip":"000000000001","order":"o1","map":"$DIGEST","blocks":<>}
200 {"bits":[],"chip":"000000000001","keys":{},"map":"$DIGEST","order":"o1",
  "pending":{"batch1":$NONE,"batch2":$NONE},"reason":null,"serial":null,"state":"registered"}
a1 POST /v1/plan {"nr":4,"chip":"000000000001","wishes":[{"kind":"bit","field":"NONE","index":0}]}
422 {"error":"unknown_field","no":19}
a1 POST /v1/device {"nr":4,"chip":"000000000002","order":"o1","map":"$DIGEST","blocks":<>}
200 {"bits":[],"chip":"000000000002","keys":{},"map":"$DIGEST","order":"o1",
  "pending":{"batch1":$NONE,"batch2":$NONE},"reason":null,"serial":null,"state":"registered"}
a1 POST /v1/plan {"nr":5,"chip":"000000000002","wishes":[{"kind":"bit","field":"JTAG_DISABLE","index":1}]}
422 {"error":"unmapped_bit","no":20}
a1 POST /v1/device {"nr":5,"chip":"000000000003","order":"o1","map":"$DIGEST","blocks":<>}
200 {"bits":[],"chip":"000000000003","keys":{},"map":"$DIGEST","order":"o1",
  "pending":{"batch1":$NONE,"batch2":$NONE},"reason":null,"serial":null,"state":"registered"}
a1 POST /v1/plan {"nr":6,"chip":"000000000003","wishes":[{"kind":"value","field":"JTAG_DISABLE","value":"2"}]}
422 {"error":"value_too_wide","no":21}
a1 POST /v1/device {"nr":6,"chip":"000000000004","order":"o1","map":"$DIGEST","blocks":<>}
200 {"bits":[],"chip":"000000000004","keys":{},"map":"$DIGEST","order":"o1",
  "pending":{"batch1":$NONE,"batch2":$NONE},"reason":null,"serial":null,"state":"registered"}
a1 POST /v1/plan {"nr":7,"chip":"000000000004","wishes":[{"kind":"key","field":"JTAG_DISABLE","key_sha256":"ba7816bf8f01cfea414140de5dae2223b00361a396177a9cb410ff61f20015ad"}]}
422 {"error":"wrong_kind","no":24}
a1 POST /v1/device {"nr":7,"chip":"000000000005","order":"o1","map":"$DIGEST","blocks":<>}
200 {"bits":[],"chip":"000000000005","keys":{},"map":"$DIGEST","order":"o1",
  "pending":{"batch1":$NONE,"batch2":$NONE},"reason":null,"serial":null,"state":"registered"}
a1 POST /v1/plan {"nr":8,"chip":"000000000005","wishes":[{"kind":"bit","field":"CODING_SCHEME","index":0}]}
422 {"error":"wrong_kind","no":24}
a1 POST /v1/device {"nr":8,"chip":"000000000006","order":"o1","map":"$DIGEST","blocks":<>}
200 {"bits":[],"chip":"000000000006","keys":{},"map":"$DIGEST","order":"o1",
  "pending":{"batch1":$NONE,"batch2":$NONE},"reason":null,"serial":null,"state":"registered"}
a1 POST /v1/plan {"nr":9,"chip":"000000000006","wishes":[{"kind":"value","field":"CODING_SCHEME","value":"0"}]}
200 {"batch1":$NONE,"batch2":$NONE,"state":"settled"}
a1 POST /v1/device {"nr":10,"chip":"000000000007","order":"o1","map":"$DIGEST","blocks":<>}
200 {"bits":[],"chip":"000000000007","keys":{},"map":"$DIGEST","order":"o1",
  "pending":{"batch1":$NONE,"batch2":$NONE},"reason":null,"serial":null,"state":"registered"}
a1 POST /v1/plan {"nr":11,"chip":"000000000007","wishes":[{"kind":"wlock","field":"WR_DIS"}]}
422 {"error":"no_lock","no":28}
a1 POST /v1/device {"nr":11,"chip":"000000000008","order":"o1","map":"$DIGEST","blocks":<0.0=00000080>}
200 {"bits":[{"block":0,"mask":"00000080","word":0}],"chip":"000000000008","keys":{},
  "map":"$DIGEST","order":"o1","pending":{"batch1":$NONE,"batch2":$NONE},"reason":null,
  "serial":null,"state":"registered"}
a1 POST /v1/plan {"nr":12,"chip":"000000000008","wishes":[{"kind":"key","field":"BLOCK1","key_sha256":"ba7816bf8f01cfea414140de5dae2223b00361a396177a9cb410ff61f20015ad"}]}
422 {"error":"write_protected","no":26}
a1 POST /v1/device {"nr":12,"chip":"000000000009","order":"o1","map":"$DIGEST","blocks":<0.0=00010000>}
200 {"bits":[{"block":0,"mask":"00010000","word":0}],"chip":"000000000009","keys":{},
  "map":"$DIGEST","order":"o1","pending":{"batch1":$NONE,"batch2":$NONE},"reason":null,
  "serial":null,"state":"registered"}
a1 POST /v1/plan {"nr":13,"chip":"000000000009","wishes":[{"kind":"key","field":"BLOCK1","key_sha256":"ba7816bf8f01cfea414140de5dae2223b00361a396177a9cb410ff61f20015ad"}]}
422 {"error":"hidden","no":27}
a1 POST /v1/device {"nr":13,"chip":"00000000000a","order":"o1","map":"$DIGEST","blocks":<>}
200 {"bits":[],"chip":"00000000000a","keys":{},"map":"$DIGEST","order":"o1",
  "pending":{"batch1":$NONE,"batch2":$NONE},"reason":null,"serial":null,"state":"registered"}
a1 POST /v1/plan {"nr":14,"chip":"00000000000a","wishes":[{"kind":"key","field":"BLOCK1","key_sha256":"ba7816bf8f01cfea414140de5dae2223b00361a396177a9cb410ff61f20015ad"},{"kind":"key","field":"BLOCK1","key_sha256":"2cf24dba5fb0a30e26e83b2ac5b9e29e1b161e5c1fa7425e73043362938b9824"}]}
422 {"error":"contradiction","no":23}
a1 POST /v1/device {"nr":14,"chip":"00000000000b","order":"o1","map":"$DIGEST","blocks":<1.0=00000001>}
200 {"bits":[],"chip":"00000000000b",
  "keys":{"BLOCK1":"01d0fabd251fcbbe2b93b4b927b26ad2a1a99077152e45ded1e678afa45dbec5"},
  "map":"$DIGEST","order":"o1","pending":{"batch1":$NONE,"batch2":$NONE},"reason":null,
  "serial":null,"state":"registered"}
a1 POST /v1/plan {"nr":15,"chip":"00000000000b","wishes":[{"kind":"key","field":"BLOCK1","key_sha256":"ba7816bf8f01cfea414140de5dae2223b00361a396177a9cb410ff61f20015ad"}]}
422 {"error":"other_key","no":25}
a1 POST /v1/device {"nr":15,"chip":"00000000000c","order":"o1","map":"$DIGEST","blocks":<0.0=00004000>}
200 {"bits":[{"block":0,"mask":"00004000","word":0}],"chip":"00000000000c","keys":{},
  "map":"$DIGEST","order":"o1","pending":{"batch1":$NONE,"batch2":$NONE},"reason":null,
  "serial":null,"state":"registered"}
a1 POST /v1/plan {"nr":16,"chip":"00000000000c","wishes":[{"kind":"bit","field":"JTAG_DISABLE","index":0}]}
422 {"error":"write_protected","no":26}
a1 POST /v1/device {"nr":16,"chip":"00000000000d","order":"o1","map":"$DIGEST","blocks":<>}
200 {"bits":[],"chip":"00000000000d","keys":{},"map":"$DIGEST","order":"o1",
  "pending":{"batch1":$NONE,"batch2":$NONE},"reason":null,"serial":null,"state":"registered"}
a1 POST /v1/plan {"nr":17,"chip":"00000000000d","wishes":[{"kind":"bit","field":"JTAG_DISABLE","index":0},{"kind":"value","field":"JTAG_DISABLE","value":"0"}]}
422 {"error":"contradiction","no":23}
"#;

/// Wishes that are none, refused before the number is looked at; what repeats are known by; and as many
/// wishes as there may be.
const BODIES: &str = r#"
@ chip
a1 POST /v1/plan {"nr":4,"chip":"00000000000a","wishes":[{"kind":"burn","field":"BLOCK3"}]}
400 {"error":"bad_member","no":10}
a1 POST /v1/plan {"nr":4,"chip":"00000000000a","wishes":[{"kind":"bit","field":"BLOCK3"}]}
400 {"error":"bad_member","no":10}
a1 POST /v1/plan {"nr":4,"chip":"00000000000a","wishes":[{"kind":"bit","field":"BLOCK3","index":-1}]}
400 {"error":"bad_member","no":10}
a1 POST /v1/plan {"nr":4,"chip":"00000000000a","wishes":[{"kind":"bit","field":"","index":0}]}
400 {"error":"bad_member","no":10}
a1 POST /v1/plan {"nr":4,"chip":"00000000000a","wishes":[{"kind":"value","field":"BLOCK3","value":""}]}
400 {"error":"bad_member","no":10}
a1 POST /v1/plan {"nr":4,"chip":"00000000000a","wishes":[{"kind":"value","field":"BLOCK3","value":"0x1"}]}
400 {"error":"bad_member","no":10}
a1 POST /v1/plan {"nr":4,"chip":"00000000000a","wishes":[{"kind":"key","field":"BLOCK1"}]}
400 {"error":"bad_member","no":10}
a1 POST /v1/plan {"nr":4,"chip":"00000000000a","wishes":[{"field":"BLOCK3"}]}
400 {"error":"bad_member","no":10}
a1 POST /v1/plan {"nr":4,"chip":"00000000000a","wishes":[0]}
400 {"error":"bad_member","no":10}
a1 POST /v1/plan {"nr":4,"chip":"00000000000a","wishes":{}}
400 {"error":"bad_member","no":10}
a1 POST /v1/plan {"nr":4,"chip":"00000000000a","wishes":null}
400 {"error":"bad_member","no":10}
a1 POST /v1/plan {"nr":4,"chip":"00000000000a","wishes":[{"kind":"value","field":"BLOCK3","value":"ab"}]}
200 {"batch1":{"bits":[{"block":3,"mask":"000000ab","word":0}],"keys":{}},"batch2":$NONE,
  "state":"awaiting1"}
# members without a name here make no difference, another case of letters does
a1 POST /v1/plan {"nr":4,"chip":"00000000000a","wishes":[{"index":7,"value":"ab","kind":"value","field":"BLOCK3"}],"blocks":[]}
200 {"batch1":{"bits":[{"block":3,"mask":"000000ab","word":0}],"keys":{}},"batch2":$NONE,
  "state":"awaiting1"}
a1 POST /v1/plan {"nr":4,"chip":"00000000000a","wishes":[{"kind":"value","field":"BLOCK3","value":"AB"}]}
409 {"error":"other_body","no":12}
a1 POST /v1/readback {"nr":5,"chip":"00000000000a","blocks":<3.0=000000ab>}
200 {"outcome":"match","rest":$NONE,"state":"settled"}
a1 POST /v1/readback {"nr":5,"chip":"00000000000a","blocks":<3.0=000000AB>}
200 {"outcome":"match","rest":$NONE,"state":"settled"}
a1 POST /v1/readback {"nr":5,"chip":"00000000000a","blocks":<3.0=000000ac>}
409 {"error":"other_body","no":12}
a1 POST /v1/readback {"nr":6,"chip":"00000000000a","blocks":[]}
400 {"error":"bad_member","no":10}
# 65 wishes, and 64: the bits 100 to 163
a1 POST /v1/plan {"nr":6,"chip":"00000000000a","wishes":[$TIMES~64~{"kind":"bit","field":"BLOCK3","index":#},~{"kind":"wlock","field":"BLOCK3"}]}
400 {"error":"bad_member","no":10}
a1 POST /v1/plan {"nr":6,"chip":"00000000000a","wishes":[$TIMES~63~{"kind":"bit","field":"BLOCK3","index":#},~{"kind":"bit","field":"BLOCK3","index":163}]}
200 {"batch1":{"bits":[
    {"block":3,"mask":"fffffff0","word":3},
    {"block":3,"mask":"ffffffff","word":4},
    {"block":3,"mask":"0000000f","word":5}],
    "keys":{}},
  "batch2":$NONE,"state":"awaiting1"}
"#;
