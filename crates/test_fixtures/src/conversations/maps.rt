//! Conversations about fuse maps: their import, and what they are refused for.

/// The conversations, each under its name.
pub const MAPS: &[(&str, &str)] = &[
    ("a map of two customers", IMPORTS),
    ("refused maps", REFUSED),
    ("requests that are refused unread", UNREAD),
    ("sixteen maps and one more", LIMIT),
];

/// A map that is imported, repeated and imported anew gets one reply, and so does another customer
/// with the same text. With a read lock of the coding field, which is no fault, it is another map.
const IMPORTS: &str = r#"
a1 POST /v1/map {"nr":1,"text":"$MAP"}
200 {"map":"$DIGEST"}
a1 POST /v1/map {"nr":1,"text":"$MAP"}
200 {"map":"$DIGEST"}
b1 POST /v1/map {"nr":1,"text":"$MAP"}
200 {"map":"$DIGEST"}
a1 POST /v1/map {"nr":2,"text":"$MAP"}
200 {"map":"$DIGEST"}
b1 POST /v1/map {"nr":1,"text":"$MAP"}
200 {"map":"$DIGEST"}
b1 POST /v1/map {"nr":2,"text":"$MAP"}
200 {"map":"$DIGEST"}
a1 POST /v1/map {"nr":3,"text":"$MAP~bit = 192\ncount = 2\n~bit = 192\ncount = 2\nread = 3\n~"}
200 {"map":"$LOCKED"}
"#;

/// Texts that are no map's, each with the number of its lowest fault, and then the longest that is
/// one: no refusal took a number. Another customer who has it, too, is known by it.
const REFUSED: &str = r#"
a1 POST /v1/map {"nr":1,"text":"$MAP~[[field]]\nname = \"JTAG_DISABLE\"\nblock = 0\nbit = 198\ncount = 1\nwrite = 14\n~[[field]]\nname = \"JTAG_DISABLE\"\nblock = 0\nbit = 198\ncount = 1\nwrite = 14\n[[field]]\nname = \"JTAG_DISABLE\"\nblock = 0\nbit = 198\ncount = 1\nwrite = 14\n~"}
422 {"error":"bad_map","fault":3,"no":29}
a1 POST /v1/map {"nr":1,"text":"$MAP~bit = 198\n~bit = 15\n~"}
422 {"error":"bad_map","fault":5,"no":29}
a1 POST /v1/map {"nr":1,"text":"$MAP~write = 14\n~write = 16\n~"}
422 {"error":"bad_map","fault":7,"no":29}
a1 POST /v1/map {"nr":1,"text":"$MAP~write = 7\nread = 0\n~write = 7\n~"}
422 {"error":"bad_map","fault":8,"no":29}
a1 POST /v1/map {"nr":1,"text":"$MAP~[[block]]\nwords = 7\n~[[block]\n~"}
422 {"error":"bad_map","fault":1,"no":29}
# 32,769 bytes, and 32,768
a1 POST /v1/map {"nr":1,"text":"$MAP$TIMES~32121~ ~"}
422 {"error":"bad_map","fault":2,"no":29}
a1 POST /v1/map {"nr":1,"text":"$MAP$TIMES~32120~ ~"}
200 {"map":"cb44f8ec61fd4334ed16fb0362d213954fd49c312325aeea4538d133b123c54a"}
b1 POST /v1/map {"nr":1,"text":"$MAP$TIMES~32120~ ~"}
200 {"map":"cb44f8ec61fd4334ed16fb0362d213954fd49c312325aeea4538d133b123c54a"}
"#;

/// Requests that are refused before their text is read.
const UNREAD: &str = r#"
a1 GET /v1/map
404 {"error":"unknown_path","no":7}
a1 POST /v1/map {
400 {"error":"bad_json","no":9}
a1 POST /v1/map {"nr":1,"text":7}
400 {"error":"bad_member","no":10}
a1 POST /v1/map {"nr":2,"text":""}
409 {"error":"wrong_number","expected":1,"no":11}
"#;

/// Sixteen maps, and one more: it is refused, while one of the sixteen is still accepted, and another
/// customer has room. The digests are those of Python's hashlib.
const LIMIT: &str = r#"
a1 POST /v1/map {"nr":1,"text":"$MAP# 1\n"}
200 {"map":"879f9ff4d0d5ed12618006d01a09d8782a5fc5073820b672d2a086dcead2e502"}
a1 POST /v1/map {"nr":2,"text":"$MAP# 2\n"}
200 {"map":"ea1f8b9729f5c9ef7ad1809879b54a0cb0ed833567564b4af4351848fd323d40"}
a1 POST /v1/map {"nr":3,"text":"$MAP# 3\n"}
200 {"map":"0bd4502d30fc14325a8a55e0f5825811327b459c27e9120f4eceb334b9ad3622"}
a1 POST /v1/map {"nr":4,"text":"$MAP# 4\n"}
200 {"map":"87e0b1d42a2cd897ad3c6cfe6856ffbb3cf9334ab368516a1c2d3b7a250025ba"}
a1 POST /v1/map {"nr":5,"text":"$MAP# 5\n"}
200 {"map":"f27c319605cf132d890234d99a770192f5dd32b25463968cc1e57bb25e3e841a"}
a1 POST /v1/map {"nr":6,"text":"$MAP# 6\n"}
200 {"map":"c39ba395d4e4409aa18aac9e6a6fcebccbca1e04fed3130f95d4c5c2eb13036d"}
a1 POST /v1/map {"nr":7,"text":"$MAP# 7\n"}
200 {"map":"810d49f707bedf508ae03632c175e866bcdaf90226976421f2e5330a54bd2d46"}
a1 POST /v1/map {"nr":8,"text":"$MAP# 8\n"}
200 {"map":"d2bad8f30c68bd6ae5410e992e3d5b790ce1e6946cead8947f35e9a88fa2c54e"}
a1 POST /v1/map {"nr":9,"text":"$MAP# 9\n"}
200 {"map":"725ff7ee4e1273490b530664c28cc025a86bf685f4136e0351df5082c0e5e2a1"}
a1 POST /v1/map {"nr":10,"text":"$MAP# 10\n"}
200 {"map":"82f5b3bf4da3a915df81c26c78601bc9e231201f144197d6e7e820e7a2a20a62"}
a1 POST /v1/map {"nr":11,"text":"$MAP# 11\n"}
200 {"map":"8decc5961713345c3fa04cef4011d9620d4853cf05577203c627ce75de7d1bb8"}
a1 POST /v1/map {"nr":12,"text":"$MAP# 12\n"}
200 {"map":"066278d0f60ac0332d9729dffeddd722b2a61620a9253c0d5c6aba6e2d2f9e58"}
a1 POST /v1/map {"nr":13,"text":"$MAP# 13\n"}
200 {"map":"e9e2cd71576b5e76904c8b54694f8f0f31e29209becd58e9212a70f2ea317234"}
a1 POST /v1/map {"nr":14,"text":"$MAP# 14\n"}
200 {"map":"c6337b77b05576092cb7baa6e870b5bdeb3c38efc83fb197bee1c55bdb6d3518"}
a1 POST /v1/map {"nr":15,"text":"$MAP# 15\n"}
200 {"map":"aea37cf7e5a3fe87aae246a66c231ed45a2c15bc91ebe16e95ab3d9a93c8b55a"}
a1 POST /v1/map {"nr":16,"text":"$MAP# 16\n"}
200 {"map":"8e65428835105110f63819325f96d879a20a659287a807006ac412c600454bbd"}
a1 POST /v1/map {"nr":17,"text":"$MAP"}
409 {"error":"limit","no":40}
b1 POST /v1/map {"nr":1,"text":"$MAP"}
200 {"map":"$DIGEST"}
a1 POST /v1/map {"nr":17,"text":"$MAP# 1\n"}
200 {"map":"879f9ff4d0d5ed12618006d01a09d8782a5fc5073820b672d2a086dcead2e502"}
"#;
