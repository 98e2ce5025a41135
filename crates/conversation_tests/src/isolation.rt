//! What a seat is answered whatever the seats of another customer ask, by streams and by lists.
use std::alloc::{AllocError, Global};
use std::test::Fail;
use test_fixtures::conversations::devices::{ACME, BOLT};
use test_fixtures::conversations::{Exchange, exchanges};
use test_fixtures::numbered::numbered;
use test_fixtures::samples::SITE;
use test_support::conversation::{first_difference_of, in_turns};
use test_support::keepers::{Fresh, KeeperCase, over_each, over_memory};
use test_support::lists::first_difference_in_list;

/// The orders in which the requests of two seats can come, of each conversation alone and of both.
pub const TURNS: &[&str] = &[
    "aaaa", "bbbb", "aaabbbab", "aababbab", "aabbabab", "aabbbaab", "abaabbab", "abababab",
    "ababbaab", "abbaabab", "abbabaab", "abbbaaab", "baaabbab", "baababab", "baabbaab", "babaabab",
    "bababaab", "babbaaab", "bbaaabab", "bbaabaab", "bbabaaab", "bbbaaaab",
];

/// One map that both customers import, and a device of each that is registered under it: what each
/// shows of it is its own, and neither has the other's.
const SHARED_MAP: &str = r#"
a1 POST /v1/map {"nr":1,"text":"$MAP"}
200 {"map":"$DIGEST"}
b1 POST /v1/map {"nr":1,"text":"$MAP"}
200 {"map":"$DIGEST"}
a1 POST /v1/order {"nr":2,"name":"o1","issuer":"acme-ca","prefix":"A","width":3,"first":998,"quantity":2,"macs":0}
200 {"first":998,"issuer":"acme-ca","mac":null,"macs":0,"name":"o1","next":"A998","not_before":null,
  "prefix":"A","quantity":2,"width":3}
b1 POST /v1/order {"nr":2,"name":"o1","issuer":"bolt-ca","prefix":"B","width":3,"first":998,"quantity":2,"macs":0}
200 {"first":998,"issuer":"bolt-ca","mac":null,"macs":0,"name":"o1","next":"B998","not_before":null,
  "prefix":"B","quantity":2,"width":3}
a1 POST /v1/device {"nr":3,"chip":"00000000000a","order":"o1","map":"$DIGEST","blocks":<>}
200 {"bits":[],"chip":"00000000000a","keys":{},"map":"$DIGEST","order":"o1",
  "pending":{"batch1":$NONE,"batch2":$NONE},"reason":null,"serial":null,"state":"registered"}
b1 POST /v1/device {"nr":3,"chip":"00000000000b","order":"o1","map":"$DIGEST","blocks":<3.7=80000000>}
200 {"bits":[{"block":3,"mask":"80000000","word":7}],"chip":"00000000000b","keys":{},
  "map":"$DIGEST","order":"o1","pending":{"batch1":$NONE,"batch2":$NONE},"reason":null,
  "serial":null,"state":"registered"}
a1 GET /v1/device?chip=00000000000a
200 {"bits":[],"chip":"00000000000a","keys":{},"map":"$DIGEST","order":"o1",
  "pending":{"batch1":$NONE,"batch2":$NONE},"reason":null,"serial":null,"state":"registered"}
b1 GET /v1/device?chip=00000000000b
200 {"bits":[{"block":3,"mask":"80000000","word":7}],"chip":"00000000000b","keys":{},
  "map":"$DIGEST","order":"o1","pending":{"batch1":$NONE,"batch2":$NONE},"reason":null,
  "serial":null,"state":"registered"}
a1 GET /v1/device?chip=00000000000b
404 {"error":"unknown_device","no":15}
b1 GET /v1/device?chip=00000000000a
404 {"error":"unknown_device","no":15}
"#;

/// How many orders a customer may have.
const ORDER_LIMIT: u64 = 4096;

/// An order of acme's, in which `#` stands for its number.
const NUMBERED: &str = r#"
a1 POST /v1/order {"nr":#,"name":"o#","issuer":"acme-ca","prefix":"A#","width":1,"first":0,"quantity":1,"macs":0}
200 {"first":0,"issuer":"acme-ca","mac":null,"macs":0,"name":"o#","next":"A#0","not_before":null,
  "prefix":"A#","quantity":1,"width":1}
"#;

/// The order that is one too many.
const ONE_MORE: &str = r#"
a1 POST /v1/order {"nr":4097,"name":"o4097","issuer":"acme-ca","prefix":"A4097","width":1,"first":0,"quantity":1,"macs":0}
409 {"error":"limit","no":40}
"#;

/// The first order of bolt's.
const FIRST_OF_BOLT: &str = r#"
b1 POST /v1/order {"nr":1,"name":"o1","issuer":"bolt-ca","prefix":"A1","width":1,"first":0,"quantity":1,"macs":0}
200 {"first":0,"issuer":"bolt-ca","mac":null,"macs":0,"name":"o1","next":"A10","not_before":null,
  "prefix":"A1","quantity":1,"width":1}
"#;

/// The conversation in which acme makes as many orders as a customer may have, each of a name and of
/// serial numbers of its own, and is refused one more.
fn orders_to_the_limit(alloc: Global) -> Result<String, AllocError> {
    let mut conversation = numbered(alloc, NUMBERED, "#", 1, ORDER_LIMIT + 1)?;
    conversation.push_str(ONE_MORE)?;
    Ok(conversation)
}

/// Holds a conversation in both ways: what differs first.
fn first_in_conversation<K: Fresh>(alloc: Global, conversation: &str) -> Result<String, Fail> {
    let exchanges = exchanges(alloc, conversation)?;
    first_of_both_ways::<K>(alloc, exchanges.as_slice())
}

/// Bolt's first order, over a keeper without rows and then over another behind all of acme's orders.
struct BesideOrders;

impl KeeperCase for BesideOrders {
    fn first_difference<K: Fresh>(&self, alloc: Global) -> Result<String, Fail> {
        let found = first_in_conversation::<K>(alloc, FIRST_OF_BOLT)?;
        if !found.is_empty() {
            return Ok(found);
        }
        let mut conversation = orders_to_the_limit(alloc)?;
        conversation.push_str(FIRST_OF_BOLT)?;
        first_in_conversation::<K>(alloc, conversation.as_str())
    }
}

/// Makes exchanges over a keeper without rows, a stream for each, and by one list over another: what
/// differs first.
fn first_of_both_ways<K: Fresh>(alloc: Global, exchanges: &[Exchange<'_>]) -> Result<String, Fail> {
    let found = first_difference_of(alloc, &mut K::fresh(alloc)?, exchanges)?;
    if !found.is_empty() {
        return Ok(found);
    }
    let found = first_difference_in_list(alloc, &mut K::fresh(alloc)?, SITE, exchanges)?;
    if found.is_empty() {
        return Ok(found);
    }
    Ok(format!(in alloc; "in a list: {found}")?)
}

/// The two seats' conversations in turns.
#[derive(Drop)]
struct InTurns {
    turns: &'static str,
}

impl KeeperCase for InTurns {
    fn first_difference<K: Fresh>(&self, alloc: Global) -> Result<String, Fail> {
        let exchanges = in_turns(alloc, ACME, BOLT, self.turns)?;
        first_of_both_ways::<K>(alloc, exchanges.as_slice())
    }
}

/// Both customers import one map.
struct SharedMap;

impl KeeperCase for SharedMap {
    fn first_difference<K: Fresh>(&self, alloc: Global) -> Result<String, Fail> {
        first_in_conversation::<K>(alloc, SHARED_MAP)
    }
}

/// Three requests of each of two seats in each of the twenty orders in which they can come, and then
/// both ledgers, in streams and in a list: each seat gets the replies that it gets alone.
#[test]
fn seats_are_served_as_if_alone(rt: HostRuntime) -> Result<(), Fail> {
    for turns in TURNS {
        let found = over_each(rt.alloc(), &InTurns { turns: *turns })?;
        assert_eq!(rt; found.as_str(), "", "{turns}");
    }
    Ok(())
}

/// A customer with as many orders as it may have is refused one more, and another's first order gets
/// the reply that it gets in an empty store.
#[test]
fn orders_to_the_limit_leave_another_customer_alone(rt: HostRuntime) -> Result<(), Fail> {
    assert_eq!(rt; over_memory(rt.alloc(), &BesideOrders)?.as_str(), "");
    Ok(())
}

/// Two customers import one text and get one digest, and each has devices under it.
#[test]
fn maps_may_be_shared(rt: HostRuntime) -> Result<(), Fail> {
    assert_eq!(rt; over_each(rt.alloc(), &SharedMap)?.as_str(), "");
    Ok(())
}
