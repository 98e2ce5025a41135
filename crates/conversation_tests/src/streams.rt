//! Streams: where they end, what they are refused for, in what pieces they come, and readers and
//! writers that are interrupted or fail.
ghost use Rattle.std.specs.Prelude.{◌<◌, None};

use station_api::{Counted, Failing, Interrupted, Pieces, Served, Source, Transfer, Written};
use std::alloc::Global;
use std::str;
use std::test::Fail;
use test_fixtures::samples::SITE;
use test_fixtures::streams::{
    BAD_HEAD, CHUNKS_REFUSED, CUT_ORDER, IN_CHUNKS, LONG_HEAD, ORDER, ORDERED, with_orders,
};
use test_support::conversation::{first_difference, serve, served_by};
use test_support::keepers::{Fresh, KeeperCase, over_database, over_each, over_memory};

/// Streams over an empty store, in which `$ORDER` stands for the order and `$ORDERED` for its reply:
/// what is written, and how the stream ends.
const STREAMS: &[(&str, &str, Served)] = &[
    ("", "", Served::Ended),
    ("$ORDER$ORDER", "$ORDERED$ORDERED", Served::Ended),
    (CUT_ORDER, "", Served::Cut),
    // 65,536 bytes.
    (
        "POST /v1/order HTTP/1.1\r\nAuthorization: Bearer abc\r\nContent-Length: 65536\r\n\r\n{\"nr\":1,\"name\":\"o1\",\"issuer\":\"acme-ca\",\"prefix\":\"A\",\"width\":3,\"first\":998,\"quantity\":2,\"macs\":0}$TIMES~65440~ ~",
        "$ORDERED",
        Served::Ended,
    ),
    (
        "POST /v1/order HTTP/1.1\r\nAuthorization: Bearer abc\r\nContent-Length: 65537\r\n\r\n",
        "HTTP/1.1 413 Payload Too Large\r\nContent-Type: application/json\r\nContent-Length: 28\r\nConnection: close\r\n\r\n{\"error\":\"too_large\",\"no\":3}",
        Served::Closed,
    ),
    (IN_CHUNKS, CHUNKS_REFUSED, Served::Closed),
    (
        "POST /v1/order HTTP/1.1\r\nContent-Length: 96\r\nContent-Length: 96\r\n\r\n",
        "HTTP/1.1 400 Bad Request\r\nContent-Type: application/json\r\nContent-Length: 29\r\nConnection: close\r\n\r\n{\"error\":\"bad_length\",\"no\":2}",
        Served::Closed,
    ),
    // The stream goes on after an unknown token, and after a method that no path has.
    (
        "GET /v1/none HTTP/1.1\r\nAuthorization: Bearer zzz\r\n\r\nHEAD /v1/order?name=o1 HTTP/1.1\r\nAuthorization: Bearer abc\r\n\r\n$ORDER",
        "HTTP/1.1 401 Unauthorized\r\nContent-Type: application/json\r\nContent-Length: 32\r\nWWW-Authenticate: Bearer\r\n\r\n{\"error\":\"unknown_token\",\"no\":6}HTTP/1.1 404 Not Found\r\nContent-Type: application/json\r\nContent-Length: 31\r\n\r\n$ORDERED",
        Served::Ended,
    ),
    // A line end after the last request begins another head.
    ("$ORDER\r\n", "$ORDERED", Served::Cut),
];

/// The lengths of the pieces in which streams come.
const STEPS: &[usize] = &[1, 7, 97, 65_536];

/// How many bytes of a reply a writer takes before it fails.
const TAKEN: &[u32] = &[0, 10, 72, 100];

/// What is found where the order stands: it is shown, its request comes again, and another with its
/// number is refused.
const STANDING: &str = r#"
a1 GET /v1/order?name=o1
200 {"first":998,"issuer":"acme-ca","mac":null,"macs":0,"name":"o1","next":"A998","not_before":null,
  "prefix":"A","quantity":2,"width":3}
a1 POST /v1/order {"nr":1,"name":"o1","issuer":"acme-ca","prefix":"A","width":3,"first":998,"quantity":1,"macs":0}
409 {"error":"other_body","no":12}
a1 POST /v1/order {"nr":1,"name":"o1","issuer":"acme-ca","prefix":"A","width":3,"first":998,"quantity":2,"macs":0}
200 {"first":998,"issuer":"acme-ca","mac":null,"macs":0,"name":"o1","next":"A998","not_before":null,
  "prefix":"A","quantity":2,"width":3}
"#;

/// What differs where a stream ended with this written: its end or what was written. Nothing where
/// neither does.
fn difference_of_end(
    alloc: Global,
    wanted: (Served, &[u8]),
    got: (Served, &[u8]),
) -> Result<String, Fail> {
    if got == wanted {
        return Ok(String::new(alloc));
    }
    let (end, written) = wanted;
    let bytes = str::from_utf8(written).unwrap_or("no text");
    let text = str::from_utf8(got.1).unwrap_or("no text");
    Ok(format!(in alloc; "{end:?} {bytes} -> {:?} {text}", got.0)?)
}

/// Serves a stream that comes in pieces of `step` bytes over a keeper without rows: what differs of
/// its end and of what is written.
fn difference_in_pieces<K: Fresh>(
    alloc: Global,
    row: &(&str, &str, Served),
    step: usize,
) -> Result<String, Fail> {
    let stream = with_orders(alloc, row.0)?;
    let wanted = with_orders(alloc, row.1)?;
    let mut keep = K::fresh(alloc)?;
    let (served, writer) = serve(alloc, &mut keep, stream.as_bytes(), step.max(1))?;
    difference_of_end(alloc, (row.2, wanted.as_bytes()), (served, writer.bytes()))
}

/// Serves a stream in pieces of each length: what differs first of its end and of what is written, behind
/// the length.
fn first_difference_in_pieces<K: Fresh>(
    alloc: Global,
    row: &(&str, &str, Served),
) -> Result<String, Fail> {
    for step in STEPS {
        let found = difference_in_pieces::<K>(alloc, row, *step)?;
        if !found.is_empty() {
            return Ok(format!(in alloc; "pieces of {step}: {found}")?);
        }
    }
    Ok(String::new(alloc))
}

/// Streams in pieces.
struct Ends;

impl KeeperCase for Ends {
    fn first_difference<K: Fresh>(&self, alloc: Global) -> Result<String, Fail> {
        for row in STREAMS {
            let found = first_difference_in_pieces::<K>(alloc, row)?;
            if !found.is_empty() {
                return Ok(format!(in alloc; "{}: {found}", row.0)?);
            }
        }
        Ok(String::new(alloc))
    }
}

#[test]
fn streams_end_as_they_must(rt: HostRuntime) -> Result<(), Fail> {
    assert_eq!(rt; over_each(rt.alloc(), &Ends)?.as_str(), "");
    Ok(())
}

/// The request that shows the order where there is none, with its reply.
const NO_ORDER: &str = r#"
a1 GET /v1/order?name=o1
404 {"error":"unknown_order","no":14}
"#;

/// Serves the order without its end, of which so many bytes are there, over a keeper without rows:
/// what differs where it gets nothing, and there is no order then.
fn difference_of_cut<K: Fresh>(alloc: Global, count: usize) -> Result<String, Fail> {
    let mut keep = K::fresh(alloc)?;
    let front = ORDER.get(..count).ok_or("no such front")?;
    let (served, writer) = serve(alloc, &mut keep, front.as_bytes(), 4096)?;
    let found = difference_of_end(alloc, (Served::Cut, b""), (served, writer.bytes()))?;
    if !found.is_empty() {
        return Ok(found);
    }
    first_difference(alloc, &mut keep, NO_ORDER)
}

/// Serves a head that doesn't end over a keeper without rows: what differs where it is refused, and
/// the stream with it.
fn difference_of_long_head<K: Fresh>(alloc: Global) -> Result<String, Fail> {
    let stream = "a".repeat(alloc, LONG_HEAD)?;
    difference_in_pieces::<K>(alloc, &(stream.as_str(), BAD_HEAD, Served::Closed), 4096)
}

/// The order without its end, of each so many bytes that the number divides, and a head that doesn't end.
struct Cuts(usize);

impl KeeperCase for Cuts {
    fn first_difference<K: Fresh>(&self, alloc: Global) -> Result<String, Fail> {
        for count in 1..ORDER.len() {
            if count % self.0.max(1) == 0 {
                let found = difference_of_cut::<K>(alloc, count)?;
                if !found.is_empty() {
                    return Ok(format!(in alloc; "{count} bytes: {found}")?);
                }
            }
        }
        difference_of_long_head::<K>(alloc)
    }
}

/// Wherever the order ends before its end; over SQL at every 16th place. And a head that doesn't end.
#[test]
fn requests_without_their_ends_are_cut_or_refused(rt: HostRuntime) -> Result<(), Fail> {
    assert_eq!(rt; over_memory(rt.alloc(), &Cuts(1))?.as_str(), "");
    assert_eq!(rt; over_database(rt.alloc(), &Cuts(16))?.as_str(), "");
    Ok(())
}

/// A reader that is interrupted at each call.
#[derive(Drop)]
struct Disturbed {
    calls: u64,
}

impl Source for Disturbed {
    ghost left = { λ s. None };

    ghost calls = { λ s. s.calls };

    ghost failures = { λ s. 0 };

    fn read(&mut self, _room: &mut [u8]) -> Transfer {
        self.calls += 1;
        Transfer::Interrupted
    }
}

/// How many calls a stream may make.
const CALLS: u64 = 16_777_216;

/// A stream whose reader is interrupted at each call, which ends after so many calls as one may make.
struct CallLimit;

impl KeeperCase for CallLimit {
    fn first_difference<K: Fresh>(&self, alloc: Global) -> Result<String, Fail> {
        let mut keep = K::fresh(alloc)?;
        let mut reader = Disturbed { calls: 0 };
        let mut writer = Written::new(Vec::new(alloc), 4096);
        let served = served_by(alloc, &mut keep, SITE, &mut reader, &mut writer)?;
        if reader.calls != CALLS {
            return Ok(format!(in alloc; "{CALLS} calls -> {}", reader.calls)?);
        }
        difference_of_end(alloc, (Served::TurnLimit, b""), (served, writer.bytes()))
    }
}

#[test]
fn readers_that_never_read_end_at_the_limit(rt: HostRuntime) -> Result<(), Fail> {
    assert_eq!(rt; over_memory(rt.alloc(), &CallLimit)?.as_str(), "");
    Ok(())
}

/// Serves an order though reader and writer are interrupted at every second call: what differs.
fn difference_after_interruptions<K: Fresh>(alloc: Global) -> Result<String, Fail> {
    let mut keep = K::fresh(alloc)?;
    let mut reader = Interrupted::new(Pieces::new(ORDER.as_bytes(), 10));
    let mut writer = Interrupted::new(Written::new(Vec::new(alloc), 10));
    let served = served_by(alloc, &mut keep, SITE, &mut reader, &mut writer)?;
    let got = (served, writer.inner().bytes());
    difference_of_end(alloc, (Served::Ended, ORDERED.as_bytes()), got)
}

/// Serves an order whose reader fails inside of it: what differs where nothing is written.
fn difference_where_the_reader_fails<K: Fresh>(alloc: Global) -> Result<String, Fail> {
    let mut keep = K::fresh(alloc)?;
    let mut reader = Failing::new(Pieces::new(ORDER.as_bytes(), 1), 100);
    let mut writer = Written::new(Vec::new(alloc), 4096);
    let served = served_by(alloc, &mut keep, SITE, &mut reader, &mut writer)?;
    difference_of_end(alloc, (Served::ReadFault, b""), (served, writer.bytes()))
}

/// Serves an order to a writer that takes ten bytes and then none, with no error: what differs
/// where it has the first of the reply.
fn difference_at_a_full_writer<K: Fresh>(alloc: Global) -> Result<String, Fail> {
    let mut keep = K::fresh(alloc)?;
    let mut room = [0u8; 10];
    let mut reader = Pieces::new(ORDER.as_bytes(), 4096);
    let mut writer = Counted::new(room.as_mut_slice());
    let served = served_by(alloc, &mut keep, SITE, &mut reader, &mut writer)?;
    let wanted = ORDERED.as_bytes().get(..10).ok_or("no such front")?;
    difference_of_end(
        alloc,
        (Served::WriteFault, wanted),
        (served, room.as_slice()),
    )
}

/// Serves an order to a writer that takes so many bytes and then fails, over a keeper without rows:
/// what differs where it has these of the reply, and the order stands then.
fn difference_where_the_writer_fails<K: Fresh>(alloc: Global, taken: u32) -> Result<String, Fail> {
    let mut keep = K::fresh(alloc)?;
    let mut reader = Pieces::new(ORDER.as_bytes(), 4096);
    let mut writer = Failing::new(Written::new(Vec::new(alloc), 1), taken);
    let served = served_by(alloc, &mut keep, SITE, &mut reader, &mut writer)?;
    let wanted = ORDERED
        .as_bytes()
        .get(..taken as usize)
        .ok_or("no such front")?;
    let got = (served, writer.inner().bytes());
    let found = difference_of_end(alloc, (Served::WriteFault, wanted), got)?;
    if !found.is_empty() {
        return Ok(found);
    }
    first_difference(alloc, &mut keep, STANDING)
}

/// Readers and writers that fail.
struct Failures;

impl KeeperCase for Failures {
    fn first_difference<K: Fresh>(&self, alloc: Global) -> Result<String, Fail> {
        let mut found = difference_after_interruptions::<K>(alloc)?;
        if found.is_empty() {
            found = difference_where_the_reader_fails::<K>(alloc)?;
        }
        if found.is_empty() {
            found = difference_at_a_full_writer::<K>(alloc)?;
        }
        for taken in TAKEN {
            if found.is_empty() {
                found = difference_where_the_writer_fails::<K>(alloc, *taken)?;
            }
        }
        Ok(found)
    }
}

#[test]
fn readers_and_writers_may_fail(rt: HostRuntime) -> Result<(), Fail> {
    assert_eq!(rt; over_each(rt.alloc(), &Failures)?.as_str(), "");
    Ok(())
}
