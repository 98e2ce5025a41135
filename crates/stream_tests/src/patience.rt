//! How long a connection holds up the others: clients that say nothing, that are kept, that drip, that
//! send all at once, that take nothing, and those that come behind them, at the bounds of the program;
//! and what is waited for where no connection can be accepted.
use crate::clients::{Failing, Scene, Script, Sent, Taking, served_clients};
use std::alloc::Global;
use std::test::Fail;
use test_fixtures::samples::SITE;

/// A request.
const SHOWN: &str = "GET /v1/order?name=none HTTP/1.1\r\nAuthorization: Bearer abc\r\n\r\n";

/// The first part of a request, and the rest of it.
const PART: &str = "GET /v1/order?na";

const REST: &str = "me=none HTTP/1.1\r\nAuthorization: Bearer abc\r\n\r\n";

/// A request, or the rest of one, with the first part of the next.
const SHOWN_PART: &str =
    "GET /v1/order?name=none HTTP/1.1\r\nAuthorization: Bearer abc\r\n\r\nGET /v1/order?na";

const REST_PART: &str = "me=none HTTP/1.1\r\nAuthorization: Bearer abc\r\n\r\nGET /v1/order?na";

/// The rest of a request with a whole one behind it.
const REST_SHOWN: &str =
    "me=none HTTP/1.1\r\nAuthorization: Bearer abc\r\n\r\nGET /v1/order?name=none HTTP/1.1\r\nAuthorization: Bearer abc\r\n\r\n";

/// An order with a name and a prefix of its own, by its number.
const ORDERS: &str =
    "POST /v1/order HTTP/1.1\r\nAuthorization: Bearer abc\r\nContent-Length: 132\r\n\r\n{\"nr\":#,\"name\":\"order-of-thirty-two-letters.@\",\"issuer\":\"acme-ca\",\"prefix\":\"A@-\",\"width\":1,\"first\":0,\"quantity\":1,\"macs\":0}";

/// The head and the body of an order, with room for 65,440 bytes between them.
const LONG_HEAD: &str =
    "POST /v1/order HTTP/1.1\r\nAuthorization: Bearer abc\r\nContent-Length: 65536\r\n\r\n";

const BODY: &str =
    "{\"nr\":1,\"name\":\"o1\",\"issuer\":\"acme-ca\",\"prefix\":\"A\",\"width\":3,\"first\":998,\"quantity\":2,\"macs\":0}";

/// The report of the orders.
const REPORT: &str = "GET /v1/report HTTP/1.1\r\nAuthorization: Bearer abc\r\n\r\n";

/// A client that takes at once what it is sent.
const ALL: Taking = Taking::After(0);

/// A client that asks once at its third second and then closes its side.
const SECOND: Script = (3_000, &[(3_000, SHOWN, 1), (3_000, "", 1)], ALL);

/// Requests each 40 ms, and two more with the last.
const AND_AT_ONCE: &[Sent] = &[
    (2_900, SHOWN, 1),
    (2_940, SHOWN, 1),
    (2_980, SHOWN, 1),
    (3_020, SHOWN, 1),
    (3_060, SHOWN, 1),
    (3_100, SHOWN, 1),
    (3_140, SHOWN, 1),
    (3_180, SHOWN, 1),
    (3_220, SHOWN, 1),
    (3_260, SHOWN, 1),
    (3_300, SHOWN, 1),
    (3_340, SHOWN, 1),
    (3_380, SHOWN, 1),
    (3_380, SHOWN, 1),
    (3_380, SHOWN, 1),
];

/// What clients do that say nothing or are kept, and of each the statuses and lengths of the replies that
/// it took and when its connection was closed, in milliseconds. Where another connection waits that is seen
/// behind at most 50 of them.
const KEPT: &[(&str, &[Script], &str)] = &[
    (
        "says nothing, alone",
        &[(0, &[], ALL)],
        "0 bytes until 10000",
    ),
    (
        "says nothing, and another comes",
        &[(0, &[], ALL), SECOND],
        "0 bytes until 3000, 404:33 until 3000",
    ),
    (
        "says nothing, and another comes at once",
        &[(0, &[], ALL), (100, &[(100, SHOWN, 1), (100, "", 1)], ALL)],
        "0 bytes until 2000, 404:33 until 2000",
    ),
    (
        "is kept with pauses of a second, alone",
        &[(
            0,
            &[
                (0, SHOWN, 1),
                (1_000, SHOWN, 1),
                (2_000, SHOWN, 1),
                (3_000, "", 1),
            ],
            ALL,
        )],
        "3x404:33 until 3000",
    ),
    (
        "is kept with a pause of less than ten seconds, alone",
        &[(0, &[(0, SHOWN, 1), (9_990, SHOWN, 1), (9_990, "", 1)], ALL)],
        "2x404:33 until 9990",
    ),
    (
        "is kept with a pause of ten seconds, alone",
        &[(0, &[(0, SHOWN, 1), (10_001, SHOWN, 1)], ALL)],
        "404:33 until 10000",
    ),
    (
        "is kept and says nothing, and another comes",
        &[(0, &[(0, SHOWN, 1)], ALL), SECOND],
        "404:33 until 3000, 404:33 until 3000",
    ),
    (
        "is kept and asks each 40 ms, and another comes",
        &[
            (
                2_900,
                &[
                    (2_900, SHOWN, 1),
                    (2_940, SHOWN, 1),
                    (2_980, SHOWN, 1),
                    (3_020, SHOWN, 1),
                    (3_060, SHOWN, 1),
                    (3_100, SHOWN, 1),
                ],
                ALL,
            ),
            SECOND,
        ],
        "6x404:33 until 3150, 404:33 until 3150",
    ),
    (
        "is kept and goes on to ask each 40 ms, and another comes",
        &[
            (
                2_900,
                &[
                    (2_900, SHOWN, 1),
                    (2_940, SHOWN, 1),
                    (2_980, SHOWN, 1),
                    (3_020, SHOWN, 1),
                    (3_060, SHOWN, 1),
                    (3_100, SHOWN, 1),
                    (3_140, SHOWN, 1),
                    (3_180, SHOWN, 1),
                    (3_220, SHOWN, 1),
                    (3_260, SHOWN, 1),
                    (3_300, SHOWN, 1),
                    (3_340, SHOWN, 1),
                    (3_380, SHOWN, 1),
                    (3_420, SHOWN, 1),
                    (3_460, SHOWN, 1),
                ],
                ALL,
            ),
            SECOND,
        ],
        "13x404:33 until 3380, 404:33 until 3380",
    ),
    (
        "asks each 40 ms and then at once, and another comes",
        &[(2_900, AND_AT_ONCE, ALL), SECOND],
        "15x404:33 until 3380, 404:33 until 3380",
    ),
    (
        "asks so, and its stream can't be made to wait again",
        &[(2_900, AND_AT_ONCE, Taking::Stuck), SECOND],
        "14x404:33 until 3380, 404:33 until 3380",
    ),
];

/// What clients do whose next requests are there already, and what became of each: the statuses and lengths
/// of the replies that it took, and when its connection was closed.
const AT_ONCE: &[(&str, &[Script], &str)] = &[
    (
        "has sent its next requests already, and another comes",
        &[
            (
                2_990,
                &[
                    (2_990, SHOWN, 1),
                    (3_000, SHOWN, 1),
                    (3_000, SHOWN, 1),
                    (3_000, SHOWN, 1),
                    (3_001, SHOWN, 1),
                ],
                ALL,
            ),
            SECOND,
        ],
        "5x404:33 until 3051, 404:33 until 3051",
    ),
    (
        "sends 200 requests all at once, alone",
        &[(
            0,
            &[(0, SHOWN, 200), (9_000, SHOWN, 1), (9_000, "", 1)],
            Taking::After(5),
        )],
        "201x404:33 until 9010",
    ),
    (
        "sends 200 requests all at once, and another comes",
        &[(2_990, &[(2_990, SHOWN, 200)], Taking::After(5)), SECOND],
        "40x404:33 until 3390, 404:33 until 3390",
    ),
    (
        "sends 200 requests all at once, each of a second, and another waits",
        &[
            (0, &[(0, SHOWN, 200)], Taking::After(500)),
            (0, &[(0, SHOWN, 1), (0, "", 1)], ALL),
        ],
        "404:33 until 1000, 404:33 until 1000",
    ),
    (
        "sends 200 requests all at once, each of a second, and another comes in the middle of the second",
        &[
            (0, &[(0, SHOWN, 200)], Taking::After(500)),
            (1_500, &[(1_500, SHOWN, 1), (1_500, "", 1)], ALL),
        ],
        "2x404:33 until 2000, 404:33 until 2000",
    ),
];

/// What clients do that send their requests in parts, and what became of each.
const IN_PARTS: &[(&str, &[Script], &str)] = &[
    (
        "sends a request in two parts",
        &[
            (0, &[(0, PART, 1), (9_990, REST, 1), (9_990, "", 1)], ALL),
            SECOND,
        ],
        "404:33 until 9990, 404:33 until 9990",
    ),
    (
        "sends a request in two parts, the second too late",
        &[(0, &[(0, PART, 1), (10_001, REST, 1)], ALL), SECOND],
        "0 bytes until 10000, 404:33 until 10000",
    ),
    (
        "waits nine seconds, and sends a request in two parts five seconds apart",
        &[(
            0,
            &[(9_000, PART, 1), (14_000, REST, 1), (14_000, "", 1)],
            ALL,
        )],
        "404:33 until 14000",
    ),
    (
        "sends a byte each four seconds",
        &[
            (
                0,
                &[
                    (0, "G", 1),
                    (4_000, "E", 1),
                    (8_000, "T", 1),
                    (12_000, " ", 1),
                    (16_000, "/", 1),
                ],
                ALL,
            ),
            SECOND,
        ],
        "0 bytes until 10000, 404:33 until 10000",
    ),
    (
        "sends a request of 65,536 bytes in three parts",
        &[(
            0,
            &[
                (0, LONG_HEAD, 1),
                (10, " ", 60_000),
                (20, " ", 5_440),
                (30, BODY, 1),
                (30, "", 1),
            ],
            ALL,
        )],
        "200:132 until 30",
    ),
    (
        "has the next request under way with each reply, alone",
        &[(
            0,
            &[
                (0, SHOWN_PART, 1),
                (9_000, REST_PART, 1),
                (18_000, REST_PART, 1),
                (27_000, REST_PART, 1),
                (36_000, REST_PART, 1),
                (45_000, REST_PART, 1),
                (54_000, REST_PART, 1),
                (63_000, REST, 1),
                (63_000, "", 1),
            ],
            ALL,
        )],
        "8x404:33 until 63000",
    ),
    (
        "has the next request under way with each reply, and another comes",
        &[
            (
                0,
                &[
                    (0, SHOWN_PART, 1),
                    (9_000, REST_PART, 1),
                    (18_000, REST_PART, 1),
                ],
                ALL,
            ),
            SECOND,
        ],
        "2x404:33 until 9000, 404:33 until 9000",
    ),
    (
        "has the next request under way with each reply, and another comes after 62 seconds",
        &[
            (
                0,
                &[
                    (0, SHOWN_PART, 1),
                    (9_000, REST_PART, 1),
                    (18_000, REST_PART, 1),
                    (27_000, REST_PART, 1),
                    (36_000, REST_PART, 1),
                    (45_000, REST_PART, 1),
                    (54_000, REST_PART, 1),
                    (62_000, REST_SHOWN, 1),
                ],
                ALL,
            ),
            (61_999, &[(61_999, SHOWN, 1), (61_999, "", 1)], ALL),
        ],
        "8x404:33 until 62000, 404:33 until 62000",
    ),
];

/// What clients do, by how they take their replies, or with many of them, and what became of each.
const TAKING: &[(&str, &[Script], &str)] = &[
    (
        "takes nothing of its reply",
        &[(0, &[(0, SHOWN, 1), (0, "", 1)], Taking::AtMost(0)), SECOND],
        "0 bytes until 10000, 404:33 until 10000",
    ),
    (
        "takes a byte of its reply each 50 ms",
        &[(0, &[(0, SHOWN, 1), (0, "", 1)], Taking::AtMost(1)), SECOND],
        "404:33 until 5450, 404:33 until 5450",
    ),
    (
        "takes a byte of each of two replies each 50 ms",
        &[(
            0,
            &[(0, SHOWN, 1), (0, SHOWN, 1), (0, "", 1)],
            Taking::AtMost(1),
        )],
        "2x404:33 until 10900",
    ),
    (
        "takes a byte of the replies to two requests in one each 50 ms",
        &[(0, &[(0, SHOWN, 2), (0, "", 1)], Taking::AtMost(1))],
        "404:33 92 bytes until 10000",
    ),
    (
        "has gone when it is replied to",
        &[(0, &[(0, SHOWN, 1), (0, SHOWN, 1)], Taking::Gone), SECOND],
        "0 bytes until 1, 404:33 until 3000",
    ),
    (
        "makes 1,300 orders all at once, and asks for a report of more than 65,536 bytes",
        &[(0, &[(0, ORDERS, 1_300), (0, REPORT, 1), (0, "", 1)], ALL)],
        "1300x200:168 200:66395 until 0",
    ),
];

/// What became of simulated clients, as a text.
fn told(alloc: Global, begun: u64, failing: Failing, scripts: &[Script]) -> Result<String, Fail> {
    let scene = Scene {
        site: SITE,
        begun,
        failing,
        scripts,
        count: u32::try_from(scripts.len()).map_err(|_| "too many clients")?,
    };
    let (accepted, outcomes) = served_clients(alloc, &scene)?;
    let mut text = String::new(alloc);
    if accepted.is_err() {
        text.push_str("no connection")?;
    }
    for outcome in outcomes.iter() {
        let comma = if text.is_empty() { "" } else { ", " };
        text.push_str(comma)?;
        text.push_str(outcome.told(alloc)?.as_str())?;
    }
    Ok(text)
}

/// How long the clocks have run when all begins, in milliseconds: one that was started, and one of sixty
/// days.
const BEGUN: [u64; 2] = [0, 5_184_000_000];

/// The first of the clients that had another outcome where the clocks have run so long, and this outcome.
fn difference_at(
    alloc: Global,
    clients: &[(&str, &[Script], &str)],
    begun: u64,
) -> Result<String, Fail> {
    for row in clients {
        let outcome = told(alloc, begun, &[], row.1)?;
        if outcome.as_str() != row.2 {
            return Ok(format!(in alloc; "{} {begun} -> {}", row.0, outcome.as_str())?);
        }
    }
    Ok(String::new(alloc))
}

/// The first of them by whichever clocks.
fn first_difference(alloc: Global, clients: &[(&str, &[Script], &str)]) -> Result<String, Fail> {
    for begun in BEGUN {
        let found = difference_at(alloc, clients, begun)?;
        if !found.is_empty() {
            return Ok(found);
        }
    }
    Ok(String::new(alloc))
}

#[test]
fn no_kept_connection_holds_the_line(rt: HostRuntime) -> Result<(), Fail> {
    let found = first_difference(rt.alloc(), KEPT)?;
    assert_eq!(rt; found.as_str(), "");
    Ok(())
}

#[test]
fn requests_that_are_there_already_hold_no_line(rt: HostRuntime) -> Result<(), Fail> {
    let found = first_difference(rt.alloc(), AT_ONCE)?;
    assert_eq!(rt; found.as_str(), "");
    Ok(())
}

#[test]
fn requests_in_parts_hold_no_line(rt: HostRuntime) -> Result<(), Fail> {
    let found = first_difference(rt.alloc(), IN_PARTS)?;
    assert_eq!(rt; found.as_str(), "");
    Ok(())
}

#[test]
fn replies_hold_no_line(rt: HostRuntime) -> Result<(), Fail> {
    let found = first_difference(rt.alloc(), TAKING)?;
    assert_eq!(rt; found.as_str(), "");
    Ok(())
}

/// How accepting a connection fails at first, and what became of a client that came at once.
const ACCEPTS: &[(Failing, &str)] = &[
    (&[(103, 1_000), (4, 1_000)], "404:33 until 0"),
    (&[(24, 1)], "404:33 until 100"),
    (
        &[
            (12, 50),
            (23, 50),
            (24, 50),
            (64, 50),
            (71, 50),
            (92, 50),
            (95, 50),
            (100, 50),
            (101, 50),
            (105, 50),
            (112, 50),
            (113, 50),
        ],
        "404:33 until 60000",
    ),
    (&[(24, 601)], "no connection, 0 bytes until 0"),
    (&[(24, 600), (103, 1), (24, 600)], "404:33 until 120000"),
    (&[(9, 1)], "no connection, 0 bytes until 0"),
    (&[(24, 1), (22, 1)], "no connection, 0 bytes until 0"),
];

#[test]
fn what_passes_is_waited_for(rt: HostRuntime) -> Result<(), Fail> {
    const CLIENT: Script = (0, &[(0, SHOWN, 1), (0, "", 1)], ALL);
    for (failing, wanted) in ACCEPTS {
        let told = told(rt.alloc(), 0, failing, &[CLIENT])?;
        assert_eq!(rt; told.as_str(), *wanted, "{failing:?}");
    }
    Ok(())
}
