//! Copies that come behind their refusal: the API's page, "A late copy".

use crate::table::{Row, differing_row};
use seat_core::Event;
use std::test::Fail;

/// The requests 5 and 6 were sent again and refused, as their order was full.
const KEPT_TWO: &[Event] = &[
    Event::Start,
    Event::Refuse(11, 7),
    Event::Want(5),
    Event::Miss,
    Event::Refuse(18, 0),
    Event::Want(6),
    Event::Miss,
    Event::Refuse(18, 0),
];

/// The next request is refused as 12: a copy of one of these was accepted.
const REFUSED: &[Event] = &[
    Event::Start,
    Event::Refuse(11, 7),
    Event::Want(5),
    Event::Miss,
    Event::Refuse(18, 0),
    Event::Want(6),
    Event::Miss,
    Event::Refuse(18, 0),
    Event::Want(4),
    Event::Refuse(12, 0),
];

/// It wasn't the first of them.
const TRIED: &[Event] = &[
    Event::Start,
    Event::Refuse(11, 7),
    Event::Want(5),
    Event::Miss,
    Event::Refuse(18, 0),
    Event::Want(6),
    Event::Miss,
    Event::Refuse(18, 0),
    Event::Want(4),
    Event::Refuse(12, 0),
    Event::Refuse(12, 0),
];

/// The same, where the next request was sent again.
const AGAIN: &[Event] = &[
    Event::Start,
    Event::Refuse(11, 7),
    Event::Want(5),
    Event::Miss,
    Event::Refuse(18, 0),
    Event::Want(4),
    Event::Start,
    Event::Refuse(12, 0),
];

/// It was sent once, and refused as 6: a copy of it may be done all the same.
const SENT_ONCE: &[Event] = &[
    Event::Start,
    Event::Refuse(11, 7),
    Event::Want(5),
    Event::Refuse(6, 0),
    Event::Want(4),
    Event::Refuse(12, 0),
];

const ROWS: &[Row] = &[
    // each that was refused is kept, however often it was sent, until the next one is accepted
    Row {
        before: KEPT_TWO,
        event: Event::Want(4),
        acts: "write; log 7 4; send 7 4",
        file: "under way 7 4, aside 5, aside 6",
    },
    Row {
        before: &[
            Event::Start,
            Event::Refuse(11, 7),
            Event::Want(5),
            Event::Miss,
            Event::Refuse(18, 0),
            Event::Want(4),
        ],
        event: Event::Accept(90),
        acts: "log 7 done 90; write; tell 4 done 90",
        file: "free 8",
    },
    // at 12 the kept ones are sent again, with the number that they had
    Row {
        before: &[
            Event::Start,
            Event::Refuse(11, 7),
            Event::Want(5),
            Event::Miss,
            Event::Refuse(18, 0),
            Event::Want(4),
        ],
        event: Event::Refuse(12, 0),
        acts: "send 7 5",
        file: "under way 7 4, aside 5",
    },
    Row {
        before: REFUSED,
        event: Event::Refuse(12, 0),
        acts: "send 7 6",
        file: "under way 7 4, aside 5, aside 6",
    },
    Row {
        before: REFUSED,
        event: Event::Miss,
        acts: "pause; send 7 5",
        file: "under way 7 4, aside 5, aside 6",
    },
    // the one that was accepted gets its reply: the log gets it, and what was sent with the number
    // gets the next one
    Row {
        before: REFUSED,
        event: Event::Accept(91),
        acts: "log 7 not 12; log 7 5; log 7 done 91; write; show late 5; log 8 4; send 8 4",
        file: "under way 8 4",
    },
    Row {
        before: TRIED,
        event: Event::Accept(91),
        acts: "log 7 not 12; log 7 6; log 7 done 91; write; show late 6; log 8 4; send 8 4",
        file: "under way 8 4",
    },
    Row {
        before: AGAIN,
        event: Event::Accept(91),
        acts: "log 7 not 12; log 7 5; log 7 done 91; write; show late 5; log 8 4; send 8 4",
        file: "under way 8 4",
    },
    Row {
        before: SENT_ONCE,
        event: Event::Accept(91),
        acts: "log 7 not 12; log 7 5; log 7 done 91; write; show late 5; log 8 4; send 8 4",
        file: "under way 8 4",
    },
    // where no kept request is accepted, the station stops
    Row {
        before: TRIED,
        event: Event::Refuse(12, 0),
        acts: "log 7 not 12; write; show stopped 12 0",
        file: "free 7, aside 5, aside 6, aside 4, stopped 12",
    },
    Row {
        before: AGAIN,
        event: Event::Refuse(12, 0),
        acts: "write; show stopped 12 0",
        file: "under way 7 4, aside 5, stopped 12",
    },
    // at 11 it stops, whatever it kept
    Row {
        before: &[
            Event::Start,
            Event::Refuse(11, 7),
            Event::Want(5),
            Event::Miss,
            Event::Refuse(18, 0),
            Event::Want(4),
        ],
        event: Event::Refuse(11, 9),
        acts: "log 7 not 11; write; show stopped 11 9",
        file: "free 7, aside 5, aside 4, stopped 11",
    },
    // where a kept one gets another refusal, the number isn't the last one any more
    Row {
        before: REFUSED,
        event: Event::Refuse(18, 0),
        acts: "log 7 not 12; write; show stopped 18 0",
        file: "free 7, aside 5, aside 6, aside 4, stopped 18",
    },
    Row {
        before: AGAIN,
        event: Event::Refuse(11, 9),
        acts: "write; show stopped 11 9",
        file: "under way 7 4, aside 5, stopped 11",
    },
    // a refusal of 1 to 10 comes before the number is looked at
    Row {
        before: REFUSED,
        event: Event::Refuse(6, 0),
        acts: "show unsure 6",
        file: "under way 7 4, aside 5, aside 6",
    },
    // a stop in the middle: the request under way is sent again, as after any start
    Row {
        before: REFUSED,
        event: Event::Start,
        acts: "log 7 4; send 7 4",
        file: "under way 7 4, aside 5, aside 6",
    },
];

/// What a station does where copies come late.
#[test]
fn late_copies_are_found(rt: HostRuntime) -> Result<(), Fail> {
    assert_eq!(rt; differing_row(rt.alloc(), ROWS)?, None);
    Ok(())
}

/// A seventeenth request is kept aside: the first one is forgotten, as what may be kept is bounded.
#[test]
fn the_oldest_is_forgotten(rt: HostRuntime) -> Result<(), Fail> {
    let mut station = seat_core::Station::new(rt.alloc())?;
    let _acts = station.step(Event::Start);
    let _acts = station.step(Event::Refuse(11, 7));
    for request in 1u64..18 {
        let _acts = station.step(Event::Want(request));
        let _acts = station.step(Event::Refuse(18, 0));
    }
    let aside = station.file.aside.as_slice();
    assert_eq!(rt; aside.len(), 16);
    assert_eq!(rt; aside.first().copied(), Some(2));
    assert_eq!(rt; aside.last().copied(), Some(17));
    Ok(())
}
