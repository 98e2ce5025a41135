//! The rows of the table of states in the API's page, "The protocol of a seat".

use crate::words::{acts_words, file_words};
use seat_core::{Event, Station};
use std::alloc::Global;
use std::test::Fail;

/// What befell a station before, what befalls it now, what it does then, and what its file is.
pub struct Row {
    pub before: &'static [Event],
    pub event: Event,
    pub acts: &'static str,
    pub file: &'static str,
}

/// What a station does at the last of these events, and what its file is then, in words.
pub fn outcome_of(alloc: Global, row: &Row) -> Result<(String, String), Fail> {
    let mut station = Station::new(alloc)?;
    for event in row.before {
        let _acts = station.step(*event);
    }
    let acts = station.step(row.event);
    let acts = acts_words(alloc, acts.as_slice())?;
    Ok((acts, file_words(alloc, &station)?))
}

/// The number of the first row of which this isn't so, from 1 on.
pub fn differing_row(alloc: Global, rows: &[Row]) -> Result<Option<usize>, Fail> {
    for (place, row) in rows.iter().enumerate() {
        let (acts, file) = outcome_of(alloc, row)?;
        if acts.as_str() != row.acts || file.as_str() != row.file {
            return Ok(Some(place + 1));
        }
    }
    Ok(None)
}

const NUMBERED: Event = Event::Refuse(11, 7);

const FREE: &[Event] = &[Event::Start, NUMBERED];

const ONCE: &[Event] = &[Event::Start, NUMBERED, Event::Want(5)];

const AGAIN: &[Event] = &[Event::Start, NUMBERED, Event::Want(5), Event::Miss];

const RESTARTED: &[Event] = &[Event::Start, NUMBERED, Event::Want(5), Event::Start];

/// Stopped, by a refusal of what was sent once and of what may have been sent before.
const STOPPED: &[Event] = &[Event::Start, NUMBERED, Event::Want(5), Event::Refuse(11, 9)];

const STOPPED_AGAIN: &[Event] = &[
    Event::Start,
    NUMBERED,
    Event::Want(5),
    Event::Miss,
    Event::Refuse(12, 0),
];

const LOOKED: &[Event] = &[
    Event::Start,
    NUMBERED,
    Event::Want(5),
    Event::Miss,
    Event::Refuse(12, 0),
    Event::Look,
];

const ROWS: &[Row] = &[
    // unknown: no file, and a start
    Row {
        before: &[],
        event: Event::Start,
        acts: "ask",
        file: "unknown",
    },
    Row {
        before: &[Event::Start],
        event: NUMBERED,
        acts: "write",
        file: "free 7",
    },
    Row {
        before: &[Event::Start],
        event: Event::Miss,
        acts: "pause; ask",
        file: "unknown",
    },
    // free: a request is wanted
    Row {
        before: FREE,
        event: Event::Want(5),
        acts: "write; log 7 5; send 7 5",
        file: "under way 7 5",
    },
    // sent once or again: 200, whole, and of the request
    Row {
        before: ONCE,
        event: Event::Accept(90),
        acts: "log 7 done 90; write; tell 5 done 90",
        file: "free 8",
    },
    Row {
        before: AGAIN,
        event: Event::Accept(90),
        acts: "log 7 done 90; write; tell 5 done 90",
        file: "free 8",
    },
    // no reply, a cut one, 503, or a page that isn't the server's
    Row {
        before: ONCE,
        event: Event::Miss,
        acts: "pause; send 7 5",
        file: "under way 7 5",
    },
    Row {
        before: AGAIN,
        event: Event::Refuse(50, 0),
        acts: "pause; send 7 5",
        file: "under way 7 5",
    },
    // a restart of the station
    Row {
        before: ONCE,
        event: Event::Start,
        acts: "log 7 5; send 7 5",
        file: "under way 7 5",
    },
    Row {
        before: AGAIN,
        event: Event::Start,
        acts: "log 7 5; send 7 5",
        file: "under way 7 5",
    },
    // a refusal of 13 to 42: it is kept aside, however often it was sent
    Row {
        before: ONCE,
        event: Event::Refuse(13, 0),
        acts: "log 7 not 13; write; tell 5 not 13",
        file: "free 7, aside 5",
    },
    Row {
        before: ONCE,
        event: Event::Refuse(42, 0),
        acts: "log 7 not 42; write; tell 5 not 42",
        file: "free 7, aside 5",
    },
    Row {
        before: AGAIN,
        event: Event::Refuse(13, 0),
        acts: "log 7 not 13; write; tell 5 not 13",
        file: "free 7, aside 5",
    },
    Row {
        before: RESTARTED,
        event: Event::Refuse(42, 0),
        acts: "log 7 not 42; write; tell 5 not 42",
        file: "free 7, aside 5",
    },
    // sent once, and a refusal of 1 to 10: the same
    Row {
        before: ONCE,
        event: Event::Refuse(1, 0),
        acts: "log 7 not 1; write; tell 5 not 1",
        file: "free 7, aside 5",
    },
    Row {
        before: ONCE,
        event: Event::Refuse(10, 0),
        acts: "log 7 not 10; write; tell 5 not 10",
        file: "free 7, aside 5",
    },
    // sent once, and 11 or 12: the request is kept aside, and the station stops
    Row {
        before: ONCE,
        event: Event::Refuse(11, 9),
        acts: "log 7 not 11; write; show stopped 11 9",
        file: "free 7, aside 5, stopped 11",
    },
    Row {
        before: ONCE,
        event: Event::Refuse(12, 0),
        acts: "log 7 not 12; write; show stopped 12 0",
        file: "free 7, aside 5, stopped 12",
    },
    // again, and a refusal of 1 to 10: it may be done, and is kept
    Row {
        before: AGAIN,
        event: Event::Refuse(1, 0),
        acts: "show unsure 1",
        file: "under way 7 5",
    },
    Row {
        before: RESTARTED,
        event: Event::Refuse(10, 0),
        acts: "show unsure 10",
        file: "under way 7 5",
    },
    // again, and 11 or 12: it may be done, and is kept, and the station stops
    Row {
        before: AGAIN,
        event: Event::Refuse(11, 9),
        acts: "write; show stopped 11 9",
        file: "under way 7 5, stopped 11",
    },
    Row {
        before: RESTARTED,
        event: Event::Refuse(12, 0),
        acts: "write; show stopped 12 0",
        file: "under way 7 5, stopped 12",
    },
    // its patience ends
    Row {
        before: ONCE,
        event: Event::GiveUp,
        acts: "show waits",
        file: "under way 7 5",
    },
    Row {
        before: AGAIN,
        event: Event::GiveUp,
        acts: "show waits",
        file: "under way 7 5",
    },
    // stopped: nothing is sent, whatever is wanted, until a person has looked
    Row {
        before: STOPPED,
        event: Event::Want(6),
        acts: "show stopped 11 9",
        file: "free 7, aside 5, stopped 11",
    },
    Row {
        before: STOPPED_AGAIN,
        event: Event::Start,
        acts: "show stopped 12 0",
        file: "under way 7 5, stopped 12",
    },
    Row {
        before: STOPPED_AGAIN,
        event: Event::Look,
        acts: "ask",
        file: "under way 7 5, stopped 12",
    },
    Row {
        before: LOOKED,
        event: Event::Refuse(11, 8),
        acts: "log 8; write",
        file: "free 8",
    },
    Row {
        before: LOOKED,
        event: Event::Refuse(11, 7),
        acts: "log 7; write",
        file: "free 7, aside 5",
    },
    Row {
        before: LOOKED,
        event: Event::Refuse(6, 0),
        acts: "show unsure 6",
        file: "under way 7 5, stopped 12",
    },
    // one request at a time
    Row {
        before: ONCE,
        event: Event::Want(6),
        acts: "show busy",
        file: "under way 7 5",
    },
];

/// What a station does at each row of the page's table.
#[test]
fn each_row_is_the_pages(rt: HostRuntime) -> Result<(), Fail> {
    assert_eq!(rt; differing_row(rt.alloc(), ROWS)?, None);
    Ok(())
}
