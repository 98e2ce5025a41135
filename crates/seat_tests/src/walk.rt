//! A walk over the states of a station.

use crate::words::{acts_words, file_words};
use seat_core::{Act, Event, Place, Sent, Station, Waiting};
use std::alloc::{AllocError, Global};
use std::fmt::Write;

/// The number of a station at each step of the walk. So it has as many states as there are ways in
/// which its requests stand, whatever their number.
const NUMBER: u64 = 7;

/// How many states are looked at: more than there are.
const MOST_STATES: usize = 1000;

/// What may befall a station: requests 1 and 2 are wanted, a reply is 90. Of the refusals that mean
/// the same there is the least number and a great one, of 11 that an earlier number is expected, its
/// own, and a later one.
const EVENTS: [Event; 16] = [
    Event::Start,
    Event::Want(1),
    Event::Want(2),
    Event::Accept(90),
    Event::Refuse(1, 0),
    Event::Refuse(10, 0),
    Event::Refuse(11, 6),
    Event::Refuse(11, 7),
    Event::Refuse(11, 8),
    Event::Refuse(12, 0),
    Event::Refuse(13, 0),
    Event::Refuse(50, 0),
    Event::Refuse(51, 0),
    Event::Miss,
    Event::GiveUp,
    Event::Look,
];

/// A state in words, and the first events that lead to it.
#[derive(Drop)]
struct Reached {
    events: Vec<Event>,
    words: String,
}

/// The vectors: a line of JSON for each state that a station comes to, the nearest first.
pub fn vectors(alloc: Global) -> Result<String, AllocError> {
    let mut told = String::new(alloc);
    let mut states = Vec::new(alloc);
    states.push(Reached {
        events: Vec::new(alloc),
        words: state_words(alloc, &Station::new(alloc)?)?,
    })?;
    for place in 0..MOST_STATES {
        let Some(events) = events_at(alloc, states.as_slice(), place)? else {
            break;
        };
        tell_state(alloc, &mut told, &mut states, events.as_slice())?;
    }
    Ok(told)
}

/// The first events that lead to the state at a place of the walk.
fn events_at(
    alloc: Global,
    states: &[Reached],
    place: usize,
) -> Result<Option<Vec<Event>>, AllocError> {
    match states.get(place) {
        Some(state) => Ok(Some(state.events.as_slice().to_vec(alloc)?)),
        None => Ok(None),
    }
}

/// Tells what a station does behind these events, whatever befalls it next.
fn tell_state(
    alloc: Global,
    told: &mut String,
    states: &mut Vec<Reached>,
    before: &[Event],
) -> Result<(), AllocError> {
    let words = state_words(alloc, &station_behind(alloc, before)?)?;
    write!(told, "{{\"state\":\"{words}\"")?;
    for event in EVENTS {
        take_step(alloc, told, states, before, event)?;
    }
    told.push_str("}\n")
}

/// Tells what a station does at an event behind these, and keeps its state if it is new.
fn take_step(
    alloc: Global,
    told: &mut String,
    states: &mut Vec<Reached>,
    before: &[Event],
    event: Event,
) -> Result<(), AllocError> {
    let mut station = station_behind(alloc, before)?;
    let was = state_words(alloc, &station)?;
    let acts = station.step(event);
    let words = state_words(alloc, &station)?;
    if acts.as_slice().is_empty() && words.as_str() == was.as_str() {
        return Ok(());
    }
    tell_step(alloc, told, event, acts.as_slice(), words.as_str())?;
    renumber(&mut station);
    let words = state_words(alloc, &station)?;
    if !states.iter().any(|it| it.words.as_str() == words.as_str()) {
        let mut events = before.to_vec(alloc)?;
        events.push(event)?;
        states.push(Reached { events, words })?;
    }
    Ok(())
}

/// A station behind these events, which has the same number behind each.
fn station_behind(alloc: Global, events: &[Event]) -> Result<Station, AllocError> {
    let mut station = Station::new(alloc)?;
    for event in events {
        let _acts = station.step(*event);
        renumber(&mut station);
    }
    Ok(station)
}

/// Gives a station the number of the walk.
fn renumber(station: &mut Station) {
    station.file.place = match station.file.place {
        Place::Unknown => Place::Unknown,
        Place::Free(_) => Place::Free(NUMBER),
        Place::UnderWay(sent) => Place::UnderWay(Sent {
            number: NUMBER,
            request: sent.request,
        }),
    };
}

/// Tells an event, what the station does, and what its state is then, as a member of an object.
fn tell_step(
    alloc: Global,
    told: &mut String,
    event: Event,
    acts: &[Act],
    words: &str,
) -> Result<(), AllocError> {
    told.push_str(",\"")?;
    tell_event(told, event)?;
    let acts = acts_words(alloc, acts)?;
    write!(told, "\":[\"{acts}\",\"{words}\"]")
}

/// Tells an event.
fn tell_event(told: &mut String, event: Event) -> Result<(), AllocError> {
    match event {
        Event::Start => write!(told, "start"),
        Event::Want(request) => write!(told, "want {request}"),
        Event::Accept(reply) => write!(told, "accept {reply}"),
        Event::Refuse(no, expected) => write!(told, "refuse {no} {expected}"),
        Event::Miss => write!(told, "miss"),
        Event::GiveUp => write!(told, "give up"),
        Event::Look => write!(told, "look"),
    }
}

/// The words of a state: of the file, with what was expected where the station stopped, and of what
/// it waits for.
fn state_words(alloc: Global, station: &Station) -> Result<String, AllocError> {
    let mut words = file_words(alloc, station)?;
    if let Some(stop) = station.file.stop {
        write!(words, " {}", stop.expected)?;
    }
    words.push_str("; ")?;
    tell_waiting(&mut words, station.waiting)?;
    Ok(words)
}

/// Tells what a station waits for.
fn tell_waiting(told: &mut String, waiting: Waiting) -> Result<(), AllocError> {
    match waiting {
        Waiting::Nothing => write!(told, "nothing"),
        Waiting::Once => write!(told, "once"),
        Waiting::Again => write!(told, "again"),
        Waiting::Kept(untried, true) => write!(told, "kept {untried} again"),
        Waiting::Kept(untried, false) => write!(told, "kept {untried} once"),
        Waiting::Number => write!(told, "number"),
    }
}
