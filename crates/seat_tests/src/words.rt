//! What a station does and what it is then, in words.

use seat_core::{Act, Outcome, Place, Station, Trouble};
use std::alloc::{AllocError, Global};
use std::fmt::Write;

/// Tells what became of a request.
fn tell_outcome(told: &mut String, outcome: Outcome) -> Result<(), AllocError> {
    match outcome {
        Outcome::Done(reply) => write!(told, " done {reply}"),
        Outcome::NotDone(no) => write!(told, " not {no}"),
    }
}

/// Tells what is shown to a person.
fn tell_trouble(told: &mut String, trouble: Trouble) -> Result<(), AllocError> {
    match trouble {
        Trouble::Waits => write!(told, "show waits"),
        Trouble::Unsure(no) => write!(told, "show unsure {no}"),
        Trouble::Stopped(stop) => write!(told, "show stopped {} {}", stop.code, stop.expected),
        Trouble::Busy => write!(told, "show busy"),
        Trouble::LateCopy(request) => write!(told, "show late {request}"),
    }
}

/// Tells an act.
pub fn tell_act(told: &mut String, act: Act) -> Result<(), AllocError> {
    match act {
        Act::LogRequest(sent) => write!(told, "log {} {}", sent.number, sent.request),
        Act::LogOutcome(number, outcome) => {
            write!(told, "log {number}")?;
            tell_outcome(told, outcome)
        }
        Act::LogNumber(number) => write!(told, "log {number}"),
        Act::Write => write!(told, "write"),
        Act::Pause => write!(told, "pause"),
        Act::Send(sent) => write!(told, "send {} {}", sent.number, sent.request),
        Act::AskNumber => write!(told, "ask"),
        Act::Tell(request, outcome) => {
            write!(told, "tell {request}")?;
            tell_outcome(told, outcome)
        }
        Act::Show(trouble) => tell_trouble(told, trouble),
    }
}

/// The words of what a station does.
pub fn acts_words(alloc: Global, acts: &[Act]) -> Result<String, AllocError> {
    let mut told = String::new(alloc);
    for act in acts {
        if !told.is_empty() {
            told.push_str("; ")?;
        }
        tell_act(&mut told, *act)?;
    }
    Ok(told)
}

/// Tells where a seat's requests stand.
fn tell_place(told: &mut String, place: Place) -> Result<(), AllocError> {
    match place {
        Place::Unknown => write!(told, "unknown"),
        Place::Free(number) => write!(told, "free {number}"),
        Place::UnderWay(sent) => write!(told, "under way {} {}", sent.number, sent.request),
    }
}

/// The words of a station's file, but for its last reply.
pub fn file_words(alloc: Global, station: &Station) -> Result<String, AllocError> {
    let mut told = String::new(alloc);
    tell_place(&mut told, station.file.place)?;
    for request in station.file.aside.as_slice() {
        write!(told, ", aside {request}")?;
    }
    if let Some(stop) = station.file.stop {
        write!(told, ", stopped {}", stop.code)?;
    }
    Ok(told)
}
