// The text of a station's file, written.
ghost use Rattle.std.specs.Prelude.{◌≡◌, IfOk, map, string_bytes, Some};
ghost use Rattle.serde_json.specs.Data.{array};
ghost use Rattle.serde_json.specs.Read.{read};
ghost use Rattle.serde_json.specs.View.{items_of, view};
ghost use Rattle.serde_json.specs.Written.{compact_text};
ghost use Rattle.seat_ask.specs.Prelude.{asked_data, last_data, number_data, pair_data, place_data, state_data, stop_data, value_with};

use crate::state::{Asked, Names};
use seat_core::{Answered, Place, SeatFile, Stop};
use serde_json::{Value, json};
use std::alloc::{AllocError, Global};

/// Two numbers.
fn pair_value(alloc: Global, first: u64, second: u64) -> Result<Value, AllocError>
    ensures { IfOk result (λ value. view value ≡ pair_data first second) }
{
    json!(in alloc; [first, second])
}

/// Where a seat's requests stand.
fn place_value(alloc: Global, place: Place) -> Result<Value, AllocError>
    ensures { IfOk result (λ value. view value ≡ place_data place) }
{
    match place {
        Place::Unknown => Ok(Value::Null),
        Place::Free(number) => Ok(Value::from(number)),
        Place::UnderWay(sent) => pair_value(alloc, sent.number, sent.request),
    }
}

/// The last request that was done, if one was.
fn last_value(alloc: Global, last: Option<Answered>) -> Result<Value, AllocError>
    ensures { IfOk result (λ value. view value ≡ last_data last) }
{
    match last {
        None => Ok(Value::Null),
        Some(last) => pair_value(alloc, last.request, last.reply),
    }
}

/// Why the station stopped, if it did.
fn stop_value(alloc: Global, stop: Option<Stop>) -> Result<Value, AllocError>
    ensures { IfOk result (λ value. view value ≡ stop_data stop) }
{
    match stop {
        None => Ok(Value::Null),
        Some(stop) => pair_value(alloc, u64::from(stop.code), stop.expected),
    }
}

/// Numbers, one after another.
fn numbers_value(alloc: Global, numbers: &[u64]) -> Result<Value, AllocError>
    ensures { IfOk result (λ value. view value
        ≡ array (items_of (map number_data numbers.now))) }
{
    let mut values = Vec::new(alloc);
    for number in numbers {
        values.push(Value::from(*number))?;
    }
    Ok(Value::from(values))
}

/// A request with its name.
fn asked_value(alloc: Global, asked: &Asked) -> Result<Value, AllocError>
    ensures { IfOk result (λ value. view value ≡ asked_data asked.now) }
{
    json!(in alloc; [asked.name, asked.path.as_str(), asked.members.as_str()])
}

/// Requests with their names, one after another.
fn requests_value(alloc: Global, requests: &[Asked]) -> Result<Value, AllocError>
    ensures { IfOk result (λ value. view value
        ≡ array (items_of (map asked_data requests.now))) }
{
    let mut values = Vec::new(alloc);
    for asked in requests {
        let value = asked_value(alloc, asked)?;
        values.push(value)?;
    }
    Ok(Value::from(values))
}

/// What a station's file says, as JSON.
fn state_value(alloc: Global, file: &SeatFile, names: &Names) -> Result<Value, AllocError>
    ensures { IfOk result (λ value. view value ≡ state_data (value_with file.now names.now)) }
{
    let aside = numbers_value(alloc, file.aside.as_slice())?;
    let last = last_value(alloc, file.last)?;
    let place = place_value(alloc, file.place)?;
    let requests = requests_value(alloc, names.requests.as_slice())?;
    let stop = stop_value(alloc, file.stop)?;
    let named = names.named;
    json!(in alloc; {
        "aside": aside,
        "last": last,
        "named": named,
        "place": place,
        "requests": requests,
        "stop": stop,
    })
}

/// The text of a station's file: what the machine knows, and the requests that it speaks of.
pub fn state_text(alloc: Global, file: &SeatFile, names: &Names) -> Result<String, AllocError>
    ensures text { IfOk result (λ text. string_bytes text
        ≡ compact_text (state_data (value_with file.now names.now))) }

    // It reads as what it was written of.
    ensures reads { IfOk result (λ text. read (string_bytes text)
        ≡ Some (state_data (value_with file.now names.now))) }
{
    state_value(alloc, file, names)?.to_string(alloc)
}
