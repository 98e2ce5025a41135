// The text of a station's file, read.
ghost use Rattle.std.specs.Prelude.{◌≡◌, IfOk, codes, map, option_map};
ghost use Rattle.serde_json.specs.View.{view};
ghost use Rattle.members.specs.Prelude.{json_of};
ghost use Rattle.text_core.specs.Prelude.{all_of, result_map};
ghost use Rattle.seat_ask.specs.Prelude.{GivesUnlessMemory, aside_of, asked_in, items_in, last_in, member_in, number_at, number_in};
ghost use Rattle.seat_ask.specs.Prelude.{pair_in, place_in, state_in, state_of, stop_in, text_at, value_of};
ghost use Rattle.seat_ask.specs.declared.reading.TextFault.TheVariants.{NoMemory};

use crate::reading::TextFault::OtherForm;
use crate::state::{Asked, Names, SeatState};
use members::in_json::read_json;
use members::{DocumentFault, read_all};
use seat_core::{Answered, KeptAside, Place, SeatFile, Sent, Stop};
use serde_json::Value;
use std::alloc::{AllocError, AllocFailed, Global};
use text_core::Text;
use thiserror::Error;

/// Why nothing is read of a text.
#[derive(Clone, Copy, Debug, PartialEq, Eq, Error)]
pub enum TextFault {
    /// The text has another form.
    #[error("the text has another form")]
    OtherForm,
    /// Memory ran out.
    #[error("no memory")]
    NoMemory,
}

impl From<AllocError> for TextFault {
    ghost from_gives = { λ _ fault. fault ≡ NoMemory };

    fn from(_error: AllocError) -> TextFault {
        TextFault::NoMemory
    }
}

impl<T: Drop> From<AllocFailed<T>> for TextFault {
    ghost from_gives = { λ _ fault. fault ≡ NoMemory };

    fn from(_error: AllocFailed<T>) -> TextFault {
        TextFault::NoMemory
    }
}

/// The JSON that a text is.
pub(crate) fn read_value(alloc: Global, text: &[u8]) -> Result<Value, TextFault>
    ensures { GivesUnlessMemory (result_map view result) (json_of text.now) }
{
    match read_json(alloc, text) {
        Ok(value) => Ok(value),
        Err(DocumentFault::NotDocument) => Err(OtherForm),
        Err(DocumentFault::OutOfMemory) => Err(TextFault::NoMemory),
    }
}

/// The number that a value is.
fn number_in(value: &Value) -> Option<u64>
    ensures { result ≡ number_in (view value.now) }
{
    value.as_u64()
}

/// The number at an index of an array.
fn number_at(value: &Value, index: usize) -> Option<u64>
    ensures { result ≡ number_at index (view value.now) }
{
    value.get(index)?.as_u64()
}

/// The text at an index of an array.
fn text_at(value: &Value, index: usize) -> Option<&str>
    ensures { option_map (λ text. text.now) result ≡ text_at index (view value.now) }
{
    value.get(index)?.as_str()
}

/// The first two numbers of an array.
fn pair_in(value: &Value) -> Option<(u64, u64)>
    ensures { result ≡ pair_in (view value.now) }
{
    let first = number_at(value, 0)?;
    let second = number_at(value, 1)?;
    Some((first, second))
}

/// Where a seat's requests stand.
fn place_in(value: &Value) -> Option<Place>
    ensures { result ≡ place_in (view value.now) }
{
    if value.is_null() {
        return Some(Place::Unknown);
    }
    if let Some(number) = number_in(value) {
        return Some(Place::Free(number));
    }
    let (number, request) = pair_in(value)?;
    Some(Place::UnderWay(Sent { number, request }))
}

/// The last request that was done, if one was.
fn last_in(value: &Value) -> Option<Option<Answered>>
    ensures { result ≡ last_in (view value.now) }
{
    if value.is_null() {
        return Some(None);
    }
    let (request, reply) = pair_in(value)?;
    Some(Some(Answered { request, reply }))
}

/// Why the station stopped, if it did.
fn stop_in(value: &Value) -> Option<Option<Stop>>
    ensures { result ≡ stop_in (view value.now) }
{
    if value.is_null() {
        return Some(None);
    }
    let (code, expected) = pair_in(value)?;
    if code >= 256 {
        return None;
    }
    let code = code as u8;
    Some(Some(Stop { code, expected }))
}

/// The place that a state has.
fn place_member(value: &Value) -> Option<Place>
    ensures { result ≡ member_in (codes "place") place_in (view value.now) }
{
    place_in(value.get("place")?)
}

/// The last request of a state.
fn last_member(value: &Value) -> Option<Option<Answered>>
    ensures { result ≡ member_in (codes "last") last_in (view value.now) }
{
    last_in(value.get("last")?)
}

/// The stop of a state.
fn stop_member(value: &Value) -> Option<Option<Stop>>
    ensures { result ≡ member_in (codes "stop") stop_in (view value.now) }
{
    stop_in(value.get("stop")?)
}

/// The numbers of a member that is an array of numbers.
#[tactic(auto, using(members::proofs::Lists::json_list))]
fn numbers_member(alloc: Global, value: &Value, name: &str) -> Result<Vec<u64>, TextFault>
    ensures { GivesUnlessMemory (result_map (λ numbers. numbers.items) result)
        (member_in name.now (items_in number_in) (view value.now)) }
{
    let member = value.get(name).ok_or(OtherForm)?;
    let values = member.as_array().ok_or(OtherForm)?;
    read_all(alloc, values.as_slice(), number_in)?.ok_or(OtherForm)
}

/// The request that a value is, with its name.
fn asked_in(alloc: Global, value: &Value) -> Result<Asked, TextFault>
    ensures { GivesUnlessMemory result (asked_in (view value.now)) }
{
    let name = number_at(value, 0).ok_or(OtherForm)?;
    let path = text_at(value, 1).ok_or(OtherForm)?;
    let members = text_at(value, 2).ok_or(OtherForm)?;
    let path = Text::copy_of(alloc, path)?;
    let members = Text::copy_of(alloc, members)?;
    Ok(Asked {
        name,
        path,
        members,
    })
}

/// The requests that values are.
fn all_asked(alloc: Global, values: &[Value]) -> Result<Vec<Asked>, TextFault>
    ensures { GivesUnlessMemory (result_map (λ requests. requests.items) result)
        (all_of asked_in (map view values.now)) }
{
    let mut requests = Vec::new(alloc);
    for value in values {
        let asked = asked_in(alloc, value)?;
        requests.push(asked)?;
    }
    Ok(requests)
}

/// The requests of a state.
#[tactic(auto, using(members::proofs::Lists::json_list))]
fn requests_member(alloc: Global, value: &Value) -> Result<Vec<Asked>, TextFault>
    ensures { GivesUnlessMemory (result_map (λ requests. requests.items) result)
        (member_in (codes "requests") (items_in asked_in) (view value.now)) }
{
    let member = value.get("requests").ok_or(OtherForm)?;
    let values = member.as_array().ok_or(OtherForm)?;
    all_asked(alloc, values.as_slice())
}

/// These names, kept aside one after another.
fn aside_of(alloc: Global, names: &[u64]) -> Result<KeptAside, AllocError>
    ensures { IfOk result (λ aside. aside ≡ aside_of names.now) }
{
    let mut aside = KeptAside::new(alloc)?;
    for name in names {
        aside.keep(*name);
    }
    Ok(aside)
}

/// The state that a value is.
#[tactic(auto, unfolding(crate::specs::States::state_in))]
fn state_in(alloc: Global, value: &Value) -> Result<SeatState, TextFault>
    ensures { GivesUnlessMemory (result_map value_of result) (state_in (view value.now)) }
{
    let place = place_member(value).ok_or(OtherForm)?;
    let last = last_member(value).ok_or(OtherForm)?;
    let stop = stop_member(value).ok_or(OtherForm)?;
    let named = named_member(value).ok_or(OtherForm)?;
    let names = numbers_member(alloc, value, "aside")?;
    let requests = requests_member(alloc, value)?;
    let aside = aside_of(alloc, names.as_slice())?;
    Ok(SeatState {
        file: SeatFile {
            place,
            aside,
            last,
            stop,
        },
        names: Names { requests, named },
    })
}

/// How many requests of a state got a name.
fn named_member(value: &Value) -> Option<u64>
    ensures { result ≡ member_in (codes "named") number_in (view value.now) }
{
    value.get("named")?.as_u64()
}

/// The state that the text of a station's file says.
///
/// # Errors
///
/// `OtherForm` where it is no station's file, or `NoMemory`.
pub fn read_state(alloc: Global, text: &[u8]) -> Result<SeatState, TextFault>
    ensures { GivesUnlessMemory (result_map value_of result) (state_of text.now) }
{
    let value = read_value(alloc, text)?;
    state_in(alloc, &value)
}
