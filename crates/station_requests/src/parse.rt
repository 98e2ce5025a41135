// What a request asks for.
ghost use Rattle.std.specs.Prelude.{◌≡◌, ok_or, map, IfOk};
ghost use Rattle.serde_json.specs.View.{view};
ghost use Rattle.text_core.specs.Prelude.{GivesUnless, result_map};
ghost use Rattle.http_frames.specs.Prelude.{Request as HttpRequest, IsFrameAt};
ghost use Rattle.office_commands.specs.Prelude.{unkept};
ghost use Rattle.station_requests.specs.Prelude.{body_data, IsFor, parse_request, kind_of_caller, of_seat, ReadsAs, route_among};
ghost use Rattle.station_requests.specs.Prelude.{route_entry, request_of, request_read, shows};

use crate::act::end_request;
use crate::device::{
    DEVICE_PATH, DEVICES_PATH, LEDGER_PATH, after_parameter, chip_parameter,
    register_device_request,
};
use crate::identity::{IDENTITY_PATH, identity_request};
use crate::import::{IMPORT_PATH, import_request};
use crate::map::{MAP_PATH, import_map_request};
use crate::order::{ORDER_PATH, make_order_request, order_name};
use crate::parse::Route::Asks;
use crate::plan::{PLAN_PATH, plan_device_request};
use crate::read_back::{READ_BACK_PATH, read_back_request};
use http::Method;
use http_frames::buffer::Buffer;
use http_frames::fields::split_target;
use http_frames::frame::Frame;
use members::DocumentFault;
use members::in_json::read_json;
use office_commands::Refusal::BadMember;
use office_commands::{Action, Command, Refusal, Request, RequestNumber, Show};
use serde_json::Value;
use site_core::Caller;
use std::alloc::{AllocError, Global};
use text_core::Digest;

/// The path on which devices are shipped.
const SHIP_PATH: &str = "/v1/ship";

/// The path on which devices are scrapped.
const SCRAP_PATH: &str = "/v1/scrap";

/// What a request asks for.
#[derive(Drop)]
pub enum Parsed {
    /// A request of a seat to the office.
    Office(Request),
    /// The yield report of the seat's customer.
    Report,
    /// The manager's yield report of all customers.
    SiteReport,
}

/// What a seat may ask the office for, as docs/openapi.yaml names it.
#[derive(Clone, Copy)]
pub enum Operation {
    MakeOrder,
    ShowOrder,
    ImportMap,
    RegisterDevice,
    PlanDevice,
    ReadBack,
    IdentifyDevice,
    ShipDevice,
    ScrapDevice,
    ImportSerials,
    ShowDevice,
    ShowLedger,
    ShowIdentity,
    ListDevices,
}

/// What a method and a path lead to.
#[derive(Clone, Copy)]
pub enum Route {
    /// A seat asks the office for it.
    Asks(Operation),
    /// The report of a seat's customer. Its query is ignored.
    Reports,
    /// The manager's report of all customers. Its query is ignored.
    ReportsSite,
}

/// The methods and the paths that lead somewhere (RFC 9110, sections 7.1 and 9).
const ROUTES: [(Method, &str, Route); 16] = [
    (Method::POST, ORDER_PATH, Asks(Operation::MakeOrder)),
    (Method::GET, ORDER_PATH, Asks(Operation::ShowOrder)),
    (Method::POST, MAP_PATH, Asks(Operation::ImportMap)),
    (Method::POST, DEVICE_PATH, Asks(Operation::RegisterDevice)),
    (Method::POST, PLAN_PATH, Asks(Operation::PlanDevice)),
    (Method::POST, READ_BACK_PATH, Asks(Operation::ReadBack)),
    (Method::POST, IDENTITY_PATH, Asks(Operation::IdentifyDevice)),
    (Method::POST, SHIP_PATH, Asks(Operation::ShipDevice)),
    (Method::POST, SCRAP_PATH, Asks(Operation::ScrapDevice)),
    (Method::POST, IMPORT_PATH, Asks(Operation::ImportSerials)),
    (Method::GET, DEVICE_PATH, Asks(Operation::ShowDevice)),
    (Method::GET, LEDGER_PATH, Asks(Operation::ShowLedger)),
    (Method::GET, IDENTITY_PATH, Asks(Operation::ShowIdentity)),
    (Method::GET, DEVICES_PATH, Asks(Operation::ListDevices)),
    (Method::GET, "/v1/report", Route::Reports),
    (Method::GET, "/v1/site/report", Route::ReportsSite),
];

/// What a method and a path lead to by these rows, if to anything.
fn find_route(rows: &[(Method, &str, Route)], method: &[u8], path: &[u8]) -> Option<Route>
    ensures { result ≡ route_among method.now path.now (map route_entry rows.now) }
{
    for row in rows {
        if method == row.0.as_str().as_bytes() && path == row.1.as_bytes() {
            return Some(row.2);
        }
    }
    None
}

/// The JSON of a body, or the refusal of a body that is none. The body of a GET isn't read.
fn read_value(alloc: Global, method: &[u8], body: &[u8]) -> Result<Value, Refusal>
    ensures { GivesUnless unkept (result_map view result)
        (ok_or (body_data method.now body.now) Refusal.BadJson) }
{
    if method == b"GET".as_slice() {
        return Ok(Value::Null);
    }
    match read_json(alloc, body) {
        Ok(value) => Ok(value),
        Err(DocumentFault::NotDocument) => Err(Refusal::BadJson),
        Err(DocumentFault::OutOfMemory) => Err(Refusal::from(AllocError)),
    }
}

/// The request to show something. It has no use for a number and a digest.
fn shows(show: Show) -> Result<Request, Refusal>
    ensures { result ≡ Ok (shows show) }
{
    Ok(Request {
        number: RequestNumber::first(),
        digest: Digest::from_bytes([0; 32]),
        command: Command::Show(show),
    })
}

/// The request that a query and the value of a body make, if their parts are of their forms.
fn find_request(
    alloc: Global,
    operation: Operation,
    query: &[u8],
    value: &Value,
) -> Result<Request, Refusal>
    ensures { ReadsAs result (request_of operation query.now (view value.now)) }
{
    match operation {
        Operation::MakeOrder => make_order_request(alloc, value),
        Operation::ImportMap => import_map_request(alloc, value),
        Operation::RegisterDevice => register_device_request(alloc, value),
        Operation::PlanDevice => plan_device_request(alloc, value),
        Operation::ReadBack => read_back_request(alloc, value),
        Operation::IdentifyDevice => identity_request(alloc, value),
        Operation::ShipDevice => end_request(alloc, value, SHIP_PATH, Action::Ship),
        Operation::ScrapDevice => end_request(alloc, value, SCRAP_PATH, Action::Scrap),
        Operation::ImportSerials => import_request(alloc, value),
        Operation::ShowOrder => shows(Show::Order(order_name(query).ok_or(BadMember)?)),
        Operation::ShowDevice => shows(Show::Device(chip_parameter(query).ok_or(BadMember)?)),
        Operation::ShowLedger => shows(Show::Ledger(chip_parameter(query).ok_or(BadMember)?)),
        Operation::ShowIdentity => shows(Show::Identity(chip_parameter(query).ok_or(BadMember)?)),
        Operation::ListDevices => shows(Show::Devices(after_parameter(query).ok_or(BadMember)?)),
    }
}

/// The request that a seat's query and body make, or the lowest refusal of them.
fn read_request(
    alloc: Global,
    operation: Operation,
    method: &[u8],
    query: &[u8],
    body: &[u8],
) -> Result<Parsed, Refusal>
    ensures asked { GivesUnless unkept result
        (result_map Parsed.Office (request_read operation method.now query.now body.now)) }
    ensures seat { IfOk result (IsFor of_seat) }
{
    let value = read_value(alloc, method, body)?;
    let request = find_request(alloc, operation, query, &value)?;
    Ok(Parsed::Office(request))
}

/// What a request of a known caller asks for, or the lowest refusal of its path, its method, its
/// caller, its body and its members. Of the caller it matters alone whether it is a seat or the
/// manager. `Unkept` is want of memory and nothing else.
pub fn parse_command(
    alloc: Global,
    caller: Caller,
    frame: Frame,
    buffer: &Buffer,
) -> Result<Parsed, Refusal>
    requires { (request : HttpRequest)
        × IsFrameAt buffer.now.window buffer.now.spans frame request }
    ensures asked { (request : HttpRequest)
        → IsFrameAt buffer.now.window buffer.now.spans frame request
        → GivesUnless unkept result (parse_request (kind_of_caller caller) request) }
    ensures caller { IfOk result (IsFor (kind_of_caller caller)) }
{
    let (path, query) = split_target(frame.target(buffer));
    let method = frame.method(buffer);
    let route = find_route(&ROUTES, method, path).ok_or(Refusal::UnknownPath)?;
    match (route, caller) {
        (Asks(operation), Caller::Seat(_)) => {
            read_request(alloc, operation, method, query, frame.body(buffer))
        }
        (Route::Reports, Caller::Seat(_)) => Ok(Parsed::Report),
        (Route::ReportsSite, Caller::Manager) => Ok(Parsed::SiteReport),
        (Asks(_), Caller::Manager) => Err(Refusal::WrongCaller),
        (Route::Reports, Caller::Manager) => Err(Refusal::WrongCaller),
        (Route::ReportsSite, Caller::Seat(_)) => Err(Refusal::WrongCaller),
    }
}
