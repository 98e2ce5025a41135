//! What a station of a seat may conclude from a run of the office.
//!
//! The station is the machine of `seat_core`, and the server of `seat_laws` is the office: each
//! answer that the office gives to a copy of what the station sent is one by the number's rule.
//!
//! Laws over the definitions alone:
//!
//! - `a_station_concludes_what_the_office_did`: over a run of the office, from sound tables, of a
//!   site that may grow, in which each request of the seat that writes is a copy of one that the
//!   station sent (`IsStationRun`), the station's log is what the office did at its seat, but for
//!   at most one request, which it has under way or aside (`log`: `Concludes`). The seat's row in
//!   its customer's tables is of the newest of these (`row`: `IsRowOf`). What it told as done was
//!   done at a moment of the run, with that reply (`told`: `IsMomentOf`).
//! - `what_a_plan_tells_is_recorded`: what a plan's reply says is to be burnt is pending in the row
//!   of the chip's device (`reply`: `IsRecorded`). The row stays as it is until a seat of the
//!   customer reads the chip back or scraps it (`stays`: `StaysUntilEnd`). From then on all of it
//!   is burnt or to be burnt by the row, until the device is quarantined or scrapped (`expected`:
//!   `StaysExpected`).
//! - `a_told_plan_is_recorded`: all of it of a plan that a station told as done (`IsPlanRecorded`).
//! - `each_answer_can_be_read`: there is a reading of answers as these laws suppose it of a
//!   station.
#![tactic(auto)]

mod laws;

pub use laws::{
    a_station_concludes_what_the_office_did, a_told_plan_is_recorded, each_answer_can_be_read,
    what_a_plan_tells_is_recorded,
};
