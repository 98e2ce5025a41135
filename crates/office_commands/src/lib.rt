//! The commands that a seat of a customer can give, what refuses them, and the texts of replies.
//!
//! The body and the status of each refusal are exactly those of the formats. So are the JSON texts
//! of an order, a map, a device, a plan, a verdict, a ledger and a list of devices, an identity, a
//! state and an import. Each refusal's body tells its number (`Refusal::number`,
//! `refusals_tell_their_numbers`). A request's number is 1 to 9007199254740991 by its type
//! (`RequestNumber`).
#![tactic(auto)]

mod command;
mod device_reply;
mod identity_reply;
mod new_device;
mod new_identity;
mod new_order;
mod refusal;
mod reply;
mod request_number;
mod step_reply;
mod wishes;

pub use command::{Action, Change, Command, Request, Show};
pub use device_reply::{device_body, devices_body, ledger_body};
pub use identity_reply::{identity_body, import_body, state_body};
pub use new_device::NewDevice;
pub use new_identity::{NewIdentity, NewImport};
pub use new_order::{AskedOrder, NewOrder};
pub use refusal::{Refusal, refusals_tell_their_numbers};
pub use reply::{accepted, map_body, order_body, refused, unavailable, unknown_token};
pub use request_number::RequestNumber;
pub use step_reply::{outcome_body, plan_body};
pub use wishes::Wishes;
