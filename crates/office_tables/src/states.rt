// What there is to know of the states of a device: a row for each.
ghost use Rattle.std.specs.Prelude.{◌≡◌, false, None};
ghost use Rattle.office_tables.specs.Prelude.{state_row};

use crate::{Batches, DeviceState, Reason};

/// What there is to know of a state.
#[derive(Clone, Copy, Drop)]
pub struct StateRow {
    /// Its text, in replies and in tables. That of a quarantined one doesn't tell the reason.
    pub text: &'static str,
    /// Why a device in it is quarantined, where it is.
    pub reason: Option<Reason>,
    /// Whether a device in it has left its order, so that it takes no place of it.
    pub is_given_up: bool,
    /// Which batches of its plan may still be to be burnt of a device in it.
    pub pending: Batches,
    /// In which column of states a report counts it, from 0.
    pub column: usize,
}

/// The row of a state in which a device takes a place of its order.
fn row(text: &'static str, pending: Batches, column: usize) -> StateRow
    ensures { result ≡ record {
      text = text.entry;
      reason = None;
      is_given_up = false;
      pending = pending;
      column = column;
    } }
{
    StateRow {
        text,
        reason: None,
        is_given_up: false,
        pending,
        column,
    }
}

/// The states but the quarantined one: those that their text tells alone.
pub(crate) const PLAIN_STATES: [DeviceState; 7] = [
    DeviceState::Registered,
    DeviceState::AwaitingFirst,
    DeviceState::AwaitingSecond,
    DeviceState::Settled,
    DeviceState::Identified,
    DeviceState::Shipped,
    DeviceState::Scrapped,
];

impl DeviceState {
    /// What there is to know of the state.
    pub fn row(self) -> StateRow
        ensures text { result.text.now ≡ (state_row self).text }
        ensures reason { result.reason ≡ (state_row self).reason }
        ensures is_given_up { result.is_given_up ≡ (state_row self).is_given_up }
        ensures pending { result.pending ≡ (state_row self).pending }
        ensures column { result.column ≡ (state_row self).column }
    {
        match self {
            DeviceState::Registered => row("registered", Batches::Neither, 0),
            DeviceState::AwaitingFirst => row("awaiting1", Batches::Both, 1),
            DeviceState::AwaitingSecond => row("awaiting2", Batches::Second, 1),
            DeviceState::Settled => row("settled", Batches::Neither, 2),
            DeviceState::Identified => row("identified", Batches::Neither, 3),
            DeviceState::Shipped => row("shipped", Batches::Neither, 4),
            DeviceState::Quarantined(reason) => StateRow {
                reason: Some(reason),
                is_given_up: true,
                ..row("quarantined", Batches::Neither, 5)
            },
            DeviceState::Scrapped => StateRow {
                is_given_up: true,
                ..row("scrapped", Batches::Neither, 6)
            },
        }
    }

    /// The text of the state. That of a quarantined one doesn't tell the reason.
    pub fn text(self) -> &'static str
        ensures { result.now ≡ (state_row self).text }
    {
        self.row().text
    }

    /// Whether a device in this state has left its order, so that it takes no place of it: a
    /// quarantined or a scrapped one has.
    pub fn is_given_up(self) -> bool
        ensures { result ≡ (state_row self).is_given_up }
    {
        self.row().is_given_up
    }

    /// Why a device in this state is quarantined, where it is.
    pub fn reason(self) -> Option<Reason>
        ensures { result ≡ (state_row self).reason }
    {
        self.row().reason
    }
}
