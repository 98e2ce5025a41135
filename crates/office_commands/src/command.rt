// What a seat can ask for.
ghost use Rattle.office_commands.specs.Prelude.{IsAsked, IsRequestNumber};

use crate::{AskedOrder, NewDevice, NewIdentity, NewImport, RequestNumber, Wishes};
use fuse_image::BlockWords;
use text_core::{Chip, Digest, Name, Text};

/// What a device goes through on its way through the line, but for its registration and its
/// identity.
#[derive(Drop)]
pub enum Action {
    /// What is to be burnt of it is planned.
    Plan(Wishes),
    /// What it shows is compared with what was to be burnt: the words of all blocks as the station
    /// read them.
    ReadBack(BlockWords),
    /// It is shipped.
    Ship,
    /// It is scrapped.
    Scrap,
}

/// A command that writes.
#[derive(Drop)]
pub enum Change {
    /// Makes an order.
    MakeOrder(AskedOrder),
    /// Imports a fuse map by its text.
    ImportMap(Text),
    /// Registers a device.
    RegisterDevice(NewDevice),
    /// Takes a device a step on, by its chip.
    Act(Chip, Action),
    /// Gives a device its serial number.
    Identify(NewIdentity),
    /// Gives serial numbers that were handed out elsewhere.
    Import(NewImport),
}

/// A command that shows something and writes nothing.
#[derive(Clone, Copy, Drop)]
pub enum Show {
    /// An order, by its name.
    Order(Name),
    /// A device, by its chip.
    Device(Chip),
    /// The ledger of a device, by its chip.
    Ledger(Chip),
    /// The identity of a device, by its chip.
    Identity(Chip),
    /// A page of the customer's devices: those behind a chip, or the first ones.
    Devices(Option<Chip>),
}

/// A command of a seat.
#[derive(Drop)]
pub enum Command {
    Change(Change),
    Show(Show),
}

/// What a seat asks. To a command that shows, the number and the digest mean nothing.
#[derive(Drop)]
pub struct Request {
    /// Where the request stands among those of its seat that write.
    pub number: RequestNumber,
    /// What a repeated request is known by.
    pub digest: Digest,
    pub command: Command,
}

impl Request {
    /// A fact: the numbers of what is asked for are within their ranges. Nothing happens.
    pub fn fact_in_range(&self)
        ensures asked { IsAsked self.now }
        ensures number { IsRequestNumber self.now.number }
    {
        let _number = self.number.value();
        match &self.command {
            Command::Change(Change::MakeOrder(order)) => {
                let _order = order.order();
            }
            Command::Change(Change::Act(_, Action::Plan(wishes))) => wishes.fact_digests(),
            _ => {}
        }
    }
}
