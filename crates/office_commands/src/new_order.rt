// The orders that a seat can ask for.
ghost use Rattle.std.specs.Prelude.{◌≡◌};
ghost use Rattle.office_commands.specs.NewOrders.{IsNewOrder};

use std::marker::Model;
use text_core::{Name, Text};

/// An order that is asked for. What its members may be beyond their types is judged.
#[derive(Drop)]
pub struct NewOrder {
    pub name: Name,
    /// The issuer of the serial numbers.
    pub issuer: Name,
    /// What each serial number begins with, as it was read.
    pub prefix: Text,
    /// The digits of a number: 1 to 9.
    pub width: u8,
    /// The first number: at most 9007199254740991.
    pub first: u64,
    /// How many devices: 1 to 9007199254740991.
    pub quantity: u64,
    /// The addresses of one device: 0 to 4.
    pub macs: u8,
    /// The beginning of the validity of its records, where one was asked for, as it was read.
    pub not_before: Option<Text>,
}

/// An order that is asked for, whose numbers are within their ranges.
#[derive(Drop)]
pub struct AskedOrder {
    order: NewOrder,
}

impl Model for AskedOrder {
    ghost use Rattle.office_commands.specs.NewOrders.{IsNewOrder};
    ghost use Rattle.office_commands.specs.declared.new_order.NewOrder.{NewOrder};

    ghost Value = { NewOrder };

    ghost view = { λ asked. asked.order };

    ghost invariant = { λ asked. IsNewOrder asked.order };
}

impl AskedOrder {
    /// Asks for an order.
    pub fn new(order: NewOrder) -> AskedOrder
        requires { IsNewOrder order }
        ensures { result ≡ order }
    {
        AskedOrder { order }
    }

    /// The order that is asked for.
    pub fn order(&self) -> &NewOrder
        ensures same { result.now ≡ self.now }
        ensures ranges { IsNewOrder result.now }
    {
        &self.order
    }
}
