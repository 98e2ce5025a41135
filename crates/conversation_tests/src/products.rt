//! Lives of devices over the whole product of what orders and chips may have. Each reply is
//! computed here from what is asked, so that none is 503: a request that no other test makes could
//! be answered so for ever.
use crate::limits::{Limit, Rows, SITE_WITH_ROOM};
use std::alloc::{AllocError, Global};
use std::test::Fail;
use test_fixtures::lives::{
    BEGINNINGS, CHIPS, FIRSTS, KEYS, LIFE, LOCKS, MAPS, Marks, ORDER, SCRAPPED, SHIPPED,
};
use test_fixtures::numbered::numbered;
use test_support::keepers::over_each;
use text_core::Digest;

/// How many devices an order has.
const QUANTITY: u64 = 16;

/// The line of an order in the report, behind all its devices, and what stands before and behind
/// the lines.
const ORDER_LINE: &str = "o#,16,0,0,0,0,10,0,6,0|";

const REPORT: &str =
    "a1 GET /v1/report\ncsv order,quantity,registered,planned,settled,identified,shipped,quarantined,scrapped,serials_left|";

const SITE_REPORT: &str =
    "\nmanager GET /v1/site/report\ncsv customer,orders,quantity,registered,planned,settled,identified,shipped,quarantined,scrapped,serials_left|acme,18,288,0,0,0,0,180,0,108,0|bolt,0,0,0,0,0,0,0,0,0,0|\n";

/// An order of sixteen devices, whose addresses begin at `start`.
#[derive(Clone, Copy)]
struct Order {
    index: u64,
    width: u64,
    first: u64,
    macs: u64,
    start: u64,
    beginning: Marks,
}

/// The text with what stands for each mark in its place, mark by mark.
pub fn filled(alloc: Global, text: &str, marks: &[(&str, &str)]) -> Result<String, AllocError> {
    let mut filled = String::from_str(alloc, text)?;
    for mark in marks {
        filled = filled.as_str().replace(alloc, mark.0, mark.1)?;
    }
    Ok(filled)
}

/// The text with a value in place of a mark. It ends with the value, so that few are there at once.
fn put(alloc: Global, text: &str, mark: &str, value: String) -> Result<String, AllocError> {
    text.replace(alloc, mark, value.as_str())
}

/// The bytes of a text as hexadecimal digits.
fn digits_of(alloc: Global, text: &str) -> Result<String, AllocError> {
    let mut digits = String::new(alloc);
    for byte in text.bytes() {
        let two = format!(in alloc; "{byte:02x}")?;
        digits.push_str(two.as_str())?;
    }
    Ok(digits)
}

/// The orders of the product, one behind another in the pool.
fn orders(alloc: Global) -> Result<Vec<Order>, AllocError> {
    let mut orders = Vec::new(alloc);
    let mut index = 10u64;
    let mut start = 0x0200_0000_0000u64;
    for beginning in BEGINNINGS {
        for row in FIRSTS {
            for macs in [0u64, 1, 4] {
                orders.push(Order {
                    index,
                    width: row.0,
                    first: row.1,
                    macs,
                    start,
                    beginning: *beginning,
                })?;
                index = index.saturating_add(1);
                start = start.saturating_add(macs.saturating_mul(QUANTITY));
            }
        }
    }
    Ok(orders)
}

impl Order {
    /// The serial number of a place, from 0 on: the prefix, and its number in the order's width.
    fn serial(self, alloc: Global, place: u64) -> Result<String, AllocError> {
        let index = self.index;
        let number = self.first.saturating_add(place);
        match self.width {
            2 => format!(in alloc; "P{index}-{number:02}"),
            3 => format!(in alloc; "P{index}-{number:03}"),
            _ => format!(in alloc; "P{index}-{number:09}"),
        }
    }

    /// The serial number that is next where so many are given, as JSON has it.
    fn next(self, alloc: Global, given: u64) -> Result<String, AllocError> {
        if given == QUANTITY {
            return String::from_str(alloc, "null");
        }
        let serial = self.serial(alloc, given)?;
        format!(in alloc; "\"{serial}\"")
    }

    /// The first address of a place, as JSON has it: each has as many as `macs`.
    fn address(self, alloc: Global, place: u64) -> Result<String, AllocError> {
        if self.macs == 0 {
            return String::from_str(alloc, "null");
        }
        let address = self.start.saturating_add(place.saturating_mul(self.macs));
        format!(in alloc; "\"{address:012x}\"")
    }

    /// The text with what the order has, where so many serial numbers are given.
    fn told(self, alloc: Global, text: &str, given: u64) -> Result<String, AllocError> {
        let mut told = filled(alloc, text, self.beginning)?;
        let numbers = [
            ("{index}", self.index),
            ("{width}", self.width),
            ("{first}", self.first),
            ("{macs}", self.macs),
        ];
        for row in numbers {
            let number = format!(in alloc; "{}", row.1)?;
            told = put(alloc, told.as_str(), row.0, number)?;
        }
        told = put(alloc, told.as_str(), "{start}", self.address(alloc, 0)?)?;
        put(alloc, told.as_str(), "{next}", self.next(alloc, given)?)
    }

    /// The text with the identity of a place, whose public key is the text of its serial number.
    fn identified(self, alloc: Global, text: &str, place: u64) -> Result<String, AllocError> {
        let serial = self.serial(alloc, place)?;
        let mut told = text.replace(alloc, "{serial}", serial.as_str())?;
        told = put(
            alloc,
            told.as_str(),
            "{public}",
            digits_of(alloc, serial.as_str())?,
        )?;
        let digest = Digest::of(serial.as_bytes());
        put(
            alloc,
            told.as_str(),
            "{digest}",
            format!(in alloc; "{digest}")?,
        )
    }

    /// The life of the device at a place, by the text of its kind.
    fn life(self, alloc: Global, place: u64, text: &str) -> Result<String, AllocError> {
        let index = self.index;
        let mut life = self.told(alloc, text, place.saturating_add(1))?;
        life = self.identified(alloc, life.as_str(), place)?;
        let chip = format!(in alloc; "{index:06}{place:06}")?;
        life = put(alloc, life.as_str(), "{chip}", chip)?;
        put(
            alloc,
            life.as_str(),
            "{address}",
            self.address(alloc, place)?,
        )
    }

    /// The order, and the lives of its devices: one for each kind of chip.
    fn lives(self, alloc: Global) -> Result<String, AllocError> {
        let mut lives = self.told(alloc, ORDER, 0)?;
        let mut place = 0u64;
        for chip in CHIPS {
            for key in KEYS {
                for lock in LOCKS {
                    let end = if place % 3 == 0 { SCRAPPED } else { SHIPPED };
                    let text = life_of(alloc, &[*lock, *chip, *key, end])?;
                    lives.push_str(self.life(alloc, place, text.as_str())?.as_str())?;
                    place = place.saturating_add(1);
                }
            }
        }
        Ok(lives)
    }
}

/// The life of a device of a kind.
fn life_of(alloc: Global, kinds: &[Marks]) -> Result<String, AllocError> {
    let mut life = String::from_str(alloc, LIFE)?;
    for marks in kinds {
        life = filled(alloc, life.as_str(), *marks)?;
    }
    Ok(life)
}

/// The text with the numbers of a seat's requests, from 1 on, and of repeats the last once more.
pub fn with_numbers(alloc: Global, text: &str) -> Result<String, AllocError> {
    let (front, marked) = text.split_once("{nr").unwrap_or((text, ""));
    let mut all = String::from_str(alloc, front)?;
    let mut number = 0u64;
    for part in marked.split("{nr") {
        let rest = match part.strip_prefix("}") {
            Some(rest) => {
                number = number.saturating_add(1);
                rest
            }
            None => part.strip_prefix("=}").unwrap_or(""),
        };
        let told = format!(in alloc; "{number}{rest}")?;
        all.push_str(told.as_str())?;
    }
    Ok(all)
}

/// The lives of all devices of all orders.
fn all_lives(alloc: Global) -> Result<String, AllocError> {
    let mut text = String::from_str(alloc, MAPS)?;
    for order in orders(alloc)? {
        text.push_str(order.lives(alloc)?.as_str())?;
    }
    with_numbers(alloc, text.as_str())
}

/// 288 devices: of 18 orders (no, one and four addresses; from 0, from 1 and to the last number of
/// the widest; with and without a beginning) those of 16 chips each (two maps, one of four whole
/// blocks; with and without a bit; a key; locks in the plan). Behind them the reports, of a store
/// that is opened again.
#[test]
fn each_kind_of_order_and_chip_is_served(rt: HostRuntime) -> Result<(), Fail> {
    let alloc = rt.alloc();
    let first = all_lives(alloc)?;
    let lines = numbered(alloc, ORDER_LINE, "#", 10, 28)?;
    let rest = format!(in alloc; "{REPORT}{lines}{SITE_REPORT}")?;
    let limit = Limit {
        site: SITE_WITH_ROOM,
        first: first.as_str(),
        rows: Rows::None,
        rest: rest.as_str(),
    };
    assert_eq!(rt; over_each(alloc, &limit)?.as_str(), "");
    Ok(())
}
