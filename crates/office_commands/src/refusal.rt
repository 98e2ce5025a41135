// Why a request is refused.
ghost use Rattle.std.specs.Prelude.{◌≡◌, []};
ghost use Rattle.office_commands.specs.Prelude.{TellsNumber, refusal_body, refusal_number, refusal_row, refusal_status, numbered_body, unkept};
ghost use Rattle.office_commands.specs.declared.refusal.Refusal.TheVariants as refusals;

use fuse_plan::PlanFault;
use http_replies::Status;
use office_tables::Unkept;
use std::alloc::{AllocError, AllocFailed};
use text_core::Serial;

/// Why a request is refused, in the order of the refusals' numbers: where several hold, the first
/// is answered.
#[derive(Clone, Copy, PartialEq, Eq, Drop)]
pub enum Refusal {
    /// Nobody has the token, or there is none (6).
    UnknownToken,
    /// The server has no such path, or not with this method (7).
    UnknownPath,
    /// The manager asks on a seat's path (8).
    WrongCaller,
    /// The body is no JSON (9).
    BadJson,
    /// A member or a parameter is missing or not of its form (10).
    BadMember,
    /// The request's number isn't the one that is expected (11).
    WrongNumber(u64),
    /// The last number came with another request (12).
    OtherBody,
    /// The customer has no fuse map with such a digest (13).
    UnknownMap,
    /// The customer has no such order (14).
    UnknownOrder,
    /// The customer has no such device (15).
    UnknownDevice,
    /// The customer has a row of that name (16).
    Exists,
    /// The device isn't in a state for it (17).
    WrongState,
    /// The order has as many devices as it is for (18).
    QuantityReached,
    /// The wishes can't be burnt, by their fault (19 to 28).
    BadPlan(PlanFault),
    /// The text is no fuse map, and the number of its fault, 1 to 8 (29).
    BadMap(u8),
    /// A prefix or a serial number is not of its form (30).
    BadSerial,
    /// The last number has more digits than the width (31).
    NumberTooWide,
    /// Each number of the order is given (32).
    Exhausted,
    /// No pool has room for the addresses (33).
    NoMacRoom,
    /// Another order has one of the numbers (34).
    RangeOverlap,
    /// The key is bound to another serial number of the issuer (35).
    KeyBound,
    /// The chip has another coding scheme than None, or hides which it has (36).
    CodingScheme,
    /// The issuer isn't among the customer's (37).
    ForeignIssuer,
    /// A row of an import is at odds with what is given: its serial number has another key, or its
    /// key another serial number (38).
    ImportConflict(Serial),
    /// Another text of the customer's has the digest of this one (39).
    MapDigestTaken,
    /// The customer has as many as can be, or asks for more than can be (40).
    Limit,
    /// The read-back isn't of the map's shape, or shows what its own locks hide (41).
    BadReadback,
    /// What is asked for as a beginning of validity is none (42).
    BadNotBefore,
    /// There is no memory for an answer, or the store failed (50).
    Unkept(Unkept),
}

impl From<Unkept> for Refusal {
    ghost from_gives = { λ _ refusal. refusal ≡ unkept };

    fn from(unkept: Unkept) -> Refusal {
        Refusal::Unkept(unkept)
    }
}

impl From<AllocError> for Refusal {
    ghost from_gives = { λ _ refusal. refusal ≡ unkept };

    fn from(error: AllocError) -> Refusal {
        Refusal::Unkept(Unkept::from(error))
    }
}

impl<T: Drop> From<AllocFailed<T>> for Refusal {
    ghost from_gives = { λ _ refusal. refusal ≡ unkept };

    fn from(refused: AllocFailed<T>) -> Refusal {
        Refusal::Unkept(Unkept::from(refused))
    }
}

/// What there is to know of a refusal.
#[derive(Clone, Copy, Drop)]
pub(crate) struct RefusalRow {
    /// Its number, 6 to 50.
    pub number: u8,
    /// The status of its reply (RFC 9110, section 15).
    pub status: Status,
    /// Its name.
    pub name: &'static str,
    /// The body that tells its name and its number alone.
    pub text: &'static str,
}

/// A row by its number, its status and its name.
macro_rules! row {
    ($number:literal, $status:ident, $name:literal) => {
        RefusalRow {
            number: $number,
            status: Status::$status,
            name: $name,
            text: concat!("{\"error\":\"", $name, "\",\"no\":", $number, "}"),
        }
    };
}

/// The row of wishes that can't be burnt, by their fault.
#[tactic(auto, unfolding(crate::proofs::Numbers::digits))]
fn plan_fault_row(fault: PlanFault) -> RefusalRow
    ensures number { result.number ≡ (refusal_row (Refusal.BadPlan fault)).number }
    ensures status { result.status ≡ (refusal_row (Refusal.BadPlan fault)).status }
    ensures name { result.name.now ≡ (refusal_row (Refusal.BadPlan fault)).name }
    ensures text { result.text.now ≡ refusal_body (Refusal.BadPlan fault) }
{
    match fault {
        PlanFault::UnknownField => row!(19, Unprocessable, "unknown_field"),
        PlanFault::UnmappedBit => row!(20, Unprocessable, "unmapped_bit"),
        PlanFault::ValueTooWide => row!(21, Unprocessable, "value_too_wide"),
        PlanFault::ClearsBurnt => row!(22, Unprocessable, "clears_burnt"),
        PlanFault::Contradiction => row!(23, Unprocessable, "contradiction"),
        PlanFault::WrongKind => row!(24, Unprocessable, "wrong_kind"),
        PlanFault::OtherKey => row!(25, Unprocessable, "other_key"),
        PlanFault::WriteProtected => row!(26, Unprocessable, "write_protected"),
        PlanFault::Hidden => row!(27, Unprocessable, "hidden"),
        PlanFault::NoLock => row!(28, Unprocessable, "no_lock"),
    }
}

impl Refusal {
    /// What there is to know of the refusal.
    #[tactic(auto, unfolding(crate::proofs::Numbers::digits))]
    pub(crate) fn row(self) -> RefusalRow
        ensures number { result.number ≡ (refusal_row self).number }
        ensures status { result.status ≡ (refusal_row self).status }
        ensures name { result.name.now ≡ (refusal_row self).name }
        ensures text { result.text.now
            ≡ numbered_body (refusal_row self).name [] (refusal_row self).number [] }
    {
        match self {
            Refusal::UnknownToken => row!(6, Unauthorized, "unknown_token"),
            Refusal::UnknownPath => row!(7, NotFound, "unknown_path"),
            Refusal::WrongCaller => row!(8, Forbidden, "wrong_caller"),
            Refusal::BadJson => row!(9, BadRequest, "bad_json"),
            Refusal::BadMember => row!(10, BadRequest, "bad_member"),
            Refusal::WrongNumber(_) => row!(11, Conflict, "wrong_number"),
            Refusal::OtherBody => row!(12, Conflict, "other_body"),
            Refusal::UnknownMap => row!(13, NotFound, "unknown_map"),
            Refusal::UnknownOrder => row!(14, NotFound, "unknown_order"),
            Refusal::UnknownDevice => row!(15, NotFound, "unknown_device"),
            Refusal::Exists => row!(16, Conflict, "exists"),
            Refusal::WrongState => row!(17, Conflict, "wrong_state"),
            Refusal::QuantityReached => row!(18, Conflict, "quantity_reached"),
            Refusal::BadPlan(fault) => plan_fault_row(fault),
            Refusal::BadMap(_) => row!(29, Unprocessable, "bad_map"),
            Refusal::BadSerial => row!(30, Unprocessable, "bad_serial"),
            Refusal::NumberTooWide => row!(31, Unprocessable, "number_too_wide"),
            Refusal::Exhausted => row!(32, Conflict, "exhausted"),
            Refusal::NoMacRoom => row!(33, Conflict, "no_mac_room"),
            Refusal::RangeOverlap => row!(34, Conflict, "range_overlap"),
            Refusal::KeyBound => row!(35, Conflict, "key_bound"),
            Refusal::CodingScheme => row!(36, Unprocessable, "coding_scheme"),
            Refusal::ForeignIssuer => row!(37, Unprocessable, "foreign_issuer"),
            Refusal::ImportConflict(_) => row!(38, Conflict, "import_conflict"),
            Refusal::MapDigestTaken => row!(39, Conflict, "map_digest_taken"),
            Refusal::Limit => row!(40, Conflict, "limit"),
            Refusal::BadReadback => row!(41, Unprocessable, "bad_readback"),
            Refusal::BadNotBefore => row!(42, Unprocessable, "bad_not_before"),
            Refusal::Unkept(_) => row!(50, Unavailable, "unkept"),
        }
    }

    /// The number of the refusal, 6 to 50.
    pub fn number(self) -> u8
        ensures { result ≡ refusal_number self }
    {
        self.row().number
    }

    /// The status of the reply (RFC 9110, section 15).
    pub fn status(self) -> Status
        ensures { result ≡ refusal_status self }
    {
        self.row().status
    }
}

/// The body of each refusal tells its number.
pub fn refusals_tell_their_numbers()
    ensures { (r : Refusal) → TellsNumber (refusal_body r) (refusal_number r) }
{}
