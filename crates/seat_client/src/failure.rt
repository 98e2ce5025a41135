// Why asking fails.
ghost use Rattle.std.specs.Prelude.{◌≡◌};
ghost use Rattle.seat_client.specs.declared.failure.AskFailure.TheVariants.{NoMemory};
ghost use Rattle.seat_client.specs.Failures.{failure_of};

use seat_ask::TextFault;
use std::alloc::{AllocError, AllocFailed};
use thiserror::Error;

/// Why no request was made. What was under way is as it was.
#[derive(Clone, Copy, Debug, PartialEq, Eq, Error)]
pub enum AskFailure {
    /// The address has another form.
    #[error("--url is no http://HOST:PORT")]
    OtherUrl,
    /// The file of the token can't be read, or has no token.
    #[error("the file of --token-file has no token of printable letters")]
    NoToken,
    /// Standard input has no request.
    #[error("standard input has no request: a line POST /v1/.., and a JSON object without nr")]
    NoRequest,
    /// Another process has the station's file.
    #[error("another process has the file of --state")]
    InUse,
    /// The station's file can't be read.
    #[error("cannot read the file of --state")]
    CannotRead,
    /// The station's file says no state.
    #[error("the file of --state is no station's: was it cut, or made by another program?")]
    NotState,
    /// The station's file can't be written.
    #[error("cannot write the file of --state")]
    CannotWrite,
    /// The log can't be read or written.
    #[error("cannot write the log beside the file of --state")]
    CannotLog,
    /// The reply can't be written.
    #[error("cannot write the reply")]
    CannotTell,
    /// The clock can't be read.
    #[error("cannot read the clock")]
    NoClock,
    /// Memory ran out.
    #[error("no memory")]
    NoMemory,
}

impl From<AllocError> for AskFailure {
    ghost from_gives = { λ _ failure. failure ≡ NoMemory };

    fn from(_error: AllocError) -> AskFailure {
        AskFailure::NoMemory
    }
}

impl<T: Drop> From<AllocFailed<T>> for AskFailure {
    ghost from_gives = { λ _ failure. failure ≡ NoMemory };

    fn from(_error: AllocFailed<T>) -> AskFailure {
        AskFailure::NoMemory
    }
}

impl From<TextFault> for AskFailure {
    ghost from_gives = { λ fault failure. failure ≡ failure_of fault };

    fn from(fault: TextFault) -> AskFailure {
        match fault {
            TextFault::OtherForm => AskFailure::NotState,
            TextFault::NoMemory => AskFailure::NoMemory,
        }
    }
}
