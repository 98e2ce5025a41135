// Why a request has no answer.
use std::alloc::{AllocError, AllocFailed};
use std::error;
use thiserror::Error;

/// The keeper has no memory for an answer, or its store failed.
///
/// Nothing makes it but what is here: it takes the error of the allocator or of the store, and where
/// there is none, `without_error` is called. Each place that does so, or that makes an error itself,
/// is a row of `crates/failures.txt`.
#[derive(Clone, Copy, Debug, PartialEq, Eq, Drop, Error)]
#[error("the keeper has no memory, or its store failed")]
pub struct Unkept {
    cause: (),
}

impl Unkept {
    /// The store failed, by this error.
    pub fn of_store<E: error::Error + Drop>(_error: E) -> Unkept {
        Unkept { cause: () }
    }

    /// Nothing failed, but the tables are as no sound ones are, or have no room for a number.
    pub fn without_error() -> Unkept {
        Unkept { cause: () }
    }
}

impl From<AllocError> for Unkept {
    fn from(_: AllocError) -> Self {
        Unkept { cause: () }
    }
}

impl<T: Drop> From<AllocFailed<T>> for Unkept {
    fn from(_: AllocFailed<T>) -> Self {
        Unkept { cause: () }
    }
}
