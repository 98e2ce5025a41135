//! What is done where accepting a connection failed.
ghost use Rattle.std.specs.Prelude.{◌≡◌, ◌↔◌, ◌*◌, IsTrue};
ghost use Rattle.std.specs.Duration.{as_nanos};
ghost use Rattle.station_cli.specs.Prelude.{IsNextAccept, IsPassedOver, IsPassing, IsPassingNumber};

use crate::patience::has_reached;
use std::io;
use std::io::ErrorKind;
use std::time::{Duration, Instant};

/// How many milliseconds lie between an error that passes and the next try to accept a connection.
pub const PAUSE_MILLISECONDS: u64 = 100;

/// How many seconds nothing but errors that pass may come, until accepting has failed.
pub const FAILING_SECONDS: u64 = 60;

/// What is done where accepting a connection failed.
#[derive(Clone, Copy)]
pub enum NextAccept {
    /// It is tried again at once.
    AtOnce,
    /// It is tried again after a pause.
    AfterPause,
    /// It has failed.
    Never,
}

/// The pause between two tries.
pub fn pause() -> Duration
    ensures { as_nanos result ≡ 100 * 1_000_000 }
{
    Duration::from_millis(PAUSE_MILLISECONDS)
}

/// Whether the next connection is waited for at once after this error: one was gone before it was
/// accepted, or the call was interrupted.
fn is_passed_over(error: &io::Error) -> bool
    ensures { IsTrue result ↔ IsPassedOver error.now }
{
    let kind = error.kind();
    kind == ErrorKind::ConnectionAborted || kind == ErrorKind::Interrupted
}

/// Whether the system's error of this number passes (Linux, accept(2)): one that wants memory or files
/// (12, 23, 24, 105), or one of the network's that a connection had before it was accepted.
fn passes(number: i32) -> bool
    ensures { IsTrue result ↔ IsPassingNumber number }
{
    matches!(
        number,
        12 | 23 | 24 | 64 | 71 | 92 | 95 | 100 | 101 | 105 | 112 | 113
    )
}

/// Whether an error passes.
fn is_passing(error: &io::Error) -> bool
    ensures { IsTrue result ↔ IsPassing error.now }
{
    match error.raw_os_error() {
        Some(number) => passes(number),
        None => false,
    }
}

/// What is done where accepting a connection failed at this moment, and has since another one in no
/// other way than by errors that pass.
pub fn next_accept(error: &io::Error, failing_since: Instant, now: Instant) -> NextAccept
    ensures { IsNextAccept error.now failing_since now result }
{
    if is_passed_over(error) {
        return NextAccept::AtOnce;
    }
    let failing = now.duration_since(failing_since);
    if is_passing(error) && !has_reached(failing, Duration::from_secs(FAILING_SECONDS)) {
        NextAccept::AfterPause
    } else {
        NextAccept::Never
    }
}
