//! The line of a failure on the standard error.
ghost use Rattle.std.specs.Prelude.{◌≡◌, ◌⊎◌, ◌≤◌, IfOk, IfSome, ◌++◌, ◌∷◌, [], length, string_bytes, take, unwrap_or};
ghost use Rattle.std.specs.Io.KnownBytes.{Appends};
ghost use Rattle.station_cli.specs.Prelude.{AppendsFront, IsTold, IsToldFault, fault_line, line_of};

use crate::failure::Failure;
use site_faults::ToldFault;
use std::alloc::{AllocError, Global};
use std::io::{ErrorKind, Write};

/// The line that is told where there is no memory for another one.
const NO_MEMORY: &str = "station: no memory\n";

/// Writes the line of a failure, or where memory is wanting for it the line of that, as far as the
/// writer takes it.
pub fn tell<W: Write>(alloc: Global, failure: Failure<'_>, err: &mut W)
    ensures { IsTold failure.entry (W.contents err.old) (W.contents err.new)
        ⊎ IsTold Failure.NoMemory (W.contents err.old) (W.contents err.new) }
{
    match line_of_failure(alloc, failure) {
        Ok(line) => write_front(line.as_bytes(), err),
        Err(_) => write_front(NO_MEMORY.as_bytes(), err),
    }
}

/// The line of a failure.
fn line_of_failure(alloc: Global, failure: Failure<'_>) -> Result<String, AllocError>
    ensures { IfOk result (λ line. string_bytes line ≡ line_of failure.entry ++ 10 ∷ []) }
{
    format!(in alloc; "{failure}\n")
}

/// Writes why a site isn't accepted, or where memory is wanting for it the line of that, as far as the
/// writer takes it. Answers the status of a job that ended so.
pub fn tell_fault<W: Write>(alloc: Global, fault: &ToldFault, err: &mut W) -> u8
    ensures status { result ≡ 1 }
    ensures told { IsToldFault fault.now (W.contents err.old) (W.contents err.new)
        ⊎ IsTold Failure.NoMemory (W.contents err.old) (W.contents err.new) }
{
    match line_of_fault(alloc, fault) {
        Ok(line) => write_front(line.as_bytes(), err),
        Err(_) => write_front(NO_MEMORY.as_bytes(), err),
    }
    1
}

/// The line that says why a site isn't accepted.
fn line_of_fault(alloc: Global, fault: &ToldFault) -> Result<String, AllocError>
    ensures { IfOk result (λ line. string_bytes line ≡ fault_line fault.now ++ 10 ∷ []) }
{
    format!(in alloc; "station: {fault}\n")
}

/// Writes bytes up to where the writer fails or takes none. An interrupted call is made again.
fn write_front<W: Write>(bytes: &[u8], writer: &mut W)
    ensures { AppendsFront (W.contents writer.old) (W.contents writer.new) bytes.now }
{
    let mut rest = bytes;
    for _call in 0..u32::MAX {
        if rest.is_empty() {
            return;
        }
        match write_once(rest, writer) {
            Some(count) => rest = &rest[count..],
            None => return,
        }
    }
}

/// Writes once, and answers how many bytes were taken: none where the call was interrupted. No answer
/// where the writer failed, or took none.
#[tactic(auto, using(crate::proofs::Fronts::nothing_taken))]
fn write_once<W: Write>(bytes: &[u8], writer: &mut W) -> Option<usize>
    ensures bound { IfSome result (λ count. count ≤ length bytes.now) }
    ensures taken { Appends (W.contents writer.old) (W.contents writer.new)
        (take (unwrap_or result 0) bytes.now) }
{
    match writer.write(bytes) {
        Ok(0) => None,
        Ok(count) => Some(count),
        Err(error) if error.kind() == ErrorKind::Interrupted => Some(0),
        Err(_) => None,
    }
}
