//! The server behind programming stations, as a program of the command line.
//!
//! It reads its words to a job, which `run` does, or `report`s why they are none. The words of `ask`
//! are another crate's: with them it is a client.
#![tactic(auto)]

use seat_client::{ask_from_env, is_asked};
use sqlite_disk::Unknown;
use station_cli::{job_from_env, report, run};
use std::io;
use std::process::ExitCode;

fn main(rt: HostRuntime) -> ExitCode {
    ExitCode::from(start(&rt))
}

/// Does the job of the command line, and answers the status that the program ends with: 0 where it
/// is done or help or the version was shown, 1 where something failed, 2 where the words are refused.
fn start(rt: &HostRuntime) -> u8 {
    if is_asked(rt) {
        return ask_from_env(rt);
    }
    match job_from_env(rt) {
        Ok(job) => run(
            rt,
            rt.alloc(),
            &job,
            rt.reader(),
            io::writer(rt),
            &mut rt.stderr(),
            Unknown,
        )
        .status,
        Err(fault) => report(&fault, &mut io::writer(rt), &mut rt.stderr()),
    }
}
