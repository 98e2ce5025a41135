//! The jobs of the server's program: the words of its command line are read to a job, which is done
//! over a reader and two writers, or over a port.
//!
//! `read_job` answers the job that the words give by `clap`'s meaning, and the line of the version
//! where they ask for it. `run` ends with 0 where the job is done, of which its output says what that
//! is (`IsDone`), and then writes nothing on the error output. Else it ends with 1, and writes there
//! the line of a failure that its job may have, as far as it can be written (`ends`).
//!
//! The bytes of a site file lead to the site or to the failure that its fault is
//! (`site_text_of_bytes`), and each failure has its line (`Failure`) and status 1. A file that
//! describes no site is the failure whatever the store and the stream are (`replay`, `replay_stored`,
//! `serve_site`). `check-map` prints the name of the map in a file, and how many blocks and fields it
//! has. `check-site` prints how many customers the site in a file has, or why it isn't accepted, with
//! the place (`check_file`, `check_files`). `report` has help and the version on the output alone,
//! and nothing else there.
//!
//! `replay` serves a stream over a keeper without rows. It does what `serve_stream` says of the bytes
//! and the tables (`served`), and answers how the stream ended. It stays within the stream's calls,
//! and nothing is read or written before the site is known (`within`). One function gives what an end
//! is reported as: nothing where the stream ended, was closed or was cut, else the failure
//! (`result_of_stream`). So `run` ends with 0 only where the stream ended so (`EndsStream`).
//!
//! A job over the store in a file hands back what it left of the files (`Done`), and `books` of
//! `replay_stored` and of `serve_site` is said of these. There are three cases:
//!
//! - The job had no site, as the text of the file describes none or memory ran out. Then no opening
//!   was tried: what one takes comes back, which no code can make again.
//! - The store was refused. Then the failure is its fault, and what comes back is as
//!   `open_or_hand_back` says.
//! - A keeper was as its opening says, requests led on from its tables, and what comes back is what
//!   the keeper left (`IsServedOver`). For `replay_stored` these are the requests of the stream, with
//!   its bytes and how it ended.
//!
//! The store that either serves over has the limit of steps: `serve_port` and `replay_over` require it,
//! and are over any keeper that has one, of which no code sets another (`Limited`). The port has the
//! program's bounds too. What the files held before has a name in all of these, which `main` alone
//! fills.
//!
//! The job `serve` prints its line once the port is listened on, and nothing before. Where it is done,
//! as many connections were given to be served as it was asked for (`counted`). Its answer is a
//! `ConnectionCount`, which nothing makes but the count of those that a listener gave.
//!
//! Whatever the connections say, one run of answers to requests of the site's callers leads from the
//! tables before to the tables after (`serve_connections`, over any keeper, listener and clock). All
//! that `serve_stream` says of one stream's requests holds of this run, crashes included. A keeper
//! whose disk is honest at the end was so at the start. `serve_connections` fails only where waiting
//! for a connection does.
//!
//! So a store that `serve_site` opened, served over and left has a life (`served_files_have_lives`).
//! The life begins with the tables of its file, and leaves what is found in the files that come back.
//! A start that opens these is of a site that grew from this one (`later_starts_are_of_growths`). A
//! stream that `replay_stored` served over a store is such a start (`replays_are_starts`).
//!
//! A connection's two directions are served apart (`Duplex`), and tell what their streams tell. Where
//! these tell their bytes, what was sent begins with the requests that were answered, and what the
//! client got is their replies (`told` of `serve_client`). When a client is waited for no longer is
//! one function of moments (`is_over`, `is_untaken`), and so is when its turn is over whose next
//! request was read already (`is_turn_over`); the program's bounds are its numbers (`AreOfProgram`).
//! From which moment on a request is timed is said too (`note_wait`, `note_read`).
//! What is done where accepting a connection fails is one too (`next_accept`).
//!
//! No clause says these:
//!
//! - That each connection that was given is served and not dropped, and when. Tests show both, over
//!   simulated clients.
//! - What bytes a socket gets: std's tell none.
//! - What a cell holds: for how long a reply was waited for, and since when another connection waits.
//! - That the port is of this machine alone. A test connects to it by another address.
//! - What `run` does with the files behind these calls: it closes them.
#![tactic(auto)]

mod accepting;
mod arrivals;
mod duplex;
mod ends;
mod failure;
mod file_text;
mod job;
mod lives;
mod map_file;
mod patience;
mod reporting;
mod running;
mod serving;
mod site_check;
mod site_file;
mod stored;
mod telling;

pub use arrivals::ConnectionCount;
pub use duplex::Duplex;
pub use failure::Failure;
pub use job::{Job, StoreName, VERSION, WordsFault, job_from_env, read_job};
pub use lives::{later_starts_are_of_growths, replays_are_starts, served_files_have_lives};
pub use patience::Bounds;
pub use reporting::report;
pub use running::{Finished, run};
pub use serving::{listen, serve_connections};
