//! A store in files that answers requests, crashes, is opened again and goes on.
//!
//! `open_files` makes a keeper over files of any disk that can crash. Its tables are those that the
//! files hold (`tables`), and a crash leaves nothing else of it yet (`only_committed`).
//!
//! `crash_files` lets the files crash, and says three things of them:
//!
//! - they crashed (`crashed`), of which code over any disk knows nothing else;
//! - what they hold then is one of the images that they could leave (`image`);
//! - a further crash leaves no other image (`no_more`).
//!
//! `crash` ends a keeper, and then lets its files crash. Whatever this crash and a further one
//! leave of the files (`crashed`, `leaves`) holds a store of the keeper's site (`held` of
//! `LeaveStore`). Whoever opens it finds tables that the keeper could leave (`found`).
//!
//! `replay_until_stop` answers requests and hands back the files. Of every image that a crash may
//! leave of them it says what is found in it (`run`, `IsStopped`). `replay_through_crash` puts all
//! of these together with two lists of requests (`run`, `GoesOn`).
//!
//! No clause says that the store that is found is of the site that it was opened for. That any
//! keeper still tells its site's text later is in what requests lead to, in office_core, and in no
//! clause here.
#![tactic(auto)]

mod crashing;
mod opening;
mod restarted;

pub use crashing::{Crashable, crash, crash_files};
pub use opening::open_files;
pub use restarted::{Restarted, Stopped, Unserved, replay_through_crash, replay_until_stop};
