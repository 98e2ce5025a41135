//! The texts that tests share: the sample map and the sample sites, conversations with the server
//! with their reader, lives of devices,
//! and stores of earlier schemas. It has no tests of its own.
#![tactic(auto)]

pub mod conversations;
pub mod earlier;
pub mod early;
pub mod full_site;
pub mod lives;
pub mod numbered;
pub mod samples;
pub mod schema_one;
pub mod schema_two;
pub mod streams;
