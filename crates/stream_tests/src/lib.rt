//! Tests of connections, and of the program's words, files and runs.
#![tactic(auto)]

#[cfg(test)]
mod clients;
#[cfg(test)]
mod connections;
#[cfg(test)]
mod files;
#[cfg(test)]
mod jobs;
#[cfg(test)]
mod kept;
#[cfg(test)]
mod made;
#[cfg(test)]
mod many;
#[cfg(test)]
mod names;
#[cfg(test)]
mod patience;
#[cfg(test)]
mod refused;
#[cfg(test)]
mod replays;
#[cfg(test)]
mod replies;
#[cfg(test)]
mod serving;
#[cfg(test)]
mod words;
