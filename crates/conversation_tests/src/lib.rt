//! Tests of the server by conversations, over both keepers: each request gets its reply, whatever
//! other customers ask, in streams and in lists, and what few steps leave. Streams are tested too:
//! where they end, in what pieces they come, and readers and writers that fail.
#![tactic(auto)]

#[cfg(test)]
mod chips;
#[cfg(test)]
mod conversations;
#[cfg(test)]
mod counting;
#[cfg(test)]
mod digests;
#[cfg(test)]
mod growths;
#[cfg(test)]
mod isolation;
#[cfg(test)]
mod limits;
#[cfg(test)]
mod maps;
#[cfg(test)]
mod parts;
#[cfg(test)]
mod products;
#[cfg(test)]
mod rare;
#[cfg(test)]
mod seats;
#[cfg(test)]
mod sizes;
#[cfg(test)]
mod steps;
#[cfg(test)]
mod streams;
#[cfg(test)]
mod visits;
#[cfg(test)]
mod want;
