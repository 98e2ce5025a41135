//! Tests of the crates below the office and of the parts of HTTP, by outside vectors and worked
//! examples.
#![tactic(auto)]

#[cfg(test)]
mod addresses;
#[cfg(test)]
mod bodies;
#[cfg(test)]
mod changes;
#[cfg(test)]
mod chips;
#[cfg(test)]
mod columns;
#[cfg(test)]
mod esp32;
#[cfg(test)]
mod fuses;
#[cfg(test)]
mod imports;
#[cfg(test)]
mod json;
#[cfg(test)]
mod map_faults;
#[cfg(test)]
mod maps;
#[cfg(test)]
mod ranges;
#[cfg(test)]
mod replies;
#[cfg(test)]
mod sites;
#[cfg(test)]
mod steps;
#[cfg(test)]
mod streams;
#[cfg(test)]
mod texts;
