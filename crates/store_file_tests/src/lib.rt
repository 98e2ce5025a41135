//! Tests of the making of a store's file: over a folder in memory, and over the system's.
#![tactic(auto)]

#[cfg(test)]
mod files;
#[cfg(test)]
mod imagined;
#[cfg(test)]
mod making;
