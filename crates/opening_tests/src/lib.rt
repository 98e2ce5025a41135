//! An example of `office_store`'s opening by itself, for who has the tables of an office and another
//! program over them. Take its folder and those of the crates that it stands on, and their rows of
//! `crates.txt`.
#![tactic(auto)]

#[cfg(test)]
mod opened;
