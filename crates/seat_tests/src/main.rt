//! Tests of the protocol of a seat: what a station does at each row of the table of its page.
//!
//! As a program it prints vectors for the clients of a seat, which the gate compares with the file
//! `stdout` beside this folder: a line of JSON for each state of a station, with what it does there
//! at each event and what its state is then. An event that a line doesn't have changes nothing.
#![tactic(auto)]

#[cfg(test)]
mod late_copies;
#[cfg(test)]
mod table;
mod walk;
mod words;

fn main(rt: HostRuntime) -> anyhow::Result<()> {
    let told = walk::vectors(rt.alloc())?;
    print!(rt; "{told}")?;
    Ok(())
}
