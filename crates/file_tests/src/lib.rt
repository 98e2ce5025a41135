//! Tests of stores in files, which are in memory: which are opened, what stands in their columns, and
//! what becomes of those that are opened anew, stopped, crashed, grown, upgraded and damaged.
#![tactic(auto)]

#[cfg(test)]
mod damage;
#[cfg(test)]
mod disks;
#[cfg(test)]
mod grown;
#[cfg(test)]
mod restarts;
#[cfg(test)]
mod stops;
#[cfg(test)]
mod stores;
#[cfg(test)]
mod upgrades;
