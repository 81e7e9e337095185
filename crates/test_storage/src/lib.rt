//! Tests of storage: keepers, the disk in memory, the store, and stored rows of both formats that are opened.
#![tactic(auto)]

#[cfg(test)]
mod cells;
#[cfg(test)]
mod crashes;
#[cfg(test)]
mod disks;
#[cfg(test)]
mod files;
#[cfg(test)]
mod keepers;
#[cfg(test)]
mod once;
#[cfg(test)]
mod opens;
#[cfg(test)]
mod places;
#[cfg(test)]
mod refusals;
#[cfg(test)]
mod stores;
#[cfg(test)]
mod tables;
#[cfg(test)]
mod trials;
#[cfg(test)]
mod upgrades;
#[cfg(test)]
mod volatile;
