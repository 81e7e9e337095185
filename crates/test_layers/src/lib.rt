//! Tests of transactions without sessions, and of the layers below and beside them: rows, changes, commits, stages, locks,
//! monitors, sessions and their waiting frames; operations and their faults, attempts on a database, and what a commit makes of
//! the rows that the operations left.
#![tactic(auto)]

#[cfg(test)]
mod attempts;
#[cfg(test)]
mod databases;
#[cfg(test)]
mod fault_pairs;
#[cfg(test)]
mod faults;
#[cfg(test)]
mod integrity;
#[cfg(test)]
mod locks;
#[cfg(test)]
mod looked;
#[cfg(test)]
mod lookups;
#[cfg(test)]
mod monitors;
#[cfg(test)]
mod operations;
#[cfg(test)]
mod outbox;
#[cfg(test)]
mod owning;
#[cfg(test)]
mod relations;
#[cfg(test)]
mod rows;
#[cfg(test)]
mod sessions;
#[cfg(test)]
mod sizes;
#[cfg(test)]
mod stages;
#[cfg(test)]
mod texts;
