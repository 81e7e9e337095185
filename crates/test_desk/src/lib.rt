//! Tests of what crosses threads, and of what comes over sockets: the order of notes, the rings between workers and the desk,
//! the workers, the hall, the desk with its clients, and a listener with sessions and a lobby over the loopback interface.
#![tactic(auto)]

#[cfg(test)]
mod addresses;
#[cfg(test)]
mod clients;
#[cfg(test)]
mod clocks;
#[cfg(test)]
mod connections;
#[cfg(test)]
mod conversations;
#[cfg(test)]
mod crowds;
#[cfg(test)]
mod desks;
#[cfg(test)]
mod gates;
#[cfg(test)]
mod halls;
#[cfg(test)]
mod holding;
#[cfg(test)]
mod lobby;
#[cfg(test)]
mod machines;
#[cfg(test)]
mod orders;
#[cfg(test)]
mod readers;
#[cfg(test)]
mod sessions;
#[cfg(test)]
mod talks;
#[cfg(test)]
mod threads;
#[cfg(test)]
mod told;
#[cfg(test)]
mod turns;
#[cfg(test)]
mod visits;
#[cfg(test)]
mod writers;
