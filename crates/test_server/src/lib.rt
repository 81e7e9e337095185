//! Tests of the server: the machine with transactions, waits, locks and monitors; its streams; one session over a reader and
//! a writer; a machine and a desk over files that fail; newer schemas and an older stored format; and the program's arguments
//! and endings.
#![tactic(auto)]

#[cfg(test)]
mod callers;
#[cfg(test)]
mod checkpoints;
#[cfg(test)]
mod conversions;
#[cfg(test)]
mod crashes;
#[cfg(test)]
mod cut_off;
#[cfg(test)]
mod desks;
#[cfg(test)]
mod failing;
#[cfg(test)]
mod lock_rows;
#[cfg(test)]
mod machine;
#[cfg(test)]
mod made;
#[cfg(test)]
mod many_frames;
#[cfg(test)]
mod monitor_rows;
#[cfg(test)]
mod old_files;
#[cfg(test)]
mod runs;
#[cfg(test)]
mod serve;
#[cfg(test)]
mod server;
#[cfg(test)]
mod steps;
#[cfg(test)]
mod stops;
#[cfg(test)]
mod streams;
#[cfg(test)]
mod texts;
#[cfg(test)]
mod transact;
#[cfg(test)]
mod values;
#[cfg(test)]
mod waits;
#[cfg(test)]
mod watched;
#[cfg(test)]
mod words;
