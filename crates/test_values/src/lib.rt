//! Tests of what depends on arguments alone: values, schemas, conditions, mutations, and what rows refer to; and of what goes
//! over a stream: cuts of its bytes, messages and frames, and the texts, bytes and trees they are made of.
#![tactic(auto)]

#[cfg(test)]
mod atoms;
#[cfg(test)]
mod columns;
#[cfg(test)]
mod conditions;
#[cfg(test)]
mod cuts;
#[cfg(test)]
mod frames;
#[cfg(test)]
mod given;
#[cfg(test)]
mod inserts;
#[cfg(test)]
mod messages;
#[cfg(test)]
mod mutations;
#[cfg(test)]
mod newer;
#[cfg(test)]
mod reading;
#[cfg(test)]
mod references;
#[cfg(test)]
mod schema_files;
#[cfg(test)]
mod schemas;
#[cfg(test)]
mod shapes;
#[cfg(test)]
mod small_types;
