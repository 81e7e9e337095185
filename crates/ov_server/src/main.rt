//! The OVSDB server: `ov_server [--schema FILE] [--db FILE] [--stdio | --listen ADDR [--sessions N]]`. It serves one session on
//! standard input and output, or many over TCP.
#![tactic(auto)]

mod database;
mod draws;
mod start;

use crate::start::{run, words_of};
use ov_listen::pipes_over;
use ov_words::{Ending, error_line_of, status_of};
use sqlite::Unknown;
use std::process::ExitCode;

fn main(rt: HostRuntime) -> ExitCode {
    let pipes = pipes_over(&rt, rt.alloc(), rt.stdin(), rt.stdout());
    let ending = match (words_of(&rt), pipes) {
        (Ok(words), Ok(mut pipes)) => {
            match run(&rt, &rt, words.as_slice(), Unknown, &mut pipes) {
                Ok(ended) => ended.ending(),
                Err(ending) => ending,
            }
        }
        (Err(ending), _) => ending,
        (Ok(_), Err(_)) => Ending::Memory,
    };
    if let Some(line) = error_line_of(ending) {
        let _ = eprintln!(rt; "{line}");
    }
    ExitCode::from(status_of(ending))
}
