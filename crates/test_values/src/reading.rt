use ov_cut::{Cutter, PieceRead};
use std::alloc::Global;
use std::test::Fail;
use test_basics::{Scripted, agrees};

/// A message may end in a later piece than it begins in. What is no JSON, or a stray bracket, ends the reading; messages before
/// it are read.
const PIECES: &str = r#"{"id":0,"method":"list_dbs","params":[]}{"id":1, -> 1 None
"method":"list_dbs","params":[]}{}{} -> 3 None
{"id":2,"method":"list_dbs","params":[]}{"id":3e}{} -> 1 Some(Damaged)"#;

/// The same for a bracket outside a message.
const STRAY: &str = r#"{"id":0,"method":"list_dbs","params":[]}{}] -> 2 Some(Damaged)"#;

/// A cutter whose pieces are read.
#[derive(Drop)]
struct Reading {
    cutter: Cutter,
}

impl Reading {
    fn new(alloc: Global) -> Reading {
        Reading {
            cutter: Cutter::new(alloc),
        }
    }
}

/// The commands are pieces, answered with the number of messages that were read, and why no more can be.
impl Scripted for Reading {
    fn answer(&mut self, alloc: Global, command: &str) -> Result<String, Fail> {
        let PieceRead { messages, fault } = self.cutter.read(alloc, command.as_bytes());
        Ok(format!(in alloc; "{} {fault:?}", messages.len())?)
    }
}

#[test]
fn a_piece_is_read_up_to_what_is_unreadable(rt: HostRuntime) -> Result<(), Fail> {
    agrees(rt.alloc(), Reading::new(rt.alloc()), PIECES)
}

#[test]
fn a_piece_is_read_up_to_a_stray_bracket(rt: HostRuntime) -> Result<(), Fail> {
    agrees(rt.alloc(), Reading::new(rt.alloc()), STRAY)
}
