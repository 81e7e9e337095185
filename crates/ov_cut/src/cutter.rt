ghost use Rattle.std.specs.Prelude.{◌≡◌, ◌≢◌, ◌↔◌, ◌+◌, ◌<◌, ◌≤◌, ℕ, List, [], ◌++◌, Some, None};
ghost use Rattle.std.specs.Prelude.{IsSome, IsTrue, length, take, slice_get};
ghost use Rattle.ov_specs.specs.values.Capped.{capped_to_64_bits};
ghost use Rattle.ov_specs.specs.wire.Beginning.{BeginsAs};
ghost use Rattle.ov_specs.specs.wire.Cut.{cut};
ghost use Rattle.ov_cut.specs.CutterState.{HasCut};
ghost use Rattle.ov_cut.specs.Message.{IsBegunAs};
ghost use Rattle.ov_cut.specs.Piece.{with_fault, advanced, KeepsMore, GivesMessage, TakesPiece};
ghost use Rattle.ov_cut.specs.Piece.{TakesFront, LooksAtFront};

use crate::fault::CutFault;
use crate::looks::Looks;
use crate::message::{FIRST, Found, Scan, find_end};
use crate::space::{Gap, find_gap};
use ov_base::Bytes;
use std::alloc::Global;
use std::marker::Model;
use std::mem;

/// What a piece of a stream brought.
#[derive(Drop)]
pub struct Fed {
    /// The messages that end in the piece, in order, each without the white space around it.
    pub messages: Vec<Bytes>,
    /// Why no more messages come.
    pub fault: Option<CutFault>,
}

/// Cuts a byte stream that arrives in pieces into messages (RFC 7047, 4 sends JSON-RPC objects without framing).
#[derive(Drop)]
pub struct Cutter {
    start: u64,
    rest: Vec<u8>,
    /// The state in which the rest leaves the message that has begun, so that no byte of it is looked at again.
    scan: Option<Scan>,
    fault: Option<CutFault>,
    looks: Looks,
}

impl Model for Cutter {
    ghost use Rattle.ov_cut.specs.CutterState.{CutterState};

    ghost Value = { CutterState };

    ghost use Rattle.ov_cut.specs.Message.{IsLeftAs};

    ghost view = { λ c. record {
      start = c.start;
      rest = c.rest.items;
      fault = c.fault;
      looked = c.looks;
    } };

    ghost invariant = { λ c. IsLeftAs c.rest.items c.scan };
}

impl Cutter {
    /// A cutter of a stream of which nothing has arrived. Allocates nothing before the first piece.
    pub fn new(alloc: Global) -> Cutter
        ensures { HasCut [] [] result }
    {
        Cutter {
            start: 0,
            rest: Vec::new(alloc),
            scan: None,
            fault: None,
            looks: Looks::new(),
        }
    }

    /// The bytes of the message that has begun and has not ended, at most 1,048,576; none once the stream is damaged or a
    /// message was too long.
    pub fn rest(&self) -> &[u8]
        ensures { result.now ≡ self.now.rest }
    {
        self.rest.as_slice()
    }

    /// Takes the next piece of the stream, of any length. Refuses a stray byte between messages, a message of more than
    /// 1,048,576 bytes, and anything for which an allocation fails; afterwards it refuses all that follows.
    pub fn feed(&mut self, alloc: Global, piece: &[u8]) -> Fed
        // All messages so far, the rest and the fault are those of the stream so far.
        ensures whole { (stream : List ℕ) (given : List (List ℕ)) → HasCut stream given self.old
            → result.fault ≢ Some CutFault.Memory
            → HasCut (stream ++ piece.now) (given ++ result.messages.items) self.new }
        // If an allocation fails, some are missing at the end.
        ensures memory { (stream : List ℕ) (given : List (List ℕ)) → HasCut stream given self.old
            → BeginsAs (given ++ result.messages.items) (cut (stream ++ piece.now)).messages }

        ensures fault { result.fault ≡ self.new.fault }

        // With a fault no more messages come, and each later call returns the same fault.
        ensures over_messages { IsSome self.old.fault → result.messages.items ≡ [] }
        ensures over_state { IsSome self.old.fault → self.new ≡ self.old }

        // Each byte of the piece is looked at at most once, and those of earlier pieces not again; with no fault, each is.
        ensures looked { self.new.looked ≤ self.old.looked + length piece.now }
        ensures looked_at_all { self.new.fault ≡ None
            → self.new.looked ≡ self.old.looked + length piece.now }
    {
        let mut messages = Vec::new(alloc);
        let mut used = 0;
        'fronts: while used < piece.len() && !self.is_over() {
            used += self.feed_front(alloc, &mut messages, &piece[used..]);
        }
        Fed {
            messages,
            fault: self.fault,
        }
    }

    /// Whether no more messages come.
    fn is_over(&self) -> bool
        ensures { IsTrue result ↔ IsSome self.now.fault }
    {
        self.fault.is_some()
    }

    /// Takes the piece up to the end of its first message, or all of it if none ends in it or there is a fault. Returns how
    /// many bytes that is.
    fn feed_front(&mut self, alloc: Global, messages: &mut Vec<Bytes>, piece: &[u8]) -> usize
        requires sound { self.old.fault ≡ None }
        requires some { 0 < length piece.now }
        ensures within { result ≤ length piece.now }
        ensures more { 0 < result }
        ensures takes { TakesPiece self.old messages.old.items (take result piece.now) self.new
            messages.new.items }
        ensures looked { self.new.looked ≤ self.old.looked + result }
        ensures looked_at_all { self.new.fault ≡ None → self.new.looked ≡ self.old.looked + result }
    {
        match self.take_front(alloc, messages, piece) {
            Ok(len) => len,
            Err(fault) => {
                self.fail(fault);
                piece.len()
            }
        }
    }

    /// Takes the piece up to the end of its first message, or all of it if none ends in it.
    fn take_front(
        &mut self,
        alloc: Global,
        messages: &mut Vec<Bytes>,
        piece: &[u8],
    ) -> Result<usize, CutFault>
        requires sound { self.old.fault ≡ None }
        requires some { 0 < length piece.now }
        ensures takes { TakesFront self.old messages.old.items piece.now result self.new
            messages.new.items }
        ensures looked { LooksAtFront self.old.looked piece.now result self.new.looked }
    {
        let Some(scan) = self.scan else {
            return self.take_gap(alloc, messages, piece);
        };
        match find_end(&mut self.looks, &self.rest, scan, piece) {
            Found::Whole(len) => {
                self.end_message(alloc, messages, &piece[..len])?;
                Ok(len)
            }
            Found::Begun(scan) => {
                self.keep(scan, piece)?;
                Ok(piece.len())
            }
            Found::TooLong => Err(CutFault::TooLong),
        }
    }

    /// The same if no message has begun.
    fn take_gap(
        &mut self,
        alloc: Global,
        messages: &mut Vec<Bytes>,
        piece: &[u8],
    ) -> Result<usize, CutFault>
        requires sound { self.old.fault ≡ None }
        requires between { self.old.rest ≡ [] }
        requires some { 0 < length piece.now }
        ensures takes { TakesFront self.old messages.old.items piece.now result self.new
            messages.new.items }
        ensures looked { LooksAtFront self.old.looked piece.now result self.new.looked }
    {
        match find_gap(&mut self.looks, piece) {
            Gap::Space => {
                self.advance(piece.len());
                Ok(piece.len())
            }
            Gap::Brace(gap) => {
                self.advance(gap);
                Ok(gap + self.take_message(alloc, messages, &piece[gap..])?)
            }
            Gap::Stray(gap) => Err(CutFault::Damaged(moved(self.start, gap))),
        }
    }

    /// The same if the piece begins with the brace of a message, which has been looked at.
    fn take_message(
        &mut self,
        alloc: Global,
        messages: &mut Vec<Bytes>,
        piece: &[u8],
    ) -> Result<usize, CutFault>
        requires sound { self.old.fault ≡ None }
        requires between { self.old.rest ≡ [] }
        requires brace { slice_get piece.now 0 ≡ Some 123 }
        ensures takes { TakesFront self.old messages.old.items piece.now result self.new
            messages.new.items }
        ensures looked { LooksAtFront self.old.looked piece.now result (self.new.looked + 1) }
    {
        let (brace, following) = piece.split_at(1);
        match find_end(&mut self.looks, brace, FIRST, following) {
            Found::Whole(len) => {
                self.copy_message(alloc, messages, &piece[..len + 1])?;
                Ok(len + 1)
            }
            Found::Begun(scan) => {
                self.keep(scan, piece)?;
                Ok(piece.len())
            }
            Found::TooLong => Err(CutFault::TooLong),
        }
    }

    /// Appends these bytes to the rest, unless an allocation fails. They leave the message in the state `scan`.
    fn keep(&mut self, scan: Scan, more: &[u8]) -> Result<(), CutFault>
        requires { IsBegunAs (self.old.rest ++ more.now) scan }
        ensures { KeepsMore self.old more.now result self.new }
    {
        if self.rest.extend_from_slice(more).is_err() {
            return Err(CutFault::Memory);
        }
        self.scan = Some(scan);
        Ok(())
    }

    /// Gives the message that has begun, which these bytes end. The rest itself becomes the message.
    fn end_message(
        &mut self,
        alloc: Global,
        messages: &mut Vec<Bytes>,
        end: &[u8],
    ) -> Result<(), CutFault>
        ensures { GivesMessage self.old (self.old.rest ++ end.now) messages.old.items result
            self.new messages.new.items }
    {
        if self.rest.extend_from_slice(end).is_err() {
            return Err(CutFault::Memory);
        }
        self.rest.shrink_to_fit();
        let message = mem::replace(&mut self.rest, Vec::new(alloc));
        self.scan = None;
        self.give(messages, Bytes::from_vec(message))
    }

    /// Gives a message that lies in one piece.
    fn copy_message(
        &mut self,
        alloc: Global,
        messages: &mut Vec<Bytes>,
        message: &[u8],
    ) -> Result<(), CutFault>
        requires { self.old.rest ≡ [] }
        ensures { GivesMessage self.old message.now messages.old.items result self.new
            messages.new.items }
    {
        match Bytes::from_slice(alloc, message) {
            Ok(copy) => self.give(messages, copy),
            Err(_) => Err(CutFault::Memory),
        }
    }

    /// Gives a message after which no other has begun.
    fn give(&mut self, messages: &mut Vec<Bytes>, message: Bytes) -> Result<(), CutFault>
        requires { self.old.rest ≡ [] }
        ensures { GivesMessage self.old message messages.old.items result self.new
            messages.new.items }
    {
        self.advance(message.as_slice().len());
        if messages.push(message).is_err() {
            return Err(CutFault::Memory);
        }
        Ok(())
    }

    /// Moves the start of the rest this many bytes further in the stream.
    fn advance(&mut self, len: usize)
        ensures { self.new ≡ advanced self.old len }
    {
        self.start = moved(self.start, len);
    }

    fn fail(&mut self, fault: CutFault)
        ensures { self.new ≡ with_fault self.old fault }
    {
        self.rest.clear();
        self.scan = None;
        self.fault = Some(fault);
    }
}

/// The offset this many bytes after another.
fn moved(offset: u64, len: usize) -> u64
    ensures { result ≡ capped_to_64_bits (offset + len) }
{
    offset.saturating_add(len as u64)
}
