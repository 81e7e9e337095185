ghost use Rattle.std.specs.Prelude.{◌≡◌, [], ◌∷◌};
ghost use Rattle.rtrb.specs.Ring.{sent, SameProducer};
ghost use Rattle.ov_order.specs.declared.items.Brought.TheVariants.{Message, End};

use crate::told::{begin, next, note, noted, tells};
use ov_base::Bytes;
use ov_order::{Brought, Noter, Order, OrderBook, Sent, Taken, inbound_ring, outbound_ring};
use rtrb::{PopError, Producer};
use std::alloc::{AllocError, Global};
use std::marker::Brand;
use std::rt::Clock;
use std::sync::Wait;
use std::sync::ledger::{Blank, Ledger, Share};
use std::test::Fail;
use std::thread;
use std::thread::Threads;

/// What a book answered: whether the workers may begin, whether each note was made, the notes that were taken, and how many
/// were made.
fn answers_of(
    alloc: Global,
    begun: [Option<bool>; 2],
    notes: [bool; 3],
    taken: [Option<u64>; 4],
    noted: u64,
) -> Result<String, AllocError> {
    format!(in alloc; "{begun:?} {notes:?} {taken:?} {noted}")
}

/// Whether the workers may begin, before that was said and after it.
fn begun_in<L: Ledger>(book: &mut OrderBook<L>) -> [Option<bool>; 2] {
    let unsaid = book.begun();
    book.begin(true);
    [unsaid, book.begun()]
}

/// Two workers note, one of them again.
fn noted_in<L: Ledger>(
    book: &mut OrderBook<L>,
    first: &mut Noter<L>,
    second: &mut Noter<L>,
) -> [bool; 3]
    ensures first { first.new.share.parts ≡ first.old.share.parts }
    ensures second { second.new.share.parts ≡ second.old.share.parts }
{
    [book.note(first), book.note(second), book.note(first)]
}

/// Takes two notes.
fn two_taken_in<L: Ledger>(book: &mut OrderBook<L>) -> (Option<u64>, Option<u64>) {
    let mut serials = Taken::new();
    (book.next(&mut serials), book.next(&mut serials))
}

/// What a book answers: two workers note, the desk takes, and the shares are merged again.
fn book_answers<L: Ledger>(alloc: Global, blank: Blank) -> Result<String, AllocError>
    requires name { blank.name ≡ L.name }
    requires parts { (blank.parts ≡ L.parts) × (blank.parts ≡ 2) }
{
    let (ledger, mut share) = blank.open::<L>();
    let mut book = OrderBook::new(alloc, ledger)?;
    let begun = begun_in(&mut book);
    let mut second = Noter::new(9, share.split_off(1, 0));
    let mut first = Noter::new(7, share);
    let notes = noted_in(&mut book, &mut first, &mut second);
    let (third, fourth) = two_taken_in(&mut book);
    let mut all = first.into_share();
    all.merge(second.into_share());
    let noted = book.noted(&mut all);
    let (fifth, sixth) = two_taken_in(&mut book);
    answers_of(alloc, begun, notes, [third, fourth, fifth, sixth], noted)
}

#[test]
fn notes_are_taken_in_order_and_counted(rt: HostRuntime) -> Result<(), Fail> {
    let answers = book_answers::<Brand>(rt.alloc(), Blank::new(2));
    let wanted = "[None, Some(true)] [true, true, true] [Some(7), Some(9), Some(7), None] 3";
    tells(rt.alloc(), answers, wanted)
}

/// What an order answered: whether the workers may begin, whether a note was made, the serials that were taken, and the number
/// of notes.
type Answered = (bool, bool, u64, Option<u64>, u64);

/// What an order answers when nobody has to wait: a worker brings a message and notes once more, and the desk takes both
/// notes.
fn answered_by<R: Wait, L: Ledger>(
    rt: &R,
    order: &Order<L>,
    reader: Producer<Brought<u64, u8>>,
    share: Share<L>,
) -> Answered
    requires { (share.parts ≡ L.parts) × (share.parts ≡ 1) }
{
    begin(rt, order, false);
    let go = order.wait_begin(rt).may_begin();
    let (mut reader, mut fifth) = (reader, Noter::new(5, share));
    order.bring(rt, &mut reader, &mut fifth, Brought::Message(1));
    let mut sixth = Noter::new(6, fifth.into_share());
    let is_noted = note(rt, order, &mut sixth);
    let serial = order.wait_next(rt, &mut Taken::new());
    let second = next(rt, order);
    (
        go,
        is_noted,
        serial,
        second,
        noted(rt, order, sixth.into_share()),
    )
}

/// The same as a text.
fn answered_text(alloc: Global, answered: Answered) -> Result<String, AllocError> {
    let (go, is_noted, serial, next, noted) = answered;
    format!(in alloc; "{go} {is_noted} {serial} {next:?} {noted}")
}

/// The same for a new order.
fn order_answers<R: Wait, L: Ledger>(
    rt: &R,
    alloc: Global,
    blank: Blank,
) -> Result<String, AllocError>
    requires name { blank.name ≡ L.name }
    requires parts { (blank.parts ≡ L.parts) × (blank.parts ≡ 1) }
{
    let (ledger, share) = blank.open::<L>();
    let order = Order::new(alloc, ledger)?;
    let (reader, _desk) = inbound_ring::<u64, u8>(alloc)?;
    answered_text(alloc, answered_by(rt, &order, reader, share))
}

#[test]
fn an_order_answers_where_nobody_has_to_wait(rt: HostRuntime) -> Result<(), Fail> {
    let answers = order_answers::<HostRuntime, Brand>(&rt, rt.alloc(), Blank::new(1));
    tells(rt.alloc(), answers, "false true 5 Some(6) 2")
}

/// Makes two notes, of different serials.
fn note_twice<R: Wait, L: Ledger>(rt: &R, order: &Order<L>, share: Share<L>)
    requires { share.parts ≡ 1 }
{
    let mut fifth = Noter::new(5, share);
    note(rt, order, &mut fifth);
    let mut sixth = Noter::new(6, fifth.into_share());
    note(rt, order, &mut sixth);
}

/// What a desk that waits briefly finds: nothing before a note is made, a note after looking for it, the next one without
/// looking, and then nothing.
fn found_in<R: Wait + Clock, L: Ledger>(
    rt: &R,
    order: &Order<L>,
    share: Share<L>,
) -> [Option<u64>; 4]
    requires { share.parts ≡ 1 }
{
    let mut taken = Taken::new();
    let none = order.wait_briefly(rt, &mut taken, true);
    note_twice(rt, order, share);
    let looked = order.wait_briefly(rt, &mut taken, true);
    let slept = order.wait_briefly(rt, &mut taken, false);
    [
        none,
        looked,
        slept,
        order.wait_briefly(rt, &mut taken, false),
    ]
}

/// The same as a text.
fn found_text(alloc: Global, found: [Option<u64>; 4]) -> Result<String, AllocError> {
    format!(in alloc; "{found:?}")
}

/// The same for a new order.
fn brief_waits<R: Wait + Clock, L: Ledger>(
    rt: &R,
    alloc: Global,
    blank: Blank,
) -> Result<String, AllocError>
    requires name { blank.name ≡ L.name }
    requires parts { (blank.parts ≡ L.parts) × (blank.parts ≡ 1) }
{
    let (ledger, share) = blank.open::<L>();
    let order = Order::new(alloc, ledger)?;
    found_text(alloc, found_in(rt, &order, share))
}

#[test]
fn a_brief_wait_ends_without_a_note(rt: HostRuntime) -> Result<(), Fail> {
    let found = brief_waits::<HostRuntime, Brand>(&rt, rt.alloc(), Blank::new(1));
    tells(rt.alloc(), found, "[None, Some(5), Some(6), None]")
}

/// What an item is: a message or the end, and its number.
fn brought_word(item: Result<Brought<u64, u8>, PopError>) -> (&'static str, u64) {
    match item {
        Ok(Brought::Message(number)) => ("message", number),
        Ok(Brought::End(number)) => ("end", u64::from(number)),
        Err(_) => ("nothing", 0),
    }
}

/// The number of slots that a ring has left, and its items.
fn ring_text(
    alloc: Global,
    slots: usize,
    first: (&str, u64),
    second: (&str, u64),
) -> Result<String, AllocError> {
    format!(in alloc; "{slots} {first:?} {second:?}")
}

/// The same for a ring to the desk, to which a message and the end are brought.
fn brought_items(alloc: Global) -> Result<String, AllocError> {
    let (mut reader, mut desk) = inbound_ring::<u64, u8>(alloc)?;
    reader.push_reserved(Brought::Message(3));
    reader.push_reserved(Brought::End(1));
    let slots = reader.slots_beside(&mut desk);
    let first = brought_word(desk.pop());
    let second = brought_word(desk.pop());
    ring_text(alloc, slots, first, second)
}

#[test]
fn a_message_and_the_end_are_brought(rt: HostRuntime) -> Result<(), Fail> {
    let wanted = "62 (\"message\", 3) (\"end\", 1)";
    tells(rt.alloc(), brought_items(rt.alloc()), wanted)
}

/// Whether an item is this frame.
fn is_frame(item: Result<Sent, PopError>, wanted: &[u8]) -> bool {
    match item {
        Ok(Sent::Frame(frame)) => frame.as_slice() == wanted,
        _ => false,
    }
}

/// Whether an item is the end.
fn is_end(item: Result<Sent, PopError>) -> bool {
    matches!(item, Ok(Sent::End))
}

/// The number of slots that a ring has left, and whether its items are the frame and the end that were sent.
fn sent_text(
    alloc: Global,
    slots: usize,
    is_frame: bool,
    is_end: bool,
) -> Result<String, AllocError> {
    format!(in alloc; "{slots} {is_frame} {is_end}")
}

/// The same for a ring to a writer, to which a frame and the end are sent.
fn sent_items(alloc: Global) -> Result<String, AllocError> {
    let frame = Bytes::from_slice(alloc, b"{}")?;
    let (mut desk, mut writer) = outbound_ring(alloc)?;
    desk.push_reserved(Sent::Frame(frame));
    desk.push_reserved(Sent::End);
    let slots = desk.slots_beside(&mut writer);
    let is_sent = is_frame(writer.pop(), b"{}");
    let is_ended = is_end(writer.pop());
    sent_text(alloc, slots, is_sent, is_ended)
}

#[test]
fn a_frame_and_the_end_are_sent(rt: HostRuntime) -> Result<(), Fail> {
    tells(rt.alloc(), sent_items(rt.alloc()), "1023 true true")
}

/// What a worker returns: its end of the ring, and who notes its items.
#[derive(Drop)]
struct Worked<L: Ledger> {
    ring: Producer<Brought<u64, u8>>,
    noter: Noter<L>,
}

/// A worker that brings two messages and the end, once it may begin.
fn work<R: Wait, L: Ledger>(
    rt: &R,
    order: &Order<L>,
    ring: Producer<Brought<u64, u8>>,
    noter: Noter<L>,
) -> Worked<L>
    requires { (noter.share.parts ≡ 1) × (noter.share.amount ≡ 0) × (sent ring ≡ []) }
    ensures share { (result.noter.share.parts ≡ 1) × (result.noter.share.amount ≡ 3) }
    ensures sent { sent result.ring ≡ Message 1 ∷ Message 2 ∷ End 0 ∷ [] }
    ensures ring { SameProducer ring result.ring }
{
    let mut ring = ring;
    let mut noter = noter;
    let _may_begin = order.wait_begin(rt);
    order.bring(rt, &mut ring, &mut noter, Brought::Message(1));
    order.bring(rt, &mut ring, &mut noter, Brought::Message(2));
    order.bring(rt, &mut ring, &mut noter, Brought::End(0));
    Worked { ring, noter }
}

/// Lets the worker begin, and returns the serials that the desk takes.
fn take<R: Wait, L: Ledger>(rt: &R, order: &Order<L>) -> (u64, u64, u64) {
    begin(rt, order, true);
    let mut taken = Taken::new();
    (
        order.wait_next(rt, &mut taken),
        order.wait_next(rt, &mut taken),
        order.wait_next(rt, &mut taken),
    )
}

/// What the desk took, and the number of notes.
fn taken_beside<R: Threads + Wait + Sync, L: Ledger + Send + Sync>(
    rt: &R,
    order: &Order<L>,
    ring: Producer<Brought<u64, u8>>,
    share: Share<L>,
) -> ((u64, u64, u64), u64)
    requires parts { (share.parts ≡ L.parts) × (share.parts ≡ 1) × (share.amount ≡ 0) }
    requires ring { sent ring ≡ [] }
    ensures { result.1 ≡ 3 }
{
    let noter = Noter::new(7, share);
    let worker = move || -> Worked<L>
        requires { (noter.share.parts ≡ 1) × (noter.share.amount ≡ 0) × (sent ring ≡ []) }
        ensures { (result.noter.share.parts ≡ 1) × (result.noter.share.amount ≡ 3) }
    { work(rt, order, ring, noter) };
    let (worked, taken) = thread::join(rt, worker, move || take(rt, order));
    let Worked { ring: _, noter } = worked;
    (taken, noted(rt, order, noter.into_share()))
}

/// The same over a new order, as a text.
fn across_threads<R: Threads + Wait + Sync, L: Ledger + Send + Sync>(
    rt: &R,
    alloc: Global,
    blank: Blank,
) -> Result<String, AllocError>
    requires name { blank.name ≡ L.name }
    requires parts { (blank.parts ≡ L.parts) × (blank.parts ≡ 1) }
{
    let (ledger, share) = blank.open::<L>();
    let order = Order::new(alloc, ledger)?;
    let (ring, _desk) = inbound_ring::<u64, u8>(alloc)?;
    taken_text(alloc, taken_beside(rt, &order, ring, share))
}

/// What the desk took and the number of notes, as a text.
fn taken_text(alloc: Global, found: ((u64, u64, u64), u64)) -> Result<String, AllocError> {
    format!(in alloc; "{found:?}")
}

#[test]
fn a_worker_brings_while_the_desk_takes(rt: HostRuntime) -> Result<(), Fail> {
    let told = across_threads::<HostRuntime, Brand>(&rt, rt.alloc(), Blank::new(1));
    tells(rt.alloc(), told, "((7, 7, 7), 3)")
}
