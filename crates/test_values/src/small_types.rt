use ov_base::{ByteTrace, Bytes, Text, Trees, has_real};
use serde_json::Value;
use std::alloc::Global;
use std::test::Fail;
use test_basics::{Scripted, agrees, compact, is_text, tree, trees};

/// A real is a number that is not a 64-bit integer.
const REALS: &str = r#"0 -> false
-1 -> false
9223372036854775807 -> false
-9223372036854775808 -> false
9223372036854775808 -> true
18446744073709551615 -> true
-9223372036854775809 -> true
1.5 -> true
1.0 -> true
1e3 -> true
-0 -> true
null -> false
true -> false
"1.5" -> false
[] -> false
[1, [2, 0.5], 3] -> true
{"a": 1, "b": {"c": 0.5}, "d": 2} -> true
{"1.5": [1, {"b": "0.5"}]} -> false"#;

/// Whether a text contains a real.
#[derive(Drop)]
struct Reals;

impl Scripted for Reals {
    fn answer(&mut self, alloc: Global, command: &str) -> Result<String, Fail> {
        let value = Value::from_str(alloc, command)?;
        Ok(format!(in alloc; "{}", has_real(&value))?)
    }
}

#[test]
fn a_real_is_a_number_that_no_64_bit_integer_is(rt: HostRuntime) -> Result<(), Fail> {
    agrees(rt.alloc(), Reals, REALS)
}

const BYTES: &[u8] = b"\x00ab\xff";

/// Fails unless bytes are the four of `BYTES`.
fn are_bytes(alloc: Global, bytes: &[u8]) -> Result<(), Fail> {
    let found = format!(in alloc; "{bytes:?}")?;
    is_text(alloc, found.as_str(), "[0, 97, 98, 255]")
}

/// The bytes of a vector moved in and out again.
fn moved(bytes: Bytes) -> Vec<u8> {
    Bytes::from_vec(bytes.into_vec()).into_vec()
}

fn are_bytes_kept(alloc: Global) -> Result<(), Fail> {
    let bytes = Bytes::from_slice(alloc, BYTES)?;
    are_bytes(alloc, bytes.as_slice())
}

fn are_bytes_moved(alloc: Global) -> Result<(), Fail> {
    let bytes = moved(Bytes::from_slice(alloc, BYTES)?);
    are_bytes(alloc, &bytes)
}

#[test]
fn bytes_give_back_what_they_were_made_of(rt: HostRuntime) -> Result<(), Fail> {
    are_bytes_kept(rt.alloc())?;
    are_bytes_moved(rt.alloc())
}

/// Sixteen bytes are stored in the text itself; seventeen are not.
const TEXTS: &str = "kept -> true
kept éa -> true
kept sixteen letters. -> true
kept seventeen letters -> true
kept seventeen letters, and then some that are more -> true";

/// A tree is printed and copied with its members in order.
const TREE: &str = r#"printed {"b": [1, "x"], "a": null} -> {"a":null,"b":[1,"x"]}
object {"b": [1, "x"], "a": null} -> true"#;

const TREE_COPY: &str = r#"copied {"b": [1, "x"], "a": null} -> {"a":null,"b":[1,"x"]}"#;

const TREES: &str = r#"count [true,{"c":-5}] -> 2
joined [true,{"c":-5}] -> [true,{"c":-5}]
copied_as_tree [true,{"c":-5}] -> [true,{"c":-5}]"#;

const SLICE_COPY: &str = r#"copied_from_slice [true,{"c":-5}] -> [true,{"c":-5}]"#;

/// Whether a text is unchanged, both copied and moved.
fn is_kept(alloc: Global, text: &str) -> Result<bool, Fail> {
    let copied = Text::from_str(alloc, text)?;
    let moved = Text::from_string(String::from_str(alloc, text)?);
    Ok(copied.as_str() == text && moved.as_str() == text)
}

/// The same, as a text.
fn kept(alloc: Global, text: &str) -> Result<String, Fail> {
    let is_kept = is_kept(alloc, text)?;
    Ok(format!(in alloc; "{is_kept}")?)
}

/// The printed text of a tree.
fn printed(alloc: Global, text: &str) -> Result<String, Fail> {
    let tree = tree(alloc, text)?;
    compact(alloc, &tree)
}

/// Whether a tree is an object.
fn object(alloc: Global, text: &str) -> Result<String, Fail> {
    let is_object = tree(alloc, text)?.into_value().is_object();
    Ok(format!(in alloc; "{is_object}")?)
}

/// The printed text of a copy of a tree.
fn copied(alloc: Global, text: &str) -> Result<String, Fail> {
    let copy = tree(alloc, text)?.copy()?;
    compact(alloc, &copy)
}

/// The number of trees.
fn count(alloc: Global, text: &str) -> Result<String, Fail> {
    let count = trees(alloc, text)?.as_slice().len();
    Ok(format!(in alloc; "{count}")?)
}

/// The printed text of trees joined in one tree.
fn joined(alloc: Global, text: &str) -> Result<String, Fail> {
    let tree = trees(alloc, text)?.into_tree();
    compact(alloc, &tree)
}

/// A copy of trees as one tree.
fn copied_as_tree(alloc: Global, text: &str) -> Result<String, Fail> {
    let copy = trees(alloc, text)?.copy_as_tree(alloc)?;
    compact(alloc, &copy)
}

/// A copy of the slice of trees.
fn copied_from_slice(alloc: Global, text: &str) -> Result<String, Fail> {
    let copy = Trees::from_slice(alloc, trees(alloc, text)?.as_slice())?;
    compact(alloc, &copy.into_tree())
}

/// The commands are a word for what to make of a text, and the text.
#[derive(Drop)]
struct Made;

/// What is made of a text.
fn made_of(alloc: Global, word: &str, text: &str) -> Result<String, Fail> {
    match word {
        "kept" => kept(alloc, text),
        "printed" => printed(alloc, text),
        "object" => object(alloc, text),
        "copied" => copied(alloc, text),
        "count" => count(alloc, text),
        "joined" => joined(alloc, text),
        "copied_as_tree" => copied_as_tree(alloc, text),
        _ => copied_from_slice(alloc, text),
    }
}

impl Scripted for Made {
    fn answer(&mut self, alloc: Global, command: &str) -> Result<String, Fail> {
        let (word, text) = command.split_once(" ").unwrap_or((command, ""));
        made_of(alloc, word, text)
    }
}

#[test]
fn texts_give_back_what_they_were_made_of(rt: HostRuntime) -> Result<(), Fail> {
    agrees(rt.alloc(), Made, TEXTS)
}

#[test]
fn a_tree_is_printed_whole(rt: HostRuntime) -> Result<(), Fail> {
    agrees(rt.alloc(), Made, TREE)
}

#[test]
fn a_tree_is_copied_whole(rt: HostRuntime) -> Result<(), Fail> {
    agrees(rt.alloc(), Made, TREE_COPY)
}

#[test]
fn trees_are_copied_and_printed_whole(rt: HostRuntime) -> Result<(), Fail> {
    agrees(rt.alloc(), Made, TREES)
}

#[test]
fn trees_are_copied_from_a_slice(rt: HostRuntime) -> Result<(), Fail> {
    agrees(rt.alloc(), Made, SLICE_COPY)
}

/// The size in bytes of a trace to which bytes were added.
fn size_of_trace() -> usize {
    let mut trace = ByteTrace::new();
    trace.add(b"ab");
    trace.add(b"");
    size_of::<ByteTrace>()
}

#[test]
fn a_tape_takes_no_room(rt: HostRuntime) -> Result<(), Fail> {
    let size = format!(in rt.alloc(); "{}", size_of_trace())?;
    is_text(rt.alloc(), size.as_str(), "0")
}
