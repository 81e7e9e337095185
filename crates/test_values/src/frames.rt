use ov_base::{Bytes, Tree, has_real};
use ov_results::{ArrayText, OpResult};
use ov_rpc::{append_item, failure, notification, reply, reply_with};
use serde_json::Value;
use std::alloc::Global;
use std::test::Fail;
use test_basics::{Scripted, agrees, array_text, is_text, tree, trees};
use uuid::Uuid;

/// Each frame is these bytes.
const FRAMES: &str =
    r#"reply [7,{"z":-1,"a":true}] ["OVN_Northbound"] -> {"error":null,"id":[7,{"a":true,"z":-1}],"result":["OVN_Northbound"]}
failure "x" unknown method -> {"error":"unknown method","id":"x","result":null}
notification echo [] -> {"id":null,"method":"echo","params":[]}
notification locked ["L"] -> {"id":null,"method":"locked","params":["L"]}
results 1 [] -> {"error":null,"id":1,"result":[]}
results "x" [{"uuid":["uuid","u"]}] -> {"error":null,"id":"x","result":[{"uuid":["uuid","u"]}]}
results [null] [{},null,"]}"] -> {"error":null,"id":[null],"result":[{},null,"]}"]}
rows 1 [] -> {"error":null,"id":1,"result":[{"rows":[]}]}
rows 1 [{"name":"\"s\""},{}] -> {"error":null,"id":1,"result":[{"rows":[{"name":"\"s\""},{}]}]}
append [] {"error":"e"} -> {"error":null,"id":"]}","result":[{"error":"e"}]}
append [[]] {} -> {"error":null,"id":"]}","result":[[],{}]}
append [1,"]}"] null -> {"error":null,"id":"]}","result":[1,"]}",null]}"#;

fn text_of(frame: Bytes) -> Result<String, Fail> {
    Ok(String::from_utf8(frame.into_vec())?)
}

fn reply_of(alloc: Global, id: &str, outcome: &str) -> Result<String, Fail> {
    let outcome = tree(alloc, outcome)?;
    text_of(reply(alloc, tree(alloc, id)?, outcome)?)
}

fn failure_of(alloc: Global, id: &str, error: &str) -> Result<String, Fail> {
    text_of(failure(alloc, tree(alloc, id)?, error)?)
}

fn notification_of(alloc: Global, method: &str, params: &str) -> Result<String, Fail> {
    text_of(notification(alloc, method, trees(alloc, params)?)?)
}

/// A reply with one more item after its results.
fn appended_to(alloc: Global, reply: &Bytes, is_first: bool, item: &str) -> Result<String, Fail> {
    let item = tree(alloc, item)?;
    text_of(append_item(alloc, reply, is_first, &item)?)
}

/// A reply with these results and one more item after them.
fn appended(alloc: Global, results: &str, item: &str) -> Result<String, Fail> {
    let results = trees(alloc, results)?;
    let is_first = results.as_slice().is_empty();
    let reply = reply(alloc, tree(alloc, "\"]}\"")?, results.into_tree())?;
    appended_to(alloc, &reply, is_first, item)
}

/// Appends a tree to an array.
fn put(alloc: Global, array: &mut ArrayText, item: Value) -> Result<(), Fail> {
    if has_real(&item) {
        return Err(Fail::new("a real"));
    }
    Ok(array.push(alloc, Tree::new(item).into())?)
}

/// Appends trees to an array.
fn put_all(alloc: Global, array: &mut ArrayText, items: Vec<Value>) -> Result<(), Fail> {
    for item in items {
        put(alloc, array, item)?;
    }
    Ok(())
}

/// The items of a text that is an array.
fn items_of(alloc: Global, text: &str) -> Result<Vec<Value>, Fail> {
    match Value::from_str(alloc, text)? {
        Value::Array(items) => Ok(items),
        _ => Err(Fail::new("no array")),
    }
}

/// The array of a text, built by appending its trees one by one.
fn array_of(alloc: Global, text: &str) -> Result<ArrayText, Fail> {
    let mut array = ArrayText::new(alloc);
    put_all(alloc, &mut array, items_of(alloc, text)?)?;
    Ok(array)
}

/// The one result of a select of these rows.
fn result_of_rows(alloc: Global, rows: &str) -> Result<ArrayText, Fail> {
    let rows = array_of(alloc, rows)?;
    let mut results = ArrayText::new(alloc);
    results.push(alloc, OpResult::of_rows(rows))?;
    Ok(results)
}

/// A reply with the results of an array.
fn reply_of_array(alloc: Global, id: &str, results: &ArrayText) -> Result<String, Fail> {
    let id = tree(alloc, id)?;
    text_of(reply_with(alloc, &id, results)?)
}

/// A reply with these results.
fn reply_of_results(alloc: Global, id: &str, results: &str) -> Result<String, Fail> {
    let results = array_of(alloc, results)?;
    reply_of_array(alloc, id, &results)
}

/// A reply with the one result of a select of these rows.
fn reply_of_rows(alloc: Global, id: &str, rows: &str) -> Result<String, Fail> {
    let results = result_of_rows(alloc, rows)?;
    reply_of_array(alloc, id, &results)
}

/// The commands are `reply ID RESULT`, `results ID RESULTS`, `rows ID ROWS`, `failure ID ERROR`, `notification METHOD PARAMS`
/// and `append RESULTS ITEM`.
#[derive(Drop)]
struct Frames;

/// The frame of a kind with these two parts.
fn frame_of(alloc: Global, kind: &str, first: &str, second: &str) -> Result<String, Fail> {
    match kind {
        "reply" => reply_of(alloc, first, second),
        "results" => reply_of_results(alloc, first, second),
        "rows" => reply_of_rows(alloc, first, second),
        "failure" => failure_of(alloc, first, second),
        "append" => appended(alloc, first, second),
        _ => notification_of(alloc, first, second),
    }
}

impl Scripted for Frames {
    fn answer(&mut self, alloc: Global, command: &str) -> Result<String, Fail> {
        let (kind, rest) = command.split_once(" ").ok_or("no kind")?;
        let (first, second) = rest.split_once(" ").ok_or("one part")?;
        frame_of(alloc, kind, first, second)
    }
}

#[test]
fn each_frame_is_these_bytes(rt: HostRuntime) -> Result<(), Fail> {
    agrees(rt.alloc(), Frames, FRAMES)
}

/// The result of an insert, alone and after another.
const INSERTED: &str = r#"insert -> {"uuid":["uuid","0a1b2c3d-4e5f-4aaa-bfff-0123456789ab"]}
push {}
put
text -> [{},{"uuid":["uuid","0a1b2c3d-4e5f-4aaa-bfff-0123456789ab"]}]"#;

/// An array is not empty once something is put.
const PUT: &str = "reserve
empty -> true
push {}
empty -> false
text -> [{}]";

/// An array of results, driven by a script.
///
/// The commands are `empty`, `reserve`, `push TREE`, `insert`, answered with the result of an insert, `put`, which appends
/// that result, and `text`.
#[derive(Drop)]
struct Results {
    array: ArrayText,
}

/// The result of an insert.
fn result_of_insert() -> OpResult {
    OpResult::of_new_row(Uuid::from_u128(0x0a1b_2c3d_4e5f_4aaa_bfff_0123_4567_89ab))
}

/// The text of the result of an insert.
fn text_of_insert(alloc: Global) -> Result<String, Fail> {
    let result = result_of_insert();
    text_of(result.to_bytes(alloc)?)
}

impl Results {
    fn is_empty(&self, alloc: Global) -> Result<String, Fail> {
        Ok(format!(in alloc; "{}", self.array.is_empty())?)
    }

    fn reserve(&mut self, alloc: Global) -> Result<String, Fail> {
        self.array.reserve(1_000)?;
        Ok(String::new(alloc))
    }

    fn push(&mut self, alloc: Global, text: &str) -> Result<String, Fail> {
        self.array.push(alloc, tree(alloc, text)?.into())?;
        Ok(String::new(alloc))
    }

    fn put(&mut self, alloc: Global) -> Result<String, Fail> {
        self.array.push(alloc, result_of_insert())?;
        Ok(String::new(alloc))
    }

    fn call(&mut self, alloc: Global, word: &str, text: &str) -> Result<String, Fail> {
        match word {
            "empty" => self.is_empty(alloc),
            "reserve" => self.reserve(alloc),
            "push" => self.push(alloc, text),
            "insert" => text_of_insert(alloc),
            "put" => self.put(alloc),
            _ => array_text(alloc, &self.array),
        }
    }
}

impl Scripted for Results {
    fn answer(&mut self, alloc: Global, command: &str) -> Result<String, Fail> {
        let (word, text) = command.split_once(" ").unwrap_or((command, ""));
        self.call(alloc, word, text)
    }
}

/// Runs a script over an empty array.
fn results_agree(alloc: Global, script: &str) -> Result<(), Fail> {
    let array = ArrayText::new(alloc);
    agrees(alloc, Results { array }, script)
}

#[test]
fn the_result_of_an_insert_is_its_identifier(rt: HostRuntime) -> Result<(), Fail> {
    results_agree(rt.alloc(), INSERTED)
}

#[test]
fn an_array_is_empty_until_something_is_put(rt: HostRuntime) -> Result<(), Fail> {
    results_agree(rt.alloc(), PUT)
}

/// Fails unless the error of a failure is printed with these escapes.
fn is_printed(alloc: Global, text: &str, want: &str) -> Result<(), Fail> {
    let frame = failure_of(alloc, "null", text)?;
    let want = format!(in alloc; "{{\"error\":\"{want}\",\"id\":null,\"result\":null}}")?;
    is_text(alloc, frame.as_str(), want.as_str())
}

#[test]
fn texts_are_printed_with_these_escapes(rt: HostRuntime) -> Result<(), Fail> {
    for (text, want) in [
        ("\u{8}\t\n\u{c}\r\"\\", "\\b\\t\\n\\f\\r\\\"\\\\"),
        (
            "\u{0}\u{1}\u{7}\u{b}\u{e}\u{f}",
            "\\u0000\\u0001\\u0007\\u000b\\u000e\\u000f",
        ),
        ("\u{10}\u{1a}\u{1b}\u{1f}", "\\u0010\\u001a\\u001b\\u001f"),
        (" /'<>&\u{7f}", " /'<>&\u{7f}"),
        (
            "\u{80}\u{e9}\u{20ac}\u{2028}\u{feff}\u{1f600}",
            "\u{80}\u{e9}\u{20ac}\u{2028}\u{feff}\u{1f600}",
        ),
    ] {
        is_printed(rt.alloc(), text, want)?;
    }
    Ok(())
}
