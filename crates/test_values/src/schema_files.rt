use ov_schema::{Schema, text_of};
use ov_schema_text::{SchemaFileFault, read_schema, schema_from, schema_of};
use std::alloc::Global;
use std::fs;
use std::io::ErrorKind;
use std::test::Fail;
use test_basics::{Scripted, SlowReader, agrees, is_text};

/// Texts, each with its schema's own text, or why it is not a schema.
const TEXTS: &str = r#"{ "tables": {}, "name": "N" } -> {"name":"N","tables":{}}
{"name":"N","tables":{}}{} -> the schema is no JSON
{"name":"N","tables": -> the schema is no JSON
 -> the schema is no JSON
[] -> the schema is built wrong
{"name":"N","tables":{},"version":"1"} -> the version of the schema is not three numbers with dots between
{"name":"","tables":{},"more":1.0} -> the schema has reals, which are not supported
{"name":"N","tables":{},"version":"1.0","more":1.5} -> the schema has reals, which are not supported"#;

/// The text of a schema, in a string.
fn schema_text(alloc: Global, schema: &Schema) -> Result<String, Fail> {
    let text = text_of(alloc, schema)?;
    Ok(String::from_str(alloc, text.as_str())?)
}

/// The text of an answer.
fn answer_text(alloc: Global, answer: &Result<Schema, SchemaFileFault>) -> Result<String, Fail> {
    match answer {
        Ok(schema) => schema_text(alloc, schema),
        Err(fault) => Ok(format!(in alloc; "{fault}")?),
    }
}

/// The answer for a text.
fn answer_of(alloc: Global, text: &[u8]) -> Result<String, Fail> {
    let answer = schema_of(alloc, text);
    answer_text(alloc, &answer)
}

/// The answer for a reader of a text.
fn answer_from(alloc: Global, text: &[u8]) -> Result<String, Fail> {
    let answer = schema_from(alloc, text);
    answer_text(alloc, &answer)
}

/// The answer for a text, or for a reader of it.
#[derive(Drop)]
struct Texts {
    are_read: bool,
}

impl Scripted for Texts {
    fn answer(&mut self, alloc: Global, command: &str) -> Result<String, Fail> {
        if self.are_read {
            answer_from(alloc, command.as_bytes())
        } else {
            answer_of(alloc, command.as_bytes())
        }
    }
}

#[test]
fn a_text_is_a_schema_or_refused(rt: HostRuntime) -> Result<(), Fail> {
    agrees(rt.alloc(), Texts { are_read: false }, TEXTS)?;
    agrees(rt.alloc(), Texts { are_read: true }, TEXTS)
}

/// Fails unless a text is not JSON.
fn is_no_json(alloc: Global, text: &[u8]) -> Result<(), Fail> {
    let answer = answer_of(alloc, text)?;
    is_text(alloc, answer.as_str(), "the schema is no JSON")
}

#[test]
fn a_text_is_utf8_without_a_mark(rt: HostRuntime) -> Result<(), Fail> {
    is_no_json(rt.alloc(), b"{\"name\":\"\xff\",\"tables\":{}}")?;
    is_no_json(rt.alloc(), b"\xef\xbb\xbf{\"name\":\"N\",\"tables\":{}}")
}

/// The text of the answer if a reader fails after its first byte.
fn answer_of_failure(alloc: Global, error: ErrorKind) -> Result<String, Fail> {
    let reader = SlowReader {
        rest: b"{",
        most: 1,
        calls: 1,
        error,
    };
    let answer = schema_from(alloc, reader);
    answer_text(alloc, &answer)
}

/// Fails unless a read that fails with this error has this answer.
fn fails_by(alloc: Global, error: ErrorKind, want: &str) -> Result<(), Fail> {
    let answer = answer_of_failure(alloc, error)?;
    is_text(alloc, answer.as_str(), want)
}

#[test]
fn a_read_that_fails_gives_no_schema(rt: HostRuntime) -> Result<(), Fail> {
    let want = "the file of the schema can't be read";
    fails_by(rt.alloc(), ErrorKind::Other, want)?;
    fails_by(rt.alloc(), ErrorKind::OutOfMemory, "out of memory")
}

/// A folder of these tests, below the one that they run in.
const FOLDER: &str = "test_values_files";

/// Fails unless the file at a path has this answer.
fn is_answered(rt: &HostRuntime, path: &str, want: &str) -> Result<(), Fail> {
    let answer = read_schema(rt, rt.alloc(), path);
    let told = answer_text(rt.alloc(), &answer)?;
    is_text(rt.alloc(), told.as_str(), want)
}

#[test]
fn a_file_is_a_schema_or_refused(rt: HostRuntime) -> Result<(), Fail> {
    let _ = fs::remove_dir_all(&rt, FOLDER);
    fs::create_dir(&rt, FOLDER)?;
    let text = "{ \"tables\": {}, \"name\": \"N\" }\n";
    fs::write(&rt, "test_values_files/n.ovsschema", text.as_bytes())?;
    is_answered(
        &rt,
        "test_values_files/n.ovsschema",
        "{\"name\":\"N\",\"tables\":{}}",
    )?;
    let absent = "the file of the schema can't be read";
    is_answered(&rt, "test_values_files/none", absent)?;
    is_answered(&rt, FOLDER, absent)?;
    let _ = fs::remove_dir_all(&rt, FOLDER);
    Ok(())
}
