use crate::made::{made, tells_as};
use ov_base::Text;
use ov_words::{Ending, Settings, WordFault, error_line_of, read_words, status_of};
use std::alloc::{AllocError, Global};
use std::test::Fail;
use test_basics::{Scripted, agrees};

/// Arguments after the program's name, each followed by a comma, and the settings: the schema, the database, the address, the
/// number of sessions, and whether `--stdio` is given.
const TAKEN: &str = " -> none|none|none|none|false
--stdio, -> none|none|none|none|true
--schema,a.json, -> a.json|none|none|none|false
--schema=a.json,--stdio, -> a.json|none|none|none|true
--db,net.db,--schema,a b, -> a b|net.db|none|none|false
--db=net.db, -> none|net.db|none|none|false
--db=--stdio, -> none|--stdio|none|none|false
--schema=--db=x, -> --db=x|none|none|none|false
--db,-,--, -> none|-|none|none|false
--listen,127.0.0.1:0, -> none|none|127.0.0.1:0|none|false
--sessions=64,--listen,localhost:6640,--db,net.db, -> none|net.db|localhost:6640|64|false
--listen=[::1]:6640,--sessions,1, -> none|none|[::1]:6640|1|false
--listen=--stdio, -> none|none|--stdio|none|false
--listen,a,--sessions,008, -> none|none|a|8|false
--listen,a,--sessions,000000000000000000000000000010, -> none|none|a|10|false";

/// Arguments that are refused.
const REFUSED: &str = "--help, -> refused
-h, -> refused
--version, -> refused
help, -> refused
--,x, -> refused
-s, -> refused
--sch,a, -> refused
--stdio=yes, -> refused
--stdio,--stdio, -> refused
--schema, -> refused
--schema,--stdio, -> refused
--schema,a,--schema,b, -> refused
--db=a,--db=a, -> refused
--schema=, -> refused
--schema,, -> refused
--db,, -> refused
--db=,--stdio, -> refused
--listen, -> refused
--listen=, -> refused
--listen,,--sessions,1, -> refused
--listen,a,--listen,a, -> refused
--listen,--sessions,1, -> refused
--stdio,--listen,a, -> refused
--listen,a,--sessions,2,--stdio, -> refused
--sessions,1, -> refused
--stdio,--sessions=1, -> refused
--listen,a,--sessions, -> refused
--listen,a,--sessions=, -> refused
--listen,a,--sessions,1,--sessions,1, -> refused
--listen,a,--sessions,0, -> refused
--listen,a,--sessions,000, -> refused
--listen,a,--sessions,65, -> refused
--listen,a,--sessions,18446744073709551617, -> refused
--listen,a,--sessions=+1, -> refused
--listen,a,--sessions=-1, -> refused
--listen,a,--sessions,1 , -> refused
--listen,a,--sessions,0x1, -> refused
--listen,a,--sessions,two, -> refused";

/// The program's name, followed by the arguments of a case.
fn words_of<'a>(alloc: Global, case: &'a str) -> Result<Vec<&'a str>, AllocError> {
    let mut words = Vec::new(alloc);
    words.push("ov_server")?;
    for word in case.split_terminator(',') {
        words.push(word)?;
    }
    Ok(words)
}

/// The name of a file or an address, or `none`.
fn name_of(named: &Option<Text>) -> &str {
    match named {
        Some(name) => name.as_str(),
        None => "none",
    }
}

/// A number of sessions, or `none`.
fn number_of(alloc: Global, sessions: Option<u64>) -> Result<String, AllocError> {
    match sessions {
        Some(count) => format!(in alloc; "{count}"),
        None => String::from_str(alloc, "none"),
    }
}

fn text_of(alloc: Global, settings: &Settings) -> Result<String, AllocError> {
    let schema = name_of(&settings.schema);
    let db = name_of(&settings.db);
    let listen = name_of(&settings.listen);
    let sessions = number_of(alloc, settings.sessions)?;
    let is_on_streams = settings.is_on_streams;
    format!(in alloc; "{schema}|{db}|{listen}|{sessions}|{is_on_streams}")
}

/// The settings that arguments give, or `refused`.
fn told(alloc: Global, read: Result<Settings, WordFault>) -> Result<String, AllocError> {
    match read {
        Ok(settings) => text_of(alloc, &settings),
        Err(WordFault::Refused) => String::from_str(alloc, "refused"),
        Err(WordFault::Memory) => String::from_str(alloc, "out of memory"),
    }
}

/// The settings that the arguments of a case give.
fn told_of(alloc: Global, case: &str) -> Result<String, AllocError> {
    let words = words_of(alloc, case)?;
    told(alloc, read_words(alloc, words.as_slice()))
}

/// The settings that arguments give.
#[derive(Drop)]
struct Words;

impl Scripted for Words {
    fn answer(&mut self, alloc: Global, command: &str) -> Result<String, Fail> {
        made(told_of(alloc, command))
    }
}

#[test]
fn takes_words(rt: HostRuntime) -> Result<(), Fail> {
    agrees(rt.alloc(), Words, TAKEN)
}

#[test]
fn refuses_words(rt: HostRuntime) -> Result<(), Fail> {
    agrees(rt.alloc(), Words, REFUSED)
}

/// The status of an ending, and its line.
fn ended(alloc: Global, ending: Ending) -> Result<String, AllocError> {
    let status = status_of(ending);
    let line = error_line_of(ending).unwrap_or("no line");
    format!(in alloc; "{status} {line}")
}

/// Each ending has its status, and its line unless the status is 0.
#[test]
fn tells_each_ending(rt: HostRuntime) -> Result<(), Fail> {
    for (ending, wanted) in [
        (Ending::InputEnded, "0 no line"),
        (Ending::Arguments, "2 ov_server: arguments"),
        (Ending::Schema, "3 ov_server: schema"),
        (Ending::Database, "4 ov_server: database"),
        (Ending::Streams, "5 ov_server: input or output"),
        (Ending::Memory, "6 ov_server: memory"),
    ] {
        tells_as(rt.alloc(), ended(rt.alloc(), ending), wanted)?;
    }
    Ok(())
}
