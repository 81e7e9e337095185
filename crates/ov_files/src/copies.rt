//! Reads a file and its log to test them.

ghost use Rattle.std.specs.Prelude.{◌≡◌, ◌≢◌, ◌↔◌, IfErr, IfNone, IfOk, IfSome, IsTrue};
ghost use Rattle.std.specs.Prelude.{string_bytes};
ghost use Rattle.std.specs.IoError.{error_kind};
ghost use Rattle.ov_files.specs.Calls.{Page};
ghost use Rattle.ov_store.specs.Answers.{WasAnswered};
ghost use Rattle.ov_files.specs.Looking.{log_of, HasBytes, FailsToLook, HasLogSize, HasNoPage};
ghost use Rattle.ov_files.specs.Looking.{HasNoRoom, HasNoSize, HasSize, IsPlain, IsUnread};
ghost use Rattle.ov_files.specs.Looking.{ListsTables, WasRead};

use ov_tables::lists_tables;
use std::alloc::Global;
use std::fs;
use std::io::{self, ErrorKind, Read};

/// A log with fewer bytes holds no commit.
const LOG_HEADER: u64 = 56;

/// The bytes of a file and of its log.
#[derive(Drop)]
pub(crate) struct Copies {
    pub(crate) log: Vec<u8>,
    pub(crate) db: Vec<u8>,
}

/// The bytes of the file at a path, in which there is no link, and of the log beside it. `None` if the file may be opened at
/// once: if no log holds a commit, and the file is empty or lists the tables of a stored format.
pub(crate) fn read_to_test(rt: &HostRuntime, db: &str) -> io::Result<Option<Copies>>
    ensures none { IfOk result (λ copies. IfNone copies (IsPlain db.now)) }
    ensures some { IfOk result
        (λ copies. IfSome copies
        (λ it. WasRead db.now (record { log = it.log.items; db = it.db.items }))) }
    ensures failed { IfErr result (FailsToLook db.now) }
{
    match log_name(rt.alloc(), db) {
        Ok(log) => read_both(rt, db, log.as_str()),
        Err(error) => Err(error),
    }
}

/// The name of the log beside a file.
fn log_name(alloc: Global, db: &str) -> io::Result<String>
    ensures name { IfOk result (λ name. string_bytes name ≡ log_of db.now) }
    ensures failed { IfErr result HasNoRoom }
{
    let mut name = String::from_str(alloc, db)?;
    name.push_str("-wal")?;
    Ok(name)
}

/// The same as `read_to_test`, by the name of the log.
fn read_both(rt: &HostRuntime, db: &str, log: &str) -> io::Result<Option<Copies>>
    requires { log.now ≡ log_of db.now }
    ensures none { IfOk result (λ copies. IfNone copies (IsPlain db.now)) }
    ensures some { IfOk result
        (λ copies. IfSome copies
        (λ it. WasRead db.now (record { log = it.log.items; db = it.db.items }))) }
    ensures failed { IfErr result (FailsToLook db.now) }
{
    let db_size = size_of(rt, db)?;
    let log_size = log_size_of(rt, log)?;
    if log_size < LOG_HEADER && (db_size == 0 || lists_ours(rt, db)?) {
        return Ok(None);
    }
    read_copies(rt, db, log, log_size)
}

/// The bytes of a file and of its log, which has this size.
fn read_copies(rt: &HostRuntime, db: &str, log: &str, log_size: u64) -> io::Result<Option<Copies>>
    requires name { log.now ≡ log_of db.now }
    requires size { HasLogSize log.now log_size }
    ensures some { IfOk result (λ copies. (it : _) × (copies ≡ Some it)
        × WasRead db.now (record { log = it.log.items; db = it.db.items })) }
    ensures failed { IfErr result (FailsToLook db.now) }
{
    let log = if log_size == 0 {
        Vec::new(rt.alloc())
    } else {
        bytes_of(rt, log)?
    };
    let db = bytes_of(rt, db)?;
    Ok(Some(Copies { log, db }))
}

/// The size of a regular file. Anything else is refused, since it may have no end.
pub(crate) fn size_of(rt: &HostRuntime, path: &str) -> io::Result<u64>
    ensures size { IfOk result (HasSize path.now) }
    ensures failed { IfErr result (HasNoSize path.now) }
{
    match fs::metadata(rt, path) {
        Ok(found) => {
            if found.is_file() {
                Ok(found.len())
            } else {
                Err(io::Error::from(ErrorKind::Unsupported))
            }
        }
        Err(error) => Err(error),
    }
}

/// Whether the error says that there is no such file.
pub(crate) fn is_absent(error: &io::Error) -> bool
    ensures { IsTrue result ↔ (error_kind error.now ≡ ErrorKind.NotFound) }
{
    error.kind() == ErrorKind::NotFound
}

/// The size of a log, or 0 if there is none.
fn log_size_of(rt: &HostRuntime, log: &str) -> io::Result<u64>
    ensures size { IfOk result (HasLogSize log.now) }
    ensures failed { IfErr result (λ e. HasNoSize log.now e × (error_kind e ≢ ErrorKind.NotFound)) }
{
    match size_of(rt, log) {
        Ok(size) => Ok(size),
        Err(error) => { if is_absent(&error) { Ok(0) } else { Err(error) } }
    }
}

/// Whether a file has a whole first page that lists the tables of a stored format.
fn lists_ours(rt: &HostRuntime, path: &str) -> io::Result<bool>
    ensures lists { IfOk result (λ lists. IsTrue lists → ListsTables path.now) }
    ensures failed { IfErr result (HasNoPage path.now) }
{
    match first_page(rt, path) {
        Ok(page) => Ok(lists_tables(&page)),
        Err(error) => {
            if error.kind() == ErrorKind::UnexpectedEof {
                Ok(false)
            } else {
                Err(error)
            }
        }
    }
}

/// The first page of a file.
fn first_page(rt: &HostRuntime, path: &str) -> io::Result<[u8; 4096]>
    ensures { WasAnswered (Page path.now) result }
{
    let mut page = [0; 4096];
    match fs::open(rt, path) {
        Ok(mut file) => match file.read_exact(&mut page) {
            Ok(()) => Ok(page),
            Err(error) => Err(error),
        },
        Err(error) => Err(error),
    }
}

/// All bytes of a file.
fn bytes_of(rt: &HostRuntime, path: &str) -> io::Result<Vec<u8>>
    ensures bytes { IfOk result (λ bytes. HasBytes path.now bytes.items) }
    ensures failed { IfErr result (IsUnread path.now) }
{
    match fs::read(rt, path) {
        Ok(bytes) => Ok(bytes),
        Err(error) => Err(error),
    }
}
