//! How much of a file stays in memory, and how long its log grows.

ghost use Rattle.std.specs.Prelude.{◌≡◌, ◌/◌, max, min, IfErr, IfOk};
ghost use Rattle.ov_files.specs.Causes.{IsDrawRefused};

use crate::copies::size_of;
use ov_keeper::KeepFault;
use sqlite::Options;
use std::hash::{BuildHasher, RandomState};

/// The bytes of a page of a new file.
const PAGE: u64 = 4_096;

/// The fewest pages that stay in memory: 2 MiB, since a small file may grow. With the kit's own number, 2,000, inserts take as
/// long, and a server with few rows takes 6 MB more.
const LEAST_PAGES: u64 = 500;

/// The most pages that stay in memory: 12 MiB. More would make a start over 400,000 rows a fifth faster, since the system has the
/// file in its own cache. An opening takes the memory for all pages at once, and keeps it.
const MOST_PAGES: u64 = 3_072;

/// How many pages a transaction writes before the first of them go to the log. It is the kit's own number.
const SPILL_PAGES: usize = 2_000;

/// How many pages the log has before they are copied into the file: 4 MiB. It is the kit's own number. A longer log has to be
/// read after a kill, and copying it is a longer pause for the client whose commit does it.
const CHECKPOINT_FRAMES: usize = 1_000;

/// The options to open the file at a path with. Returns `Device` if the system has no random number for the log.
pub(crate) fn options_for(rt: &HostRuntime, path: &str) -> Result<Options, KeepFault>
    ensures log { IfOk result (λ options. options.checkpoint_frames ≡ CHECKPOINT_FRAMES) }
    ensures refused { IfErr result IsDrawRefused }
{
    let size = match size_of(rt, path) {
        Ok(size) => size,
        Err(_) => 0,
    };
    match RandomState::new(rt) {
        Ok(keys) => Ok(Options {
            cache_pages: cache_pages(size),
            spill_pages: SPILL_PAGES,
            checkpoint_frames: CHECKPOINT_FRAMES,
            seed: keys.hash_one(&0u8),
        }),
        Err(_) => Err(KeepFault::Device),
    }
}

/// How many pages of a file of this size stay in memory: all of them, within these limits. An opening compares the rows with
/// the index, whose entries are in another order, so pages that do not stay are read again and again.
fn cache_pages(size: u64) -> usize
    ensures { result ≡ max LEAST_PAGES (min MOST_PAGES (size / PAGE)) }
{
    (size / PAGE).min(MOST_PAGES).max(LEAST_PAGES) as usize
}
