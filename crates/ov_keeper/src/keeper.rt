ghost use Rattle.std.specs.Prelude.{◌≡◌, ◌⊎◌, ◌<◌, ◌≤◌, ◌-◌, ◌^◌, ℕ, IfOk, IfErr, OnOk, OnErr};
ghost use Rattle.ov_specs.specs.rows.Cells.{Stored, format_of, rewritten};
ghost use Rattle.ov_keeper.specs.Views.{changes_view, lines_view};
ghost use Rattle.ov_keeper.specs.Keeping.{HasFailed, LeavesNoMore, LeavesMade, LeavesRefused};
ghost use Rattle.ov_keeper.specs.Keeping.{IsCommitFault, IsLoadFault};
ghost use Rattle.ov_keeper.specs.Keeping.{changed, loaded_contents};

use crate::cell_line::CellLine;
use crate::change::Change;
use crate::fault::KeepFault;
use crate::line::Line;
use ov_base::Text;
use std::alloc::Global;

/// The rows that a load found, in one of the two formats. If two of them have the same key, the first counts.
#[derive(Drop)]
pub enum Lines {
    /// Format 1: one line for each row.
    Whole(Vec<Line>),
    /// Format 2: a head, and a cell for each column of the row.
    InCells(Vec<CellLine>),
}

/// What a load found in a keeper.
#[derive(Drop)]
pub struct Loaded {
    /// The compact text of the schema.
    pub schema: Text,
    pub lines: Lines,
}

/// Stores the schema and the rows. Its contracts speak of what an open at this moment would find.
pub trait Keeper {
    /// No wrong answer of the device was taken as true.
    ghost is_honest: { Self → Type 0 };

    /// What an open at this moment may find, including one after a crash.
    ghost leaves: { Self → Stored → Type 0 };

    /// How often the device has failed.
    ghost failed: { Self → ℕ };

    /// The format of what is stored.
    ghost format: { Self → ℕ };

    /// How often the device has failed. The count stays at 2^64-1.
    fn failures(&self) -> u64
        ensures { result ≡ failed self.now };

    /// The format of what is stored: 1 or 2. Only a rewrite changes it. What an open finds is of this format, or of a later one
    /// where the device failed in a rewrite of format 1.
    fn format(&self) -> u8
        ensures same { result ≡ format self.now }
        ensures kinds { (result ≡ 1) ⊎ (result ≡ 2) }
        ensures found { is_honest self.now → (held : Stored) → leaves self.now held
            → result ≤ format_of held.lines };

    /// Returns the text of the schema and all rows.
    fn load(&mut self, alloc: Global) -> Result<Loaded, KeepFault>
        ensures ok { is_honest self.new → IfOk result (λ loaded. (held : Stored)
            → leaves self.old held → held ≡ loaded_contents loaded) }
        ensures same { is_honest self.new → LeavesNoMore (leaves self.old) (leaves self.new) }
        ensures same_format { format self.new ≡ format self.old }
        ensures of_format { is_honest self.new → IfOk result
            (λ loaded. format_of (lines_view loaded.lines) ≡ format self.new) }
        ensures kinds { IfErr result IsLoadFault }
        // A failure of the device has a cause: its count rises, unless it is at its maximum.
        ensures cause { result ≡ Err KeepFault.Device
            → HasFailed (failed self.old) (failed self.new) }
        ensures counts { failed self.old ≤ failed self.new }
        ensures honest { is_honest self.new → is_honest self.old };

    /// Makes all changes, in order, or none. The format must be 2.
    fn commit(&mut self, alloc: Global, changes: &[Change]) -> Result<(), KeepFault>
        requires { format self.old ≡ 2 }
        ensures ok { is_honest self.new
            → OnOk result
            (LeavesMade (changed (changes_view changes.now)) (leaves self.old)
            (leaves self.new)) }
        ensures err { is_honest self.new
            → IfErr result
            (LeavesRefused (changed (changes_view changes.now)) (leaves self.old)
            (leaves self.new)) }
        ensures same_format { format self.new ≡ format self.old }
        ensures kinds { IfErr result IsCommitFault }
        // A failure of the device has a cause: its count rises, unless it is at its maximum.
        ensures cause { result ≡ Err KeepFault.Device
            → HasFailed (failed self.old) (failed self.new) }
        ensures counts { failed self.old ≤ failed self.new }
        ensures honest { is_honest self.new → is_honest self.old };

    /// Replaces the schema's text and all rows by those that the changes put, starting from none, in format 2; or changes
    /// nothing. The format may be 1 before.
    fn rewrite(&mut self, alloc: Global, schema: &Text, changes: &[Change]) -> Result<(), KeepFault>
        ensures ok { is_honest self.new
            → OnOk result (LeavesMade (λ _. rewritten schema.now (changes_view changes.now))
            (leaves self.old) (leaves self.new)) }
        ensures err { is_honest self.new
            → IfErr result (LeavesRefused (λ _. rewritten schema.now (changes_view changes.now))
            (leaves self.old) (leaves self.new)) }
        ensures new_format { OnOk result (format self.new ≡ 2) }
        ensures same_format { OnErr result (format self.new ≡ format self.old) }
        ensures kinds { IfErr result IsCommitFault }
        // A failure of the device has a cause: its count rises, unless it is at its maximum.
        ensures cause { result ≡ Err KeepFault.Device
            → HasFailed (failed self.old) (failed self.new) }
        ensures counts { failed self.old ≤ failed self.new }
        ensures honest { is_honest self.new → is_honest self.old };

    // An open finds something.
    ghost leaves_some: { (k : Self) → is_honest k → ∥ ((held : Stored) × leaves k held) ∥₁ };
}
