use crate::line_texts::text_of_lines;
use crate::lines::change_of;
use crate::scripts::Scripted;
use ov_base::Text;
use ov_keeper::{Change, KeepFault, Keeper};
use std::alloc::Global;
use std::test::Fail;

/// A keeper driven by a script, and the changes of its next commit or rewrite.
///
/// The commands are a change, `commit`, `rewrite TEXT`, `lines`, `schema`, `format` and `failures`.
#[derive(Drop)]
pub struct Keeping<K: Keeper> {
    keeper: K,
    changes: Vec<Change>,
}

impl<K: Keeper + Drop> Keeping<K> {
    pub fn new(alloc: Global, keeper: K) -> Keeping<K> {
        Keeping {
            keeper,
            changes: Vec::new(alloc),
        }
    }

    /// Returns the keeper.
    pub fn into_keeper(self) -> K {
        let Keeping { keeper, changes: _ } = self;
        keeper
    }

    /// Commits the changes: `made`, or why not, in which case they wait for the next commit. Nothing is committed to format 1.
    fn commit(&mut self, alloc: Global) -> Result<String, Fail> {
        if self.keeper.format() != 2 {
            return Ok(String::from_str(alloc, "an older format")?);
        }
        let answer = self.keeper.commit(alloc, self.changes.as_slice());
        self.told(alloc, answer)
    }

    /// Replaces the schema's text and all rows by this text and what the changes put; answers as a commit does.
    fn rewrite(&mut self, alloc: Global, schema: &str) -> Result<String, Fail> {
        let schema = Text::from_str(alloc, schema)?;
        let answer = self.keeper.rewrite(alloc, &schema, self.changes.as_slice());
        self.told(alloc, answer)
    }

    /// The answer of the keeper. Changes that are made wait no longer.
    fn told(&mut self, alloc: Global, answer: Result<(), KeepFault>) -> Result<String, Fail> {
        match answer {
            Ok(()) => {
                self.changes.clear();
                Ok(String::from_str(alloc, "made")?)
            }
            Err(fault) => Ok(format!(in alloc; "{fault}")?),
        }
    }

    /// All rows, or why the load fails.
    fn lines(&mut self, alloc: Global) -> Result<String, Fail> {
        match self.keeper.load(alloc) {
            Ok(loaded) => text_of_lines(alloc, &loaded.lines),
            Err(fault) => Ok(format!(in alloc; "{fault}")?),
        }
    }

    /// The text of the schema, or why the load fails.
    fn schema(&mut self, alloc: Global) -> Result<String, Fail> {
        match self.keeper.load(alloc) {
            Ok(loaded) => Ok(String::from_str(alloc, loaded.schema.as_str())?),
            Err(fault) => Ok(format!(in alloc; "{fault}")?),
        }
    }
}

impl<K: Keeper + Drop> Scripted for Keeping<K> {
    fn answer(&mut self, alloc: Global, command: &str) -> Result<String, Fail> {
        if let Some(schema) = command.strip_prefix("rewrite ") {
            return self.rewrite(alloc, schema);
        }
        match command {
            "commit" => self.commit(alloc),
            "lines" => self.lines(alloc),
            "schema" => self.schema(alloc),
            "format" => Ok(format!(in alloc; "{}", self.keeper.format())?),
            "failures" => Ok(format!(in alloc; "{}", self.keeper.failures())?),
            change => {
                self.changes.push(change_of(alloc, change)?)?;
                Ok(String::new(alloc))
            }
        }
    }
}
