ghost use Rattle.std.specs.Prelude.{◌≡◌, option_map};
ghost use Rattle.ov_specs.specs.operations.Mutators.{mutator_of, allows_mutator, mutator_on};
ghost use Rattle.ov_mutate.specs.Views.{mutator_view};

use ov_conds::holds_integers;
use ov_schema::Column;

/// How a number is computed from another (RFC 7047, 5.1, `<mutator>`).
#[derive(Clone, Copy, PartialEq, Eq)]
pub(crate) enum Operator {
    Plus,
    Minus,
    Times,
    Over,
    Modulo,
}

/// What a mutation does (RFC 7047, 5.1, `<mutator>`).
#[derive(Clone, Copy, PartialEq, Eq)]
pub(crate) enum Mutator {
    Computes(Operator),
    Inserts,
    Deletes,
}

impl Mutator {
    fn of_word(word: &str) -> Option<Mutator>
        ensures { option_map mutator_view result ≡ mutator_of word.now }
    {
        match word {
            "+=" => Some(Mutator::Computes(Operator::Plus)),
            "-=" => Some(Mutator::Computes(Operator::Minus)),
            "*=" => Some(Mutator::Computes(Operator::Times)),
            "/=" => Some(Mutator::Computes(Operator::Over)),
            "%=" => Some(Mutator::Computes(Operator::Modulo)),
            "insert" => Some(Mutator::Inserts),
            "delete" => Some(Mutator::Deletes),
            _ => None,
        }
    }

    /// Whether it can be applied to the column: computing if it holds integers, the others if it is not a scalar.
    fn is_allowed_on(self, column: &Column) -> bool
        ensures { result ≡ allows_mutator column.now.type_of (mutator_view self) }
    {
        match self {
            Mutator::Computes(_) => holds_integers(column),
            Mutator::Inserts | Mutator::Deletes => !column.is_scalar(),
        }
    }

    /// The mutator of a word, if it can be applied to the column.
    pub(crate) fn on(column: &Column, word: &str) -> Option<Mutator>
        ensures { option_map mutator_view result ≡ mutator_on column.now.type_of word.now }
    {
        let mutator = Mutator::of_word(word)?;
        if mutator.is_allowed_on(column) {
            Some(mutator)
        } else {
            None
        }
    }
}
