ghost use Rattle.std.specs.Prelude.{◌≡◌, ◌&&◌, is_none, option_map};
ghost use Rattle.ov_specs.specs.operations.Conditions.{function_of, is_integers, is_relation};
ghost use Rattle.ov_specs.specs.operations.Conditions.{allows_relations, allows_function};
ghost use Rattle.ov_specs.specs.operations.Conditions.{function_on};
ghost use Rattle.ov_conds.specs.Views.{function_view};

use ov_atoms::{AtomKind, Kinds};
use ov_schema::Column;

/// How a column is compared with a value (RFC 7047, 5.1, `<function>`).
#[derive(Clone, Copy, Debug, PartialEq, Eq)]
pub enum Function {
    /// `<`, of integers.
    Less,
    /// `<=`, of integers.
    LessOrEqual,
    /// `>`, of integers.
    Greater,
    /// `>=`, of integers.
    GreaterOrEqual,
    /// `==`: the same set or map.
    Equal,
    /// `!=`: another set or map.
    NotEqual,
    /// `includes`: every element of the value is in the column.
    Includes,
    /// `excludes`: no element of the value is in the column.
    Excludes,
}

impl Function {
    fn of_word(word: &str) -> Option<Function>
        ensures { option_map function_view result ≡ function_of word.now }
    {
        match word {
            "<" => Some(Function::Less),
            "<=" => Some(Function::LessOrEqual),
            ">" => Some(Function::Greater),
            ">=" => Some(Function::GreaterOrEqual),
            "==" => Some(Function::Equal),
            "!=" => Some(Function::NotEqual),
            "includes" => Some(Function::Includes),
            "excludes" => Some(Function::Excludes),
            _ => None,
        }
    }

    /// Whether it is a relation of two numbers: `<`, `<=`, `>` or `>=`.
    pub(crate) fn is_relation(self) -> bool
        ensures { result ≡ is_relation (function_view self) }
    {
        match self {
            Function::Less | Function::LessOrEqual | Function::Greater | Function::GreaterOrEqual =>
                true,
            Function::Equal | Function::NotEqual | Function::Includes | Function::Excludes => false,
        }
    }

    /// Whether the function applies to the column: a relation to at most one integer, the others to every type (RFC 7047, 5.1,
    /// `<function>`; ovsdb-server(7)).
    fn is_allowed_on(self, column: &Column) -> bool
        ensures { result ≡ allows_function column.now.type_of (function_view self) }
    {
        !self.is_relation() || allows_relations(column)
    }

    /// The function of a word, if the column can be compared this way.
    pub(crate) fn on(column: &Column, word: &str) -> Option<Function>
        ensures { option_map function_view result ≡ function_on column.now.type_of word.now }
    {
        let function = Function::of_word(word)?;
        if function.is_allowed_on(column) {
            Some(function)
        } else {
            None
        }
    }
}

/// Whether a column holds one integer, or at most one.
fn allows_relations(column: &Column) -> bool
    ensures { result ≡ allows_relations column.now.type_of }
{
    (column.is_scalar() || column.is_optional()) && holds_integers(column)
}

/// Whether a column holds integers, one or a set of them.
pub fn holds_integers(column: &Column) -> bool
    ensures { result
        ≡ (is_none column.now.type_of.value && is_integers column.now.type_of.key.kind) }
{
    matches!(column.kinds(), Kinds::Single(AtomKind::Integer))
}
