ghost use Rattle.serde_json.specs.View.{view, items_view};
ghost use Rattle.ov_specs.specs.operations.Mutate as mutate;
ghost use Rattle.ov_specs.specs.operations.Mutators.{mutation_error, mutation_read};
ghost use Rattle.ov_specs.specs.values.Results.{result_map_err};
ghost use Rattle.ov_projection.specs.Errors.{IsOpResult};

use ov_atoms::{Datum, Names};
use ov_mutate::{MutateFault, Mutation, MutationFault};
use ov_projection::{OpError, OpFault};
use ov_rows::Columns;
use ov_schema::Table;
use serde_json::Value;
use std::alloc::{AllocError, Global};

/// Reads a mutation from a tree.
fn mutation_of<'a, N: Names>(
    alloc: Global,
    table: &'a Table,
    tree: &Value,
    names: &N,
) -> Result<Mutation<'a>, OpFault>
    ensures { IsOpResult (λ m. m)
        (result_map_err mutation_error
        (mutation_read (N.names names.now) table.now (view tree.now)))
        result }
{
    match Mutation::read(alloc, table, tree, names) {
        Ok(mutation) => Ok(mutation),
        Err(MutationFault::Syntax) => Err(OpFault::Refused(OpError::Syntax)),
        Err(MutationFault::UnknownColumn) => Err(OpFault::Refused(OpError::UnknownColumn)),
        Err(MutationFault::Clash) => Err(OpFault::Refused(OpError::Constraint)),
        Err(MutationFault::NotMutable) => Err(OpFault::Refused(OpError::Constraint)),
        Err(MutationFault::Memory) => Err(OpFault::Memory),
    }
}

/// The mutations of a `mutate`, each read entirely before the next, or the fault of the first that cannot be read (RFC 7047,
/// 5.2.4, which sets no order).
pub fn mutations_of<'a, N: Names>(
    alloc: Global,
    table: &'a Table,
    items: &[Value],
    names: &N,
) -> Result<Vec<Mutation<'a>>, OpFault>
    ensures { IsOpResult (λ v. v.items)
        (mutate.mutations_read (N.names names.now) table.now (items_view items.now)) result }
{
    let mut mutations = Vec::new(alloc);
    for item in items {
        let mutation = mutation_of(alloc, table, item, names)?;
        if let Err(refused) = mutations.push(mutation) {
            return Err(AllocError::from(refused).into());
        }
    }
    Ok(mutations)
}

/// What a mutation makes of the value of its column.
fn mutated_value(alloc: Global, mutation: &Mutation<'_>, datum: &Datum) -> Result<Datum, OpFault>
    ensures { IsOpResult (λ d. d) (mutate.mutated_value mutation.now datum.now) result }
{
    match mutation.mutate(alloc, datum) {
        Ok(mutated) => Ok(mutated),
        Err(MutateFault::Domain) => Err(OpFault::Refused(OpError::Domain)),
        Err(MutateFault::Range) => Err(OpFault::Refused(OpError::Range)),
        Err(MutateFault::Constraint) => Err(OpFault::Refused(OpError::Constraint)),
        Err(MutateFault::Memory) => Err(OpFault::Memory),
    }
}

/// What a mutation makes of the columns of a row: its own column is mutated, and the others stay. A row of its table has each
/// column that can be mutated, so the first case does not arise.
fn column_mutated(
    alloc: Global,
    mutation: &Mutation<'_>,
    columns: Columns,
) -> Result<Columns, OpFault>
    ensures { IsOpResult (λ c. c) (mutate.column_mutated mutation.now columns) result }
{
    let Some(datum) = columns.get(mutation.column()) else {
        return Ok(columns);
    };
    let changed = mutated_value(alloc, mutation, datum)?;
    Ok(columns.with_value(alloc, mutation.column(), changed)?)
}

/// What the mutations, one after another, make of the columns of a row, or the fault of the first that has one. Each value is
/// tested before the next mutation (RFC 7047, 5.2.4). The names and the defaults of the columns stay shared.
pub fn mutated_columns(
    alloc: Global,
    mutations: &[Mutation<'_>],
    columns: &Columns,
) -> Result<Columns, OpFault>
    ensures { IsOpResult (λ c. c) (mutate.mutated_columns mutations.now columns.now) result }
{
    let mut mutated = columns.copy(alloc)?;
    for mutation in mutations {
        mutated = column_mutated(alloc, mutation, mutated)?;
    }
    Ok(mutated)
}
