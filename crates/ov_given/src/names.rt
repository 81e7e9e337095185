ghost use Rattle.std.specs.Prelude.{◌≡◌, ℕ, List, IfOk, OnOk, Option, Some, None, unwrap_or};
ghost use Rattle.std.specs.Prelude.{if◌then◌else◌, option_map};
ghost use Rattle.std.specs.List.{slice_get};
ghost use Rattle.std.specs.Option.{option_copied, option_or};
ghost use Rattle.std.specs.Str.{bytes_eq};
ghost use Rattle.serde_json.specs.View.{view, items_view};
ghost use Rattle.ov_specs.specs.operations.Errors.{DuplicateName};
ghost use Rattle.ov_specs.specs.operations.Insert.{name_fault, uuid_fault};
ghost use Rattle.ov_specs.specs.operations.InsertedIds.{chosen_id, inserted_ids};
ghost use Rattle.ov_specs.specs.operations.NamedUuids.{declares, place_declared};
ghost use Rattle.ov_specs.specs.operations.NamedUuids.{is_declared_before, inserts_before, id_at};
ghost use Rattle.ov_specs.specs.operations.OpOutcome.{OpContext};
ghost use Rattle.ov_specs.specs.schema.Schema.{is_some_and};
ghost use Rattle.ov_given.specs.Naming.{AreNamePlaces, place_at};
ghost use Rattle.ov_projection.specs.Errors.{error_view};

use ov_atoms::{Names, is_id, read_uuid};
use ov_base::Trees;
use ov_projection::{OpError, is_insert, text_at};
use serde_json::Value;
use std::alloc::{AllocError, Global};
use std::collections::BTreeMap;
use std::marker::Model;
use uuid::Uuid;

/// The rows that the inserts of a transaction make, and the names that stand for them throughout it, even before the insert
/// that declares one (RFC 7047, 5.1, `<named-uuid>`, and 5.2.1). Made once for each transaction.
#[derive(Drop)]
pub struct NamedRows<'a> {
    /// The identifier of each insert, in order: chosen, or else drawn.
    ids: Vec<Uuid>,
    operations: &'a Trees,
    /// For each name, the place of the first operation that declares it.
    places: BTreeMap<&'a str, usize>,
    /// How many inserts stand before each operation.
    counts: Vec<usize>,
    /// How many inserts there are.
    inserts: usize,
}

impl<'a> Model for NamedRows<'a> {
    ghost use Rattle.std.specs.Prelude.{◌≡◌, ℕ, unwrap_or};
    ghost use Rattle.std.specs.List.{slice_get};
    ghost use Rattle.ov_specs.specs.operations.NamedUuids.{inserts_before};
    ghost use Rattle.ov_given.specs.Naming as naming;
    ghost use Rattle.ov_given.specs.Naming.{naming_code, AreNamePlaces};

    ghost Value = { naming.Naming };

    ghost coded = { naming_code };

    ghost view = { λ n. record { ids = n.ids.items; operations = n.operations.now } };

    ghost invariant = { λ n. AreNamePlaces n.places n.operations.now
        × ((place : ℕ) → unwrap_or (slice_get n.counts.items place) n.inserts
        ≡ inserts_before place n.operations.now) };
}

impl<'a> NamedRows<'a> {
    /// The rows that these operations insert, given one identifier drawn for each insert, in order. An insert may choose
    /// another, and its draw is not used.
    pub fn new(
        alloc: Global,
        draws: &[Uuid],
        operations: &'a Trees,
    ) -> Result<NamedRows<'a>, AllocError>
        ensures { IfOk result (λ rows. rows
            ≡ record { ids = inserted_ids draws.now operations.now; operations = operations.now }) }
    {
        let items = operations.as_slice();
        let (counts, inserts) = count_inserts(alloc, items)?;
        Ok(NamedRows {
            ids: inserted_ids(alloc, draws, items)?,
            operations,
            places: places_of(alloc, items)?,
            counts,
            inserts,
        })
    }

    /// The identifier of the insert at this place; the first operation is at 0. The nil UUID if no insert is there or later.
    pub fn id_at(&self, place: usize) -> Uuid
        ensures { result ≡ id_at self.now.ids self.now.operations place }
    {
        let before = match self.counts.get(place) {
            Some(before) => *before,
            None => self.inserts,
        };
        self.ids.get(before).copied().unwrap_or(Uuid::nil())
    }

    /// Whether an operation before this place declares the name (RFC 7047, 5.2.1).
    pub fn is_declared_before(&self, name: &str, place: usize) -> bool
        ensures { result ≡ is_declared_before name.now place self.now.operations }
    {
        match self.place_of(name) {
            Some(first) => first < place,
            None => false,
        }
    }

    /// The place of the first operation that declares the name.
    fn place_of(&self, name: &str) -> Option<usize>
        ensures { result ≡ place_declared name.now self.now.operations }
    {
        self.places.get(name).copied()
    }
}

impl<'a> Names for NamedRows<'a> {
    ghost use Rattle.ov_specs.specs.operations.NamedUuids.{uuids_named};

    ghost names = { λ rows name. uuids_named rows.ids rows.operations name };

    fn uuid_of(&self, name: &str) -> Option<Uuid> {
        match self.place_of(name) {
            Some(place) => Some(self.id_at(place)),
            None => None,
        }
    }
}

/// What is wrong with the `uuid`, which may be left out, of an insert: it is neither a text of 36 characters nor
/// `["uuid",text]` (RFC 7047, 5.1, `<uuid>`).
pub fn uuid_fault(tree: Option<&Value>) -> Option<OpError>
    ensures { option_map error_view result
        ≡ uuid_fault (option_map view (option_copied tree.entry)) }
{
    match read_uuid(tree?) {
        Some(_) => None,
        None => Some(OpError::Syntax),
    }
}

/// What is wrong with the `uuid-name`, which may be left out, of the insert at this place: it is not an `<id>`, or an
/// operation before it declares the name (RFC 7047, 5.2.1).
pub fn name_fault(rows: &NamedRows<'_>, place: usize, tree: Option<&Value>) -> Option<OpError>
    ensures { (c : OpContext) → c.operations ≡ rows.now.operations
        → option_map error_view result
        ≡ name_fault c place (option_map view (option_copied tree.entry)) }
{
    let name = match tree {
        Some(tree) => tree.as_str(),
        None => return None,
    };
    match name {
        Some(name) if is_id(name) => name_twice(rows, place, name),
        _ => Some(OpError::Syntax),
    }
}

/// The error if an operation before this place declares the name.
fn name_twice(rows: &NamedRows<'_>, place: usize, name: &str) -> Option<OpError>
    ensures { option_map error_view result
        ≡ (if is_declared_before name.now place rows.now.operations then Some DuplicateName else
        None) }
{
    if rows.is_declared_before(name, place) {
        Some(OpError::DuplicateName)
    } else {
        None
    }
}

/// The identifier that an insert chooses, if its `uuid` is readable.
fn chosen_id(operation: &Value) -> Option<Uuid>
    ensures { result ≡ chosen_id (view operation.now) }
{
    read_uuid(operation.get("uuid")?)
}

/// The identifiers of the inserts, in order: that which an insert chooses, or else the one that was drawn for it.
fn inserted_ids(
    alloc: Global,
    draws: &[Uuid],
    operations: &[Value],
) -> Result<Vec<Uuid>, AllocError>
    ensures { IfOk result (λ ids. ids.items ≡ inserted_ids draws.now (items_view operations.now)) }
{
    let mut ids = Vec::with_capacity(alloc, draws.len())?;
    let mut unused = draws;
    for operation in operations {
        if is_insert(operation) {
            let Some((draw, others)) = unused.split_first() else {
                return Ok(ids);
            };
            ids.push(chosen_id(operation).unwrap_or(*draw))?;
            unused = others;
        }
    }
    Ok(ids)
}

/// The name that an operation declares.
fn name_declared(operation: &Value) -> Option<&str>
    ensures { (name : List ℕ) → declares name (view operation.now)
        ≡ is_some_and (bytes_eq name) (option_copied result) }
{
    if !is_insert(operation) {
        return None;
    }
    match text_at(operation, "uuid-name") {
        Some(name) if is_id(name) => Some(name),
        _ => None,
    }
}

/// Keeps the place of an operation under the name that it declares, unless the name already has one.
fn keep_place<'a>(
    places: &mut BTreeMap<&'a str, usize>,
    operation: &'a Value,
    place: usize,
) -> Result<(), AllocError>
    ensures { OnOk result ((name : List ℕ) → place_at places.new name
        ≡ option_or (place_at places.old name)
        (if declares name (view operation.now) then Some place else None)) }
{
    let Some(name) = name_declared(operation) else {
        return Ok(());
    };
    if !places.contains_key(name) {
        places.insert(name, place)?;
    }
    Ok(())
}

/// For each name, the place of the first operation that declares it.
fn places_of<'a>(
    alloc: Global,
    operations: &'a [Value],
) -> Result<BTreeMap<&'a str, usize>, AllocError>
    ensures { IfOk result (λ places. AreNamePlaces places (items_view operations.now)) }
{
    let mut places = BTreeMap::new(alloc);
    for place in 0..operations.len() {
        keep_place(&mut places, &operations[place], place)?;
    }
    Ok(places)
}

/// How many inserts stand before each operation, and how many there are.
fn count_inserts(alloc: Global, operations: &[Value]) -> Result<(Vec<usize>, usize), AllocError>
    ensures { IfOk result (λ c. (place : ℕ) → unwrap_or (slice_get c.0.items place) c.1
        ≡ inserts_before place (items_view operations.now)) }
{
    let mut counts = Vec::with_capacity(alloc, operations.len())?;
    let mut inserts: usize = 0;
    for operation in operations {
        counts.push(inserts)?;
        if is_insert(operation) {
            inserts += 1;
        }
    }
    Ok((counts, inserts))
}
