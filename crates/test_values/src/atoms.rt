use json::Writer;
use ov_atoms::{
    Atom, AtomFault, AtomKind, Datum, Kinds, Names, NoNames, has_sixteen_bytes, is_id, put_datum,
    read_atom, read_datum, read_uuid, write_datum,
};
use ov_base::Text;
use serde_json::Value;
use std::alloc::{AllocError, Global};
use std::test::Fail;
use test_basics::{Scripted, agrees, holds, is_text};
use uuid::Uuid;

const INTEGERS: Kinds = Kinds::Single(AtomKind::Integer);

const BOOLEANS: Kinds = Kinds::Single(AtomKind::Boolean);

const TEXTS: Kinds = Kinds::Single(AtomKind::Text);

const UUIDS: Kinds = Kinds::Single(AtomKind::Uuid);

const COUNTS: Kinds = Kinds::Pair(AtomKind::Text, AtomKind::Integer);

/// Names one row: `a`, with the zero UUID.
struct OneName;

impl Names for OneName {
    ghost use Rattle.std.specs.Prelude.{Some, None, if◌then◌else◌, codes};
    ghost use Rattle.std.specs.Str.{bytes_eq};
    ghost use Rattle.ov_specs.specs.values.Uuid.{zero_uuid};

    ghost names = { λ _ name. if bytes_eq name (codes "a") then Some zero_uuid else None };

    fn uuid_of(&self, name: &str) -> Option<Uuid> {
        if name == "a" { Some(Uuid::nil()) } else { None }
    }
}

const SETS_OF_INTEGERS: &str = r#"["set",[3,1,3]] -> ["set",[1,3]]
["set",[7]] -> 7
["set",[7,7]] -> 7
7 -> 7
["set",[]] -> ["set",[]]
["set",[true]] -> syntax
["set",[7,"7"]] -> syntax
["set",[["set",[7]]]] -> syntax
["set",7] -> syntax
["set",[7],7] -> syntax
["map",[]] -> syntax
null -> syntax"#;

const MAPS_OF_COUNTS: &str = r#"["map",[["b",1],["a",2]]] -> ["map",[["a",2],["b",1]]]
["map",[["a",1]]] -> ["map",[["a",1]]]
["map",[["a",1],["a",1]]] -> ["map",[["a",1]]]
["map",[["a",1],["a",2]]] -> clash
["map",[["a",1],["a",2],["a",null]]] -> syntax
["map",[["a",1,1]]] -> syntax
["map",[]] -> ["map",[]]
["set",[]] -> syntax
["a",1] -> syntax
["map",["a",1]] -> syntax"#;

const NUMBERS: &str = r#"9223372036854775807 -> 9223372036854775807
-9223372036854775808 -> -9223372036854775808
9223372036854775808 -> syntax
18446744073709551615 -> syntax
-9223372036854775809 -> syntax
-0 -> syntax
1.0 -> syntax
1e3 -> syntax"#;

const TRUTHS: &str = r#"true -> true
1 -> syntax"#;

const STRINGS: &str = r#""" -> ""
"\u00e9" -> "é"
"a\u0000b" -> syntax
null -> syntax
["set",["b","B","ab"]] -> ["set",["B","ab","b"]]"#;

const IDENTIFIERS: &str =
    r#"["uuid","550e8400-e29b-41d4-a716-446655440000"] -> ["uuid","550e8400-e29b-41d4-a716-446655440000"]
["uuid","550E8400-E29B-41D4-A716-446655440000"] -> ["uuid","550e8400-e29b-41d4-a716-446655440000"]
["uuid","550e8400e29b41d4a716446655440000"] -> syntax
["uuid","550e8400e29b-41d4-a716-4466-55440000"] -> syntax
["uuid","550e8400-e29b-41d4-a716-44665544000g"] -> syntax
["uuid","{550e8400-e29b-41d4-a716-446655440000}"] -> syntax
"550e8400-e29b-41d4-a716-446655440000" -> syntax
["named-uuid","a"] -> syntax"#;

/// The text of a value, written as a tree.
fn text_of_tree(alloc: Global, datum: &Datum) -> Result<String, Fail> {
    Ok(write_datum(alloc, datum)?.to_string(alloc)?)
}

/// The text of a value, written directly.
fn text_at_once(alloc: Global, datum: &Datum) -> Result<String, Fail> {
    let mut out = Writer::new(Vec::new(alloc));
    put_datum(&mut out, datum)?;
    Ok(String::from_utf8(out.into_inner())?)
}

/// The text of a value, which must be the same both ways.
fn text_of(alloc: Global, datum: &Datum) -> Result<String, Fail> {
    let written = text_of_tree(alloc, datum)?;
    let put = text_at_once(alloc, datum)?;
    if put.as_str() == written.as_str() {
        Ok(put)
    } else {
        Err(Fail::from("the texts differ"))
    }
}

/// The text of a copy of a value.
fn text_of_copy(alloc: Global, datum: &Datum) -> Result<String, Fail> {
    let copy = datum.copy(alloc)?;
    text_of(alloc, &copy)
}

/// The word for a refusal.
fn word_of(fault: AtomFault) -> &'static str {
    match fault {
        AtomFault::Syntax => "syntax",
        AtomFault::Clash => "clash",
        AtomFault::Memory => "memory",
    }
}

/// Reads a tree of these kinds, copies the value and returns its text, or the word for its refusal.
fn text_rewritten(alloc: Global, kinds: Kinds, tree: &Value) -> Result<String, Fail> {
    match read_datum(alloc, tree, kinds, &NoNames) {
        Ok(datum) => text_of_copy(alloc, &datum),
        Err(fault) => Ok(String::from_str(alloc, word_of(fault))?),
    }
}

/// The commands are texts of these kinds.
#[derive(Drop)]
struct Rewritten {
    kinds: Kinds,
}

impl Scripted for Rewritten {
    fn answer(&mut self, alloc: Global, command: &str) -> Result<String, Fail> {
        let tree = Value::from_str(alloc, command)?;
        text_rewritten(alloc, self.kinds, &tree)
    }
}

/// Runs a script of texts of these kinds.
fn are_rewritten(alloc: Global, kinds: Kinds, script: &str) -> Result<(), Fail> {
    agrees(alloc, Rewritten { kinds }, script)
}

#[test]
fn a_set_is_written_in_order_and_one_atom_bare(rt: HostRuntime) -> Result<(), Fail> {
    are_rewritten(rt.alloc(), INTEGERS, SETS_OF_INTEGERS)
}

#[test]
fn a_map_is_written_by_its_keys(rt: HostRuntime) -> Result<(), Fail> {
    are_rewritten(rt.alloc(), COUNTS, MAPS_OF_COUNTS)
}

#[test]
fn a_number_has_64_bits(rt: HostRuntime) -> Result<(), Fail> {
    are_rewritten(rt.alloc(), INTEGERS, NUMBERS)
}

#[test]
fn a_number_is_no_truth_value(rt: HostRuntime) -> Result<(), Fail> {
    are_rewritten(rt.alloc(), BOOLEANS, TRUTHS)
}

#[test]
fn a_text_has_no_nul(rt: HostRuntime) -> Result<(), Fail> {
    are_rewritten(rt.alloc(), TEXTS, STRINGS)
}

#[test]
fn a_uuid_has_hyphens_and_is_written_in_lower_case(rt: HostRuntime) -> Result<(), Fail> {
    are_rewritten(rt.alloc(), UUIDS, IDENTIFIERS)
}

/// The row's name, another name, no identifier, and the row's name with an extra item.
const NAMED: &str = r#"["named-uuid","a"] -> true
["named-uuid","b"] -> false
["named-uuid","a b"] -> false
["named-uuid","a","a"] -> false"#;

/// Whether a text reads as an identifier when one row has a name.
fn is_named(alloc: Global, text: &str) -> Result<bool, Fail> {
    let tree = Value::from_str(alloc, text)?;
    let atom = read_atom(alloc, &tree, AtomKind::Uuid, &OneName);
    Ok(atom.is_ok_and(|atom| atom.kind() == AtomKind::Uuid))
}

/// The commands are texts that may read as an identifier.
#[derive(Drop)]
struct Named;

impl Scripted for Named {
    fn answer(&mut self, alloc: Global, command: &str) -> Result<String, Fail> {
        let is_named = is_named(alloc, command)?;
        Ok(format!(in alloc; "{is_named}")?)
    }
}

#[test]
fn a_name_is_read_as_the_row_that_has_it(rt: HostRuntime) -> Result<(), Fail> {
    agrees(rt.alloc(), Named, NAMED)
}

/// Identifiers, as a text alone and in an array, and trees that are none.
const ALONE: &str =
    r#""00000000-0000-4000-9000-0000000000ab" -> 00000000-0000-4000-9000-0000000000ab
"00000000-0000-4000-9000-0000000000AB" -> 00000000-0000-4000-9000-0000000000ab
["uuid","00000000-0000-4000-9000-0000000000AB"] -> 00000000-0000-4000-9000-0000000000ab
["named-uuid","a"] -> none
"000000000000400090000000000000ab" -> none
"{00000000-0000-4000-9000-0000000000ab}" -> none
["00000000-0000-4000-9000-0000000000ab"] -> none
"a" -> none
7 -> none
null -> none"#;

/// The commands are trees that may be an identifier without names.
#[derive(Drop)]
struct Alone;

impl Scripted for Alone {
    fn answer(&mut self, alloc: Global, command: &str) -> Result<String, Fail> {
        match read_uuid(&Value::from_str(alloc, command)?) {
            Some(id) => Ok(format!(in alloc; "{id}")?),
            None => Ok(String::from_str(alloc, "none")?),
        }
    }
}

#[test]
fn an_identifier_may_stand_alone(rt: HostRuntime) -> Result<(), Fail> {
    agrees(rt.alloc(), Alone, ALONE)
}

/// Texts, and whether each is a name.
const NAMES: &str = "_a1 -> true
1a -> false
 -> false
a-b -> false";

/// The commands are texts that may be a name.
#[derive(Drop)]
struct Ids;

impl Scripted for Ids {
    fn answer(&mut self, alloc: Global, command: &str) -> Result<String, Fail> {
        Ok(format!(in alloc; "{}", is_id(command))?)
    }
}

#[test]
fn a_name_is_an_identifier(rt: HostRuntime) -> Result<(), Fail> {
    has_sixteen_bytes(&Uuid::nil());
    agrees(rt.alloc(), Ids, NAMES)
}

/// Values, each with its facts from `facts_of`.
const SET: &str = "set -> 2 Some(2) None true";

const ONE_ATOM: &str = "one -> 1 Some(1) None true";

const MAP: &str = "map -> 1 None Some(1) true";

const DEFAULTS: &str = "nothing -> 0 None Some(0) true
default -> 1 None Some(1) true";

/// A set of two numbers.
fn numbers(alloc: Global) -> Result<Datum, AllocError> {
    Datum::of_atoms(vec![in alloc; Atom::Integer(2), Atom::Integer(1)]?)
}

/// A map from a number to a text.
fn pair(alloc: Global) -> Result<Datum, Fail> {
    let text = Atom::Text(Text::from_str(alloc, "a")?);
    let pairs = vec![in alloc; (Atom::Integer(1), text)]?;
    Ok(Datum::of_pairs(pairs)?.ok_or("a clash")?)
}

/// The value for a word.
fn value_of(alloc: Global, word: &str) -> Result<Datum, Fail> {
    match word {
        "set" => Ok(numbers(alloc)?),
        "one" => Ok(Datum::of_atom(Atom::Boolean(true))),
        "map" => pair(alloc),
        "nothing" => Ok(Datum::nothing_of(alloc, COUNTS)),
        _ => Ok(Datum::one_default_of(alloc, COUNTS)?),
    }
}

/// Whether a value equals its copy.
fn is_copied(alloc: Global, datum: &Datum) -> Result<bool, AllocError> {
    Ok(*datum == datum.copy(alloc)?)
}

/// The numbers of a value's elements, atoms and pairs, and whether it equals its copy.
fn facts_of(alloc: Global, datum: &Datum) -> Result<String, Fail> {
    let count = datum.count();
    let atoms = datum.atoms().map(|atoms| atoms.len());
    let pairs = datum.pairs().map(|pairs| pairs.len());
    let is_copied = is_copied(alloc, datum)?;
    Ok(format!(in alloc; "{count} {atoms:?} {pairs:?} {is_copied}")?)
}

/// The commands are words for values.
#[derive(Drop)]
struct Made;

impl Scripted for Made {
    fn answer(&mut self, alloc: Global, command: &str) -> Result<String, Fail> {
        let datum = value_of(alloc, command)?;
        facts_of(alloc, &datum)
    }
}

#[test]
fn sets_are_made_of_atoms(rt: HostRuntime) -> Result<(), Fail> {
    agrees(rt.alloc(), Made, SET)
}

/// Whether a set of numbers sorts before a truth value.
fn are_numbers_first(alloc: Global) -> Result<bool, AllocError> {
    Ok(numbers(alloc)? < Datum::of_atom(Atom::Boolean(true)))
}

#[test]
fn one_atom_is_a_set(rt: HostRuntime) -> Result<(), Fail> {
    let are_first = are_numbers_first(rt.alloc())?;
    holds(rt.alloc(), are_first, "numbers stand before truth values")?;
    agrees(rt.alloc(), Made, ONE_ATOM)
}

#[test]
fn maps_are_made_of_pairs(rt: HostRuntime) -> Result<(), Fail> {
    agrees(rt.alloc(), Made, MAP)
}

#[test]
fn a_default_has_one_pair_or_none(rt: HostRuntime) -> Result<(), Fail> {
    agrees(rt.alloc(), Made, DEFAULTS)
}

/// Whether an atom equals its copy, whether it sorts after a number, and how -1 compares to 0.
fn orders_of(alloc: Global, atom: &Atom) -> Result<String, Fail> {
    let is_copied = *atom == atom.copy(alloc)?;
    let is_last = Atom::Integer(9) < *atom;
    let order = Atom::Integer(-1).cmp(&Atom::Integer(0));
    Ok(format!(in alloc; "{is_copied} {is_last} {order:?}")?)
}

/// The same for a text.
fn orders_of_text(alloc: Global) -> Result<String, Fail> {
    let text = Atom::Text(Text::from_str(alloc, "a")?);
    orders_of(alloc, &text)
}

#[test]
fn atoms_stand_in_order(rt: HostRuntime) -> Result<(), Fail> {
    let found = orders_of_text(rt.alloc())?;
    is_text(rt.alloc(), found.as_str(), "true true Less")
}
