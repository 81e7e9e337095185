ghost use Rattle.std.specs.Prelude.{◌≡◌, ◌==◌, ◌+◌, ℕ, [], ◌∷◌, length, true, false, if◌then◌else◌};
ghost use Rattle.std.specs.Prelude.{IfOk, OnOk, OnErr};
ghost use Rattle.std.specs.BTreeMap.{is_at};
ghost use Rattle.std.specs.BTreeSet.{insert_key};
ghost use Rattle.std.specs.List.{list_any};
ghost use Rattle.std.specs.Set.{remove_key};
ghost use Rattle.ov_specs.specs.schema.SchemaTypes.{name_cmp};
ghost use Rattle.ov_locks.specs.Held.{names_asked, names_taken, requests_in};

use std::alloc::{AllocError, Global};
use std::collections::{BTreeMap, BTreeSet};
use std::marker::Model;

/// The names of the locks that each session has asked for: leaving costs what the session has asked for, not what all have.
#[derive(Drop)]
pub(crate) struct Held {
    of: BTreeMap<u64, BTreeSet<String>>,
}

impl Model for Held {
    ghost use Rattle.ov_locks.specs.Held.{HeldNames, held_of};

    ghost Value = { HeldNames };

    ghost view = { λ h. held_of h.of.entries };
}

impl Held {
    /// No session has asked for a lock.
    pub fn new(alloc: Global) -> Held
        ensures { result ≡ [] }
    {
        Held {
            of: BTreeMap::new(alloc),
        }
    }

    /// Whether the session has asked for the lock.
    pub fn has(&self, session: u64, name: &str) -> bool
        ensures { result ≡ list_any (is_at (name_cmp name.now)) (names_asked session self.now) }
    {
        match self.of.get(&session) {
            Some(names) => names.contains(name),
            None => false,
        }
    }

    /// How many locks the session has asked for.
    pub fn count(&self, session: u64) -> usize
        ensures { result ≡ length (names_asked session self.now) }
    {
        match self.of.get(&session) {
            Some(names) => names.len(),
            None => 0,
        }
    }

    /// Notes that the session asks for the lock.
    pub fn add(&mut self, alloc: Global, session: u64, name: &str) -> Result<(), AllocError>
        requires { list_any (is_at (name_cmp name.now)) (names_asked session self.old) ≡ false }
        ensures names { OnOk result ((other : ℕ) → names_asked other self.new
            ≡ (if other == session then insert_key name_cmp (names_asked other self.old) name.now
            else names_asked other self.old)) }
        ensures count { OnOk result (requests_in self.new ≡ requests_in self.old + 1) }
        ensures err { OnErr result (self.new ≡ self.old) }
    {
        let name = String::from_str(alloc, name)?;
        match self.of.get_mut(&session) {
            Some(names) => {
                names.insert(name)?;
                Ok(())
            }
            None => {
                self.of.insert(session, set_of(alloc, name)?)?;
                Ok(())
            }
        }
    }

    /// Notes that the session stops asking for the lock.
    pub fn remove(&mut self, session: u64, name: &str)
        ensures names { (other : ℕ) → names_asked other self.new
            ≡ (if other == session then remove_key (is_at (name_cmp name.now))
            (names_asked other self.old) else names_asked other self.old) }
        ensures count { list_any (is_at (name_cmp name.now)) (names_asked session self.old) ≡ true
            → requests_in self.new + 1 ≡ requests_in self.old }
    {
        if let Some(names) = self.of.get_mut(&session) {
            names.remove(name);
        }
    }

    /// Takes out all names of the session.
    pub fn take(&mut self, session: u64) -> Option<BTreeSet<String>>
        ensures names { names_taken result ≡ names_asked session self.old }
        ensures others { (other : ℕ) → names_asked other self.new
            ≡ (if other == session then [] else names_asked other self.old) }
        ensures count { requests_in self.new + length (names_asked session self.old)
            ≡ requests_in self.old }
    {
        self.of.remove(&session)
    }
}

/// The set of this name alone.
fn set_of(alloc: Global, name: String) -> Result<BTreeSet<String>, AllocError>
    ensures { IfOk result (λ set. set.keys ≡ name ∷ []) }
{
    let mut set = BTreeSet::new(alloc);
    set.insert(name)?;
    Ok(set)
}
