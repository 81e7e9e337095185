use uuid::Uuid;

/// The names of the rows that the inserts of one transaction make (RFC 7047, 5.1, `<named-uuid>`).
pub trait Names {
    ghost use Rattle.std.specs.Prelude.{◌≡◌, List, ℕ, Option};

    ghost names: { Self → List ℕ → Option (List ℕ) };

    /// The identifier of the row that has this name, or `None` if no insert gives it.
    fn uuid_of(&self, name: &str) -> Option<Uuid>
        ensures { result ≡ names self.now name.now };
}

/// No row has a name, as in a schema or in stored data.
#[derive(Clone, Copy)]
pub struct NoNames;

impl Names for NoNames {
    ghost use Rattle.std.specs.Prelude.{None};

    ghost names = { λ _ _. None };

    fn uuid_of(&self, _name: &str) -> Option<Uuid> {
        None
    }
}
