use ov_given::NamedRows;
use ov_schema::Schema;
use uuid::Uuid;

/// The transaction that an operation belongs to. The rows that it works on are in the stage.
#[derive_where(Clone, Copy)]
pub struct OpCtx<'a, 'b, 'c, 'd, O> {
    /// The schema of the database.
    pub schema: &'a Schema,
    /// The identifiers and the names of the rows that its inserts make (RFC 7047, 5.1, `<named-uuid>`).
    pub inserts: &'b NamedRows<'c>,
    /// The locks that its session owns.
    pub owns: &'d O,
    /// The version of the rows that it changes (RFC 7047, 3.2).
    pub version: Uuid,
    /// The milliseconds since it arrived (RFC 7047, 5.2.6).
    pub age: u64,
}
