use ov_base::{Bytes, Text};
use uuid::Uuid;

/// A row as format 1 stores it: its table, its identifier, its version, and one text for all of its columns.
#[derive(Drop)]
pub struct Line {
    pub table: Text,
    pub id: Uuid,
    pub version: Uuid,
    pub body: Bytes,
}
