ghost use Rattle.std.specs.Prelude.{◌≡◌};
ghost use Rattle.std.specs.Option.{option_copied};
ghost use Rattle.std.specs.Ordering.{is_gt};
ghost use Rattle.ov_specs.specs.schema.Newer.{significant, part_cmp, version_cmp, newer_than};
ghost use Rattle.ov_schema.specs.Parts.{part_length, first_part, rest_of};

use crate::schema::Schema;
use std::cmp::Ordering;

impl Schema {
    /// Whether this schema is newer than the other: both have a version, and this one's is greater. The first of the three
    /// parts in which two versions differ decides, by its number: 1.10.0 is newer than 1.9.0, and of 01.1.0 and 1.1.0
    /// neither is newer. It allocates nothing.
    pub fn newer_than(&self, other: &Schema) -> bool
        ensures { result ≡ newer_than self.now other.now }
    {
        match self.version() {
            Some(version) => match other.version() {
                Some(former) => is_greater(version.as_str().as_bytes(), former.as_str().as_bytes()),
                None => false,
            },
            None => false,
        }
    }
}

/// Whether the first version is greater than the second.
fn is_greater(version: &[u8], former: &[u8]) -> bool
    ensures { result ≡ is_gt (version_cmp version.now former.now) }
{
    version_cmp(version, former) == Ordering::Greater
}

/// The order of two versions, by the first part in which they differ.
fn version_cmp(first: &[u8], second: &[u8]) -> Ordering
    ensures { result ≡ version_cmp first.now second.now }
{
    match part_cmp(first_part(first), first_part(second)) {
        Ordering::Less => Ordering::Less,
        Ordering::Greater => Ordering::Greater,
        Ordering::Equal => match rest_of(first) {
            Some(rest) => match rest_of(second) {
                Some(others) => version_cmp(rest, others),
                None => Ordering::Greater,
            },
            None => match rest_of(second) {
                Some(_) => Ordering::Less,
                None => Ordering::Equal,
            },
        },
    }
}

/// The order of two parts, as numbers.
fn part_cmp(first: &[u8], second: &[u8]) -> Ordering
    ensures { result ≡ part_cmp first.now second.now }
{
    let digits = significant(first);
    let others = significant(second);
    match digits.len().cmp(&others.len()) {
        Ordering::Equal => digits.cmp(others),
        order => order,
    }
}

/// The digits of a number without leading zeros.
fn significant(digits: &[u8]) -> &[u8]
    ensures { result.now ≡ significant digits.now }
{
    for (i, digit) in digits.iter().enumerate() {
        if *digit != b'0' {
            return &digits[i..];
        }
    }
    &[]
}

/// The first part of a version.
fn first_part(version: &[u8]) -> &[u8]
    ensures { result.now ≡ first_part version.now }
{
    &version[..part_length(version)]
}

/// The number of bytes before the first dot, or all of them.
fn part_length(version: &[u8]) -> usize
    ensures { result ≡ part_length version.now }
{
    for (i, byte) in version.iter().enumerate() {
        if *byte == b'.' {
            return i;
        }
    }
    version.len()
}

/// The text after the first dot, if there is one.
fn rest_of(version: &[u8]) -> Option<&[u8]>
    ensures { option_copied result ≡ rest_of version.now }
{
    for (i, byte) in version.iter().enumerate() {
        if *byte == b'.' {
            return Some(&version[i + 1..]);
        }
    }
    None
}
