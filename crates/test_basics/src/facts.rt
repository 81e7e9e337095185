use std::alloc::Global;
use std::test::Fail;

/// Fails with both texts if the found text differs from the wanted one.
pub fn is_text(alloc: Global, found: &str, wanted: &str) -> Result<(), Fail> {
    if found == wanted {
        return Ok(());
    }
    Err(Fail::new(format!(in alloc; "found {found}, wanted {wanted}")?))
}

/// Fails with the name of a fact if it does not hold.
pub fn holds(alloc: Global, is_so: bool, what: &str) -> Result<(), Fail> {
    if is_so {
        return Ok(());
    }
    Err(Fail::new(format!(in alloc; "not so: {what}")?))
}
