ghost use Rattle.std.specs.Prelude.{◌≡◌, T, IfOk, map, Some, None};
ghost use Rattle.std.specs.Option.{option_copied};
ghost use Rattle.std.specs.FinMap.{entries, from_entries, find, is_sorted};
ghost use Rattle.ov_specs.specs.schema.SchemaTypes.{name_cmp};
ghost use Rattle.ov_schema.specs.NamedViews.{named_view};

use ov_base::Text;
use std::alloc::{AllocError, Global};
use std::collections::BTreeMap;

/// The items in ascending order of their names' bytes. If two have one name, the first is kept.
pub(crate) fn ascending<T: Drop>(
    alloc: Global,
    named: Vec<(String, T)>,
) -> Result<Vec<(Text, T)>, AllocError>
    ensures { IfOk result (λ v. v.items
        ≡ entries (from_entries {R = name_cmp} (map named_view named.items))) }
{
    let mut named = named;
    let mut by_name = BTreeMap::new(alloc);
    while let Some((name, item)) = named.pop() {
        by_name.insert(name, item)?;
    }
    let mut ascending = Vec::new(alloc);
    for (name, item) in by_name {
        ascending.push((Text::from_string(name), item))?;
    }
    Ok(ascending)
}

/// The first item of this name.
pub(crate) fn find_named<'a, T>(named: &'a [(Text, T)], name: &str) -> Option<&'a T>
    ensures { option_copied result ≡ find name_cmp name.now named.now }
{
    for (known, item) in named {
        if name == known.as_str() {
            return Some(item);
        }
    }
    None
}

/// The item of this name among items in ascending order of their names. Looks at this place first.
pub(crate) fn find_near<'a, Item>(
    named: &'a [(Text, Item)],
    place: usize,
    name: &str,
) -> Option<&'a Item>
    requires ascend { T (is_sorted name_cmp named.now) }
    ensures { option_copied result ≡ find name_cmp name.now named.now }
{
    match named.get(place) {
        Some((known, item)) if name == known.as_str() => Some(item),
        _ => find_named(named, name),
    }
}
