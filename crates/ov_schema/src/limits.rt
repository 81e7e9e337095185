ghost use Rattle.std.specs.Prelude.{◌≡◌};
ghost use Rattle.ov_specs.specs.schema.Fitting.{is_between, char_count};

/// Whether a number is neither below the minimum nor above the maximum, if they are given.
pub(crate) fn is_between(least: Option<i64>, greatest: Option<i64>, number: i128) -> bool
    ensures { result ≡ is_between least greatest number }
{
    let is_too_small = match least {
        Some(least) => number < i128::from(least),
        None => false,
    };
    let is_too_great = match greatest {
        Some(greatest) => i128::from(greatest) < number,
        None => false,
    };
    !is_too_small && !is_too_great
}

/// The number of Unicode scalar values in a text.
pub(crate) fn char_count(text: &str) -> usize
    ensures { result ≡ char_count text.now }
{
    text.chars().count()
}
