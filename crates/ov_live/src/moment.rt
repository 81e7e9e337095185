ghost use Rattle.std.specs.Prelude.{◌≡◌, max};

/// The moment of an event that comes at this moment, after an event at the last one: the later of both.
pub fn moment_of(moment: u64, last: u64) -> u64
    ensures { result ≡ max moment last }
{
    moment.max(last)
}
