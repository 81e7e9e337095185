ghost use Rattle.std.specs.Prelude.{◌≡◌, ◌||◌};
ghost use Rattle.ov_specs.specs.schema.Schema.{is_some_and, is_bad_most, is_bad_count, is_weak};
ghost use Rattle.ov_specs.specs.schema.Schema.{is_strong_weak};
ghost use Rattle.ov_schema_text.specs.ShapeViews.{base_view, most_view, type_view};

use crate::parse::type_shape::{Most, TypeShape};

impl Most {
    fn is_bad(self) -> bool
        ensures { result ≡ is_bad_most (most_view self) }
    {
        match self {
            Most::AtMost(count) => count < 1,
            Most::Unlimited => false,
        }
    }
}

impl TypeShape<'_> {
    /// Whether `min` is neither 0 nor 1, or `max` is below 1.
    pub(crate) fn is_bad_count(&self) -> bool
        ensures { result ≡ is_bad_count (type_view self.now) }
    {
        let is_bad_min = match self.min {
            Some(count) => count < 0 || 1 < count,
            None => false,
        };
        let is_bad_max = match self.max {
            Some(most) => most.is_bad(),
            None => false,
        };
        is_bad_min || is_bad_max
    }

    /// Whether it is a map with a strong reference on one side and a weak one on the other.
    pub(crate) fn is_strong_weak(&self) -> bool
        ensures { result ≡ is_strong_weak (type_view self.now) }
    {
        let key = &self.key;
        match &self.value {
            Some(value) => {
                (key.is_strong() && value.is_weak()) || (key.is_weak() && value.is_strong())
            }
            None => false,
        }
    }

    /// Whether it holds weak references.
    pub fn is_weak(&self) -> bool
        ensures { result
            ≡ (is_weak (base_view self.now.key) || is_some_and is_weak (type_view self.now).value) }
    {
        let is_weak_value = match &self.value {
            Some(value) => value.is_weak(),
            None => false,
        };
        self.key.is_weak() || is_weak_value
    }
}
