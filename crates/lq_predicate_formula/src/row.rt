//! What queries are evaluated on: an entry, an example, or anything else that has attributes.
ghost use Rattle.std.specs.Prelude.{◌≡◌, ℕ, List, Option};
ghost use Rattle.std.specs.Option.{option_map};
ghost use Rattle.lq_value.specs.PlainValue.{plain_value_of};

use lq_value::{AttrName, View};

/// Something that has attributes: an entry, or any other row.
pub trait Row {
    ghost use Rattle.lq_value.specs.PlainValue.{PlainValue};

    /// What the row shows under each name.
    ghost looks: { Self → List ℕ → Option PlainValue };

    /// What the row shows under a name; `None` where it has no attribute of that name.
    fn look(&self, attr: &AttrName) -> Option<View<'_>>
        ensures { option_map plain_value_of result ≡ looks self.now attr.now };
}
