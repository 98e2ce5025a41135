// The items of arrays, of whichever format.
ghost use Rattle.std.specs.Prelude.{◌≡◌, IfOk, Option, map, option_map};
ghost use Rattle.text_core.specs.Prelude.{all_of, list_of_length, ReadsItems};

use std::alloc::{AllocError, Global};

/// A value of a document, which clauses see as data.
pub trait Viewed {
    /// What such data are.
    ghost Data: { Type 0 };

    /// The data that a value is.
    ghost view: { Self → Data };
}

/// The items, if there are so many.
pub fn of_length<V: Viewed>(items: &[V], least: usize, greatest: usize) -> Option<&[V]>
    ensures { option_map (λ found. map V.view found.now) result
        ≡ list_of_length least greatest (map V.view items.now) }
{
    if least <= items.len() && items.len() <= greatest {
        Some(items)
    } else {
        None
    }
}

/// What `read` makes of each value, or `None` where it makes nothing of one of them.
pub fn read_all<V: Viewed, T: Drop, F: Fn(&V) -> Option<T>>(
    alloc: Global,
    values: &[V],
    read: F,
) -> Result<Option<Vec<T>>, AllocError>
    requires { F.IsAlwaysCallable read }
    ensures { (item_in : V.Data → Option T) → ReadsItems F.Fn read (λ value. item_in (V.view value))
        → IfOk result (λ found. option_map (λ items. items.items) found
        ≡ all_of item_in (map V.view values.now)) }
{
    text_core::read_all(alloc, values, read)
}
