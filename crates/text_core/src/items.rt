// The loop that reads the items of an array.
ghost use Rattle.std.specs.Prelude.{◌≡◌, IfOk, Option, option_map};
ghost use Rattle.text_core.specs.Prelude.{all_of, ReadsItems};

use std::alloc::{AllocError, Global};

/// What `read` makes of each value, or `None` where it makes nothing of one of them.
pub fn read_all<V, T: Drop, F: Fn(&V) -> Option<T>>(
    alloc: Global,
    values: &[V],
    read: F,
) -> Result<Option<Vec<T>>, AllocError>
    requires { F.IsAlwaysCallable read }
    ensures { (item_in : V → Option T) → ReadsItems F.Fn read item_in
        → IfOk result (λ found. option_map (λ items. items.items) found
        ≡ all_of item_in values.now) }
{
    let mut items = Vec::new(alloc);
    for value in values {
        let Some(item) = read(value) else {
            return Ok(None);
        };
        items.push(item)?;
    }
    Ok(Some(items))
}
