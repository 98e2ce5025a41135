// What was asked for last.
ghost use Rattle.std.specs.Prelude.{◌≡◌, ◌<◌, IsOk, OnErr, OnOk, remove, slice_index_or, vec_capacity, vec_len};
ghost use Rattle.fusemap_core.specs.Recent.{with_first};

use std::alloc::AllocError;

/// The most that are kept.
const KEPT_LIMIT: usize = 16;

/// Keeps one before all others, and no more of them than the limit. Where memory runs out for it,
/// nothing changes.
pub(crate) fn put_first<T: Drop>(kept: &mut Vec<T>, one: T) -> Result<(), AllocError>
    ensures ok { OnOk result (kept.new.items ≡ with_first one kept.old.items) }
    ensures err { OnErr result (kept.new.items ≡ kept.old.items) }
    ensures room { vec_len kept.old < vec_capacity kept.old → IsOk result }
{
    kept.insert(0, one)?;
    kept.truncate(KEPT_LIMIT);
    Ok(())
}

/// Puts the one at a place before all others. This takes no memory.
pub(crate) fn bring_first<T: Drop>(kept: &mut Vec<T>, place: usize)
    requires { place < vec_len kept.old }
    ensures { (d : T) → kept.new.items ≡ with_first (slice_index_or kept.old.items place d)
        (remove kept.old.items place) }
{
    let one = kept.remove(place);
    let _kept = put_first(kept, one);
}
