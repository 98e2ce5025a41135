// What is there already.
ghost use Rattle.std.specs.Prelude.{◌≡◌, [], IfOk, bytes_eq};
ghost use Rattle.std.specs.List.{list_any};
ghost use Rattle.std.specs.Ordering.{eq_by_cmp};
ghost use Rattle.site_core.specs.Site as site;
ghost use Rattle.site_faults.specs.Prelude.{first_again};

use crate::entries::PoolEntry;
use std::alloc::{AllocError, Global};
use std::collections::BTreeSet;
use text_core::{Digest, Name};

/// The place of the first name that is there already.
pub(crate) fn name_again(alloc: Global, names: &[Name]) -> Result<Option<usize>, AllocError>
    ensures { IfOk result (λ found. found ≡ first_again bytes_eq [] names.now) }
{
    item_again(alloc, names)
}

/// The place of the first digest that is there already.
pub(crate) fn digest_again(alloc: Global, digests: &[Digest]) -> Result<Option<usize>, AllocError>
    ensures { IfOk result (λ found. found ≡ first_again bytes_eq [] digests.now) }
{
    item_again(alloc, digests)
}

fn item_again<T: Ord + Copy>(alloc: Global, items: &[T]) -> Result<Option<usize>, AllocError>
    ensures { IfOk result (λ found. found ≡ first_again (eq_by_cmp T.cmp) [] items.now) }
{
    let mut seen = BTreeSet::new(alloc);
    for (index, item) in items.iter().enumerate() {
        if !seen.insert(*item)? {
            return Ok(Some(index));
        }
    }
    Ok(None)
}

/// The place of the first pool that has an address in common with one before it.
pub(crate) fn pool_again(pools: &[PoolEntry]) -> Option<usize>
    ensures { result ≡ first_again site.pools_meet [] pools.now }
{
    for (index, pool) in pools.iter().enumerate() {
        if meets_one_of(pool, &pools[..index]) {
            return Some(index);
        }
    }
    None
}

fn meets_one_of(pool: &PoolEntry, others: &[PoolEntry]) -> bool
    ensures { result ≡ list_any (site.pools_meet pool.now) others.now }
{
    others.iter().any(|other| pools_meet(pool, other))
}

/// Whether two pools have an address in common.
fn pools_meet(one: &PoolEntry, other: &PoolEntry) -> bool
    ensures { result ≡ site.pools_meet one.now other.now }
{
    let first = one.first.value();
    let other_first = other.first.value();
    first < other_first + other.count && other_first < first + one.count
}
