// The maps that are kept by number.
ghost use Rattle.std.specs.Prelude.{◌≡◌, ◌⊎◌, ℕ, Option, Some, IfNone, IfSome, OnErr, OnOk, nat_eq, position, remove};
ghost use Rattle.fusemap_core.specs.Prelude.{Map};
ghost use Rattle.fusemap_core.specs.Numbers.{AreMapsOfNumbers, numbers_of};
ghost use Rattle.fusemap_core.specs.Recent.{with_first};

use crate::FuseMap;
use crate::recent::{bring_first, put_first};
use std::alloc::{AllocError, Global};

/// A fuse map, and the number of the text that describes it.
#[derive(Drop)]
struct NumberedMap {
    id: u64,
    map: FuseMap,
}

/// The fuse maps of the last 16 numbers that were asked for, where the text of a number never
/// changes. Whatever map each number has, the maps that are kept are those of their numbers.
#[derive(Drop)]
pub struct NumberCache {
    /// The map that was asked for last is the first.
    kept: Vec<NumberedMap>,
}

impl NumberCache {
    /// A cache with no map. This takes no memory.
    pub fn new(alloc: Global) -> NumberCache
        ensures { (map_of : ℕ → Option Map) → AreMapsOfNumbers map_of result }
    {
        NumberCache {
            kept: Vec::new(alloc),
        }
    }

    /// The fuse map of a number. There is none where it isn't kept, or where memory ran out for it.
    pub fn find(&mut self, id: u64) -> Option<FuseMap>
        ensures found { (map_of : ℕ → Option Map) → AreMapsOfNumbers map_of self.old
            → IfSome result (λ map. map_of id ≡ Some map) }
        ensures right { (map_of : ℕ → Option Map) → AreMapsOfNumbers map_of self.old
            → AreMapsOfNumbers map_of self.new }
        ensures again { IfSome (position (nat_eq id) (numbers_of self.old)) (λ place.
            numbers_of self.new ≡ with_first id (remove (numbers_of self.old) place)) }
        ensures other { IfNone (position (nat_eq id) (numbers_of self.old))
            (numbers_of self.new ≡ numbers_of self.old) }
    {
        let place = place_of(self.kept.as_slice(), id)?;
        let map = self.kept[place].map.copy();
        bring_first(&mut self.kept, place);
        map.ok()
    }

    /// Keeps the fuse map of a number, if there is memory for it.
    pub fn keep(&mut self, id: u64, map: &FuseMap)
        ensures right { (map_of : ℕ → Option Map) → AreMapsOfNumbers map_of self.old
            → map_of id ≡ Some map.now
            → AreMapsOfNumbers map_of self.new }
        ensures kept { (numbers_of self.new ≡ with_first id (numbers_of self.old))
            ⊎ (numbers_of self.new ≡ numbers_of self.old) }
    {
        let _unkept = self.put(id, map);
    }

    /// Keeps the fuse map of a number before all others. Where memory runs out for it, nothing
    /// changes.
    fn put(&mut self, id: u64, map: &FuseMap) -> Result<(), AllocError>
        ensures right { (map_of : ℕ → Option Map) → AreMapsOfNumbers map_of self.old
            → map_of id ≡ Some map.now
            → AreMapsOfNumbers map_of self.new }
        ensures ok { OnOk result (numbers_of self.new ≡ with_first id (numbers_of self.old)) }
        ensures err { OnErr result (numbers_of self.new ≡ numbers_of self.old) }
    {
        let map = map.copy()?;
        put_first(&mut self.kept, NumberedMap { id, map })
    }
}

/// The place of the map of a number among those that are kept.
fn place_of(kept: &[NumberedMap], id: u64) -> Option<usize>
    ensures { result ≡ position (λ one. nat_eq id one.id) kept.now }
{
    kept.iter().position(|one| id == one.id)
}
