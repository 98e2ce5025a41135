// The maps that are kept.
ghost use Rattle.std.specs.Prelude.{◌≡◌, ◌⊎◌, [], Some, IfNone, IfOk, IfSome, OnErr, OnOk, bytes_eq, position, remove};
ghost use Rattle.fusemap_core.specs.Prelude.{map_in};
ghost use Rattle.fusemap_core.specs.Recent.{with_first};

use crate::kept_map::KeptMap;
use crate::recent::{bring_first, put_first};
use crate::{FuseMap, MapFault, read_map};
use std::alloc::{AllocError, Global};
use std::marker::Model;
use text_core::Text;

/// The fuse maps of the last 16 texts that were asked for, each with its whole text. Clauses see the
/// texts, the one that was asked for last first. No answer depends on them.
#[derive(Drop)]
pub struct MapCache {
    kept: Vec<KeptMap>,
}

impl Model for MapCache {
    ghost use Rattle.std.specs.Prelude.{List, ℕ};

    ghost Value = { List (List ℕ) };

    ghost view = { λ s. s.kept.items };
}

impl MapCache {
    /// A cache with no map. This takes no memory.
    pub fn new(alloc: Global) -> MapCache
        ensures { result ≡ [] }
    {
        MapCache {
            kept: Vec::new(alloc),
        }
    }

    /// The fuse map that a text describes, if it describes one. `AllocError` where memory ran out
    /// for the map; where it runs out only for keeping it, the map is the answer all the same.
    pub fn find(&mut self, alloc: Global, text: &Text) -> Result<Option<FuseMap>, AllocError>
        ensures map { IfOk result (λ map. map ≡ map_in text.now) }
        ensures again { IfSome (position (bytes_eq text.now) self.old) (λ place.
            self.new ≡ with_first text.now (remove self.old place)) }
        ensures kept { IfNone (position (bytes_eq text.now) self.old)
            ((self.new ≡ with_first text.now self.old) ⊎ (self.new ≡ self.old)) }
    {
        if let Some(place) = place_of(self.kept.as_slice(), text) {
            let map = self.kept[place].map();
            bring_first(&mut self.kept, place);
            return Ok(Some(map?));
        }
        let Some(map) = map_of_text(alloc, text)? else {
            return Ok(None);
        };
        let _unkept = self.keep(text, &map);
        Ok(Some(map))
    }

    /// Keeps the map of a text before all others. Where memory runs out for it, nothing changes.
    fn keep(&mut self, text: &Text, map: &FuseMap) -> Result<(), AllocError>
        requires { map_in text.now ≡ Some map.now }
        ensures ok { OnOk result (self.new ≡ with_first text.now self.old) }
        ensures err { OnErr result (self.new ≡ self.old) }
    {
        let kept = KeptMap::copy_of(text, map)?;
        put_first(&mut self.kept, kept)
    }
}

/// The place of the map of a text among those that are kept.
fn place_of(kept: &[KeptMap], text: &Text) -> Option<usize>
    ensures { result ≡ position (bytes_eq text.now) kept.now }
{
    kept.iter().position(|one| text == one.text())
}

/// The fuse map that a text describes, if it describes one. `AllocError` where memory ran out for it.
#[tactic(auto, unfolding(crate::specs::MapText::map_in))]
pub fn map_of_text(alloc: Global, text: &Text) -> Result<Option<FuseMap>, AllocError>
    ensures { IfOk result (λ map. map ≡ map_in text.now) }
{
    match read_map(alloc, text.as_str()) {
        Ok(map) => Ok(Some(map)),
        Err(MapFault::OutOfMemory) => Err(AllocError),
        Err(_) => Ok(None),
    }
}
