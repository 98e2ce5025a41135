// A fuse map that is kept with its text.
ghost use Rattle.std.specs.Prelude.{◌≡◌, Some, IfOk};
ghost use Rattle.fusemap_core.specs.Prelude.{map_in};

use crate::FuseMap;
use std::alloc::AllocError;
use std::marker::Model;
use text_core::Text;

/// A text, and the fuse map that it describes. Clauses see the text, which determines the map.
#[derive(Drop)]
pub(crate) struct KeptMap {
    text: Text,
    map: FuseMap,
}

impl Model for KeptMap {
    ghost use Rattle.std.specs.Prelude.{◌≡◌, List, ℕ, Some};
    ghost use Rattle.fusemap_core.specs.Prelude.{map_in};

    ghost Value = { List ℕ };

    ghost view = { λ k. k.text };

    ghost invariant = { λ k. map_in k.text ≡ Some k.map };
}

impl KeptMap {
    /// A copy of the text, and one of the map that it describes.
    pub(crate) fn copy_of(text: &Text, map: &FuseMap) -> Result<KeptMap, AllocError>
        requires { map_in text.now ≡ Some map.now }
        ensures { IfOk result (λ kept. kept ≡ text.now) }
    {
        let text = text.copy()?;
        let map = map.copy()?;
        Ok(KeptMap { text, map })
    }

    /// The text.
    pub(crate) fn text(&self) -> &Text
        ensures { result.now ≡ self.now }
    {
        &self.text
    }

    /// A copy of the map that the text describes.
    pub(crate) fn map(&self) -> Result<FuseMap, AllocError>
        ensures { IfOk result (λ map. map_in self.now ≡ Some map) }
    {
        self.map.copy()
    }
}
