// The devices that a seat can register.

use fuse_image::BlockWords;
use text_core::{Chip, Digest, Name};

/// A device that is registered, with what its chip shows.
#[derive(Clone, Copy, Drop)]
pub struct NewDevice {
    pub chip: Chip,
    /// The name of its order.
    pub order: Name,
    /// The SHA-256 of its fuse map's text.
    pub map: Digest,
    /// The words of all blocks as the station read them.
    pub blocks: BlockWords,
}
