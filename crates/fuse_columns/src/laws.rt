// What holds of columns and of what they stand for.
ghost use Rattle.std.specs.Prelude.{ℕ};
ghost use Rattle.fusemap_core.specs.Prelude.{IsMap, Map};
ghost use Rattle.fuse_columns.specs.Prelude.{NothingIsZeros, ZerosAreNothing, PlainBitsComeBack, BitsComeBack, KeysComeBack, ImageComesBack, WorkComesBack};
ghost use Rattle.fuse_columns.specs.Prelude.{BitsInMap, KeysInMap, PendingInMap, BitsHaveLength, KeysHaveLength, WorkHasLength, BitsBytesComeBack};
ghost use Rattle.fuse_columns.specs.Prelude.{KeyBytesComeBack, WorkBytesComeBack};

/// What was made a column comes back from it as it was: sets of positions of the map outside key
/// fields, keys at its key fields, and an image and work made of both. Of any other set such positions
/// come back.
pub fn come_back()
    ensures plain { PlainBitsComeBack }
    ensures bits { BitsComeBack }
    ensures keys { KeysComeBack }
    ensures image { ImageComesBack }
    ensures work { WorkComesBack }
{}

/// Whatever the bytes of a column are, what they stand for lies in the map: its bits outside key
/// fields, its keys at key fields.
pub fn lie_in_map()
    ensures bits { BitsInMap }
    ensures keys { KeysInMap }
    ensures work { PendingInMap }
{}

/// Columns are as long as the map says.
pub fn have_lengths()
    ensures bits { BitsHaveLength }
    ensures keys { KeysHaveLength }
    ensures work { WorkHasLength }
{}

/// Bytes of the form that the map asks for come back from what they stand for: so no two such
/// columns stand for the same. Bits are as long as the map says, with zeros for key blocks; a key is
/// 33 zeros, or 1 and a digest.
pub fn bytes_come_back()
    ensures bits { BitsBytesComeBack }
    ensures keys { KeyBytesComeBack }
    ensures work { WorkBytesComeBack }
{}

/// Zeros stand for nothing, however many they are, and nothing is as many zeros as the map says.
pub fn zeros_are_nothing()
    ensures zeros { (m : Map) (count : ℕ) → ZerosAreNothing m count }
    ensures nothing { (m : Map) → IsMap m → NothingIsZeros m }
{}
