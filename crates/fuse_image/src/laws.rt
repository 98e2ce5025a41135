// What holds of what lies in a map.
ghost use Rattle.fusemap_core.specs.Prelude.{Map};
ghost use Rattle.fuse_image.specs.Prelude.{ReadBacksInMap, SetsStay, TablesStay};

/// What lies in a map stays in it: two sets or tables together, and what is left of one. What a
/// chip of the map's shape shows lies in it too.
pub fn stay_in_map()
    ensures sets { (m : Map) → SetsStay m }
    ensures tables { (m : Map) → TablesStay m }
    ensures readbacks { ReadBacksInMap }
{}
