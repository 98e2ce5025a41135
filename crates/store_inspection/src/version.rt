// The schemas that a database of the office may have.
ghost use Rattle.std.specs.Prelude.{◌≡◌, ◌↔◌, IsTrue};
ghost use Rattle.store_inspection.specs.Prelude.{number_of_version};

/// A schema that a database of the office may have.
#[derive(Clone, Copy)]
pub enum Version {
    /// That of the first program, with no beginnings of validity, in which an address is a key of
    /// `given` for itself, named behind the other keys.
    V1a,
    /// That of the program after it, which names this key at the column.
    V1b,
    /// That of an earlier program, with no beginnings of validity.
    V1,
    /// That of a later one, with no text of the site.
    V2,
    /// This program's.
    V3,
}

impl Version {
    /// The number by which a store tells it.
    pub fn number(self) -> u32
        ensures { result ≡ number_of_version self }
    {
        match self {
            Version::V1a | Version::V1b | Version::V1 => 1,
            Version::V2 => 2,
            Version::V3 => 3,
        }
    }

    /// Whether no beginning of validity is told in it.
    pub fn has_no_validity_row(self) -> bool
        ensures { IsTrue result ↔ (number_of_version self ≡ 1) }
    {
        self.number() == 1
    }
}
