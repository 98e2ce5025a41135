// Names of stores.
ghost use Rattle.std.specs.Prelude.{◌≡◌, ◌↔◌, false, IsTrue};
ghost use Rattle.store_file.specs.Names.{NamesNoFile};

/// Whether a path may be the name of a file.
pub fn may_name_file(path: &str) -> bool
    ensures { NamesNoFile path.now → result ≡ false }
{
    !path.is_empty() && path != ":memory:" && !path.starts_with("file:")
}
