// Beginnings of validity as the texts of a column.
ghost use Rattle.std.specs.Prelude.{◌≡◌, option_map};

use id_ranges::NotBefore;

/// The text of a beginning of validity as a column has it.
pub(crate) fn not_before_text(not_before: &Option<NotBefore>) -> Option<&str>
    ensures { option_map (λ text. text.now) result ≡ not_before.now }
{
    match not_before {
        Some(not_before) => Some(not_before.as_str()),
        None => None,
    }
}
