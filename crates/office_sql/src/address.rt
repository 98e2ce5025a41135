// Hardware addresses as the texts of a column.
ghost use Rattle.std.specs.Prelude.{◌≡◌, Some, IfOk, option_and_then, option_map, string_bytes};
ghost use Rattle.id_ranges.specs.Mac as spec;
ghost use Rattle.id_ranges.specs.Prelude.{mac_of_text};

use id_ranges::Mac;
use sqlite::Error;
use std::alloc::Global;

/// The address as `Mac` prints it, which is read back as it was, since its value is below 2^48.
#[tactic(auto, using(id_ranges::proofs::MacTexts::mac_read_back))]
pub(crate) fn mac_text(alloc: Global, mac: Mac) -> Result<String, Error>
    ensures is { IfOk result (λ text. string_bytes text ≡ spec.mac_text mac) }
    ensures back { IfOk result (λ text. mac_of_text (string_bytes text) ≡ Some mac) }
{
    Ok(Mac::new(mac.value()).to_string(alloc)?)
}

/// The text of an address as a column has it, none where there is none. Fails where memory runs out.
pub(crate) fn address_text(alloc: Global, mac: Option<Mac>) -> Result<Option<String>, Error>
    ensures is { IfOk result (λ text. option_map (λ t. string_bytes t) text
        ≡ option_map spec.mac_text mac) }
    ensures back { IfOk result (λ text.
        option_and_then mac_of_text (option_map (λ t. string_bytes t) text) ≡ mac) }
{
    match mac {
        Some(mac) => Ok(Some(mac_text(alloc, mac)?)),
        None => Ok(None),
    }
}
