// The parameters of a query.
ghost use Rattle.std.specs.Prelude.{◌≡◌, option_map};
ghost use Rattle.station_requests.specs.Prelude.{text_parameter};

use http_frames::fields::{Occurrence, only_parameter};
use std::str;

/// The text of a parameter that a query gives, if it gives just one.
pub fn text_parameter<'q>(query: &'q [u8], name: &[u8]) -> Option<&'q str>
    ensures { option_map (λ text. text.now) result ≡ text_parameter name.now query.now }
{
    let Occurrence::Once(value) = only_parameter(query, name) else {
        return None;
    };
    match str::from_utf8(value) {
        Ok(text) => Some(text),
        Err(_) => None,
    }
}
