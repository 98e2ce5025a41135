// The records at the start of a text.
ghost use Rattle.std.specs.Prelude.{◌≡◌, IfOk, map, take};
ghost use Rattle.csv.specs.Reading.{default_config, records, strip_bom};
ghost use Rattle.csv.specs.Records.{fields_of};

use csv::{ByteRecord, ReaderBuilder};
use std::alloc::{AllocError, Global};

/// The first records of a text, as many as `most`. A text in memory is read without fail, and its
/// records may have any number of fields, so an error is want of memory.
pub(crate) fn first_records(
    alloc: Global,
    text: &[u8],
    most: usize,
) -> Result<Vec<ByteRecord>, AllocError>
    ensures { IfOk result (λ first. map fields_of first.items
        ≡ take most (records default_config (strip_bom text.now))) }
{
    let mut reader = ReaderBuilder::new()
        .has_headers(false)
        .flexible(true)
        .from_reader(alloc, text);
    let mut first = Vec::new(alloc);
    for _turn in 0..most {
        let mut record = ByteRecord::new(alloc);
        let Ok(found) = reader.read_byte_record(&mut record) else {
            return Err(AllocError);
        };
        if !found {
            return Ok(first);
        }
        first.push(record)?;
    }
    Ok(first)
}
