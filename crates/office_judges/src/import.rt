// Imports of serial numbers.
ghost use Rattle.std.specs.Prelude.{◌≡◌, ℕ, List, IfOk};
ghost use Rattle.office_tables.specs.Prelude.{ReadsOnly};
ghost use Rattle.office_rules.specs.Prelude.{import_result, row_of_import, issued_in};
ghost use Rattle.office_judges.specs.Judging.{IsJudged, Judges};
ghost use Rattle.office_judges.specs.Import.{additions};

use crate::Accepted;
use crate::records::row_of;
use crate::row_verdicts::{RowVerdict, look_up};
use id_ranges::{IdevidRecord, ImportRow};
use office_commands::{Change, NewImport, Refusal, import_body};
use office_tables::{Given, Keep, OfCustomer, Unkept, Write};
use site_core::Customer;
use std::alloc::Global;
use std::marker::Model;
use text_core::{Name, Serial};

/// The rows that an import adds, in order, and how many are present.
#[derive(Drop)]
struct MergedRows {
    added: Vec<ImportRow>,
    present: u64,
}

impl Model for MergedRows {
    ghost use Rattle.office_rules.specs.Prelude.{ImportResult};

    ghost Value = { ImportResult };

    ghost view = { λ m. record { added = m.added.items; present = m.present } };
}

/// What the rows of an import come to: those that it adds, or the serial number of the first row
/// that is at odds with what is given, by earlier rows too.
fn merge_rows<K: Keep>(
    alloc: Global,
    keep: &mut K,
    issuer: &Name,
    rows: &[ImportRow],
) -> Result<Result<MergedRows, Serial>, Unkept>
    requires { K.is_honest keep.old → K.is_open keep.old }
    ensures { ReadsOnly K.Keep keep.old keep.new result (λ t merged.
        merged ≡ import_result (issued_in issuer.now t) rows.now) }
{
    let mut added = Vec::new(alloc);
    let mut present = 0;
    for row in rows {
        match look_up(keep, issuer, added.as_slice(), row)? {
            RowVerdict::Conflict => return Ok(Err(row.serial)),
            RowVerdict::Present => present += 1,
            RowVerdict::New => added.push(*row)?,
        }
    }
    Ok(Ok(MergedRows { added, present }))
}

/// The row that keeps a row of an import.
fn row_of_import(issuer: &Name, row: &ImportRow) -> Given
    ensures { result ≡ row_of_import issuer.now row.now }
{
    let idevid = IdevidRecord::of(*issuer, row.serial, row.key, None, None);
    row_of(&idevid, None)
}

/// The writes that add the rows of an import, in order.
fn additions(
    alloc: Global,
    customer: &Name,
    issuer: &Name,
    rows: &[ImportRow],
) -> Result<Vec<Write>, Unkept>
    ensures { IfOk result (λ writes. writes.items ≡ additions customer.now issuer.now rows.now) }
{
    let mut writes = Vec::new(alloc);
    for row in rows {
        writes.push(Write::AddGiven(OfCustomer {
            customer: *customer,
            row: row_of_import(issuer, row),
        }))?;
    }
    Ok(writes)
}

/// What an import of serial numbers comes to: the lowest refusal that holds, or the records of all
/// rows that aren't present and the body that counts both. It reads only, and asks that an honest
/// keeper is open, as it is after an answer. `Refusal::Unkept` is want of memory or a failing store.
pub(crate) fn judge_import<K: Keep>(
    alloc: Global,
    keep: &mut K,
    customer: &Customer,
    import: &NewImport,
) -> Result<Accepted, Refusal>
    requires { K.is_honest keep.old → K.is_open keep.old }
    ensures { Judges K.Keep keep.old keep.new result (λ t judgement. (seat : List ℕ) →
        IsJudged customer.now seat t (Change.Import import.now) judgement) }
{
    let rows = import.rows.as_ref().ok_or(Refusal::BadSerial)?;
    if !customer.has_issuer(&import.issuer) {
        return Err(Refusal::ForeignIssuer);
    }
    let merged = match merge_rows(alloc, keep, &import.issuer, rows.as_slice())? {
        Ok(merged) => merged,
        Err(serial) => return Err(Refusal::ImportConflict(serial)),
    };
    let added = merged.added.as_slice();
    let body = import_body(alloc, added.len() as u64, merged.present)?;
    let writes = additions(alloc, &customer.name(), &import.issuer, added)?;
    Ok(Accepted { body, writes })
}
