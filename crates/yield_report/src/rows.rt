// The text of a report: rows of comma-separated fields (RFC 4180), each with a line feed behind it.
ghost use Rattle.std.specs.Prelude.{◌≡◌, ◌∷◌, ◌++◌, IfOk, OnOk, decimal, map, string_bytes};
ghost use Rattle.csv.specs.Writing.{default_writer, row_text};
ghost use Rattle.yield_report.specs.Prelude.{named_numbers, with_report_row, number_names, order_header, site_header};

use crate::yields::{NAMES, Yield};
use csv::WriterBuilder;
use std::alloc::{AllocError, Global};
use text_core::Name;

/// The text of one row.
fn row_bytes(alloc: Global, fields: &[&[u8]]) -> Result<Vec<u8>, AllocError>
    ensures { IfOk result (λ text.
        text.items ≡ row_text default_writer (map (λ f. f.now) fields.now)) }
{
    let mut writer = WriterBuilder::new().from_writer(Vec::new(alloc));
    let Ok(()) = writer.write_fields(fields) else {
        return Err(AllocError);
    };
    match writer.into_inner() {
        Ok(text) => Ok(text),
        Err(_) => Err(AllocError),
    }
}

/// Appends one row to a text.
fn append_row(alloc: Global, text: &mut Vec<u8>, fields: &[&[u8]]) -> Result<(), AllocError>
    ensures { OnOk result (text.new.items
        ≡ with_report_row text.old.items (map (λ f. f.now) fields.now)) }
{
    let row = row_bytes(alloc, fields)?;
    text.extend_from_slice(row.as_slice())
}

/// Appends a header: names of its own, and those of the numbers.
fn append_header(alloc: Global, text: &mut Vec<u8>, front: &[&[u8]]) -> Result<(), AllocError>
    ensures { OnOk result (text.new.items
        ≡ with_report_row text.old.items (map (λ f. f.now) front.now ++ number_names)) }
{
    let mut fields = Vec::from_slice(alloc, front)?;
    for name in NAMES {
        fields.push(name.as_bytes())?;
    }
    append_row(alloc, text, fields.as_slice())
}

/// Appends the header of a customer's report.
pub(crate) fn append_order_header(alloc: Global, text: &mut Vec<u8>) -> Result<(), AllocError>
    ensures { OnOk result (text.new.items ≡ with_report_row text.old.items order_header) }
{
    append_header(alloc, text, &["order".as_bytes()])
}

/// Appends the header of a site's report.
pub(crate) fn append_site_header(alloc: Global, text: &mut Vec<u8>) -> Result<(), AllocError>
    ensures { OnOk result (text.new.items ≡ with_report_row text.old.items site_header) }
{
    append_header(alloc, text, &["customer".as_bytes(), "orders".as_bytes()])
}

/// Numbers in decimal.
fn number_texts(alloc: Global, numbers: &[u64]) -> Result<Vec<String>, AllocError>
    ensures { IfOk result (λ texts. map string_bytes texts.items ≡ map decimal numbers.now) }
{
    let mut texts = Vec::with_capacity(alloc, numbers.len())?;
    for number in numbers {
        texts.push(number.to_string(alloc)?)?;
    }
    Ok(texts)
}

/// Appends a line: a name, and numbers in decimal.
pub(crate) fn append_named(
    alloc: Global,
    text: &mut Vec<u8>,
    name: &Name,
    numbers: &[u64],
) -> Result<(), AllocError>
    ensures { OnOk result (text.new.items
        ≡ with_report_row text.old.items (named_numbers name.now numbers.now)) }
{
    let texts = number_texts(alloc, numbers)?;
    let mut fields = Vec::with_capacity(alloc, texts.len() + 1)?;
    fields.push(name.as_str().as_bytes())?;
    for number in &texts {
        fields.push(number.as_bytes())?;
    }
    append_row(alloc, text, fields.as_slice())
}

/// Appends the line of a customer: how many orders it has, and the sums of their numbers.
pub(crate) fn append_customer(
    alloc: Global,
    text: &mut Vec<u8>,
    customer: &Name,
    orders: u64,
    sums: &Yield,
) -> Result<(), AllocError>
    ensures { OnOk result (text.new.items
        ≡ with_report_row text.old.items (named_numbers customer.now (orders ∷ sums.now))) }
{
    let mut numbers = Vec::from_slice(alloc, &[orders])?;
    numbers.extend_from_slice(sums)?;
    append_named(alloc, text, customer, numbers.as_slice())
}
