//! The text of a site as large as a site may be.
use crate::numbered::numbered;
use std::alloc::{AllocError, Global};

/// A customer with as many issuers as it may have, in which `@` stands for its number.
const CUSTOMER: &str = r#"[[customer]]
name = "c@"
issuer = ["i@-1", "i@-2", "i@-3", "i@-4", "i@-5", "i@-6", "i@-7", "i@-8"]
"#;

/// A pool of the customer's, in which `#` stands for its own number.
const POOL: &str = r##"[[customer.pool]]
first = "0200@#0000"
count = 65536
"##;

/// A seat of the customer's.
const SEAT: &str = r##"[[customer.seat]]
name = "s@-#"
token = "000000000000000000000000000000000000000000000000000000000000@#"
"##;

/// What stands for the names of the last customer, its last issuer and its last seat, and that seat's
/// token: what stands there in their place.
const LAST: &[(&str, &str)] = &[
    ("\"c73\"", "\"acme\""),
    ("\"i73-8\"", "\"acme-ca\""),
    ("\"s73-73\"", "\"a1\""),
    (
        "0000000000000000000000000000000000000000000000000000000000007373",
        "ba7816bf8f01cfea414140de5dae2223b00361a396177a9cb410ff61f20015ad",
    ),
];

/// A customer with as many issuers, pools and seats as it may have: 8, 16 and 64.
fn full_customer(alloc: Global) -> Result<String, AllocError> {
    let pools = numbered(alloc, POOL, "#", 10, 26)?;
    let seats = numbered(alloc, SEAT, "#", 10, 74)?;
    format!(in alloc; "{CUSTOMER}{pools}{seats}")
}

/// The site of 64 customers, each with 64 seats, 8 issuers and 16 pools. The last seat of the last
/// customer is the sample's `a1` of acme, with its token and its issuer.
///
/// # Errors
///
/// Memory runs out.
pub fn full_site(alloc: Global) -> Result<String, AllocError> {
    let customer = full_customer(alloc)?;
    let mut text = numbered(alloc, customer.as_str(), "@", 10, 74)?;
    for row in LAST {
        text = text.as_str().replace(alloc, row.0, row.1)?;
    }
    Ok(text)
}
