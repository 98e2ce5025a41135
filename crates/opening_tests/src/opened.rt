//! A store that is made, held for its site's text and for what grew from it, and refused as it is to
//! any other. Of any file `open` says what it is behind each answer (`opened`, `refused`).

use office_store::{Absent, open};
use site_core::read_site_text;
use sqlite_disk::Unknown;
use std::test::Fail;

const SITE: &str = "customer = []\n";

const GROWN: &str = r#"[[customer]]
name = "acme"
issuer = ["acme-ca"]
[[customer.seat]]
name = "a1"
token = "ba7816bf8f01cfea414140de5dae2223b00361a396177a9cb410ff61f20015ad"
"#;

/// The number of the fault where the store is opened for a text and closed again, or 0.
fn fault_of(rt: &HostRuntime, text: &str, absent: Absent) -> Result<u8, Fail> {
    let site = read_site_text(rt.alloc(), text)?;
    match open(rt, rt.alloc(), "opened.db", Unknown, &site, absent) {
        Ok(keep) => {
            keep.into_connection().close()?;
            Ok(0)
        }
        Err(fault) => Ok(fault.number()),
    }
}

#[test]
fn is_made_held_and_refused(rt: HostRuntime) -> Result<(), Fail> {
    for (text, absent, number) in [
        (SITE, Absent::Refuse, 2),
        (SITE, Absent::Make, 0),
        (SITE, Absent::Refuse, 0),
        (GROWN, Absent::Refuse, 0),
        (SITE, Absent::Refuse, 1),
        (GROWN, Absent::Refuse, 0),
    ] {
        let found = fault_of(&rt, text, absent)?;
        assert_eq!(rt; found, number, "{text}");
    }
    Ok(())
}
