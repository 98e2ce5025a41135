// The names of a site's customers, sorted.
ghost use Rattle.std.specs.Prelude.{◌≡◌, IfOk, OnOk};
ghost use Rattle.office_tables.specs.Prelude.{with_row, text_cmp};
ghost use Rattle.yield_report.specs.Prelude.{sorted_customers};

use site_core::Site;
use std::alloc::{AllocError, Global};
use std::cmp::Ordering;
use text_core::Name;

/// Puts a name in its place among names that are in the order of their bytes.
fn place(names: &mut Vec<Name>, name: Name) -> Result<(), AllocError>
    ensures { OnOk result (names.new.items ≡ with_row text_cmp name names.old.items) }
{
    for i in 0..names.len() {
        match name.cmp(&names[i]) {
            Ordering::Less => {
                names.insert(i, name)?;
                return Ok(());
            }
            Ordering::Equal => {
                names[i] = name;
                return Ok(());
            }
            Ordering::Greater => {}
        }
    }
    names.push(name)?;
    Ok(())
}

/// The names of a site's customers, in the order of their bytes.
pub(crate) fn customer_names(alloc: Global, site: &Site) -> Result<Vec<Name>, AllocError>
    ensures { IfOk result (λ names. names.items ≡ sorted_customers site.now) }
{
    let customers = site.customers();
    let mut names = Vec::new(alloc);
    for i in 0..customers.len() {
        place(&mut names, customers[customers.len() - 1 - i].name())?;
    }
    Ok(names)
}
