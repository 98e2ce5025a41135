// Rows in memory of their own.
ghost use Rattle.std.specs.Prelude.{◌≡◌, IfOk};

use std::alloc::{AllocError, Global};
use std::marker::Model;

/// A row in memory of its own, so that what holds it is small. Clauses see the row.
#[derive(Drop)]
pub struct Boxed<T: Drop> {
    row: Box<T>,
}

impl<T: Drop> Model for Boxed<T> {
    ghost Value = { T };

    ghost view = { λ h. h.row.value };
}

impl<T: Drop> Boxed<T> {
    /// This row. It fails where there is no memory.
    pub fn new(alloc: Global, row: T) -> Result<Boxed<T>, AllocError>
        ensures { IfOk result (λ held. held ≡ row) }
    {
        Ok(Boxed {
            row: Box::new(alloc, row)?,
        })
    }

    /// The row.
    pub fn get(&self) -> &T
        ensures { result.now ≡ self.now }
    {
        &self.row
    }
}
