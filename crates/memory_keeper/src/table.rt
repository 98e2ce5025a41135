// A table: rows in the order of their keys.
ghost use Rattle.std.specs.Prelude.{◌≡◌, ◌-◌, ◌<◌, ◌^◌, [], Some, false, length, find, filter, map, slice_get, OnOk, OnErr, OnSome, IfOk, IfSome, IfNone};
ghost use Rattle.std.specs.Prelude.{option_copied};
ghost use Rattle.std.specs.List.{AllByRecursion};
ghost use Rattle.std.specs.Ordering.{is_gt, is_lt};
ghost use Rattle.office_tables.specs.Prelude.{with_row, IsAscending, Visits};
ghost use Rattle.memory_keeper.specs.Keyed.{by_key, has_key, is_behind, is_between};
ghost use Rattle.memory_keeper.specs.Unplaced.{unplaced, with_other, without};

use office_tables::Sink;
use std::alloc::{AllocError, Global};
use std::collections::BTreeMap;
use std::marker::Model;
use std::mem;
use std::ops::Bound;

/// A row that is known by its key.
pub(crate) trait Row: Drop {
    /// The rows stand in the order of their keys.
    type Key: Ord + Drop;

    ghost key_of: { Self → Self.Key };

    /// The key of the row.
    fn key(&self) -> Self::Key
        ensures { result ≡ key_of self.now };
}

/// What a visit hands over of a row.
pub(crate) trait PartOf<R>: Drop {
    ghost part: { R → Self };

    /// The part of the row.
    fn of_row(row: &R) -> Self
        ensures { result ≡ part row.now };
}

/// Rows in the order of their keys, no two of them with the same key.
#[derive(Drop)]
pub(crate) struct Table<R: Row> {
    rows: BTreeMap<R::Key, R>,
}

impl<R: Row> Model for Table<R> {
    ghost use Rattle.std.specs.Prelude.{List};
    ghost use Rattle.std.specs.BTreeMap.{values};
    ghost use Rattle.memory_keeper.specs.Keyed.{AreKeyed};

    ghost Value = { List R };

    ghost view = { λ t. values t.rows };

    ghost invariant = { λ t. AreKeyed R.Key.cmp R.key_of t.rows.entries };
}

impl<R: Row> Table<R> {
    /// A table of no rows.
    pub(crate) fn new(alloc: Global) -> Table<R>
        ensures { result ≡ [] }
    {
        Table {
            rows: BTreeMap::new(alloc),
        }
    }

    /// The rows stand in the order of their keys. It does nothing.
    pub(crate) fn fact_ascending(&self)
        ensures { IsAscending (by_key R.Key.cmp R.key_of) self.now }
    {
        let _count = self.rows.len();
    }

    /// The row with the key.
    pub(crate) fn get(&self, key: &R::Key) -> Option<&R>
        ensures { option_copied result ≡ find (has_key R.Key.cmp R.key_of key.now) self.now }
    {
        self.rows.get(key)
    }

    /// How many rows there are.
    pub(crate) fn len(&self) -> usize
        ensures len { result ≡ length self.now }
        ensures bound { result < 2 ^ 63 }
    {
        self.rows.len()
    }

    /// The row with the greatest key.
    pub(crate) fn last(&self) -> Option<&R>
        ensures last { option_copied result ≡ slice_get self.now (length self.now - 1) }
        ensures greatest { IfSome result (λ row. AllByRecursion (λ other.
            is_lt (by_key R.Key.cmp R.key_of row.now other) ≡ false) self.now) }
    {
        let (_, row) = self.rows.last_key_value()?;
        Some(row)
    }

    /// The row with the greatest of the keys from the first to the last.
    pub(crate) fn last_between(&self, first: R::Key, last: R::Key) -> Option<&R>
        requires { is_gt (R.Key.cmp first last) ≡ false }
        ensures last { option_copied result ≡ slice_get (filter
            (is_between R.Key.cmp R.key_of first last) self.now)
            (length (filter (is_between R.Key.cmp R.key_of first last) self.now) - 1) }
        ensures greatest { IfSome result (λ row. AllByRecursion (λ other.
            is_lt (by_key R.Key.cmp R.key_of row.now other) ≡ false)
            (filter (is_between R.Key.cmp R.key_of first last) self.now)) }
    {
        let (_, row) = self.rows.range(first..=last).next_back()?;
        Some(row)
    }

    /// Puts a row in its place, and gives the row that had its key before.
    pub(crate) fn insert(&mut self, row: R) -> Result<Option<R>, AllocError>
        ensures placed { OnOk result (self.new
            ≡ with_row (by_key R.Key.cmp R.key_of) row self.old) }
        ensures undone { IfOk result (λ old. unplaced (by_key R.Key.cmp R.key_of) row old self.new
            ≡ self.old) }
        ensures err { OnErr result (self.new ≡ self.old) }
    {
        Ok(self.rows.insert(row.key(), row)?)
    }

    /// Puts a row in place of the one that has its key, and gives that one. Where there is none,
    /// nothing changes. This takes no memory.
    pub(crate) fn replace(&mut self, row: R) -> Option<R>
        ensures replaced { result ≡ find (has_key R.Key.cmp R.key_of (R.key_of row)) self.old }
        ensures placed { OnSome result (self.new ≡ with_row (by_key R.Key.cmp R.key_of) row
            self.old) }
        ensures other_rows { self.new ≡ with_other (has_key R.Key.cmp R.key_of (R.key_of row)) row
            self.old }
        ensures undone { IfSome result (λ old. unplaced (by_key R.Key.cmp R.key_of) row
            (Some old) self.new ≡ self.old) }
        ensures none { IfNone result (self.new ≡ self.old) }
    {
        let stored = self.rows.get_mut(&row.key())?;
        Some(mem::replace(stored, row))
    }

    /// Takes out the row with the key, and gives it. This takes no memory.
    pub(crate) fn remove(&mut self, key: &R::Key) -> Option<R>
        ensures removed { result ≡ find (has_key R.Key.cmp R.key_of key.now) self.old }
        ensures other_rows { self.new ≡ without (has_key R.Key.cmp R.key_of key.now) self.old }
    {
        self.rows.remove(key)
    }

    /// Takes a row out again, and puts the one that had its key before in its place. This takes
    /// no memory.
    pub(crate) fn undo_insert(&mut self, row: &R, old: Option<R>)
        ensures { self.new ≡ unplaced (by_key R.Key.cmp R.key_of) row.now old self.old }
    {
        match old {
            None => {
                self.remove(&row.key());
            }
            Some(old) => {
                self.replace(old);
            }
        }
    }

    /// Hands the rows from the first key to the last to the sink, in the order of their keys,
    /// while it goes on.
    pub(crate) fn visit<S: Sink<R>>(&self, first: R::Key, last: R::Key, sink: &mut S)
        requires { is_gt (R.Key.cmp first last) ≡ false }
        ensures { Visits S.takes sink.old (filter (is_between R.Key.cmp R.key_of first last)
            self.now) sink.new }
    {
        for (_, row) in self.rows.range(first..=last) {
            if !sink.take(row) {
                return;
            }
        }
    }

    /// Hands the rows behind the first key, up to the last one, to the sink, in the order of their
    /// keys, while it goes on.
    pub(crate) fn visit_behind<S: Sink<R>>(&self, first: R::Key, last: R::Key, sink: &mut S)
        requires { is_gt (R.Key.cmp first last) ≡ false }
        ensures { Visits S.takes sink.old (filter (is_behind R.Key.cmp R.key_of first last)
            self.now) sink.new }
    {
        let behind = (Bound::Excluded(first), Bound::Included(last));
        for (_, found) in self.rows.range(behind) {
            if !sink.take(found) {
                return;
            }
        }
    }
}

impl<R: Row> Table<R> {
    /// Hands a part of each of the rows behind the first key, up to the last one, to the sink, in
    /// the order of their keys, while it goes on.
    pub(crate) fn visit_parts_behind<P: PartOf<R>, S: Sink<P>>(
        &self,
        first: R::Key,
        last: R::Key,
        sink: &mut S,
    )
        requires { is_gt (R.Key.cmp first last) ≡ false }
        ensures { Visits S.takes sink.old (map P.part (filter
            (is_behind R.Key.cmp R.key_of first last) self.now)) sink.new }
    {
        let parts = (Bound::Excluded(first), Bound::Included(last));
        for (_, found) in self.rows.range(parts) {
            if !sink.take(&P::of_row(found)) {
                return;
            }
        }
    }
}

impl<R: Row + Copy> Table<R> {
    /// Puts a copy of a row in its place.
    pub(crate) fn insert_copy(&mut self, row: &R) -> Result<(), AllocError>
        ensures placed { OnOk result (self.new ≡ with_row (by_key R.Key.cmp R.key_of) row.now
            self.old) }
        ensures err { OnErr result (self.new ≡ self.old) }
    {
        self.insert(*row)?;
        Ok(())
    }
}
