// The maps, found by their numbers and by their texts.
ghost use Rattle.std.specs.Prelude.{◌≡◌, ◌≤◌, [], None, find, map, option_map, IfOk, IfSome, OnErr, option_copied};
ghost use Rattle.office_tables.specs.Prelude.{largest_number, one_more, greatest, has_body, has_id, map_cmp, with_row, IsAscending};
ghost use Rattle.memory_keeper.specs.Unplaced.{without};

use crate::table::Table;
use office_tables::{MapRow, Unkept, one_more};
use std::alloc::Global;
use std::collections::BTreeMap;
use std::marker::Model;
use text_core::Text;

/// The maps, and the number of each by its text, which no two have in common.
#[derive(Drop)]
pub(crate) struct MapRows {
    rows: Table<MapRow>,
    ids: BTreeMap<String, u64>,
}

impl Model for MapRows {
    ghost use Rattle.std.specs.Prelude.{List};
    ghost use Rattle.office_tables.specs.declared.rows.MapRow.{MapRow};
    ghost use Rattle.memory_keeper.specs.Indexing.{AreFoundByText};

    ghost Value = { List MapRow };

    ghost view = { λ m. m.rows };

    ghost invariant = { λ m. AreFoundByText m.rows m.ids };
}

impl MapRows {
    /// No maps.
    pub(crate) fn new(alloc: Global) -> MapRows
        ensures { result ≡ [] }
    {
        MapRows {
            rows: Table::new(alloc),
            ids: BTreeMap::new(alloc),
        }
    }

    /// The maps stand in the order of their keys. It does nothing.
    pub(crate) fn fact_ascending(&self)
        ensures { IsAscending map_cmp self.now }
    {
        self.rows.fact_ascending();
    }

    /// The map with a number.
    pub(crate) fn get(&self, id: u64) -> Option<&MapRow>
        ensures { option_copied result ≡ find (has_id id) self.now }
    {
        self.rows.get(&id)
    }

    /// The number of the map with a text.
    pub(crate) fn id_of(&self, body: &str) -> Option<u64>
        ensures { result ≡ option_map (λ m. m.id) (find (has_body body.now) self.now) }
    {
        self.ids.get(body).copied()
    }

    /// Adds a map with the text under a number that no other has, and gives the number. It is
    /// refused where a map has the text.
    pub(crate) fn add(&mut self, body: Text) -> Result<u64, Unkept>
        ensures free { IfOk result (λ id. find (has_id id) self.old ≡ None) }
        ensures id_fits { IfOk result (λ id. id ≤ largest_number) }
        ensures placed { IfOk result (λ id. self.new ≡ with_row map_cmp
            (record { id = id; body = body }) self.old) }
        ensures undone { IfOk result (λ id. without (has_id id) self.new ≡ self.old) }
        ensures err { OnErr result (self.new ≡ self.old) }
    {
        let None = self.id_of(body.as_str()) else {
            return Err(Unkept::without_error());
        };
        let Some(id) = self.free_id() else {
            return Err(Unkept::without_error());
        };
        let key = body.copy()?.into_string();
        self.rows.insert(MapRow { id, body })?;
        match self.ids.insert(key, id) {
            Ok(_) => Ok(id),
            Err(refused) => {
                self.rows.remove(&id);
                Err(Unkept::from(refused))
            }
        }
    }

    /// A number that no map has: one above the greatest, where a table has room for it.
    fn free_id(&self) -> Option<u64>
        ensures exact { result ≡ one_more (greatest (map (λ m. m.id) self.now)) }
        ensures free { IfSome result (λ id. find (has_id id) self.now ≡ None) }
    {
        match self.rows.last() {
            None => one_more(0),
            Some(map) => one_more(map.id),
        }
    }

    /// Takes a map out again. This takes no memory.
    pub(crate) fn remove(&mut self, id: u64)
        ensures { self.new ≡ without (has_id id) self.old }
    {
        if let Some(map) = self.rows.remove(&id) {
            self.ids.remove(map.body.as_str());
        }
    }
}
