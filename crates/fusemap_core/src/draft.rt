// The parts of a map as its text has them, before they are judged.
use std::marker::Model;
use text_core::Name;

/// A field as a text gives it: its numbers are whole numbers of TOML, below 2^63.
#[derive(Clone, Copy)]
pub(crate) struct FieldDraft {
    pub(crate) name: Name,
    pub(crate) block: u64,
    pub(crate) bit: u64,
    pub(crate) count: u64,
    pub(crate) write: Option<u64>,
    pub(crate) read: Option<u64>,
    pub(crate) key: bool,
}

impl Model for FieldDraft {
    ghost use Rattle.std.specs.Prelude.{◌+◌, ◌^◌, ◌<◌};
    ghost use Rattle.fusemap_core.specs.declared.field.Field.{Field};

    ghost Value = { Field };

    ghost view = { λ f. record {
      name = f.name;
      block = f.block;
      bit = f.bit;
      count = f.count;
      write = f.write;
      read = f.read;
      key = f.key;
    } };

    ghost invariant = { λ f. f.bit + f.count < 2 ^ 64 };

    ghost inverse = { λ f. record {
      name = f.name;
      block = f.block;
      bit = f.bit;
      count = f.count;
      write = f.write;
      read = f.read;
      key = f.key;
    } };
}

/// A map as a text gives it, which may have faults.
#[derive(Drop)]
pub(crate) struct MapDraft {
    pub(crate) name: Name,
    pub(crate) blocks: Vec<u8>,
    pub(crate) fields: Vec<FieldDraft>,
    pub(crate) wr: Name,
    pub(crate) rd: Name,
    pub(crate) coding: Option<Name>,
}

impl Model for MapDraft {
    ghost use Rattle.fusemap_core.specs.Map.{Map};

    ghost Value = { Map };

    ghost view = { λ m. record {
      name = m.name;
      blocks = m.blocks.items;
      fields = m.fields.items;
      wr = m.wr;
      rd = m.rd;
      coding = m.coding;
    } };
}
