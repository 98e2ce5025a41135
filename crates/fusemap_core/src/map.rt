// Fuse maps, and what they tell of their fields.
ghost use Rattle.std.specs.Prelude.{◌≡◌, ◌≤◌, All, IfOk, IfSome, find, length, option_and_then};
ghost use Rattle.fusemap_core.specs.Map as map;
ghost use Rattle.fusemap_core.specs.Map.{IsFieldOf, IsInBlock, IsMap, IsPosition, IsSmall, IsSmallPosition, field_named, field_of, holds, id_of};
ghost use Rattle.fusemap_core.specs.Map.{is_field_named};

use crate::field::Field;
use crate::locks;
use crate::pos::Pos;
use std::alloc::AllocError;
use std::marker::Model;
use text_core::Name;

/// The most blocks of a map.
pub const BLOCK_LIMIT: usize = 4;

/// The most words of a block. A word has 32 bits.
pub const WORD_LIMIT: usize = 8;

/// The most fields of a map.
pub const FIELD_LIMIT: usize = 128;

/// A fuse map: the blocks of a chip's fuses, the fields in them, and which of the fields are the
/// lock fields and the coding field. A field that has a write lock or a read lock is governed by a
/// bit of that lock field (ESP32's eFuse controller).
#[derive(Drop)]
pub struct FuseMap {
    name: Name,
    blocks: Vec<u8>,
    fields: Vec<Field>,
    wr: Name,
    rd: Name,
    coding: Option<Name>,
}

impl Model for FuseMap {
    ghost use Rattle.fusemap_core.specs.Map.{Map, IsMap};

    ghost Value = { Map };

    ghost view = { λ m. record {
      name = m.name;
      blocks = m.blocks.items;
      fields = m.fields.items;
      wr = m.wr;
      rd = m.rd;
      coding = m.coding;
    } };

    ghost invariant = { λ m. IsMap (record {
      name = m.name;
      blocks = m.blocks.items;
      fields = m.fields.items;
      wr = m.wr;
      rd = m.rd;
      coding = m.coding;
    }) };
}

/// A field of a map, by its place.
#[derive(Clone, Copy)]
pub struct FieldId {
    index: usize,
}

impl FuseMap {
    /// The map of these parts: `wr` and `rd` are the names of the lock fields, and `coding` that of
    /// the coding field.
    pub(crate) fn new(
        name: Name,
        blocks: Vec<u8>,
        fields: Vec<Field>,
        wr: Name,
        rd: Name,
        coding: Option<Name>,
    ) -> FuseMap
        requires { IsMap (record {
          name = name;
          blocks = blocks.items;
          fields = fields.items;
          wr = wr;
          rd = rd;
          coding = coding;
        }) }
        ensures { result ≡ record {
          name = name;
          blocks = blocks.items;
          fields = fields.items;
          wr = wr;
          rd = rd;
          coding = coding;
        } }
    {
        FuseMap {
            name,
            blocks,
            fields,
            wr,
            rd,
            coding,
        }
    }

    /// The map in memory of its own.
    pub fn copy(&self) -> Result<FuseMap, AllocError>
        ensures { IfOk result (λ copy. copy ≡ self.now) }
    {
        Ok(FuseMap {
            name: self.name,
            blocks: self.blocks.clone()?,
            fields: self.fields.clone()?,
            wr: self.wr,
            rd: self.rd,
            coding: self.coding,
        })
    }

    /// The name of the map.
    pub fn name(&self) -> Name
        ensures { result ≡ self.now.name }
    {
        self.name
    }

    /// The words of each block, in the order of their numbers: 1 to 4 blocks of 1 to 8 words.
    pub fn blocks(&self) -> &[u8]
        ensures same { result.now ≡ self.now.blocks }
        ensures few { (1 ≤ length result.now) × (length result.now ≤ 4) }
        ensures map { IsMap self.now }
    {
        self.blocks.as_slice()
    }

    /// The fields, in the text's order: 1 to 128.
    pub fn fields(&self) -> &[Field]
        ensures same { result.now ≡ self.now.fields }
        ensures small { All IsSmall result.now }
        ensures map { IsMap self.now }
    {
        self.fields.as_slice()
    }

    /// The field of a name.
    pub fn field(&self, name: &Name) -> Option<FieldId>
        ensures place { result ≡ id_of (is_field_named name.now) self.now }
        ensures is_one { IfSome result (IsFieldOf self.now) }
        ensures same { option_and_then (field_of self.now) result
            ≡ field_named name.now self.now.fields }
    {
        let index = locks::place_named(self.fields.as_slice(), name)?;
        Some(FieldId { index })
    }

    /// The field that a position lies in. A position may lie in no field.
    pub fn field_at(&self, pos: Pos) -> Option<FieldId>
        ensures place { result ≡ id_of (λ f. holds f pos) self.now }
        ensures is_one { IfSome result (IsFieldOf self.now) }
        ensures same { option_and_then (field_of self.now) result
            ≡ find (λ f. holds f pos) self.now.fields }
    {
        let index = locks::place_of(self.fields.as_slice(), pos)?;
        Some(FieldId { index })
    }

    /// A field of the map. It lies within one of the blocks.
    pub fn get(&self, id: FieldId) -> Field
        requires { IsFieldOf self.now id }
        ensures is_it { field_of self.now id ≡ Some result }
        ensures in_block { IsInBlock self.now.blocks result }
        ensures small { IsSmall result }
        ensures map { IsMap self.now }
    {
        self.fields[id.index]
    }

    /// The position that governs the writing of a field, if one does: a bit of the write lock
    /// field.
    pub fn write_lock(&self, id: FieldId) -> Option<Pos>
        requires { IsFieldOf self.now id }
        ensures lock { result ≡ option_and_then (map.write_lock self.now) (field_of self.now id) }
        ensures is_position { IfSome result (IsPosition self.now.blocks) }
        ensures small { IfSome result IsSmallPosition }
    {
        self.write_lock_of(&self.get(id))
    }

    /// The position that governs the writing of a field that is given itself, if one does.
    pub fn write_lock_of(&self, field: &Field) -> Option<Pos>
        ensures { result ≡ map.write_lock self.now field.now }
    {
        locks::lock_of(self.fields.as_slice(), &self.wr, field.write)
    }

    /// The position that governs the reading of a field, if one does: a bit of the read lock
    /// field.
    pub fn read_lock(&self, id: FieldId) -> Option<Pos>
        requires { IsFieldOf self.now id }
        ensures lock { result ≡ option_and_then (map.read_lock self.now) (field_of self.now id) }
        ensures is_position { IfSome result (IsPosition self.now.blocks) }
        ensures small { IfSome result IsSmallPosition }
    {
        self.read_lock_of(&self.get(id))
    }

    /// The position that governs the reading of a field that is given itself, if one does.
    pub fn read_lock_of(&self, field: &Field) -> Option<Pos>
        ensures { result ≡ map.read_lock self.now field.now }
    {
        locks::lock_of(self.fields.as_slice(), &self.rd, field.read)
    }

    /// Whether a position lies in a field whose write lock or read lock is `lock`.
    pub fn is_governed(&self, lock: Pos, pos: Pos) -> bool
        ensures { result ≡ map.is_governed self.now lock pos }
    {
        locks::is_governed(self.fields.as_slice(), &self.wr, &self.rd, lock, pos)
    }

    /// The name of the write lock field.
    pub fn wr(&self) -> Name
        ensures { result ≡ self.now.wr }
    {
        self.wr
    }

    /// The name of the read lock field.
    pub fn rd(&self) -> Name
        ensures { result ≡ self.now.rd }
    {
        self.rd
    }

    /// The name of the coding field, if there is one.
    pub fn coding(&self) -> Option<Name>
        ensures { result ≡ self.now.coding }
    {
        self.coding
    }
}
