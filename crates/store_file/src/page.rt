//! The page that an empty database is (SQLite's file format, sections 1.3 and 1.6).
ghost use Rattle.std.specs.Prelude.{◌≡◌, ◌*◌, ◌+◌, slice_index};
ghost use Rattle.store_file.specs.Page.{IsPage};
ghost use Rattle.sqlite_pool.specs.Header.{IsHeader, first_trunk, free_count, stated_page_count};

/// How many bytes a page of a new store has: a power of two from 512 to 32,768. A store that is there keeps the
/// pages that it has.
pub const PAGE_BYTES: usize = 1024;

/// How many bytes the head of the page has, behind which it has zeros alone.
const HEAD_BYTES: usize = 108;

/// The high byte of the number of a page's bytes.
const HIGH: u8 = (PAGE_BYTES / 256) as u8;

/// The low byte of the number of a page's bytes.
const LOW: u8 = (PAGE_BYTES % 256) as u8;

/// The head of the page as SQLite makes it where it is asked for pages of this size and for a write-ahead log: the
/// format's name, the size, the log (2, 2), no reserved bytes, the fractions (64, 32, 32), a first change, one page,
/// no free pages, no schema yet, and the release that the kit writes for, 3.45.0. From byte 100 on stands the root of
/// the schema's table, a leaf (13) without rows, whose content begins at the page's end.
const HEAD: [u8; HEAD_BYTES] = [
    83, 81, 76, 105, 116, 101, 32, 102, 111, 114, 109, 97, 116, 32, 51, 0, HIGH, LOW, 2, 2, 0, 64,
    32, 32, 0, 0, 0, 1, 0, 0, 0, 1, 0, 0, 0, 0, 0, 0, 0, 0, 0, 0, 0, 0, 0, 0, 0, 0, 0, 0, 0, 0, 0,
    0, 0, 0, 0, 0, 0, 0, 0, 0, 0, 0, 0, 0, 0, 0, 0, 0, 0, 0, 0, 0, 0, 0, 0, 0, 0, 0, 0, 0, 0, 0, 0,
    0, 0, 0, 0, 0, 0, 0, 0, 0, 0, 1, 0, 46, 118, 136, 13, 0, 0, 0, 0, HIGH, LOW, 0,
];

/// The page of an empty database, which is the whole file.
pub fn empty_database() -> [u8; PAGE_BYTES]
    ensures page { IsPage result }

    // The kit's store can keep a file with this header, of one page and no free one.
    ensures header { IsHeader PAGE_BYTES HEAD }
    ensures one_page { stated_page_count HEAD ≡ 1 }
    ensures none_free { (first_trunk HEAD ≡ 0) × (free_count HEAD ≡ 0) }

    // The root of the schema's table is a leaf without cells, whose content begins at the page's end.
    ensures leaf { slice_index HEAD 100 ≡ 13 }
    ensures no_cells { slice_index HEAD 103 * 256 + slice_index HEAD 104 ≡ 0 }
    ensures no_content { slice_index HEAD 105 * 256 + slice_index HEAD 106 ≡ PAGE_BYTES }
{
    let mut page = [0; PAGE_BYTES];
    page[..HEAD_BYTES].copy_from_slice(&HEAD);
    page
}
