//! What is burnt on a blank chip so that nobody debugs it, in which order, and what is said of what
//! the chip shows then. Of any map, chip and wish `plan_law` and `match_law` say this.

use fuse_image::{BlockWords, Image};
use fuse_plan::{ChipFault, ReadBack, Verdict, Want, Wish, compare, plan, redact};
use fusemap_core::{FuseMap, read_map};
use std::alloc::Global;
use std::test::Fail;
use text_core::Name;

const MAP: &str = r#"name = "small"
wr = "WR_DIS"
rd = "RD_DIS"
block = [{ words = 1 }]
field = [
    { name = "WR_DIS", block = 0, bit = 0, count = 4 },
    { name = "RD_DIS", block = 0, bit = 4, count = 4 },
    { name = "DEBUG_OFF", block = 0, bit = 8, count = 1, write = 1 },
]
"#;

/// What a chip of one word shows.
fn shown(alloc: Global, map: &FuseMap, word: u32) -> Result<ReadBack, Fail> {
    let mut blocks = Vec::new(alloc);
    blocks.push([word].as_slice().to_vec(alloc)?)?;
    let words = BlockWords::new(blocks.as_slice()).ok_or("no words")?;
    Ok(redact(map, &words))
}

#[test]
fn burns_a_bit_before_its_lock(rt: HostRuntime) -> Result<(), Fail> {
    let map = read_map(rt.alloc(), MAP)?;
    let field = Name::parse("DEBUG_OFF").ok_or("no name")?;
    let (bit, lock) = (Want::Bit(0), Want::WriteLock);
    let wishes = [Wish { field, want: bit }, Wish { field, want: lock }];
    let blank = Image::empty();
    let work = plan(&map, &blank, &wishes).map_err(|_| "no plan")?;
    assert!(rt; work.first.to_words()[0] == 0x100);
    assert!(rt; work.second.to_words()[0] == 0x2);
    for (word, wanted) in [(0x100, "match"), (0, "short"), (0x300, "stray")] {
        let seen = shown(rt.alloc(), &map, word)?;
        let (verdict, _) = compare(&map, &blank, &work.first, &work.keys, &seen);
        let told = match verdict {
            Verdict::Match => "match",
            Verdict::Short(_) => "short",
            Verdict::Fault(ChipFault::Stray) => "stray",
            Verdict::Fault(_) => "another fault",
        };
        assert_eq!(rt; told, wanted, "{word}");
    }
    Ok(())
}
