//! Plans of wishes, and what read-backs say of them, with the sample map.

use crate::chips::{COUNTED, COUNTED_DIGEST, ZEROS, chip};
use crate::esp32::ESP32;
use fuse_image::{Bits, Image, Keys, Pending};
use fuse_plan::{
    ChipFault, Number, PlanFault, ReadBack, Verdict, Want, Wish, compare, plan, redact,
};
use fusemap_core::{Field, FuseMap, read_map};
use std::alloc::Global;
use std::test::Fail;
use test_fixtures::samples::MAP;
use text_core::{Digest, Name};

/// What is asked of a field: numbers as hexadecimal digits, and keys as their digests.
#[derive(Clone, Copy)]
enum Ask {
    Bit(u64),
    Value(&'static str),
    Key(&'static str),
    WriteLock,
    ReadLock,
}

/// A field, and what is asked of it.
type WishRow = (&'static str, Ask);

/// A chip: the first and the last word of block 0, and the blocks 1 and 3. The other words are zeros.
type ChipRow = (u32, u32, [u32; 8], [u32; 8]);

/// Burnt fuses: words that aren't zero, by their numbers among the 32, and the digest of the key of
/// block 1, or an empty text for none.
type Part = (&'static [(usize, u32)], &'static str);

const NOTHING: Part = (&[], "");

/// The SHA-256 digests of the messages `abc` and `hello`.
const ABC: &str = "ba7816bf8f01cfea414140de5dae2223b00361a396177a9cb410ff61f20015ad";

const HELLO: &str = "2cf24dba5fb0a30e26e83b2ac5b9e29e1b161e5c1fa7425e73043362938b9824";

/// The number of the highest bit.
const TOP: &str = "8000000000000000000000000000000000000000000000000000000000000000";

const ONE: [u32; 8] = [1, 0, 0, 0, 0, 0, 0, 0];

const BLANK: ChipRow = (0, 0, ZEROS, ZEROS);

/// A chip whose bit is burnt and then locked.
const BIT_LOCKED: ChipRow = (0x4000, 0x40, ZEROS, ZEROS);

const KEYED: ChipRow = (0, 0, COUNTED, ZEROS);

const HALF: ChipRow = (0, 0, ZEROS, ONE);

const BIT: WishRow = ("JTAG_DISABLE", Ask::Bit(0));

const BIT_LOCK: WishRow = ("JTAG_DISABLE", Ask::WriteLock);

const NO_BIT: WishRow = ("JTAG_DISABLE", Ask::Value("0"));

const UNKNOWN: WishRow = ("NONE", Ask::Bit(0));

const PAST: WishRow = ("JTAG_DISABLE", Ask::Bit(1));

const PLAIN_KEY: WishRow = ("JTAG_DISABLE", Ask::Key(ABC));

const NO_LOCK: WishRow = ("WR_DIS", Ask::WriteLock);

const KEY: WishRow = ("BLOCK1", Ask::Key(ABC));

/// A registered chip, wishes, and the number of their lowest fault.
const FAULTS: &[(ChipRow, &[WishRow], u8)] = &[
    (BLANK, &[UNKNOWN], 1),
    (BLANK, &[PAST], 2),
    (BLANK, &[("JTAG_DISABLE", Ask::Value("2"))], 3),
    (BLANK, &[("RD_DIS", Ask::Value("10"))], 3),
    (BLANK, &[("RD_DIS", Ask::Value(TOP))], 3),
    (BIT_LOCKED, &[NO_BIT], 4),
    (BLANK, &[BIT, NO_BIT], 5),
    (BLANK, &[KEY, ("BLOCK1", Ask::Key(HELLO))], 5),
    (BLANK, &[PLAIN_KEY], 6),
    (BLANK, &[("CODING_SCHEME", Ask::Bit(0))], 6),
    ((0, 0, ONE, ZEROS), &[KEY], 7),
    ((0x80, 0, ZEROS, ZEROS), &[KEY], 8),
    ((0x4000, 0, ZEROS, ZEROS), &[BIT], 8),
    ((0x0001_0000, 0, ZEROS, ZEROS), &[KEY], 9),
    (BLANK, &[NO_LOCK], 10),
    (BLANK, &[NO_LOCK, PLAIN_KEY, PAST, UNKNOWN], 1),
    (BLANK, &[NO_LOCK, PLAIN_KEY, PAST], 2),
    (BLANK, &[NO_LOCK, PLAIN_KEY], 6),
    (BIT_LOCKED, &[BIT], 0),
];

/// A registered chip, wishes, and the two batches of their plan.
type PlanRow = (ChipRow, &'static [WishRow], Part, Part);

const PLANS: &[PlanRow] = &[
    (
        BLANK,
        &[("CODING_SCHEME", Ask::Value("0"))],
        NOTHING,
        NOTHING,
    ),
    (
        BLANK,
        &[("RD_DIS", Ask::Value("5"))],
        NOTHING,
        (&[(0, 0x0005_0000)], ""),
    ),
    (
        BLANK,
        &[("BLOCK3", Ask::Value(TOP))],
        (&[(31, 0x8000_0000)], ""),
        NOTHING,
    ),
    (BLANK, &[BIT], FIRST_BIT, NOTHING),
    (BLANK, &[BIT, BIT_LOCK], FIRST_BIT, LOCK),
    (BIT_LOCKED, &[BIT, BIT_LOCK], NOTHING, NOTHING),
    (
        BLANK,
        &[
            ("BLOCK1", Ask::Key(COUNTED_DIGEST)),
            ("BLOCK1", Ask::ReadLock),
        ],
        ONLY_KEY,
        HIDE,
    ),
    (
        BLANK,
        &[("BLOCK3", Ask::Bit(0)), ("BLOCK3", Ask::Bit(1))],
        (&[(24, 3)], ""),
        NOTHING,
    ),
];

const FIRST_BIT: Part = (&[(6, 0x40)], "");

const LOCK: Part = (&[(0, 0x4000)], "");

const ONLY_KEY: Part = (&[], COUNTED_DIGEST);

const HIDE: Part = (&[(0, 0x0001_0000)], "");

const HIDDEN_KEY: Part = (&[(0, 0x0001_0000)], COUNTED_DIGEST);

/// What a read-back comes to, with the rest of the batch where it falls short.
enum Told {
    Match,
    Short(Part),
    Fault(ChipFault),
}

/// A read-back: what is known to be burnt before it, the batch, the chip that is read, what the
/// read-back comes to, and what is known to be burnt after it.
struct StepRow {
    name: &'static str,
    known: Part,
    batch: Part,
    chip: ChipRow,
    told: Told,
    after: Part,
}

const STEPS: &[StepRow] = &[
    StepRow {
        name: "a bit is burnt",
        known: NOTHING,
        batch: FIRST_BIT,
        chip: (0, 0x40, ZEROS, ZEROS),
        told: Told::Match,
        after: FIRST_BIT,
    },
    StepRow {
        name: "its lock is burnt",
        known: FIRST_BIT,
        batch: LOCK,
        chip: BIT_LOCKED,
        told: Told::Match,
        after: (&[(0, 0x4000), (6, 0x40)], ""),
    },
    StepRow {
        name: "a key isn't burnt yet",
        known: NOTHING,
        batch: ONLY_KEY,
        chip: BLANK,
        told: Told::Short(ONLY_KEY),
        after: NOTHING,
    },
    StepRow {
        name: "the key is burnt",
        known: NOTHING,
        batch: ONLY_KEY,
        chip: KEYED,
        told: Told::Match,
        after: ONLY_KEY,
    },
    StepRow {
        name: "the key is gone",
        known: ONLY_KEY,
        batch: HIDE,
        chip: BLANK,
        told: Told::Fault(ChipFault::Key),
        after: ONLY_KEY,
    },
    StepRow {
        name: "the key is hidden",
        known: ONLY_KEY,
        batch: HIDE,
        chip: (0x0001_0000, 0, ZEROS, ZEROS),
        told: Told::Match,
        after: HIDDEN_KEY,
    },
    StepRow {
        name: "the key's lock is gone",
        known: HIDDEN_KEY,
        batch: NOTHING,
        chip: KEYED,
        told: Told::Fault(ChipFault::Lost),
        after: HIDDEN_KEY,
    },
    StepRow {
        name: "a bit is burnt that wasn't asked for",
        known: NOTHING,
        batch: FIRST_BIT,
        chip: (0, 0x44, ZEROS, ZEROS),
        told: Told::Fault(ChipFault::Stray),
        after: (&[(6, 0x44)], ""),
    },
    StepRow {
        name: "one bit of two is burnt",
        known: NOTHING,
        batch: (&[(24, 3)], ""),
        chip: HALF,
        told: Told::Short((&[(24, 2)], "")),
        after: (&[(24, 1)], ""),
    },
    StepRow {
        name: "the other bit isn't burnt yet",
        known: (&[(24, 1)], ""),
        batch: (&[(24, 2)], ""),
        chip: HALF,
        told: Told::Short((&[(24, 2)], "")),
        after: (&[(24, 1)], ""),
    },
    StepRow {
        name: "the one bit is gone",
        known: (&[(24, 1)], ""),
        batch: (&[(24, 2)], ""),
        chip: BLANK,
        told: Told::Fault(ChipFault::Lost),
        after: (&[(24, 1)], ""),
    },
];

/// The fields that hold bits, and how many they have.
const FIELDS: &[(&str, u64)] = &[
    ("WR_DIS", 16),
    ("RD_DIS", 4),
    ("JTAG_DISABLE", 1),
    ("BLOCK3", 256),
];

/// Wishes that can be burnt in full on a blank chip.
const WISHES: &[WishRow] = &[
    KEY,
    ("BLOCK2", Ask::Key(ABC)),
    BIT_LOCK,
    ("BLOCK1", Ask::WriteLock),
    ("BLOCK1", Ask::ReadLock),
    ("BLOCK2", Ask::WriteLock),
    ("BLOCK2", Ask::ReadLock),
    ("BLOCK3", Ask::WriteLock),
    ("BLOCK3", Ask::ReadLock),
    ("WR_DIS", Ask::Value("ffff")),
    ("RD_DIS", Ask::Value("f")),
    ("CODING_SCHEME", Ask::Value("0")),
    ("JTAG_DISABLE", Ask::Value("1")),
    ("BLOCK3", Ask::Value(TOP)),
];

/// Texts, and the words of the number that each is, the lowest first.
const NUMBERS: &[(&str, Option<[u32; 8]>)] = &[
    ("0", Some(ZEROS)),
    ("fF", Some([255, 0, 0, 0, 0, 0, 0, 0])),
    ("123456789", Some([0x2345_6789, 1, 0, 0, 0, 0, 0, 0])),
    (
        "8000000000000000000000000000000000000000000000000000000000000001",
        Some([1, 0, 0, 0, 0, 0, 0, 0x8000_0000]),
    ),
    ("", None),
    ("0x1", None),
    ("-1", None),
    ("g", None),
    (
        "00000000000000000000000000000000000000000000000000000000000000000",
        None,
    ),
];

/// What is asked of a field.
fn want(ask: Ask) -> Option<Want> {
    match ask {
        Ask::Bit(bit) => Some(Want::Bit(bit)),
        Ask::Value(digits) => Some(Want::Value(Number::parse(digits)?)),
        Ask::Key(digest) => Some(Want::Key(Digest::parse(digest)?)),
        Ask::WriteLock => Some(Want::WriteLock),
        Ask::ReadLock => Some(Want::ReadLock),
    }
}

fn wishes(alloc: Global, rows: &[WishRow]) -> Option<Vec<Wish>> {
    let mut wishes = Vec::new(alloc);
    for row in rows {
        let field = Name::parse(row.0)?;
        let want = want(row.1)?;
        wishes.push(Wish { field, want }).ok()?;
    }
    Some(wishes)
}

/// What a chip shows.
fn read_back_of_row(alloc: Global, map: &FuseMap, row: &ChipRow) -> Option<ReadBack> {
    Some(redact(map, &chip(alloc, row.0, row.1, row.2, row.3)?))
}

/// The plan of wishes for a chip as it is registered.
fn plan_of_row(
    alloc: Global,
    map: &FuseMap,
    chip: &ChipRow,
    rows: &[WishRow],
) -> Option<Result<Pending, PlanFault>> {
    let readback = read_back_of_row(alloc, map, chip)?;
    let image = Image {
        burnt: readback.ones,
        keys: readback.shown,
    };
    Some(plan(map, &image, wishes(alloc, rows)?.as_slice()))
}

/// The number of the lowest fault of wishes, or 0 where there is a plan.
fn fault_of(alloc: Global, map: &FuseMap, chip: &ChipRow, rows: &[WishRow]) -> Option<u8> {
    match plan_of_row(alloc, map, chip, rows)? {
        Ok(_) => Some(0),
        Err(fault) => Some(fault.number()),
    }
}

/// 32 words that are zero but for these.
fn words_of(words: &[(usize, u32)]) -> Option<[u32; 32]> {
    let mut all = [0; 32];
    for row in words {
        if 32 <= row.0 {
            return None;
        }
        all[row.0] = row.1;
    }
    Some(all)
}

fn image_of(part: &Part) -> Option<Image> {
    Some(Image {
        burnt: Bits::from_words(words_of(part.0)?),
        keys: Keys::new([None, Digest::parse(part.1), None, None]),
    })
}

/// Whether sets of positions and keys have a part and nothing else.
fn are_part(bits: &Bits, keys: &Keys, part: &Part) -> Option<bool> {
    let words = words_of(part.0)?;
    Some(
        bits.to_words() == words
            && bits.is_empty() == part.0.is_empty()
            && keys.get(1) == Digest::parse(part.1)
            && keys.get(2).is_none()
            && keys.is_empty() == part.1.is_empty(),
    )
}

/// Whether the plan of a row's wishes has the row's batches.
fn is_planned(alloc: Global, map: &FuseMap, row: &PlanRow) -> Option<bool> {
    let work = plan_of_row(alloc, map, &row.0, row.1)?.ok()?;
    Some(
        are_part(&work.first, &work.keys, &row.2)?
            && are_part(&work.second, &Keys::empty(), &row.3)?,
    )
}

fn is_told(verdict: &Verdict, told: &Told) -> Option<bool> {
    match (verdict, told) {
        (Verdict::Match, Told::Match) => Some(true),
        (Verdict::Short(rest), Told::Short(part)) => are_part(&rest.burnt, &rest.keys, part),
        (Verdict::Fault(fault), Told::Fault(wanted)) => Some(fault == wanted),
        _ => Some(false),
    }
}

/// Whether a read-back comes to what its row says.
fn is_step(alloc: Global, map: &FuseMap, row: &StepRow) -> Option<bool> {
    let known = image_of(&row.known)?;
    let batch = image_of(&row.batch)?;
    let readback = read_back_of_row(alloc, map, &row.chip)?;
    let (verdict, after) = compare(map, &known, &batch.burnt, &batch.keys, &readback);
    Some(is_told(&verdict, &row.told)? && are_part(&after.burnt, &after.keys, &row.after)?)
}

/// Whether a chip whose batch was burnt in full, and that shows all that its locks let it, is read
/// back as a match.
fn is_read_back(map: &FuseMap, before: &Image, after: &Image, batch: &Bits, keys: &Keys) -> bool {
    let visible = after.visible(map);
    let readback = ReadBack {
        ones: visible.burnt,
        shown: visible.keys,
    };
    let (verdict, known) = compare(map, before, batch, keys, &readback);
    matches!(verdict, Verdict::Match) && known.burnt.to_words() == after.burnt.to_words()
}

/// Whether a wish can be burnt on a blank chip, and each of its batches is read back as a match.
fn is_burnt_in_full(map: &FuseMap, field: Name, want: Want) -> bool {
    let blank = Image::empty();
    let Ok(work) = plan(map, &blank, &[Wish { field, want }]) else {
        return false;
    };
    let first = Image {
        burnt: work.first,
        keys: work.keys,
    };
    let second = Image {
        burnt: work.first.join(&work.second),
        keys: work.keys,
    };
    is_read_back(map, &blank, &first, &work.first, &work.keys)
        && is_read_back(map, &first, &second, &work.second, &Keys::empty())
}

/// Whether each bit of a field can be burnt in full.
fn are_bits_burnt(map: &FuseMap, field: Name, count: u64) -> bool {
    for index in 0..count {
        if !is_burnt_in_full(map, field, Want::Bit(index)) {
            return false;
        }
    }
    true
}

/// Whether what a field holds can be burnt in full: a key, each bit, or no bit of a coding scheme.
fn is_content_burnt(map: &FuseMap, field: &Field, key: Digest) -> bool {
    if map.coding() == Some(field.name) {
        return is_burnt_in_full(map, field.name, Want::Value(Number::new(ZEROS)));
    }
    if field.key {
        return is_burnt_in_full(map, field.name, Want::Key(key));
    }
    are_bits_burnt(map, field.name, u64::from(field.count))
}

/// Whether the locks that a field has can be burnt in full.
fn are_locks_burnt(map: &FuseMap, field: &Field) -> bool {
    (field.write.is_none() || is_burnt_in_full(map, field.name, Want::WriteLock))
        && (field.read.is_none() || is_burnt_in_full(map, field.name, Want::ReadLock))
}

/// Whether a wish can be burnt in full.
fn is_wish_burnt(map: &FuseMap, row: &WishRow) -> Option<bool> {
    Some(is_burnt_in_full(map, Name::parse(row.0)?, want(row.1)?))
}

/// Whether a text is read as the number of these words.
fn is_number(text: &str, words: &Option<[u32; 8]>) -> bool {
    match (Number::parse(text), words) {
        (Some(number), Some(words)) => number == Number::new(*words),
        (None, None) => true,
        _ => false,
    }
}

#[test]
fn plans_wishes_and_tells_their_faults(rt: HostRuntime) -> Result<(), Fail> {
    let alloc = rt.alloc();
    let map = read_map(alloc, MAP)?;
    for row in FAULTS {
        assert!(rt;
            fault_of(alloc, &map, &row.0, row.1) == Some(row.2),
            "{}",
            row.2
        );
    }
    for row in PLANS {
        assert!(rt; is_planned(alloc, &map, row) == Some(true), "{:?}", row.3);
    }
    Ok(())
}

#[test]
fn tells_what_read_backs_come_to(rt: HostRuntime) -> Result<(), Fail> {
    let alloc = rt.alloc();
    let map = read_map(alloc, MAP)?;
    for row in STEPS {
        assert!(rt; is_step(alloc, &map, row) == Some(true), "{}", row.name);
    }
    Ok(())
}

#[test]
fn reads_back_what_is_burnt(rt: HostRuntime) -> Result<(), Fail> {
    let map = read_map(rt.alloc(), MAP)?;
    for row in FIELDS {
        assert!(rt;
            Name::parse(row.0).is_some_and(|field| are_bits_burnt(&map, field, row.1)),
            "{}",
            row.0
        );
    }
    for row in WISHES {
        assert!(rt; is_wish_burnt(&map, row) == Some(true), "{}", row.0);
    }
    Ok(())
}

/// Each wish of a field of the whole chip.
#[test]
fn reads_back_the_whole_chip(rt: HostRuntime) -> Result<(), Fail> {
    let map = read_map(rt.alloc(), ESP32)?;
    let key = Digest::parse(ABC).ok_or("no digest")?;
    for field in map.fields() {
        assert!(rt;
            is_content_burnt(&map, field, key) && are_locks_burnt(&map, field),
            "{}",
            field.name.as_str()
        );
    }
    Ok(())
}

#[test]
fn reads_numbers(rt: HostRuntime) {
    for row in NUMBERS {
        assert!(rt; is_number(row.0, &row.1), "{}", row.0);
    }
}
