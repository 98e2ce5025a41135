//! The files of maps and sites that the program reads: what it says of them, of those that it can't
//! read, and of those at their limit.
use crate::jobs::{job, written_by};
use crate::replays::make_folder;
use std::alloc::Global;
use std::fs;
use std::test::Fail;
use test_fixtures::samples::{MAP, SITE};
use test_fixtures::streams::ORDER;

/// Files by the job that reads them, their text, in which `$MAP` and `$SITE` stand for the samples, and
/// what is written for them, for a replay over an empty stream: on standard output where a map is
/// accepted, else on standard error.
const FILES: &[(&str, &str, &str)] = &[
    ("check-map", "$MAP", "ok esp32-sample 4 7\n"),
    (
        "check-map",
        "$MAP[[field]]\nname = \"X\"\nblock = 0\nbit = 216\ncount = 8\n",
        "ok esp32-sample 4 8\n",
    ),
    (
        "check-map",
        "$MAP[[field]]\nfield\n",
        "station: map fault 1\n",
    ),
    ("check-map", "", "station: map fault 2\n"),
    (
        "check-map",
        "$MAP[[field]]\nwords = 8\n",
        "station: map fault 2\n",
    ),
    (
        "check-map",
        "$MAP[[field]]\nname = \"WR_DIS\"\nblock = 0\nbit = 216\ncount = 8\n",
        "station: map fault 3\n",
    ),
    (
        "check-map",
        "$MAP[[field]]\nname = \"X\"\nblock = 0\nbit = 216\ncount = 9\n",
        "station: map fault 4\n",
    ),
    (
        "check-map",
        "$MAP[[field]]\nname = \"X\"\nblock = 0\nbit = 198\ncount = 1\n",
        "station: map fault 5\n",
    ),
    ("check-map", "$MAP[[field]]\n", "station: map fault 2\n"),
    ("check-map", "$MAP# Windows\r\n", "ok esp32-sample 4 7\n"),
    ("check-site", "$SITE", "ok 2\n"),
    (
        "check-site",
        "customer",
        "station: site fault 1: the text is no TOML document\n",
    ),
    (
        "check-site",
        "",
        "station: site fault 2: customer: it has to be an array of tables\n",
    ),
    (
        "check-site",
        "$SITE[[customer]]\nissuer = []\n",
        "station: site fault 2: customer 3: a name has to be 1 to 32 of A-Z a-z 0-9 . _ -\n",
    ),
    (
        "check-site",
        "[[customer]]\nname = \"acme\"\nissuer = [\"a\", \"b c\"]\n",
        "station: site fault 2: customer acme, issuer 2: a name has to be 1 to 32 of A-Z a-z 0-9 . _ -\n",
    ),
    (
        "check-site",
        "[[customer]]\nname = \"acme\"\nissuer = []\nseat = 7\n",
        "station: site fault 2: customer acme: seat has to be an array\n",
    ),
    (
        "check-site",
        "[[customer]]\nname = \"acme\"\nissuer = []\npool = [{ first = \"020000000010\", count = 0 }]\n",
        "station: site fault 2: customer acme, pool 1: count has to be 1 to 16777216\n",
    ),
    (
        "check-site",
        "$SITE[manager2]\n[[customer]]\nname = \"corp\"\nissuer = [\"acme-ca\"]\n",
        "station: site fault 3: customer corp, issuer 1: the name is there already\n",
    ),
    (
        "check-site",
        "[[customer]]\nname = \"acme\"\nissuer = []\n[[customer]]\nname = \"acme\"\nissuer = []\n",
        "station: site fault 3: customer acme: the name is there already\n",
    ),
    (
        "check-site",
        "[[customer]]\nname = \"acme\"\nissuer = []\npool = [{ first = \"020000000010\", count = 4 }, { first = \"020000000013\", count = 1 }]\n",
        "station: site fault 4: customer acme, pool 2: an address lies in a pool before it too\n",
    ),
    (
        "check-site",
        "[[customer]]\nname = \"acme\"\nissuer = []\npool = [{ first = \"020000000000\", count = 1 }, { first = \"010000000000\", count = 1 }]\n",
        "station: site fault 5: customer acme, pool 2: an address is a group address, or has more than 48 bits\n",
    ),
    (
        "check-site",
        "[[customer]]\nname = \"acme\"\nissuer = [\"1\", \"2\", \"3\", \"4\", \"5\", \"6\", \"7\", \"8\", \"9\"]\n",
        "station: site fault 6: customer acme: it has more than 8 of issuer\n",
    ),
    ("replay", "$SITE", ""),
    ("replay", "$SITE\t# a tab\n", ""),
    ("replay", "customer", "station: site fault 1\n"),
    ("replay", "", "station: site fault 2\n"),
    (
        "replay",
        "[[customer]]\nname = \"acme\"\nissuer = [\"acme-ca\", \"acme-ca\"]\n",
        "station: site fault 3\n",
    ),
    (
        "replay",
        "[[customer]]\nname = \"acme\"\nissuer = []\npool = [{ first = \"020000000010\", count = 4 }, { first = \"020000000013\", count = 1 }]\n",
        "station: site fault 4\n",
    ),
    (
        "replay",
        "[[customer]]\nname = \"acme\"\nissuer = []\npool = [{ first = \"010000000000\", count = 1 }]\n",
        "station: site fault 5\n",
    ),
    (
        "replay",
        "[[customer]]\nname = \"acme\"\nissuer = [\"1\", \"2\", \"3\", \"4\", \"5\", \"6\", \"7\", \"8\", \"9\"]\n",
        "station: site fault 6\n",
    ),
];

/// A name of 190 characters.
const LONG_NAME: &str =
    "nnnnnnnnnnnnnnnnnnnnnnnnnnnnnnnnnnnnnnnnnnnnnnnnnnnnnnnnnnnnnnnnnnnnnnnnnnnnnnnnnnnnnnnnnnnnnnnnnnnnnnnnnnnnnnnnnnnnnnnnnnnnnnnnnnnnnnnnnnnnnnnnnnnnnnnnnnnnnnnnnnnnnnnnnnnnnnnnnnnnnnnnnnnnnn";

/// A site of which a name comes twice, in front of a comment.
const TWICE: &str =
    "[[customer]]\nname = \"acme\"\nissuer = []\n[[customer]]\nname = \"acme\"\nissuer = []\n#";

/// Files that can't be read, by the job and their name: those that aren't there, a folder, and those
/// that are no text, with what is in them.
const UNREAD: &[(&str, &str, &[u8])] = &[
    ("check-map", "none.toml", b""),
    ("check-map", "no/such file", b""),
    ("check-map", "", b""),
    ("check-map", LONG_NAME, b""),
    ("check-map", "folder", b""),
    ("check-map", "latin.toml", b"# \xe4\n"),
    ("check-map", "latin.toml", b"\xff"),
    ("check-map", "latin.toml", b"customer = []\n# \xc3"),
    ("check-site", "none.toml", b""),
    ("check-site", "folder", b""),
    ("check-site", "latin.toml", b"# \xe4\n"),
    ("replay", "none.toml", b""),
    ("replay", "no/such file", b""),
    ("replay", "", b""),
    ("replay", "folder", b""),
    ("replay", "latin.toml", b"# \xe4\n"),
    ("replay", "latin.toml", b"\xff"),
    ("replay", "latin.toml", b"customer = []\n# \xc3"),
];

/// Files at their limit, by the job: the text and how long it is made, and what is written where a
/// byte more is read, and where it isn't.
const LONG_FILES: &[(&str, &str, usize, &str, &str)] = &[
    (
        "check-map",
        MAP,
        32_767,
        "ok esp32-sample 4 7\n",
        "station: map fault 2\n",
    ),
    (
        "check-site",
        SITE,
        1_048_575,
        "ok 2\n",
        "station: site fault 6: the text has more than 1048576 bytes\n",
    ),
    ("replay", SITE, 1_048_575, "", "station: site fault 6\n"),
];

/// What stands behind such a text in a file, and whether the file is read: one byte more is, and no
/// other, whatever the bytes are. The cut may lie inside a character.
const LONG_ENDS: &[(&[u8], bool)] = &[
    (b"", true),
    (b" ", true),
    (b"\xc3\xa4", false),
    (b" \xff", false),
    (b" and so on, and so on", false),
];

/// The samples in place of what stands for them.
fn with_samples(alloc: Global, text: &str) -> Result<String, Fail> {
    let text = text.replace(alloc, "$MAP", MAP)?;
    Ok(text.as_str().replace(alloc, "$SITE", SITE)?)
}

/// Does a job of one kind for the file with a name over an input: what was written.
fn written(
    rt: &HostRuntime,
    alloc: Global,
    kind: &str,
    name: &str,
    input: &[u8],
) -> Result<String, Fail> {
    written_by(rt, alloc, &job(alloc, kind, name)?, input)
}

/// Whether a line says that the file with a name can't be read.
fn tells_unread(line: &str, name: &str) -> bool {
    let Some(rest) = line.strip_prefix("station: cannot read ") else {
        return false;
    };
    rest.strip_suffix("\n") == Some(name)
}

/// Makes the file `long.toml` of a text, with as many spaces behind it as make so many bytes, and then
/// these.
fn write_long_file(
    rt: &HostRuntime,
    alloc: Global,
    (start, size): (&str, usize),
    end: &[u8],
) -> Result<(), Fail> {
    let spaces = size.saturating_sub(start.len());
    let text = format!(in alloc; "{start}{:spaces$}", "")?;
    let mut text = text.as_bytes().to_vec(alloc)?;
    text.extend_from_slice(end)?;
    Ok(fs::write(rt, "long.toml", text.as_slice())?)
}

#[test]
fn files_of_maps_and_sites_are_judged(rt: HostRuntime) -> Result<(), Fail> {
    for row in FILES {
        let text = with_samples(rt.alloc(), row.1)?;
        fs::write(&rt, "judged.toml", text.as_str())?;
        let told = written(&rt, rt.alloc(), row.0, "judged.toml", b"")?;
        assert_eq!(rt; told.as_str(), row.2, "{} {}", row.0, row.1);
    }
    Ok(())
}

#[test]
fn files_that_cannot_be_read_are_told(rt: HostRuntime) -> Result<(), Fail> {
    make_folder(&rt, "folder")?;
    for row in UNREAD {
        fs::write(&rt, "latin.toml", row.2)?;
        let told = written(&rt, rt.alloc(), row.0, row.1, ORDER.as_bytes())?;
        assert!(rt;
            tells_unread(told.as_str(), row.1),
            "{} {} -> {told}",
            row.0,
            row.1
        );
    }
    Ok(())
}

#[test]
fn files_over_their_limit_are_told_unread(rt: HostRuntime) -> Result<(), Fail> {
    for row in LONG_FILES {
        for end in LONG_ENDS {
            write_long_file(&rt, rt.alloc(), (row.1, row.2), end.0)?;
            let told = written(&rt, rt.alloc(), row.0, "long.toml", b"")?;
            let wanted = if end.1 { row.3 } else { row.4 };
            assert_eq!(rt; told.as_str(), wanted, "{}", row.0);
        }
    }
    write_long_file(&rt, rt.alloc(), (TWICE, 300_000), b"")?;
    let told = written(&rt, rt.alloc(), "check-site", "long.toml", b"")?;
    let wanted = "station: site fault 3: customer acme: the name is there already\n";
    assert_eq!(rt; told.as_str(), wanted);
    Ok(())
}
