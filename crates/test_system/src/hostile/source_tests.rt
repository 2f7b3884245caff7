//! Sources at and past their limits, and such that are no script: the line that a run puts.
use crate::hostile::calls::formatted;
use crate::put;
use std::alloc::{AllocError, Global};
use std::test::Fail;

// How a source is made: as it stands; of so many `#`; of an item so many times behind a front; of so many that have their numbers inside;
// with this region of container `b`, of 256 pages, on `a`; with this name of a container.
#[derive(Clone, Copy)]
enum Form {
    Text(&'static str),
    Bytes(&'static [u8]),
    Comment(usize),
    Many(&'static str, &'static str, u32, &'static str),
    Numbered(&'static str, &'static str, u32, &'static str, &'static str),
    Region(&'static str),
    Named(&'static str),
}

use Form::{Bytes, Comment, Many, Named, Numbered, Region, Text};

// An item so many times.
fn push_times(text: &mut String, item: &str, count: u32) -> Result<(), AllocError> {
    for _item in 0..count {
        text.push_str(item)?;
    }
    Ok(())
}

fn source_of(alloc: Global, form: Form) -> Result<Vec<u8>, Fail> {
    let mut text = String::new(alloc);
    match form {
        Text(whole) => text.push_str(whole)?,
        Bytes(bytes) => return Ok(bytes.to_vec(alloc)?),
        Comment(len) => {
            let mut bytes = Vec::new(alloc);
            bytes.resize(len, b'#')?;
            return Ok(bytes);
        }
        Many(front, item, count, back) => {
            text.push_str(front)?;
            push_times(&mut text, item, count)?;
            text.push_str(back)?;
        }
        Region(region) => {
            text.push_str(
                "container = [{ name = 'a', pages = 1 }, { name = 'b', pages = 256, regions = ['",
            )?;
            text.push_str(region)?;
            text.push_str("'] }]")?;
        }
        Named(name) => {
            text.push_str("container = [{ pages = 1, name = '")?;
            text.push_str(name)?;
            text.push_str("' }]")?;
        }
        Numbered(front, before, count, behind, back) => {
            text.push_str(front)?;
            for number in 0..count {
                let item = format!(in alloc; "{before}{number}{behind}")?;
                text.push_str(item.as_str())?;
            }
            text.push_str(back)?;
        }
    }
    Ok(text.as_bytes().to_vec(alloc)?)
}

// A source, and the line that tells what is refused; none where nothing is.
type Case = (Form, &'static str);

const A: &str = "[[container]]\nname = 'a'\npages = 1\n";

// How much there may be of what.
const COUNTS: &[Case] = &[
    (Comment(1_048_576), ""),
    (Comment(1_048_577), "fault 3 9 -\n"),
    (Many("program.p = [", "'halt', ", 128, "]"), ""),
    (
        Many("program.p = [", "'halt', ", 129, "]"),
        "fault 3 7 program.p\n",
    ),
    (
        Numbered("", "[[container]]\npages = 1\nname = 'c", 40, "'\n", ""),
        "",
    ),
    (
        Numbered("", "[[container]]\npages = 1\nname = 'c", 41, "'\n", ""),
        "fault 3 7 container\n",
    ),
    (
        Numbered(A, "[[locus]]\nhost = 'a'\nname = 'l", 23, "'\n", ""),
        "",
    ),
    (
        Numbered(A, "[[locus]]\nhost = 'a'\nname = 'l", 24, "'\n", ""),
        "fault 3 7 locus\n",
    ),
    (
        Numbered(
            "[[container]]\nname = 'a'\npages = 1\n[[container]]\nname = 'b'\npages = 17\nregions = [",
            "'",
            16,
            " a 0 1 r', ",
            "]",
        ),
        "",
    ),
    (
        Numbered(
            "[[container]]\nname = 'a'\npages = 1\n[[container]]\nname = 'b'\npages = 17\nregions = [",
            "'",
            17,
            " a 0 1 r', ",
            "]",
        ),
        "fault 3 7 container.1.regions\n",
    ),
    (
        Many(
            "[[container]]\nname = 'a'\npages = 1\ncaps = [",
            "'a -', ",
            32,
            "]",
        ),
        "",
    ),
    (
        Many(
            "[[container]]\nname = 'a'\npages = 1\ncaps = [",
            "'a -', ",
            33,
            "]",
        ),
        "fault 3 7 container.0.caps\n",
    ),
    (
        Many(
            "[[container]]\nname = 'a'\npages = 1\n[[locus]]\nname = 'l'\nhost = 'a'\ncaps = [",
            "'l k', ",
            32,
            "]",
        ),
        "",
    ),
    (
        Many(
            "[[container]]\nname = 'a'\npages = 1\n[[locus]]\nname = 'l'\nhost = 'a'\ncaps = [",
            "'l k', ",
            33,
            "]",
        ),
        "fault 3 7 locus.0.caps\n",
    ),
    (
        Many(
            "order = [",
            "'l', ",
            4096,
            "]\n[[container]]\nname = 'a'\npages = 1\n[[locus]]\nname = 'l'\nhost = 'a'",
        ),
        "",
    ),
    (
        Many(
            "order = [",
            "'l', ",
            4097,
            "]\n[[container]]\nname = 'a'\npages = 1\n[[locus]]\nname = 'l'\nhost = 'a'",
        ),
        "fault 3 7 order\n",
    ),
    // A deep nest that has no end, many keys, and one key twice.
    (Many("steps = ", "[", 100_000, ""), "fault 3 1 -\n"),
    (Numbered("", "k", 2000, " = 1\n", ""), "fault 3 5 k0\n"),
    (Many("", "steps = 1\n", 2, ""), "fault 3 1 -\n"),
];

// Numbers at and past each range.
const NUMBERS: &[Case] = &[
    (Text("steps = 1"), ""),
    (Text("steps = 40000"), ""),
    (Text("steps = 40001"), "fault 3 6 steps\n"),
    (Text("steps = -1"), "fault 3 6 steps\n"),
    (Text("frames = 0"), "fault 3 6 frames\n"),
    (Text("frames = 1"), ""),
    (Text("frames = 256"), ""),
    (Text("frames = 257"), "fault 3 6 frames\n"),
    (
        Text("container = [{ name = 'a', pages = 0 }]"),
        "fault 3 6 container.0.pages\n",
    ),
    (Text("container = [{ name = 'a', pages = 256 }]"), ""),
    (
        Text("container = [{ name = 'a', pages = 257 }]"),
        "fault 3 6 container.0.pages\n",
    ),
    (
        Text("container = [{ name = 'a', pages = 1, tag = 9223372036854775807 }]"),
        "",
    ),
    (
        Text("container = [{ name = 'a', pages = 1, tag = 9223372036854775808 }]"),
        "fault 3 1 -\n",
    ),
    (
        Text("container = [{ name = 'a', pages = 1, tag = -1 }]"),
        "fault 3 6 container.0.tag\n",
    ),
    (
        Text("container = [{ name = 'a', pages = 1, every = 1000000 }]"),
        "",
    ),
    (
        Text("container = [{ name = 'a', pages = 1, every = 1000001 }]"),
        "fault 3 6 container.0.every\n",
    ),
    (
        Text("container = [{ name = 'a', pages = 1, entry = 127 }]"),
        "",
    ),
    (
        Text("container = [{ name = 'a', pages = 1, entry = 128 }]"),
        "fault 3 6 container.0.entry\n",
    ),
    (
        Text("container = [{ name = 'a', pages = 1, entry = -1 }]"),
        "fault 3 6 container.0.entry\n",
    ),
    (
        Text(
            "container = [{ name = 'a', pages = 1 }]\nlocus = [{ name = 'l', host = 'a', at = 127, every = 1000000 }]",
        ),
        "",
    ),
    (
        Text(
            "container = [{ name = 'a', pages = 1 }]\nlocus = [{ name = 'l', host = 'a', at = 128 }]",
        ),
        "fault 3 6 locus.0.at\n",
    ),
    (
        Text(
            "container = [{ name = 'a', pages = 1 }]\nlocus = [{ name = 'l', host = 'a', every = 1000001 }]",
        ),
        "fault 3 6 locus.0.every\n",
    ),
    (Region("255 a 255 1 rw"), ""),
    (Region("0 a 0 256 r"), ""),
    (Region("256 a 0 1 r"), TOLD),
    (Region("0 a 256 1 r"), TOLD),
    (Region("0 a 0 0 r"), TOLD),
    (Region("0 a 0 257 r"), TOLD),
    (Region("255 a 0 2 r"), TOLD),
    (Region("0 a 255 2 r"), TOLD),
    (Region("99999999999999999999999999 a 0 1 r"), TOLD),
    (Region("00 a 0 1 r"), FORMLESS),
    (Region("0  a 0 1 r"), FORMLESS),
    (Region("0 a 0 1 wr"), FORMLESS),
    (Region("0 a 0 1 -"), FORMLESS),
];

const TOLD: &str = "fault 3 6 container.1.regions.0\n";

const FORMLESS: &str = "fault 3 8 container.1.regions.0\n";

const NAMELESS: &str = "fault 3 4 container.0.name\n";

// Names, and bytes that are no TOML.
const TEXTS: &[Case] = &[
    (Named("abcdefghijklmnopqrstuvwx"), ""),
    (Named("abcdefghijklmnopqrstuvwxy"), NAMELESS),
    (Named("A-1.b_C"), ""),
    (Named(""), NAMELESS),
    (Named("1"), NAMELESS),
    (Named("#1"), NAMELESS),
    (Named("a b"), NAMELESS),
    (Named("\u{e4}"), NAMELESS),
    (Named("atlas"), NAMELESS),
    (Bytes(b"\xff"), "fault 3 1 -\n"),
    (Bytes(b"# \xc3"), "fault 3 1 -\n"),
    (Bytes(b"# \xc0\xaf"), "fault 3 1 -\n"),
    (Bytes(b"# \xed\xa0\x80"), "fault 3 1 -\n"),
    (Bytes(b"\0"), "fault 3 1 -\n"),
    (Text("steps"), "fault 3 1 -\n"),
    (Text("[[container"), "fault 3 1 -\n"),
    (Text("steps = 'one"), "fault 3 1 -\n"),
];

// What a run puts that isn't as it has to be. A source that is refused is refused before any call of the disk.
fn wrong_at(alloc: Global, case: Case) -> Result<&'static str, Fail> {
    let (form, line) = case;
    let disk = formatted(alloc, &[])?;
    let calls = disk.calls();
    let (lines, outcome) = put(alloc, &["run"], &source_of(alloc, form)?, disk)?;
    if lines.as_str() != line {
        return Ok("another line");
    }
    let status = if line.is_empty() { 0 } else { 3 };
    if outcome.status.number() != status {
        return Ok("another status");
    }
    let touched = outcome.disk.calls() != calls || !outcome.history.is_empty();
    if status == 3 && touched {
        return Ok("a refused source touches the disk");
    }
    Ok("")
}

#[test]
fn a_source_is_refused_exactly_past_its_limits(rt: HostRuntime) -> Result<(), Fail> {
    let tables: [&[Case]; 3] = [COUNTS, NUMBERS, TEXTS];
    for (table, cases) in tables.iter().enumerate() {
        for (place, case) in cases.iter().enumerate() {
            let told = wrong_at(rt.alloc(), *case)?;
            assert!(rt; told == "", "{told}: {table}, {place}");
        }
    }
    Ok(())
}
