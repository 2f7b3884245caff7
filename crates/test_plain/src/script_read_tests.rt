use base_types::{Instr, Rights};
use script_reading::read_script;
use script_types::{Refusal, ScriptCap, ScriptContainer, ScriptFault, ScriptRegion, Why};
use std::alloc::Global;
use std::test::Fail;

fn refusal(alloc: Global, source: &[u8]) -> Result<Refusal, Fail> {
    match read_script(alloc, source) {
        Err(ScriptFault::Refused(refusal)) => Ok(refusal),
        _ => Err(Fail::from("no refusal")),
    }
}

/// Refused sources, each with the first refusal of the walk and its key.
const REFUSED: &[(&str, Why, &str)] = &[
    ("steps = ", Why::NotToml, "-"),
    ("steps = 9223372036854775808", Why::NotToml, "-"),
    ("stop = 1\nsteps = 0\nalso = 2", Why::Unknown, "also"),
    ("steps = 0", Why::Range, "steps"),
    ("steps = 1.0", Why::Kind, "steps"),
    ("frames = 257\nsteps = 40001", Why::Range, "steps"),
    ("frames = 257", Why::Range, "frames"),
    ("program = 1", Why::Kind, "program"),
    (
        "program.p = [\"snap r0\", \"snap r8\"]\nprogram.q = 1",
        Why::BadCode,
        "program.p.1",
    ),
    ("program.p = [\"halt\", 1]", Why::Kind, "program.p.1"),
    ("container = [1]", Why::Kind, "container.0"),
    (
        "[[container]]\npages = 0\nsize = 1",
        Why::Unknown,
        "container.0.size",
    ),
    ("[[container]]\npages = 0", Why::Missing, "container.0.name"),
    (
        "[[container]]\nname = \"a\"",
        Why::Missing,
        "container.0.pages",
    ),
    (
        "[[container]]\nname = \"atlas\"\npages = 0",
        Why::Name,
        "container.0.name",
    ),
    (
        "[[container]]\nname = \"abcdefghijklmnopqrstuvwxy\"\npages = 1",
        Why::Name,
        "container.0.name",
    ),
    (
        "[[container]]\nname = \"a\"\npages = 1\nevery = 1000001\nentry = 128",
        Why::Range,
        "container.0.every",
    ),
    (
        "[[container]]\nname = \"a\"\npages = 1\n[[container]]\nname = \"b\"\npages = 1\nevery = -1",
        Why::Range,
        "container.1.every",
    ),
    (
        "[[container]]\nname = \"a\"\npages = 1\nevery = \"5\"",
        Why::Kind,
        "container.0.every",
    ),
    (
        "[[container]]\nname = \"a\"\npages = 1\ntag = -1",
        Why::Range,
        "container.0.tag",
    ),
    (
        "[[container]]\nname = \"a\"\npages = 1\nprogram = \"p\"\nentry = 128",
        Why::Unknown,
        "container.0.program",
    ),
    (
        "[[container]]\nname = \"a\"\npages = 1\nregions = [\"0 b 0 1 r\"]\n[[container]]\nname = \"b\"\npages = 1",
        Why::Unknown,
        "container.0.regions.0",
    ),
    (
        "[[container]]\nname = \"a\"\npages = 1\nregions = [\"0 a 0 01 r\"]",
        Why::BadCode,
        "container.0.regions.0",
    ),
    (
        "[[container]]\nname = \"a\"\npages = 9\n[[container]]\nname = \"b\"\npages = 9\nregions = [\"0 a 0 4 r\", \"4 a 0 4 w\", \"7 a 0 2 rw\"]",
        Why::Range,
        "container.1.regions.2",
    ),
    (
        "[[container]]\nname = \"a\"\npages = 1\ncaps = [\"a rwimcskt\", \"a -\", \"a wr\"]",
        Why::BadCode,
        "container.0.caps.2",
    ),
    (
        "[[locus]]\nname = \"l\"\nhost = \"a\"",
        Why::Unknown,
        "locus.0.host",
    ),
    (
        "[[container]]\nname = \"a\"\npages = 1\n[[locus]]\nname = \"l\"\nhost = \"a\"\ncaps = [\"atlas t\", \"l k\", \"m k\"]\n[[locus]]\nname = \"m\"\nhost = \"a\"",
        Why::Unknown,
        "locus.0.caps.2",
    ),
    (
        "[[container]]\nname = \"a\"\npages = 1\n[[locus]]\nname = \"a\"\nhost = \"a\"",
        Why::Name,
        "locus.0.name",
    ),
    (
        "[[container]]\nname = \"a\"\npages = 1\n[[locus]]\nname = \"l\"\nhost = \"a\"\nevery = 1000001\ncaps = [1]",
        Why::Range,
        "locus.0.every",
    ),
    (
        "[[container]]\nname = \"a\"\npages = 1\n[[locus]]\nname = \"l\"\nhost = \"a\"\nat = 128\nevery = 1000001",
        Why::Range,
        "locus.0.at",
    ),
    ("order = [\"l\"]", Why::Unknown, "order.0"),
    (
        "order = [\"l\"]\n[[locus]]\nname = \"l\"\nhost = 1",
        Why::Kind,
        "locus.0.host",
    ),
];

/// Whether a source is refused by this, and nothing before it.
fn is_refused(alloc: Global, source: &[u8], why: Why, key: &str) -> Result<bool, Fail> {
    let told = refusal(alloc, source)?;
    Ok(told.why == why && told.key.as_str() == key)
}

#[test]
fn the_first_refusal_is_told(rt: HostRuntime) -> Result<(), Fail> {
    for &(source, why, key) in REFUSED {
        let told = is_refused(rt.alloc(), source.as_bytes(), why, key)?;
        assert!(rt; told, "at {source}");
    }
    Ok(())
}

#[test]
fn long_sources_and_bytes_that_are_no_text_are_refused(rt: HostRuntime) -> Result<(), Fail> {
    let mut long = Vec::new(rt.alloc());
    for _ in 0..1_048_577 {
        long.push(b' ')?;
    }
    assert!(rt; is_refused(rt.alloc(), long.as_slice(), Why::Long, "-")?);
    assert!(rt; is_refused(rt.alloc(), b"steps = 1 # \xff", Why::NotToml, "-")?);
    Ok(())
}

#[test]
fn a_program_of_129_lines_is_refused(rt: HostRuntime) -> Result<(), Fail> {
    let mut source = String::from_str(rt.alloc(), "program.p = [")?;
    for _ in 0..129 {
        source.push_str("1, ")?;
    }
    source.push_str("]")?;
    assert!(rt; is_refused(rt.alloc(), source.as_bytes(), Why::TooMany, "program.p")?);
    Ok(())
}

const WHOLE: &str = "steps = 103
order = [\"l\"]
program.p = [\"set r0 7\", \"halt\"]
[[container]]
name = \"b\"
pages = 256
tag = 1000
[[container]]
name = \"a\"
pages = 2
program = \"p\"
entry = 1
regions = [\"1 b 255 1 rw\"]
caps = [\"atlas t\", \"a -\", \"b rm\"]
[[locus]]
name = \"l\"
host = \"a\"
at = 127
caps = [\"l k\"]
";

/// Whether this is container `a` of `WHOLE`, but for its lists.
fn is_a(a: &ScriptContainer) -> bool {
    a.name.as_str() == "a"
        && (a.pages, a.tag, a.every, a.entry) == (2, 0, 0, Some(1))
        && a.code.as_slice() == [Instr::Set(0, 7), Instr::Halt].as_slice()
}

/// Whether this is its region.
fn is_region(region: &ScriptRegion) -> bool {
    (region.at, region.from, region.count, region.rights) == (1, 255, 1, Rights(3))
        && region.target.as_str() == "b"
}

/// Whether capabilities have the rights of its own.
fn have_rights(caps: &[ScriptCap]) -> bool {
    let rights = [Rights(128), Rights(0), Rights(9)];
    caps.len() == 3
        && caps
            .iter()
            .zip(rights)
            .all(|(cap, rights)| cap.rights == rights)
}

#[test]
fn a_whole_script_is_read(rt: HostRuntime) -> Result<(), Fail> {
    let read = read_script(rt.alloc(), WHOLE.as_bytes())?;
    let script = &read.script;
    assert!(rt; (script.steps, script.frames) == (103, 32));
    assert!(rt; script.order.len() == 1 && script.containers.len() == 2 && script.loci.len() == 1);
    let a = &script.containers[1];
    assert!(rt; is_a(a) && have_rights(&a.caps));
    assert!(rt; a.regions.len() == 1 && is_region(&a.regions[0]));
    let l = &script.loci[0];
    assert!(rt; l.host.as_str() == "a" && (l.at, l.every) == (127, 0));
    Ok(())
}

/// Container `a` and locus `l` have wishes, the greatest and one between; `b` and `m` have none.
const WISHES: &str = "program.p = [\"snap r3\", \"halt\"]
container = [{ name = \"a\", pages = 1, every = 1000000, program = \"p\" }, { name = \"b\", pages = 1 }]
locus = [{ name = \"m\", host = \"b\", every = 0 }, { name = \"l\", host = \"a\", every = 5 }]
";

#[test]
fn wishes_and_snaps_are_read(rt: HostRuntime) -> Result<(), Fail> {
    let read = read_script(rt.alloc(), WISHES.as_bytes())?;
    let script = &read.script;
    assert!(rt; script.containers.len() == 2 && script.loci.len() == 2);
    let (a, b) = (&script.containers[0], &script.containers[1]);
    assert!(rt; (a.every, b.every) == (1_000_000, 0));
    assert!(rt; a.code.as_slice() == [Instr::Snap(3), Instr::Halt].as_slice());
    let (m, l) = (&script.loci[0], &script.loci[1]);
    assert!(rt; (m.every, l.every) == (0, 5));
    Ok(())
}

#[test]
fn an_empty_source_names_nothing(rt: HostRuntime) -> Result<(), Fail> {
    let read = read_script(rt.alloc(), b"")?;
    let (script, managers) = (&read.script, &read.managers);
    assert!(rt; (script.steps, script.frames) == (10_000, 32));
    assert!(rt; script.containers.is_empty() && script.loci.is_empty() && script.order.is_empty());
    assert!(rt; managers.supply.is_empty() && managers.policy.is_empty());
    Ok(())
}

/// The programs of managers: `p` may answer, `q` prints, `two words` has a blank in its name.
const PROGRAMS: &str = "program.p = ['copy r3 r2', 'add r3 r1', 'halt']
program.q = ['print r0']
program.'two words' = ['set r3 1']
";

/// Whether a source with these programs is refused by this, and nothing before it.
fn is_refused_behind(alloc: Global, line: &str, why: Why, key: &str) -> Result<bool, Fail> {
    let mut source = String::from_str(alloc, line)?;
    source.push_str("\n")?;
    source.push_str(PROGRAMS)?;
    is_refused(alloc, source.as_bytes(), why, key)
}

/// The same, with the programs behind.
const REFUSED_MANAGERS: &[(&str, Why, &str)] = &[
    ("supply = '7 p'", Why::Kind, "supply"),
    ("supply = [7, '0 x']", Why::Kind, "supply.0"),
    ("supply = ['7']", Why::BadCode, "supply.0"),
    ("supply = ['07 p']", Why::BadCode, "supply.0"),
    ("supply = ['+7 p']", Why::BadCode, "supply.0"),
    ("supply = ['0 x']", Why::Range, "supply.0"),
    ("supply = ['9223372036854775808 p']", Why::Range, "supply.0"),
    (
        "supply = ['99999999999999999999999 p']",
        Why::Range,
        "supply.0",
    ),
    ("policy = ['1000001 p']", Why::Range, "policy.0"),
    ("supply = ['7 p', '7 x']", Why::Unknown, "supply.1"),
    ("supply = ['7 p ']", Why::Unknown, "supply.0"),
    ("supply = ['7 q']", Why::BadCode, "supply.0"),
    ("supply = ['7 p', '7 q']", Why::BadCode, "supply.1"),
    ("supply = ['7 p', '8 p', '7 p']", Why::Clash, "supply.2"),
    (
        "policy = ['x p']\nsupply = ['7 q']",
        Why::BadCode,
        "supply.0",
    ),
    ("policy = ['x p']\norder = ['l']", Why::Unknown, "order.0"),
];

#[test]
fn the_first_refusal_of_managers_is_told(rt: HostRuntime) -> Result<(), Fail> {
    for &(source, why, key) in REFUSED_MANAGERS {
        let told = is_refused_behind(rt.alloc(), source, why, key)?;
        assert!(rt; told, "at {source}");
    }
    Ok(())
}

#[test]
fn seventeen_managers_are_refused(rt: HostRuntime) -> Result<(), Fail> {
    let mut line = String::from_str(rt.alloc(), "policy = [")?;
    for _ in 0..17 {
        line.push_str("1, ")?;
    }
    line.push_str("]")?;
    assert!(rt; is_refused_behind(rt.alloc(), line.as_str(), Why::TooMany, "policy")?);
    Ok(())
}

#[test]
fn managers_are_read(rt: HostRuntime) -> Result<(), Fail> {
    let mut source = String::from_str(
        rt.alloc(),
        "supply = ['7 p', '9223372036854775807 two words']\npolicy = ['1000000 two words']\n",
    )?;
    source.push_str(PROGRAMS)?;
    let read = read_script(rt.alloc(), source.as_bytes())?;
    let (supply, policy) = (&read.managers.supply, &read.managers.policy);
    assert!(rt; supply.len() == 2 && policy.len() == 1);
    assert!(rt;
        (supply[0].number, supply[1].number, policy[0].number)
            == (7, 9_223_372_036_854_775_807, 1_000_000)
    );
    assert!(rt;
        supply[0].code.as_slice() == [Instr::Copy(3, 2), Instr::Add(3, 1), Instr::Halt].as_slice()
    );
    assert!(rt; policy[0].code.as_slice() == [Instr::Set(3, 1)].as_slice());
    Ok(())
}
