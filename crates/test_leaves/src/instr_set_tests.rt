use arrayvec::ArrayString;
use base_instructions::{BadInstr, read_line, write_line, write_rights};
use base_types::{Instr, Rights};
use std::process::Abort;

fn reads_and_writes(rt: &impl Abort, text: &str, want: Instr) {
    match read_line(text) {
        Ok(instr) => {
            assert!(rt; instr == want, "{text}: {instr:?}");
            let mut out = ArrayString::new();
            write_line(&instr, &mut out);
            assert!(rt; out.as_str() == text);
        }
        Err(bad) => panic!(rt; "{text}: {bad}"),
    }
}

#[test]
fn instructions_are_read_and_written_back(rt: HostRuntime) {
    let lines = [
        ("set r0 5", Instr::Set(0, 5)),
        ("set r7 18446744073709551615", Instr::Set(7, u64::MAX)),
        ("copy r1 r2", Instr::Copy(1, 2)),
        ("add r1 r2", Instr::Add(1, 2)),
        ("sub r1 r2", Instr::Sub(1, 2)),
        ("jump @127", Instr::Jump(127)),
        ("jz r3 @0", Instr::Jz(3, 0)),
        ("load r0 r1", Instr::Load(0, 1)),
        ("store r1 r0", Instr::Store(1, 0)),
        ("invoke r4", Instr::Invoke(4)),
        ("leave r4", Instr::Leave(4)),
        ("return", Instr::Return),
        (
            "map r0 r1 r2 r3 r4 rw",
            Instr::Map(0, 1, 2, 3, 4, Rights(3)),
        ),
        ("unmap r5 r6", Instr::Unmap(5, 6)),
        ("lmap r1 r2 r3 r4 w", Instr::Lmap(1, 2, 3, 4, Rights(2))),
        ("lunmap r1", Instr::Lunmap(1)),
        ("take r1 r2 r3", Instr::Take(1, 2, 3)),
        ("give r1 r2 r3 rwimcskt", Instr::Give(1, 2, 3, Rights(255))),
        ("give r1 r2 r3 -", Instr::Give(1, 2, 3, Rights(0))),
        ("give r1 r2 r3 ic", Instr::Give(1, 2, 3, Rights(20))),
        ("drop r1", Instr::Drop(1)),
        ("make r1 r2 r3 @12", Instr::Make(1, 2, 3, Some(12))),
        ("make r1 r2 r3 -", Instr::Make(1, 2, 3, None)),
        ("spawn r1 @100", Instr::Spawn(1, 100)),
        ("stop r1", Instr::Stop(1)),
        ("go r1", Instr::Go(1)),
        ("snap r1", Instr::Snap(1)),
        ("stabilise r1", Instr::Stabilise(1)),
        ("print r1", Instr::Print(1)),
        ("halt", Instr::Halt),
    ];
    for &(text, want) in &lines {
        reads_and_writes(&rt, text, want);
    }
}

#[test]
fn sets_of_rights_are_written_by_their_letters(rt: HostRuntime) {
    let sets = [(0, "-"), (1, "r"), (3, "rw"), (20, "ic"), (255, "rwimcskt")];
    for &(set, text) in &sets {
        let mut out = ArrayString::new();
        out.push_str("what stood there");
        write_rights(Rights(set), &mut out);
        assert!(rt; out.as_str() == text);
    }
}

#[test]
fn other_texts_are_refused_at_the_first_bad_byte(rt: HostRuntime) {
    let lines = [
        ("", 0),
        ("Set r0 1", 0),
        ("é", 0),
        ("ma r0", 2),
        ("stab", 4),
        ("jumps @1", 4),
        ("halt ", 4),
        ("set", 3),
        ("set r", 5),
        ("set r8 1", 5),
        ("set r0  5", 7),
        ("set r0 +5", 7),
        ("set r0 5 ", 8),
        ("set r0 05", 8),
        ("set r0 18446744073709551616", 26),
        ("jump @128", 8),
        ("jump @130", 8),
        ("map r0 r1 r2 r3 r4 -", 19),
        ("map r0 r1 r2 r3 r4 wr", 20),
        ("give r0 r1 r2 -r", 15),
        ("give r0 r1 r2 wr", 15),
        ("make r0 r1 r2 @", 15),
        ("copy r1 r2 r3", 10),
    ];
    for &(text, place) in &lines {
        assert!(rt; read_line(text) == Err(BadInstr { place }), "at {text}");
    }
}
