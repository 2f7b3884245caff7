use base_types::{Instr, Rights};
use script_drill::drill_script;
use std::test::Fail;

// The values are those of a PCG generator (XSH RR 64/32) written apart, which gives the reference's words for state 42 on stream 54:
// 0xa15c02b7, 0x7b47f409, 0xba1d3330. With state 1 it begins with 2607537577, 204602440, 3466066159, 2183922644, 2487127282.

// The first container's pages, tag and interval are these words modulo 16, 1,000 and 40. It shows no other, and draws none.
#[test]
fn first_words_of_the_first_drill(rt: HostRuntime) -> Result<(), Fail> {
    let script = drill_script(rt.alloc(), 1)?;
    let table = script.containers.first().ok_or("no container")?;
    assert!(rt; table.pages == 10);
    assert!(rt; table.tag == 440);
    assert!(rt; table.every == 39);
    assert!(rt; table.regions.is_empty());
    let code = [
        Instr::Set(6, 3),
        Instr::Print(4),
        Instr::Print(2),
        Instr::Invoke(6),
        Instr::Snap(6),
    ];
    assert!(rt; table.code.as_slice().starts_with(&code));
    assert!(rt; table.code.get(39) == Some(&Instr::Jump(0)));
    Ok(())
}

#[test]
fn last_container_of_the_first_drill(rt: HostRuntime) -> Result<(), Fail> {
    let script = drill_script(rt.alloc(), 1)?;
    let table = script.containers.get(11).ok_or("no container")?;
    assert!(rt; table.name.as_str() == "c11");
    assert!(rt; table.pages == 8);
    assert!(rt; table.tag == 353);
    assert!(rt; table.every == 38);
    let region = table.regions.first().ok_or("no region")?;
    assert!(rt; region.target.as_str() == "c10");
    assert!(rt; table.code.first() == Some(&Instr::Snap(6)));
    assert!(rt; table.code.get(37) == Some(&Instr::Load(5, 1)));
    assert!(rt; table.code.get(38) == Some(&Instr::Invoke(6)));
    assert!(rt; table.code.get(39) == Some(&Instr::Jump(0)));
    Ok(())
}

#[test]
fn last_words_of_the_first_drill(rt: HostRuntime) -> Result<(), Fail> {
    let script = drill_script(rt.alloc(), 1)?;
    let table = script.loci.last().ok_or("no locus")?;
    assert!(rt; table.name.as_str() == "l5");
    assert!(rt; table.host.as_str() == "c5");
    assert!(rt; table.every == 2);
    let first = table.caps.first().ok_or("no capability")?;
    assert!(rt; first.rights == Rights(110));
    let last = table.caps.get(11).ok_or("too few")?;
    assert!(rt; last.rights == Rights(71));
    let atlas = table.caps.get(12).ok_or("not on the atlas")?;
    assert!(rt; atlas.entity.as_str() == "atlas");
    assert!(rt; atlas.rights == Rights(128));
    Ok(())
}
