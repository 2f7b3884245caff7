//! A script with one container and its locus, and atlases that it meets.
use base_types::Kind;
use data_atlas::Atlas;
use script_fits::{NextTable, Progress, against, next_table};
use script_types::{Script, ScriptContainer, ScriptFault, ScriptLocus, Why};
use std::alloc::{AllocError, Global};
use std::test::Fail;

fn container(alloc: Global) -> Result<ScriptContainer, AllocError> {
    Ok(ScriptContainer {
        name: String::from_str(alloc, "box")?,
        pages: 1,
        tag: 0,
        every: 0,
        code: Vec::new(alloc),
        entry: None,
        regions: Vec::new(alloc),
        caps: Vec::new(alloc),
    })
}

fn script(alloc: Global) -> Result<Script, AllocError> {
    let mut script = Script {
        steps: 1,
        frames: 1,
        order: Vec::new(alloc),
        containers: Vec::new(alloc),
        loci: Vec::new(alloc),
    };
    script.containers.push(container(alloc)?)?;
    script.loci.push(ScriptLocus {
        name: String::from_str(alloc, "run")?,
        host: String::from_str(alloc, "box")?,
        at: 0,
        every: 0,
        caps: Vec::new(alloc),
    })?;
    Ok(script)
}

/// Whether the script is refused for its locus's name.
fn clashes(alloc: Global, script: &Script, atlas: &Atlas) -> bool {
    match against(alloc, script, atlas) {
        Err(ScriptFault::Refused(refusal)) => {
            refusal.why == Why::Clash && refusal.key.as_str() == "locus.0.name"
        }
        _ => false,
    }
}

#[test]
fn a_container_is_next_and_then_its_locus(rt: HostRuntime) -> Result<(), Fail> {
    let script = script(rt.alloc())?;
    let mut atlas = Atlas::new();
    let first = next_table(&atlas, &script, &mut Progress::new());
    assert!(rt; matches!(first, Some(NextTable::Container(_))));
    let _ = atlas.birth(Some("box"), Kind::Container)?;
    assert!(rt; against(rt.alloc(), &script, &atlas).is_ok());
    let second = next_table(&atlas, &script, &mut Progress::new());
    assert!(rt; matches!(second, Some(NextTable::Locus(_))));
    Ok(())
}

#[test]
fn a_name_of_the_other_kind_is_refused(rt: HostRuntime) -> Result<(), Fail> {
    let script = script(rt.alloc())?;
    let mut atlas = Atlas::new();
    let _ = atlas.birth(Some("run"), Kind::Container)?;
    assert!(rt; clashes(rt.alloc(), &script, &atlas));
    Ok(())
}
