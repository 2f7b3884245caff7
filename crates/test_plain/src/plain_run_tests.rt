use crate::scripts_played::played;
use base_types::Answer;
use plain_runs::against;
use plain_states::PlainAtlas;
use script_reading::read_script;
use script_types::{ScriptFault, Why};
use std::test::Fail;

/// Locus `l` prints 5, and locus `m` prints 0; `m` is picked first.
const TWO_OF_EACH: &str = "steps = 100
order = ['m', 'l', 'm']
program.five = ['set r0 5', 'print r0', 'halt']
program.zero = ['print r1', 'halt']
container = [{ name = 'a', pages = 1, program = 'five' }, { name = 'b', pages = 1, program = 'zero' }]
locus = [{ name = 'l', host = 'a' }, { name = 'm', host = 'b' }]
";

#[test]
fn picks_come_before_rounds(rt: HostRuntime) -> Result<(), Fail> {
    let played = played(rt.alloc(), TWO_OF_EACH)?;
    let actors = [1, 2, 41, 42, 0, 42, 41, 42, 41, 41];
    assert!(rt; played.whole);
    assert!(rt; played.history.len() == 10);
    for (entry, actor) in played.history.iter().zip(actors) {
        assert!(rt; entry.actor.number() == actor);
    }
    let printed = [(5, 0), (8, 5)];
    for &(i, value) in &printed {
        let entry = played.history.get(i).ok_or("an entry")?;
        assert!(rt; entry.answer == Answer::Print(value));
    }
    Ok(())
}

#[test]
fn a_name_of_the_other_kind_clashes(rt: HostRuntime) -> Result<(), Fail> {
    let alloc = rt.alloc();
    let script = read_script(alloc, TWO_OF_EACH.as_bytes())?.script;
    for &(name, key) in &[("m", "locus.1.name"), ("a", ""), ("x", "")] {
        let atlas = PlainAtlas {
            containers: vec![in alloc; String::from_str(alloc, name)?]?,
            loci: Vec::new(alloc),
            edges: Vec::new(alloc),
        };
        match against(alloc, &script, &atlas) {
            Ok(()) => assert!(rt; key == ""),
            Err(ScriptFault::Memory) => assert!(rt; false, "memory"),
            Err(ScriptFault::Refused(refusal)) => {
                assert!(rt; refusal.why == Why::Clash);
                assert!(rt; refusal.key.as_str() == key);
            }
        }
    }
    Ok(())
}
