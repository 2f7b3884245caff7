//! Managers as programs, asked through a gate.
use act_managers::{Book, run_manager};
use base_managers::{ScriptManager, ScriptManagers};
use base_types::Instr;
use edge_managers::{CountedWords, EveryVersions, Gate, Supplier};

/// The word at a place is the place and the page.
const SUM: [Instr; 3] = [Instr::Copy(3, 2), Instr::Add(3, 1), Instr::Halt];

#[test]
fn a_program_answers_register_three(rt: HostRuntime) {
    assert!(rt; run_manager(&SUM, [7, 1, 2, 0, 0, 0, 0, 0]) == 3);
    let forever = [Instr::Jump(0)];
    assert!(rt; run_manager(&forever, [7, 1, 2, 0, 0, 0, 0, 0]) == 0);
    // two acts a round: 1,000 acts are 500 sums
    let counting = [Instr::Add(3, 4), Instr::Jump(0)];
    assert!(rt; run_manager(&counting, [0, 0, 0, 0, 1, 0, 0, 0]) == 500);
}

#[test]
fn a_book_asks_its_programs_first(rt: HostRuntime) {
    let sum = Vec::from_array(rt.alloc(), SUM).expect(&rt, "memory");
    let yes = Vec::from_array(rt.alloc(), [Instr::Set(3, 1)]).expect(&rt, "memory");
    let supplier = ScriptManager {
        number: 7,
        code: sum,
    };
    let policy = ScriptManager {
        number: 5,
        code: yes,
    };
    let managers = ScriptManagers {
        supply: Vec::from_array(rt.alloc(), [supplier]).expect(&rt, "memory"),
        policy: Vec::from_array(rt.alloc(), [policy]).expect(&rt, "memory"),
    };
    let outer = Gate::new(CountedWords, EveryVersions);
    let book = Book {
        managers: &managers,
        outer,
    };
    let gate = Gate::new(&book, &book);
    let mut page = [0; 128];
    gate.page(7, 1, &mut page);
    assert!(rt; page[2] == 3);
    assert!(rt; book.word(5, 1, 2) == 135);
    assert!(rt; gate.wishes(5, 0));
    assert!(rt; !gate.wishes(4, 3));
}
