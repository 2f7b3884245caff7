ghost use Rattle.std.specs.Prelude.{◌≡◌, map, option_map};
ghost use Rattle.base_managers.specs.Managing.{manager_of, managers_of};
ghost use Rattle.act_managers.specs.Answering.{CanAnswer, book_wish, book_word, manager_named};

use crate::runs::run_manager;
use base_managers::{ScriptManager, ScriptManagers};
use edge_managers::{Answers, AskedPolicy, AskedSupplier, Gate, Policy, Supplier};
use std::marker::PhantomData;

/// The managers of a script over the outer pair. It is a supplier and a policy. An answer costs a look at each of the script's managers
/// of its kind, 16 at most, and then a run of the program or a call of the outer manager.
#[derive(Drop)]
pub struct Book<'a, S, P> {
    pub managers: &'a ScriptManagers,
    pub outer: Gate<S, P>,
}

/// The managers of a script over two closures. `N` has the closures' answers.
pub fn book_over<'a, F: Fn(u64, u32, u16) -> u64, G: Fn(u32, u64) -> bool, N: Answers>(
    managers: &'a ScriptManagers,
    supply: &'a F,
    policy: &'a G,
) -> Book<'a, AskedSupplier<'a, F, N>, AskedPolicy<'a, G, N>>
    ensures managers { result.managers.now ≡ managers.now }
    ensures supply { result.outer.supply.ask.now ≡ supply.now }
    ensures policy { result.outer.policy.ask.now ≡ policy.now }
{
    let supplier: AskedSupplier<F, N> = AskedSupplier {
        ask: supply,
        of: PhantomData,
    };
    let asked: AskedPolicy<G, N> = AskedPolicy {
        ask: policy,
        of: PhantomData,
    };
    Book {
        managers,
        outer: Gate::new(supplier, asked),
    }
}

/// The first manager of this number.
fn manager_named(managers: &[ScriptManager], number: u64) -> Option<&ScriptManager>
    ensures { option_map (λ manager. manager_of manager.now) result ≡ manager_named (map manager_of managers.now) number }
{
    managers.iter().find(|manager| manager.number == number)
}

impl<'a, S: Supplier, P: Policy> Supplier for Book<'a, S, P> {
    ghost word = { λ book. book_word (managers_of book.managers.now).supply (S.word book.outer.supply) };

    ghost keeps = { λ book. CanAnswer (managers_of book.managers.now).supply × S.keeps book.outer.supply };

    fn word(&self, tag: u64, page: u32, place: u16) -> u64 {
        match manager_named(self.managers.supply.as_slice(), tag) {
            Some(manager) => run_manager(
                manager.code.as_slice(),
                [tag, page as u64, place as u64, 0, 0, 0, 0, 0],
            ),
            None => self.outer.supply.word(tag, page, place),
        }
    }
}

impl<'a, S: Supplier, P: Policy> Policy for Book<'a, S, P> {
    ghost wish = { λ book. book_wish (managers_of book.managers.now).policy (P.wish book.outer.policy) };

    ghost keeps = { λ book. CanAnswer (managers_of book.managers.now).policy × P.keeps book.outer.policy };

    fn wish(&self, every: u32, since: u64) -> bool {
        match manager_named(self.managers.policy.as_slice(), every as u64) {
            Some(manager) => run_manager(
                manager.code.as_slice(),
                [every as u64, since, 0, 0, 0, 0, 0, 0],
            ) != 0,
            None => self.outer.policy.wish(every, since),
        }
    }
}
