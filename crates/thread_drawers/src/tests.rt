ghost use Rattle.std.specs.Prelude.{◌≡◌, ◌∷◌, [], IfSome, Some, replicate, slice_get};

use crate::cabinets::Cabinet;
use crate::drawers::{Drawer, Store};
use std::alloc::Global;
use std::marker::Brand;
use std::sync::Wait;
use std::test::*;
use std::thread;
use std::thread::Threads;
use thread_ties::{Bond, Opened};

/// The drawers of the places 3 and 41, and the store of all.
fn two_drawers<B: Bond<u64>>(alloc: Global, opened: Opened<u64>) -> Option<Cabinet<B>>
    requires name { opened.table ≡ B.values_table }
    requires values { B.first_values ≡ replicate 64 7 }
{
    let values = vec![in alloc; 7; 64].ok()?;
    let (authority, mut fragments) = opened.named::<B>(alloc, 64).ok()?;
    let other = Drawer::new(41, 7, fragments.remove(41));
    let one = Drawer::new(3, 7, fragments.remove(3));
    Some(Cabinet::new(one, other, Store::new(values, authority)))
}

/// Puts a hundred numbers from this one on into both drawers. Each replaces what was there.
fn put_some<B: Bond<u64>, R: Wait>(rt: &R, cabinet: &Cabinet<B>, from: u64) {
    for i in 0..100_u64 {
        let number = from.wrapping_add(i);
        cabinet.put_into_one(rt, number);
        cabinet.put_into_other(rt, number);
    }
}

/// Two threads put numbers in. Afterwards both drawers have what the store has.
fn two_threads<B: Bond<u64> + Send + Sync, R: Threads + Wait + Sync>(
    rt: &R,
    alloc: Global,
    opened: Opened<u64>,
) -> Option<(Vec<u64>, (usize, u64), (usize, u64))>
    requires name { opened.table ≡ B.values_table }
    requires values { B.first_values ≡ replicate 64 7 }
    ensures one { IfSome result (λ r. slice_get r.0.items r.1.0 ≡ Some r.1.1) }
    ensures other { IfSome result (λ r. slice_get r.0.items r.2.0 ≡ Some r.2.1) }
{
    let cabinet = two_drawers::<B>(alloc, opened)?;
    let shared = &cabinet;
    thread::join(
        rt,
        move || put_some(rt, shared, 1000),
        move || put_some(rt, shared, 2000),
    );
    Some(cabinet.close())
}

#[test]
fn drawers_and_the_store_agree_after_two_threads(rt: HostRuntime) -> Result<(), Fail> {
    let Ok(opened) = Opened::new(rt.alloc()) else {
        return Err(Fail::from("memory"));
    };
    let Some((values, one, other)) = two_threads::<Brand, HostRuntime>(&rt, rt.alloc(), opened)
    else {
        return Err(Fail::from("memory"));
    };
    assert!(rt; values.len() == 64 && one.0 == 3 && other.0 == 41);
    assert!(rt; values[3] == one.1 && values[41] == other.1 && values[0] == 7);
    assert!(rt; one.1 == 1099 || one.1 == 2099);
    assert!(rt; other.1 == 1099 || other.1 == 2099);
    Ok(())
}

/// A store of one number, whose drawer gets two others. What it finds in the drawer each time.
fn one_drawer<B: Bond<u64>>(alloc: Global, opened: Opened<u64>) -> Option<(u64, u64)>
    requires name { opened.table ≡ B.values_table }
    requires values { B.first_values ≡ 5 ∷ [] }
    ensures { IfSome result (λ r. (r.0 ≡ 5) × (r.1 ≡ 6)) }
{
    let values = vec![in alloc; 5; 1].ok()?;
    let (authority, mut fragments) = opened.named::<B>(alloc, 1).ok()?;
    let mut drawer = Drawer::new(0, 5, fragments.remove(0));
    let mut store = Store::new(values, authority);
    let first = store.move_into(&mut drawer, 6);
    let second = store.move_into(&mut drawer, 7);
    Some((first, second))
}

#[test]
fn one_value_is_a_set_too(rt: HostRuntime) -> Result<(), Fail> {
    let Ok(opened) = Opened::new(rt.alloc()) else {
        return Err(Fail::from("memory"));
    };
    let Some((first, second)) = one_drawer::<Brand>(rt.alloc(), opened) else {
        return Err(Fail::from("memory"));
    };
    assert!(rt; first == 5 && second == 6);
    Ok(())
}
