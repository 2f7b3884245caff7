//! A pass: the items of a worker's steps, under a number of its own.
ghost use Rattle.std.specs.Prelude.{◌≡◌, ◌<◌, ◌^◌, [], IfOk, OnOk};
ghost use Rattle.thread_board.specs.declared.views.Role.TheVariants.{Note};

use crate::lines::{Line, Placed};
use crate::seats::draw;
use crate::slates::{Bench, Slate};
use crate::views::{BoardSeat, PassItem};
use std::alloc::{AllocError, Global};
use std::marker::{Model, PhantomData};
use std::sync::Wait;

/// No number and no count of items passes 2^62.
pub const MOST_COUNT: u64 = 1 << 62;

/// The first number that is a pass's. Those before it are the seats' that write commits and items.
const FIRST_PASS: u64 = 2;

/// What knows the table, but drew no number.
#[derive(Drop)]
pub struct Fresh<C: Line, T: Placed, B: Bench> {
    seat: BoardSeat<C, T>,
    of: PhantomData<B>,
}

impl<C: Line, T: Placed, B: Bench> Model for Fresh<C, T, B> {
    ghost use Rattle.std.specs.Prelude.{◌≡◌, []};
    ghost use Rattle.thread_board.specs.declared.views.Role.TheVariants.{Note};

    ghost Value = { Unit {0} };

    ghost view = { λ f. tt };

    ghost invariant = { λ f. (f.seat.table_id ≡ B.slate) × (f.seat.me.1 ≡ []) × (f.seat.me.0.role ≡ Note) };
}

/// A pass. Contracts see its number, its items, and how many more have room. Its items stand among all items, in their order.
#[derive(Drop)]
pub struct Pass<C: Line, T: Placed, B: Bench> {
    pub(crate) number: u64,
    pub(crate) items: Vec<PassItem<T>>,
    pub(crate) seat: BoardSeat<C, T>,
    pub(crate) of: PhantomData<B>,
}

impl<C: Line, T: Placed, B: Bench> Model for Pass<C, T, B> {
    ghost use Rattle.std.specs.Prelude.{◌≡◌, ◌-◌, ◌<◌, [], vec_len, vec_capacity};
    ghost use Rattle.thread_board.specs.declared.views.Role.TheVariants.{Pass as IsPass};
    ghost use Rattle.thread_board.specs.Items.{AllOf, IsWithin};
    ghost use Rattle.thread_board.specs.Sides.{PassSeen};

    ghost Value = { PassSeen T };

    ghost view = { λ p. record { number = p.number; items = p.items.items; room = vec_capacity p.items - vec_len p.items } };

    ghost invariant = { λ p. (p.seat.table_id ≡ B.slate) × (p.seat.me.1 ≡ []) × (p.seat.me.0.role ≡ IsPass p.number) × (p.seat.me.0.commits ≡ []) × (1 < p.number) × IsWithin p.items.items p.seat.me.0.items × AllOf p.number p.items.items };
}

impl<C: Line, T: Placed, B: Bench> Fresh<C, T, B> {
    pub(crate) fn of(seat: BoardSeat<C, T>) -> Fresh<C, T, B>
        requires { (seat.table_id ≡ B.slate) × (seat.me.1 ≡ []) × (seat.me.0.role ≡ Note) }
    {
        Fresh {
            seat,
            of: PhantomData,
        }
    }

    /// The pass of that number, where it is the next one. Else the next one, to be tried then. One step at the table.
    pub fn draw(
        self,
        alloc: Global,
        slate: &Slate<C, T, B>,
        number: u64,
    ) -> Result<Pass<C, T, B>, (Fresh<C, T, B>, u64)>
        requires { (1 < number) × (number < 2 ^ 62) }
        ensures ok { IfOk result (λ p. (p.number ≡ number) × (p.items ≡ [])) }
    {
        let Fresh { mut seat, of: _ } = self;
        let next = draw(&slate.table, &mut seat, number);
        if next != number {
            return Err((Fresh::of(seat), next));
        }
        Ok(Pass {
            number,
            items: Vec::new(alloc),
            seat,
            of: PhantomData,
        })
    }

    /// The pass of the next number. Where all numbers are drawn, it waits for ever.
    pub fn into_pass<R: Wait>(self, rt: &R, alloc: Global, slate: &Slate<C, T, B>) -> Pass<C, T, B>
        ensures { (1 < result.number) × (result.items ≡ []) }
    {
        let mut fresh = self;
        let mut number = FIRST_PASS;
        for _ in rt.forever() {
            if number >= MOST_COUNT {
                continue;
            }
            match fresh.draw(alloc, slate, number) {
                Ok(pass) => return pass,
                Err((same, next)) => {
                    fresh = same;
                    number = next.max(FIRST_PASS);
                }
            }
        }
        unreachable!()
    }
}

impl<C: Line, T: Placed, B: Bench> Pass<C, T, B> {
    /// The number of the pass.
    pub fn number(&self) -> u64
        ensures { result ≡ self.now.number }
    {
        self.number
    }

    /// The items so far.
    pub fn items(&self) -> &[PassItem<T>]
        ensures { result.now ≡ self.now.items }
    {
        self.items.as_slice()
    }

    /// Room for one item more.
    pub fn reserve(&mut self) -> Result<(), AllocError>
        ensures pass { (self.new.number ≡ self.old.number) × (self.new.items ≡ self.old.items) }
        ensures room { OnOk result (0 < self.new.room) }
    {
        self.items.reserve(1)
    }
}
