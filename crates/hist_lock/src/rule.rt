//! The rule that the lock keeps, and the kinds of step that keep it. Proofs alone read these types: no value of them
//! is made.
//!
//! | Kind of step | On |
//! |---|---|
//! | `Draw`: draw a ticket | word 0, by a compare-exchange from a number below the type's greatest |
//! | `Look`: look at the serving number, and take the slot at the own turn | word 1, by a load |
//! | take the value | the slot, by an exchange |
//! | `Note`: note the length of the list, once a hold | word 2, by a store |
//! | give the value | the slot, by an exchange |
//! | `Pass`: give the slot back and pass the turn on | word 1, by an add of one |
//! | `Ring`: ring the bell of the next ticket | words 3 to 18, by an add of one |
//! | `Cut`: split a seat | word 0, by a load that tells nothing |
//! | `Neighbours`: join two seats | word 0, by a load that tells nothing |
//! | `Settle`: after a join, learn how the two lists lie | word 1, by a load |

use crate::storied::Storied;
use crate::view::{Deed, View};
use atomic_table::{Join, Play, Split, TableRule};
use std::marker::{Brand, PhantomData};

/// The rule: callers take turns in the order of their tickets, and each seat knows a beginning of the list.
pub struct Turns;

impl<T: Storied> TableRule<Option<T>, View<T::Entry, T::Fixed>, Deed<T>> for Turns {
    ghost use Rattle.hist_lock.specs.Rule.{Kept, starting};

    ghost holds = { Kept T.entries T.caller T.fixed };

    ghost first = { starting T.entries T.fixed };
}

/// Draws a ticket.
pub struct Draw;

impl<T: Storied> Play<Option<T>, View<T::Entry, T::Fixed>> for Draw {
    ghost use Rattle.hist_lock.specs.Steps.{Draws};

    ghost then = { Draws };
}

/// Looks at the serving number, and takes the slot at the own turn.
pub struct Look;

impl<T: Storied> Play<Option<T>, View<T::Entry, T::Fixed>> for Look {
    ghost use Rattle.hist_lock.specs.Steps.{Looks};

    ghost then = { Looks T.entries T.caller T.fixed };
}

/// The value that is about to be given. Each call picks it.
pub trait Telling<T> {
    ghost use Rattle.std.specs.Prelude.{Option};

    ghost told: { Option T };
}

impl<T> Telling<T> for Brand {
    ghost use Rattle.std.specs.Prelude.{None};

    ghost told = { None };
}

/// Notes the length of the list of the value that is about to be given.
pub struct Note<N> {
    told: PhantomData<N>,
}

impl<T: Storied, N: Telling<T>> Play<Option<T>, View<T::Entry, T::Fixed>> for Note<N> {
    ghost use Rattle.hist_lock.specs.Steps.{Notes};

    ghost then = { Notes T.entries N.told };
}

/// Gives the slot back and passes the turn on.
pub struct Pass;

impl<T: Storied> Play<Option<T>, View<T::Entry, T::Fixed>> for Pass {
    ghost use Rattle.hist_lock.specs.Steps.{Passes};

    ghost then = { Passes };
}

/// Rings a bell: it tells nothing.
pub struct Ring;

impl<T: Storied> Play<Option<T>, View<T::Entry, T::Fixed>> for Ring {
    ghost use Rattle.hist_lock.specs.Steps.{Rings};

    ghost then = { Rings };
}

/// Tells how the lists of two joined seats lie in what the one seat knows.
pub struct Settle;

impl<T: Storied> Play<Option<T>, View<T::Entry, T::Fixed>> for Settle {
    ghost use Rattle.hist_lock.specs.Steps.{Settles};

    ghost then = { Settles T.caller };
}

/// Puts two neighbouring ranges together.
pub struct Neighbours;

impl<E, F> Join<View<E, F>> for Neighbours {
    ghost use Rattle.hist_lock.specs.Steps.{both, spent};

    ghost both = { both };

    ghost spent = { spent };
}

/// Where a range is cut. Each call picks it.
pub trait Limit {
    ghost use Rattle.std.specs.Prelude.{ℕ};

    ghost at: { ℕ };
}

impl Limit for Brand {
    ghost at = { 0 };
}

/// Cuts a range in two.
pub struct Cut<C> {
    limit: PhantomData<C>,
}

impl<E, F, C: Limit> Split<View<E, F>> for Cut<C> {
    ghost use Rattle.hist_lock.specs.Steps.{below, above};

    ghost left = { below C.at };

    ghost right = { above C.at };
}
