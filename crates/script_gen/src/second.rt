//! The second phase of a generated script.

ghost use Rattle.std.specs.Prelude.{◌≡◌, ◌<◌, ◌≤◌, ◌+◌, ◌^◌, IfOk, OnOk, length};
ghost use Rattle.script_gen.specs.Shape.{IsShape, seat_of};
ghost use Rattle.script_gen.specs.Draw.{next_state};
ghost use Rattle.script_gen.specs.Made.{call_at, state_behind, called};

use crate::MAX_CALLS;
use crate::access::{read_by, write_by};
use crate::aim::{aim_at, writes};
use crate::draws::draw;
use crate::first::{put_line, seat_of};
use crate::shape::Shape;
use script_text::{Call, CallLine};
use std::alloc::{AllocError, Global};
use value_types::Items;

/// The call of a number; the state moves on behind it.
#[tactic(auto, unfolding(crate::specs::Made::call_at, crate::specs::Made::writes_at, crate::specs::Made::state_behind))]
fn call_at(alloc: Global, shape: &Shape, number: u32, state: &mut u32) -> Result<Call, AllocError>
    requires { IsShape shape.now }
    ensures call { IfOk result (λ call. call ≡ call_at shape.now number state.old) }
    ensures state { state.new ≡ state_behind shape.now number state.old }
{
    let client = number % 8;
    let seat = seat_of(shape, client);
    let aim = aim_at(shape, client, state);
    if writes(shape, client, number, aim) {
        let drawn = draw(state);
        write_by(alloc, seat.maps, shape.page_size, aim, drawn)
    } else {
        read_by(alloc, seat.maps, shape.page_size, aim)
    }
}

/// The second phase: so many calls, each by the next client. Its first line has this number in the
/// text.
pub(crate) fn called(
    alloc: Global,
    shape: &Shape,
    first: u32,
    seed: u32,
    calls: u32,
) -> Result<Items<CallLine>, AllocError>
    requires shape { IsShape shape.now }
    requires room { first ≤ 1000 }
    requires calls { calls ≤ MAX_CALLS }
    ensures { IfOk result (λ lines. lines ≡ called shape.now first seed calls) }
{
    let mut lines = Items::new(alloc);
    let mut state = seed;
    for number in 0..calls {
        let call = call_at(alloc, shape, number, &mut state)?;
        put_line(&mut lines, first, number % 8, call)?;
    }
    Ok(lines)
}
