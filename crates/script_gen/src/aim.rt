//! Where a call goes.

ghost use Rattle.std.specs.Prelude.{◌≡◌, ◌<◌, ◌≤◌, length, IsTrue};
ghost use Rattle.hist_plain.specs.Plain.{IsPageSize};
ghost use Rattle.script_gen.specs.Shape.{IsShape, pages_of};
ghost use Rattle.script_gen.specs.Draw.{state_after};
ghost use Rattle.script_gen.specs.Within.{IsWithin};
ghost use Rattle.script_gen.specs.Aim.{page_by, offset_by, file_by, aim_at, is_turn, writes};

use crate::draws::draw;
use crate::shape::Shape;

/// Four bytes of a file.
#[derive(Clone, Copy, Debug)]
pub struct Aim {
    /// The file's number.
    pub file: u32,
    /// The page, counted from 0.
    pub page: u32,
    /// The first of the four bytes in the page.
    pub off: u32,
}

/// How many pages a file has.
pub(crate) fn pages_of(shape: &Shape, file: u32) -> u32
    ensures { result ≡ pages_of shape.now file }
{
    match shape.files.as_slice().get(file as usize) {
        Some(file) => file.pages,
        None => 0,
    }
}

/// One of the client's own pages, by a draw: its number, or an eighth from there on. If the file has
/// none, any page.
#[tactic(auto, unfolding(crate::specs::Aim::page_by))]
fn page_by(pages: u32, client: u32, drawn: u32) -> u32
    requires some { 1 ≤ pages }
    requires few { pages ≤ 1024 }
    ensures { result ≡ page_by pages client drawn }
{
    if client < pages {
        client + 8 * (drawn % ((pages - client + 7) / 8))
    } else {
        drawn % pages
    }
}

/// A place of four bytes in a page, by a draw.
#[tactic(auto, unfolding(crate::specs::Aim::offset_by))]
fn offset_by(page_size: u32, drawn: u32) -> u32
    requires { IsPageSize page_size }
    ensures { result ≡ offset_by page_size drawn }
{
    4 * (drawn % (page_size / 4))
}

/// The file of a draw.
fn file_by(shape: &Shape, drawn: u32) -> u32
    requires { IsShape shape.now }
    ensures value { result ≡ file_by shape.now drawn }
    ensures within { result < length shape.now.files }
{
    drawn % shape.files.as_slice().len() as u32
}

/// Where a client goes next. It takes three draws.
pub(crate) fn aim_at(shape: &Shape, client: u32, state: &mut u32) -> Aim
    requires { IsShape shape.now }
    ensures aim { result ≡ aim_at shape.now client state.old }
    ensures within { IsWithin shape.now result }
    ensures state { state.new ≡ state_after state.old 3 }
{
    let file = file_by(shape, draw(state));
    let page = page_by(pages_of(shape, file), client, draw(state));
    let off = offset_by(shape.page_size, draw(state));
    Aim { file, page, off }
}

/// Whether the call of a number is in a round of writes: each fourth round of the clients is.
#[tactic(auto, unfolding(crate::specs::Aim::is_turn))]
fn is_turn(number: u32) -> bool
    ensures { result ≡ is_turn number }
{
    (number / 8) % 4 == 3
}

/// Whether the call of a number writes: a client writes only in a file in which it has pages of its
/// own.
pub(crate) fn writes(shape: &Shape, client: u32, number: u32, aim: Aim) -> bool
    ensures { result ≡ writes shape.now client number aim }
{
    is_turn(number) && client < pages_of(shape, aim.file)
}
