//! The clients of a generated script, and its first phase.

ghost use Rattle.std.specs.Prelude.{◌≡◌, ◌<◌, ◌≤◌, ◌+◌, ◌*◌, ◌^◌, IfOk, OnOk, length};
ghost use Rattle.script_gen.specs.Shape.{IsShape, seat_of};
ghost use Rattle.script_gen.specs.Made.{clients_of, with_line, with_file, with_files, opened};

use crate::CLIENTS;
use crate::access::{client_name, map_by, open_by};
use crate::shape::{Shape, ShapeFile, ShapeSeat};
use script_text::{Call, CallLine, ClientLine};
use std::alloc::{AllocError, Global};
use value_types::Items;

/// The seat of a client: the seats in order, and from the first again.
pub(crate) fn seat_of(shape: &Shape, client: u32) -> &ShapeSeat
    requires { IsShape shape.now }
    ensures { result.now ≡ seat_of shape.now client }
{
    let seats = shape.seats.as_slice();
    &seats[client as usize % seats.len()]
}

/// The clients, each on the machine of its seat.
pub(crate) fn clients_of(alloc: Global, shape: &Shape) -> Result<Items<ClientLine>, AllocError>
    requires { IsShape shape.now }
    ensures { IfOk result (λ clients. clients ≡ clients_of shape.now 8) }
{
    let mut clients = Items::new(alloc);
    for client in 0..CLIENTS {
        let machine = seat_of(shape, client).machine.clone()?;
        clients.push(ClientLine {
            name: client_name(alloc, client)?,
            machine,
        })?;
    }
    Ok(clients)
}

/// Puts one more line at the end of a phase, whose first line has this number in the text.
pub(crate) fn put_line(
    lines: &mut Items<CallLine>,
    first: u32,
    client: u32,
    call: Call,
) -> Result<(), AllocError>
    requires { first + length lines.old < 2 ^ 32 }
    ensures { OnOk result (lines.new ≡ with_line first lines.old client call) }
{
    let line = first + lines.as_slice().len() as u32;
    lines.push(CallLine { line, client, call })
}

/// A client opens a file, and maps it if its seat maps.
fn put_file(
    alloc: Global,
    lines: &mut Items<CallLine>,
    first: u32,
    seat: &ShapeSeat,
    client: u32,
    number: u32,
    file: &ShapeFile,
) -> Result<(), AllocError>
    requires { first + length lines.old + 2 < 2 ^ 32 }
    ensures value { OnOk result (lines.new ≡ with_file first seat.now client lines.old number file.now) }
    ensures few { OnOk result (length lines.new ≤ length lines.old + 2) }
{
    put_line(lines, first, client, open_by(alloc, seat, number, file)?)?;
    if !seat.maps {
        return Ok(());
    }
    put_line(lines, first, client, map_by(alloc, number, file)?)
}

/// A client opens each file, and maps it if its seat maps.
fn put_files(
    alloc: Global,
    lines: &mut Items<CallLine>,
    first: u32,
    seat: &ShapeSeat,
    client: u32,
    files: &[ShapeFile],
) -> Result<(), AllocError>
    requires few { length files.now ≤ 16 }
    requires room { first + length lines.old + 32 < 2 ^ 32 }
    ensures value { OnOk result (lines.new ≡ with_files first seat.now client lines.old 0 files.now) }
    ensures few { OnOk result (length lines.new ≤ length lines.old + 2 * length files.now) }
{
    let mut number = 0;
    for file in files {
        put_file(alloc, lines, first, seat, client, number, file)?;
        number += 1;
    }
    Ok(())
}

/// The first phase: each client opens each file, and maps it if its seat maps. Its first line has
/// this number in the text.
pub(crate) fn opened(
    alloc: Global,
    shape: &Shape,
    first: u32,
) -> Result<Items<CallLine>, AllocError>
    requires shape { IsShape shape.now }
    requires room { first ≤ 1000 }
    ensures value { IfOk result (λ lines. lines ≡ opened shape.now first 8) }
    ensures few { IfOk result (λ lines. length lines ≤ 256) }
{
    let mut lines = Items::new(alloc);
    for client in 0..CLIENTS {
        let seat = seat_of(shape, client);
        let files = shape.files.as_slice();
        put_files(alloc, &mut lines, first, seat, client, files)?;
    }
    Ok(lines)
}
