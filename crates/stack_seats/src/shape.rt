//! The shape of a mounted stack, for which a script is generated.

ghost use Rattle.std.specs.Prelude.{◌≡◌, IfOk, drop, map};
ghost use Rattle.script_gen.specs.Shape.{IsShape};
ghost use Rattle.stack_accept.specs.Check.{machine_name};
ghost use Rattle.stack_seats.specs.Seats.{AreNames, AreOnMachines, is_manager, node_name, view_name, seat_of, seats_of, file_of, shape_of};

use script_gen::{Shape, ShapeFile, ShapeSeat};
use stack_accept::{FileEntry, Kind, Mounted, NodeEntry};
use std::alloc::{AllocError, Global};
use value_types::{Items, Text};

/// The name of the machine of a number; a number without a machine has the empty name.
fn machine_name(machines: &[Text], machine: u32) -> &str
    ensures { result.now ≡ machine_name machines.now machine }
{
    match machines.get(machine as usize) {
        Some(name) => name.as_str(),
        None => "",
    }
}

/// The name of the node of a number; a number without a node has the empty name.
fn node_name(nodes: &[NodeEntry], number: u32) -> &str
    ensures { result.now ≡ node_name nodes.now number }
{
    match nodes.get(number as usize) {
        Some(node) => node.name.as_str(),
        None => "",
    }
}

/// Whether a kind is a virtual memory manager.
fn is_manager(kind: Kind) -> bool
    ensures { result ≡ is_manager kind }
{
    matches!(kind, Kind::Vmm)
}

/// The view of a seat: the node, or what a memory manager stands on by the text.
fn view_name<'a>(nodes: &'a [NodeEntry], node: &'a NodeEntry) -> &'a str
    ensures { result.now ≡ view_name nodes.now node.now }
{
    if is_manager(node.kind) {
        node_name(nodes, node.below)
    } else {
        node.name.as_str()
    }
}

/// The seat of a node.
fn seat_of(alloc: Global, mount: &Mounted, node: &NodeEntry) -> Result<ShapeSeat, AllocError>
    ensures { IfOk result (λ seat. seat ≡ seat_of mount.now node.now) }
{
    Ok(ShapeSeat {
        view: Text::of(alloc, view_name(mount.nodes(), node))?,
        machine: Text::of(alloc, machine_name(mount.machines(), node.machine))?,
        maps: is_manager(node.kind),
    })
}

/// The nodes but the ground.
fn layers(mount: &Mounted) -> &[NodeEntry]
    ensures { result.now ≡ drop 1 mount.now.nodes }
{
    &mount.nodes()[1..]
}

/// The seats, in the order of the nodes.
fn seats_of(alloc: Global, mount: &Mounted) -> Result<Items<ShapeSeat>, AllocError>
    ensures { IfOk result (λ seats. seats ≡ seats_of mount.now) }
{
    let mut seats = Items::new(alloc);
    for node in layers(mount) {
        seats.push(seat_of(alloc, mount, node)?)?;
    }
    Ok(seats)
}

/// A file, by its name and pages.
fn file_of(file: &FileEntry) -> Result<ShapeFile, AllocError>
    ensures { IfOk result (λ found. found ≡ file_of file.now) }
{
    Ok(ShapeFile {
        name: file.name.clone()?,
        pages: file.pages,
    })
}

/// The files, by their names and pages.
fn files_of(alloc: Global, files: &[FileEntry]) -> Result<Items<ShapeFile>, AllocError>
    ensures { IfOk result (λ found. found ≡ map file_of files.now) }
{
    let mut found = Items::new(alloc);
    for file in files {
        found.push(file_of(file)?)?;
    }
    Ok(found)
}

/// What a generator sees of a mounted stack: its page size, its files, and a seat for each layer: a
/// view with its machine, or for a memory manager the view that it stands on by the text with the
/// manager's machine. The only error is want of memory.
pub fn shape_of(alloc: Global, mount: &Mounted) -> Result<Shape, AllocError>
    ensures value { IfOk result (λ shape. shape ≡ shape_of mount.now) }
    // It is within the limits, if the stack's names are names.
    ensures shape { AreNames mount.now → IfOk result (λ shape. IsShape shape) }
    ensures machines { IfOk result (λ shape. AreOnMachines mount.now shape.seats) }
{
    Ok(Shape {
        page_size: mount.page_size(),
        files: files_of(alloc, mount.files())?,
        seats: seats_of(alloc, mount)?,
    })
}
