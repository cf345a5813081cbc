//! What the bytes and doors of a replicon object of the names say.

ghost use Rattle.std.specs.Prelude.{◌≡◌, ◌==◌, ◌&&◌, Some, IfSome, length};
ghost use Rattle.std.specs.List.{AllByRecursion, list_all};
ghost use Rattle.marshal_buf.specs.Reading.{rest_of};
ghost use Rattle.stack_accept.specs.Mount.{is_view_in};
ghost use Rattle.sub_replicon.specs.Replicas.{AreReplicas};
ghost use Rattle.name_context.specs.Names.{kept_object};
ghost use Rattle.client_replicas.specs.Received.{LeadsOnto, leads_onto, received_doors};

use marshal_buf::{Buf, Door, Reader};
use stack_accept::Mounted;
use sub_replicon::{DoorList, REPLICON, read_doors};

/// The doors of the replicon object that the names keep, in order, if it is one, with nothing left over, whose doors lead to views and files of
/// the stack. It takes no memory.
pub fn received_doors(mount: &Mounted, stored: &Buf) -> Option<DoorList>
    ensures is { result ≡ received_doors mount.now (Some (kept_object stored.now)) }
    ensures of { IfSome result AreReplicas }
    ensures lead { IfSome result (AllByRecursion (LeadsOnto mount.now)) }
{
    let mut from = stored.reader();
    let Ok(id) = from.get_u16() else {
        return None;
    };
    if id != REPLICON {
        return None;
    }
    let Ok(doors) = read_doors(&mut from) else {
        return None;
    };
    if !ends_there(&from, stored, doors.as_slice()) {
        return None;
    }
    if !all_lead(mount, doors.as_slice()) {
        return None;
    }
    Some(doors)
}

/// Whether nothing is left behind an object that was read, and its doors are all that came.
fn ends_there(from: &Reader<'_>, stored: &Buf, doors: &[Door]) -> bool
    ensures { result ≡ ((length (rest_of from.now) == 0) && (length stored.now.doors == length doors.now)) }
{
    from.rest().is_empty() && stored.doors_len() as usize == doors.len()
}

/// Whether each of the doors leads to a view and a file of the stack.
fn all_lead(mount: &Mounted, doors: &[Door]) -> bool
    ensures { result ≡ list_all (leads_onto mount.now) doors.now }
{
    doors.iter().all(|door| leads_onto(mount, *door))
}

/// Whether the door leads to a view and a file of the stack.
fn leads_onto(mount: &Mounted, door: Door) -> bool
    ensures { result ≡ leads_onto mount.now door }
{
    is_view(mount, door.node) && (door.file as usize) < mount.files().len()
}

/// Whether the node of the number is a view.
fn is_view(mount: &Mounted, node: u32) -> bool
    ensures { result ≡ is_view_in mount.now.nodes node }
{
    match mount.nodes().get(node as usize) {
        Some(node) => node.kind.is_view(),
        None => false,
    }
}
