//! The names and numbers of a mounted stack's parts.

ghost use Rattle.std.specs.Prelude.{◌≡◌, ◌<◌, ◌&&◌, IfSome, length, position};
ghost use Rattle.std.specs.Str.{bytes_eq};
ghost use Rattle.stack_accept.specs.Mount.{is_view};
ghost use Rattle.tower_core.specs.TreeShape.{IsUpper};
ghost use Rattle.script_meaning.specs.Stack.{disk_name, file_name, layer_of, pages_of, view_of, file_named};

use stack_accept::{FileEntry, Mounted, NodeEntry};
use value_types::Text;

/// The name of the disk of a number; a number without a disk has the empty name.
pub fn disk_name(mount: &Mounted, disk: u32) -> &str
    ensures { result.now ≡ disk_name mount.now disk }
{
    match mount.disks().get(disk as usize) {
        Some(name) => name.as_str(),
        None => "",
    }
}

/// The name of the file of a number; a number without a file has the empty name.
pub fn file_name(mount: &Mounted, file: u32) -> &str
    ensures { result.now ≡ file_name mount.now file }
{
    match mount.files().get(file as usize) {
        Some(entry) => entry.name.as_str(),
        None => "",
    }
}

/// How many pages the file of a number has; a number without a file has none.
pub fn pages_of(mount: &Mounted, file: u32) -> u32
    ensures { result ≡ pages_of mount.now file }
{
    match mount.files().get(file as usize) {
        Some(entry) => entry.pages,
        None => 0,
    }
}

/// Where the view of a name stands among the nodes.
fn place_of_view(nodes: &[NodeEntry], name: &Text) -> Option<usize>
    ensures place { result ≡ position (λ node. is_view node.kind && bytes_eq node.name name.now) nodes.now }
    ensures within { IfSome result (λ place. place < length nodes.now) }
{
    nodes.iter().position(|node| node.kind.is_view() && node.name.as_str() == name.as_str())
}

/// Where the file of a name stands among the files.
fn place_of_file(files: &[FileEntry], name: &Text) -> Option<usize>
    ensures place { result ≡ position (λ file. bytes_eq file.name name.now) files.now }
    ensures within { IfSome result (λ place. place < length files.now) }
{
    files
        .iter()
        .position(|file| file.name.as_str() == name.as_str())
}

/// The node of the view of a name, if there is one. It is a layer above the ground.
pub fn view_of(mount: &Mounted, name: &Text) -> Option<u32>
    ensures node { result ≡ view_of mount.now name.now }
    ensures upper { IfSome result (IsUpper mount.now.tree) }
{
    match place_of_view(mount.nodes(), name) {
        Some(node) => Some(node as u32),
        None => None,
    }
}

/// Where the layer of a name stands among the nodes above the ground.
fn place_of_layer(layers: &[NodeEntry], name: &Text) -> Option<usize>
    ensures place { result ≡ position (λ node. bytes_eq node.name name.now) layers.now }
    ensures within { IfSome result (λ place. place < length layers.now) }
{
    layers
        .iter()
        .position(|node| node.name.as_str() == name.as_str())
}

/// The node of the layer of a name, if there is one: a coherency layer, a distributed layer or a manager, and not the ground.
pub fn layer_of(mount: &Mounted, name: &Text) -> Option<u32>
    ensures node { result ≡ layer_of mount.now name.now }
    ensures upper { IfSome result (IsUpper mount.now.tree) }
{
    match place_of_layer(&mount.nodes()[1..], name) {
        Some(place) => Some(place as u32 + 1),
        None => None,
    }
}

/// The number of the file of a name, if there is one.
pub fn file_named(mount: &Mounted, name: &Text) -> Option<u32>
    ensures number { result ≡ file_named mount.now name.now }
    ensures within { IfSome result (λ file. file < length mount.now.files) }
{
    match place_of_file(mount.files(), name) {
        Some(file) => Some(file as u32),
        None => None,
    }
}
