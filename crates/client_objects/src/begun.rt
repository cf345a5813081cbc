//! The names that a mounted stack starts with. What they are is this project's own rule.

ghost use Rattle.std.specs.Prelude.{◌≡◌, ◌≤◌, [], Some, None, IfOk, length, map, if◌then◌else◌};
ghost use Rattle.std.specs.List.{AllByRecursion, IsDistinct};
ghost use Rattle.std.specs.Str.{bytes_eq};
ghost use Rattle.hist_plain.specs.declared.TheConstants.{MAX_NODES};
ghost use Rattle.stack_accept.specs.Mount.{is_view};
ghost use Rattle.name_context.specs.Start.{start_names};
ghost use Rattle.client_objects.specs.Views.{views_from, file_names, names_at_start};
ghost use Rattle.client_objects.specs.Begun.{StandsAtStart, HasContexts, HasObjects};

use name_context::Names;
use stack_accept::{FileEntry, Mounted, NodeEntry};
use std::alloc::{AllocError, Global};
use value_types::Text;

/// The view of a node, which has this number; none if the node has no view. An error is want of memory.
fn view_of(number: u32, node: &NodeEntry) -> Result<Option<(Text, u32)>, AllocError>
    ensures { IfOk result (λ view. view ≡ (if is_view node.now.kind then Some (node.now.name, number) else None)) }
{
    if !node.kind.is_view() {
        return Ok(None);
    }
    Ok(Some((node.name.clone()?, number)))
}

/// The views, each with the number of its node, in the order of the nodes. An error is want of memory.
fn views_of(alloc: Global, nodes: &[NodeEntry]) -> Result<Vec<(Text, u32)>, AllocError>
    requires { length nodes.now ≤ MAX_NODES }
    ensures { IfOk result (λ views. views.items ≡ views_from 0 nodes.now) }
{
    let mut views = Vec::new(alloc);
    for (number, node) in nodes.iter().enumerate() {
        if let Some(view) = view_of(number as u32, node)? {
            views.push(view)?;
        }
    }
    Ok(views)
}

/// The names of the files, in their order. An error is want of memory.
fn names_of(alloc: Global, files: &[FileEntry]) -> Result<Vec<Text>, AllocError>
    ensures { IfOk result (λ names. names.items ≡ file_names files.now) }
{
    let mut names = Vec::new(alloc);
    for file in files {
        names.push(file.name.clone()?)?;
    }
    Ok(names)
}

/// The names that a mounted stack starts with: a context for each view, in the order of the nodes, and in it a singleton object
/// for each file under the file's name. An error is want of memory.
pub fn start_names(alloc: Global, mount: &Mounted) -> Result<Names, AllocError>
    ensures { IfOk result (λ names. names ≡ record { began = start_names (views_from 0 mount.now.nodes) (file_names mount.now.files); history = [] }) }
{
    let views = views_of(alloc, mount.nodes())?;
    let files = names_of(alloc, mount.files())?;
    Names::start(alloc, &views, &files)
}

/// What stands in the names that a mounted stack starts with: contexts, and objects that lead to a view and a file of the stack;
/// each view has its context, and each file its object there. It does no work.
pub fn start_is_of_stack(mount: &Mounted)
    ensures views { IsDistinct bytes_eq (map (λ view. view.0) (views_from 0 mount.now.nodes)) }
    ensures files { IsDistinct bytes_eq (file_names mount.now.files) }
    ensures stands { AllByRecursion (λ name. StandsAtStart mount.now name.kept) (names_at_start mount.now) }
    ensures contexts { HasContexts mount.now }
    ensures objects { HasObjects mount.now }
{
    let _nodes = mount.nodes();
}
