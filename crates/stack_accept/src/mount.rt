//! The tree that the lines of an accepted stack make.

ghost use Rattle.std.specs.Prelude.{◌≡◌, ◌+◌, ◌&&◌, Some, ◌≤◌, ◌<◌, IfOk, IfSome, slice_get, position, OnOk, map, length, filter, reverse, count_by};
ghost use Rattle.std.specs.List.{filter_map, list_any, find};
ghost use Rattle.std.specs.Option.{option_map};
ghost use Rattle.std.specs.Str.{bytes_eq};
ghost use Rattle.stack_accept.specs.Lines.{machine_of, is_disk, is_storage, is_named};
ghost use Rattle.stack_accept.specs.Rules.{is_node, is_first_node};
ghost use Rattle.stack_accept.specs.Plan.{plan_of, plan_back};
ghost use Rattle.stack_accept.specs.Mount.{number_in, page_size_of, file_of, disk_of, with_machine, machines_of, ground_name, node_lines, node_number, node_kind, node_below, node_frames, node_of, nodes_of, goes_round, below_of, via, tree_of};

use crate::entries::{FileEntry, GroundPlan, Kind, NodeEntry};
use crate::line::{is_disk, is_layer_named, is_named, is_storage, machine};
use crate::rule::{is_first_node, is_node};
use stack_text::{LayerKind, MAX_LINES, StackLine, UpperKind};
use std::alloc::{AllocError, Global};
use std::boxed::Box;
use value_types::Text;

/// The place of a name in a list of names.
fn place_in(names: &[Text], name: &str) -> Option<usize>
    ensures value { result ≡ position (λ own. bytes_eq own name.now) names.now }
    ensures inside { IfSome result (λ place. place < length names.now) }
{
    names.iter().position(|own| own.as_str() == name)
}

/// The place of a name in a list of names, or 0.
pub(crate) fn number_in(names: &[Text], name: &str) -> u32
    requires { length names.now ≤ MAX_LINES }
    ensures { result ≡ number_in names.now name.now }
{
    match place_in(names, name) {
        Some(place) => place as u32,
        None => 0,
    }
}

/// The page size, which the first line gives.
pub(crate) fn page_size_of(lines: &[StackLine]) -> u32
    ensures { result ≡ page_size_of lines.now }
{
    match lines {
        [StackLine::Page { size }, ..] => *size,
        _ => 0,
    }
}

/// The files, in the order of their lines.
pub(crate) fn files_of(alloc: Global, lines: &[StackLine]) -> Result<Vec<FileEntry>, AllocError>
    ensures { IfOk result (λ files. files.items ≡ filter_map (λ line. file_of line) lines.now) }
{
    let mut files = Vec::new(alloc);
    for line in lines {
        if let StackLine::File { name, pages } = line {
            files.push(FileEntry {
                name: name.clone()?,
                pages: *pages,
            })?;
        }
    }
    Ok(files)
}

/// The names of the disks, in the order of their lines.
pub(crate) fn disks_of(alloc: Global, lines: &[StackLine]) -> Result<Vec<Text>, AllocError>
    ensures { IfOk result (λ disks. disks.items ≡ filter_map (λ line. disk_of line) lines.now) }
{
    let mut disks = Vec::new(alloc);
    for line in lines {
        if let StackLine::Layer {
            name,
            kind: LayerKind::Disk,
            ..
        } = line
        {
            disks.push(name.clone()?)?;
        }
    }
    Ok(disks)
}

/// Whether the name is in the list.
fn is_known(names: &[Text], name: &str) -> bool
    ensures { result ≡ list_any (λ own. bytes_eq own name.now) names.now }
{
    names.iter().any(|own| own.as_str() == name)
}

/// Adds a name, unless it is there already.
fn add_new(alloc: Global, names: &mut Vec<Text>, name: &str) -> Result<(), AllocError>
    ensures value { OnOk result (names.new.items ≡ with_machine names.old.items (Some name.now)) }
    ensures few { OnOk result (length names.new.items ≤ length names.old.items + 1) }
{
    if is_known(names, name) {
        return Ok(());
    }
    names.push(Text::of(alloc, name)?)?;
    Ok(())
}

/// Adds a line's machine, unless it is there already.
fn add_machine(alloc: Global, names: &mut Vec<Text>, line: &StackLine) -> Result<(), AllocError>
    ensures value { OnOk result (names.new.items ≡ with_machine names.old.items (machine_of line.now)) }
    ensures few { OnOk result (length names.new.items ≤ length names.old.items + 1) }
{
    match machine(line) {
        Some(machine) => add_new(alloc, names, machine),
        None => Ok(()),
    }
}

/// The machines, in the order in which their names first occur.
pub(crate) fn machines_of(alloc: Global, lines: &[StackLine]) -> Result<Vec<Text>, AllocError>
    ensures few { IfOk result (λ machines. length machines.items ≤ length lines.now) }
    ensures value { IfOk result (λ machines. machines.items ≡ machines_of lines.now) }
{
    let mut machines = Vec::new(alloc);
    for line in lines {
        add_machine(alloc, &mut machines, line)?;
    }
    Ok(machines)
}

/// The first node: it stands on the ground.
fn first_node(lines: &[StackLine]) -> Option<&StackLine>
    ensures { option_map (λ line. line.now) result ≡ find (λ line. is_first_node lines.now line) lines.now }
{
    lines.iter().find(|line| is_first_node(lines, line))
}

/// The name of the ground.
pub(crate) fn ground_name(lines: &[StackLine]) -> &str
    ensures { result.now ≡ ground_name lines.now }
{
    match first_node(lines) {
        Some(
            StackLine::Layer {
                kind: LayerKind::Upper { below, .. },
                ..
            },
        ) => below.as_str(),
        _ => "",
    }
}

/// The line of the disk or mirror of the name.
fn storage_line<'a>(lines: &'a [StackLine], name: &str) -> Option<&'a StackLine>
    ensures { option_map (λ line. line.now) result ≡ find (λ line. is_storage line && is_named name.now line) lines.now }
{
    lines
        .iter()
        .find(|line| is_storage(line) && is_named(name, line))
}

/// The lines of the ground and of the other nodes.
pub(crate) fn node_lines(alloc: Global, lines: &[StackLine]) -> Result<Vec<&StackLine>, AllocError>
    ensures value { IfOk result (λ nodes. map (λ line. line.now) nodes.items ≡ node_lines lines.now) }
    ensures few { IfOk result (λ nodes. length nodes.items ≤ length lines.now + 1) }
{
    let mut nodes = Vec::new(alloc);
    if let Some(ground) = storage_line(lines, ground_name(lines)) {
        nodes.push(ground)?;
    }
    for line in lines {
        if is_node(lines, line) {
            nodes.push(line)?;
        }
    }
    Ok(nodes)
}

/// The place of the name's line among the nodes' lines.
fn place_of(nodes: &[&StackLine], name: &str) -> Option<usize>
    ensures value { result ≡ position (λ line. is_named name.now line.now) nodes.now }
    ensures inside { IfSome result (λ place. place < length nodes.now) }
{
    nodes.iter().position(|line| is_named(name, line))
}

/// The number of the node of the name, or 0.
fn node_number(nodes: &[&StackLine], name: &str) -> u32
    requires { length nodes.now ≤ MAX_LINES + 1 }
    ensures { result ≡ node_number (map (λ line. line.now) nodes.now) name.now }
{
    match place_of(nodes, name) {
        Some(place) => place as u32,
        None => 0,
    }
}

/// What a layer's node is.
fn node_kind(kind: &LayerKind) -> Kind
    ensures { result ≡ node_kind kind.now }
{
    match kind {
        LayerKind::Disk => Kind::Disk,
        LayerKind::Mirror { .. } => Kind::Mirror,
        LayerKind::Upper { kind, .. } => match kind {
            UpperKind::Coherency => Kind::Coherency,
            UpperKind::Dfs => Kind::Dfs,
            UpperKind::Vmm { .. } => Kind::Vmm,
        },
    }
}

/// The number of the node that a layer stands on, or 0.
fn node_below(nodes: &[&StackLine], kind: &LayerKind) -> u32
    requires { length nodes.now ≤ MAX_LINES + 1 }
    ensures { result ≡ node_below (map (λ line. line.now) nodes.now) kind.now }
{
    match kind {
        LayerKind::Upper { below, .. } => node_number(nodes, below.as_str()),
        _ => 0,
    }
}

/// How many pages of a file a memory manager holds; 0 for any other layer.
fn node_frames(kind: &LayerKind) -> u32
    ensures { result ≡ node_frames kind.now }
{
    match kind {
        LayerKind::Upper {
            kind: UpperKind::Vmm { frames },
            ..
        } => *frames,
        _ => 0,
    }
}

/// The node of a layer's line.
fn node_of(
    machines: &[Text],
    nodes: &[&StackLine],
    line: &StackLine,
) -> Result<Option<NodeEntry>, AllocError>
    requires machines { length machines.now ≤ MAX_LINES }
    requires nodes { length nodes.now ≤ MAX_LINES + 1 }
    ensures { IfOk result (λ node. node ≡ node_of machines.now (map (λ line. line.now) nodes.now) line.now) }
{
    let StackLine::Layer {
        name,
        machine,
        kind,
    } = line
    else {
        return Ok(None);
    };
    Ok(Some(NodeEntry {
        name: name.clone()?,
        kind: node_kind(kind),
        machine: number_in(machines, machine.as_str()),
        below: node_below(nodes, kind),
        frames: node_frames(kind),
    }))
}

/// The nodes, from the machines and the nodes' lines.
pub(crate) fn nodes_of(
    alloc: Global,
    machines: &[Text],
    lines: &[&StackLine],
) -> Result<Vec<NodeEntry>, AllocError>
    requires machines { length machines.now ≤ MAX_LINES }
    requires lines { length lines.now ≤ MAX_LINES + 1 }
    ensures { IfOk result (λ nodes. nodes.items ≡ filter_map (λ line. node_of machines.now (map (λ line. line.now) lines.now) line) (map (λ line. line.now) lines.now)) }
{
    let mut nodes = Vec::new(alloc);
    for line in lines {
        if let Some(node) = node_of(machines, lines, line)? {
            nodes.push(node)?;
        }
    }
    Ok(nodes)
}

/// The node of the number.
fn node_at(nodes: &[NodeEntry], at: u32) -> Option<&NodeEntry>
    ensures { option_map (λ n. n.now) result ≡ slice_get nodes.now at }
{
    nodes.get(at as usize)
}

/// Whether local traffic goes round the node: it is a distributed layer of this machine.
fn goes_round(node: Option<&NodeEntry>, machine: u32) -> bool
    ensures { result ≡ goes_round (option_map (λ n. n.now) node.entry) machine }
{
    match node {
        None => false,
        Some(node) => node.kind == Kind::Dfs && node.machine == machine,
    }
}

/// What the node stands on.
fn below_of(node: Option<&NodeEntry>) -> u32
    ensures { result ≡ below_of (option_map (λ n. n.now) node.entry) }
{
    match node {
        None => 0,
        Some(node) => node.below,
    }
}

/// The node that serves a view's pages on a machine.
pub(crate) fn via(nodes: &[NodeEntry], view: u32, machine: u32) -> u32
    ensures { result ≡ via nodes.now view machine }
{
    let mut at = view;
    for _ in 0..view {
        let node = node_at(nodes, at);
        if !goes_round(node, machine) {
            return at;
        }
        at = below_of(node);
    }
    at
}

/// The parent of each node.
pub(crate) fn parents_of(alloc: Global, nodes: &[NodeEntry]) -> Result<Vec<u32>, AllocError>
    ensures { IfOk result (λ parents. parents.items ≡ (tree_of nodes.now).parents) }
{
    let mut parents = Vec::new(alloc);
    for node in nodes {
        parents.push(via(nodes, node.below, node.machine))?;
    }
    Ok(parents)
}

/// The frames of each node.
pub(crate) fn frames_of(alloc: Global, nodes: &[NodeEntry]) -> Result<Vec<u32>, AllocError>
    ensures { IfOk result (λ frames. frames.items ≡ (tree_of nodes.now).frames) }
{
    let mut frames = Vec::new(alloc);
    for node in nodes {
        frames.push(node.frames)?;
    }
    Ok(frames)
}

/// How many disks the lines have.
fn count_disks(lines: &[StackLine]) -> usize
    ensures value { result ≡ count_by (λ line. is_disk line) (reverse lines.now) }
    ensures few { result ≤ length lines.now }
{
    let mut count = 0;
    for line in lines {
        if is_disk(line) {
            count += 1;
        }
    }
    count
}

/// The plan of the layer of the name. A name that no line declares, and a layer that is no part of
/// a ground, have no plan of their own: disk 0 stands for it, and no accepted text asks for it.
pub(crate) fn plan(alloc: Global, lines: &[StackLine], name: &str) -> Result<GroundPlan, AllocError>
    requires { length lines.now ≤ MAX_LINES }
    ensures { IfOk result (λ p. plan_of p ≡ plan_back (reverse lines.now) name.now) }
{
    let [before @ .., line] = lines else {
        return Ok(GroundPlan::Disk { disk: 0 });
    };
    if !is_layer_named(name, line) {
        return plan(alloc, before, name);
    }
    let StackLine::Layer { kind, .. } = line else {
        return Ok(GroundPlan::Disk { disk: 0 });
    };
    match kind {
        LayerKind::Disk => Ok(GroundPlan::Disk {
            disk: count_disks(before) as u32,
        }),
        LayerKind::Mirror { left, right } => Ok(GroundPlan::Mirror {
            left: Box::new(alloc, plan(alloc, before, left.as_str())?)?,
            right: Box::new(alloc, plan(alloc, before, right.as_str())?)?,
        }),
        LayerKind::Upper {
            kind: UpperKind::Coherency,
            below,
        } => Ok(GroundPlan::Coherency {
            below: Box::new(alloc, plan(alloc, before, below.as_str())?)?,
        }),
        _ => Ok(GroundPlan::Disk { disk: 0 }),
    }
}
