//! The text of a mounted stack.

ghost use Rattle.std.specs.Prelude.{◌≡◌, ◌++◌, ◌∷◌, ◌<◌, [], OnOk, length};
ghost use Rattle.text_words.specs.Lines.{line_of};
ghost use Rattle.tower_core.specs.TreeShape.{parent};
ghost use Rattle.stack_accept.specs.Check.{kind_word, machine_name, node_head, node_words, check_text};

use crate::entries::{Kind, NodeEntry};
use crate::mounted::Mounted;
use std::alloc::AllocError;
use text_words::{put, put_number, put_spaced_number, put_word};
use value_types::Text;

impl Kind {
    /// The kind's printed word.
    pub fn word(self) -> &'static str
        ensures { result.now ≡ kind_word self }
    {
        match self {
            Kind::Disk => "disk",
            Kind::Mirror => "mirror",
            Kind::Coherency => "coherency",
            Kind::Dfs => "dfs",
            Kind::Vmm => "vmm",
        }
    }
}

/// The name of the machine of the number.
fn machine_name(machines: &[Text], machine: u32) -> &str
    ensures { result.now ≡ machine_name machines.now machine }
{
    match machines.get(machine as usize) {
        Some(name) => name.as_str(),
        None => "",
    }
}

/// The parent of a node.
fn parent_of(mounted: &Mounted, node: u32) -> u32
    requires { node < length mounted.now.nodes }
    ensures { result ≡ parent mounted.now.tree node }
{
    mounted.tree().parent(node)
}

/// Appends what a node's line says of every node.
fn put_node(
    out: &mut Vec<u8>,
    mounted: &Mounted,
    number: u32,
    node: &NodeEntry,
) -> Result<(), AllocError>
    ensures { OnOk result (out.new.items ≡ out.old.items ++ node_head mounted.now number node.now) }
{
    put_number(out, u64::from(number))?;
    put_word(out, node.name.as_str().as_bytes())?;
    put_word(out, node.kind.word().as_bytes())?;
    put_word(
        out,
        machine_name(mounted.machines(), node.machine).as_bytes(),
    )
}

/// Appends a node's line. The ground, which is node 0, has no parent.
fn put_node_line(
    out: &mut Vec<u8>,
    mounted: &Mounted,
    number: u32,
    node: &NodeEntry,
) -> Result<(), AllocError>
    requires { number < length mounted.now.nodes }
    ensures { OnOk result (out.new.items ≡ out.old.items ++ line_of (node_words mounted.now number node.now)) }
{
    put_node(out, mounted, number, node)?;
    if number > 0 {
        put_spaced_number(out, u64::from(parent_of(mounted, number)))?;
    }
    put(out, b"\n")
}

/// Appends a line for each node: its number, name, kind and machine, and its parent, which the
/// ground has not. Where memory runs out, a part may stand at the buffer's end.
pub fn put_check(out: &mut Vec<u8>, mounted: &Mounted) -> Result<(), AllocError>
    ensures { OnOk result (out.new.items ≡ out.old.items ++ check_text mounted.now) }
{
    for (number, node) in mounted.nodes().iter().enumerate() {
        put_node_line(out, mounted, number as u32, node)?;
    }
    Ok(())
}
