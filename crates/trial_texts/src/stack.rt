//! Stacks: their texts, and what is mounted of them.

use crate::say::say_again;
use stack_accept::{FileEntry, GroundPlan, Mounted, NodeEntry, Unfit, accept, put_check};
use stack_text::{parse_stack, print_stack};
use std::alloc::{AllocError, Global};
use trial_words::{say, say_text};
use value_types::Text;

/// `stack CALL ..` over the text of a stack.
pub fn step(
    alloc: Global,
    words: &[&str],
    text: &[u8],
    answer: &mut String,
) -> Result<(), AllocError> {
    match words {
        ["read"] => return read(alloc, text, answer),
        _ => {}
    }
    let Some(mounted) = mount(alloc, text, answer)? else {
        return Ok(());
    };
    match words {
        ["mount"] => check(alloc, &mounted, answer),
        ["lists"] => lists(&mounted, answer),
        ["ground"] => ground(&mounted, answer),
        ["copies"] => copies(&mounted, answer),
        ["views"] => views(&mounted, answer),
        ["serve", view, machine] => serve(&mounted, view, machine, answer),
        _ => say(answer, "no such step"),
    }
}

/// The number of lines, and whether the text is printed again; or the line at which it is refused, and why.
fn read(alloc: Global, text: &[u8], answer: &mut String) -> Result<(), AllocError> {
    match parse_stack(alloc, text) {
        Ok(stack) => {
            let count = stack.lines.as_slice().len();
            writeln!(answer, "{count} lines")?;
            let printed = print_stack(alloc, &stack)?;
            say_again(alloc, answer, text, printed.as_slice())
        }
        Err(refused) => {
            let (line, why) = (refused.line, refused.why.word());
            writeln!(answer, "stack {line} {why}")
        }
    }
}

/// The stack of a text as it is mounted; if it is not, the line and what is wrong with it.
fn mount(alloc: Global, text: &[u8], answer: &mut String) -> Result<Option<Mounted>, AllocError> {
    let Ok(stack) = parse_stack(alloc, text) else {
        say(answer, "no stack")?;
        return Ok(None);
    };
    match accept(alloc, &stack) {
        Ok(mounted) => return Ok(Some(mounted)),
        Err(Unfit::Unfit { rule, line }) => writeln!(answer, "stack {line} A{rule}")?,
        Err(Unfit::Memory) => say(answer, "memory")?,
    }
    Ok(None)
}

/// The lines of the nodes.
fn check(alloc: Global, mounted: &Mounted, answer: &mut String) -> Result<(), AllocError> {
    let mut out = Vec::new(alloc);
    put_check(&mut out, mounted)?;
    say_text(alloc, answer, &out)
}

/// Appends names.
fn say_names(answer: &mut String, what: &str, names: &[Text]) -> Result<(), AllocError> {
    answer.push_str(what)?;
    for name in names {
        answer.push(' ')?;
        answer.push_str(name.as_str())?;
    }
    say(answer, "")
}

/// Appends the files' names and numbers of pages.
fn say_files(answer: &mut String, files: &[FileEntry]) -> Result<(), AllocError> {
    answer.push_str("files")?;
    for file in files {
        let (name, pages) = (file.name.as_str(), file.pages);
        write!(answer, " {name} {pages}")?;
    }
    say(answer, "")
}

/// Appends the nodes' names and numbers of frames.
fn say_nodes(answer: &mut String, nodes: &[NodeEntry]) -> Result<(), AllocError> {
    answer.push_str("nodes")?;
    for node in nodes {
        let (name, frames) = (node.name.as_str(), node.frames);
        write!(answer, " {name} {frames}")?;
    }
    say(answer, "")
}

/// What a mounted stack lends.
fn lists(mounted: &Mounted, answer: &mut String) -> Result<(), AllocError> {
    let (size, nodes) = (mounted.page_size(), mounted.tree().nodes());
    writeln!(answer, "pages of {size} bytes")?;
    say_files(answer, mounted.files())?;
    writeln!(answer, "a tree of {nodes} nodes")?;
    say_nodes(answer, mounted.nodes())?;
    say_names(answer, "disks", mounted.disks())?;
    say_names(answer, "machines", mounted.machines())
}

/// Appends what a ground is made of.
fn say_ground(plan: &GroundPlan, answer: &mut String) -> Result<(), AllocError> {
    match plan {
        GroundPlan::Disk { disk } => write!(answer, "disk {disk}"),
        GroundPlan::Mirror { left, right } => {
            answer.push_str("mirror of (")?;
            say_ground(left, answer)?;
            answer.push_str(") and (")?;
            say_ground(right, answer)?;
            answer.push(')')
        }
        GroundPlan::Coherency { below } => {
            answer.push_str("coherency on ")?;
            say_ground(below, answer)
        }
    }
}

/// The ground, and a copy of it.
fn ground(mounted: &Mounted, answer: &mut String) -> Result<(), AllocError> {
    say_ground(mounted.ground(), answer)?;
    say(answer, "")?;
    let copy = mounted.ground().clone()?;
    say_ground(&copy, answer)?;
    say(answer, "")
}

/// Copies of the nodes and of the files.
fn copies(mounted: &Mounted, answer: &mut String) -> Result<(), AllocError> {
    for node in mounted.nodes() {
        let copy = node.clone()?;
        let (name, frames) = (copy.name.as_str(), copy.frames);
        writeln!(answer, "{name} of {frames} frames")?;
    }
    for file in mounted.files() {
        let copy = file.clone()?;
        let (name, pages) = (copy.name.as_str(), copy.pages);
        writeln!(answer, "{name} of {pages} pages")?;
    }
    Ok(())
}

/// Which nodes have views.
fn views(mounted: &Mounted, answer: &mut String) -> Result<(), AllocError> {
    for node in mounted.nodes() {
        let name = node.name.as_str();
        let what = if node.kind.is_view() {
            "a view"
        } else {
            "no view"
        };
        writeln!(answer, "{name} has {what}")?;
    }
    Ok(())
}

/// The node that serves a view's pages on a machine.
fn serve(
    mounted: &Mounted,
    view: &str,
    machine: &str,
    answer: &mut String,
) -> Result<(), AllocError> {
    let (Ok(view), Ok(machine)) = (view.parse::<u32>(), machine.parse::<u32>()) else {
        return say(answer, "impossible");
    };
    let node = mounted.via(view, machine);
    writeln!(answer, "node {node}")
}
