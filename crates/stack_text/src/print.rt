//! Writing a stack text.

ghost use Rattle.std.specs.Prelude.{◌≡◌, ◌++◌, IfOk, OnOk, map};
ghost use Rattle.std.specs.Fmt.{decimal};
ghost use Rattle.text_words.specs.Lines.{line_of};
ghost use Rattle.stack_text.specs.Grammar.{line_words, spelling};
ghost use Rattle.stack_text.specs.declared.stack.StackLine.TheVariants.{Layer};

use crate::stack::{LayerKind, StackLine, StackText, UpperKind};
use itoa::Buffer;
use std::alloc::{AllocError, Global};
use text_words::put_line;
use value_types::Bytes;

/// Appends the line of a layer. Where memory runs out, a part of it may stand at the buffer's end.
fn put_layer<'a>(
    out: &mut Vec<u8>,
    name: &'a str,
    machine: &'a str,
    kind: &'a LayerKind,
) -> Result<(), AllocError>
    ensures { OnOk result (out.new.items ≡ out.old.items ++ line_of (line_words (Layer name.now machine.now kind.now))) }
{
    let mut buffer = Buffer::new();
    let (name, machine) = (name.as_bytes(), machine.as_bytes());
    match kind {
        LayerKind::Disk => put_line(out, &[b"disk", name, machine]),
        LayerKind::Mirror { left, right } => put_line(
            out,
            &[
                b"mirror",
                name,
                machine,
                left.as_str().as_bytes(),
                right.as_str().as_bytes(),
            ],
        ),
        LayerKind::Upper { kind, below } => {
            let below = below.as_str().as_bytes();
            match kind {
                UpperKind::Coherency => put_line(out, &[b"coherency", name, machine, below]),
                UpperKind::Dfs => put_line(out, &[b"dfs", name, machine, below]),
                UpperKind::Vmm { frames } => put_line(
                    out,
                    &[
                        b"vmm",
                        name,
                        machine,
                        below,
                        buffer.format(*frames).as_bytes(),
                    ],
                ),
            }
        }
    }
}

/// Appends a line. Where memory runs out, a part of it may stand at the buffer's end.
fn put_stack_line(out: &mut Vec<u8>, line: &StackLine) -> Result<(), AllocError>
    ensures { OnOk result (out.new.items ≡ out.old.items ++ line_of (line_words line.now)) }
{
    let mut buffer = Buffer::new();
    match line {
        StackLine::Page { size } => put_line(out, &[b"page", buffer.format(*size).as_bytes()]),
        StackLine::File { name, pages } => put_line(
            out,
            &[
                b"file",
                name.as_str().as_bytes(),
                buffer.format(*pages).as_bytes(),
            ],
        ),
        StackLine::Layer {
            name,
            machine,
            kind,
        } => put_layer(out, name.as_str(), machine.as_str(), kind),
    }
}

/// The one text of a stack.
pub fn print_stack(alloc: Global, stack: &StackText) -> Result<Bytes, AllocError>
    ensures { IfOk result (λ text. text ≡ spelling stack.now) }
{
    let mut out = Vec::new(alloc);
    for line in stack.lines.as_slice() {
        put_stack_line(&mut out, line)?;
    }
    Ok(Bytes::from_vec(out))
}
