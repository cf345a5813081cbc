//! What the lines of a stack say.

ghost use Rattle.std.specs.Prelude.{◌≡◌, map, count_by};
ghost use Rattle.std.specs.Option.{option_map};
ghost use Rattle.std.specs.Str.{bytes_eq};
ghost use Rattle.stack_accept.specs.Lines.{is_page, is_file, is_layer, is_disk, is_mirror, is_upper, is_coherency, is_dfs, is_vmm, is_storage, name_of, machine_of, is_word, is_named, is_layer_named, stands_on, is_declared, is_storage_name, is_vmm_name, is_used, is_side, is_coherent_storage};

use stack_text::{LayerKind, StackLine, UpperKind};

/// Whether the line gives the page size.
pub(crate) fn is_page(line: &StackLine) -> bool
    ensures { result ≡ is_page line.now }
{
    matches!(line, StackLine::Page { .. })
}

/// Whether the line declares a file.
pub(crate) fn is_file(line: &StackLine) -> bool
    ensures { result ≡ is_file line.now }
{
    matches!(line, StackLine::File { .. })
}

/// Whether the line declares a layer.
pub(crate) fn is_layer(line: &StackLine) -> bool
    ensures { result ≡ is_layer line.now }
{
    matches!(line, StackLine::Layer { .. })
}

/// Whether the line declares a disk.
pub(crate) fn is_disk(line: &StackLine) -> bool
    ensures { result ≡ is_disk line.now }
{
    matches!(
        line,
        StackLine::Layer {
            kind: LayerKind::Disk,
            ..
        }
    )
}

/// Whether the line declares a mirror.
pub(crate) fn is_mirror(line: &StackLine) -> bool
    ensures { result ≡ is_mirror line.now }
{
    matches!(
        line,
        StackLine::Layer {
            kind: LayerKind::Mirror { .. },
            ..
        }
    )
}

/// Whether the line declares a disk or a mirror.
pub(crate) fn is_storage(line: &StackLine) -> bool
    ensures { result ≡ is_storage line.now }
{
    is_disk(line) || is_mirror(line)
}

/// Whether the line declares a coherency layer, a distributed layer or a memory manager.
pub(crate) fn is_upper(line: &StackLine) -> bool
    ensures { result ≡ is_upper line.now }
{
    matches!(
        line,
        StackLine::Layer {
            kind: LayerKind::Upper { .. },
            ..
        }
    )
}

/// Whether the line declares a coherency layer.
pub(crate) fn is_coherency(line: &StackLine) -> bool
    ensures { result ≡ is_coherency line.now }
{
    matches!(
        line,
        StackLine::Layer {
            kind: LayerKind::Upper {
                kind: UpperKind::Coherency,
                ..
            },
            ..
        }
    )
}

/// Whether the line declares a distributed layer.
pub(crate) fn is_dfs(line: &StackLine) -> bool
    ensures { result ≡ is_dfs line.now }
{
    matches!(
        line,
        StackLine::Layer {
            kind: LayerKind::Upper {
                kind: UpperKind::Dfs,
                ..
            },
            ..
        }
    )
}

/// Whether the line declares a memory manager.
pub(crate) fn is_vmm(line: &StackLine) -> bool
    ensures { result ≡ is_vmm line.now }
{
    matches!(
        line,
        StackLine::Layer {
            kind: LayerKind::Upper {
                kind: UpperKind::Vmm { .. },
                ..
            },
            ..
        }
    )
}

/// The name that the line declares.
pub(crate) fn name(line: &StackLine) -> Option<&str>
    ensures { option_map (λ n. n.now) result ≡ name_of line.now }
{
    match line {
        StackLine::Page { .. } => None,
        StackLine::File { name, .. } => Some(name.as_str()),
        StackLine::Layer { name, .. } => Some(name.as_str()),
    }
}

/// The machine of a layer.
pub(crate) fn machine(line: &StackLine) -> Option<&str>
    ensures { option_map (λ n. n.now) result ≡ machine_of line.now }
{
    match line {
        StackLine::Layer { machine, .. } => Some(machine.as_str()),
        _ => None,
    }
}

/// Whether there is a word, and it is this one.
pub(crate) fn is_word(own: Option<&str>, word: &str) -> bool
    ensures { result ≡ is_word (option_map (λ n. n.now) own.entry) word.now }
{
    match own {
        None => false,
        Some(own) => own == word,
    }
}

/// Whether the line declares the name.
pub(crate) fn is_named(sought: &str, line: &StackLine) -> bool
    ensures { result ≡ is_named sought.now line.now }
{
    is_word(name(line), sought)
}

/// Whether the line declares a layer of the name.
pub(crate) fn is_layer_named(name: &str, line: &StackLine) -> bool
    ensures { result ≡ is_layer_named name.now line.now }
{
    is_layer(line) && is_named(name, line)
}

/// Whether the line stands on the layer of this name.
pub(crate) fn stands_on(base: &str, line: &StackLine) -> bool
    ensures { result ≡ stands_on base.now line.now }
{
    let StackLine::Layer { kind, .. } = line else {
        return false;
    };
    match kind {
        LayerKind::Disk => false,
        LayerKind::Mirror { left, right } => left.as_str() == base || right.as_str() == base,
        LayerKind::Upper { below, .. } => below.as_str() == base,
    }
}

/// Whether one of the lines declares a layer of the name.
pub(crate) fn is_declared(lines: &[StackLine], name: &str) -> bool
    ensures { result ≡ is_declared lines.now name.now }
{
    lines.iter().any(|line| is_layer_named(name, line))
}

/// Whether one of the lines declares a disk or a mirror of the name.
pub(crate) fn is_storage_name(lines: &[StackLine], name: &str) -> bool
    ensures { result ≡ is_storage_name lines.now name.now }
{
    lines
        .iter()
        .any(|line| is_storage(line) && is_named(name, line))
}

/// Whether one of the lines declares a memory manager of the name.
pub(crate) fn is_vmm_name(lines: &[StackLine], name: &str) -> bool
    ensures { result ≡ is_vmm_name lines.now name.now }
{
    lines
        .iter()
        .any(|line| is_vmm(line) && is_named(name, line))
}

/// Whether one of the lines stands on the layer of the name.
pub(crate) fn is_used(lines: &[StackLine], name: &str) -> bool
    ensures { result ≡ is_used lines.now name.now }
{
    lines.iter().any(|line| stands_on(name, line))
}

/// Whether one of the lines is a mirror that has the layer of the name as a side.
pub(crate) fn is_side(lines: &[StackLine], name: &str) -> bool
    ensures { result ≡ is_side lines.now name.now }
{
    lines
        .iter()
        .any(|line| is_mirror(line) && stands_on(name, line))
}

/// Whether the line is a coherency layer on a disk or a mirror.
pub(crate) fn is_coherent_storage(lines: &[StackLine], line: &StackLine) -> bool
    ensures { result ≡ is_coherent_storage lines.now line.now }
{
    match line {
        StackLine::Layer {
            kind: LayerKind::Upper {
                kind: UpperKind::Coherency,
                below,
            },
            ..
        } => is_storage_name(lines, below.as_str()),
        _ => false,
    }
}
