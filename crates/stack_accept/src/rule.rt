//! The rules that a stack text has to keep.

ghost use Rattle.std.specs.Prelude.{◌≡◌, ◌≤◌, ◌<◌, ◌+◌, not, MatchResult, List, [], ◌↔◌, reverse, length, count_by};
ghost use Rattle.std.specs.Option.{option_map};
ghost use Rattle.stack_accept.specs.Lines.{is_upper, is_file, is_disk, all_bases, is_storage_name};
ghost use Rattle.stack_accept.specs.Rules.{is_page_first, is_new_name, is_taken, may_be_side, has_fit_sides, is_both_sides, is_shared_layer, is_unused, may_use, is_coherent_first, is_near, reaches, depth_back, depth_of, has_room, is_count, is_page_size, has_few_frames, is_within_limits, keeps, has_user, is_node, is_first_node, keeps_at_end, rules_in_order, number_of, broken_by, broken_at_end, first_breach, IsAccepted, KeepsRules};
ghost use Rattle.stack_text.specs.declared.stack.StackLine.{StackLine};
ghost use Rattle.stack_accept.specs.Unfit.{IsUnfit};

use crate::line::{
    is_coherency, is_coherent_storage, is_declared, is_dfs, is_disk, is_file, is_layer_named,
    is_mirror, is_named, is_page, is_side, is_storage, is_storage_name, is_upper, is_used,
    is_vmm_name, is_word, machine, name, stands_on,
};
use crate::{MAX_DEPTH, MAX_DISKS, MAX_FILES, MAX_FRAMES, MAX_LAYERS};
use hist_plain::MAX_PAGES;
use stack_text::{LayerKind, MAX_LINES, StackLine, UpperKind};
use std::alloc::AllocError;
use thiserror::Error;

/// A rule of the stack. Each is asked of every line with the lines before it; some are asked of
/// the end of the text too. All are this project's own.
#[derive(Clone, Copy, Debug, PartialEq, Eq)]
pub enum Rule {
    /// The page line is first and alone.
    PageFirst,
    /// The name is no file's and no layer's before.
    NewName,
    /// What a layer stands on is an earlier layer.
    EarlierLayer,
    /// A mirror's sides are disks, mirrors, or coherency layers that stand on a disk or a mirror.
    MirrorSides,
    /// A disk, a mirror and a mirror's side stand under exactly one layer.
    OneUser,
    /// Exactly one layer that is no mirror and no mirror's side stands on a disk or a mirror.
    OneGround,
    /// Only mirrors and coherency layers stand on a disk or a mirror.
    CoherentFirst,
    /// Nothing stands on a memory manager.
    ManagerOnTop,
    /// A layer is on the machine of what it stands on, unless that is a distributed layer.
    SameMachine,
    /// The limits on sizes and counts hold, and there is a file.
    Limits,
}

/// Why a stack cannot be mounted.
#[derive(Clone, Copy, Debug, PartialEq, Eq, Error)]
pub enum Unfit {
    /// The first line that breaks a rule, and the lowest rule that it breaks.
    #[error("line {line} breaks rule {rule}")]
    Unfit {
        /// The rule's number, from 1 to 10.
        rule: u8,
        /// The line's number, from 1; one past the last line for what the end of the text lacks.
        line: u32,
    },
    /// Memory ran out.
    #[error("memory")]
    Memory,
}

impl From<AllocError> for Unfit {
    ghost use Rattle.stack_accept.specs.declared.rule.Unfit.TheVariants.{Memory};

    ghost from_gives = { λ _ e. e ≡ Memory };

    fn from(_: AllocError) -> Unfit {
        Unfit::Memory
    }
}

/// The page line is first and alone.
fn is_page_first(earlier: &[StackLine], line: &StackLine) -> bool
    ensures { result ≡ is_page_first earlier.now line.now }
{
    is_page(line) == earlier.is_empty()
}

/// Whether a file or a layer before has the name.
fn is_taken(earlier: &[StackLine], name: &str) -> bool
    ensures { result ≡ is_taken earlier.now name.now }
{
    earlier.iter().any(|line| is_named(name, line))
}

/// The name, if the line has one, is new.
fn is_new_name(earlier: &[StackLine], name: Option<&str>) -> bool
    ensures { result ≡ is_new_name earlier.now (option_map (λ n. n.now) name.entry) }
{
    match name {
        None => true,
        Some(name) => !is_taken(earlier, name),
    }
}

/// Whether a layer before has the name and may be a mirror's side.
fn may_be_side(earlier: &[StackLine], name: &str) -> bool
    ensures { result ≡ may_be_side earlier.now name.now }
{
    earlier.iter().any(|line| {
        (is_storage(line) || is_coherent_storage(earlier, line)) && is_named(name, line)
    })
}

/// A mirror's sides keep what they hold on disks alone.
fn has_fit_sides(earlier: &[StackLine], line: &StackLine) -> bool
    ensures { result ≡ has_fit_sides earlier.now line.now }
{
    match line {
        StackLine::Layer {
            kind: LayerKind::Mirror { left, right },
            ..
        } => may_be_side(earlier, left.as_str()) && may_be_side(earlier, right.as_str()),
        _ => true,
    }
}

/// Whether both sides of a mirror are this one layer.
fn is_both_sides(base: &str, line: &StackLine) -> bool
    ensures { result ≡ is_both_sides base.now line.now }
{
    match line {
        StackLine::Layer {
            kind: LayerKind::Mirror { left, right },
            ..
        } => left.as_str() == base && right.as_str() == base,
        _ => false,
    }
}

/// A layer that may have several users, of which this line is one.
fn is_shared_layer(earlier: &[StackLine], line: &StackLine, base: &str) -> bool
    ensures { result ≡ is_shared_layer earlier.now line.now base.now }
{
    !is_mirror(line) && !is_storage_name(earlier, base) && !is_side(earlier, base)
}

/// Whether nothing stands on the layer yet, and the line does so once.
fn is_unused(earlier: &[StackLine], line: &StackLine, base: &str) -> bool
    ensures { result ≡ is_unused earlier.now line.now base.now }
{
    !is_used(earlier, base) && !is_both_sides(base, line)
}

/// Whether the line may stand on the layer, as far as its other users go.
fn may_use(earlier: &[StackLine], line: &StackLine, base: &str) -> bool
    ensures { result ≡ may_use earlier.now line.now base.now }
{
    is_unused(earlier, line, base) || is_shared_layer(earlier, line, base)
}

/// Whether no layer that the line stands on is a disk or a mirror.
fn stands_on_no_storage(earlier: &[StackLine], line: &StackLine) -> bool
    ensures { result ≡ all_bases (λ base. not (is_storage_name earlier.now base)) line.now }
{
    let StackLine::Layer { kind, .. } = line else {
        return true;
    };
    match kind {
        LayerKind::Disk => true,
        LayerKind::Mirror { left, right } => {
            !is_storage_name(earlier, left.as_str()) && !is_storage_name(earlier, right.as_str())
        }
        LayerKind::Upper { below, .. } => !is_storage_name(earlier, below.as_str()),
    }
}

/// Only mirrors and coherency layers stand on a disk or a mirror.
fn is_coherent_first(earlier: &[StackLine], line: &StackLine) -> bool
    ensures { result ≡ is_coherent_first earlier.now line.now }
{
    is_mirror(line) || is_coherency(line) || stands_on_no_storage(earlier, line)
}

/// Whether what a line of this machine stands on may be this layer.
fn is_near(machine_sought: Option<&str>, line: &StackLine) -> bool
    ensures { result ≡ is_near (option_map (λ n. n.now) machine_sought.entry) line.now }
{
    match machine_sought {
        None => true,
        Some(sought) => is_dfs(line) || is_word(machine(line), sought),
    }
}

/// Whether a layer before has the name and may carry a layer of the machine.
fn reaches(earlier: &[StackLine], machine: Option<&str>, base: &str) -> bool
    ensures { result ≡ reaches earlier.now (option_map (λ n. n.now) machine.entry) base.now }
{
    earlier.iter().any(|line| is_layer_named(base, line) && is_near(machine, line))
}

/// How many upper layers there are from the layer of the name down to a disk or a mirror.
fn depth_of(earlier: &[StackLine], name: &str) -> usize
    ensures value { result ≡ depth_of earlier.now name.now }
    ensures few { result ≤ length earlier.now }
{
    let [before @ .., line] = earlier else {
        return 0;
    };
    if !is_layer_named(name, line) {
        return depth_of(before, name);
    }
    match line {
        StackLine::Layer {
            kind: LayerKind::Upper { below, .. },
            ..
        } => depth_of(before, below.as_str()) + 1,
        _ => 0,
    }
}

/// Whether one more upper layer may be, and may stand on the layer of the name.
fn has_room(earlier: &[StackLine], below: &str) -> bool
    ensures { result ≡ has_room earlier.now below.now }
{
    earlier.iter().filter(|line| is_upper(line)).count() < MAX_LAYERS
        && depth_of(earlier, below) < MAX_DEPTH
}

/// Whether the number is from 1 to the greatest.
fn is_count(most: u32, n: u32) -> bool
    ensures { result ≡ is_count most n }
{
    1 <= n && n <= most
}

/// A power of two from 64 to 4,096.
fn is_page_size(size: u32) -> bool
    ensures { result ≡ is_page_size size }
{
    matches!(size, 64 | 128 | 256 | 512 | 1024 | 2048 | 4096)
}

/// Whether the frames of a memory manager are within their limit.
fn has_few_frames(kind: UpperKind) -> bool
    ensures { result ≡ has_few_frames kind }
{
    match kind {
        UpperKind::Vmm { frames } => is_count(MAX_FRAMES, frames),
        _ => true,
    }
}

/// The limits on sizes and counts hold.
fn is_within_limits(earlier: &[StackLine], line: &StackLine) -> bool
    ensures { result ≡ is_within_limits earlier.now line.now }
{
    match line {
        StackLine::Page { size } => is_page_size(*size),
        StackLine::File { pages, .. } => {
            earlier.iter().filter(|line| is_file(line)).count() < MAX_FILES
                && is_count(MAX_PAGES, *pages)
        }
        StackLine::Layer { kind, .. } => match kind {
            LayerKind::Disk => earlier.iter().filter(|line| is_disk(line)).count() < MAX_DISKS,
            LayerKind::Mirror { .. } => true,
            LayerKind::Upper { kind, below } => {
                has_room(earlier, below.as_str()) && has_few_frames(*kind)
            }
        },
    }
}

/// What a layer stands on is an earlier layer.
fn stands_on_earlier(earlier: &[StackLine], line: &StackLine) -> bool
    ensures { result ≡ keeps Rule.EarlierLayer earlier.now line.now }
{
    let StackLine::Layer { kind, .. } = line else {
        return true;
    };
    match kind {
        LayerKind::Disk => true,
        LayerKind::Mirror { left, right } => {
            is_declared(earlier, left.as_str()) && is_declared(earlier, right.as_str())
        }
        LayerKind::Upper { below, .. } => is_declared(earlier, below.as_str()),
    }
}

/// What stands under one layer gets no second one.
fn is_one_user(earlier: &[StackLine], line: &StackLine) -> bool
    ensures { result ≡ keeps Rule.OneUser earlier.now line.now }
{
    let StackLine::Layer { kind, .. } = line else {
        return true;
    };
    match kind {
        LayerKind::Disk => true,
        LayerKind::Mirror { left, right } => {
            may_use(earlier, line, left.as_str()) && may_use(earlier, line, right.as_str())
        }
        LayerKind::Upper { below, .. } => may_use(earlier, line, below.as_str()),
    }
}

/// Nothing stands on a memory manager.
fn is_on_no_manager(earlier: &[StackLine], line: &StackLine) -> bool
    ensures { result ≡ keeps Rule.ManagerOnTop earlier.now line.now }
{
    let StackLine::Layer { kind, .. } = line else {
        return true;
    };
    match kind {
        LayerKind::Disk => true,
        LayerKind::Mirror { left, right } => {
            !is_vmm_name(earlier, left.as_str()) && !is_vmm_name(earlier, right.as_str())
        }
        LayerKind::Upper { below, .. } => !is_vmm_name(earlier, below.as_str()),
    }
}

/// A layer is on the machine of what it stands on, unless that is a distributed layer.
fn is_on_same_machine(earlier: &[StackLine], line: &StackLine) -> bool
    ensures { result ≡ keeps Rule.SameMachine earlier.now line.now }
{
    let machine = machine(line);
    let StackLine::Layer { kind, .. } = line else {
        return true;
    };
    match kind {
        LayerKind::Disk => true,
        LayerKind::Mirror { left, right } => {
            reaches(earlier, machine, left.as_str()) && reaches(earlier, machine, right.as_str())
        }
        LayerKind::Upper { below, .. } => reaches(earlier, machine, below.as_str()),
    }
}

/// A disk or a mirror has a user.
fn has_user(lines: &[StackLine], line: &StackLine) -> bool
    ensures { result ≡ has_user lines.now line.now }
{
    let StackLine::Layer { name, kind, .. } = line else {
        return true;
    };
    match kind {
        LayerKind::Disk | LayerKind::Mirror { .. } => is_used(lines, name.as_str()),
        LayerKind::Upper { .. } => true,
    }
}

/// Whether the line is an upper layer that is no mirror's side.
pub(crate) fn is_node(lines: &[StackLine], line: &StackLine) -> bool
    ensures { result ≡ is_node lines.now line.now }
{
    match line {
        StackLine::Layer {
            name,
            kind: LayerKind::Upper { .. },
            ..
        } => !is_side(lines, name.as_str()),
        _ => false,
    }
}

/// Whether the line is such a layer that stands on a disk or a mirror.
pub(crate) fn is_first_node(lines: &[StackLine], line: &StackLine) -> bool
    ensures { result ≡ is_first_node lines.now line.now }
{
    is_node(lines, line) && !stands_on_no_storage(lines, line)
}

/// Each disk and each mirror has a user.
fn has_each_user(lines: &[StackLine]) -> bool
    ensures { result ≡ keeps_at_end Rule.OneUser lines.now }
{
    lines.iter().all(|line| has_user(lines, line))
}

/// The nodes stand on one disk or mirror, and one of them alone stands on it directly.
fn has_one_ground(lines: &[StackLine]) -> bool
    ensures { result ≡ keeps_at_end Rule.OneGround lines.now }
{
    lines
        .iter()
        .filter(|line| is_first_node(lines, line))
        .count()
        == 1
}

/// There is a file.
fn has_file(lines: &[StackLine]) -> bool
    ensures { result ≡ keeps_at_end Rule.Limits lines.now }
{
    lines.iter().any(|line| is_file(line))
}

impl Rule {
    /// The rules, the lowest first.
    const ALL: [Rule; 10] = [
        Rule::PageFirst,
        Rule::NewName,
        Rule::EarlierLayer,
        Rule::MirrorSides,
        Rule::OneUser,
        Rule::OneGround,
        Rule::CoherentFirst,
        Rule::ManagerOnTop,
        Rule::SameMachine,
        Rule::Limits,
    ];

    /// The rule's printed number, from 1 to 10.
    pub fn number(self) -> u8
        ensures { result ≡ number_of self }
    {
        match self {
            Rule::PageFirst => 1,
            Rule::NewName => 2,
            Rule::EarlierLayer => 3,
            Rule::MirrorSides => 4,
            Rule::OneUser => 5,
            Rule::OneGround => 6,
            Rule::CoherentFirst => 7,
            Rule::ManagerOnTop => 8,
            Rule::SameMachine => 9,
            Rule::Limits => 10,
        }
    }

    /// Whether a line keeps the rule, given the lines before it.
    fn is_kept(self, earlier: &[StackLine], line: &StackLine) -> bool
        ensures { result ≡ keeps self earlier.now line.now }
    {
        match self {
            Rule::PageFirst => is_page_first(earlier, line),
            Rule::NewName => is_new_name(earlier, name(line)),
            Rule::EarlierLayer => stands_on_earlier(earlier, line),
            Rule::MirrorSides => has_fit_sides(earlier, line),
            Rule::OneUser => is_one_user(earlier, line),
            Rule::OneGround => true,
            Rule::CoherentFirst => is_coherent_first(earlier, line),
            Rule::ManagerOnTop => is_on_no_manager(earlier, line),
            Rule::SameMachine => is_on_same_machine(earlier, line),
            Rule::Limits => is_within_limits(earlier, line),
        }
    }

    /// Whether the end of the text keeps the rule.
    fn is_kept_at_end(self, lines: &[StackLine]) -> bool
        ensures { result ≡ keeps_at_end self lines.now }
    {
        match self {
            Rule::PageFirst => !lines.is_empty(),
            Rule::OneUser => has_each_user(lines),
            Rule::OneGround => has_one_ground(lines),
            Rule::Limits => has_file(lines),
            _ => true,
        }
    }
}

/// The lowest rule that a line breaks, given the lines before it.
fn broken_by(earlier: &[StackLine], line: &StackLine) -> Option<Rule>
    ensures { result ≡ broken_by earlier.now line.now }
{
    Rule::ALL
        .iter()
        .copied()
        .find(|rule| !rule.is_kept(earlier, line))
}

/// The lowest rule that the end of the text breaks.
fn broken_at_end(lines: &[StackLine]) -> Option<Rule>
    ensures { result ≡ broken_at_end lines.now }
{
    Rule::ALL
        .iter()
        .copied()
        .find(|rule| !rule.is_kept_at_end(lines))
}

/// A law: the lines are accepted exactly if each line, after those before it, keeps every rule, and
/// so does the end of the text.
pub fn accepted_by_every_rule()
    ensures { (lines : List StackLine) → IsAccepted lines ↔ KeepsRules [] lines }
{}

/// A broken rule, and the number of the line that follows the earlier ones.
fn refusal(rule: Rule, before: usize) -> Unfit
    requires { before ≤ MAX_LINES }
    ensures { result ≡ Unfit.Unfit (number_of rule) (before + 1) }
{
    Unfit::Unfit {
        rule: rule.number(),
        line: before as u32 + 1,
    }
}

/// Whether the lines keep every rule; else the first line that breaks one, and the lowest of its.
pub(crate) fn check(lines: &[StackLine]) -> Result<(), Unfit>
    requires { length lines.now ≤ MAX_LINES }
    ensures { MatchResult result (λ _. IsAccepted lines.now) (IsUnfit (first_breach lines.now)) }
{
    for (index, line) in lines.iter().enumerate() {
        if let Some(rule) = broken_by(&lines[..index], line) {
            return Err(refusal(rule, index));
        }
    }
    match broken_at_end(lines) {
        Some(rule) => Err(refusal(rule, lines.len())),
        None => Ok(()),
    }
}
