//! A tower that callers share, over file 0 of pages of 64 bytes on disk 0: a step's lines are calls of several callers.

ghost use Rattle.std.specs.Prelude.{◌≡◌};
ghost use Rattle.tower_core.specs.TreeShape.{IsUpper, nodes};
ghost use Rattle.stack_engine.specs.Engine.{file_in, tree_in};

use crate::calls::{Act, Call, call_of};
use crate::lines::{text_of, words_of};
use hist_lock::Storied;
use hist_plain::fits;
use page_messages::PagedFile;
use spr_volume::SharedTower;
use stack_engine::{Moved, StepErr};
use std::alloc::Global;
use trial_parts::{Ram, asked, first_bytes, pages_and_tree, put_moved, refused_write, tower_of};
use trial_words::{Halt, put_hex};

/// A tower that callers share.
type Shared = SharedTower<Ram>;

/// More tries than a call needs.
const MANY: u32 = 9;

/// The shape of a tower that callers share: its file, and how many nodes it has, the ground among them.
#[derive(Clone, Copy)]
struct Size {
    file: PagedFile,
    nodes: u32,
}

/// How many bytes a call reads.
fn asked_by(act: &Act) -> usize {
    match act {
        Act::Access { op, .. } => asked(op),
        Act::Sync { .. } => 0,
    }
}

/// One try of a call; a sync is from a place on.
fn try_once(
    shared: &mut Shared,
    size: Size,
    call: &Call,
    from: u64,
    out: &mut [u8],
) -> Result<Result<Moved, StepErr>, Halt>
    requires file { file_in shared.old.began.engine ≡ size.file }
    requires nodes { nodes (tree_in shared.old.began.engine) ≡ size.nodes }
    ensures began { shared.new.began ≡ shared.old.began }
{
    if call.node == 0 || call.node >= size.nodes {
        return Err(Halt::Impossible);
    }
    match &call.act {
        Act::Access { op, life } => {
            if !fits(op, size.file.page_size, size.file.pages) || out.len() != asked(op) {
                return Err(Halt::Impossible);
            }
            Ok(shared.try_access(call.caller, call.node, *life, op, out))
        }
        Act::Sync { keep } => {
            if from > shared.place() {
                return Err(Halt::Impossible);
            }
            Ok(shared.try_sync(call.caller, call.node, from, *keep))
        }
    }
}

/// Tries a call until it ends, or until another caller is before it, but at most so many times.
fn tried(
    shared: &mut Shared,
    size: Size,
    call: &Call,
    tries: u32,
    out: &mut [u8],
) -> Result<Result<Moved, StepErr>, Halt>
    requires file { file_in shared.old.began.engine ≡ size.file }
    requires nodes { nodes (tree_in shared.old.began.engine) ≡ size.nodes }
    ensures began { shared.new.began ≡ shared.old.began }
{
    let from = shared.place();
    for _time in 1..tries {
        match try_once(shared, size, call, from, out)? {
            Ok(Moved::Stepped { .. }) => {}
            ended => return Ok(ended),
        }
    }
    try_once(shared, size, call, from, out)
}

/// Does a line: `call CALL`, or `try CALL`, which is one try of it. Tells how far it got, and how many events there are then.
fn do_line(
    alloc: Global,
    shared: &mut Shared,
    size: Size,
    line: &str,
    answer: &mut String,
) -> Result<(), Halt>
    requires file { file_in shared.old.began.engine ≡ size.file }
    requires nodes { nodes (tree_in shared.old.began.engine) ≡ size.nodes }
    ensures began { shared.new.began ≡ shared.old.began }
{
    let words = words_of(alloc, line)?;
    let (tries, call) = match words.as_slice() {
        ["call", call @ ..] => (MANY, call),
        ["try", call @ ..] => (1, call),
        _ => return Err(Halt::Unread),
    };
    let call = call_of(alloc, call)?;
    let mut out = vec![in alloc; 0u8; asked_by(&call.act)]?;
    let moved = tried(shared, size, &call, tries, &mut out)?;
    put_moved(alloc, &moved, &out, answer)?;
    Ok(writeln!(answer, ", {} events", shared.place())?)
}

/// Does the lines.
fn do_lines(
    alloc: Global,
    shared: &mut Shared,
    size: Size,
    text: &str,
    answer: &mut String,
) -> Result<(), Halt>
    requires file { file_in shared.old.began.engine ≡ size.file }
    requires nodes { nodes (tree_in shared.old.began.engine) ≡ size.nodes }
{
    for line in text.lines() {
        do_line(alloc, shared, size, line, answer)?;
    }
    Ok(())
}

/// Does a step, of a tower of no event: `PAGES pages, parents PARENT .. frames FRAMES ..`, where `write N refused,` may stand
/// before. Tells at last how many things the log has, how many nodes there are, and the first bytes of the disk.
pub fn shared_step(
    alloc: Global,
    words: &[&str],
    body: &[u8],
    answer: &mut String,
) -> Result<(), Halt> {
    let text = text_of(alloc, body)?;
    let (fails_at, words) = refused_write(words)?;
    let (pages, tree) = pages_and_tree(words)?;
    let tower = tower_of(alloc, tree, pages, fails_at)?;
    let size = Size {
        file: tower.file(),
        nodes: tower.tree().nodes(),
    };
    let Ok(mut shared) = SharedTower::new(alloc, tower) else {
        return Err(Halt::Memory);
    };
    let done = do_lines(alloc, &mut shared, size, text.as_str(), answer);
    let (things, nodes) = (shared.len(), size.nodes);
    let (mut disk, _trail) = shared.into_tower().close();
    done?;
    write!(answer, "{things} things, {nodes} nodes, disk ")?;
    put_hex(alloc, &first_bytes(&mut disk, 0)?, answer)?;
    Ok(answer.push('\n')?)
}
