//! Calls at a layer of a file in words: `CALLER at NODE of FILE read PAGE OFF LEN`, or another access or a sync.
//!
//! An access may end with `life LIFE`, and the file may be left out; else these are 0.

use hist_plain::{Keep, Op};
use std::alloc::Global;
use trial_parts::{access_of, keep_of, lived};
use trial_words::{Halt, number};

/// What is called.
#[derive(Drop)]
pub enum Act {
    /// An access of a life of the layer.
    Access {
        /// The access.
        op: Op,
        /// The life of the node now.
        life: u32,
    },
    /// A sync.
    Sync {
        /// Which right it leaves.
        keep: Keep,
    },
}

/// A call of a caller at a layer of a file.
#[derive(Drop)]
pub struct Call {
    /// The number of the caller.
    pub caller: u32,
    /// The number of the layer.
    pub node: u32,
    /// The number of the file.
    pub file: u32,
    /// What is called.
    pub act: Act,
}

/// What some words call.
fn act_of(alloc: Global, words: &[&str]) -> Result<Act, Halt> {
    if let ["sync", keep] = words {
        let keep = keep_of(keep)?;
        return Ok(Act::Sync { keep });
    }
    let (words, life) = lived(words)?;
    let op = access_of(alloc, words)?;
    Ok(Act::Access { op, life })
}

/// The call of some words.
pub fn call_of(alloc: Global, words: &[&str]) -> Result<Call, Halt> {
    let (caller, node, file, rest) = match words {
        [caller, "at", node, "of", file, rest @ ..] => (caller, node, number(file)?, rest),
        [caller, "at", node, rest @ ..] => (caller, node, 0, rest),
        _ => return Err(Halt::Unread),
    };
    Ok(Call {
        caller: number(caller)?,
        node: number(node)?,
        file,
        act: act_of(alloc, rest)?,
    })
}
