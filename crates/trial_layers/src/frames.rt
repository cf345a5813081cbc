//! The table of frames: what a head says by its operation, right and flags.

use page_messages::{
    Answer, Asked, Called, Message, answer_in, asked_in, called_in, first_in, reply_in, second_in,
};
use pager_channel::{Frame, Ops, read_frame};
use std::alloc::{AllocError, Global};
use trial_parts::{Subject, operations};
use trial_words::{Halt, number};

/// The word of a question.
fn asked_word(what: Asked) -> &'static str {
    match what {
        Asked::PageInRead => "page_in_read",
        Asked::PageInWrite => "page_in_write",
        Asked::PageOut => "page_out",
        Asked::WriteOut => "write_out",
        Asked::Sync => "sync",
        Asked::Done => "done_with_pager_object",
    }
}

/// The question of a word.
pub fn asked_of(word: &str) -> Result<Asked, Halt> {
    match word {
        "page_in_read" => Ok(Asked::PageInRead),
        "page_in_write" => Ok(Asked::PageInWrite),
        "page_out" => Ok(Asked::PageOut),
        "write_out" => Ok(Asked::WriteOut),
        "sync" => Ok(Asked::Sync),
        "done_with_pager_object" => Ok(Asked::Done),
        _ => Err(Halt::Unread),
    }
}

/// The word of an order.
fn called_word(what: Called) -> &'static str {
    match what {
        Called::FlushBack => "flush_back",
        Called::DenyWrites => "deny_writes",
        Called::WriteBack => "write_back",
        Called::DeleteRange => "delete_range",
        Called::Destroy => "destroy_cache",
    }
}

/// The order of a word.
pub fn called_of(word: &str) -> Result<Called, Halt> {
    match word {
        "flush_back" => Ok(Called::FlushBack),
        "deny_writes" => Ok(Called::DenyWrites),
        "write_back" => Ok(Called::WriteBack),
        "delete_range" => Ok(Called::DeleteRange),
        "destroy_cache" => Ok(Called::Destroy),
        _ => Err(Halt::Unread),
    }
}

/// The word of an answer.
fn answer_word(what: Answer) -> &'static str {
    match what {
        Answer::Grant => "grant",
        Answer::Upgrade => "upgrade",
        Answer::PageOut => "page_out",
        Answer::WriteOut => "write_out",
        Answer::Sync => "sync",
        Answer::Done => "done_with_pager_object",
    }
}

/// Appends who sent a message, and which one.
fn put_message(message: Option<Message>, answer: &mut String) -> Result<(), AllocError> {
    match message {
        None => answer.push_str("no message\n"),
        Some(Message::Asks { child, full, what }) => {
            let data = if full { " with data" } else { "" };
            writeln!(answer, "child {child} asks {}{data}", asked_word(what))
        }
        Some(Message::Orders { what }) => writeln!(
            answer,
            "the pager orders {}",
            called_word(what)
        ),
        Some(Message::Answers { what }) => {
            writeln!(answer, "the pager answers {}", answer_word(what))
        }
        Some(Message::Replies { child, what }) => {
            writeln!(answer, "child {child} replies {}", called_word(what))
        }
    }
}

/// Appends what a first frame is: a question and then an order, each as the frame has it and as a node hears it.
fn put_first(frame: &Frame<'_>, answer: &mut String) -> Result<(), AllocError> {
    let question = asked_in(frame).map_or("none", asked_word);
    write!(answer, "question {question}: ")?;
    put_message(first_in(Some(7), frame), answer)?;
    let order = called_in(frame).map_or("none", called_word);
    write!(answer, "order {order}: ")?;
    put_message(first_in(None, frame), answer)
}

/// Appends what a second frame is: an answer and then a reply, each as the frame has it and as a node hears it.
fn put_second(frame: &Frame<'_>, answer: &mut String) -> Result<(), AllocError> {
    let given = answer_in(frame).map_or("none", answer_word);
    write!(answer, "answer {given}: ")?;
    put_message(second_in(None, frame), answer)?;
    let reply = reply_in(frame).map_or("none", called_word);
    write!(answer, "reply {reply}: ")?;
    put_message(second_in(Some(7), frame), answer)
}

/// The byte of a word.
fn byte(word: &str) -> Result<u8, Halt> {
    match number(word)? {
        value @ 0..=255 => Ok(value as u8),
        _ => Err(Halt::Unread),
    }
}

/// The bytes of a head of an operation, a right and flags, of size 0.
fn head_of(operation: &str, access: &str, flags: &str) -> Result<[u8; 24], Halt> {
    let mut head = [0u8; 24];
    head[1] = 2;
    head[3] = byte(operation)?;
    head[20] = byte(access)?;
    head[21] = byte(flags)?;
    Ok(head)
}

/// Appends what a frame is as the first or as the second one.
fn put_frame(which: &str, frame: &Frame<'_>, answer: &mut String) -> Result<(), Halt> {
    match which {
        "first" => Ok(put_first(frame, answer)?),
        "second" => Ok(put_second(frame, answer)?),
        _ => Err(Halt::Unread),
    }
}

/// The frames that a node hears.
#[derive(Drop)]
pub struct Heard;

impl Subject for Heard {
    fn make(_alloc: Global, words: &[&str]) -> Result<Heard, Halt> {
        match words {
            ["frames"] => Ok(Heard),
            _ => Err(Halt::Unread),
        }
    }

    fn step(&mut self, _alloc: Global, words: &[&str], answer: &mut String) -> Result<(), Halt> {
        let [which, operation, access, flags] = words else {
            return Err(Halt::Unread);
        };
        let head = head_of(operation, access, flags)?;
        match read_frame(&operations(), &head) {
            Ok(frame) => put_frame(which, &frame, answer),
            Err(err) => Ok(writeln!(answer, "{err}")?),
        }
    }
}
