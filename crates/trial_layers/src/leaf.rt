//! A leaf with its frames over a file of pages of 64 bytes, which the ground answers and orders.

ghost use Rattle.std.specs.Prelude.{IsTrue, ◌≡◌, ◌<◌, ◌≤◌, length};
ghost use Rattle.vmm_cache.specs.Leaf.{MayAskAbout};

use crate::frames::{asked_of, called_of};
use crate::layers::{frame_of, put_frame, put_taken, right_word};
use coherency_layer::{Asked, Called};
use marshal_buf::Buf;
use page_messages::Letter;
use std::alloc::Global;
use tower_core::Right;
use trial_parts::{Subject, operations};
use trial_words::{Halt, bytes, number, put_hex, say, three, two};
use vmm_cache::Leaf;

/// The leaf, and the last order and its answer.
#[derive(Drop)]
pub struct OneLeaf {
    leaf: Leaf,
    first: Buf,
    second: Buf,
}

/// Whether the leaf may ask for a page of which it has nothing.
fn may_get(leaf: &Leaf, page: u32) -> bool
    ensures { IsTrue result → MayAskAbout leaf.now Asked.PageInRead page }
{
    page < leaf.file().pages && leaf.right(page) == Right::Nothing && leaf.held() < leaf.frames()
}

impl OneLeaf {
    /// The ground answers a question about a page of zeros, and the leaf takes the answer or not.
    fn answered(&mut self, what: Asked, page: u32, answer: &mut String) -> Result<(), Halt> {
        let ops = operations();
        let file = self.leaf.file();
        if file.page_size != 64 {
            return Err(Halt::Impossible);
        }
        let zeros = [0; 64];
        let letter = Letter::answer(self.leaf.right(page), &zeros, what);
        self.second.clear();
        file.put(&ops, page, &letter, &mut self.second)?;
        let frame = frame_of(&ops, self.second.as_slice())?;
        put_taken(self.leaf.accept_reply(&frame), answer)?;
        self.put_victim(answer)
    }

    /// The leaf reads a page once more.
    fn touch(&mut self, page: u32, answer: &mut String) -> Result<(), Halt> {
        if !self.leaf.may_read(page) {
            return Err(Halt::Impossible);
        }
        self.leaf.touch(page);
        self.put_victim(answer)
    }

    /// The leaf asks for a page.
    fn ask(&mut self, alloc: Global, page: u32, answer: &mut String) -> Result<(), Halt> {
        if !may_get(&self.leaf, page) {
            return Err(Halt::Impossible);
        }
        self.first.clear();
        self.leaf
            .ask(&operations(), Asked::PageInRead, page, &mut self.first)?;
        put_frame(alloc, self.first.as_slice(), answer)
    }

    /// The ground orders the leaf.
    fn ordered(
        &mut self,
        alloc: Global,
        what: Called,
        page: u32,
        answer: &mut String,
    ) -> Result<(), Halt> {
        let letter = Letter::order(what);
        self.first.clear();
        self.leaf
            .file()
            .put(&operations(), page, &letter, &mut self.first)?;
        put_frame(alloc, self.first.as_slice(), answer)
    }

    /// The leaf answers the order, and changes nothing.
    fn obey(&mut self, alloc: Global, answer: &mut String) -> Result<(), Halt> {
        let ops = operations();
        let frame = frame_of(&ops, self.first.as_slice())?;
        self.second.clear();
        match self.leaf.serve_cache(&ops, &frame, &mut self.second) {
            Ok(()) => put_frame(alloc, self.second.as_slice(), answer),
            Err(err) => Ok(writeln!(answer, "{err}")?),
        }
    }

    /// The leaf makes the change of the order.
    fn finish(&mut self, alloc: Global) -> Result<(), Halt> {
        let ops = operations();
        let frame = frame_of(&ops, self.first.as_slice())?;
        let mut scratch = Buf::new(alloc);
        if self.leaf.serve_cache(&ops, &frame, &mut scratch).is_err() {
            return Err(Halt::Impossible);
        }
        self.leaf.finish(&frame);
        Ok(())
    }

    /// Appends the page that goes out next.
    fn put_victim(&self, answer: &mut String) -> Result<(), Halt> {
        match self.leaf.victim() {
            Some(page) => writeln!(answer, "page {page} goes out next")?,
            None => answer.push_str("no page goes out next\n")?,
        }
        Ok(())
    }

    /// The leaf writes bytes into a page.
    fn change(&mut self, page: u32, off: u32, new: &[u8]) -> Result<(), Halt> {
        let size = self.leaf.file().page_size as usize;
        if (off as usize).saturating_add(new.len()) > size || !self.leaf.may_write(page) {
            return Err(Halt::Impossible);
        }
        self.leaf.change(page, off, new);
        Ok(())
    }

    /// The leaf makes a page zeros.
    fn blank(&mut self, page: u32) -> Result<(), Halt> {
        if !self.leaf.may_write(page) {
            return Err(Halt::Impossible);
        }
        self.leaf.blank(page);
        Ok(())
    }

    /// Appends bytes of a page that the leaf reads.
    fn put_read(
        &self,
        alloc: Global,
        page: u32,
        off: u32,
        len: u32,
        answer: &mut String,
    ) -> Result<(), Halt> {
        if off.saturating_add(len) > self.leaf.file().page_size || !self.leaf.may_read(page) {
            return Err(Halt::Impossible);
        }
        put_hex(alloc, self.leaf.lend(page, off, len), answer)?;
        Ok(answer.push('\n')?)
    }

    /// The leaf's own access.
    fn access(&mut self, alloc: Global, words: &[&str], answer: &mut String) -> Result<(), Halt> {
        match words {
            ["changes", page, off, word] => {
                let (page, off) = two(page, off)?;
                self.change(page, off, &bytes(alloc, word)?)
            }
            ["blanks", page] => self.blank(number(page)?),
            ["reads", page, off, len] => {
                let (page, off, len) = three(page, off, len)?;
                self.put_read(alloc, page, off, len, answer)
            }
            _ => self.look(words, answer),
        }
    }

    /// A step that tells what the leaf has.
    fn look(&self, words: &[&str], answer: &mut String) -> Result<(), Halt> {
        match words {
            ["frames"] => Ok(writeln!(answer, "{}", self.leaf.frames())?),
            ["held"] => Ok(writeln!(answer, "{}", self.leaf.held())?),
            ["right", page] => Ok(say(answer, right_word(self.leaf.right(number(page)?)))?),
            _ => Err(Halt::Unread),
        }
    }
}

/// A leaf of so many pages and frames, which has nothing.
fn fresh(alloc: Global, pages: u32, frames: u32) -> Result<OneLeaf, Halt> {
    if pages == 0 || pages > 1024 || frames == 0 || frames > 1024 {
        return Err(Halt::Impossible);
    }
    Ok(OneLeaf {
        leaf: Leaf::new(alloc, 64, pages, frames, 0)?,
        first: Buf::new(alloc),
        second: Buf::new(alloc),
    })
}

impl Subject for OneLeaf {
    fn make(alloc: Global, words: &[&str]) -> Result<OneLeaf, Halt> {
        match words {
            ["leaf", pages, "pages,", frames, "frames"] => {
                let (pages, frames) = two(pages, frames)?;
                fresh(alloc, pages, frames)
            }
            _ => Err(Halt::Unread),
        }
    }

    fn step(&mut self, alloc: Global, words: &[&str], answer: &mut String) -> Result<(), Halt> {
        match words {
            ["answered", what, page] => self.answered(asked_of(what)?, number(page)?, answer),
            ["touches", page] => self.touch(number(page)?, answer),
            ["asks", "page_in_read", page] => self.ask(alloc, number(page)?, answer),
            ["ordered", what, page] => {
                self.ordered(alloc, called_of(what)?, number(page)?, answer)
            }
            ["obeys"] => self.obey(alloc, answer),
            ["finishes"] => self.finish(alloc),
            _ => self.access(alloc, words, answer),
        }
    }
}
