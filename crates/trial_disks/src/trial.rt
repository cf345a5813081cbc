//! The trial: the first word of a step names its subject.

use crate::disk::Ram;
use crate::file::FileCase;
use crate::image::Front;
use crate::making::MakingCase;
use crate::mirror::MirrorCase;
use crate::stop::StopCase;
use crate::texts::{ShelfCase, sink_step};
use crate::{bay, command, disk, stack, store, stores};
use spr_io::{MemBay, MemSink, MemStore};
use stack_accept::Mounted;
use std::alloc::{AllocError, Global};
use trial_cases::Trial;
use trial_words::{Halt, end_step, number};

/// What the steps of a case have made so far.
#[derive(Drop)]
pub struct DiskTrial {
    alloc: Global,
    shelf: Option<ShelfCase>,
    sink: Option<MemSink>,
    /// The store in hand.
    store: Option<MemStore>,
    bay: Option<MemBay>,
    image: Option<Front>,
    disk: Option<Ram>,
    making: MakingCase,
    mirror: MirrorCase,
    stack: Option<Mounted>,
    file: FileCase,
    stop: StopCase,
}

impl DiskTrial {
    /// The trial before its first case.
    pub fn new(alloc: Global) -> DiskTrial {
        DiskTrial {
            alloc,
            shelf: None,
            sink: None,
            store: None,
            bay: None,
            image: None,
            disk: None,
            making: MakingCase::new(),
            mirror: MirrorCase::new(alloc),
            stack: None,
            file: FileCase::new(),
            stop: StopCase::new(alloc),
        }
    }

    /// A step of the shelf.
    fn shelf_step(&mut self, words: &[&str], body: &[u8], answer: &mut String) -> Result<(), Halt> {
        if let ["new", fails @ ..] = words {
            self.shelf = Some(ShelfCase::new(self.alloc, fails)?);
            return Ok(());
        }
        match &mut self.shelf {
            Some(shelf) => shelf.step(words, body, answer),
            None => Err(Halt::Impossible),
        }
    }

    /// A step of the front of an image.
    fn image_step(&mut self, words: &[&str], answer: &mut String) -> Result<(), Halt> {
        if let ["fresh", pages] = words {
            self.image = Some(Front::new(self.alloc, number(pages)?)?);
            return Ok(());
        }
        match &mut self.image {
            Some(image) => image.step(self.alloc, words, answer),
            None => Err(Halt::Impossible),
        }
    }

    /// A step over the stack.
    fn stack_step(
        &mut self,
        subject: &str,
        words: &[&str],
        answer: &mut String,
    ) -> Result<(), Halt> {
        let alloc = self.alloc;
        let Some(mount) = &self.stack else {
            return Err(Halt::Impossible);
        };
        match subject {
            "stores" => stores::step(alloc, mount, &mut self.bay, words, answer),
            "stop" => self.stop.step(mount, &mut self.sink, words, answer),
            "file" => self.file.step(alloc, mount, &mut self.bay, words, answer),
            "command" => command::step(alloc, mount, &mut self.bay, &mut self.sink, words, answer),
            _ => Err(Halt::Unread),
        }
    }

    /// Does a step of the subject that its first word names.
    fn done(&mut self, words: &[&str], body: &[u8], answer: &mut String) -> Result<(), Halt> {
        let alloc = self.alloc;
        let [subject, rest @ ..] = words else {
            return Err(Halt::Unread);
        };
        match *subject {
            "stack" => {
                self.stack = Some(stack::mounted(alloc, body)?);
                Ok(())
            }
            "shelf" => self.shelf_step(rest, body, answer),
            "sink" => sink_step(alloc, &mut self.sink, rest, answer),
            "store" => store::step(alloc, &mut self.store, rest, answer),
            "bay" => bay::step(alloc, &mut self.bay, &mut self.store, rest, answer),
            "image" => self.image_step(rest, answer),
            "disk" => disk::step(alloc, &mut self.disk, &mut self.store, rest, answer),
            "making" => {
                let (disk, store) = (&mut self.disk, &mut self.store);
                self.making.step(alloc, disk, store, rest, answer)
            }
            "mirror" => self.mirror.step(alloc, rest, answer),
            _ => self.stack_step(subject, rest, answer),
        }
    }
}

impl Trial for DiskTrial {
    fn begin(&mut self) -> Result<(), AllocError> {
        *self = DiskTrial::new(self.alloc);
        Ok(())
    }

    fn step(&mut self, words: &[&str], body: &[u8], answer: &mut String) -> Result<(), AllocError> {
        end_step(self.done(words, body, answer), answer)
    }
}
