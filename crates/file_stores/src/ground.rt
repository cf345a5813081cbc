//! What lies under a file, as its image is opened over one store or more.

ghost use Rattle.file_stores.specs.Under.{IsSound};

use crate::whole_disk::WholeDisk;
use mirror_layer::AnyGround;
use page_ground::{Ground, StoreFault};
use spr_io::Store;
use std::marker::Model;

/// A disk, or disks in mirrors.
#[derive(Drop)]
pub(crate) enum Either<S: Store> {
    /// The one disk of a file.
    One(WholeDisk<S>),
    /// Its disks in mirrors.
    Many(AnyGround<S>),
}

/// What lies under a file: its disk, or its disks in mirrors.
#[derive(Drop)]
pub struct FileGround<S: Store> {
    pub(crate) either: Either<S>,
}

impl<S: Store> Model for FileGround<S> {
    ghost use Rattle.file_stores.specs.Under.{Under, under_in};

    ghost Value = { Under };

    ghost view = { λ f. under_in f.either };
}

impl<S: Store> FileGround<S> {
    /// What holds of whatever lies under a file, for proofs alone.
    pub fn sound(&self)
        ensures { IsSound self.now }
    {
        match &self.either {
            Either::One(disk) => disk.sound(),
            Either::Many(mirrors) => mirrors.sound(),
        }
    }
}

impl<S: Store> Ground for FileGround<S> {
    ghost use Rattle.file_stores.specs.Under.{seen_under};

    ghost seen = { seen_under };

    fn read(&mut self, page: u32, out: &mut [u8]) -> Result<(), StoreFault> {
        match &mut self.either {
            Either::One(disk) => disk.read(page, out),
            Either::Many(mirrors) => mirrors.read(page, out),
        }
    }

    fn write(&mut self, page: u32, bytes: &[u8]) -> Result<(), StoreFault> {
        match &mut self.either {
            Either::One(disk) => disk.write(page, bytes),
            Either::Many(mirrors) => mirrors.write(page, bytes),
        }
    }

    fn flush(&mut self) -> Result<(), StoreFault> {
        match &mut self.either {
            Either::One(disk) => disk.flush(),
            Either::Many(mirrors) => mirrors.flush(),
        }
    }
}
