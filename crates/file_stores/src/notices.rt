//! What a user is told of the disks of a file in mirrors.

ghost use Rattle.std.specs.Prelude.{◌≡◌, ◌∷◌, [], codes, get_or, None};
ghost use Rattle.text_words.specs.Lines.{line_of};
ghost use Rattle.spr_report.specs.Writing.{Writes};
ghost use Rattle.mirror_layer.specs.Notices.{notice_word};
ghost use Rattle.file_stores.specs.Notices.{AreAtClose, notice_at, notice_line, notice_lines};

use crate::ground::{Either, FileGround};
use mirror_layer::{Notice, at_close};
use script_meaning::{disk_name, file_name};
use spr_io::{Failed, Sink, Store};
use spr_report::write_pieces;
use stack_accept::Mounted;

/// What is told of a disk of a file, by what the opening made of it.
fn notice_at<S: Store>(ground: &FileGround<S>, disk: usize, made: Option<Notice>) -> Option<Notice>
    ensures { result ≡ notice_at ground.now disk made }
{
    match &ground.either {
        Either::One(_) => None,
        Either::Many(mirrors) => at_close(made, mirrors.is_live(disk)),
    }
}

/// Turns what the opening of a file made of its disks, by their numbers, into what is told of them when it is closed now.
pub fn end_notices<S: Store>(ground: &FileGround<S>, notices: &mut [Option<Notice>])
    ensures { AreAtClose ground.now notices.old notices.new }
{
    let mut disk = 0usize;
    for notice in notices.iter_mut() {
        *notice = notice_at(ground, disk, *notice);
        disk += 1;
    }
}

/// Writes the line of a disk, of these words.
fn write_notice_line<'a, K: Sink>(
    sink: &mut K,
    file: &'a [u8],
    disk: &'a [u8],
    word: &'a [u8],
) -> Result<(), Failed>
    ensures { Writes (K.told sink.old) (K.told sink.new) (line_of (codes "mirror" ∷ file.now ∷ disk.now ∷ word.now ∷ [])) result }
{
    write_pieces(sink, &[b"mirror ", file, b" ", disk, b" ", word, b"\n"])
}

/// Writes the line of a disk, if anything is told of it.
fn write_notice<K: Sink>(
    sink: &mut K,
    mount: &Mounted,
    file: u32,
    disk: u32,
    notice: Option<Notice>,
) -> Result<(), Failed>
    ensures { Writes (K.told sink.old) (K.told sink.new) (notice_line mount.now file disk notice) result }
{
    match notice {
        None => Ok(()),
        Some(notice) => {
            let file = file_name(mount, file).as_bytes();
            let disk = disk_name(mount, disk).as_bytes();
            write_notice_line(sink, file, disk, notice.word().as_bytes())
        }
    }
}

/// What is told of a disk.
fn notice_of(notices: &[Option<Notice>], disk: u32) -> Option<Notice>
    ensures { result ≡ get_or notices.now disk None }
{
    match notices.get(disk as usize) {
        Some(notice) => *notice,
        None => None,
    }
}

/// Writes a line for each disk of a file of which something is told, in the order of the disks.
pub fn write_notices<K: Sink>(
    sink: &mut K,
    mount: &Mounted,
    file: u32,
    notices: &[Option<Notice>],
) -> Result<(), Failed>
    ensures { Writes (K.told sink.old) (K.told sink.new) (notice_lines mount.now file notices.now) result }
{
    for disk in 0..mount.disks().len() as u32 {
        write_notice(sink, mount, file, disk, notice_of(notices, disk))?;
    }
    Ok(())
}
