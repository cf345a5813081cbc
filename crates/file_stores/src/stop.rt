//! Why a command over the stores ends before its work, and what it writes then.

ghost use Rattle.std.specs.Prelude.{◌≡◌, ◌∷◌, [], codes};
ghost use Rattle.text_words.specs.Lines.{line_of};
ghost use Rattle.spr_report.specs.Writing.{Writes, Finishes};
ghost use Rattle.file_stores.specs.Stop.{cause_text, no_image_line, fault_line, lost_text, stop_text, stop_status, refused};

use disk_format::ImageWhy;
use disk_layer::OpenWhy;
use itoa::Buffer;
use script_meaning::{StoreKey, disk_name, file_name};
use spr_io::{Failed, Sink};
use spr_report::{Status, finish, write_lost, write_pieces};
use stack_accept::Mounted;

/// Why a command over the stores ends before its work.
#[derive(Clone, Copy, Debug, PartialEq, Eq)]
pub enum Stop {
    /// The bay gave no store.
    Bay {
        /// The store, by its file and its disk.
        store: StoreKey,
    },
    /// A store failed.
    Store {
        /// The store, by its file and its disk.
        store: StoreKey,
        /// Its count of faults after the failure.
        count: u64,
    },
    /// A store holds no image.
    Image {
        /// The store, by its file and its disk.
        store: StoreKey,
        /// The place of the first damage, in bytes from the image's start.
        place: u32,
        /// The reason, which is never that memory ran out.
        why: ImageWhy,
    },
    /// Memory ran out.
    Memory,
}

impl Stop {
    /// Why a command stops that was refused the disk on a store.
    pub fn refused(store: StoreKey, why: OpenWhy) -> Stop
        ensures { result ≡ refused store why }
    {
        match why {
            OpenWhy::BadImage { bad, blank: _ } => Stop::Image {
                store,
                place: bad.place,
                why: bad.why,
            },
            OpenWhy::StoreFault { fault } => Stop::Store {
                store,
                count: fault.count,
            },
            OpenWhy::Memory => Stop::Memory,
        }
    }

    /// The status of a command that stops so.
    pub fn status(self) -> Status
        ensures { result ≡ stop_status self }
    {
        match self {
            Stop::Bay { .. } => Status::BayFault,
            Stop::Store { .. } => Status::Faulted,
            Stop::Image { .. } => Status::BadImage,
            Stop::Memory => Status::Memory,
        }
    }
}

/// Writes the line of a store that failed.
fn write_fault<K: Sink>(
    sink: &mut K,
    mount: &Mounted,
    store: StoreKey,
    count: u64,
) -> Result<(), Failed>
    ensures { Writes (K.told sink.old) (K.told sink.new) (fault_line mount.now store count) result }
{
    let disk = disk_name(mount, store.disk).as_bytes();
    let mut buffer = Buffer::new();
    let count = buffer.format(count).as_bytes();
    write_pieces(sink, &[b"store ", disk, b" ", count, b"\n"])
}

/// Writes the line of a store that holds no image, of these words.
fn write_image_line<'a, K: Sink>(
    sink: &mut K,
    disk: &'a [u8],
    file: &'a [u8],
    place: &'a [u8],
    word: &'a [u8],
) -> Result<(), Failed>
    ensures { Writes (K.told sink.old) (K.told sink.new) (line_of (codes "image" ∷ disk.now ∷ file.now ∷ place.now ∷ word.now ∷ [])) result }
{
    write_pieces(
        sink,
        &[b"image ", disk, b" ", file, b" ", place, b" ", word, b"\n"],
    )
}

/// Writes the line of a store that holds no image.
fn write_no_image<K: Sink>(
    sink: &mut K,
    mount: &Mounted,
    store: StoreKey,
    place: u32,
    why: ImageWhy,
) -> Result<(), Failed>
    ensures { Writes (K.told sink.old) (K.told sink.new) (no_image_line mount.now store place why) result }
{
    let disk = disk_name(mount, store.disk).as_bytes();
    let file = file_name(mount, store.file).as_bytes();
    let mut buffer = Buffer::new();
    let place = buffer.format(place).as_bytes();
    write_image_line(sink, disk, file, place, why.word().as_bytes())
}

/// Writes the line that says why a command stopped; if memory ran out there is none.
fn write_cause<K: Sink>(sink: &mut K, mount: &Mounted, stop: Stop) -> Result<(), Failed>
    ensures { Writes (K.told sink.old) (K.told sink.new) (cause_text mount.now stop) result }
{
    match stop {
        Stop::Bay { store } => write_lost(sink, mount, &[store]),
        Stop::Store { store, count } => write_fault(sink, mount, store, count),
        Stop::Image { store, place, why } => write_no_image(sink, mount, store, place, why),
        Stop::Memory => Ok(()),
    }
}

/// Ends a command with a line for each store that is lost, and the status.
pub fn finish_lost<K: Sink>(
    sink: &mut K,
    mount: &Mounted,
    lost: &[StoreKey],
    status: Status,
) -> Status
    ensures { Finishes (K.told sink.old) (K.told sink.new) (lost_text mount.now lost.now) status result }
{
    match write_lost(sink, mount, lost) {
        Ok(()) => finish(sink, &[], status),
        Err(Failed) => Status::SinkFault,
    }
}

/// Ends a command before its work: writes why, a line for each store that is lost, and the status.
pub fn stopped<K: Sink>(sink: &mut K, mount: &Mounted, stop: Stop, lost: &[StoreKey]) -> Status
    ensures { Finishes (K.told sink.old) (K.told sink.new) (stop_text mount.now stop lost.now) (stop_status stop) result }
{
    match write_cause(sink, mount, stop) {
        Ok(()) => finish_lost(sink, mount, lost, stop.status()),
        Err(Failed) => Status::SinkFault,
    }
}
