//! Lines of answers.

use disk_format::BadImage;
use mirror_layer::Notice;
use page_ground::StoreFault;
use std::alloc::AllocError;
use trial_words::{say, without_zeros};

/// Appends whether a call did what it was asked.
pub fn say_done(answer: &mut String, is_done: bool) -> Result<(), AllocError> {
    say(answer, if is_done { "done" } else { "failed" })
}

/// Appends whether a call of a disk did what it was asked, or the fault of the store.
pub fn say_called(answer: &mut String, called: Result<(), StoreFault>) -> Result<(), AllocError> {
    match called {
        Ok(()) => say(answer, "done"),
        Err(fault) => writeln!(answer, "{fault}"),
    }
}

/// Appends the place and the reason of blocks that are no image.
pub fn say_bad(answer: &mut String, bad: &BadImage) -> Result<(), AllocError> {
    let (place, word) = (bad.place, bad.why.word());
    writeln!(answer, "no image, {place} {word}")
}

/// Appends a line of bytes in hexadecimal, without the zeros at their end. If they are zeros alone, it is `zeros`; if they are
/// all the same byte, it is that, and how often it stands there.
pub fn say_bytes(answer: &mut String, bytes: &[u8]) -> Result<(), AllocError> {
    let shown = without_zeros(bytes);
    let Some((first, rest)) = shown.split_first() else {
        return say(answer, "zeros");
    };
    if rest.len() == 63 && rest.iter().all(|byte| byte == first) {
        return writeln!(answer, "64 times {first:02x}");
    }
    for byte in shown {
        write!(answer, "{byte:02x}")?;
    }
    say(answer, "")
}

/// Appends a line for each disk of which a word is told.
pub fn say_notices(answer: &mut String, notices: &[Option<Notice>]) -> Result<(), AllocError> {
    let mut disk = 0u32;
    for notice in notices {
        if let Some(notice) = notice {
            let word = notice.word();
            writeln!(answer, "disk {disk}: {word}")?;
        }
        disk = disk.saturating_add(1);
    }
    Ok(())
}
