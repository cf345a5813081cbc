//! Whether what a format and a run wrote and left is right.

use crate::kept::judge_stores;
use crate::outcome::{Outcome, Told};
use crate::plain::{End, Plain};
use crate::report::{Entry, Part, Report};
use crate::setting::{FileShape, Setting, clients_of};
use crate::walk::Walk;
use crate::wrong::{Wrong, claim};
use spr_io::Store;
use std::alloc::Global;
use trial_words::number;

/// What runs are judged by.
#[derive(Drop)]
pub struct Rules<'a> {
    /// What the stack has.
    pub setting: Setting<'a>,
    /// The text of the script.
    pub script: &'a str,
    /// The ends of nodes that the script makes.
    pub ends: Vec<End<'a>>,
}

/// The status of the first line of a refusal before the phases.
fn status_of(words: &[&str]) -> Option<u8> {
    match words {
        ["shelf", _] => Some(4),
        ["bay", _, _] => Some(5),
        ["image", _, _, _, _] => Some(6),
        ["store", _, _] => Some(1),
        _ => None,
    }
}

/// Whether a line says a store that was not taken back, or the status.
fn is_at_end(entry: &Entry<'_>) -> bool {
    match entry.words.as_slice() {
        ["bay", _, _] => true,
        ["status", _] => true,
        _ => false,
    }
}

/// That a command which ended before its work wrote one line, those of lost stores, and its status; if nothing was refused, the
/// lines of lost stores alone.
fn judge_refused(report: &Report<'_>, status: u8) -> Result<(), Wrong> {
    let Some((first, rest)) = report.entries.split_first() else {
        return Err(Wrong::Said("a command without a text"));
    };
    claim(
        rest.iter().all(is_at_end),
        "a refusal of more than one line",
    )?;
    match status_of(&first.words) {
        Some(wanted) => claim(wanted == status, "a refusal with another status"),
        None => claim(
            is_at_end(first) && status == 0,
            "a refusal of no known form",
        ),
    }
}

/// That the last line says the status that was answered.
fn judge_status(report: &Report<'_>, status: u8) -> Result<(), Wrong> {
    match report.last() {
        Some(["status", number_of]) => claim(
            number(number_of)? == u32::from(status),
            "a status that is not the one that was answered",
        ),
        _ => Err(Wrong::Said("a text whose last line is no status")),
    }
}

/// That a format is done, or was refused; how many faults of stores it tells.
fn judge_format(alloc: Global, told: &Told) -> Result<usize, Wrong> {
    let text = String::from_utf8_lossy(alloc, &told.text)?;
    let report = Report::read(alloc, text.as_str())?;
    judge_status(&report, told.status)?;
    judge_refused(&report, told.status)?;
    Ok(report.faults())
}

/// That each fault of the stores is told once, where a file lies on one disk and no store is lost.
fn judge_faults(setting: &Setting<'_>, outcome: &Outcome, told: usize) -> Result<(), Wrong> {
    let [disk] = setting.disks.as_slice() else {
        return Ok(());
    };
    let mut faults = 0u64;
    for file in &setting.files {
        match outcome.bay.look(*disk, file.name) {
            Some(store) => faults = faults.saturating_add(store.count()),
            None => return Ok(()),
        }
    }
    claim(
        faults == told as u64,
        "a fault of a store that is not told once",
    )
}

/// That a format and a run are right: where the sink failed, what it got is the begin of the text of a run without a refusal.
pub fn judge(
    alloc: Global,
    rules: &Rules<'_>,
    whole: &[u8],
    outcome: &Outcome,
) -> Result<(), Wrong> {
    let before = judge_format(alloc, &outcome.format)?;
    if outcome.run.status == 7 {
        let is_begin = whole.starts_with(&outcome.run.text) && whole != outcome.run.text.as_slice();
        return claim(
            is_begin,
            "a text that is cut, and is not the begin of the whole",
        );
    }
    let text = String::from_utf8_lossy(alloc, &outcome.run.text)?;
    judge_text(alloc, rules, text.as_str(), before, outcome)
}

/// That what a run wrote is right, and what the stores keep; so many faults were told before.
fn judge_text(
    alloc: Global,
    rules: &Rules<'_>,
    text: &str,
    before: usize,
    outcome: &Outcome,
) -> Result<(), Wrong> {
    let report = Report::read(alloc, text)?;
    judge_status(&report, outcome.run.status)?;
    judge_faults(
        &rules.setting,
        outcome,
        before.saturating_add(report.faults()),
    )?;
    if report.heads.is_empty() {
        return judge_refused(&report, outcome.run.status);
    }
    judge_report(alloc, rules, &report, outcome)
}

/// That a report is right, and what the stores keep.
fn judge_report(
    alloc: Global,
    rules: &Rules<'_>,
    report: &Report<'_>,
    outcome: &Outcome,
) -> Result<(), Wrong> {
    let clients = clients_of(alloc, rules.script)?;
    judge_heads(report, &clients, &rules.setting)?;
    judge_ended(report, outcome.run.status)?;
    for client in &clients {
        judge_client(alloc, rules, report, *client)?;
    }
    judge_files(alloc, rules, report, outcome)
}

/// That the parts are those of the clients, then of the files, and then of the names.
fn judge_heads(report: &Report<'_>, clients: &[&str], setting: &Setting<'_>) -> Result<(), Wrong> {
    let files = clients.len();
    let names = files.saturating_add(setting.files.len());
    let is_so = report.heads.len() == names.saturating_add(1)
        && report.heads.iter().enumerate().all(|(number, head)| {
            if number < files {
                head.part == Part::Client
                    && clients.get(number).is_some_and(|name| *name == head.name)
            } else if number < names {
                let file = setting.files.get(number.saturating_sub(files));
                head.part == Part::File && file.is_some_and(|file| file.name == head.name)
            } else {
                head.part == Part::Names
            }
        });
    claim(
        is_so,
        "parts that are not those of the clients, the files and the names",
    )
}

/// That the status is that of the lines: a store that was lost, else a call or a closing sync that a store refused.
fn judge_ended(report: &Report<'_>, status: u8) -> Result<(), Wrong> {
    let wanted = if report.has_at_end("bay") {
        5
    } else if report.has_answer("store") || report.has_at_end("closing") {
        1
    } else {
        0
    };
    claim(
        status == wanted,
        "a status that does not follow from the lines",
    )
}

/// That each line of a client is answered once, in its order, and as what it made.
fn judge_client(
    alloc: Global,
    rules: &Rules<'_>,
    report: &Report<'_>,
    client: &str,
) -> Result<(), Wrong> {
    let mut walk = Walk::new(alloc, report, &rules.setting, rules.script, client)?;
    let mut count = 0usize;
    for (number, line) in rules.script.lines().enumerate() {
        let words: Vec<&str> = line.split(' ').collect(alloc)?;
        if words.first().is_some_and(|who| *who == client) {
            let answer = report.answer(client, count);
            judge_line(&mut walk, number.saturating_add(1), &words, answer)?;
            count = count.saturating_add(1);
        }
    }
    claim(
        report.answer(client, count).is_none(),
        "an answer to no line",
    )?;
    walk.end()
}

/// That a line of a number is answered as what it made.
fn judge_line<'a>(
    walk: &mut Walk<'a, '_>,
    line: usize,
    words: &[&'a str],
    answer: Option<&[&str]>,
) -> Result<(), Wrong> {
    let ([_, call @ ..], Some([own, answer @ ..])) = (words, answer) else {
        return Err(Wrong::Said("a line without an answer"));
    };
    claim(number(own)? as usize == line, "an answer to another line")?;
    walk.line(call, answer)
}

/// That the file of each part is played by its events, and what the stores keep.
fn judge_files(
    alloc: Global,
    rules: &Rules<'_>,
    report: &Report<'_>,
    outcome: &Outcome,
) -> Result<(), Wrong> {
    for file in &rules.setting.files {
        let plain = played(alloc, rules, report, file)?;
        judge_closing(report, file)?;
        judge_stores(alloc, outcome, &rules.setting, file, &plain)?;
    }
    Ok(())
}

/// A file that is played by its events.
fn played(
    alloc: Global,
    rules: &Rules<'_>,
    report: &Report<'_>,
    file: &FileShape<'_>,
) -> Result<Plain, Wrong> {
    let mut plain = Plain::new(alloc, rules.setting.page_size, file.pages)?;
    for entry in &report.entries {
        if entry.part == Part::File && entry.name == file.name {
            plain.play(&entry.words, &rules.ends)?;
        }
    }
    Ok(plain)
}

/// Whether words are those of a closing sync that is done.
fn is_closing_sync(words: &[&str]) -> bool {
    matches!(words, [_, "mount", _, _, "synced", _, "done"])
}

/// Whether words are those of the closing sync of a file that a store refused.
fn is_refused_closing(words: &[&str], file: &str) -> bool {
    matches!(words, ["closing", name, "store", _, _] if *name == file)
}

/// That a file has either its closing sync as its last event, or a line that says why not.
fn judge_closing(report: &Report<'_>, file: &FileShape<'_>) -> Result<(), Wrong> {
    let (mut is_synced, mut is_refused) = (false, false);
    for entry in &report.entries {
        if entry.part == Part::File && entry.name == file.name {
            is_synced = is_closing_sync(&entry.words);
        }
        if entry.part == Part::Tail && is_refused_closing(&entry.words, file.name) {
            is_refused = true;
        }
    }
    claim(
        is_synced != is_refused,
        "a file without its closing sync or the line that says why",
    )
}
