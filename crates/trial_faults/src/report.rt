//! A report in its parts.

use std::alloc::{AllocError, Global};

/// Which part of a report a line stands in.
#[derive(Clone, Copy, Debug, PartialEq, Eq)]
pub enum Part {
    /// That of a client.
    Client,
    /// That of a file.
    File,
    /// That of the names.
    Names,
    /// Behind these, or in a text that has none of them.
    Tail,
}

/// A line of a report.
#[derive(Drop)]
pub struct Entry<'a> {
    /// The part that it stands in.
    pub part: Part,
    /// The client or the file of the part, or nothing.
    pub name: &'a str,
    /// Its words.
    pub words: Vec<&'a str>,
}

/// The lines of a report.
#[derive(Drop)]
pub struct Report<'a> {
    alloc: Global,
    /// The lines under the heads, and those at the end.
    pub entries: Vec<Entry<'a>>,
    /// The parts in their order, each with its name.
    pub heads: Vec<Head<'a>>,
}

/// The head of a part.
#[derive(Drop)]
pub struct Head<'a> {
    /// Which part begins.
    pub part: Part,
    /// Its client or file, or nothing.
    pub name: &'a str,
}

/// The head that words are, if they are one.
fn head_of<'a>(words: &[&'a str]) -> Option<Head<'a>> {
    let (part, name) = match words {
        ["client", name] => (Part::Client, *name),
        ["file", name] => (Part::File, *name),
        ["names"] => (Part::Names, ""),
        _ => return None,
    };
    Some(Head { part, name })
}

/// Whether a line stands under a head: it begins with a number.
fn is_under_head(line: &str) -> bool {
    line.as_bytes()
        .first()
        .is_some_and(|byte| byte.is_ascii_digit())
}

impl<'a> Report<'a> {
    /// The lines of a text.
    pub fn read(alloc: Global, text: &'a str) -> Result<Report<'a>, AllocError> {
        let mut report = Report {
            alloc,
            entries: Vec::new(alloc),
            heads: Vec::new(alloc),
        };
        for line in text.lines() {
            report.take(line)?;
        }
        Ok(report)
    }

    /// Takes the next line.
    fn take(&mut self, line: &'a str) -> Result<(), AllocError> {
        let words: Vec<&'a str> = line.split(' ').collect(self.alloc)?;
        if let Some(head) = head_of(&words) {
            self.heads.push(head)?;
            return Ok(());
        }
        let (part, name) = match self.heads.last() {
            Some(head) if is_under_head(line) => (head.part, head.name),
            _ => (Part::Tail, ""),
        };
        self.entries.push(Entry { part, name, words })?;
        Ok(())
    }

    /// Whether some line at the end begins with a word.
    pub fn has_at_end(&self, word: &str) -> bool {
        self.entries.iter().any(|entry| {
            entry.part == Part::Tail && entry.words.first().is_some_and(|first| *first == word)
        })
    }

    /// Whether some client's line is answered by a word or by it and more.
    pub fn has_answer(&self, word: &str) -> bool {
        self.entries.iter().any(|entry| {
            entry.part == Part::Client && entry.words.get(1).is_some_and(|first| *first == word)
        })
    }

    /// The words of a client's line of a number, counted from 0.
    pub fn answer(&self, client: &str, number: usize) -> Option<&[&'a str]> {
        let mut count = 0usize;
        for entry in &self.entries {
            if entry.part == Part::Client && entry.name == client {
                if count == number {
                    return Some(&entry.words);
                }
                count = count.saturating_add(1);
            }
        }
        None
    }

    /// How many faults of stores are told: by clients' lines, by closing syncs, and by a refusal.
    pub fn faults(&self) -> usize {
        self.entries
            .iter()
            .filter(|entry| matches!(entry.words.as_slice(), [.., "store", _, _]))
            .count()
    }

    /// The words of the last line.
    pub fn last(&self) -> Option<&[&'a str]> {
        self.entries.last().map(|entry| entry.words.as_slice())
    }
}
