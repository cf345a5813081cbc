//! The steps of a case: its texts and stores, the commands over them, and what these wrote.

use crate::meeting::{CountingGate, MeetingGate, RoundsGate};
use crate::sinks::SinkCase;
use crate::stores::{count_faults, look, put_store};
use crate::texts::Texts;
use crate::written::Written;
use hist_plain::OpenGate;
use spr_client::LineGate;
use spr_io::MemBay;
use spr_report::{Status, finish};
use spr_run::spring;
use std::alloc::{AllocError, Global};
use std::sync::Wait;
use std::thread::Threads;
use trial_words::{Failing, Halt, end_step, number, say_text, say_whether};
use value_types::Text;

/// What the steps of a case have made so far.
#[derive(Drop)]
pub struct Runs {
    alloc: Global,
    texts: Texts,
    /// The reads of each command's shelf that fail, counted from 1.
    reads: Vec<u64>,
    sink: SinkCase,
    /// The sink of notices.
    beside: SinkCase,
    bay: MemBay,
    written: Written,
    /// What the last command told of the disks in mirrors.
    notices: Vec<u8>,
}

/// The words of a command.
fn words_of(alloc: Global, words: &[&str]) -> Result<Vec<Text>, Halt> {
    let mut texts = Vec::new(alloc);
    for word in words {
        texts
            .push(Text::of(alloc, word)?)
            .map_err(|_| Halt::Memory)?;
    }
    Ok(texts)
}

impl Runs {
    /// No text and no store, and no call that fails.
    pub fn new(alloc: Global) -> Result<Runs, AllocError> {
        Ok(Runs {
            alloc,
            texts: Texts::new(alloc),
            reads: Vec::new(alloc),
            sink: SinkCase::new(alloc),
            beside: SinkCase::new(alloc),
            bay: MemBay::new(alloc, &[], &[])?,
            written: Written::new(alloc),
            notices: Vec::new(alloc),
        })
    }

    /// Does a step, and appends its answer.
    pub fn step<R: Threads + Wait + Sync>(
        &mut self,
        rt: &R,
        words: &[&str],
        body: &[u8],
        answer: &mut String,
    ) -> Result<(), AllocError> {
        let Some((what, rest)) = words.split_first() else {
            return Ok(());
        };
        end_step(self.done(rt, what, rest, body, answer), answer)
    }

    /// Does a step that runs a command, or else another.
    fn done<R: Threads + Wait + Sync>(
        &mut self,
        rt: &R,
        what: &str,
        words: &[&str],
        body: &[u8],
        answer: &mut String,
    ) -> Result<(), Halt> {
        match (what, words) {
            ("spring", words) => self.told(rt, words, answer),
            ("as", [name, words @ ..]) => self.told_as(rt, name, words, answer),
            ("quietly", words) => {
                let status = self.command(rt, words, &OpenGate)?;
                Ok(writeln!(answer, "status {status}")?)
            }
            ("counted", words) => self.counted(rt, words, answer),
            ("meeting", words) => self.meeting(rt, words, answer),
            ("rounds", [rounds, words @ ..]) => self.rounds(rt, rounds, words, answer),
            ("notices", []) => self.say_told(&self.notices, answer),
            ("next" | "end" | "times" | "some" | "later" | "digits" | "answered", words) => {
                self.looked(what, words, body, answer)
            }
            _ => self.prepared(what, words, body, answer),
        }
    }

    /// Does a step over what a command wrote.
    fn looked(
        &mut self,
        what: &str,
        words: &[&str],
        body: &[u8],
        answer: &mut String,
    ) -> Result<(), Halt> {
        match (what, words) {
            ("next", []) => Ok(say_whether(answer, self.written.next(body)?)?),
            ("next", names) => Ok(say_whether(answer, self.goes_on(names)?)?),
            ("end", []) => Ok(say_whether(answer, self.written.is_at_end())?),
            ("times", []) => Ok(writeln!(answer, "{}", self.written.times(body))?),
            ("some", []) => Ok(say_whether(answer, self.written.times(body) > 0)?),
            ("later", [one, other]) => {
                let Some(later) = self.written.later(one, other) else {
                    return Err(Halt::Impossible);
                };
                self.set_text("later", later.as_bytes())
            }
            ("answered", [client]) => match self.written.answered(client)? {
                Some(lines) => Ok(writeln!(answer, "{lines}")?),
                None => Ok(writeln!(answer, "other")?),
            },
            ("digits", [most]) => {
                let most = number(most)? as usize;
                Ok(say_whether(answer, self.written.has_digits(body, most))?)
            }
            _ => Err(Halt::Unread),
        }
    }

    /// Does a step over texts and stores.
    fn prepared(
        &mut self,
        what: &str,
        words: &[&str],
        body: &[u8],
        answer: &mut String,
    ) -> Result<(), Halt> {
        let alloc = self.alloc;
        match (what, words) {
            ("text", [name]) => self.set_text(name, body),
            ("more", [name, times]) => Ok(self.texts.add(name, body, number(times)?)?),
            ("sink", words) => self.sink.set(alloc, words),
            ("beside", words) => self.beside.set(alloc, words),
            ("shelf" | "bay", words) => self.failing(what, words),
            ("store", words) => put_store(alloc, &mut self.bay, words, body),
            ("kept", words) => look(alloc, &self.bay, words, answer),
            ("faults", words) => count_faults(&self.bay, words, answer),
            ("finish", [status]) => self.finished(status, body, answer),
            _ => Err(Halt::Unread),
        }
    }

    /// Sets the text of a name.
    fn set_text(&mut self, name: &str, text: &[u8]) -> Result<(), Halt> {
        let text = Vec::from_slice(self.alloc, text)?;
        self.texts.set(name, text)?;
        Ok(())
    }

    /// `shelf` or `bay`: which calls fail from here on. A bay is empty.
    fn failing(&mut self, what: &str, words: &[&str]) -> Result<(), Halt> {
        let alloc = self.alloc;
        match what {
            "shelf" => {
                self.reads = Failing::of(words, &["reads"])?.ordinals(alloc, "reads")?;
            }
            _ => {
                let failing = Failing::of(words, &["takes", "gives"])?;
                let takes = failing.ordinals(alloc, "takes")?;
                let gives = failing.ordinals(alloc, "gives")?;
                self.bay = MemBay::new(alloc, &takes, &gives)?;
            }
        }
        Ok(())
    }

    /// Runs a command of these words: the number of its status.
    fn command<R: Threads + Wait + Sync, G: LineGate>(
        &mut self,
        rt: &R,
        words: &[&str],
        gate: &G,
    ) -> Result<u8, Halt> {
        let alloc = self.alloc;
        let words = words_of(alloc, words)?;
        let mut shelf = self.texts.shelf(&self.reads)?;
        let mut sink = self.sink.sink(alloc)?;
        let mut notices = self.beside.sink(alloc)?;
        let status = spring(
            rt,
            alloc,
            &words,
            &mut shelf,
            &mut self.bay,
            &mut sink,
            &mut notices,
            gate,
        );
        self.written.set(sink.bytes())?;
        self.notices = Vec::from_slice(alloc, notices.bytes())?;
        Ok(status.number())
    }

    /// Appends the status that was answered, unless the text's last line says it.
    fn say_status(&self, status: u8, answer: &mut String) -> Result<(), Halt> {
        let line = format!(in self.alloc; "status {status}\n")?;
        if !self.written.text().ends_with(line.as_bytes()) {
            writeln!(answer, "answered {status}")?;
        }
        Ok(())
    }

    /// Appends what a sink got, and `..` if its last line was cut.
    fn say_told(&self, text: &[u8], answer: &mut String) -> Result<(), Halt> {
        say_text(self.alloc, answer, text)?;
        if !text.is_empty() && !text.ends_with(b"\n") {
            answer.push_str("..\n")?;
        }
        Ok(())
    }

    /// `spring WORD ..`: what the command writes.
    fn told<R: Threads + Wait + Sync>(
        &mut self,
        rt: &R,
        words: &[&str],
        answer: &mut String,
    ) -> Result<(), Halt> {
        let status = self.command(rt, words, &OpenGate)?;
        self.say_told(self.written.text(), answer)?;
        self.say_status(status, answer)
    }

    /// `as NAME WORD ..`: that the command writes the text of this name, or what it writes.
    fn told_as<R: Threads + Wait + Sync>(
        &mut self,
        rt: &R,
        name: &str,
        words: &[&str],
        answer: &mut String,
    ) -> Result<(), Halt> {
        let status = self.command(rt, words, &OpenGate)?;
        let text = self.written.text();
        match self.texts.text(name) {
            Some(wanted) if wanted == text => writeln!(answer, "as {name}")?,
            _ => say_text(self.alloc, answer, text)?,
        }
        self.say_status(status, answer)
    }

    /// `counted WORD ..`: the status, and behind how many lines the command's gate was called.
    fn counted<R: Threads + Wait + Sync>(
        &mut self,
        rt: &R,
        words: &[&str],
        answer: &mut String,
    ) -> Result<(), Halt> {
        let gate = CountingGate::new();
        let status = self.command(rt, words, &gate)?;
        let lines = gate.lines();
        writeln!(answer, "status {status}, {lines} lines")?;
        Ok(())
    }

    /// `meeting WORD ..`: the status, and whether the second client came while the first one waited.
    fn meeting<R: Threads + Wait + Sync>(
        &mut self,
        rt: &R,
        words: &[&str],
        answer: &mut String,
    ) -> Result<(), Halt> {
        let gate = MeetingGate::new();
        let status = self.command(rt, words, &gate)?;
        let when = if gate.is_late() { "late" } else { "in time" };
        writeln!(answer, "status {status}, {when}")?;
        Ok(())
    }

    /// `rounds N WORD ..`: what the command writes, and whether two of its clients wait for each other in so many rounds.
    fn rounds<R: Threads + Wait + Sync>(
        &mut self,
        rt: &R,
        rounds: &str,
        words: &[&str],
        answer: &mut String,
    ) -> Result<(), Halt> {
        let gate = RoundsGate::new(number(rounds)?);
        let status = self.command(rt, words, &gate)?;
        self.say_told(self.written.text(), answer)?;
        self.say_status(status, answer)?;
        let when = if gate.is_late() { "late" } else { "in time" };
        writeln!(answer, "{when}")?;
        Ok(())
    }

    /// Whether what was written goes on with one of the texts of these names, which is then looked at.
    fn goes_on(&mut self, names: &[&str]) -> Result<bool, Halt> {
        for name in names {
            if let Some(text) = self.texts.text(name) {
                if self.written.next(text)? {
                    return Ok(true);
                }
            }
        }
        Ok(false)
    }

    /// `finish STATUS`: a sink has the pieces of the body, between which slashes stand, and the status.
    fn finished(&mut self, status: &str, body: &[u8], answer: &mut String) -> Result<(), Halt> {
        let status = match status {
            "good" => Status::Good,
            "memory" => Status::Memory,
            _ => return Err(Halt::Unread),
        };
        let mut sink = self.sink.sink(self.alloc)?;
        let pieces: Vec<&[u8]> = body.split(|byte| *byte == b'/').collect(self.alloc)?;
        let status = finish(&mut sink, &pieces, status).number();
        self.written.set(sink.bytes())?;
        say_text(self.alloc, answer, self.written.text())?;
        if !self.written.text().ends_with(b"\n") {
            answer.push_str("..\n")?;
        }
        self.say_status(status, answer)
    }
}
