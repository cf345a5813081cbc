//! A client's lines, each beside the entries that it made.

use crate::calls::{Object, Region, Target, is_refused, region_at, target_at, target_of};
use crate::queue::Queue;
use crate::report::{Part, Report};
use crate::setting::Setting;
use crate::wrong::{Wrong, claim};
use std::alloc::{AllocError, Global};
use trial_words::long;

/// A client on its way through the script.
#[derive(Drop)]
pub struct Walk<'a, 'b> {
    alloc: Global,
    script: &'a str,
    page_size: u32,
    /// Its events, by files.
    files: Vec<Queue<'b>>,
    /// Its calls on names.
    names: Queue<'b>,
    objects: Vec<Object<'a>>,
    regions: Vec<Region<'a>>,
    /// Whether its objects may find their files again.
    may_pass: bool,
}

/// That a store which refused a line has counted a fault.
fn judge_refusal(answer: &[&str]) -> Result<(), Wrong> {
    match answer {
        ["store", _, count] => claim(long(count)? > 0, "a fault that was not counted"),
        _ => Ok(()),
    }
}

impl<'a, 'b> Walk<'a, 'b> {
    /// A client before its first line.
    pub fn new(
        alloc: Global,
        report: &Report<'b>,
        setting: &Setting<'_>,
        script: &'a str,
        client: &str,
    ) -> Result<Walk<'a, 'b>, AllocError> {
        let mut files = Vec::new(alloc);
        for file in &setting.files {
            files.push(Queue::of(alloc, report, Part::File, file.name, client)?)?;
        }
        Ok(Walk {
            alloc,
            script,
            page_size: setting.page_size,
            files,
            names: Queue::of(alloc, report, Part::Names, "", client)?,
            objects: Vec::new(alloc),
            regions: Vec::new(alloc),
            may_pass: script.contains(" reconnectable "),
        })
    }

    /// That a file has the client's next event as is wanted.
    fn event(&mut self, file: &str, call: &[&str], answer: &[&str]) -> Result<(), Wrong> {
        let may_pass = self.may_pass;
        match self
            .files
            .iter_mut()
            .find(|queue| queue.name.as_str() == file)
        {
            Some(queue) => queue.take(call, answer, may_pass),
            None => Err(Wrong::Said("a line of a file that is not there")),
        }
    }

    /// That the names have the client's next call as is wanted.
    fn name_call(&mut self, op: &str, path: &str, answer: &[&str]) -> Result<(), Wrong> {
        let may_pass = self.may_pass;
        self.names.take(&[op, path], answer, may_pass)
    }

    /// That a line has the answer of what it made.
    pub fn line(&mut self, call: &[&'a str], answer: &[&str]) -> Result<(), Wrong> {
        match call {
            ["context" | "bind" | "unbind" | "list", ..] => self.on_names(call, answer),
            ["open", object, path] => self.open(*object, *path, answer),
            ["drop" | "unmap", ..] => Ok(()),
            _ if is_refused(answer) => judge_refusal(answer),
            ["map", _, object, address, _, _] => self.map(object, address, answer),
            ["copy", object, other] => self.copy(object, *other),
            ["load", address, len] => self.load(address, len, answer),
            ["store", address, hex] => self.store(address, hex, answer),
            ["revoke", layer, file] => self.event(file, &[*layer, "destroy_cache"], answer),
            ["release", layer, file] => {
                self.event(file, &[*layer, "done_with_pager_object"], answer)
            }
            [op, object, rest @ ..] => self.on_object(op, object, rest, answer),
            _ => Err(Wrong::Said("a line of no known form")),
        }
    }

    /// A line on names: what it is answered, its entry is answered too.
    fn on_names(&mut self, call: &[&'a str], answer: &[&str]) -> Result<(), Wrong> {
        match (call, answer) {
            ([op, path, ..], ["names", ..]) => self.name_call(op, path, &["done"]),
            ([op, path, ..], _) => self.name_call(op, path, answer),
            _ => Err(Wrong::Said("a line on names without a path")),
        }
    }

    /// An open: the path is resolved, and then the object has the life of its node.
    fn open(&mut self, object: &'a str, path: &'a str, answer: &[&str]) -> Result<(), Wrong> {
        match answer {
            ["object", "exists"] => return Ok(()),
            ["not" | "already", ..] => return self.name_call("resolve", path, answer),
            _ => self.name_call("resolve", path, &["done"])?,
        }
        if is_refused(answer) {
            return judge_refusal(answer);
        }
        let Some(target) = target_at(self.alloc, self.script, path)? else {
            return Err(Wrong::Said("an open of a path that leads to no file"));
        };
        let Target { node, file } = target;
        self.objects.push(Object {
            name: object,
            target,
        })?;
        self.event(file, &[node, "*", "open"], answer)
    }

    /// A copy: the other object has the same file.
    fn copy(&mut self, object: &str, other: &'a str) -> Result<(), Wrong> {
        let Some(target) = target_of(&self.objects, object) else {
            return Err(Wrong::Said("a copy of an object that was not opened"));
        };
        let name = other;
        self.objects.push(Object { name, target })?;
        Ok(())
    }

    /// A map: the region has the life of its manager.
    fn map(&mut self, object: &str, address: &str, answer: &[&str]) -> Result<(), Wrong> {
        let Some(target) = target_of(&self.objects, object) else {
            return Err(Wrong::Said("a map of an object that was not opened"));
        };
        let (address, file) = (long(address)?, target.file);
        self.regions.push(Region { address, file })?;
        self.event(file, &["*", "*", "open"], answer)
    }

    /// The page and the offset that an address leads to, and its file.
    fn place(&self, address: &str) -> Result<(String, String, &'a str), Wrong> {
        let address = long(address)?;
        let (Some(region), 1..) = (region_at(&self.regions, address), self.page_size) else {
            return Err(Wrong::Said("an address that is not mapped"));
        };
        let (far, size) = (
            address.saturating_sub(region.address),
            u64::from(self.page_size),
        );
        let page = format!(in self.alloc; "{}", far / size)?;
        let off = format!(in self.alloc; "{}", far % size)?;
        Ok((page, off, region.file))
    }

    /// A load: a read of the place that the address leads to.
    fn load(&mut self, address: &str, len: &str, answer: &[&str]) -> Result<(), Wrong> {
        let (page, off, file) = self.place(address)?;
        let read = ["*", "*", "read", page.as_str(), off.as_str(), len];
        self.event(file, &read, answer)
    }

    /// A store: a write of the place that the address leads to.
    fn store(&mut self, address: &str, hex: &str, answer: &[&str]) -> Result<(), Wrong> {
        let (page, off, file) = self.place(address)?;
        let write = ["*", "*", "write", page.as_str(), off.as_str(), hex];
        self.event(file, &write, answer)
    }

    /// A line on an object: an access, or a sync.
    fn on_object(
        &mut self,
        op: &'a str,
        object: &str,
        rest: &[&'a str],
        answer: &[&str],
    ) -> Result<(), Wrong> {
        let Some(Target { node, file }) = target_of(&self.objects, object) else {
            return Err(Wrong::Said("a line on an object that was not opened"));
        };
        match op {
            "sync" => self.event(file, &[node, "synced", "*"], answer),
            "clean" => self.event(file, &[node, "cleaned", "*"], answer),
            _ => {
                let mut call = Vec::from_slice(self.alloc, &[node, "*", op])?;
                call.extend_from_slice(rest)?;
                self.event(file, &call, answer)
            }
        }
    }

    /// That no entry of the client is left.
    pub fn end(&self) -> Result<(), Wrong> {
        self.names.end(self.may_pass)?;
        for queue in &self.files {
            queue.end(self.may_pass)?;
        }
        Ok(())
    }
}
