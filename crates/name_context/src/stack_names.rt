//! The names of a stack, and the five calls.

ghost use Rattle.std.specs.Prelude.{◌≡◌, ◌≤◌, ◌^◌, [], Some, None, OnErr, IfOk, IfErr, length, map, slice_get};
ghost use Rattle.std.specs.Option.{option_copied};
ghost use Rattle.std.specs.List.{IsDistinct};
ghost use Rattle.std.specs.Str.{bytes_eq};
ghost use Rattle.name_context.specs.Names.{HasParts, kept_at, kept_object};
ghost use Rattle.name_context.specs.History.{IsPathOf, IsStory, names_after};
ghost use Rattle.name_context.specs.Listed.{listed};
ghost use Rattle.name_context.specs.Start.{start_names};
ghost use Rattle.name_context.specs.Calls.{Answered, Called, refused_by, refused_with};
ghost use Rattle.name_context.specs.NamesView.{call_for};

use crate::entry::{NameCall, NameEntry, NameErr, Stored};
use crate::history::Story;
use crate::start::start_tree;
use crate::steps::{
    ask, call_of, done_unless, object_copy, object_unless, put_unless, remove_unless, texts_unless,
};
use crate::tree::NameTree;
use hist_lock::Storied;
use std::alloc::{AllocError, Global};
use std::marker::Model;
use std::snapshot::Snapshot;
use value_types::{Path, Text};

/// The names of a stack, as one tree, and the history of the calls that changed or asked it. Every call is an entry, also one
/// that is refused; only a call that lacks memory is none, and changes nothing.
#[derive(Drop)]
pub struct Names {
    alloc: Global,
    tree: NameTree,
    began: Snapshot<NameTree>,
    story: Story,
}

impl Model for Names {
    ghost use Rattle.name_context.specs.History.{NamesSeen};

    ghost Value = { NamesSeen };

    ghost use Rattle.name_context.specs.NamesView.{AreKept};

    ghost view = { λ n. record { began = n.began.value; history = n.story.entries } };

    ghost invariant = { λ n. AreKept n.began.value n.tree n.story.entries };
}

impl Storied for Names {
    ghost use Rattle.std.specs.Prelude.{Some};

    type Entry = NameEntry;

    type Fixed = NameTree;

    ghost entries = { λ n. n.history };

    ghost caller = { λ entry. Some entry.caller };

    ghost fixed = { λ n. n.began };

    fn len(&self) -> u64 {
        self.story.len()
    }
}

impl Names {
    /// The names at the start: a context for each view, which is a name and a node, and in it an object for each file. An error
    /// is want of memory.
    pub fn start(alloc: Global, views: &[(Text, u32)], files: &[Text]) -> Result<Names, AllocError>
        requires views { IsDistinct bytes_eq (map (λ view. view.0) views.now) }
        requires files { IsDistinct bytes_eq files.now }
        requires few { length files.now ≤ 2 ^ 32 }
        ensures { IfOk result (λ names. names ≡ record { began = start_names views.now files.now; history = [] }) }
    {
        let tree = start_tree(alloc, views, files)?;
        let began = Snapshot::of(&tree);
        let story = Story::new(alloc);
        Ok(Names {
            alloc,
            tree,
            began,
            story,
        })
    }

    /// Makes a context. It is refused if something stands at the path, or if a part on the way is not a context.
    pub fn context(&mut self, caller: u32, path: &Path) -> Result<(), NameErr>
        requires { HasParts path.now }
        ensures { Answered caller NameCall.Context (Some path.now) None self.old self.new (refused_by result) }
    {
        match self.make(caller, path, None) {
            Ok(refused) => done_unless(refused),
            Err(AllocError) => Err(NameErr::Memory),
        }
    }

    /// Stores an object. It is refused as a new context is, and then gives the object back; so it does if memory runs out.
    pub fn bind(
        &mut self,
        caller: u32,
        path: &Path,
        object: Stored,
    ) -> Result<(), (NameErr, Stored)>
        requires { HasParts path.now }
        ensures answer { Answered caller NameCall.Bind (Some path.now) (Some object) self.old self.new (refused_with result) }
        ensures back { IfErr result (λ back. back.1 ≡ object) }
    {
        match self.make(caller, path, Some(&object)) {
            Ok(None) => Ok(()),
            Ok(Some(err)) => Err((err, object)),
            Err(AllocError) => Err((NameErr::Memory, object)),
        }
    }

    /// A copy of the object that stands at the path. It is refused if none stands there, or if a part on the way is not a
    /// context.
    pub fn resolve(&mut self, caller: u32, path: &Path) -> Result<Stored, NameErr>
        requires { HasParts path.now }
        ensures answer { Answered caller NameCall.Resolve (Some path.now) None self.old self.new (refused_by result) }
        ensures found { IfOk result (λ stored. kept_at (names_after self.old.began self.old.history) path.now ≡ Some (kept_object stored)) }
    {
        let asked = ask(
            self.alloc,
            &self.tree,
            &mut self.story,
            NameCall::Resolve,
            Some(path),
        )?;
        let answer = object_unless(self.alloc, &self.tree, asked.refused, path)?;
        self.story
            .enter(caller, NameCall::Resolve, asked.path, None, asked.refused);
        answer
    }

    /// Takes out a name and all names below it. It is refused if nothing stands at the path, or if a part on the way is not a
    /// context.
    pub fn unbind(&mut self, caller: u32, path: &Path) -> Result<(), NameErr>
        requires { HasParts path.now }
        ensures { Answered caller NameCall.Unbind (Some path.now) None self.old self.new (refused_by result) }
    {
        let asked = ask(
            self.alloc,
            &self.tree,
            &mut self.story,
            NameCall::Unbind,
            Some(path),
        )?;
        remove_unless(&mut self.tree, asked.refused, path);
        self.story
            .enter(caller, NameCall::Unbind, asked.path, None, asked.refused);
        done_unless(asked.refused)
    }

    /// What stands in a context, in the order in which it was made. No path is the root. It is refused if no context stands at
    /// the path, or at a part on the way.
    pub fn list(&mut self, caller: u32, path: Option<&Path>) -> Result<Vec<Text>, NameErr>
        requires { IsPathOf NameCall.List (option_copied path) }
        ensures answer { Answered caller NameCall.List (option_copied path.entry) None self.old self.new (refused_by result) }
        ensures texts { IfOk result (λ texts. texts.items ≡ listed (names_after self.old.began self.old.history) (option_copied path.entry)) }
    {
        let asked = ask(
            self.alloc,
            &self.tree,
            &mut self.story,
            NameCall::List,
            path,
        )?;
        let answer = texts_unless(self.alloc, &self.tree, asked.refused, path)?;
        self.story
            .enter(caller, NameCall::List, asked.path, None, asked.refused);
        answer
    }

    /// Lends an entry of the history. None exactly if the place is not below its length.
    pub fn entry(&self, place: u64) -> Option<&NameEntry>
        ensures { option_copied result ≡ slice_get self.now.history place }
    {
        self.story.entry(place)
    }

    /// What holds of all names: the history explains itself. It does no work.
    pub fn sound(&self)
        ensures { IsStory self.now.began self.now.history }
    {
        let _story = &self.story;
    }

    /// Makes a context, or binds a copy of the object. It tells why not, if it is refused.
    fn make(
        &mut self,
        caller: u32,
        path: &Path,
        object: Option<&Stored>,
    ) -> Result<Option<NameErr>, AllocError>
        requires { HasParts path.now }
        ensures ok { IfOk result (λ refused. Called caller (call_for (option_copied object.entry)) (Some path.now) (option_copied object.entry) self.old self.new refused) }
        ensures err { OnErr result (self.new ≡ self.old) }
    {
        let call = call_of(object);
        let asked = ask(self.alloc, &self.tree, &mut self.story, call, Some(path))?;
        let copy = object_copy(object)?;
        put_unless(self.alloc, &mut self.tree, asked.refused, path, object)?;
        self.story
            .enter(caller, call, asked.path, copy, asked.refused);
        Ok(asked.refused)
    }
}
