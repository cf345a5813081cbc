//! The names that stand.

ghost use Rattle.std.specs.Prelude.{◌≡◌, ℕ, List, [], None, IfOk, OnOk, OnErr, not};
ghost use Rattle.std.specs.Str.{bytes_eq};
ghost use Rattle.std.specs.List.{filter_map, starts_with};
ghost use Rattle.name_context.specs.Names.{kept_at};
ghost use Rattle.name_context.specs.History.{with_name, without};
ghost use Rattle.name_context.specs.Keys.{path_key};
ghost use Rattle.name_context.specs.Listed.{part_below};
ghost use Rattle.name_context.specs.TreeView.{kept_of, kept_found};

use crate::entry::Stored;
use crate::keys::key_of;
use crate::parts::{begins_with, below};
use indexmap::IndexMap;
use std::alloc::{AllocError, Global};
use std::marker::Model;
use value_types::{Path, Text};

/// What stands at a path.
#[derive(Debug, Drop)]
pub(crate) enum Binding {
    /// A context.
    Context,
    /// An object.
    Object {
        /// Its bytes and doors.
        stored: Stored,
    },
}

/// A path, and what stands there.
#[derive(Debug, Drop)]
pub(crate) struct Bound {
    /// The path.
    pub path: Path,
    /// What stands there.
    pub binding: Binding,
}

/// The names that stand, in the order in which they were made. They are looked up by the keys of their paths. What `Names` began
/// with is known as such a value.
#[derive(Drop)]
pub struct NameTree {
    map: IndexMap<Vec<u8>, Bound>,
}

impl Model for NameTree {
    ghost use Rattle.std.specs.Prelude.{List};
    ghost use Rattle.name_context.specs.Names.{Name};

    ghost Value = { List Name };

    ghost use Rattle.name_context.specs.TreeView.{names_of, AreKeyed};

    ghost view = { λ t. names_of t.map.entries };

    ghost invariant = { λ t. AreKeyed t.map.entries };
}

impl NameTree {
    /// No names. It takes no memory.
    pub(crate) fn new(alloc: Global) -> NameTree
        ensures { result ≡ [] }
    {
        NameTree {
            map: IndexMap::new(alloc),
        }
    }

    /// What stands at the path that has a key.
    pub(crate) fn at(&self, key: &[u8]) -> Option<&Binding>
        ensures { (path : List (List ℕ)) → key.now ≡ path_key path → kept_found result ≡ kept_at self.now path }
    {
        match self.map.get(key) {
            Some(bound) => Some(&bound.binding),
            None => None,
        }
    }

    /// Puts one more name behind the others. An error is want of memory, and leaves them as they were.
    pub(crate) fn put(
        &mut self,
        alloc: Global,
        path: Path,
        binding: Binding,
    ) -> Result<(), AllocError>
        requires { kept_at self.old path ≡ None }
        ensures ok { OnOk result (self.new ≡ with_name self.old path (kept_of binding)) }
        ensures err { OnErr result (self.new ≡ self.old) }
    {
        let key = key_of(alloc, path.as_slice())?;
        self.map.insert(key, Bound { path, binding })?;
        Ok(())
    }

    /// Takes out a name and all names below it.
    pub(crate) fn remove(&mut self, path: &[Text])
        ensures { self.new ≡ without self.old path.now }
    {
        self.map.retain(
            |_key: &Vec<u8>, bound: &mut Bound| -> bool
                ensures { (result ≡ not (starts_with bytes_eq bound.old.path path.entry.now)) × (bound.new ≡ bound.old) }
            { !begins_with(bound.path.as_slice(), path) },
        );
    }

    /// The last parts of the paths that begin with these parts and have just one more. An error is want of memory.
    pub(crate) fn list(&self, alloc: Global, above: &[Text]) -> Result<Vec<Text>, AllocError>
        ensures { IfOk result (λ texts. texts.items ≡ filter_map (λ name. part_below above.now name.path) self.now) }
    {
        let mut texts = Vec::new(alloc);
        for bound in self.map.values().as_slice() {
            if let Some(part) = below(bound.path.as_slice(), above) {
                texts.push(Text::of(alloc, part.as_str())?)?;
            }
        }
        Ok(texts)
    }
}
