//! Calls on the names of a volume. Each is one hold of the names' lock.

ghost use Rattle.std.specs.Prelude.{◌≡◌, ◌<◌, ◌≤◌, IfErr, IfOk, None, Some};
ghost use Rattle.std.specs.Option.{option_copied};
ghost use Rattle.name_context.specs.declared.entry.NameCall.TheVariants as names_calls;
ghost use Rattle.name_context.specs.Calls.{refused_by, refused_with};
ghost use Rattle.name_context.specs.History.{IsPathOf, IsStory};
ghost use Rattle.name_context.specs.Listed.{listed};
ghost use Rattle.name_context.specs.Names.{HasParts};
ghost use Rattle.spr_volume.specs.Calls.{CalledNames, TellsNothing, TellsObject};
ghost use Rattle.spr_volume.specs.Passes.{IsOf};

use crate::mounted::{Pass, Volume};
use crate::names_calls::{bind, context, list, resolve, unbind};
use name_context::{NameErr, Stored};
use page_ground::Ground;
use std::sync::Wait;
use value_types::{Path, Text};

impl<G: Ground> Volume<G> {
    /// Makes a context under a path of one to eight parts, for a caller. An error is the refusal that the names give in the call's hold, or
    /// want of memory.
    pub fn context<R: Wait>(
        &self,
        rt: &R,
        pass: &mut Pass<G>,
        caller: u32,
        path: &Path,
    ) -> Result<(), NameErr>
        requires pass { IsOf self.now pass.old }
        requires caller { (pass.old.first ≤ caller) × (caller < pass.old.end) }
        requires path { HasParts path.now }
        ensures called { CalledNames self.now caller names_calls.Context (Some path.now) None TellsNothing pass.old pass.new (refused_by result) }
        ensures story { IsStory self.now.names.began pass.new.history }
    {
        context(rt, &self.names, &mut pass.names, caller, path)
    }

    /// Stores an object under a path of one to eight parts, for a caller. An error is the refusal that the names give in the call's hold, or
    /// want of memory, with the object.
    pub fn bind<R: Wait>(
        &self,
        rt: &R,
        pass: &mut Pass<G>,
        caller: u32,
        path: &Path,
        object: Stored,
    ) -> Result<(), (NameErr, Stored)>
        requires pass { IsOf self.now pass.old }
        requires caller { (pass.old.first ≤ caller) × (caller < pass.old.end) }
        requires path { HasParts path.now }
        ensures called { CalledNames self.now caller names_calls.Bind (Some path.now) (Some object) TellsNothing pass.old pass.new (refused_with result) }
        ensures story { IsStory self.now.names.began pass.new.history }
        ensures back { IfErr result (λ back. back.1 ≡ object) }
    {
        bind(rt, &self.names, &mut pass.names, caller, path, object)
    }

    /// Gives a copy of the object that stands under a path of one to eight parts, for a caller. An error is the refusal that the names give
    /// in the call's hold, or want of memory.
    pub fn resolve<R: Wait>(
        &self,
        rt: &R,
        pass: &mut Pass<G>,
        caller: u32,
        path: &Path,
    ) -> Result<Stored, NameErr>
        requires pass { IsOf self.now pass.old }
        requires caller { (pass.old.first ≤ caller) × (caller < pass.old.end) }
        requires path { HasParts path.now }
        ensures called { CalledNames self.now caller names_calls.Resolve (Some path.now) None (TellsObject path.now result) pass.old pass.new (refused_by result) }
        ensures story { IsStory self.now.names.began pass.new.history }
    {
        resolve(rt, &self.names, &mut pass.names, caller, path)
    }

    /// Takes out what stands under a path of one to eight parts, and all below it, for a caller. An error is the refusal that the names give
    /// in the call's hold, or want of memory.
    pub fn unbind<R: Wait>(
        &self,
        rt: &R,
        pass: &mut Pass<G>,
        caller: u32,
        path: &Path,
    ) -> Result<(), NameErr>
        requires pass { IsOf self.now pass.old }
        requires caller { (pass.old.first ≤ caller) × (caller < pass.old.end) }
        requires path { HasParts path.now }
        ensures called { CalledNames self.now caller names_calls.Unbind (Some path.now) None TellsNothing pass.old pass.new (refused_by result) }
        ensures story { IsStory self.now.names.began pass.new.history }
    {
        unbind(rt, &self.names, &mut pass.names, caller, path)
    }

    /// Lists what stands in the context of a path of one to eight parts, or in the root, in the order in which it was made, for a caller. An
    /// error is the refusal that the names give in the call's hold, or want of memory.
    pub fn list<R: Wait>(
        &self,
        rt: &R,
        pass: &mut Pass<G>,
        caller: u32,
        path: Option<&Path>,
    ) -> Result<Vec<Text>, NameErr>
        requires pass { IsOf self.now pass.old }
        requires caller { (pass.old.first ≤ caller) × (caller < pass.old.end) }
        requires path { IsPathOf names_calls.List (option_copied path) }
        ensures called { CalledNames self.now caller names_calls.List (option_copied path.entry) None (λ names. IfOk result (λ parts. parts.items ≡ listed names (option_copied path.entry))) pass.old pass.new (refused_by result) }
        ensures story { IsStory self.now.names.began pass.new.history }
    {
        list(rt, &self.names, &mut pass.names, caller, path)
    }
}
