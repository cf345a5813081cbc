//! The five calls, each in one hold.

ghost use Rattle.std.specs.Prelude.{◌≡◌, ◌<◌, ◌≤◌, IfErr, IfOk, None, Some};
ghost use Rattle.std.specs.Option.{option_copied};
ghost use Rattle.hist_lock.specs.Known.{IsFree};
ghost use Rattle.name_context.specs.declared.entry.NameCall.TheVariants as names_calls;
ghost use Rattle.name_context.specs.Calls.{refused_by, refused_with};
ghost use Rattle.name_context.specs.History.{IsPathOf, IsStory};
ghost use Rattle.name_context.specs.Listed.{listed};
ghost use Rattle.name_context.specs.Names.{HasParts};
ghost use Rattle.spr_volume.specs.NamesCalls.{Called, TellsNothing, TellsObject};
ghost use Rattle.spr_volume.specs.NamesShared.{IsSame};

use hist_lock::{HistLock, Seat};
use name_context::{NameErr, Names, Stored};
use std::sync::Wait;
use value_types::{Path, Text};

/// Makes a context under a path of one to eight parts, for a caller. An error is the refusal that the names give, or want of memory.
pub fn context<R: Wait>(
    rt: &R,
    lock: &HistLock<Names>,
    seat: &mut Seat<Names>,
    caller: u32,
    path: &Path,
) -> Result<(), NameErr>
    requires seat { IsFree lock.now seat.old }
    requires caller { (seat.old.first ≤ caller) × (caller < seat.old.end) }
    requires path { HasParts path.now }
    ensures seat { IsSame seat.old seat.new }
    ensures called { Called lock.now.part seat.old.first seat.old.end caller names_calls.Context (Some path.now) None TellsNothing seat.old.seen seat.new.seen (refused_by result) }
    ensures story { IsStory lock.now.part seat.new.seen }
{
    let mut names = lock.take(rt, seat);
    let result = names.context(caller, path);
    names.sound();
    lock.give(seat, names);
    result
}

/// Stores an object under a path of one to eight parts, for a caller. An error is the refusal that the names give, or want of memory,
/// with the object.
pub fn bind<R: Wait>(
    rt: &R,
    lock: &HistLock<Names>,
    seat: &mut Seat<Names>,
    caller: u32,
    path: &Path,
    object: Stored,
) -> Result<(), (NameErr, Stored)>
    requires seat { IsFree lock.now seat.old }
    requires caller { (seat.old.first ≤ caller) × (caller < seat.old.end) }
    requires path { HasParts path.now }
    ensures seat { IsSame seat.old seat.new }
    ensures called { Called lock.now.part seat.old.first seat.old.end caller names_calls.Bind (Some path.now) (Some object) TellsNothing seat.old.seen seat.new.seen (refused_with result) }
    ensures story { IsStory lock.now.part seat.new.seen }
    ensures back { IfErr result (λ back. back.1 ≡ object) }
{
    let mut names = lock.take(rt, seat);
    let result = names.bind(caller, path, object);
    names.sound();
    lock.give(seat, names);
    result
}

/// Gives a copy of the object that stands under a path of one to eight parts, for a caller. An error is the refusal that the names
/// give, or want of memory.
pub fn resolve<R: Wait>(
    rt: &R,
    lock: &HistLock<Names>,
    seat: &mut Seat<Names>,
    caller: u32,
    path: &Path,
) -> Result<Stored, NameErr>
    requires seat { IsFree lock.now seat.old }
    requires caller { (seat.old.first ≤ caller) × (caller < seat.old.end) }
    requires path { HasParts path.now }
    ensures seat { IsSame seat.old seat.new }
    ensures called { Called lock.now.part seat.old.first seat.old.end caller names_calls.Resolve (Some path.now) None (TellsObject path.now result) seat.old.seen seat.new.seen (refused_by result) }
    ensures story { IsStory lock.now.part seat.new.seen }
{
    let mut names = lock.take(rt, seat);
    let result = names.resolve(caller, path);
    names.sound();
    lock.give(seat, names);
    result
}

/// Takes out what stands under a path of one to eight parts, and all below it, for a caller. An error is the refusal that the names
/// give, or want of memory.
pub fn unbind<R: Wait>(
    rt: &R,
    lock: &HistLock<Names>,
    seat: &mut Seat<Names>,
    caller: u32,
    path: &Path,
) -> Result<(), NameErr>
    requires seat { IsFree lock.now seat.old }
    requires caller { (seat.old.first ≤ caller) × (caller < seat.old.end) }
    requires path { HasParts path.now }
    ensures seat { IsSame seat.old seat.new }
    ensures called { Called lock.now.part seat.old.first seat.old.end caller names_calls.Unbind (Some path.now) None TellsNothing seat.old.seen seat.new.seen (refused_by result) }
    ensures story { IsStory lock.now.part seat.new.seen }
{
    let mut names = lock.take(rt, seat);
    let result = names.unbind(caller, path);
    names.sound();
    lock.give(seat, names);
    result
}

/// Lists what stands in the context of a path of one to eight parts, or in the root, in the order in which it was made, for a
/// caller. An error is the refusal that the names give, or want of memory.
pub fn list<R: Wait>(
    rt: &R,
    lock: &HistLock<Names>,
    seat: &mut Seat<Names>,
    caller: u32,
    path: Option<&Path>,
) -> Result<Vec<Text>, NameErr>
    requires seat { IsFree lock.now seat.old }
    requires caller { (seat.old.first ≤ caller) × (caller < seat.old.end) }
    requires path { IsPathOf names_calls.List (option_copied path) }
    ensures seat { IsSame seat.old seat.new }
    ensures called { Called lock.now.part seat.old.first seat.old.end caller names_calls.List (option_copied path.entry) None (λ names. IfOk result (λ parts. parts.items ≡ listed names (option_copied path.entry))) seat.old.seen seat.new.seen (refused_by result) }
    ensures story { IsStory lock.now.part seat.new.seen }
{
    let mut names = lock.take(rt, seat);
    let result = names.list(caller, path);
    names.sound();
    lock.give(seat, names);
    result
}
