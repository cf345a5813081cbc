//! A replicon object, and the calls on it.

ghost use Rattle.std.specs.Prelude.{◌≡◌, ◌≤◌, ◌<◌, ◌+◌, ◌^◌, Some, Ok, IfOk, IfErr, OnOk, OnErr, MatchResult, length};
ghost use Rattle.marshal_buf.specs.Held.{IsAsBefore};
ghost use Rattle.marshal_buf.specs.Reading.{number_at};
ghost use Rattle.sub_replicon.specs.Replicas.{AreReplicas, IsReplicon, first_life, with_life};
ghost use Rattle.sub_replicon.specs.Domains.{HoldsTheSame, StopsAt};
ghost use Rattle.sub_replicon.specs.Routes.{LacksFirst, first_route};
ghost use Rattle.sub_replicon.specs.Forms.{replicon_len};
ghost use Rattle.sub_replicon.specs.Doors.{replicas_behind};
ghost use Rattle.sub_replicon.specs.Calls.{Begins, Marshals, RefusesHeld, Unmarshals, Refuses, CopiesInto, CopiesReplicon, GivesUp, DropsUnlessLast};

use crate::held::{Ids, hold_all, look_all, take_out_all};
use crate::lives::{Lives, new_lives, same_lives};
use crate::sent::{get_doors, send};
use crate::{MAX_DOORS, REPLICON};
use domain_doors::{Domain, NoDoor};
use marshal_buf::{Buf, Door, Reader};
use std::alloc::AllocError;
use std::marker::Model;
use sub_core::{ObjectErr, Route};

/// An object with one to eight doors, which a domain holds, in order, and a life of each door's view. No message has the lives.
#[derive(Debug, Drop)]
pub struct Replicon {
    doors: Ids,
    lives: Lives,
}

impl Model for Replicon {
    ghost use Rattle.sub_replicon.specs.Replicas.{Replicas, IsReplicon};

    ghost Value = { Replicas };

    ghost view = { λ r. record { doors = r.doors.items; lives = r.lives.items } };

    ghost invariant = { λ r. IsReplicon (record { doors = r.doors.items; lives = r.lives.items }) };
}

impl Replicon {
    /// An object of these doors, each of which comes into the domain, and of the life 0 at each. An error is that memory ran out,
    /// and leaves the domain as it was.
    pub fn new(doors: &[Door], domain: &mut Domain) -> Result<Replicon, AllocError>
        requires { AreReplicas doors.now }
        ensures ok { IfOk result (Begins doors.now domain.old domain.new) }
        ensures err { OnErr result (HoldsTheSame domain.old domain.new) }
    {
        let doors = hold_all(doors, domain)?;
        let lives = new_lives(doors.as_slice());
        Ok(Replicon { doors, lives })
    }

    /// Sends the object: its bytes and its doors are put, in order, and its doors leave the domain. It fails if the domain lacks a
    /// door, of which it names the first, or if memory runs out. Then the object is handed back, and the domain and the buffer are
    /// as they were.
    pub fn marshal(self, domain: &mut Domain, buf: &mut Buf) -> Result<(), (ObjectErr, Replicon)>
        requires bytes { length buf.old.bytes + replicon_len (length self.doors) < 2 ^ 32 }
        requires doors { length buf.old.doors + length self.doors < 2 ^ 32 }
        ensures ok { OnOk result (Marshals self.doors domain.old domain.new buf.old buf.new) }
        ensures why { IfErr result (λ e. RefusesHeld domain.old self.doors e.0) }
        ensures handed_back { IfErr result (λ e. e.1 ≡ self) }
        ensures domain_kept { OnErr result (domain.new ≡ domain.old) }
        ensures buf_kept { OnErr result (IsAsBefore buf.old buf.new) }
    {
        match send(self.doors.as_slice(), domain, buf) {
            Ok(()) => Ok(()),
            Err(why) => Err((why, self)),
        }
    }

    /// Receives an object, whose identifier comes next: its doors come into the domain, with the life 0 at each. It fails if the
    /// bytes are no object, at the first part that cannot stand, or if memory runs out, and then leaves the domain and the reader
    /// as they were.
    pub fn unmarshal(domain: &mut Domain, from: &mut Reader<'_>) -> Result<Replicon, ObjectErr>
        requires { number_at 2 from.old ≡ Ok REPLICON }
        ensures ok { IfOk result (Unmarshals domain.old domain.new from.old from.new) }
        ensures why { IfErr result (Refuses (replicas_behind from.old)) }
        ensures domain_kept { OnErr result (HoldsTheSame domain.old domain.new) }
        ensures from_kept { OnErr result (from.new ≡ from.old) }
    {
        let mut ahead = from.copy();
        let _id = ahead.get_u16()?;
        let doors = get_doors(&mut ahead)?;
        let replicon = Replicon::new(doors.as_slice(), domain)?;
        *from = ahead;
        Ok(replicon)
    }

    /// Another object like this one, with identifiers of its own for the same doors. It fails if the domain lacks a door, of which
    /// it names the first, or if memory runs out, and then leaves the domain as it was.
    #[tactic(auto, using(crate::proofs::DomainLaws::still_holds))]
    pub fn copy(&self, domain: &mut Domain) -> Result<Replicon, ObjectErr>
        ensures ok { IfOk result (λ copy. CopiesReplicon self.now copy domain.old domain.new) }
        ensures why { IfErr result (RefusesHeld domain.old self.now.doors) }
        ensures err { OnErr result (HoldsTheSame domain.old domain.new) }
    {
        let doors = look_all(self.doors.as_slice(), domain)?;
        let lives = same_lives(self.lives.as_slice());
        let doors = hold_all(doors.as_slice(), domain)?;
        Ok(Replicon { doors, lives })
    }

    /// Another object like this one, in another domain: it has the same doors there, under identifiers of that domain. It fails if the
    /// object's own domain lacks a door, of which it names the first, or if memory runs out, and then leaves the other as it was.
    pub fn copy_into(&self, from: &Domain, to: &mut Domain) -> Result<Replicon, ObjectErr>
        ensures ok { IfOk result (λ copy. CopiesInto self.now copy from.now to.old to.new) }
        ensures why { IfErr result (RefusesHeld from.now self.now.doors) }
        ensures err { OnErr result (HoldsTheSame to.old to.new) }
    {
        let doors = look_all(self.doors.as_slice(), from)?;
        let lives = same_lives(self.lives.as_slice());
        let doors = hold_all(doors.as_slice(), to)?;
        Ok(Replicon { doors, lives })
    }

    /// Gives the object up: its doors leave the domain, in order. It takes no memory. An error names the first door that the domain
    /// lacks: those before it have left the domain, and those after it stay.
    pub fn consume(self, domain: &mut Domain) -> Result<(), NoDoor>
        ensures ok { OnOk result (GivesUp self.doors domain.old domain.new) }
        ensures why { IfErr result (StopsAt self.doors domain.old domain.new) }
    {
        take_out_all(self.doors.as_slice(), domain)
    }

    /// Where a call on the object goes: to where its first door leads. It takes no memory. An error is that the domain lacks that
    /// door.
    pub fn current(&self, domain: &Domain) -> Result<Route, NoDoor>
        ensures { MatchResult result (λ route. first_route domain.now self.now.doors ≡ Some route) (LacksFirst domain.now self.now.doors) }
    {
        let door = domain.look(self.doors[0])?;
        Ok(Route {
            node: door.node,
            file: door.file,
        })
    }

    /// How many doors it has, from 1 to 8. It takes no memory.
    pub fn doors_len(&self) -> u32
        ensures value { result ≡ length self.now.doors }
        ensures is { IsReplicon self.now }
    {
        self.doors.len() as u32
    }

    /// The life that is kept for its first door. It takes no memory.
    pub fn life(&self) -> u32
        ensures { result ≡ first_life self.now.lives }
    {
        self.lives[0]
    }

    /// Keeps a life for the door k, counted from 0. It takes no memory.
    pub fn keep_life(&mut self, k: u32, life: u32)
        requires { k < length self.old.doors }
        ensures { self.new ≡ with_life k life self.old }
    {
        self.lives[k as usize] = life;
    }

    /// Drops the first door, which leaves the domain, and answers true; if one door is left, it answers false, and nothing changes.
    /// It takes no memory. An error is that the domain lacks the door that is to be dropped, and leaves the object and the domain as
    /// they were.
    pub fn drop_current(&mut self, domain: &mut Domain) -> Result<bool, NoDoor>
        ensures ok { IfOk result (DropsUnlessLast self.old self.new domain.old domain.new) }
        ensures more { OnErr result (1 < length self.old.doors) }
        ensures why { IfErr result (LacksFirst domain.old self.old.doors) }
        ensures kept { OnErr result (self.new ≡ self.old) }
        ensures domain_kept { OnErr result (domain.new ≡ domain.old) }
    {
        if self.doors.len() == 1 {
            return Ok(false);
        }
        domain.take_out(self.doors[0])?;
        self.doors.remove(0);
        self.lives.remove(0);
        Ok(true)
    }
}
