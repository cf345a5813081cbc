//! Volumes and passes.

ghost use Rattle.std.specs.Prelude.{◌≡◌, ◌<◌, IfErr, IfOk, OnErr, OnOk};
ghost use Rattle.spr_volume.specs.Passes.{AllQuietly, AreBack, AreNamesBack, IsMounted, IsOf, as_known, logs, whole, with_range};

use crate::shared_files::{FilesPass, SharedFiles};
use hist_lock::{HistLock, Seat};
use name_context::Names;
use page_ground::Ground;
use stack_engine::Tower;
use std::alloc::{AllocError, Global};
use std::marker::Model;

/// The files of a stack, each with its tower under a lock of its own, and the stack's names under another, for callers numbered from
/// 0. It ends by `unmount`.
pub struct Volume<G: Ground> {
    pub(crate) files: SharedFiles<G>,
    pub(crate) names: HistLock<Names>,
}

impl<G: Ground> Model for Volume<G> {
    ghost use Rattle.spr_volume.specs.Passes.{IsLock, VolumeSeen, volume_of};

    ghost Value = { VolumeSeen };

    ghost view = { λ v. volume_of v.files v.names };

    ghost invariant = { λ v. IsLock v.files.end v.names };
}

/// What some callers know of a volume: a beginning of each file's log and of the names' history, after which there is no entry of
/// theirs. Each call of one of them needs it. It is no `Drop`: a volume ends with all its passes met.
pub struct Pass<G: Ground> {
    pub(crate) files: FilesPass<G>,
    pub(crate) names: Seat<Names>,
}

impl<G: Ground> Model for Pass<G> {
    ghost use Rattle.spr_volume.specs.Passes.{IsSeat, Knows, pass_of};

    ghost Value = { Knows };

    ghost view = { λ p. pass_of p.files p.names };

    ghost invariant = { λ p. IsSeat p.files.first p.files.end p.names };
}

impl<G: Ground> Volume<G> {
    /// A volume of these towers and names, for the callers from 0 up to `callers`, which is not among them, and the pass of all of
    /// them. For want of memory all are handed back.
    pub fn mount(
        alloc: Global,
        towers: Vec<Tower<G>>,
        names: Names,
        callers: u32,
    ) -> Result<(Volume<G>, Pass<G>), (Vec<Tower<G>>, Names)>
        requires { 0 < callers }
        ensures volume { IfOk result (λ r. IsMounted towers.items names callers r.0) }
        ensures pass { IfOk result (λ r. r.1 ≡ whole r.0) }
        ensures err { IfErr result (λ back. (back.0.items ≡ towers.items) × (back.1 ≡ names)) }
    {
        let (lock, seat) = match HistLock::new(alloc, names, 0, callers) {
            Ok(made) => made,
            Err(names) => return Err((towers, names)),
        };
        match SharedFiles::mount(alloc, towers, callers) {
            Ok((files, pass)) => Ok((
                Volume { files, names: lock },
                Pass {
                    files: pass,
                    names: seat,
                },
            )),
            Err(towers) => Err((towers, lock.close(seat))),
        }
    }

    /// Cuts the callers of a pass in two: the pass keeps those below `at`, and the new pass has the others. Both know what the pass
    /// knew. If memory runs out, the pass stays as it was.
    pub fn split(&self, alloc: Global, pass: &mut Pass<G>, at: u32) -> Result<Pass<G>, AllocError>
        requires pass { IsOf self.now pass.old }
        requires at { (pass.old.first < at) × (at < pass.old.end) }
        ensures low { OnOk result (pass.new ≡ with_range pass.old pass.old.first at) }
        ensures high { IfOk result (λ p. p ≡ with_range pass.old at pass.old.end) }
        ensures err { OnErr result (pass.new ≡ pass.old) }
    {
        let files = self.files.split(alloc, &mut pass.files, at)?;
        let names = self.names.split(&mut pass.names, at).unwrap();
        Ok(Pass { files, names })
    }

    /// Takes in the pass of the neighbouring callers above. The one pass has all their callers, and knows of each file the longer of the
    /// two beginnings of the log, and of the names the longer beginning of the history. In these each of the two goes on without an
    /// entry of its own callers.
    pub fn meet(&self, pass: &mut Pass<G>, other: Pass<G>)
        requires pass { IsOf self.now pass.old }
        requires other { IsOf self.now other }
        requires neighbours { pass.old.end ≡ other.first }
        ensures pass { pass.new ≡ record (as_known pass.old pass.new) { end = other.end } }
        ensures this { AllQuietly pass.old.first pass.old.end pass.old pass.new }
        ensures that { AllQuietly other.first other.end other pass.new }
    {
        let Pass { files, names } = other;
        self.files.meet(&mut pass.files, files);
        self.names.meet(&mut pass.names, names);
    }

    /// Ends the volume, with the pass of all its callers, and gives the towers in their order, and the names. Their logs and their
    /// history are just what the pass knows; each is the one that was handed in, later on; and what was added is by callers of the
    /// volume, or by none. It takes no memory.
    pub fn unmount(self, pass: Pass<G>) -> (Vec<Tower<G>>, Names)
        requires pass { IsOf self pass }
        requires all { (pass.first ≡ 0) × (pass.end ≡ self.end) }
        ensures back { AreBack self.end self.towers result.0.items }
        ensures logs { logs result.0.items ≡ pass.logs }
        ensures names { AreNamesBack self.end self.names result.1 }
        ensures history { result.1.history ≡ pass.history }
    {
        let Volume { files, names: lock } = self;
        let Pass {
            files: pass,
            names: seat,
        } = pass;
        (files.unmount(pass), lock.close(seat))
    }
}
