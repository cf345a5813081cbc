//! A look at the ground beside the layers.

ghost use Rattle.std.specs.Prelude.{◌≡◌, ◌<◌, IfErr, OnOk, length};
ghost use Rattle.stack_engine.specs.Beside.{ReadsGround};
ghost use Rattle.stack_engine.specs.Engine.{file_in};
ghost use Rattle.stack_engine.specs.Moves.{IsRefused};

use crate::engine::Engine;
use crate::messages::noted;
use crate::refusal::StepErr;
use page_ground::Ground;

impl<G: Ground> Engine<G> {
    /// Reads a page from the ground for a caller; the layers are not asked, and nothing is entered. A store's failure is noted.
    pub(crate) fn read_ground(
        &mut self,
        caller: u32,
        page: u32,
        out: &mut [u8],
    ) -> Result<(), StepErr>
        requires page { page < (file_in self.old).pages }
        requires size { length out.old ≡ (file_in self.old).page_size }
        ensures reads { OnOk result (ReadsGround page out.new self.old self.new) }
        ensures refused { IfErr result (IsRefused caller self.old self.new) }
    {
        self.make_room()?;
        match self.ground.read(page, out) {
            Ok(()) => Ok(()),
            Err(fault) => Err(noted(&mut self.book.trail, caller, fault)),
        }
    }
}
