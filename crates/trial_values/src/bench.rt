//! A server of calls over a link.

use hist_plain::Answer;
use link_lossy::{Request, Serve, ServeErr, Served};
use std::sync::Wait;

/// A server that counts what it serves. The first byte of a frame says what it answers, and each byte that it reads out is how many
/// calls it has served then.
#[derive(Drop)]
pub struct Bench {
    served: u32,
}

impl Bench {
    /// A server that has served nothing.
    pub fn new() -> Self {
        Bench { served: 0 }
    }

    /// How many calls it has served.
    pub fn served(&self) -> u32 {
        self.served
    }
}

/// What a frame is answered for a life, by a server that has served so many calls now.
fn answered(frame: &[u8], life: u32, served: u32) -> Result<Answer, ServeErr> {
    match frame.first() {
        Some(0) => Ok(Answer::Bytes),
        Some(2) => Ok(Answer::Life { life }),
        Some(3) => Ok(Answer::Revoked {
            life: life.saturating_add(1),
        }),
        Some(4) => Err(ServeErr::StoreFault {
            disk: 9,
            count: u64::from(served),
        }),
        Some(5) => Err(ServeErr::TrailFull),
        Some(6) => Err(ServeErr::Memory),
        _ => Ok(Answer::Done),
    }
}

impl Serve for Bench {
    ghost may_serve = { λ bench request len. Unit {0} };

    ghost served = { λ bench request answer bytes after. Unit {0} };

    fn serve<R: Wait>(
        &mut self,
        _rt: &R,
        request: &Request<'_>,
        out: &mut [u8],
    ) -> Result<Served, ServeErr> {
        let place = u64::from(self.served);
        self.served = self.served.saturating_add(1);
        out.fill((self.served % 256) as u8);
        let answer = answered(request.packet.frame(), request.life, self.served)?;
        Ok(Served { answer, place })
    }
}
