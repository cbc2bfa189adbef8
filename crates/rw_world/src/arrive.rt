//! The arrival of a request.

ghost use Rattle.std.specs.Prelude.{◌≡◌, ◌<◌, length, slice_get, OnOk, OnErr};
ghost use Rattle.std.specs.Option.{option_map};
ghost use Rattle.rw_machine.specs.Worlds.{Request};
ghost use Rattle.rw_machine.specs.Steps.{arrive, turned_away};
ghost use Rattle.rw_machine.specs.declared.event.How.TheVariants.{Plain};
ghost use Rattle.rw_world.specs.Arriving.{AnswersBytes};

use crate::engine::Engine;
use crate::receiver::answer_to;
use crate::sent::BatchReply;
use http::StatusCode;
use rw_machine::How;
use rw_roundtrip::requests_are_read;
use std::alloc::AllocError;

impl Engine {
    /// Law: what arrives is answered as the endpoint answers its bytes.
    pub(crate) fn answers_bytes(&self)
        ensures { AnswersBytes self.now.setup self.now.world }
    {
        self.host.conforms();
        self.limits.path.conforms();
        requests_are_read();
    }

    /// Returns the bytes of the request with this number, if there is one.
    pub(crate) fn request(&self, k: usize) -> Option<&[u8]>
        ensures { option_map (λ b. b.now) result
            ≡ option_map (λ (r : Request). r.bytes) (slice_get self.now.world.requests k) }
    {
        match self.requests.get(k) {
            Some(sent) => Some(sent.request()),
            None => None,
        }
    }

    /// Lets the receiver judge this request.
    fn judge(&mut self, k: usize) -> Result<(), AllocError>
        requires { k < length self.old.world.requests }
        ensures ok { OnOk result (self.new
            ≡ record self.old {
              world = arrive self.old.setup self.old.world Plain
                  (slice_get self.old.world.requests k);
            }) }
        ensures err { OnErr result (self.new ≡ self.old) }
    {
        self.replies.reserve(1)?;
        let sent = &self.requests[k];
        let id = sent.id();
        let status = answer_to(self.alloc, sent, &self.host, &mut self.head, &self.limits)?;
        self.replies.push_reserved(BatchReply::new(id, status));
        Ok(())
    }

    /// Lets the receiver answer this request with a status, without a look at its head.
    fn turn_away(&mut self, k: usize, status: StatusCode) -> Result<(), AllocError>
        requires { k < length self.old.world.requests }
        ensures ok { OnOk result (self.new
            ≡ record self.old {
              world = turned_away self.old.world status
                  (slice_get self.old.world.requests k);
            }) }
        ensures err { OnErr result (self.new ≡ self.old) }
    {
        self.replies.reserve(1)?;
        let id = self.requests[k].id();
        self.replies.push_reserved(BatchReply::new(id, status));
        Ok(())
    }

    /// Lets the request with this number arrive, if there is one.
    pub(crate) fn arrive(&mut self, k: u64, how: How) -> Result<(), AllocError>
        ensures ok { OnOk result (self.new
            ≡ record self.old {
              world = arrive self.old.setup self.old.world how
                  (slice_get self.old.world.requests k);
            }) }
        ensures err { OnErr result (self.new ≡ self.old) }
    {
        let k = k as usize;
        if k >= self.requests.len() {
            return Ok(());
        }
        match how {
            How::Plain => self.judge(k),
            How::Busy => self.turn_away(k, StatusCode::TOO_MANY_REQUESTS),
            How::OutOfMemory => self.turn_away(k, StatusCode::SERVICE_UNAVAILABLE),
        }
    }
}
