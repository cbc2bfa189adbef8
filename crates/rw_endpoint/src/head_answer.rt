//! The head of a receiver, which answers bodies.

use crate::answer::Answer;
use rw_head::Head;

impl Answer for Head {
    ghost use Rattle.rw_endpoint.specs.HeadAnswers.{HasAnswered};

    ghost answers = { HasAnswered };

    fn answer(&mut self, body: &[u8]) -> u16 {
        Head::answer(self, body)
    }
}
