//! Laws of the replies. Each function has an empty body: its contract is the law.

ghost use Rattle.std.specs.Prelude.{◌≤◌, ◌||◌, ℕ, Bool, IsTrue, length};
ghost use Rattle.rw_endpoint.specs.Determined.{IsFunction, AreDetermined};
ghost use Rattle.rw_endpoint.specs.Judgement.{is_refusal};
ghost use Rattle.rw_endpoint.specs.Replies.{reply_bytes, is_verdict};

use crate::answer::Answer;

/// Law: a reply takes at most 86 bytes.
pub fn replies_are_short()
    ensures { (status : ℕ) (closes : Bool) → IsTrue (is_verdict status || is_refusal status)
        → length (reply_bytes status closes) ≤ 86 }
{}

/// Law: if a body has one answer, an input that is served up to its end, or up to a reply that
/// closes, has one text of replies.
pub fn replies_are_determined<A: Answer>()
    ensures { IsFunction A.answers → AreDetermined A.answers }
{}
