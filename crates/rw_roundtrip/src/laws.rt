//! Laws of requests and replies. Each function has an empty body: its contract is the law.

ghost use Rattle.std.specs.Prelude.{◌≡◌, ◌<◌, ◌≤◌, ◌^◌, ◌||◌, ℕ, List, length, true, false, Ok, IsTrue};
ghost use Rattle.rw_types.specs.Requests.{is_host_name, is_request_path};
ghost use Rattle.rw_snappy.specs.Snappy.{decoded};
ghost use Rattle.rw_shard_core.specs.SentRequest.{request_of, snappy_request_of};
ghost use Rattle.rw_shard_core.specs.Replies.{ReadsReply};
ghost use Rattle.rw_shard_core.specs.declared.replies.ReplyRead.{ReplyRead};
ghost use Rattle.rw_shard_core.specs.declared.replies.ReplyRead.TheVariants.{Status};
ghost use Rattle.rw_endpoint.specs.Alone.{IsOneRequest, IsOneRefusal};
ghost use Rattle.rw_endpoint.specs.Judgement.{is_refusal};
ghost use Rattle.rw_endpoint.specs.Replies.{reply_bytes, is_verdict};
ghost use Rattle.rw_endpoint.specs.declared.intake.Intake.{Intake};
ghost use Rattle.rw_roundtrip.specs.Exchanges.{IsRequest, IsOneBodyRefused};

use rw_snappy::laws::limit_only_refuses;

/// Law: the endpoint reads a request as the sender makes it, as one request with the body that it
/// carries; if that is over the limit, it answers 413. So it does whether it takes Snappy blocks or
/// not.
pub fn requests_are_read()
    ensures read { (host path body : List ℕ) (intake : Intake) → is_host_name host ≡ true
        → is_request_path path ≡ true
        → length body < 2 ^ 63 → length body ≤ intake.limit
        → IsOneRequest path intake (request_of host path body) body }
    ensures refused { (host path body : List ℕ) (intake : Intake) → is_host_name host ≡ true
        → is_request_path path ≡ true
        → length body < 2 ^ 63 → intake.limit < length body
        → IsOneRefusal path intake (request_of host path body) 413 }
    ensures either { (host path body : List ℕ) (intake : Intake) → is_host_name host ≡ true
        → is_request_path path ≡ true
        → length body < 2 ^ 63 → IsRequest path intake (request_of host path body) }
{}

/// Law: the endpoint reads a request whose body is sent as a Snappy block, as one request with the
/// body that the block decodes to, if it takes such blocks (`read`). If the block or what it
/// decodes to is over the limit, it answers 413 (`refused`, `long`); if it takes no blocks, 415
/// (`untaken`).
pub fn snappy_requests_are_read()
    ensures read { (host path block body : List ℕ) (intake : Intake) → is_host_name host ≡ true
        → is_request_path path ≡ true → length block < 2 ^ 63
        → intake.snappy ≡ true → length block ≤ intake.limit
        → decoded block ≡ Ok body → length body ≤ intake.limit
        → IsOneRequest path intake (snappy_request_of host path block) body }
    ensures refused { (host path block : List ℕ) (intake : Intake) → is_host_name host ≡ true
        → is_request_path path ≡ true → length block < 2 ^ 63 → intake.limit < length block
        → IsOneRefusal path intake (snappy_request_of host path block) 413 }
    ensures long { (host path block body : List ℕ) (intake : Intake) → is_host_name host ≡ true
        → is_request_path path ≡ true → length block < 2 ^ 63
        → intake.snappy ≡ true → length block ≤ intake.limit
        → decoded block ≡ Ok body → intake.limit < length body
        → IsOneBodyRefused path intake (snappy_request_of host path block) 413 }
    ensures untaken { (host path block : List ℕ) (intake : Intake) → is_host_name host ≡ true
        → is_request_path path ≡ true → length block < 2 ^ 63
        → intake.snappy ≡ false → length block ≤ intake.limit
        → IsOneRefusal path intake (snappy_request_of host path block) 415 }
{
    limit_only_refuses();
}

/// Law: the sender reads each reply of the endpoint that closes as its status.
pub fn replies_are_read()
    ensures { (status : ℕ) (read : ReplyRead) → IsTrue (is_verdict status || is_refusal status)
        → ReadsReply 8192 (reply_bytes status true) read → read ≡ Status status }
{}
