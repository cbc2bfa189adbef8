//! Laws of requests to which fields were added. Each function has no body but the laws that it
//! rests on: its contract is the law.

ghost use Rattle.std.specs.Prelude.{◌≡◌, ◌<◌, ◌≤◌, ◌^◌, ℕ, List, length, true, Ok};
ghost use Rattle.rw_types.specs.Requests.{is_host_name, is_request_path};
ghost use Rattle.rw_fields.specs.Fields.{NameValue, AreExtra, with_fields};
ghost use Rattle.rw_snappy.specs.Snappy.{decoded};
ghost use Rattle.rw_shard_core.specs.SentRequest.{request_of, snappy_request_of};
ghost use Rattle.rw_endpoint.specs.Alone.{IsOneRequest, IsOneRefusal};
ghost use Rattle.rw_endpoint.specs.declared.intake.Intake.{Intake};

use rw_snappy::laws::limit_only_refuses;

/// Law: the endpoint reads a request to which fields were added as one request with the same body
/// as without them (`read`), and refuses it as without them if the body is over the limit
/// (`refused`).
pub fn requests_with_fields_are_read()
    ensures read { (host path body : List ℕ) (fields : List NameValue) (intake : Intake)
        → is_host_name host ≡ true → is_request_path path ≡ true → AreExtra fields
        → length body < 2 ^ 63 → length body ≤ intake.limit
        → IsOneRequest path intake (with_fields fields (request_of host path body)) body }
    ensures refused { (host path body : List ℕ) (fields : List NameValue) (intake : Intake)
        → is_host_name host ≡ true → is_request_path path ≡ true → AreExtra fields
        → length body < 2 ^ 63 → intake.limit < length body
        → IsOneRefusal path intake (with_fields fields (request_of host path body)) 413 }
{}

/// Law: the endpoint reads a request to which fields were added, and whose body is sent as a Snappy
/// block, as one request with the body that the block decodes to, if it takes such blocks.
pub fn snappy_requests_with_fields_are_read()
    ensures { (host path block body : List ℕ) (fields : List NameValue) (intake : Intake)
        → is_host_name host ≡ true → is_request_path path ≡ true → AreExtra fields
        → length block < 2 ^ 63 → intake.snappy ≡ true → length block ≤ intake.limit
        → decoded block ≡ Ok body → length body ≤ intake.limit
        → IsOneRequest path intake (with_fields fields (snappy_request_of host path block)) body }
{
    limit_only_refuses();
}
