//! A law of the machine and of the endpoint.

ghost use Rattle.std.specs.Prelude.{◌≡◌, List, true};
ghost use Rattle.rw_types.specs.Requests.{is_host_name, is_request_path};
ghost use Rattle.rw_machine.specs.Worlds.{Setup, start};
ghost use Rattle.rw_machine.specs.Steps.{run};
ghost use Rattle.rw_machine.specs.declared.event.Event.{Event};
ghost use Rattle.rw_world.specs.Arriving.{AnswersRead};

use rw_machine::requests_carry_their_batches;
use rw_roundtrip::requests_are_read;

/// Law: what any schedule has sent is answered as the endpoint answers its bytes, if a receiver
/// reads its body as the message of its batch.
pub fn requests_are_answered_as_bytes()
    ensures { (c : Setup) (events : List Event) → is_host_name c.target.host ≡ true
        → is_request_path c.target.path ≡ true
        → AnswersRead c (run c events (start c)) }
{
    requests_are_read();
    requests_carry_their_batches();
}
