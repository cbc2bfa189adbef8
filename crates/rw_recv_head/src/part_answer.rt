//! The answer to a request of which was taken what can be taken.

ghost use Rattle.std.specs.Prelude.{◌≡◌, ◌==◌, if◌then◌else◌};
ghost use Rattle.rw_head.specs.Capacity.{status_of_admission};

use rw_head::Admission;

/// The answer to a request of which was taken what can be taken.
#[derive(Debug, Drop)]
pub(crate) struct PartAnswer {
    /// 204, 400, 429 or 503.
    pub(crate) status: u16,
    /// Whether the head was full.
    pub(crate) is_full: bool,
    /// The body that was taken in place of the one that was refused.
    pub(crate) taken: Option<Vec<u8>>,
}

impl PartAnswer {
    /// Returns the answer with this status, if nothing was taken.
    pub(crate) fn of(status: u16) -> PartAnswer
        ensures { result.status ≡ status }
    {
        PartAnswer {
            status,
            is_full: false,
            taken: None,
        }
    }

    /// Returns the answer to a body that was asked for as a whole.
    pub(crate) fn whole(admission: Admission) -> PartAnswer
        ensures { result.status ≡ status_of_admission admission }
    {
        PartAnswer {
            status: admission.status(),
            is_full: admission.is_full(),
            taken: None,
        }
    }

    /// Returns the answer to a body that was refused as a whole, if this body was asked for in its
    /// place: 400, if it was taken, and otherwise 503.
    pub(crate) fn to(admission: Admission, text: Vec<u8>) -> PartAnswer
        ensures { result.status ≡ (if status_of_admission admission == 204 then 400 else 503) }
    {
        if admission.status() == 204 {
            PartAnswer {
                status: 400,
                is_full: false,
                taken: Some(text),
            }
        } else {
            PartAnswer {
                status: 503,
                is_full: admission.is_full(),
                taken: None,
            }
        }
    }
}
