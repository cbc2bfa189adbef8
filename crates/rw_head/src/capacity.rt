//! How much a head may hold.

ghost use Rattle.std.specs.Prelude.{◌≡◌, ◌↔◌, IsTrue};
ghost use Rattle.rw_head.specs.declared.capacity.Admission.TheVariants.{Full};
ghost use Rattle.rw_head.specs.Capacity.{unlimited, status_of_admission};

/// The most that a head may hold. It limits what `Head::admit` adds, and not what a head holds
/// already.
#[derive(Clone, Copy, Debug, PartialEq, Eq)]
pub struct Capacity {
    /// The most samples of all series together.
    pub max_samples: u64,
    /// The most series, which are the label sets that have samples.
    pub max_series: u64,
}

impl Capacity {
    /// Returns the capacity of a head without limits, which is never full.
    pub fn unlimited() -> Capacity
        ensures { result ≡ unlimited }
    {
        Capacity {
            max_samples: u64::MAX,
            max_series: u64::MAX,
        }
    }
}

/// What a head with a capacity makes of a request.
#[derive(Clone, Copy, Debug, PartialEq, Eq)]
pub enum Admission {
    /// The status that the head answers without a capacity; 503 means that memory ran out.
    Answered(u16),
    /// The request would take the head above its capacity, and nothing is stored.
    Full,
}

impl Admission {
    /// Returns the HTTP status, which is 503 if the head is full.
    pub fn status(self) -> u16
        ensures { result ≡ status_of_admission self }
    {
        match self {
            Admission::Answered(status) => status,
            Admission::Full => 503,
        }
    }

    /// Returns whether the head is full.
    pub fn is_full(self) -> bool
        ensures { IsTrue result ↔ (self ≡ Full) }
    {
        match self {
            Admission::Answered(_) => false,
            Admission::Full => true,
        }
    }
}
