//! The limits on what a head and its endpoint take.

ghost use Rattle.std.specs.Prelude.{◌≡◌, false, codes, IfOk};
ghost use Rattle.rw_types.specs.declared.names.Names.TheVariants.{Legacy};

use rw_types::{Bounded, Names, RequestPath};
use std::alloc::{AllocError, Global};

/// The limits on what a head and its HTTP endpoint take.
#[derive(Debug, Drop)]
pub struct Limits {
    /// The path of the endpoint. Requests for any other are refused.
    pub path: RequestPath,
    /// The most bytes of the body of a request.
    pub max_body_bytes: Bounded<1, 67_108_864>,
    /// Which label names are accepted.
    pub names: Names,
    /// The most labels that a label set may have.
    pub max_labels: Bounded<1, 64>,
    /// The most bytes that the names and values of a label set may have together.
    pub max_label_bytes: Bounded<1, 16_384>,
    /// How many requests are answered with 429 before the first one is judged.
    pub busy_first: Bounded<0, 1_000_000>,
    /// Whether bodies with `Content-Encoding: snappy` are taken, too.
    pub snappy: bool,
}

impl Limits {
    /// Returns the default limits: path `/api/v1/write`, bodies of at most 16 MiB, legacy names, 64
    /// labels and 16,384 bytes for a label set, never busy, and no body in Snappy's coding.
    pub fn standard(alloc: Global) -> Result<Limits, AllocError>
        ensures { IfOk result (λ l. l ≡ record {
          path = codes "/api/v1/write";
          max_body_bytes = 16777216;
          names = Legacy;
          max_labels = 64;
          max_label_bytes = 16384;
          busy_first = 0;
          snappy = false;
        }) }
    {
        Ok(Limits {
            path: RequestPath::api_v1_write(alloc)?,
            max_body_bytes: Bounded::new(16_777_216),
            names: Names::Legacy,
            max_labels: Bounded::new(64),
            max_label_bytes: Bounded::new(16_384),
            busy_first: Bounded::new(0),
            snappy: false,
        })
    }
}
