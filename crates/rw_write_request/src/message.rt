//! Messages as the program holds them, which contracts see as plain data.

use rw_types::Word;
use std::marker::Model;

/// A series of a message (`TimeSeries`): its labels, and samples in order.
#[derive(Debug, Drop)]
pub struct Series {
    /// The labels as (name, value).
    pub labels: Vec<(String, String)>,
    /// The samples as (value, timestamp in milliseconds since the Unix epoch).
    pub samples: Vec<(Word, i64)>,
}

impl Model for Series {
    ghost use Rattle.rw_write_request.specs.Message.{TimeSeries};
    ghost use Rattle.rw_write_request.specs.Texts.{series_of_texts};

    ghost Value = { TimeSeries };

    ghost view = { λ s. series_of_texts s.labels.items s.samples.items };
}

/// A write request (`WriteRequest`): its series in order.
#[derive(Debug, Drop)]
pub struct Message {
    /// The series, in order.
    pub series: Vec<Series>,
}

impl Model for Message {
    ghost use Rattle.rw_write_request.specs.Message.{WriteRequest};

    ghost Value = { WriteRequest };

    ghost view = { λ m. m.series.items };
}
