/// The messages of Remote-Write 1.0, each with its own fields.
#[derive(Clone, Copy)]
pub enum Kind {
    WriteRequest,
    TimeSeries,
    Label,
    Sample,
}
