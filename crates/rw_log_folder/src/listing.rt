//! The listing of a folder, and the files of it that are read.

/// The number in the name of a segment or of a checkpoint, and with how many digits it is written:
/// `00000010` is 10 with eight digits.
#[derive(Clone, Copy)]
pub struct NumberedName {
    pub number: u64,
    pub digits: usize,
}

/// A folder `checkpoint.` with a number, and the segments in it.
#[derive(Drop)]
pub struct Checkpoint {
    pub name: NumberedName,
    pub segments: Vec<NumberedName>,
}

/// The segments and the checkpoints of a folder, each in any order.
#[derive(Drop)]
pub struct Listing {
    pub segments: Vec<NumberedName>,
    pub checkpoints: Vec<Checkpoint>,
}

/// A file that is read: a segment of a checkpoint, or of the folder itself.
#[derive(Clone, Copy)]
pub struct LogFile {
    /// `None` for a segment of the folder itself.
    pub checkpoint: Option<NumberedName>,
    pub segment: NumberedName,
}
