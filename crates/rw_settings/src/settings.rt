//! The settings of the program.

use rw_head::Limits;
use rw_shard_core::Config;

/// The settings of the program, as a text sets them or by default.
#[derive(Debug, Drop)]
pub struct Settings {
    /// How the program sends: the table `send`, and the tables `rule`.
    pub config: Config,
    /// What the program receives: the table `receive`.
    pub limits: Limits,
    /// Whether records of a log that is read may be Snappy blocks: the table `log`.
    pub may_compress: bool,
}
