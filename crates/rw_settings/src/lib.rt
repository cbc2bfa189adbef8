//! The settings of the program, read from TOML and printed as TOML that reads back the same.
#![tactic(auto)]

mod explain;
mod fault;
mod keys;
mod log_table;
mod notes;
mod order_text;
mod print;
mod printed_values;
mod read;
mod receive_table;
mod rule_tables;
mod send_table;
mod sent_fields;
mod sent_labels;
mod settings;
mod table_faults;
mod values;

pub use explain::explain_settings;
pub use fault::SettingsFault;
pub use notes::SettingsNote;
pub use print::print_settings;
pub use read::{read_rules, read_settings};
pub use rule_tables::RuleFields;
pub use sent_fields::{SentFields, read_sent_fields};
pub use sent_labels::read_external_labels;
pub use settings::Settings;
