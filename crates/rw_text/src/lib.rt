//! The text forms of what `rwship` reads and prints: numbers, values, labels, log lines with their
//! records, HOST:PORT and hexadecimal digits; and why a command ends, with its exit status.
#![tactic(auto)]

mod address;
mod bytes;
mod fault;
mod hex_digits;
mod hex_fault;
mod hex_input;
mod hex_laws;
mod hex_output;
mod labels;
mod laws;
mod line;
mod lines;
mod numbers;
mod print;
mod printed;
mod quotes;
mod records;
mod tool_fault;
mod values;

pub use address::{Address, address_is_one, read_address};
pub use bytes::split_at_byte;
pub use fault::TextFault;
pub use hex_fault::HexFault;
pub use hex_input::{read_digits, read_hex};
pub use hex_laws::hex_text_is_read;
pub use hex_output::hex_text;
pub use labels::read_labels;
pub use laws::{
    integer_is_read, labels_are_one, line_is_one, number_is_one, number_is_read, record_is_one,
    value_is_one, value_is_read,
};
pub use line::LogLine;
pub use lines::read_line;
pub use numbers::{push_integer, push_number, read_integer, read_number};
pub use print::push_labels;
pub use records::{first_line, read_record};
pub use tool_fault::ToolFault;
pub use values::{push_value, read_value};
