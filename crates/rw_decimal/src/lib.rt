//! Values of samples as decimals: what a receiver holds is printed with them, and log text that has
//! them is written anew without them.
#![tactic(auto)]

mod held;
mod laws;
mod log_lines;
mod values;

pub use held::print_decimals;
pub use laws::decimal_is_read;
pub use log_lines::exact_text;
pub use values::push_decimal;
