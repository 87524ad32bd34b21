// The words of a script line: decimal numbers and hexadecimal bytes.
#![tactic(auto)]

mod decimal;
mod hexadecimal;
mod line;

pub use decimal::{signed, unsigned};
pub use hexadecimal::{HexBytes, HexPattern, bytes, pattern, push_bytes, push_pattern};
pub use line::{Words, line_text, next_word, only_word};
