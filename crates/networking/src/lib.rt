// Framing of messages: the header in front of each payload.
#![tactic(auto)]

mod header;

pub use header::{MessageHeader, closing_header};
