// A reader that steps over blocks, header by header and message by message.
#![tactic(auto)]

mod parts;
mod reader;

pub use parts::read_header;
pub use reader::Reader;
