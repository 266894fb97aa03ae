// River files: cards, reading, writing and the round trips.
#![tactic(auto)]

pub mod bytes;
pub mod card;
pub mod file;
pub mod put;
pub mod range;
pub mod read;
pub mod reader;
pub mod refusal;
pub mod rewrite;
pub mod source;
pub mod write;
pub mod writer;
