// What the programs share: a stream read into lent bytes; and for those that read a grammar and then tokens, the grammar read and judged by its
// header, bytes as tokens, lines of text.
#![tactic(auto)]

pub mod header;
pub mod reading;
pub mod text;
pub mod tokens;
