// The limits of version 1.

// The most symbols, and the most rules.
pub const SYMBOLS: usize = 512;

pub const RULES: usize = 2048;

// The words of a decoded rule.
pub const EACH: usize = 3;

// Where the words of the chains begin, those of the rules and those of the symbols, and how many words there are in all.
pub const NEXTS: usize = EACH * RULES;

pub const HEADS: usize = NEXTS + RULES;

pub const WORDS: usize = HEADS + SYMBOLS;
