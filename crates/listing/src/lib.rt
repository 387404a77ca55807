// What the listing of a header's fields answers. Its lines and their order are in specs/.
#![tactic(auto)]

// How many bytes were written, or the number of the rule that refuses the header; the envelope is 1.
pub type ListAnswer = Result<usize, u16>;

// The words of an entry, which is a line to come: its field, and its level.
pub const ENTRY_WORDS: usize = 2;
