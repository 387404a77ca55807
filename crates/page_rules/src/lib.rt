// What a page call answers: the tests of document 01, in its order.
#![tactic(auto)]

pub mod answer;
pub mod number;

// Decoding: how many elements were written. Encoding: how many bytes. Else the number of the rule that refuses the page; the envelope is 4.
pub type PageAnswer = Result<usize, u16>;
