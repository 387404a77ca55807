// What the writers of envelopes answer, and a page's row as it is lent to them. The rules of writing and their theorems are in specs/ and proofs/.
#![tactic(auto)]

use header::Refusal;

// How many bytes were written, or a refusal.
pub type WriteAnswer = Result<usize, Refusal>;

// A row of the lent table of pages: any number may stand for bit 30.
#[derive(Clone, Copy)]
pub struct PageWords {
    pub column: u64,
    pub elements: u64,
    pub bit: u64,
    pub size: u64,
    pub offset: u64,
}
