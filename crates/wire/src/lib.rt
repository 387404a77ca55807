// What every reader stands on: little-endian numbers with verdicts on them, and what a refusal says.
#![tactic(auto)]

mod faults;
mod number;

pub use faults::{fault_at, fault_in_item};
pub use number::{judge, number_2, number_4, number_8, unless_due};

// What was refused, for the reader of a refusal.
#[derive(Clone, Copy)]
pub enum Kind {
    Envelope,
    Frame,
    Text,
    Spare,
    Chain,
    Total,
    Number,
}

// A refusal: document 01's number, the byte place and the kind of what is refused, and the head of the innermost list
// around it with the item's index there (0 and 0 where no list is around it).
#[derive(Clone, Copy)]
pub struct Fault {
    pub number: u16,
    pub place: usize,
    pub kind: Kind,
    pub list: usize,
    pub item: usize,
}

// What was read and the place after it, or a refusal.
pub type Step<T> = Result<(T, usize), Fault>;
