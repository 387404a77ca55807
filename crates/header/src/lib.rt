// What the reader of a header answers. The rules of a header, and what the lent tables then hold, are in specs/.
#![tactic(auto)]

use records::HeaderTexts;

// What an accepted header reads besides its rows.
#[derive(Clone, Copy)]
pub struct HeaderTables {
    pub texts: HeaderTexts,
    pub fields: usize,
    pub columns: usize,
    pub aliases: usize,
}

// What a header's tables hold, or the number of the rule that refuses it; the envelope is 1.
pub type HeaderAnswer = Result<HeaderTables, u16>;

// A refusal of what is read or written beside a header: the envelope that is refused, 1 for the header, 2 for a footer, 3 for a page list,
// and the number of the rule.
#[derive(Clone, Copy)]
pub struct Refusal {
    pub envelope: u16,
    pub number: u16,
}
