// What a report over page lists answers. Its rule is in specs/.
#![tactic(auto)]

// How many lists of a report were accepted, and how many their reader has refused.
#[derive(Clone, Copy)]
pub struct ListCounts {
    pub accepted: u64,
    pub refused: u64,
}

// A page list that is refused: its envelope, 1 or 3, the number of the rule, and the lists so far; the report is as it was.
#[derive(Clone, Copy)]
pub struct RefusedReport {
    pub envelope: u16,
    pub number: u16,
    pub lists: ListCounts,
}

// The lists so far, where the figures of the list are in the report, or a refusal.
pub type ReportAnswer = Result<ListCounts, RefusedReport>;

// The words of a row of a report, one row to a column: pages, elements, stored sizes, pages with a checksum.
pub const FIGURE_WORDS: usize = 4;

// The most lists in one report, those that were refused among them.
pub const MOST_LISTS: u64 = 1024;
