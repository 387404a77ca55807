// What decoding a column's pages in one call answers. Its rule is in specs/.
#![tactic(auto)]

// The page of a column that is refused: the number of the rule, and its index; the envelope is 4.
#[derive(Clone, Copy)]
pub struct RefusedPage {
    pub number: u16,
    pub page: usize,
}

// How many pages were decoded, all of them, or the refusal of one.
pub type ColumnAnswer = Result<usize, RefusedPage>;

// A page of a column, in a lent part of a file: where its bytes start, how many they are without those of a checksum, its elements, and
// whether a checksum follows.
#[derive(Clone, Copy)]
pub struct ColumnPage {
    pub offset: u64,
    pub size: u64,
    pub elements: u64,
    pub checksum: bool,
}

// The words of a row of a table of such pages.
pub const COLUMN_PAGE_WORDS: usize = 4;

// The most pages in one call.
pub const MOST_COLUMN_PAGES: usize = 256;
