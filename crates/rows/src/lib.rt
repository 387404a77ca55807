// The rows of the lent tables: what each row has, and the words of a table by row.
#![tactic(auto)]

ghost use Rattle.std.specs.Prelude.{◌≡◌, get_or};
ghost use Rattle.numbers.specs.Rows.{put};
ghost use Rattle.rows.specs.Tables.{row_words};

// Field numbers and column numbers are two kinds, so that neither can be taken for the other.
#[derive(Clone, Copy)]
pub struct FieldNumber(pub u64);

#[derive(Clone, Copy)]
pub struct ColumnNumber(pub u64);

// The most items that a list may have.
pub const MOST_FIELDS: usize = 512;

pub const MOST_COLUMNS: usize = 1024;

pub const MOST_ALIASES: usize = 256;

pub const MOST_CLUSTERS: usize = 1024;

pub const MOST_LINKS: usize = 64;

pub const MOST_PAGES: usize = 16384;

// The words of a row of each table.
pub const FIELD_WORDS: usize = 15;

pub const COLUMN_WORDS: usize = 4;

pub const ALIAS_WORDS: usize = 2;

pub const CLUSTER_WORDS: usize = 5;

pub const LINK_WORDS: usize = 2;

pub const PAGE_WORDS: usize = 5;

// Stands in a cluster's row where its footer carries no checksum of the page list: no number of four bytes.
pub const NO_CHECKSUM: u64 = 4294967296;

// The words of a table that has room for all the rows that there can be.
pub const FULL_FIELDS: usize = FIELD_WORDS * MOST_FIELDS;

pub const FULL_COLUMNS: usize = COLUMN_WORDS * MOST_COLUMNS;

pub const FULL_ALIASES: usize = ALIAS_WORDS * MOST_ALIASES;

// A string: where its bytes stand in the envelope, and how many they are.
#[derive(Clone, Copy)]
pub struct Text {
    pub place: usize,
    pub len: usize,
}

// What a field's record has before its strings.
#[derive(Clone, Copy)]
pub struct FieldHead {
    pub field_version: u64,
    pub type_version: u64,
    pub parent: FieldNumber,
    pub role: u64,
    pub flags: u64,
    pub repetition: u64,
}

#[derive(Clone, Copy)]
pub struct FieldTexts {
    pub name: Text,
    pub type_name: Text,
    pub type_alias: Text,
    pub description: Text,
}

#[derive(Clone, Copy)]
pub struct FieldRow {
    pub head: FieldHead,
    pub texts: FieldTexts,
}

#[derive(Clone, Copy)]
pub struct ColumnRow {
    pub column_type: u64,
    pub bits: u64,
    pub field: FieldNumber,
    pub flags: u64,
}

#[derive(Clone, Copy)]
pub struct AliasRow {
    pub column: ColumnNumber,
    pub field: FieldNumber,
}

#[derive(Clone, Copy)]
pub struct Link {
    pub size: u64,
    pub offset: u64,
}

#[derive(Clone, Copy)]
pub struct ClusterRow {
    pub first_entry: u64,
    pub entries: u64,
    pub page_list: Link,
    // The page list's checksum, or NO_CHECKSUM.
    pub checksum: u64,
}

#[derive(Clone, Copy)]
pub struct PageRow {
    pub column: ColumnNumber,
    pub elements: u64,
    // A checksum follows the page.
    pub checksum: bool,
    pub size: u64,
    pub offset: u64,
}

// Word j of a row of a table whose rows have `width` words; 0 where its rows have no such word, or it has no such row whole.
#[tactic(auto, using(crate::proofs::RowLaws::row_fits))]
pub fn word(table: &[u64], width: usize, row: u64, j: usize) -> u64
    ensures { result ≡ get_or (row_words width table.now row) j 0 }
{
    if j < width {
        let i = row as usize;
        if i < table.len() / width {
            return table[width * i + j];
        }
        return 0;
    }
    0
}

// Writes `words` into `table` from `at` on, where there is room.
#[tactic(auto, unfolding(numbers::specs::Rows::put))]
pub fn put_words(table: &mut [u64], at: usize, words: &[u64])
    ensures { table.new ≡ put table.old at words.now }
{
    if table.len() < at {
        return;
    }
    if table.len() - at < words.len() {
        return;
    }
    // By index: the library's copy takes more than twice as long for a row.
    for i in 0..words.len() {
        table[at + i] = words[i];
    }
}
