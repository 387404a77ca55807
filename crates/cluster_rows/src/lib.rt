// The rows of the tables that say where the data is, read and written by number: clusters, links to page lists, pages.
#![tactic(auto)]

ghost use Rattle.std.specs.Prelude.{◌≡◌, ◌*◌};
ghost use Rattle.numbers.specs.Rows.{put};
ghost use Rattle.rows.specs.Words.{bit, cluster_width, link_width, page_width, link_words, cluster_words, page_words};
ghost use Rattle.rows.specs.Tables.{cluster_row, link_row, page_row};

use rows::{CLUSTER_WORDS, ClusterRow, ColumnNumber, LINK_WORDS, Link, PAGE_WORDS, PageRow};

// The row of a cluster; zeros where the table has no such row whole, as of every row below.
pub fn cluster_row(table: &[u64], row: u64) -> ClusterRow
    ensures { result ≡ cluster_row table.now row }
{
    ClusterRow {
        first_entry: rows::word(table, CLUSTER_WORDS, row, 0),
        entries: rows::word(table, CLUSTER_WORDS, row, 1),
        page_list: Link {
            size: rows::word(table, CLUSTER_WORDS, row, 2),
            offset: rows::word(table, CLUSTER_WORDS, row, 3),
        },
        checksum: rows::word(table, CLUSTER_WORDS, row, 4),
    }
}

pub fn link_row(table: &[u64], row: u64) -> Link
    ensures { result ≡ link_row table.now row }
{
    Link {
        size: rows::word(table, LINK_WORDS, row, 0),
        offset: rows::word(table, LINK_WORDS, row, 1),
    }
}

pub fn page_row(table: &[u64], row: u64) -> PageRow
    ensures { result ≡ page_row table.now row }
{
    let checksum = rows::word(table, PAGE_WORDS, row, 2) == 1;
    PageRow {
        column: ColumnNumber(rows::word(table, PAGE_WORDS, row, 0)),
        elements: rows::word(table, PAGE_WORDS, row, 1),
        checksum,
        size: rows::word(table, PAGE_WORDS, row, 3),
        offset: rows::word(table, PAGE_WORDS, row, 4),
    }
}

// Writes a cluster's row into the table, where there is room for it; and likewise the rows below.
pub fn put_cluster(table: &mut [u64], i: usize, row: ClusterRow)
    ensures { table.new ≡ put table.old (cluster_width * i) (cluster_words row) }
{
    if i < table.len() / CLUSTER_WORDS {
        let page_list = row.page_list;
        let words = [
            row.first_entry,
            row.entries,
            page_list.size,
            page_list.offset,
            row.checksum,
        ];
        rows::put_words(table, CLUSTER_WORDS * i, &words);
    }
}

pub fn put_link(table: &mut [u64], i: usize, row: Link)
    ensures { table.new ≡ put table.old (link_width * i) (link_words row) }
{
    if i < table.len() / LINK_WORDS {
        let words = [row.size, row.offset];
        rows::put_words(table, LINK_WORDS * i, &words);
    }
}

pub fn put_page(table: &mut [u64], i: usize, row: PageRow)
    ensures { table.new ≡ put table.old (page_width * i) (page_words row) }
{
    if i < table.len() / PAGE_WORDS {
        let column = row.column;
        let words = [
            column.0,
            row.elements,
            bit(row.checksum),
            row.size,
            row.offset,
        ];
        // Into a part that has just their number, words are written with no further test of the room.
        let at = PAGE_WORDS * i;
        rows::put_words(&mut table[at..at + PAGE_WORDS], 0, &words);
    }
}

// The word of a mark.
pub fn bit(b: bool) -> u64
    ensures { result ≡ bit b }
{
    if b {
        return 1;
    }
    0
}
