// The first refusal of the rows of each table.
ghost use Rattle.std.specs.Prelude.{◌≡◌, []};
ghost use Rattle.rows.specs.Words.{cluster_width, link_width};
ghost use Rattle.rows.specs.Tables.{cluster_row, link_row};
ghost use Rattle.writing.specs.Piece.{pieces};
ghost use Rattle.writing.specs.Rows.{all_rows};
ghost use Rattle.writing.specs.Footer.{link_piece, checksum_piece, cluster_piece, cluster_item, link_item};

use rows::{ClusterRow, Link};
use verdicts::{BITS_31, BITS_32, BITS_60, RowVerdicts};

fn link_number(file: u64, link: Link) -> u16
    ensures { result ≡ (link_piece file link).number }
{
    let uncompressed = verdicts::narrow(link.size, BITS_32, 0);
    let stored = verdicts::narrow(link.size, BITS_31, locator::stored_as(link.size, link.size));
    let place = locator::in_file(file, link.size, 0, link.offset);
    verdicts::first(uncompressed, verdicts::first(stored, place))
}

// The checksum of a page list, where these are carried.
fn checksum_number(carried: bool, checksum: u64) -> u16
    ensures { result ≡ (checksum_piece carried checksum).number }
{
    if carried {
        return verdicts::narrow(checksum, BITS_32, 0);
    }
    0
}

// A cluster, after clusters with `sum` entries.
fn cluster_number(row: ClusterRow, carried: bool, file: u64, sum: u64) -> u16
    ensures { result ≡ (cluster_piece carried file sum row).number }
{
    let start = wire::unless_due(row.first_entry, sum, 19);
    let entries = verdicts::narrow(
        row.entries,
        BITS_60,
        clusters::entry_count(sum, row.entries),
    );
    let page_list = link_number(file, row.page_list);
    let checksum = checksum_number(carried, row.checksum);
    verdicts::first(
        start,
        verdicts::first(entries, verdicts::first(page_list, checksum)),
    )
}

// The first refusal of the clusters of a table.
pub fn clusters_number(carried: bool, file: u64, clusters: &[u64]) -> u16
    ensures { result ≡ (pieces (cluster_item carried file) [] (all_rows cluster_row cluster_width clusters.now)).number }
{
    let n = clusters.len() / rows::CLUSTER_WORDS;
    let mut sum: u64 = 0;
    for i in 0..n {
        let row = cluster_rows::cluster_row(clusters, i as u64);
        let number = cluster_number(row, carried, file, sum);
        if number != 0 {
            return number;
        }
        sum += row.entries;
    }
    0
}

// The verdicts on metadata links, in a file of so many bytes.
#[derive(Clone, Copy)]
struct LinkVerdicts<'a> {
    file: u64,
    metadata: &'a [u64],
}

impl RowVerdicts for LinkVerdicts<'_> {
    ghost gives = { λ t i r. r ≡ (link_piece t.file (link_row t.metadata.now i)).number };

    fn verdict(&self, i: usize) -> u16 {
        link_number(self.file, cluster_rows::link_row(self.metadata, i as u64))
    }
}

// The first refusal of the metadata links of a table.
pub fn links_number(file: u64, metadata: &[u64]) -> u16
    ensures { result ≡ (pieces (link_item file) [] (all_rows link_row link_width metadata.now)).number }
{
    let verdicts = LinkVerdicts { file, metadata };
    verdicts::first_of_rows(metadata.len() / rows::LINK_WORDS, &verdicts)
}
