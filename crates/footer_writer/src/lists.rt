// The lists of a footer, stored; each call answers the place after what it stored. The head of a list is stored last.
ghost use Rattle.std.specs.Prelude.{ℕ, []};
ghost use Rattle.stores.specs.Stored.{Stored};
ghost use Rattle.rows.specs.Words.{cluster_width, link_width};
ghost use Rattle.rows.specs.Tables.{cluster_row, link_row};
ghost use Rattle.writing.specs.Piece.{pieces, record_piece};
ghost use Rattle.writing.specs.Rows.{all_rows};
ghost use Rattle.writing.specs.Footer.{link_piece, cluster_piece, cluster_item, link_item, cluster_list_piece, link_list_piece};

use crate::stored_records::{write_cluster, write_link};
use stores::{StoreItems, StoreRow};

// The clusters of a table, with the checksums of their page lists where these are carried.
#[derive(Clone, Copy)]
struct ClusterTable<'a> {
    clusters: &'a [u64],
    carried: bool,
}

impl StoreRow for ClusterTable<'_> {
    ghost leaves = { λ t i at before end after. (file sum : ℕ) → Stored before at (record_piece (cluster_piece t.carried file sum (cluster_row t.clusters.now i))).bytes after end };

    fn store_row(&self, i: usize, at: usize, out: &mut [u8]) -> usize {
        let row = cluster_rows::cluster_row(self.clusters, i as u64);
        write_cluster(row, self.carried, at, out)
    }
}

impl StoreItems for ClusterTable<'_> {
    ghost leaves = { λ t at before end after. (file : ℕ) → Stored before at (pieces (cluster_item t.carried file) [] (all_rows cluster_row cluster_width t.clusters.now)).bytes after end };

    fn store_items(&self, at: usize, out: &mut [u8]) -> usize {
        write_clusters(self.clusters, self.carried, at, out)
    }
}

// The records of the clusters.
fn write_clusters(clusters: &[u64], carried: bool, at: usize, out: &mut [u8]) -> usize
    ensures { (file : ℕ) → Stored out.old at (pieces (cluster_item carried file) [] (all_rows cluster_row cluster_width clusters.now)).bytes out.new result }
{
    let rows = ClusterTable { clusters, carried };
    stores::store_rows(clusters.len() / rows::CLUSTER_WORDS, at, out, &rows)
}

// The metadata links of a table.
#[derive(Clone, Copy)]
struct LinkTable<'a> {
    metadata: &'a [u64],
}

impl StoreRow for LinkTable<'_> {
    ghost leaves = { λ t i at before end after. (file : ℕ) → Stored before at (link_piece file (link_row t.metadata.now i)).bytes after end };

    fn store_row(&self, i: usize, at: usize, out: &mut [u8]) -> usize {
        write_link(cluster_rows::link_row(self.metadata, i as u64), at, out)
    }
}

impl StoreItems for LinkTable<'_> {
    ghost leaves = { λ t at before end after. (file : ℕ) → Stored before at (pieces (link_item file) [] (all_rows link_row link_width t.metadata.now)).bytes after end };

    fn store_items(&self, at: usize, out: &mut [u8]) -> usize {
        write_links(self.metadata, at, out)
    }
}

// The metadata links.
fn write_links(metadata: &[u64], at: usize, out: &mut [u8]) -> usize
    ensures { (file : ℕ) → Stored out.old at (pieces (link_item file) [] (all_rows link_row link_width metadata.now)).bytes out.new result }
{
    let rows = LinkTable { metadata };
    stores::store_rows(metadata.len() / rows::LINK_WORDS, at, out, &rows)
}

pub fn write_cluster_list(clusters: &[u64], carried: bool, at: usize, out: &mut [u8]) -> usize
    ensures { (file : ℕ) → Stored out.old at (cluster_list_piece carried file (all_rows cluster_row cluster_width clusters.now)).bytes out.new result }
{
    let items = ClusterTable { clusters, carried };
    stores::store_list(clusters.len() / rows::CLUSTER_WORDS, at, out, &items)
}

pub fn write_link_list(metadata: &[u64], at: usize, out: &mut [u8]) -> usize
    ensures { (file : ℕ) → Stored out.old at (link_list_piece file (all_rows link_row link_width metadata.now)).bytes out.new result }
{
    let items = LinkTable { metadata };
    stores::store_list(metadata.len() / rows::LINK_WORDS, at, out, &items)
}
