// Writes the rows of lists that were accepted into the lent tables.
ghost use Rattle.std.specs.Prelude.{◌≡◌, true, ℕ, ◌+◌, ◌*◌, ◌^◌, ◌≤◌, ◌<◌, length};
ghost use Rattle.numbers.specs.Rows.{flat, over};
ghost use Rattle.wire.specs.Reading.{accepted, rows_of};
ghost use Rattle.rows.specs.Words.{cluster_width, cluster_words, link_width, link_words};
ghost use Rattle.links.specs.Links.{link_items, link_list};
ghost use Rattle.clusters.specs.Clusters.{cluster_items, cluster_list};
ghost use Rattle.clusters.specs.Answers.{checksum_at, cluster_at};

use frames::ListHead;
use rows::{ClusterRow, Link};

// The checksum of a page list that stands at `at`, where it is carried.
fn checksum_at(s: &[u8], carried: bool, at: usize) -> u64
    ensures { result ≡ checksum_at carried s.now at }
{
    if carried {
        return numbers::little_4(s, at);
    }
    rows::NO_CHECKSUM
}

// The row of a cluster whose content starts at `at`, by the places of its numbers: they were judged when the list was accepted.
fn cluster_at(s: &[u8], carried: bool, at: usize) -> ClusterRow
    requires { at + 32 < 2 ^ 64 }
    ensures { result ≡ cluster_at carried s.now at }
{
    let page_list = Link {
        size: numbers::little_4(s, at + 20),
        offset: numbers::little_8(s, at + 24),
    };
    ClusterRow {
        first_entry: numbers::little_8(s, at),
        entries: numbers::little_8(s, at + 8),
        page_list,
        checksum: checksum_at(s, carried, at + 32),
    }
}

// Writes the rows of the clusters of a list, which were accepted, into `table`. (The function that judges a cluster record is not called
// here: with one caller it is put into the loop that judges the list, with two it would be called there.)
fn fill_clusters(
    table: &mut [u64],
    s: &[u8],
    carried: bool,
    strict: bool,
    list: usize,
    head: ListHead,
    file: u64,
)
    requires file_value { accepted (cluster_items s.now carried strict list head file) ≡ true }
    requires count_in_bounds { cluster_width * head.count ≤ length table.old }
    ensures { table.new ≡ over (flat cluster_words (rows_of (cluster_items s.now carried strict list head file))) table.old }
{
    let count = head.count;
    let mut at = head.start;
    for i in 0..count {
        match frames::record_head(s, at) {
            Ok((start, stop)) => {
                let row = cluster_at(frames::up_to(s, stop), carried, start);
                cluster_rows::put_cluster(table, i, row);
                at = stop;
            }
            Err(_) => return,
        }
    }
}

// Writes the rows of the links of a list, which were accepted, into `table`.
fn fill_links(table: &mut [u64], s: &[u8], list: usize, head: ListHead, file: u64)
    requires file_value { accepted (link_items s.now list head file) ≡ true }
    requires count_in_bounds { link_width * head.count ≤ length table.old }
    ensures { table.new ≡ over (flat link_words (rows_of (link_items s.now list head file))) table.old }
{
    let count = head.count;
    let mut at = head.start;
    for i in 0..count {
        match links::link_at(s, at, file) {
            Ok((row, next)) => {
                cluster_rows::put_link(table, i, row);
                at = next;
            }
            Err(_) => return,
        }
    }
}

// Writes the rows of the list of clusters, which was accepted, into `table`.
pub fn fill_cluster_list(
    table: &mut [u64],
    s: &[u8],
    carried: bool,
    strict: bool,
    at: usize,
    file: u64,
)
    requires at_value { accepted (cluster_list carried strict file s.now at) ≡ true }
    requires at_in_bounds { cluster_width * length (rows_of (cluster_list carried strict file s.now at)) ≤ length table.old }
    ensures { table.new ≡ over (flat cluster_words (rows_of (cluster_list carried strict file s.now at))) table.old }
{
    match list_frames::list_head_at_most(s, at, rows::MOST_CLUSTERS) {
        Ok((head, stop)) => {
            fill_clusters(
                table,
                frames::up_to(s, stop),
                carried,
                strict,
                at,
                head,
                file,
            );
        }
        Err(_) => {}
    }
}

// Writes the rows of the list of metadata links, which was accepted, into `table`.
pub fn fill_link_list(table: &mut [u64], s: &[u8], strict: bool, at: usize, file: u64)
    requires at_value { accepted (link_list strict file s.now at) ≡ true }
    requires at_in_bounds { link_width * length (rows_of (link_list strict file s.now at)) ≤ length table.old }
    ensures { table.new ≡ over (flat link_words (rows_of (link_list strict file s.now at))) table.old }
{
    match list_frames::list_head_at_most(s, at, rows::MOST_LINKS) {
        Ok((head, stop)) => {
            fill_links(table, frames::up_to(s, stop), at, head, file);
        }
        Err(_) => {}
    }
}
