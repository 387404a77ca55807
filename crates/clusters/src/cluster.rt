// Clusters and their list: each one starts where the entries of those before it end.
ghost use Rattle.std.specs.Prelude.{◌≡◌};
ghost use Rattle.wire.specs.Reading.{tested, counted};
ghost use Rattle.wire.specs.Answers.{as_step};
ghost use Rattle.frames.specs.Frames.{record_of};
ghost use Rattle.clusters.specs.Clusters.{starts_at, entry_count, list_checksum, cluster, cluster_items, cluster_list};

use frames::ListHead;
use rows::ClusterRow;
use wire::Step;

// The verdict on an entry count with four flags above it: flag 60, the other flags, and the running sum, without a sum that
// could wrap.
pub fn entry_count(sum: u64, word: u64) -> u16
    ensures { result ≡ entry_count sum word }
{
    if word / 1152921504606846976 % 2 == 0 {
        if word < 1152921504606846976 {
            if sum < 1152921504606846976 - word {
                return 0;
            }
            return 19;
        }
        return 12;
    }
    17
}

// The first entry of a cluster, after clusters with `sum` entries.
fn first_entry_at(s: &[u8], at: usize, sum: u64) -> Step<u64>
    ensures { as_step result ≡ tested 8 (starts_at sum) s.now at }
{
    let (first, next) = wire::number_8(s, at)?;
    wire::judge(first, at, next, wire::unless_due(first, sum, 19))
}

// The entries of a cluster, after clusters with `sum` entries.
fn entries_at(s: &[u8], at: usize, sum: u64) -> Step<u64>
    ensures { as_step result ≡ tested 8 (entry_count sum) s.now at }
{
    let (word, next) = wire::number_8(s, at)?;
    wire::judge(word, at, next, entry_count(sum, word))
}

// The checksum of a cluster's page list, where the footer carries these.
fn list_checksum_at(s: &[u8], carried: bool, at: usize) -> Step<u64>
    ensures { as_step result ≡ list_checksum carried s.now at }
{
    if carried {
        return wire::number_4(s, at);
    }
    Ok((rows::NO_CHECKSUM, at))
}

// A cluster's content, after clusters with `sum` entries.
fn cluster_at(s: &[u8], carried: bool, at: usize, file: u64, sum: u64) -> Step<ClusterRow>
    ensures { as_step result ≡ cluster carried file sum s.now at }
{
    let (first_entry, word_at) = first_entry_at(s, at, sum)?;
    let (entries, link_place) = entries_at(s, word_at, sum)?;
    let (page_list, checksum_at) = links::link_at(s, link_place, file)?;
    let (checksum, next) = list_checksum_at(s, carried, checksum_at)?;
    Ok((
        ClusterRow {
            first_entry,
            entries,
            page_list,
            checksum,
        },
        next,
    ))
}

// A cluster in its record frame. (The three steps of a record's frame: with the content as a closure they would be no fewer.)
pub fn cluster_record(
    s: &[u8],
    carried: bool,
    strict: bool,
    at: usize,
    file: u64,
    sum: u64,
) -> Step<ClusterRow>
    ensures { as_step result ≡ record_of strict (cluster carried file sum) s.now at }
{
    let (start, stop) = frames::record_head(s, at)?;
    let (row, past) = cluster_at(frames::up_to(s, stop), carried, start, file, sum)?;
    let next = frames::close_frame(strict, past, stop)?;
    Ok((row, next))
}

// The verdict on the clusters of a list at `list`, whose head was read.
fn scan_clusters(
    s: &[u8],
    carried: bool,
    strict: bool,
    list: usize,
    head: ListHead,
    file: u64,
) -> Step<u64>
    ensures { as_step result ≡ counted (cluster_items s.now carried strict list head file) }
{
    let count = head.count;
    let mut sum: u64 = 0;
    let mut at = head.start;
    for i in 0..count {
        match cluster_record(s, carried, strict, at, file, sum) {
            Ok((row, next)) => {
                sum += row.entries;
                at = next;
            }
            Err(f) => return Err(wire::fault_in_item(list, i, f)),
        }
    }
    Ok((count as u64, at))
}

// The verdict on the list of clusters: how many they are, and the place after their frame.
pub fn scan_cluster_list(s: &[u8], carried: bool, strict: bool, at: usize, file: u64) -> Step<u64>
    ensures { as_step result ≡ counted (cluster_list carried strict file s.now at) }
{
    let (head, stop) = list_frames::list_head_at_most(s, at, rows::MOST_CLUSTERS)?;
    let scanned = scan_clusters(frames::up_to(s, stop), carried, strict, at, head, file);
    list_frames::close_list(scanned, strict, at, head.count, stop)
}
