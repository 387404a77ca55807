// The verdict on a footer that is to be written: how long it would be, and the number of its first refusal.
#![tactic(auto)]

mod carried;
mod items;

ghost use Rattle.std.specs.Prelude.{ℕ, ◌≡◌};
ghost use Rattle.writing.specs.Rows.{footer_rows};
ghost use Rattle.writing.specs.Footer.{footer_payload_piece, footer_piece};
ghost use Rattle.verdicts.specs.Length.{capped};
ghost use Rattle.footer_check.specs.Sizes.{record_size};

use carried::all_as_carried;
pub use carried::carries_checksums;
use items::{clusters_number, links_number};

// All but the rows: versions, feature word, the header's checksum, four heads of lists, and the footer's checksum.
const FRAME: usize = 52;

// The bytes of a cluster's record, with the checksum of its page list or without it, and of a link.
const CLUSTER_WITH_CHECKSUM: u16 = 40;

const CLUSTER: u16 = 36;

const LINK: u16 = 16;

// The bytes of a cluster's record.
pub fn record_size(carried: bool) -> u16
    ensures { result ≡ record_size carried }
{
    if carried {
        return CLUSTER_WITH_CHECKSUM;
    }
    CLUSTER
}

// How long the footer of these rows would be; one more than the ceiling where it would be longer than that.
pub fn footer_long(clusters: &[u64], metadata: &[u64]) -> usize
    ensures { (checksum file : ℕ) → result ≡ capped (footer_piece checksum file (footer_rows clusters.now metadata.now)).long }
{
    let size = record_size(carries_checksums(clusters));
    let long = verdicts::with_rows(FRAME, clusters.len() / rows::CLUSTER_WORDS, size);
    verdicts::with_rows(long, metadata.len() / rows::LINK_WORDS, LINK)
}

// The first refusal of a payload.
fn payload_number(
    carried: bool,
    checksum: u64,
    file: u64,
    clusters: &[u64],
    metadata: &[u64],
) -> u16
    ensures { result ≡ (footer_payload_piece carried checksum file (footer_rows clusters.now metadata.now)).number }
{
    let named = verdicts::narrow(checksum, verdicts::BITS_32, 0);
    let cluster_count = verdicts::at_most(
        rows::MOST_CLUSTERS,
        clusters.len() / rows::CLUSTER_WORDS,
    );
    let cluster_list = verdicts::first(cluster_count, clusters_number(carried, file, clusters));
    let link_count = verdicts::at_most(rows::MOST_LINKS, metadata.len() / rows::LINK_WORDS);
    let link_list = verdicts::first(link_count, links_number(file, metadata));
    verdicts::first(named, verdicts::first(cluster_list, link_list))
}

// The first refusal of a footer beside a header with this checksum, 0 where there is none: rows some of which have a checksum and some
// have none, the length, and then the payload front to back.
pub fn footer_number(checksum: u64, file: u64, clusters: &[u64], metadata: &[u64]) -> u16
    ensures { result ≡ (footer_piece checksum file (footer_rows clusters.now metadata.now)).number }
{
    let carried = carries_checksums(clusters);
    if all_as_carried(carried, clusters) {
        if footer_long(clusters, metadata) <= verdicts::CEILING {
            return payload_number(carried, checksum, file, clusters, metadata);
        }
        return 1;
    }
    19
}
