// A whole footer, stored.
ghost use Rattle.std.specs.Prelude.{◌≡◌, ℕ};
ghost use Rattle.numbers.specs.Choice.{pick};
ghost use Rattle.stores.specs.Stored.{Stored, InFront};
ghost use Rattle.writing.specs.Rows.{footer_rows};
ghost use Rattle.writing.specs.Footer.{footer_payload_piece, footer_piece};

use crate::lists::{write_cluster_list, write_link_list};

// The bytes of a list without items.
const EMPTY_LIST: usize = 8;

const MINIMUM: u64 = 1;

// The version of a footer that carries the checksums of its page lists, or does not.
fn version(carried: bool) -> u64
    ensures { result ≡ pick carried 2 1 }
{
    if carried {
        return 2;
    }
    1
}

// The payload, beside a header with this checksum; the answer is the place after it.
fn write_payload(
    carried: bool,
    checksum: u64,
    clusters: &[u64],
    metadata: &[u64],
    at: usize,
    out: &mut [u8],
) -> usize
    ensures { (file : ℕ) → Stored out.old at (footer_payload_piece carried checksum file (footer_rows clusters.now metadata.now)).bytes out.new result }
{
    let named = stores::store_8(0, at, out);
    let extensions = stores::store_4(checksum, named, out);
    let groups = stores::store_list_head(EMPTY_LIST, 0, extensions, out);
    let cluster_list = stores::store_list_head(EMPTY_LIST, 0, groups, out);
    let link_list = write_cluster_list(clusters, carried, cluster_list, out);
    write_link_list(metadata, link_list, out)
}

// The envelope, where there is room for it.
pub fn write_envelope(checksum: u64, clusters: &[u64], metadata: &[u64], out: &mut [u8])
    ensures { (file : ℕ) → InFront (footer_piece checksum file (footer_rows clusters.now metadata.now)) out.old out.new }
{
    let carried = footer_check::carries_checksums(clusters);
    let minimum = stores::store_2(version(carried), 0, out);
    let payload = stores::store_2(MINIMUM, minimum, out);
    let end = write_payload(carried, checksum, clusters, metadata, payload, out);
    stores::store_checksum(end, out);
}
