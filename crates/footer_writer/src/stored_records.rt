// The numbers of a row, stored; each call answers the place after what it stored.
ghost use Rattle.std.specs.Prelude.{ℕ};
ghost use Rattle.stores.specs.Stored.{Stored};
ghost use Rattle.writing.specs.Piece.{record_piece};
ghost use Rattle.writing.specs.Footer.{link_piece, checksum_piece, cluster_piece};

use rows::{ClusterRow, Link};

pub fn write_link(link: Link, at: usize, out: &mut [u8]) -> usize
    ensures { (file : ℕ) → Stored out.old at (link_piece file link).bytes out.new result }
{
    let second = stores::store_4(link.size, at, out);
    let third = stores::store_4(link.size, second, out);
    stores::store_8(link.offset, third, out)
}

// The checksum of a page list, where these are carried.
fn write_checksum(carried: bool, checksum: u64, at: usize, out: &mut [u8]) -> usize
    ensures { Stored out.old at (checksum_piece carried checksum).bytes out.new result }
{
    if carried {
        return stores::store_4(checksum, at, out);
    }
    at
}

// The record of a cluster.
pub fn write_cluster(row: ClusterRow, carried: bool, at: usize, out: &mut [u8]) -> usize
    ensures { (file sum : ℕ) → Stored out.old at (record_piece (cluster_piece carried file sum row)).bytes out.new result }
{
    let first = stores::store_4(footer_check::record_size(carried) as u64, at, out);
    let second = stores::store_8(row.first_entry, first, out);
    let third = stores::store_8(row.entries, second, out);
    let fourth = write_link(row.page_list, third, out);
    write_checksum(carried, row.checksum, fourth, out)
}
