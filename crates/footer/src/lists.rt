// The payload: the verdict on all of it, and then its two lists into the lent tables.
ghost use Rattle.std.specs.Prelude.{◌≡◌};
ghost use Rattle.envelope.specs.Envelope.{whole};
ghost use Rattle.header.specs.Beside.{in_envelope};
ghost use Rattle.footer.specs.Footer.{payload};
ghost use Rattle.footer.specs.Tables.{fitting, Answered};
ghost use Rattle.footer.specs.Answers.{Scans};

use crate::fill::{fill_cluster_list, fill_link_list};
use crate::opening::opening_at;
use crate::{FooterAnswer, FooterCounts};
use header::Refusal;
use wire::Fault;

// Where a footer's lists stand, and how many items each has.
#[derive(Clone, Copy)]
pub struct FooterScan {
    pub clusters_at: usize,
    pub clusters: usize,
    pub metadata_at: usize,
    pub metadata: usize,
}

// The verdict on a payload.
fn scan_payload(
    s: &[u8],
    carried: bool,
    strict: bool,
    checksum: u64,
    file: u64,
) -> Result<FooterScan, Fault>
    ensures { Scans checksum file carried strict s.now result }
{
    let clusters_at = opening_at(s, strict, 4, checksum)?;
    let (clusters, metadata_at) = clusters::scan_cluster_list(
        s,
        carried,
        strict,
        clusters_at,
        file,
    )?;
    let (metadata, past) = links::scan_link_list(s, strict, metadata_at, file)?;
    let _ = frames::close_frame(strict, past, s.len())?;
    Ok(FooterScan {
        clusters_at,
        clusters: clusters as usize,
        metadata_at,
        metadata: metadata as usize,
    })
}

// The lent tables have room for the rows.
fn has_room(scan: FooterScan, clusters: usize, metadata: usize) -> bool
    ensures { result ≡ fitting clusters metadata scan.clusters scan.metadata }
{
    if scan.clusters <= clusters / rows::CLUSTER_WORDS {
        return scan.metadata <= metadata / rows::LINK_WORDS;
    }
    false
}

// Reads a payload into the lent tables, and answers; `carried`: with the checksums of page lists.
pub fn read_payload(
    s: &[u8],
    carried: bool,
    strict: bool,
    checksum: u64,
    file: u64,
    clusters: &mut [u64],
    metadata: &mut [u64],
) -> FooterAnswer
    ensures { Answered (in_envelope 2 (whole strict (payload carried checksum file strict) s.now 4)) clusters.old clusters.new metadata.old metadata.new result }
{
    match scan_payload(s, carried, strict, checksum, file) {
        Ok(scan) => {
            if has_room(scan, clusters.len(), metadata.len()) {
                fill_cluster_list(clusters, s, carried, strict, scan.clusters_at, file);
                fill_link_list(metadata, s, strict, scan.metadata_at, file);
                Ok(FooterCounts {
                    clusters: scan.clusters,
                    metadata: scan.metadata,
                })
            } else {
                Err(Refusal {
                    envelope: 2,
                    number: 20,
                })
            }
        }
        Err(f) => Err(Refusal {
            envelope: 2,
            number: f.number,
        }),
    }
}
