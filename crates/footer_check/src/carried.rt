// The checksums of page lists in the rows of clusters: every row has one, or none has.
ghost use Rattle.std.specs.Prelude.{◌≡◌, not, eqb};
ghost use Rattle.numbers.specs.Choice.{pick};
ghost use Rattle.rows.specs.Words.{cluster_width, no_checksum};
ghost use Rattle.rows.specs.Tables.{cluster_row};
ghost use Rattle.writing.specs.Rows.{all_rows};
ghost use Rattle.writing.specs.Footer.{carries_for, all_as_carried};

// Where the checksum stands in the row of a cluster.
const CHECKSUM: usize = 4;

// A footer of these rows carries the checksums of its page lists: the first row says so.
pub fn carries_checksums(clusters: &[u64]) -> bool
    ensures { result ≡ carries_for (all_rows cluster_row cluster_width clusters.now) }
{
    if clusters.len() < rows::CLUSTER_WORDS {
        return false;
    }
    rows::word(clusters, rows::CLUSTER_WORDS, 0, CHECKSUM) != rows::NO_CHECKSUM
}

// A row with this checksum has one where these are carried, and none where they are not.
fn as_carried(carried: bool, checksum: u64) -> bool
    ensures { result ≡ pick carried (not (eqb checksum no_checksum)) (eqb checksum no_checksum) }
{
    if carried {
        return checksum != rows::NO_CHECKSUM;
    }
    checksum == rows::NO_CHECKSUM
}

// And every row does.
pub fn all_as_carried(carried: bool, clusters: &[u64]) -> bool
    ensures { result ≡ all_as_carried carried (all_rows cluster_row cluster_width clusters.now) }
{
    let n = clusters.len() / rows::CLUSTER_WORDS;
    for i in 0..n {
        let checksum = rows::word(clusters, rows::CLUSTER_WORDS, i as u64, CHECKSUM);
        if !as_carried(carried, checksum) {
            return false;
        }
    }
    true
}
