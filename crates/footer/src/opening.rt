// What stands before the clusters: feature words, the header's checksum, and two lists that must be empty.
ghost use Rattle.std.specs.Prelude.{◌≡◌};
ghost use Rattle.wire.specs.Reading.{tested, counted};
ghost use Rattle.wire.specs.Answers.{as_step, place_step};
ghost use Rattle.frames.specs.Frames.{list_head};
ghost use Rattle.footer.specs.Footer.{names, no_items, empty, opening};

use frames::ListHead;
use wire::{Fault, Step};

// The header checksum that a footer names.
fn header_checksum_at(s: &[u8], at: usize, checksum: u64) -> Step<u64>
    ensures { as_step result ≡ tested 4 (names checksum) s.now at }
{
    let (named, next) = wire::number_4(s, at)?;
    wire::judge(named, at, next, wire::unless_due(named, checksum, 16))
}

// The head of a list without items.
fn empty_list_head(s: &[u8], at: usize) -> Step<ListHead>
    ensures { as_step result ≡ list_head no_items s.now at }
{
    let (head, stop) = list_frames::list_head(s, at)?;
    let verdict = wire::unless_due(head.count as u64, 0, 17);
    list_frames::judge_count(head, at, stop, verdict)
}

// A list without items: how many they are, which is 0, and the place after its frame.
fn empty_list_at(s: &[u8], strict: bool, at: usize) -> Step<u64>
    ensures { as_step result ≡ counted (empty strict s.now at) }
{
    let (head, stop) = empty_list_head(s, at)?;
    list_frames::close_list(Ok((0, head.start)), strict, at, 0, stop)
}

// The place after all of it, where the list of clusters starts.
pub fn opening_at(s: &[u8], strict: bool, at: usize, checksum: u64) -> Result<usize, Fault>
    ensures { place_step result ≡ opening checksum strict s.now at }
{
    let checksum_at = envelope::features_at(s, at)?;
    let (_, extensions_at) = header_checksum_at(s, checksum_at, checksum)?;
    let (_, groups_at) = empty_list_at(s, strict, extensions_at)?;
    let (_, next) = empty_list_at(s, strict, groups_at)?;
    Ok(next)
}
