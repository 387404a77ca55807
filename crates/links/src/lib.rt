// Links into an archive, and the list of metadata links.
#![tactic(auto)]

ghost use Rattle.std.specs.Prelude.{◌≡◌};
ghost use Rattle.wire.specs.Reading.{counted};
ghost use Rattle.wire.specs.Answers.{as_step};
ghost use Rattle.links.specs.Links.{link, link_items, link_list};

use frames::ListHead;
use rows::Link;
use wire::Step;

// A link into a file of `file` bytes.
pub fn link_at(s: &[u8], at: usize, file: u64) -> Step<Link>
    ensures { as_step result ≡ link file s.now at }
{
    let (due, locator_place) = wire::number_4(s, at)?;
    let (range, next) = locator::locator_at(s, locator_place, file, due, false)?;
    Ok((
        Link {
            size: range.size,
            offset: range.offset,
        },
        next,
    ))
}

// The verdict on the links of a list at `list`, whose head was read.
fn scan_links(s: &[u8], list: usize, head: ListHead, file: u64) -> Step<u64>
    ensures { as_step result ≡ counted (link_items s.now list head file) }
{
    let count = head.count;
    let mut at = head.start;
    for i in 0..count {
        match link_at(s, at, file) {
            Ok((_, next)) => at = next,
            Err(f) => return Err(wire::fault_in_item(list, i, f)),
        }
    }
    Ok((count as u64, at))
}

// The verdict on the list of metadata links: how many they are, and the place after their frame.
pub fn scan_link_list(s: &[u8], strict: bool, at: usize, file: u64) -> Step<u64>
    ensures { as_step result ≡ counted (link_list strict file s.now at) }
{
    let (head, stop) = list_frames::list_head_at_most(s, at, rows::MOST_LINKS)?;
    let scanned = scan_links(frames::up_to(s, stop), at, head, file);
    list_frames::close_list(scanned, strict, at, head.count, stop)
}
