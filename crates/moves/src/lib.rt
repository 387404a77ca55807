// How far the fields of a header are from the self-parented tops of their chains, all together.
#![tactic(auto)]

ghost use Rattle.header.specs.Tables.{header_of};
ghost use Rattle.moves.specs.Moves.{Answered};

// The sum over all fields of the moves from the field to its self-parented top, or the number of the rule that refuses the header; the
// envelope is 1.
pub type MovesAnswer = Result<u64, u16>;

// Reads a header with no table lent, and counts the moves along its parent chains. No field is followed twice.
pub fn parent_moves(envelope: &[u8]) -> MovesAnswer
    ensures { Answered (header_of envelope.now) result }
{
    let mut parents = [0u16; rows::MOST_FIELDS];
    let mut flags = [0u64; rows::MOST_FIELDS];
    match header_scan::scan_header(
        envelope,
        &mut parents,
        &mut flags,
        &mut [0; 0],
        &mut [0; 0],
        &mut [0; 0],
    ) {
        Ok((scan, _)) => {
            let lists = scan.lists;
            let total = chain_moves::total_moves(&parents, lists.fields);
            Ok(total as u64)
        }
        Err(f) => Err(f.number),
    }
}
