// How far the fields are from their self-parented fields.
#![tactic(auto)]

ghost use Rattle.std.specs.Prelude.{◌≡◌, true, ◌+◌, ◌<◌, ◌≤◌, length, take};
ghost use Rattle.rows.specs.Words.{most_fields};
ghost use Rattle.parents.specs.Parents.{Inside, reaches, endless};
ghost use Rattle.chain_moves.specs.Moves.{climbed, total_moves, moves_where, moves_of};
ghost use Rattle.chain_moves.specs.Followed.{Followed, Known};

use rows::FieldNumber;

// The sum of the moves from each of the first n fields, whose parents are these, to its self-parented field. 0 where a chain never ends, or
// a parent is none of the n fields.
pub fn total_moves(parents: &[u16], n: usize) -> usize
    ensures { result ≡ moves_of parents.now n }
{
    if parents::inside::all_inside(parents, n) {
        return sum_of_moves(parents, n);
    }
    0
}

// The same where every parent is one of the n fields. No field is followed twice.
fn sum_of_moves(parents: &[u16], n: usize) -> usize
    requires n_le_most_fields { (n ≤ most_fields) × (n ≤ length parents.now) }
    requires inside { Inside parents.now n }
    ensures { result ≡ moves_where (total_moves (take n parents.now) n n) (endless (take n parents.now) n n) }
{
    // A header without fields has no arrays set up.
    if n == 0 {
        return 0;
    }
    let mut marks = [0u16; rows::MOST_FIELDS];
    let mut steps = [0u16; rows::MOST_FIELDS];
    let mut depths = [0u16; rows::MOST_FIELDS];
    let mut total = 0;
    for f in 0..n {
        let start = FieldNumber(f as u64);
        let Some(moves) = climb(parents, &mut marks, &mut steps, &depths, n, start) else {
            return 0;
        };
        depths[f] = moves;
        total += moves as usize;
    }
    total
}

// The moves along the chain from `start`, None where it never ends. Each field that is followed is marked with start + 1, and has in `steps` its distance from the
// start; where an earlier walk has been, `depths` has the moves from the start of that walk, and nothing is followed again.
fn climb(
    parents: &[u16],
    marks: &mut [u16; rows::MOST_FIELDS],
    steps: &mut [u16; rows::MOST_FIELDS],
    depths: &[u16; rows::MOST_FIELDS],
    n: usize,
    start: FieldNumber,
) -> Option<u16>
    requires n_le_most_fields { (n ≤ most_fields) × (start.0 < n) × (n ≤ length parents.now) }
    requires inside { Inside parents.now n }
    requires followed { Followed parents.now marks.old steps.old n start.0 }
    requires known { Known parents.now depths.now n start.0 }
    ensures value { result ≡ climbed parents.now n start.0 }
    ensures followed_2 { reaches parents.now n start.0 ≡ true → Followed parents.now marks.new steps.new n (start.0 + 1) }
{
    let stamp = (start.0 + 1) as u16;
    let mut f = start.0 as usize;
    let mut count = 0u16;
    loop {
        let up = parents[f] as usize;
        if up == f {
            return Some(count);
        }
        let mark = marks[f];
        if mark == stamp {
            return None;
        }
        if mark != 0 {
            let depth = depths[mark as usize - 1];
            return Some(count + (depth - steps[f]));
        }
        marks[f] = stamp;
        steps[f] = count;
        count += 1;
        f = up;
    }
}
