// Chains followed from each field, and marked on the way.
ghost use Rattle.std.specs.Prelude.{◌≡◌, true, ◌+◌, ◌<◌, ◌≤◌, length, get_or, take};
ghost use Rattle.rows.specs.Words.{most_fields};
ghost use Rattle.parents.specs.Parents.{Inside, reaches, endless};
ghost use Rattle.parents.specs.Marks.{Marked};

use rows::FieldNumber;

pub fn parent_of(parents: &[u16], field: FieldNumber) -> FieldNumber
    requires { field.0 < length parents.now }
    ensures { result.0 ≡ get_or parents.now field.0 0 }
{
    let f = field.0 as usize;
    FieldNumber(parents[f] as u64)
}

// Whether the chain from `start` ends. Each field that is followed is marked with start + 1; a mark of an earlier walk is on a
// field whose chain ends.
fn follow(
    parents: &[u16],
    marks: &mut [u16; rows::MOST_FIELDS],
    n: usize,
    start: FieldNumber,
) -> bool
    requires n_le_most_fields { (n ≤ most_fields) × (start.0 < n) × (n ≤ length parents.now) }
    requires inside { Inside parents.now n }
    requires marked { Marked parents.now marks.old n start.0 }
    ensures value { result ≡ reaches parents.now n start.0 }
    ensures marked_2 { result ≡ true → Marked parents.now marks.new n (start.0 + 1) }
{
    let stamp = (start.0 + 1) as u16;
    let mut f = start;
    loop {
        let up = parent_of(parents, f);
        if up.0 == f.0 {
            return true;
        }
        let at = f.0 as usize;
        let mark = marks[at];
        if mark == stamp {
            return false;
        }
        if mark != 0 {
            return true;
        }
        marks[at] = stamp;
        f = up;
    }
}

// Of the first n fields, the lowest whose chain never ends, if there is one. No field is followed twice.
pub fn lowest_endless(parents: [u16; rows::MOST_FIELDS], n: usize) -> Option<FieldNumber>
    requires n_le_most_fields { n ≤ most_fields }
    requires inside { Inside parents n }
    ensures { result ≡ endless (take n parents) n n }
{
    // A header without fields has no marks set up.
    if n == 0 {
        return None;
    }
    let mut marks = [0u16; rows::MOST_FIELDS];
    for f in 0..n {
        let field = FieldNumber(f as u64);
        if !follow(&parents, &mut marks, n, field) {
            return Some(field);
        }
    }
    None
}
