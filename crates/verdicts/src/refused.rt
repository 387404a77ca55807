// The first refusal of the rows of a table.
ghost use Rattle.std.specs.Prelude.{ℕ};
ghost use Rattle.verdicts.specs.Refusals.{FirstOfRows};

// The verdicts on the rows of a table: what gives each row its number, 0 or that of its refusal. A trait in place of a closure: it says itself
// what it gives, and may be asked about any row, so that `first_of_rows` asks nothing of its caller.
pub trait RowVerdicts {
    ghost gives: { Self → ℕ → ℕ → Type 0 };

    fn verdict(&self, i: usize) -> u16
        ensures { gives self.now i result };
}

// The first number that is not 0 of those that `rows` gives to n rows, in their order; 0 where it gives no other.
pub fn first_of_rows<R: RowVerdicts>(n: usize, rows: &R) -> u16
    ensures { FirstOfRows (R.gives rows.now) n result }
{
    for i in 0..n {
        let r = rows.verdict(i);
        if r != 0 {
            return r;
        }
    }
    0
}
