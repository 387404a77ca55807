// Whether two lists of numbers are the same.
ghost use Rattle.std.specs.Prelude.{◌≡◌};
ghost use Rattle.same_tables.specs.Same.{same_numbers};

pub fn same_words(a: &[u64], b: &[u64]) -> bool
    ensures { result ≡ same_numbers a.now b.now }
{
    a == b
}
