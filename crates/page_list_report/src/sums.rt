// Figures beside the words of a report.
ghost use Rattle.std.specs.Prelude.{◌≡◌, true, ◌≤◌, length};
ghost use Rattle.figure_rules.specs.Report.{added, sums_fit};

// The largest number of 64 bits.
const LARGEST: u64 = 18446744073709551615;

// None of the sums passes 64 bits.
pub fn all_fit(figures: &[u64], report: &[u64]) -> bool
    requires { length figures.now ≤ length report.now }
    ensures { result ≡ sums_fit figures.now report.now }
{
    for i in 0..figures.len() {
        if LARGEST - figures[i] < report[i] {
            return false;
        }
    }
    true
}

// Adds each figure to its word.
pub fn add_all(figures: &[u64], report: &mut [u64])
    requires { (length figures.now ≤ length report.old) × (sums_fit figures.now report.old ≡ true) }
    ensures { report.new ≡ added figures.now report.old }
{
    for k in 0..figures.len() {
        report[k] += figures[k];
    }
}
