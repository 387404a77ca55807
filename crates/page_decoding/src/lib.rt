// Pages decoded: the elements of a column from bytes.
#![tactic(auto)]

mod bit;
mod difference;
mod read;
mod signed;

ghost use Rattle.std.specs.Prelude.{◌≡◌, ℕ, length};
ghost use Rattle.column_type.specs.Types.{width_of, Marked};
ghost use Rattle.page_rules.specs.Page.{outcome_of, decode_outcome, decoded};

use page_rules::PageAnswer;

// Decodes a page of so many elements, with a checksum behind them where it says so, into the lent words from `start` on.
pub fn decode_page(
    column_type: u16,
    elements: usize,
    checksum: bool,
    page: &[u8],
    out: &mut [u64],
    start: usize,
) -> PageAnswer
    ensures answers { outcome_of result ≡ decode_outcome column_type elements checksum page.now (length out.old) start }
    ensures leaves { out.new ≡ decoded column_type elements checksum page.now out.old start }
{
    let t = column_type as u64;
    decode_as(
        column_type::width_of(t),
        column_type::marks_of(t),
        elements,
        checksum,
        page,
        out,
        start,
    )
}

// The same by what the type means, its width and its marks: who decodes many pages of one type looks them up once.
pub fn decode_as(
    width: u64,
    marks: u8,
    elements: usize,
    checksum: bool,
    page: &[u8],
    out: &mut [u64],
    start: usize,
) -> PageAnswer
    ensures answers { (t : ℕ) → width ≡ width_of t → outcome_of result ≡ decode_outcome t elements checksum page.now (length out.old) start }
    ensures leaves { (t : ℕ) → width ≡ width_of t → Marked t marks → out.new ≡ decoded t elements checksum page.now out.old start }
{
    let count = page_rules::answer::decode_answer(
        width,
        elements,
        checksum,
        page,
        out.len(),
        start,
    )?;
    read::fill(width, marks, elements, page, &mut out[start..]);
    Ok(count)
}
