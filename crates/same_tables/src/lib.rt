// Whether two calls of a reader left the same tables: both accept, the counts are the same, and so are the rows, strings by their
// characters, wherever these stand.
#![tactic(auto)]

mod fields;
mod words;

ghost use Rattle.std.specs.Prelude.{◌≡◌};
ghost use Rattle.same_tables.specs.Same.{same_read, same_answers, same_headers, same_footer_counts, same_footers, same_page_counts, same_page_lists};

use fields::{same_fields, same_texts};
use footer::FooterAnswer;
use header::{HeaderAnswer, HeaderTables};
use page_list::PageListAnswer;
use words::same_words;

// The call for `old` answered x and left the tables f, c and a of fields, columns and aliases; the call for `new` answered y and left g, d and b.
pub fn same_headers(
    old: &[u8],
    f: &[u64],
    c: &[u64],
    a: &[u64],
    x: HeaderAnswer,
    new: &[u8],
    g: &[u64],
    d: &[u64],
    b: &[u64],
    y: HeaderAnswer,
) -> bool
    ensures { result ≡ same_headers old.now f.now c.now a.now x new.now g.now d.now b.now y }
{
    if same_words(c, d) {
        if same_words(a, b) {
            return same_answers(old, f, x, new, g, y);
        }
    }
    false
}

// The answers, and the fields that they count.
fn same_answers(
    old: &[u8],
    f: &[u64],
    x: HeaderAnswer,
    new: &[u8],
    g: &[u64],
    y: HeaderAnswer,
) -> bool
    ensures { result ≡ same_answers old.now f.now x new.now g.now y }
{
    match x {
        Ok(t) => match y {
            Ok(u) => same_read(old, f, t, new, g, u),
            Err(_) => false,
        },
        Err(_) => false,
    }
}

fn same_read(old: &[u8], f: &[u64], t: HeaderTables, new: &[u8], g: &[u64], u: HeaderTables) -> bool
    ensures { result ≡ same_read old.now f.now t new.now g.now u }
{
    if t.fields != u.fields {
        return false;
    }
    if t.columns != u.columns {
        return false;
    }
    if t.aliases != u.aliases {
        return false;
    }
    let s = t.texts;
    let v = u.texts;
    if same_texts(old, s.name, new, v.name) {
        if same_texts(old, s.description, new, v.description) {
            return same_fields(old, f, new, g, t.fields);
        }
    }
    false
}

// One call answered x and left the tables c and m of clusters and metadata links; the other answered y and left d and n.
pub fn same_footers(
    c: &[u64],
    m: &[u64],
    x: FooterAnswer,
    d: &[u64],
    n: &[u64],
    y: FooterAnswer,
) -> bool
    ensures { result ≡ same_footers c.now m.now x d.now n.now y }
{
    if same_words(c, d) {
        if same_words(m, n) {
            return same_footer_counts(x, y);
        }
    }
    false
}

fn same_footer_counts(x: FooterAnswer, y: FooterAnswer) -> bool
    ensures { result ≡ same_footer_counts x y }
{
    match x {
        Ok(m) => match y {
            Ok(n) => {
                if m.clusters != n.clusters {
                    return false;
                }
                m.metadata == n.metadata
            }
            Err(_) => false,
        },
        Err(_) => false,
    }
}

// One call answered x and left the table p of pages; the other answered y and left q.
pub fn same_page_lists(p: &[u64], x: PageListAnswer, q: &[u64], y: PageListAnswer) -> bool
    ensures { result ≡ same_page_lists p.now x q.now y }
{
    if same_words(p, q) {
        return same_page_counts(x, y);
    }
    false
}

fn same_page_counts(x: PageListAnswer, y: PageListAnswer) -> bool
    ensures { result ≡ same_page_counts x y }
{
    match x {
        Ok(m) => match y {
            Ok(n) => m == n,
            Err(_) => false,
        },
        Err(_) => false,
    }
}
