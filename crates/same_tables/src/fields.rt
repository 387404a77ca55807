// Whether two tables of fields say the same of the fields counted.
ghost use Rattle.std.specs.Prelude.{◌≡◌};
ghost use Rattle.same_tables.specs.Same.{same_texts, same_heads, same_strings, same_field, same_fields};

use rows::{FieldHead, FieldNumber, FieldTexts, Text};

// The strings s of `old` and t of `new` have the same characters.
pub fn same_texts(old: &[u8], s: Text, new: &[u8], t: Text) -> bool
    ensures { result ≡ same_texts old.now s new.now t }
{
    reader::read_text(old, s.place, s.len) == reader::read_text(new, t.place, t.len)
}

fn same_heads(a: FieldHead, b: FieldHead) -> bool
    ensures { result ≡ same_heads a b }
{
    let parent = a.parent;
    let other = b.parent;
    if a.field_version != b.field_version {
        return false;
    }
    if a.type_version != b.type_version {
        return false;
    }
    if parent.0 != other.0 {
        return false;
    }
    if a.role != b.role {
        return false;
    }
    if a.flags != b.flags {
        return false;
    }
    if a.repetition != b.repetition {
        return false;
    }
    true
}

fn same_strings(old: &[u8], a: FieldTexts, new: &[u8], b: FieldTexts) -> bool
    ensures { result ≡ same_strings old.now a new.now b }
{
    if same_texts(old, a.name, new, b.name) {
        if same_texts(old, a.type_name, new, b.type_name) {
            if same_texts(old, a.type_alias, new, b.type_alias) {
                return same_texts(old, a.description, new, b.description);
            }
        }
    }
    false
}

// Row i of the tables f and g.
fn same_field(old: &[u8], f: &[u64], new: &[u8], g: &[u64], i: u64) -> bool
    ensures { result ≡ same_field old.now f.now new.now g.now i }
{
    let a = field_rows::field_row(f, FieldNumber(i));
    let b = field_rows::field_row(g, FieldNumber(i));
    if same_heads(a.head, b.head) {
        if same_strings(old, a.texts, new, b.texts) {
            return field_rows::dark_mark(f, FieldNumber(i))
                == field_rows::dark_mark(g, FieldNumber(i));
        }
    }
    false
}

pub fn same_fields(old: &[u8], f: &[u64], new: &[u8], g: &[u64], count: usize) -> bool
    ensures { result ≡ same_fields old.now f.now new.now g.now count }
{
    for i in 0..count {
        if !same_field(old, f, new, g, i as u64) {
            return false;
        }
    }
    true
}
