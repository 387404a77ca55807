// What the records of a header read: numbers that are judged, and the header's own texts. The rules of the records are in specs/.
#![tactic(auto)]

pub mod tested;

use rows::Text;

// The header's own name and description.
#[derive(Clone, Copy)]
pub struct HeaderTexts {
    pub name: Text,
    pub description: Text,
}
