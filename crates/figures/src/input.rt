// What the arguments name. Where one is no good, standard error says why.
use std::rt::Files;
use std::{fs, io};

// The argument with this number, with no characters where there is none.
fn argument(arguments: &[String], number: usize) -> &str {
    match arguments.get(number) {
        Some(text) => text.as_str(),
        None => "",
    }
}

// Opens the file that an argument names. Answers none where it cannot be read.
pub fn open_argument<R: Files + Eprint>(
    rt: &R,
    arguments: &[String],
    number: usize,
) -> io::Result<Option<R::File>> {
    let name = argument(arguments, number);
    match fs::open(rt, name) {
        Ok(file) => Ok(Some(file)),
        Err(error) => {
            eprintln!(rt; "{name}: {error}")?;
            Ok(None)
        }
    }
}

// The number that an argument is.
pub fn number_argument(
    rt: &impl Eprint,
    arguments: &[String],
    number: usize,
) -> io::Result<Option<u64>> {
    let text = argument(arguments, number);
    let numeral = figure_table::number_of(text.as_bytes());
    if numeral.is_none() {
        eprintln!(rt; "figures: {text}: no number from 0 to 18446744073709551615")?;
    }
    Ok(numeral)
}
