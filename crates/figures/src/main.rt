// Prints the figures of each column over page lists that belong to one header. The arguments are the name of the header's file, and for each list the
// name of its file, the entries of its cluster, and the length of the file that its pages are in.
#![tactic(auto)]

mod input;
mod lists;
mod table;

use std::{env, io};

// The arguments before those of the lists: the program's name and the header.
const FIRST_LIST: usize = 2;

// The arguments of a list.
const LIST_ARGUMENTS: usize = 3;

fn main(rt: HostRuntime) -> io::Result<()> {
    let arguments: Vec<String> = env::args(&rt)?.collect(rt.alloc())?;
    let count = arguments.len();
    let named = std::num::wrapping_sub_usize(count, FIRST_LIST);
    if count <= FIRST_LIST {
        eprintln!(rt;
            "figures: the arguments are HEADER and, for each list, PAGE_LIST ENTRIES FILE_LENGTH"
        )
    } else if named % LIST_ARGUMENTS != 0 {
        eprintln!(rt; "figures: each PAGE_LIST is followed by ENTRIES and FILE_LENGTH")
    } else if lists::MOST_LISTS < named / LIST_ARGUMENTS {
        eprintln!(rt; "figures: more than 1024 lists: a report takes no more")
    } else {
        lists::report(&rt, &arguments, named / LIST_ARGUMENTS)
    }
}
