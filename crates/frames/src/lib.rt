// Frames: records and lists.
#![tactic(auto)]

mod frame;

pub use frame::{close_frame, list_stop, record_head, up_to};

// A frame's kind and size.
#[derive(Clone, Copy)]
pub enum FrameSize {
    RecordSize(u64),
    ListSize(u64),
}

// How many items a list has, and where they start.
#[derive(Clone, Copy)]
pub struct ListHead {
    pub count: usize,
    pub start: usize,
}
