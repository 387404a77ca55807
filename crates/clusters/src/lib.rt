// The clusters that a footer lists.
#![tactic(auto)]

mod cluster;

pub use cluster::{cluster_record, entry_count, scan_cluster_list};
