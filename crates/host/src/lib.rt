// What a host needs to print a job: command bytes, the reading of replies, and the job rule.
#![tactic(auto)]

mod commands;
mod job;
mod reply;

pub use commands::{
    begin_overlay, begin_page, delete_overlay, end_overlay, end_page, include_overlay,
    load_copy_control, no_operation,
};
pub use job::{Page, next_page};
pub use reply::{Counted, Reply};
