//! Outputs of jobs: into files of this host, or in stages to the host where the request was
//! submitted.
//!
//! `part` has what of a job's outputs is kept, `end` the end of a job, `stage` stages that come and
//! that arrived, `file` files that were written, `due` what is sent again. Each call is the rule of
//! its name in `nqs_rules` (specs/Stage.antt); `docs/rules.md` says them in words. No call changes
//! the state, and one fails for want of memory alone.
#![tactic(auto)]

mod due;
mod end;
mod file;
mod part;
mod stage;

pub use due::{add_due_stages, due_stages};
pub use end::on_end;
pub use file::on_file;
pub use stage::{on_stage, on_staged};
