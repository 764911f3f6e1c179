//! Lists as people see them: the lines of qstat, and those of the lists of qmgr.
//!
//! `words` puts a line together, `requests` has the lines of qstat, `show` those of qmgr. Each call
//! is the rule of its name in `nqs_rules` (specs/Text.antt and specs/Step.antt); `docs/rules.md`
//! says them in words. A call fails for want of memory alone. A line has no line end.
#![tactic(auto)]

mod requests;
mod show;
mod words;

pub use requests::stat_lines;
pub use show::show_lines;
