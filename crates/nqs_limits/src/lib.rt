//! Resource limits, complexes and the edits of both; times and sizes as they are typed.
//!
//! Each check and edit is the rule of its name in `nqs_rules` (specs/Limits.antt); `docs/rules.md`
//! says them in words. The texts of times and sizes are in specs/Time.antt and specs/Size.antt. No
//! call takes memory.
#![tactic(auto)]

mod apply;
mod check;
mod over;
mod size;
mod time;

pub use apply::apply_limits;
pub use check::check_limits;
pub use over::over_limits;
pub use size::read_size;
pub use time::read_time;
