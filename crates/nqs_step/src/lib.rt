//! What one host does: the step at an event, and the start of what may be started.
//!
//! `step` has the events, `command` the commands with `submit`, `delete` and `edit`, `start` the
//! starts, `reply` the replies. Each is the rule of its name in `nqs_rules` (specs/Step.antt and
//! specs/Start.antt). Neither changes the state: the change of the plan is made of it once it is on
//! the disk. They fail for want of memory alone.
#![tactic(auto)]

mod command;
mod delete;
mod edit;
mod reply;
pub mod start;
pub mod step;
mod submit;
