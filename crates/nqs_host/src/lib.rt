//! One host: what a change makes of its state.
//!
//! `format` has the state that a host begins with, `fitting` whether a change may be made of a
//! state, `changes` what each change makes of it (the parts are in `nqs_changes`, and those of
//! edits in the crates of their checks). Each is the rule of its name in `nqs_rules`
//! (specs/Format.antt, specs/Fits.antt and specs/Applied.antt); `docs/rules.md` says them in words.
#![tactic(auto)]

mod changes;
mod fitting;
mod format;

pub use changes::apply;
pub use fitting::fits;
pub use format::formatted;
