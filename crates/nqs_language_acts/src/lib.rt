//! What the lines of a schedule ask of a network: their words read as commands, with laws of what
//! may come of it.
//!
//! `specs/Acts.antt` has the act that each event of a schedule asks for, `specs/Laws.antt` that
//! whatever is read is within the limits of the rules.
#![tactic(auto)]

mod commands;
pub mod laws;

pub use commands::{
    qdel_command, qmgr_command, qstat_command, qsub_command, qsub_command_of, submit_command,
};
