//! Serves days over an outside in memory, and prints what was seen: `stdout` has what is to be
//! seen, by hand. A host of a site of one serves a day, days on which a call of its outside or of a
//! disk fails, literal datagrams, and pieces of one; shepherds and a client speak over a wire.
#![tactic(auto)]

mod coming;
mod datagrams;
mod day;
mod days;
mod host;
mod literal;
mod outside;
mod pieces;
mod shepherds;
mod text;
mod told;
mod trouble;

use days::put_days;
use literal::put_literal;
use pieces::put_pieces;
use shepherds::{put_client, put_shepherds};
use std::alloc::Global;
use std::io;
use std::io::Write;
use std::process::ExitCode;
use trouble::Trouble;

fn put_all(alloc: Global, out: &mut Vec<u8>) -> Result<(), Trouble> {
    put_days(alloc, out)?;
    put_literal(alloc, out)?;
    put_pieces(alloc, out)?;
    put_shepherds(alloc, out)?;
    put_client(alloc, out)
}

fn main(rt: HostRuntime) -> ExitCode {
    let mut out = Vec::new(rt.alloc());
    let seen = put_all(rt.alloc(), &mut out);
    if io::writer(&rt).write_all(&out).is_err() {
        return ExitCode::FAILURE;
    }
    match seen {
        Ok(()) => ExitCode::SUCCESS,
        Err(trouble) => {
            let _ = eprintln!(rt; "{}", trouble.0);
            ExitCode::FAILURE
        }
    }
}
