//! The file by which a launcher tells a runner of a job: lines `KEY VALUE` with the keys `name`,
//! `owner` and `queue`, and `cpu` (seconds) and `memory` (bytes) where the job has that limit.

use crate::folder::name_text;
use nqs_text::read_u64;
use nqs_types::LaunchOrder;
use std::io;
use std::io::ErrorKind;
use std::rt::HostRuntime;

/// What a runner needs of an order.
#[derive(Clone, Copy)]
pub struct JobOrder<'a> {
    pub owner: &'a str,
    pub queue: &'a str,
    pub cpu: Option<u64>,
    pub memory: Option<u64>,
}

fn limit_line(rt: &HostRuntime, key: &str, limit: Option<u64>) -> io::Result<String> {
    match limit {
        Some(limit) => Ok(format!(in rt.alloc(); "{key} {limit}\n")?),
        None => Ok(String::new(rt.alloc())),
    }
}

/// The text of the file.
pub(crate) fn order_text(rt: &HostRuntime, order: &LaunchOrder) -> io::Result<String> {
    let name = name_text(&order.name)?;
    let owner = name_text(&order.owner)?;
    let queue = name_text(&order.queue)?;
    let cpu = limit_line(rt, "cpu", order.limits.cpu)?;
    let memory = limit_line(rt, "memory", order.limits.memory)?;
    Ok(format!(in rt.alloc(); "name {name}\nowner {owner}\nqueue {queue}\n{cpu}{memory}")?)
}

// The value of the first line with this key.
fn value_of<'a>(text: &'a str, key: &str) -> Option<&'a str> {
    for line in text.lines() {
        if let Some((found, value)) = line.split_once(' ') {
            if found == key {
                return Some(value);
            }
        }
    }
    None
}

fn invalid() -> io::Error {
    io::Error::from(ErrorKind::InvalidData)
}

fn limit_of(text: &str, key: &str) -> io::Result<Option<u64>> {
    match value_of(text, key) {
        Some(value) => match read_u64(value.as_bytes()) {
            Ok(limit) => Ok(Some(limit)),
            Err(_) => Err(invalid()),
        },
        None => Ok(None),
    }
}

/// The order of the file with this text.
pub(crate) fn read_order(text: &str) -> io::Result<JobOrder<'_>> {
    let (Some(owner), Some(queue)) = (value_of(text, "owner"), value_of(text, "queue")) else {
        return Err(invalid());
    };
    Ok(JobOrder {
        owner,
        queue,
        cpu: limit_of(text, "cpu")?,
        memory: limit_of(text, "memory")?,
    })
}
