//! The site file: which hosts there are, and where.
//!
//! One line for each host, in the site's order: its name, its address as four numbers with dots,
//! and its port, parted by single spaces; each line ends with a line feed. There are 1 to 16 hosts
//! with distinct names.

ghost use Rattle.std.specs.Prelude.{◌≡◌, ◌≤◌, length, map, IfOk};

use nqs_base::{Memory, Name, NameList};
use nqs_text::read_u64;
use std::alloc::{AllocError, Global};
use std::net::Ipv4Addr;

/// A host of the site: its name, and the address and port of its daemon.
#[derive(Clone, Copy, PartialEq, Eq)]
pub struct SiteHost {
    pub name: Name,
    pub address: Ipv4Addr,
    pub port: u16,
}

/// Why a site can't be read.
#[derive(Debug, PartialEq, Eq, Drop)]
pub enum SiteFault {
    /// This line, counted from 1, isn't that of a host more: it has another form, names a host a
    /// second time, is a 17th, or ends without a line feed.
    Line(u64),
    Memory(Memory),
}

impl From<Memory> for SiteFault {
    fn from(memory: Memory) -> SiteFault {
        SiteFault::Memory(memory)
    }
}

fn read_port(word: &[u8]) -> Option<u16> {
    let number = read_u64(word).ok()?;
    u16::try_from(number).ok().filter(|port| *port > 0)
}

fn read_host(line: &[u8]) -> Option<SiteHost> {
    let mut words = line.split(|byte| *byte == b' ');
    let name = Name::read(words.next()?).ok()?;
    let address = Ipv4Addr::parse_ascii(words.next()?).ok()?;
    let port = read_port(words.next()?)?;
    match words.next() {
        Some(_) => None,
        None => Some(SiteHost {
            name,
            address,
            port,
        }),
    }
}

fn has_name(site: &[SiteHost], name: &Name) -> bool {
    site.iter().any(|host| host.name == *name)
}

// The number of the last line, where the bytes end within it.
fn last_line(bytes: &[u8]) -> u64 {
    let ended = bytes.iter().filter(|byte| **byte == b'\n').count();
    (ended as u64).saturating_add(1)
}

/// The hosts of a site file.
pub fn read_site(alloc: Global, bytes: &[u8]) -> Result<Vec<SiteHost>, SiteFault>
    ensures { IfOk result (λ site. (1 ≤ length site.items) × (length site.items ≤ 16)) }
{
    let mut site = Vec::new(alloc);
    let Some((b'\n', lines)) = bytes.split_last() else {
        return Err(SiteFault::Line(last_line(bytes)));
    };
    let mut number = 0u64;
    for line in lines.split(|byte| *byte == b'\n') {
        number = number.saturating_add(1);
        let Some(host) = read_host(line) else {
            return Err(SiteFault::Line(number));
        };
        if site.len() == 16 || has_name(&site, &host.name) {
            return Err(SiteFault::Line(number));
        }
        site.push(host).map_err(Memory::from)?;
    }
    if site.is_empty() {
        return Err(SiteFault::Line(1));
    }
    Ok(site)
}

/// The names of the hosts, in the site's order.
pub fn names_of(alloc: Global, site: &[SiteHost]) -> Result<NameList, AllocError>
    ensures { IfOk result (λ names. names ≡ map (λ host. host.name) site.now) }
{
    let mut names = NameList::new(alloc);
    for host in site {
        names.push(host.name)?;
    }
    Ok(names)
}
