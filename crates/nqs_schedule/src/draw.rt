//! Schedules that a seed gives. Each host has a pipe queue to the next one; then events are drawn,
//! one word of the generator for each; at last every host is booted and the table is shown.
//! specs/Generated.antt has it.

ghost use Rattle.std.specs.Prelude.{◌≡◌, ◌++◌, ◌%◌, ◌<◌, ◌≤◌, codes, OnOk, IfOk};
ghost use Rattle.nqs_schedule.specs.Generated.{host_name, root_line, qsub, link_line, set_up, for_hosts, piped, submitted_once, stopped, choice, drawn};
ghost use Rattle.nqs_schedule.specs.Generated.{drawn_from, generator_of, booted, generated, generated_site};

use crate::reader::Schedule;
use nqs_base::{Bytes, Items, Memory, Name, NameList, bytes_of};
use nqs_query::{put_decimal, put_text};
use nqs_text::digits;
use nqs_types::{HostId, WorldEvent, root};
use nqs_words::name_of;
use rand_core::SeedableRng;
use rand_core::utils::NextWord;
use rand_pcg::Lcg64Xsh32;
use std::alloc::Global;

fn user() -> Name
    ensures { result ≡ codes "u" }
{
    match Name::read(b"u") {
        Ok(name) => name,
        Err(_) => unreachable!(),
    }
}

fn put_host_name(alloc: Global, place: u8, out: &mut Vec<u8>) -> Result<(), Memory>
    ensures { OnOk result (out.new.items ≡ out.old.items ++ host_name place) }
{
    put_text(b"h", out)?;
    put_decimal(alloc, u64::from(place), out)
}

fn link_line(alloc: Global, place: u8) -> Result<Bytes, Memory>
    ensures { IfOk result (λ text. text ≡ link_line place) }
{
    let mut text = Vec::new(alloc);
    put_text(b"create pipe_queue link destination=batch@", &mut text)?;
    put_host_name(alloc, place, &mut text)?;
    Ok(Bytes::from_vec(text))
}

fn root_line(host: u8, text: Bytes) -> WorldEvent
    ensures { result ≡ root_line host text }
{
    WorldEvent::Qmgr {
        host: HostId(host),
        user: root(),
        text,
    }
}

// Adds the lines that set up a host.
fn add_set_up(
    alloc: Global,
    hosts: u8,
    host: u8,
    events: &mut Items<WorldEvent>,
) -> Result<(), Memory>
    requires some { host < hosts }
    requires few { hosts ≤ 16 }
    ensures { OnOk result (events.new ≡ events.old ++ set_up hosts host) }
{
    events.push(root_line(host, link_line(alloc, (host + 1) % hosts)?))?;
    events.push(root_line(host, bytes_of(alloc, b"enable queue link")?))?;
    events.push(root_line(host, bytes_of(alloc, b"start queue link")?))?;
    events.push(root_line(host, bytes_of(alloc, b"start queue batch")?))?;
    Ok(())
}

fn qsub(host: u8, words: Items<Bytes>, alloc: Global) -> WorldEvent
    ensures { result ≡ qsub host words }
{
    WorldEvent::Qsub {
        host: HostId(host),
        user: user(),
        script: Bytes::new(alloc),
        words,
    }
}

// A submission to the pipe queue.
fn piped(alloc: Global, host: u8, word: u32) -> Result<WorldEvent, Memory>
    ensures { IfOk result (λ e. e ≡ piped host word) }
{
    let mut words = Items::new(alloc);
    words.push(bytes_of(alloc, b"-q")?)?;
    words.push(bytes_of(alloc, b"link")?)?;
    words.push(bytes_of(alloc, b"-p")?)?;
    words.push(digits(alloc, u64::from(word / 4096 % 64))?)?;
    Ok(qsub(host, words, alloc))
}

// A submission that isn't started again.
fn submitted_once(alloc: Global, host: u8) -> Result<WorldEvent, Memory>
    ensures { IfOk result (λ e. e ≡ submitted_once host) }
{
    let mut words = Items::new(alloc);
    words.push(bytes_of(alloc, b"-nr")?)?;
    Ok(qsub(host, words, alloc))
}

fn stopped(host: u8, word: u32) -> WorldEvent
    ensures { result ≡ stopped host word }
{
    if word / 65_536 % 4 == 0 {
        return WorldEvent::Crash { host: HostId(host) };
    }
    WorldEvent::Boot { host: HostId(host) }
}

// The event of a number from 0 to 15, at a host and the next one.
fn choice(alloc: Global, k: u32, word: u32, one: u8, next: u8) -> Result<WorldEvent, Memory>
    ensures { IfOk result (λ e. e ≡ choice k (word % 16) word one next) }
{
    let kind = word % 16;
    if kind < 4 {
        return piped(alloc, one, word);
    }
    if kind == 4 {
        return submitted_once(alloc, one);
    }
    if kind < 11 {
        return Ok(WorldEvent::Newest {
            one: HostId(one),
            other: HostId(next),
        });
    }
    if kind == 11 {
        return Ok(WorldEvent::Tick { host: HostId(one) });
    }
    if kind == 12 {
        return Ok(WorldEvent::Finish { host: HostId(one) });
    }
    if kind == 13 {
        return Ok(stopped(one, word));
    }
    if kind == 14 {
        return Ok(WorldEvent::Boot { host: HostId(one) });
    }
    Ok(WorldEvent::Clock {
        moment: 30 * u64::from(k),
    })
}

// The k-th event, by its word.
#[tactic(auto, unfolding(crate::specs::Generated::drawn))]
fn drawn(alloc: Global, hosts: u8, k: u32, word: u32) -> Result<WorldEvent, Memory>
    requires some { 0 < hosts }
    requires few { hosts ≤ 16 }
    ensures { IfOk result (λ e. e ≡ drawn hosts k word) }
{
    let one = (word / 16 % u32::from(hosts)) as u8;
    choice(alloc, k, word, one, (one + 1) % hosts)
}

fn add_set_ups(alloc: Global, hosts: u8, events: &mut Items<WorldEvent>) -> Result<(), Memory>
    requires { hosts ≤ 16 }
    ensures { OnOk result (events.new ≡ events.old ++ for_hosts (set_up hosts) hosts) }
{
    for host in 0..hosts {
        add_set_up(alloc, hosts, host, events)?;
    }
    Ok(())
}

fn add_boots(hosts: u8, events: &mut Items<WorldEvent>) -> Result<(), Memory>
    ensures { OnOk result (events.new ≡ events.old ++ for_hosts booted hosts) }
{
    for host in 0..hosts {
        events.push(WorldEvent::Boot { host: HostId(host) })?;
    }
    Ok(())
}

fn add_drawn(
    alloc: Global,
    seed: u64,
    hosts: u8,
    count: u32,
    events: &mut Items<WorldEvent>,
) -> Result<(), Memory>
    requires some { 0 < hosts }
    requires few { hosts ≤ 16 }
    ensures { OnOk result (events.new ≡ events.old ++ drawn_from hosts 1 (generator_of seed) count) }
{
    let mut generator = Lcg64Xsh32::seed_from_u64(seed);
    for i in 0..count {
        let word = generator.next_word();
        events.push(drawn(alloc, hosts, i + 1, word)?)?;
    }
    Ok(())
}

fn name_of_host(alloc: Global, place: u8) -> Result<Name, Memory>
    requires { place < 16 }
    ensures { IfOk result (λ name. name ≡ host_name place) }
{
    let mut text = Vec::new(alloc);
    put_host_name(alloc, place, &mut text)?;
    let Some(name) = name_of(text.as_slice()) else {
        unreachable!();
    };
    Ok(name)
}

fn site_of(alloc: Global, hosts: u8) -> Result<NameList, Memory>
    requires { hosts ≤ 16 }
    ensures { IfOk result (λ site. site ≡ generated_site hosts) }
{
    let mut site = Vec::new(alloc);
    for host in 0..hosts {
        site.push(name_of_host(alloc, host)?)?;
    }
    Ok(NameList::from_vec(site))
}

/// The schedule that a seed gives on so many hosts, with so many events drawn.
#[tactic(auto, unfolding(crate::specs::Generated::generated))]
pub fn generate(alloc: Global, seed: u64, hosts: u8, events: u32) -> Result<Schedule, Memory>
    requires some { 0 < hosts }
    requires few { hosts ≤ 16 }
    ensures site { IfOk result (λ s. s.site ≡ generated_site hosts) }
    ensures events { IfOk result (λ s. s.events ≡ generated seed hosts events) }
{
    let site = site_of(alloc, hosts)?;
    let mut all = Items::new(alloc);
    add_set_ups(alloc, hosts, &mut all)?;
    add_drawn(alloc, seed, hosts, events, &mut all)?;
    add_boots(hosts, &mut all)?;
    all.push(WorldEvent::Show)?;
    Ok(Schedule { site, events: all })
}
