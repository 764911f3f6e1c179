//! What is left of jobs, over processes of the real system: who is ended, and who is left alone.

use crate::real::{HOST, fresh_folder, site_of_alpha};
use nqs_real::{Mark, RunsAs, ShepherdLauncher, SiteHost, end_job, is_marked};
use std::alloc::AllocError;
use std::os::unix::process::ExitStatusExt;
use std::process::{Child, Command};
use std::rt::HostRuntime;
use std::test::Fail;
use std::time::Duration;
use std::{env, fs, io, thread};

// An environment, whether it is that of a process of the job `/s/a/jobs/1.a.1`, and whether that of
// one of a job in `/s/a/jobs`.
static ENVIRONMENTS: [(&[u8], bool, bool); 15] = [
    (b"NQS_JOB=/s/a/jobs/1.a.1\0", true, true),
    (b"NQS_JOB=/s/a/jobs/1.a.1", true, true),
    (b"A=b\0NQS_JOB=/s/a/jobs/1.a.1\0C=d\0", true, true),
    (b"NQS_JOB=/x\0NQS_JOB=/s/a/jobs/1.a.1\0", true, true),
    (b"NQS_JOB=/s/a/jobs/1.a.12\0", false, true),
    (b"NQS_JOB=/s/a/jobs/1.a.1/b\0", false, true),
    (b"NQS_JOB=/s/a/jobs/\0", false, true),
    (b"NQS_JOB=/s/a/jobs\0", false, false),
    (b"NQS_JOB=/s/a/jobs2/1.a.1\0", false, false),
    (b"NQS_JOB=/s/b/jobs/1.a.1\0", false, false),
    (b"NQS_JOB=/r/s/a/jobs/1.a.1\0", false, false),
    (b"NQS_JOBS=/s/a/jobs/1.a.1\0", false, false),
    (b"A=NQS_JOB=/s/a/jobs/1.a.1\0", false, false),
    (b"A= NQS_JOB=/s/a/jobs/1.a.1\n\0", false, false),
    (b"", false, false),
];

// The first environment for which that is told otherwise.
fn wrong_entry(job: &Mark, jobs: &Mark) -> Option<usize> {
    for (place, row) in ENVIRONMENTS.iter().enumerate() {
        let found = [is_marked(row.0, job), is_marked(row.0, jobs)];
        if found != [row.1, row.2] {
            return Some(place);
        }
    }
    None
}

#[test]
fn an_entry_is_the_mark(rt: HostRuntime) -> Result<(), Fail> {
    let job = Mark::Is(String::from_str(rt.alloc(), "NQS_JOB=/s/a/jobs/1.a.1")?);
    let jobs = Mark::Begins(String::from_str(rt.alloc(), "NQS_JOB=/s/a/jobs/")?);
    let wrong = wrong_entry(&job, &jobs);
    drop(job);
    drop(jobs);
    assert_eq!(rt; wrong, None);
    Ok(())
}

// Sleeping processes, each with a variable, and a value that has this in front of the path of the
// folder `jobs` and that behind it. The first is of the job 1.alpha.1, the second of another job of
// the host, the others of none.
static SLEEPERS: [(&str, &str, &str); 6] = [
    ("NQS_JOB", "", "/1.alpha.1"),
    ("NQS_JOB", "", "/1.alpha.12"),
    ("NQS_JOB", "", "2/1.alpha.1"),
    ("NQS_JOB", "/beta", "/1.alpha.1"),
    ("TEXT", "NQS_JOB=", "/1.alpha.1"),
    ("TEXT", "", "/1.alpha.1"),
];

fn start_sleepers(rt: &HostRuntime, jobs: &str) -> io::Result<Vec<Child>> {
    let mut sleepers = Vec::new(rt.alloc());
    for (key, front, rest) in &SLEEPERS {
        let mut command = Command::new(rt.alloc(), "sleep")?;
        command.arg("60")?;
        command.env(*key, &format!(in rt.alloc(); "{front}{jobs}{rest}")?)?;
        let child = command.spawn(rt)?;
        sleepers.push(child).map_err(AllocError::from)?;
    }
    Ok(sleepers)
}

// Is it killed, or does it live?
fn fate(child: &mut Child) -> io::Result<u8> {
    Ok(match child.try_wait()? {
        Some(status) if status.signal() == Some(9) => b'k',
        Some(_) => b'?',
        None => b'l',
    })
}

// Whether they have these fates, in order.
fn have_fates(rt: &HostRuntime, sleepers: &mut Vec<Child>, letters: &[u8; 6]) -> io::Result<bool> {
    thread::sleep(rt, Duration::from_millis(100));
    let mut found = [b' '; 6];
    for (place, child) in sleepers.iter_mut().enumerate() {
        let letter = fate(child)?;
        if place < 6 {
            found[place] = letter;
        }
    }
    Ok(found == *letters)
}

// A job ends, and then a daemon starts.
fn end_some(
    rt: &HostRuntime,
    dir: &str,
    site: &[SiteHost],
    jobs: &str,
    sleepers: &mut Vec<Child>,
) -> io::Result<[bool; 2]> {
    end_job(rt, &format!(in rt.alloc(); "{jobs}/1.alpha.1")?)?;
    let first = have_fates(rt, sleepers, b"klllll")?;
    drop(ShepherdLauncher::open(*rt, "/bin/true", dir, site, HOST, RunsAs::Daemon)?);
    Ok([first, have_fates(rt, sleepers, b"kkllll")?])
}

fn end_all(sleepers: &mut Vec<Child>) -> io::Result<()> {
    for child in sleepers.iter_mut() {
        child.kill()?;
        child.wait()?;
    }
    Ok(())
}

// The folder of the jobs of alpha, whose own folder is made.
fn jobs_of_alpha(rt: &HostRuntime, dir: &str) -> io::Result<String> {
    fs::create_dir(rt, &format!(in rt.alloc(); "{dir}/alpha")?)?;
    let here = env::current_dir(rt)?;
    Ok(format!(in rt.alloc(); "{}/{dir}/alpha/jobs", here.as_str())?)
}

fn start_and_end(
    rt: &HostRuntime,
    dir: &str,
    site: &[SiteHost],
    jobs: &str,
) -> io::Result<[bool; 2]> {
    let mut sleepers = start_sleepers(rt, jobs)?;
    let ended = end_some(rt, dir, site, jobs, &mut sleepers);
    end_all(&mut sleepers)?;
    ended
}

fn ends_in(rt: &HostRuntime, dir: &str, site: &[SiteHost]) -> io::Result<[bool; 2]> {
    let jobs = jobs_of_alpha(rt, dir)?;
    start_and_end(rt, dir, site, &jobs)
}

fn ends_in_folder(rt: &HostRuntime, site: &[SiteHost]) -> io::Result<[bool; 2]> {
    let dir = fresh_folder(rt, "left")?;
    let ended = ends_in(rt, &dir, site);
    fs::remove_dir_all(rt, &dir)?;
    ended
}

#[test]
fn processes_of_jobs_end(rt: HostRuntime) -> Result<(), Fail> {
    let site = site_of_alpha(&rt)?;
    let ended = ends_in_folder(&rt, &site);
    drop(site);
    assert_eq!(rt; ended?, [true; 2]);
    Ok(())
}
