//! The runner: a shell that runs a job's script in a session of its own.

ghost use Rattle.std.specs.Prelude.{◌≡◌, None, IfOk, option_map};
ghost use Rattle.nqs_real.specs.Accounts.{IsUser, IsUsable};
ghost use Rattle.nqs_real.specs.Owners.{IsAllowed, MayStart};

use crate::counted::counted;
use crate::directory::{Found, Owner, find_owner};
use crate::ended::{forget_start, has_started, keep_end, kept_end, note_start};
use crate::environment::{set_environment, set_owners_environment};
use crate::folder::{host_text, jobs_path, make_folder, make_host_folder, path_in, request_text};
use crate::launcher::job_name;
use crate::leftovers::{end_job, put_mark};
use crate::limits::{add_limits, shell_starts};
use crate::order::{JobOrder, read_order};
use crate::outputs::{cut_outputs, end_with, make_output};
use crate::owners::RunsAs;
use crate::program::{add_words, end_session};
use crate::shortage::{Waits, is_shortage};
use crate::site::SiteHost;
use nqs_outside::{Failed, RunEnd, Runner};
use nqs_types::{HostId, RequestId};
use std::io::ErrorKind;
use std::os::unix::fs::chown;
use std::os::unix::process::ExitStatusExt;
use std::process::{Child, Command, ExitStatus, Stdio};
use std::rt::HostRuntime;
use std::{fs, io};

/// The first wait between two looks, in milliseconds; each is twice the one before.
const FIRST_WAIT: u64 = 1;

/// The longest wait between two looks, in milliseconds.
const LAST_WAIT: u64 = 20;

/// The longest wait between two looks at a job that was killed and goes on, in milliseconds: a
/// minute.
const KILLED_WAIT: u64 = 60_000;

/// How often the kill of a job's session is tried that a shortage keeps back, in about a second.
const KILLS: u32 = 10;

/// The status of a job that was not run.
const NOT_RUN: u8 = 127;

/// The status of a job whose owner is nobody as whom it may run.
const NOT_ITS_OWN: u8 = 126;

/// The status of a job that SIGKILL ended.
const KILLED: u8 = 137;

/// Reads the script as `sh FILE` does, with no rights for others on the files that it makes. Where
/// the system wants memory it ends the job before the daemon.
const SHELL: &str = "{ echo 500 >/proc/self/oom_score_adj; } 2>/dev/null; umask 077; . \"$0\"";

/// The same in the home of the job's owner, or in the root folder where he can't go there.
const OWNERS_SHELL: &str =
    "{ echo 500 >/proc/self/oom_score_adj; } 2>/dev/null; umask 077; cd \"$HOME\" 2>/dev/null || cd /; . \"$0\"";

/// What a job's owner has of its folder.
const OWNED: [&str; 3] = ["script", "out", "err"];

/// What the error output says of a job of root's, at a site whose jobs run as their owners.
const OF_ROOT: &str = "nqs: jobs of root aren't run\n";

/// What the error output says of a job whose shepherd ended before it.
const LOST: &str = "nqs: the job's shepherd was lost, and what was left of the job was ended\n";

/// What it says of a job whose limit of memory no shell starts with.
const NO_MEMORY: &str = "nqs: /bin/sh can't start with so little memory\n";

/// Runs the script of a job by `/bin/sh`, in a session of its own, looks every 1 to 20 milliseconds
/// whether it has ended or is to be killed, and then ends what is left of the job. How it ended is
/// kept in the job's folder: who runs it again is told that. At a site whose jobs run as their
/// owners, one whose owner this machine doesn't know, or is root, isn't run. Trusted: the programs
/// `setpriv`, `setsid`, `prlimit`, `sh`, `kill`, `pkill`, `timeout` and `getent`, and that no job
/// changes the files of the folder `jobs`, of which one that runs as its owner can change only its
/// own `script`, `out` and `err`.
#[derive(Drop)]
pub struct ShellRunner {
    rt: HostRuntime,
    dir: String,
    jobs: String,
    work: String,
    host: HostId,
    site: Vec<SiteHost>,
    runs_as: RunsAs,
    faults: u64,
}

// A start of a request: its job, whose folder has this name and this path.
#[derive(Drop)]
struct Job {
    id: RequestId,
    start: u16,
    name: String,
    place: String,
}

// As whom a job runs: as this process's user, as its owner, or not at all, for a cause that its
// error output says.
#[derive(Drop)]
enum User {
    Own,
    Owner(Owner),
    Refused(String),
}

// What came of a start.
#[derive(Drop)]
enum Begun {
    Runs(Child),
    Refused(String),
}

// The exit status, or 128 and the number of the signal that ended it.
fn status_number(status: ExitStatus) -> u8 {
    match (status.code(), status.signal()) {
        (Some(code), _) => u8::try_from(code).unwrap_or(u8::MAX),
        (None, Some(signal)) => u8::try_from(signal).unwrap_or(u8::MAX).saturating_add(128),
        (None, None) => u8::MAX,
    }
}

// Ends the job's session, and the process that leads it. What a shortage keeps back is tried again
// for about a second.
fn end_by_session(rt: &HostRuntime, child: &mut Child) {
    let _ = child.kill();
    let mut waits = Waits::of_shortage();
    for _ in 0..KILLS {
        match end_session(rt, child.id()) {
            Err(e) if is_shortage(&e) => waits.wait_shortage(rt),
            _ => return,
        }
    }
}

// How the job ended, which is ended where this file is there. One that outlives the last look is an
// `Err`.
fn watch_until(
    rt: &HostRuntime,
    child: &mut Child,
    place: &str,
    kill: &str,
) -> io::Result<ExitStatus> {
    let mut waits = Waits::new(FIRST_WAIT);
    let mut longest = LAST_WAIT;
    for _ in 0..u32::MAX {
        if let Some(status) = child.try_wait()? {
            return Ok(status);
        }
        if fs::exists(rt, kill).unwrap_or(false) {
            end_by_session(rt, child);
            longest = KILLED_WAIT;
        }
        let _ = cut_outputs(rt, place);
        waits.wait(rt, longest);
    }
    Err(io::Error::from(ErrorKind::TimedOut))
}

fn watch(rt: &HostRuntime, child: &mut Child, place: &str) -> io::Result<ExitStatus> {
    let kill = path_in(rt, place, "kill")?;
    watch_until(rt, child, place, &kill)
}

// Ends what is found of the job, in its session or in another.
fn end_all(rt: &HostRuntime, child: &mut Child, place: &str) {
    end_by_session(rt, child);
    let _ = child.wait();
    let _ = end_job(rt, place);
}

// Whatever comes, what is found of the job is ended.
fn finish(rt: &HostRuntime, child: &mut Child, place: &str) -> io::Result<ExitStatus> {
    let ended = watch(rt, child, place);
    end_all(rt, child, place);
    ended
}

// Is the job in this folder to be killed?
fn is_killed(rt: &HostRuntime, place: &str) -> io::Result<bool> {
    let path = path_in(rt, place, "kill")?;
    fs::exists(rt, &path)
}

// The text of the job's order.
fn read_text(rt: &HostRuntime, place: &str) -> io::Result<String> {
    let path = path_in(rt, place, "order")?;
    fs::read_to_string(rt, &path)
}

// The job's limit of memory, in bytes.
fn memory_of(rt: &HostRuntime, place: &str) -> io::Result<Option<u64>> {
    let text = read_text(rt, place)?;
    Ok(read_order(&text)?.memory)
}

// Is the limit of memory of the job in this folder too small for a shell?
fn lacks_memory(rt: &HostRuntime, place: &str) -> io::Result<bool> {
    match memory_of(rt, place)? {
        Some(bytes) => Ok(!shell_starts(rt, bytes)?),
        None => Ok(false),
    }
}

// How the job ended, by its status. Where a signal ended it before it wrote anything, its limit of
// memory is looked at.
fn end_by(rt: &HostRuntime, place: &str, status: ExitStatus) -> io::Result<RunEnd> {
    let end = end_with(rt, place, status_number(status), "")?;
    let is_silent = end.out.len() == 0 && end.err.len() == 0;
    if is_silent && status.signal().is_some() && lacks_memory(rt, place).unwrap_or(false) {
        return end_with(rt, place, end.status, NO_MEMORY);
    }
    Ok(end)
}

// The same. Where a shortage keeps it from being read, it is tried again.
fn end_patiently(rt: &HostRuntime, place: &str, status: ExitStatus) -> io::Result<RunEnd> {
    let mut waits = Waits::of_shortage();
    for _ in 0..u32::MAX {
        match end_by(rt, place, status) {
            Err(e) if is_shortage(&e) => waits.wait_shortage(rt),
            made => return made,
        }
    }
    Err(io::Error::from(ErrorKind::TimedOut))
}

// The end of a job that can't be started.
fn end_of_failed(rt: &HostRuntime, place: &str, cause: &io::Error) -> io::Result<RunEnd> {
    let text = format!(in rt.alloc(); "nqs: the job can't be started: {cause}\n")?;
    end_with(rt, place, NOT_RUN, &text)
}

// The end of a job that was started, by a shepherd that isn't there any more.
fn end_of_lost(rt: &HostRuntime, place: &str) -> io::Result<RunEnd> {
    end_job(rt, place)?;
    end_with(rt, place, NOT_RUN, LOST)
}

// Has a job's owner have its script and its outputs, which stand in a folder of root's.
fn give(rt: &HostRuntime, place: &str, user: &Owner) -> io::Result<()>
    requires { IsUser user.now }
{
    for name in OWNED {
        let path = path_in(rt, place, name)?;
        chown(rt, &path, Some(user.uid), Some(user.gid))?;
    }
    Ok(())
}

// Adds the words that have what follows run as this user.
fn add_user(rt: &HostRuntime, command: &mut Command, user: &Owner) -> io::Result<()>
    requires { IsUser user.now }
{
    let uid = format!(in rt.alloc(); "{}", user.uid)?;
    let gid = format!(in rt.alloc(); "{}", user.gid)?;
    let words = [
        "--reuid",
        uid.as_str(),
        "--regid",
        gid.as_str(),
        "--init-groups",
    ];
    add_words(command, &words)?;
    Ok(())
}

impl ShellRunner {
    /// The runner of a host's jobs, whose launcher made their folders, in the site's folder DIR.
    /// Jobs run in the folder `work` of the host's folder, which is made where it isn't there;
    /// those that run as their owners, in his home.
    pub fn open(
        rt: HostRuntime,
        dir: &str,
        site: &[SiteHost],
        host: HostId,
        runs_as: RunsAs,
    ) -> io::Result<ShellRunner>
        ensures { IfOk result (λ runner. runner.faults ≡ 0) }
    {
        let folder = make_host_folder(&rt, dir, site, host)?;
        Ok(ShellRunner {
            rt,
            dir: String::from_str(rt.alloc(), dir)?,
            jobs: jobs_path(&rt, &folder)?,
            work: make_folder(&rt, &folder, "work")?,
            host,
            site: site.to_vec(rt.alloc())?,
            runs_as,
            faults: 0,
        })
    }

    // What the error output says of a job whose owner the host doesn't know.
    fn unknown_text(&self, owner: &str) -> io::Result<String> {
        let host = host_text(&self.site, self.host)?;
        Ok(format!(in self.rt.alloc(); "nqs: {host} has no user {owner}\n")?)
    }

    // As whom the jobs of this owner run, where they run as he.
    fn user_in(&self, found: Found, owner: &str) -> io::Result<User>
        requires found { IsUsable found }
        requires owners { self.now.runs_as ≡ RunsAs.Owners }
        ensures { IfOk result (IsAllowed self.now.runs_as) }
    {
        match found {
            Found::User(user) => Ok(User::Owner(user)),
            Found::Root => Ok(User::Refused(String::from_str(self.rt.alloc(), OF_ROOT)?)),
            Found::Nobody => Ok(User::Refused(self.unknown_text(owner)?)),
        }
    }

    // As whom the jobs of this owner run.
    fn user_of(&self, owner: &str) -> io::Result<User>
        ensures { IfOk result (IsAllowed self.now.runs_as) }
    {
        match self.runs_as {
            RunsAs::Daemon => Ok(User::Own),
            RunsAs::Owners => self.user_in(find_owner(&self.rt, owner)?, owner),
        }
    }

    // The words of a shell in the folder `work`, as this process's user, without a right of its own
    // that a unit gave the daemon, as that to a port.
    fn add_shell(&self, command: &mut Command, job: &Job, order: &JobOrder) -> io::Result<()> {
        add_words(command, &["--pdeathsig", "KILL"])?;
        add_words(
            command,
            &["--inh-caps=-all", "--ambient-caps=-all", "setsid"],
        )?;
        add_limits(&self.rt, command, order)?;
        let script = format!(in self.rt.alloc(); "../jobs/{}/script", job.name)?;
        add_words(command, &["/bin/sh", "-c", SHELL, script.as_str()])?;
        command.current_dir(&self.work)?;
        Ok(())
    }

    // The words of a shell in the home of the job's owner, as he. One `setpriv` does both: a change
    // of user would take the signal away.
    fn add_owners_shell(
        &self,
        command: &mut Command,
        job: &Job,
        order: &JobOrder,
        user: &Owner,
    ) -> io::Result<()>
        requires { IsUser user.now }
    {
        add_words(command, &["--pdeathsig", "KILL"])?;
        add_user(&self.rt, command, user)?;
        command.arg("setsid")?;
        add_limits(&self.rt, command, order)?;
        let script = path_in(&self.rt, &job.place, "script")?;
        add_words(command, &["/bin/sh", "-c", OWNERS_SHELL, script.as_str()])?;
        command.current_dir("/")?;
        Ok(())
    }

    fn set_names(&self, command: &mut Command, job: &Job, order: &JobOrder) -> io::Result<()> {
        let start = job.start;
        command.env("NQS_REQUEST", request_text(&self.rt, &self.site, job.id)?)?;
        command.env("NQS_START", format!(in self.rt.alloc(); "{start}")?)?;
        command.env("NQS_HOST", host_text(&self.site, self.host)?)?;
        command.env("NQS_QUEUE", order.queue)?;
        command.env("NQS_USER", order.owner)?;
        put_mark(command, &job.place)?;
        Ok(())
    }

    // Makes a command, which has no words yet, that of the job by its order, for its owner if there
    // is one.
    fn add_order(
        &self,
        command: &mut Command,
        job: &Job,
        order: &JobOrder,
        owner: Option<&Owner>,
    ) -> io::Result<()>
        requires { MayStart self.now.runs_as (option_map (λ user. user.now) owner) }
    {
        match owner {
            None => {
                set_environment(&self.rt, command, &self.dir)?;
                self.add_shell(command, job, order)?;
            }
            Some(user) => {
                set_owners_environment(&self.rt, command, &self.dir, order.owner, user)?;
                self.add_owners_shell(command, job, order, user)?;
            }
        }
        self.set_names(command, job, order)
    }

    fn spawn(&self, command: &mut Command, job: &Job, owner: Option<&Owner>) -> io::Result<Child>
        requires { MayStart self.now.runs_as (option_map (λ user. user.now) owner) }
    {
        command.stdout(make_output(&self.rt, &job.place, "out")?);
        command.stderr(make_output(&self.rt, &job.place, "err")?);
        if let Some(user) = owner {
            give(&self.rt, &job.place, user)?;
        }
        command.stdin(Stdio::null()).spawn(&self.rt)
    }

    // Starts the job by this command, which has no words yet.
    fn spawn_by(
        &self,
        command: &mut Command,
        job: &Job,
        order: &JobOrder,
        owner: Option<&Owner>,
    ) -> io::Result<Begun>
        requires { MayStart self.now.runs_as (option_map (λ user. user.now) owner) }
    {
        self.add_order(command, job, order, owner)?;
        Ok(Begun::Runs(self.spawn(command, job, owner)?))
    }

    fn spawn_as(&self, job: &Job, order: &JobOrder, owner: Option<&Owner>) -> io::Result<Begun>
        requires { MayStart self.now.runs_as (option_map (λ user. user.now) owner) }
    {
        let mut command = Command::new(self.rt.alloc(), "setpriv")?;
        self.spawn_by(&mut command, job, order, owner)
    }

    fn begin_order(&self, job: &Job, order: &JobOrder) -> io::Result<Begun> {
        match self.user_of(order.owner)? {
            User::Own => self.spawn_as(job, order, None),
            User::Owner(user) => self.spawn_as(job, order, Some(&user)),
            User::Refused(text) => Ok(Begun::Refused(text)),
        }
    }

    fn begin(&self, job: &Job) -> io::Result<Begun> {
        let text = read_text(&self.rt, &job.place)?;
        let order = read_order(&text)?;
        self.begin_order(job, &order)
    }

    // Starts the job, whose start is noted, and runs it to its end. A start that a shortage keeps
    // back is forgotten.
    fn run_noted(&self, job: &Job) -> io::Result<RunEnd> {
        let rt = &self.rt;
        match self.begin(job) {
            Ok(Begun::Refused(text)) => end_with(rt, &job.place, NOT_ITS_OWN, &text),
            Ok(Begun::Runs(mut child)) => {
                let status = finish(rt, &mut child, &job.place)?;
                end_patiently(rt, &job.place, status)
            }
            Err(e) if is_shortage(&e) => {
                forget_start(rt, &job.place)?;
                Err(e)
            }
            Err(e) => end_of_failed(rt, &job.place, &e),
        }
    }

    // Runs a job that has not been started yet, unless it was killed.
    fn run_new(&self, job: &Job) -> io::Result<RunEnd> {
        let is_killed = is_killed(&self.rt, &job.place)?;
        note_start(&self.rt, &job.place)?;
        if is_killed {
            end_with(&self.rt, &job.place, KILLED, "")
        } else {
            self.run_noted(job)
        }
    }

    // How the job ended: as it is kept, or as it ends now, which is kept then.
    fn end_of(&self, job: &Job) -> io::Result<RunEnd> {
        let rt = &self.rt;
        if let Some(end) = kept_end(rt, &job.place)? {
            return Ok(end);
        }
        let end = if has_started(rt, &job.place)? {
            end_of_lost(rt, &job.place)?
        } else {
            self.run_new(job)?
        };
        let _ = keep_end(rt, &job.place, &end);
        Ok(end)
    }

    // The same. What a shortage keeps back is tried again, until the job is started or killed.
    fn run_patiently(&self, job: &Job) -> io::Result<RunEnd> {
        let mut waits = Waits::of_shortage();
        for _ in 0..u32::MAX {
            match self.end_of(job) {
                Err(e) if is_shortage(&e) => waits.wait_shortage(&self.rt),
                made => return made,
            }
        }
        Err(io::Error::from(ErrorKind::TimedOut))
    }

    fn run_job(&self, id: RequestId, start: u16) -> io::Result<RunEnd> {
        let name = job_name(&self.rt, &self.site, id, start)?;
        let place = path_in(&self.rt, &self.jobs, &name)?;
        let job = Job {
            id,
            start,
            name,
            place,
        };
        self.run_patiently(&job)
    }
}

impl Runner for ShellRunner {
    ghost runs = { λ _. None };

    ghost faults = { λ runner. runner.faults };

    fn run(&mut self, id: RequestId, start: u16) -> Result<RunEnd, Failed> {
        let made = self.run_job(id, start);
        counted(made, &mut self.faults)
    }
}
