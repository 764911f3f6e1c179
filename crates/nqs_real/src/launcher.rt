//! The launcher: a shell for each job, which starts a process of this very program, the job's
//! shepherd, and starts it again until the daemon knows the job's end.

ghost use Rattle.std.specs.Prelude.{◌≡◌, ◌++◌, None, IfOk, codes, string_bytes};
ghost use Rattle.nqs_real.specs.Names.{job_text};

use crate::counted::counted;
use crate::folder::{host_text, jobs_path, path_in, request_text, sync_folder};
use crate::kept::{KeptOrder, note_kill};
use crate::leftovers::{end_jobs, tell_left};
use crate::notices::{tell_failed, tell_kept, tell_launched};
use crate::order::order_text;
use crate::owners::RunsAs;
use crate::shortage::is_shortage;
use crate::site::SiteHost;
use crate::starter::{LaunchedJob, Starter, make_passed, write_kill};
use nqs_outside::{Failed, Launcher};
use nqs_types::{HostId, LaunchOrder, RequestId};
use std::alloc::AllocError;
use std::process::Child;
use std::rt::HostRuntime;
use std::{env, fs, io};

// The shell of a job, and the job.
#[derive(Drop)]
struct Shepherd {
    child: Child,
    job: LaunchedJob,
}

/// Starts a shell for each job, under `setpriv`, which has the system kill it as soon as the daemon
/// ends; the shell starts `PROGRAM shepherd DIR HOST SEQ.HOST START` likewise, until that has told
/// the job's end. Where there is no `setpriv` each launch fails; what a shortage of the system
/// keeps back is kept, and tried again when it is tended. What is left of the jobs of an earlier
/// daemon is ended before anything is launched. Trusted: that the program is still the one that
/// runs, and that a shepherd which was started runs its job.
#[derive(Drop)]
pub struct ShepherdLauncher {
    rt: HostRuntime,
    starter: Starter,
    site: Vec<SiteHost>,
    jobs: String,
    shepherds: Vec<Shepherd>,
    orders: Vec<KeptOrder>,
    kills: Vec<String>,
    faults: u64,
}

/// The path of the program that this process runs.
pub fn own_program(rt: &HostRuntime) -> io::Result<String> {
    Ok(env::current_exe(rt)?.into_string())
}

/// The folder of a job, by its name in the folder `jobs`.
pub(crate) fn job_name(
    rt: &HostRuntime,
    site: &[SiteHost],
    id: RequestId,
    start: u16,
) -> io::Result<String>
    ensures { IfOk result (λ name. string_bytes name ≡ job_text id start site.now) }
{
    let request = request_text(rt, site, id)?;
    Ok(format!(in rt.alloc(); "{request}.{start}")?)
}

// Ends what is left of jobs. Where that can't be done, says which processes are left.
fn end_all(rt: &HostRuntime, jobs: &str) -> io::Result<()> {
    let ended = end_jobs(rt, jobs);
    if ended.is_err() {
        let _ = tell_left(rt, jobs);
    }
    ended
}

// The folder of the jobs of a host, without what an earlier daemon left: processes of its jobs, and
// their files.
fn make_jobs(rt: &HostRuntime, folder: &str, runs_as: RunsAs) -> io::Result<String> {
    make_passed(rt, folder, runs_as)?;
    let jobs = jobs_path(rt, folder)?;
    end_all(rt, &jobs)?;
    let _ = fs::remove_dir_all(rt, &jobs);
    if make_passed(rt, &jobs, runs_as)? {
        sync_folder(rt, folder)?;
    }
    Ok(jobs)
}

// The same of a host of the site.
fn make_jobs_of(
    rt: &HostRuntime,
    dir: &str,
    site: &[SiteHost],
    host: HostId,
    runs_as: RunsAs,
) -> io::Result<String> {
    let folder = path_in(rt, dir, host_text(site, host)?)?;
    make_jobs(rt, &folder, runs_as)
}

// Has the job's end yet to be told? Where its shell has ended before, as one that was killed by
// hand, it is started again.
fn goes_on(starter: &Starter, shepherd: &mut Shepherd) -> bool {
    if matches!(shepherd.child.try_wait(), Ok(None)) {
        return true;
    }
    if !fs::exists(&starter.rt, &shepherd.job.place).unwrap_or(true) {
        return false;
    }
    if let Ok(child) = starter.start(&shepherd.job) {
        shepherd.child = child;
    }
    true
}

// Is there still a shortage that keeps back this kill?
fn is_kept_back(rt: &HostRuntime, place: &str) -> bool {
    match write_kill(rt, place) {
        Err(e) => is_shortage(&e),
        Ok(()) => false,
    }
}

fn starter_of(
    rt: HostRuntime,
    program: &str,
    dir: &str,
    site: &[SiteHost],
    host: HostId,
    runs_as: RunsAs,
) -> io::Result<Starter> {
    let alloc = rt.alloc();
    Ok(Starter {
        rt,
        program: String::from_str(alloc, program)?,
        dir: String::from_str(alloc, dir)?,
        host: String::from_str(alloc, host_text(site, host)?)?,
        runs_as,
    })
}

impl ShepherdLauncher {
    /// The launcher of a host's daemon, to be opened while the daemon has the host's lock. What is
    /// left of the host's jobs is ended. Where that can't be done in about a second and a half, it
    /// fails with `TimedOut`, and says on standard error what is left: else a job could run twice.
    /// Jobs have folders in the folder `jobs` of the host's folder, which is made anew. Where they
    /// run as their owners these are root's, and so is the host's folder; all may pass through
    /// them.
    pub fn open(
        rt: HostRuntime,
        program: &str,
        dir: &str,
        site: &[SiteHost],
        host: HostId,
        runs_as: RunsAs,
    ) -> io::Result<ShepherdLauncher>
        ensures { IfOk result (λ launcher. launcher.faults ≡ 0) }
    {
        let alloc = rt.alloc();
        let jobs = make_jobs_of(&rt, dir, site, host, runs_as)?;
        Ok(ShepherdLauncher {
            starter: starter_of(rt, program, dir, site, host, runs_as)?,
            site: site.to_vec(alloc)?,
            jobs,
            shepherds: Vec::new(alloc),
            orders: Vec::new(alloc),
            kills: Vec::new(alloc),
            rt,
            faults: 0,
        })
    }

    // Those that have ended are waited for, so that the system forgets them.
    fn sweep(&mut self)
        ensures { self.new.faults ≡ self.old.faults }
    {
        let starter = &self.starter;
        self.shepherds
            .retain_mut(|shepherd| goes_on(starter, shepherd));
    }

    // The folder of a job.
    fn place_of(&self, id: RequestId, start: u16) -> io::Result<String>
        ensures { IfOk result (λ place. string_bytes place ≡ string_bytes self.now.jobs ++ codes "/" ++ job_text id start self.now.site.items) }
    {
        let name = job_name(&self.rt, &self.site, id, start)?;
        path_in(&self.rt, &self.jobs, &name)
    }

    fn job_of(&self, order: &LaunchOrder) -> io::Result<LaunchedJob> {
        let start = order.start;
        Ok(LaunchedJob {
            place: self.place_of(order.id, start)?,
            request: request_text(&self.rt, &self.site, order.id)?,
            start: format!(in self.rt.alloc(); "{start}")?,
        })
    }

    // Notes the shell of a job, for which there is room.
    fn note(&mut self, child: Child, job: LaunchedJob) -> io::Result<()>
        ensures { self.new.faults ≡ self.old.faults }
    {
        tell_launched(&self.rt, &job.request, &job.start);
        self.shepherds
            .push(Shepherd { child, job })
            .map_err(AllocError::from)?;
        Ok(())
    }

    // Keeps an order that a shortage keeps back.
    fn keep(&mut self, job: LaunchedJob, order: String, script: &[u8]) -> io::Result<()>
        ensures { self.new.faults ≡ self.old.faults }
    {
        let script = Vec::from_slice(self.rt.alloc(), script)?;
        let kept = KeptOrder {
            job,
            order,
            script,
            is_killed: false,
        };
        self.orders.push(kept).map_err(AllocError::from)?;
        Ok(())
    }

    // Starts a job, or keeps its order.
    fn start(&mut self, job: LaunchedJob, order: String, script: &[u8]) -> io::Result<()>
        ensures { self.new.faults ≡ self.old.faults }
    {
        self.shepherds.reserve(1)?;
        match self.starter.begin(&job, &order, script, false) {
            Ok(child) => self.note(child, job),
            Err(e) if is_shortage(&e) => {
                tell_kept(&self.rt, &job.request, &e);
                self.keep(job, order, script)
            }
            Err(e) => {
                let _ = fs::remove_dir_all(&self.rt, &job.place);
                Err(e)
            }
        }
    }

    fn begin(&mut self, order: &LaunchOrder, script: &[u8]) -> io::Result<()>
        ensures { self.new.faults ≡ self.old.faults }
    {
        let job = self.job_of(order)?;
        let text = order_text(&self.rt, order)?;
        self.start(job, text, script)
    }

    // Starts the job of the kept order at this place, which is kept no more then.
    fn start_kept(&mut self, place: usize) -> io::Result<()>
        ensures { self.new.faults ≡ self.old.faults }
    {
        self.shepherds.reserve(1)?;
        let Some(kept) = self.orders.get(place) else {
            return Ok(());
        };
        let child = kept.start(&self.starter)?;
        let KeptOrder { job, .. } = self.orders.remove(place);
        self.note(child, job)
    }

    fn is_due(&self, place: usize, is_killed: bool) -> bool {
        match self.orders.get(place) {
            Some(kept) => kept.is_killed == is_killed,
            None => false,
        }
    }

    // Starts the job of the kept order at this place, if it was killed or not as is asked. Did it?
    fn try_at(&mut self, place: usize, is_killed: bool) -> io::Result<bool>
        ensures { self.new.faults ≡ self.old.faults }
    {
        if !self.is_due(place, is_killed) {
            return Ok(false);
        }
        self.start_kept(place)?;
        Ok(true)
    }

    // The same. The place of the order to be looked at next; none where a shortage goes on.
    fn next_after(&mut self, place: usize, is_killed: bool) -> Option<usize>
        ensures { self.new.faults ≡ self.old.faults }
    {
        match self.try_at(place, is_killed) {
            Ok(true) => Some(place),
            Err(e) if is_shortage(&e) => None,
            _ => Some(place.saturating_add(1)),
        }
    }

    // Starts the kept orders that were killed, or the others, up to the first that is kept back.
    fn start_each(&mut self, is_killed: bool)
        ensures { self.new.faults ≡ self.old.faults }
    {
        let mut place = 0usize;
        for _ in 0..self.orders.len() {
            match self.next_after(place, is_killed) {
                Some(next) => place = next,
                None => return,
            }
        }
    }

    fn retry_kills(&mut self)
        ensures { self.new.faults ≡ self.old.faults }
    {
        let rt = self.rt;
        self.kills.retain(|place| is_kept_back(&rt, place));
    }

    fn end(&mut self, id: RequestId, start: u16) -> io::Result<()>
        ensures { self.new.faults ≡ self.old.faults }
    {
        let place = self.place_of(id, start)?;
        if note_kill(&mut self.orders, &place) {
            return Ok(());
        }
        match write_kill(&self.rt, &place) {
            Err(e) if is_shortage(&e) => {
                self.kills.push(place).map_err(AllocError::from)?;
                Ok(())
            }
            made => made,
        }
    }
}

impl Launcher for ShepherdLauncher {
    ghost asked = { λ _. None };

    ghost faults = { λ launcher. launcher.faults };

    fn launch(&mut self, order: &LaunchOrder, script: &[u8]) -> Result<(), Failed> {
        let made = self.begin(order, script);
        tell_failed(&self.rt, &self.site, order.id, "wasn't launched", &made);
        counted(made, &mut self.faults)
    }

    fn kill(&mut self, id: RequestId, start: u16) -> Result<(), Failed> {
        let made = self.end(id, start);
        counted(made, &mut self.faults)
    }

    fn tend(&mut self) {
        self.sweep();
        self.retry_kills();
        self.start_each(true);
        self.start_each(false);
    }
}
