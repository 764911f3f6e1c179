//! Files in place of devices.

ghost use Rattle.std.specs.Prelude.{◌≡◌, None, IfOk};

use crate::counted::counted;
use crate::folder::{make_folder, name_text, path_in};
use crate::launcher::job_name;
use crate::notices::tell_failed;
use crate::put::{Whose, put_file};
use crate::site::SiteHost;
use nqs_base::Name;
use nqs_outside::{Failed, Printer};
use nqs_types::LaunchOrder;
use std::io;
use std::rt::HostRuntime;

/// A folder for each device, below the folder `printed` of a host's folder: what is printed is the
/// file `DEVICE/SEQ.HOST.START`.
#[derive(Drop)]
pub struct FilePrinter {
    rt: HostRuntime,
    folder: String,
    site: Vec<SiteHost>,
    faults: u64,
}

impl FilePrinter {
    /// The printer in the folder of a host. Where the folder `printed` isn't there it is made.
    pub fn open(rt: HostRuntime, folder: &str, site: &[SiteHost]) -> io::Result<FilePrinter>
        ensures { IfOk result (λ printer. printer.faults ≡ 0) }
    {
        let folder = make_folder(&rt, folder, "printed")?;
        let site = site.to_vec(rt.alloc())?;
        Ok(FilePrinter {
            rt,
            folder,
            site,
            faults: 0,
        })
    }

    fn put(&self, device: &Name, order: &LaunchOrder, bytes: &[u8]) -> io::Result<()> {
        let job = job_name(&self.rt, &self.site, order.id, order.start)?;
        let path = path_in(&self.rt, name_text(device)?, &job)?;
        put_file(&self.rt, &self.folder, path.as_bytes(), bytes, Whose::Own)
    }
}

impl Printer for FilePrinter {
    ghost prints = { λ _. None };

    ghost faults = { λ printer. printer.faults };

    fn print(&mut self, device: &Name, order: &LaunchOrder, bytes: &[u8]) -> Result<(), Failed> {
        let made = self.put(device, order, bytes);
        tell_failed(&self.rt, &self.site, order.id, "wasn't printed", &made);
        counted(made, &mut self.faults)
    }
}
