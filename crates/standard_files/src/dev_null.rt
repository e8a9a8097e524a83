//! The system's `/dev/null`.
ghost use Rattle.std.specs.Prelude.{◌≡◌, Some, IfOk};
ghost use Rattle.fault_counts.specs.Causes.{HasCause};

use crate::{Failed, OpenedFile, OpensNull};
use fault_counts::Count;
use std::fs::{File, OpenOptions};
use std::os::fd::AsRawFd;
use std::rt::Files;

/// What opens the system's `/dev/null`.
#[derive(Drop)]
pub struct DevNull<R: Files<File = File> + Drop> {
    rt: R,
    newest: Option<u32>,
    faults: Count,
}

impl<R: Files<File = File> + Drop> DevNull<R> {
    pub fn new(rt: R) -> DevNull<R>
        ensures { result.faults ≡ 0 }
    {
        DevNull {
            rt,
            newest: None,
            faults: Count::new(),
        }
    }
}

impl<R: Files<File = File> + Drop> OpensNull for DevNull<R> {
    type File = File;

    ghost faults = { λ n. n.faults };

    ghost newest = { λ n. n.newest };

    fn open_null(&mut self) -> Result<OpenedFile<File>, Failed> {
        let opened = OpenOptions::new()
            .read(true)
            .write(true)
            .open(&self.rt, "/dev/null");
        match opened {
            Ok(file) => {
                let number = file.as_raw_fd().unsigned_abs();
                self.newest = Some(number);
                Ok(OpenedFile { number, file })
            }
            Err(_) => self.faults.failed(),
        }
    }
}
