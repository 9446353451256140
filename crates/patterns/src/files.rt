//! The files of the system, its clock, and what the outputs are.
use crate::replace::Draft;
use pattern_files::sources::{ReplaceError, Sources, System, Terminals};
use std::env::Env;
use std::fs::File;
use std::io::{BufReader, BufWriter, IsTerminal, Stdin};
use std::os::unix::fs::MetadataExt;
use std::time::{Clock, Duration};
use std::{fs, io};

/// What the runtime opens.
#[derive(Clone, Copy)]
pub(crate) struct Host<'a> {
    pub(crate) rt: &'a HostRuntime,
}

impl<'a> Sources for Host<'a> {
    type File = BufReader<File>;

    type Input = BufReader<Stdin>;

    type Draft = BufWriter<Draft<'a>>;

    fn open(&self, name: &str) -> io::Result<BufReader<File>> {
        BufReader::new(self.rt.alloc(), fs::open(self.rt, name)?)
    }

    fn replace(&self, name: &str, old: &[u8], new: &[u8]) -> Result<(), ReplaceError> {
        Draft::begin(self.rt, name)?.exchange(old, new)
    }

    fn size(&self, name: &str) -> Option<u64> {
        Some(fs::metadata(self.rt, name).ok()?.size())
    }

    fn draft(&self, name: &str) -> Result<BufWriter<Draft<'a>>, ReplaceError> {
        let draft = Draft::begin(self.rt, name)?;
        Ok(BufWriter::new(self.rt.alloc(), draft)?)
    }

    fn settle(&self, draft: BufWriter<Draft<'a>>, digest: [u8; 32]) -> Result<(), ReplaceError> {
        match draft.into_inner() {
            Ok(draft) => draft.settle(digest),
            Err(error) => Err(ReplaceError::from(error.into_error())),
        }
    }

    fn input(&self) -> io::Result<BufReader<Stdin>> {
        BufReader::new(self.rt.alloc(), self.rt.stdin())
    }
}

impl Clock for Host<'_> {
    fn monotonic(&self) -> io::Result<Duration> {
        self.rt.monotonic()
    }

    fn since_1970(&self) -> io::Result<Duration> {
        self.rt.since_1970()
    }
}

/// Whether the variable `TERM` says that terminals know no escape codes. It is read without an allocation.
fn is_dumb(rt: &HostRuntime) -> bool {
    let mut term = [0; 4];
    rt.var("TERM", &mut term).is_ok() && term == *b"dumb"
}

impl System for Host<'_> {
    fn terminals(&self) -> Terminals {
        let is_dumb = is_dumb(self.rt);
        Terminals {
            out: !is_dumb && self.rt.stdout().is_terminal(),
            err: !is_dumb && self.rt.stderr().is_terminal(),
        }
    }
}
