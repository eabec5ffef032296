//! Files of the system.
ghost use Rattle.std.specs.Prelude.{◌≡◌, None, true, is_some};

use crate::tally::{Tally, read_from};
use ncl_base::{Failed, Source};
use std::fs::File;
use std::rt::Files;

/// A source of the system's files, of which nothing is told but how many calls have failed, how
/// many bytes were read and how many files were to be opened.
///
/// A name is a path. Each call makes at most one call of the system.
#[derive(Drop)]
pub struct FileSource<'a, R: Files> {
    rt: &'a R,
    file: Option<R::File>,
    tally: Tally,
}

impl<'a, R: Files> FileSource<'a, R> {
    /// A source that has begun no file.
    pub fn new(rt: &'a R) -> Self
        ensures counts { result.tally ≡ record { faults = 0; given = 0; opens = 0 } }
        ensures file { result.file ≡ None }
    {
        FileSource {
            rt,
            file: None,
            tally: Tally::new(),
        }
    }
}

impl<'a, R: Files> Source for FileSource<'a, R> {
    ghost files = { λ source. None };

    ghost left = { λ source. None };

    ghost faults = { λ source. source.tally.faults };

    ghost given = { λ source. source.tally.given };

    ghost opens = { λ source. source.tally.opens };

    ghost allowed = { λ source name. true };

    ghost begun = { λ source. is_some source.file };

    fn begin(&mut self, name: &str) -> Result<(), Failed> {
        self.file = self.tally.after_open(File::open(self.rt, name));
        match self.file {
            Some(_) => Ok(()),
            None => Err(Failed),
        }
    }

    fn read(&mut self, buf: &mut [u8]) -> Result<usize, Failed> {
        match &mut self.file {
            Some(file) => read_from(&mut self.tally, file, buf),
            None => Err(self.tally.fail()),
        }
    }
}
