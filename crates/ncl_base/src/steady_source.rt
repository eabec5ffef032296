//! A source that never fails.
ghost use Rattle.std.specs.Prelude.{◌≡◌, ◌<◌, ◌++◌, [], length, take, drop, min, nat_lt, Some, true, IsOk, IfOk};
ghost use Rattle.ncl_base.specs.Files.{bytes_of, raised};
ghost use Rattle.ncl_base.specs.Held.{files_of, has_file, bytes_at, next_count};

use crate::mem_file::MemFile;
use crate::source::{Failed, Source};
use std::marker::Model;

/// Held files that are read without fail, in pieces as long as the buffer.
///
/// A name that no file has stands for an empty file, and of two files with one name the first
/// counts.
#[derive(Drop)]
pub struct SteadySource {
    files: Vec<MemFile>,
    file: usize,
    place: usize,
    given: u64,
    opens: u64,
}

impl Model for SteadySource {
    ghost use Rattle.std.specs.Prelude.{drop};
    ghost use Rattle.ncl_base.specs.Held.{SteadySourceData, files_of, bytes_at};

    ghost Value = { SteadySourceData };

    ghost view = { λ s. record {
      files = files_of s.files.items;
      left = drop s.place (bytes_at s.files.items s.file);
      given = s.given;
      opens = s.opens;
    } };
}

impl SteadySource {
    /// A source of these files, none of which is begun. Takes no memory.
    pub fn new(files: Vec<MemFile>) -> SteadySource
        ensures { result ≡ record { files = files_of files.items; left = []; given = 0; opens = 0 } }
    {
        SteadySource {
            file: files.len(),
            place: 0,
            given: 0,
            opens: 0,
            files,
        }
    }

    /// Begins the first file of a name, and says whether there is one. Without one nothing is left.
    ///
    /// Walks over the files once.
    pub(crate) fn find(&mut self, name: &[u8]) -> bool
        ensures found { result ≡ has_file self.old.files name.now }
        ensures begun { self.new ≡ record self.old {
          left = bytes_of self.old.files name.now;
          opens = next_count self.old.opens;
        } }
    {
        self.opens = self.opens.saturating_add(1);
        self.place = 0;
        self.file = place_of(&self.files, name);
        self.file < self.files.len()
    }

    /// Leaves nothing of the file that was begun, as where one can't be begun.
    pub(crate) fn close(&mut self)
        ensures { self.new ≡ record self.old { left = []; opens = next_count self.old.opens } }
    {
        self.opens = self.opens.saturating_add(1);
        self.file = self.files.len();
    }

    /// Takes at most so many bytes of what is left into the front of a buffer, and says how many.
    ///
    /// Linear in these bytes.
    pub(crate) fn take(&mut self, buf: &mut [u8], most: usize) -> usize
        ensures count { result ≡ min (min most (length buf.old)) (length self.old.left) }
        ensures buffer { buf.new ≡ take result self.old.left ++ drop result buf.old }
        ensures taken { self.new ≡ record self.old {
          left = drop result self.old.left;
          given = raised self.old.given result;
        } }
    {
        let rest = rest_of(content(&self.files, self.file), self.place);
        let count = most.min(buf.len()).min(rest.len());
        buf[..count].copy_from_slice(&rest[..count]);
        self.place += count;
        self.given = self.given.saturating_add(count as u64);
        count
    }
}

/// The place of the first file of a name, or the number of files where none has it. Linear in the
/// files.
fn place_of(files: &[MemFile], name: &[u8]) -> usize
    ensures found { has_file (files_of files.now) name.now ≡ nat_lt result (length files.now) }
    ensures first { bytes_at files.now result ≡ bytes_of (files_of files.now) name.now }
{
    for (i, file) in files.iter().enumerate() {
        if file.name.bytes() == name {
            return i;
        }
    }
    files.len()
}

/// The bytes of the file at a place, or none.
fn content(files: &[MemFile], place: usize) -> &[u8]
    ensures { result.now ≡ bytes_at files.now place }
{
    match files.get(place) {
        Some(file) => file.bytes.items(),
        None => &[],
    }
}

/// The bytes from a place on.
fn rest_of(bytes: &[u8], place: usize) -> &[u8]
    ensures { result.now ≡ drop place bytes.now }
{
    if place < bytes.len() {
        &bytes[place..]
    } else {
        &[]
    }
}

impl Source for SteadySource {
    ghost files = { λ s. Some s.files };

    ghost left = { λ s. Some s.left };

    ghost faults = { λ s. 0 };

    ghost given = { λ s. s.given };

    ghost opens = { λ s. s.opens };

    ghost allowed = { λ s name. true };

    ghost begun = { λ s. true };

    /// Begins the first file of the name, by one walk over the files.
    fn begin(&mut self, name: &str) -> Result<(), Failed>
        ensures ok { IsOk result }
        ensures begun { self.new ≡ record self.old {
          left = bytes_of self.old.files name.now;
          opens = next_count self.old.opens;
        } }
    {
        self.find(name.as_bytes());
        Ok(())
    }

    /// Takes as many bytes as the buffer and what is left allow, and keeps the rest of the buffer.
    fn read(&mut self, buf: &mut [u8]) -> Result<usize, Failed>
        ensures ok { IsOk result }
        ensures count { IfOk result (λ n. n ≡ min (length buf.old) (length self.old.left)) }
        ensures buffer { IfOk result (λ n. buf.new ≡ take n self.old.left ++ drop n buf.old) }
        ensures taken { IfOk result (λ n. self.new ≡ record self.old {
          left = drop n self.old.left;
          given = raised self.old.given n;
        }) }
    {
        let most = buf.len();
        Ok(self.take(buf, most))
    }
}
