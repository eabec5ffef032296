//! The signals of a model that have a driver.
ghost use Rattle.std.specs.Prelude.{◌≡◌, ℕ, List, None, Some, OnOk, if◌then◌else◌};
ghost use Rattle.std.specs.Str.{bytes_eq};
ghost use Rattle.ncl_blif.specs.Drivers.{driver_at};

use ncl_base::Memory;
use std::alloc::Global;
use std::collections::BTreeMap;

/// What drives a signal.
#[derive(Clone, Copy)]
pub(crate) enum Driver {
    /// It is the input at this place, from 0.
    Input(u32),
    /// The cover at this place drives it, from 0.
    Cover(u32),
}

/// The signals that have a driver, each with what drives it, in order of their names.
#[derive(Drop)]
pub(crate) struct Drivers<'a> {
    places: BTreeMap<&'a [u8], Driver>,
}

impl<'a> Drivers<'a> {
    /// No signals. Takes no memory.
    pub(crate) fn new(alloc: Global) -> Drivers<'a>
        ensures { (name : List ℕ) → driver_at result name ≡ None }
    {
        Drivers {
            places: BTreeMap::new(alloc),
        }
    }

    /// What drives a signal, or `None` where nothing does.
    ///
    /// Logarithmic in the signals.
    pub(crate) fn get(&self, name: &[u8]) -> Option<Driver>
        ensures { result ≡ driver_at self.now name.now }
    {
        self.places.get(name).copied()
    }

    /// Lets this drive a signal.
    ///
    /// Logarithmic in the signals.
    pub(crate) fn put(&mut self, name: &'a [u8], driver: Driver) -> Result<(), Memory>
        ensures { OnOk result ((q : List ℕ) → driver_at self.new q
            ≡ (if bytes_eq name.now q then Some driver else driver_at self.old q)) }
    {
        let _ = self.places.insert(name, driver)?;
        Ok(())
    }
}
