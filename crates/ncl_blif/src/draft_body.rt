//! What the parts of a model say so far.
ghost use Rattle.std.specs.Prelude.{◌≡◌, List, ◌⊎◌, ◌+◌, ◌<◌, ◌≤◌, [], ◌∷◌, ◌++◌, Some, None, true, false, length, map, MatchResult};
ghost use Rattle.ncl_blif.specs.declared.fault.BlifFault.TheVariants.{Memory as OutOfMemory};
ghost use Rattle.ncl_blif.specs.Parts.{PartData, first_field, is_names};
ghost use Rattle.ncl_blif.specs.Commands.{field_of};
ghost use Rattle.ncl_blif.specs.Named.{NamedModel, later_fields, cover_of, cover_out, inputs_said, outputs_said, covers_said, named_model, drivers_of};
ghost use Rattle.ncl_blif.specs.Numbered.{is_driven};
ghost use Rattle.ncl_blif.specs.LineFaults.{rows_fault, has_twins, signals_driven, has_ended, part_fault};
ghost use Rattle.ncl_blif.specs.Body.{said_by, AreDriversKept};

use crate::command::Command;
use crate::draft_cover::{DraftCover, DraftOutput};
use crate::drivers::{Driver, Drivers};
use crate::fault::BlifFault;
use crate::fields::front_and_last;
use crate::line::Line;
use crate::part::Part;
use crate::rows::no_rows;
use ncl_base::MOST_BYTES;
use std::alloc::Global;

/// The inputs, outputs and covers that parts say, and what drives each signal.
#[derive(Drop)]
pub(crate) struct DraftBody<'a> {
    pub(crate) inputs: Vec<&'a [u8]>,
    pub(crate) outputs: Vec<DraftOutput<'a>>,
    pub(crate) covers: Vec<DraftCover<'a>>,
    pub(crate) drivers: Drivers<'a>,
}

impl<'a> DraftBody<'a> {
    /// What no parts say. Takes no memory.
    pub(crate) fn new(alloc: Global) -> DraftBody<'a>
        ensures said { said_by result ≡ record { name = []; inputs = []; outputs = []; covers = [] } }
        ensures kept { AreDriversKept result }
    {
        DraftBody {
            inputs: Vec::new(alloc),
            outputs: Vec::new(alloc),
            covers: Vec::new(alloc),
            drivers: Drivers::new(alloc),
        }
    }

    /// Adds what a part of the model says, in a model that has ended before or not, and answers whether
    /// it has ended then. It answers the fault of the part, where it has one.
    ///
    /// Linear in the part, and for each signal that it drives logarithmic in the signals.
    pub(crate) fn add_part(
        &mut self,
        alloc: Global,
        ended: bool,
        part: &Part<'_, 'a>,
    ) -> Result<bool, BlifFault>
        requires kept { AreDriversKept self.old }
        requires room { length (drivers_of (said_by self.old)) + length (signals_driven part.now) ≤ MOST_BYTES }
        ensures { let unnamed : List PartData → NamedModel = λ parts. record (named_model parts) { name = [] } in
            (before : List PartData) → said_by self.old ≡ unnamed before → ended ≡ has_ended before → MatchResult result
            (λ ended. AreDriversKept self.new × (said_by self.new ≡ unnamed (before ++ part.now ∷ []))
            × (part_fault before part.now ≡ None) × (ended ≡ has_ended (before ++ part.now ∷ [])))
            (λ fault. (fault ≡ OutOfMemory) ⊎ (part_fault before part.now ≡ Some fault)) }
    {
        let head = part.head();
        let Some(command) = Command::of_line(head) else {
            return Err(BlifFault::Unsupported(head.number()));
        };
        if command.is_malformed(ended, head.fields().len()) {
            return Err(BlifFault::Syntax(head.number()));
        }
        self.add_command(alloc, command, part)?;
        Ok(ended | command.is_end())
    }

    /// Adds what a part says that begins with this command, which has the right number of fields. It
    /// answers `TwoDrivers` where a signal gets a driver and has one, and then the first fault of the
    /// rows.
    ///
    /// Linear in the part, and for each signal that it drives logarithmic in the signals.
    fn add_command(
        &mut self,
        alloc: Global,
        command: Command,
        part: &Part<'_, 'a>,
    ) -> Result<(), BlifFault>
        requires kept { AreDriversKept self.old }
        requires room { length (drivers_of (said_by self.old)) + length (signals_driven part.now) ≤ MOST_BYTES }
        requires field { first_field part.now.head ≡ field_of command }
        requires fields { is_names part.now.head ≡ true → 2 ≤ length part.now.head.fields }
        ensures { let old = said_by self.old in
            let more = record old {
              inputs = old.inputs ++ inputs_said part.now;
              outputs = old.outputs ++ outputs_said part.now;
              covers = old.covers ++ covers_said part.now;
            } in
            MatchResult result
            (λ _. AreDriversKept self.new × (said_by self.new ≡ more) × (has_twins (drivers_of more) ≡ false)
            × (rows_fault part.now.head part.now.rows ≡ None))
            (λ fault. (fault ≡ OutOfMemory)
            ⊎ (((has_twins (drivers_of more) ≡ true) × (fault ≡ BlifFault.TwoDrivers part.now.head.number))
            ⊎ ((has_twins (drivers_of more) ≡ false) × (rows_fault part.now.head part.now.rows ≡ Some fault)))) }
    {
        let head = part.head();
        match command {
            Command::Inputs => {
                self.add_inputs(head.number(), later_fields(head))?;
                no_rows(part.rows())
            }
            Command::Outputs => {
                self.add_outputs(head.number(), later_fields(head))?;
                no_rows(part.rows())
            }
            Command::Names => self.add_cover(alloc, part),
            Command::Model | Command::End => no_rows(part.rows()),
        }
    }

    /// Adds inputs that this line says. It answers `TwoDrivers` where one of them has a driver already.
    ///
    /// For each of them logarithmic in the signals.
    pub(crate) fn add_inputs(&mut self, line: u32, names: &[&'a [u8]]) -> Result<(), BlifFault>
        requires kept { AreDriversKept self.old }
        requires room { length (drivers_of (said_by self.old)) + length names.now ≤ MOST_BYTES }
        ensures { let old = said_by self.old in
            let more = record old { inputs = old.inputs ++ map (λ name. name.now) names.now } in
            MatchResult result
            (λ _. AreDriversKept self.new × (said_by self.new ≡ more) × (has_twins (drivers_of more) ≡ false))
            (λ fault. (fault ≡ OutOfMemory) ⊎ ((fault ≡ BlifFault.TwoDrivers line) × (has_twins (drivers_of more) ≡ true))) }
    {
        for name in names {
            self.add_input(line, name)?;
        }
        Ok(())
    }

    /// Adds an input that this line says. It answers `TwoDrivers` where it has a driver already.
    ///
    /// Logarithmic in the signals.
    fn add_input(&mut self, line: u32, name: &'a [u8]) -> Result<(), BlifFault>
        requires kept { AreDriversKept self.old }
        requires room { length (drivers_of (said_by self.old)) < MOST_BYTES }
        ensures { let old = said_by self.old in MatchResult result
            (λ _. AreDriversKept self.new × (said_by self.new ≡ record old { inputs = old.inputs ++ name.now ∷ [] })
            × (is_driven old name.now ≡ false))
            (λ fault. (fault ≡ OutOfMemory) ⊎ ((fault ≡ BlifFault.TwoDrivers line) × (is_driven old name.now ≡ true))) }
    {
        if self.drivers.get(name).is_some() {
            return Err(BlifFault::TwoDrivers(line));
        }
        self.drivers
            .put(name, Driver::Input(self.inputs.len() as u32))?;
        self.inputs.push(name)?;
        Ok(())
    }

    /// Adds outputs that this line says. Linear in these.
    pub(crate) fn add_outputs(&mut self, line: u32, names: &[&'a [u8]]) -> Result<(), BlifFault>
        requires { AreDriversKept self.old }
        ensures { let old = said_by self.old in
            let outputs = map (λ signal. record { line = line; signal = signal }) (map (λ name. name.now) names.now) in
            MatchResult result
            (λ _. AreDriversKept self.new × (said_by self.new ≡ record old { outputs = old.outputs ++ outputs }))
            (λ fault. fault ≡ OutOfMemory) }
    {
        for name in names {
            self.outputs.push(DraftOutput::new(line, name))?;
        }
        Ok(())
    }

    /// Adds the cover that a `.names` line of at least two fields and the rows after it say. It answers
    /// `TwoDrivers` where the cover's signal has a driver already, and then the first fault of the rows.
    ///
    /// Linear in the lines, and logarithmic in the signals.
    pub(crate) fn add_cover(&mut self, alloc: Global, part: &Part<'_, 'a>) -> Result<(), BlifFault>
        requires kept { AreDriversKept self.old }
        requires names { is_names part.now.head ≡ true }
        requires fields { 2 ≤ length part.now.head.fields }
        requires room { length (drivers_of (said_by self.old)) < MOST_BYTES }
        ensures { let old = said_by self.old in let driven = is_driven old (cover_out part.now.head) in MatchResult result
            (λ _. AreDriversKept self.new × (said_by self.new ≡ record old { covers = old.covers ++ cover_of part.now ∷ [] })
            × (driven ≡ false) × (rows_fault part.now.head part.now.rows ≡ None))
            (λ fault. (fault ≡ OutOfMemory)
            ⊎ (((driven ≡ true) × (fault ≡ BlifFault.TwoDrivers part.now.head.number))
            ⊎ ((driven ≡ false) × (rows_fault part.now.head part.now.rows ≡ Some fault)))) }
    {
        let out = signal_driven(part.head());
        if self.drivers.get(out).is_some() {
            return Err(BlifFault::TwoDrivers(part.head().number()));
        }
        let cover = DraftCover::read(alloc, part)?;
        self.drivers
            .put(out, Driver::Cover(self.covers.len() as u32))?;
        self.covers.push(cover)?;
        Ok(())
    }
}

/// The fields of a line after the first.
fn later_fields<'t, 'a>(head: &Line<'t, 'a>) -> &'t [&'a [u8]]
    requires { 1 ≤ length head.now.fields }
    ensures { map (λ field. field.now) result.now ≡ later_fields head.now }
{
    &head.fields()[1..]
}

/// The signal that a `.names` line of at least two fields drives.
fn signal_driven<'a>(head: &Line<'_, 'a>) -> &'a [u8]
    requires { 2 ≤ length head.now.fields }
    ensures { result.now ≡ cover_out head.now }
{
    match front_and_last(later_fields(head)) {
        Some((_, out)) => out,
        None => unreachable!(),
    }
}
