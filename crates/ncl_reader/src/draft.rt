//! What was read so far.
ghost use Rattle.std.specs.Prelude.{◌≡◌, ◌≤◌, ◌+◌, true, length, Ok, IfOk};
ghost use Rattle.ncl_netlist.specs.Names.{AllDiffer};
ghost use Rattle.ncl_netlist.specs.Parts.{port_names};
ghost use Rattle.ncl_reader.specs.Lexemes.{Name as NameLexeme};
ghost use Rattle.ncl_reader.specs.Rules.{BreaksRule};
ghost use Rattle.ncl_reader.specs.Draft.{Steps, StepsAt, HoldsAt, HoldsBy, SaysAt, Takes};
ghost use Rattle.ncl_reader.specs.Next.{takes_sign, after_sign, takes_plain, takes_name_alone, MayStand};
ghost use Rattle.ncl_reader.specs.Partial.{Partial, start, spelled};

use crate::header::Header;
use crate::instance::Instance;
use crate::keyword::Keyword;
use crate::known::Known;
use crate::lead::Lead;
use crate::lexeme::{Lexeme, Sign};
use crate::place::Place;
use ncl_base::{Items, Memory, Name};
use ncl_gates::CellKind;
use ncl_netlist::{PartCell, Parts};
use std::alloc::Global;
use std::mem;

/// What a step comes to: the next place, `None` where the token breaks, or want of memory.
pub(crate) type Step = Result<Option<Place>, Memory>;

/// What was read so far: the name of the module, its header and whether declarations stand there, what the declaration
/// that is read begins with, the names that stand, the instance that is read, and the cells.
#[derive(Drop)]
pub(crate) struct Draft<'a> {
    pub title: &'a [u8],
    pub header: Header<'a>,
    pub ansi: bool,
    pub lead: Lead,
    pub known: Known<'a>,
    pub instance: Instance<'a>,
    pub cells: Vec<PartCell>,
}

impl<'a> Draft<'a> {
    /// Nothing was read.
    pub(crate) fn new(alloc: Global) -> Draft<'a>
        ensures { HoldsAt Place.Module result start }
    {
        Draft {
            title: b"",
            header: Header::new(alloc),
            ansi: false,
            lead: Lead {
                output: None,
                span: None,
                first: 0,
            },
            known: Known::new(alloc),
            instance: Instance {
                kind: CellKind::Ack,
                name: b"",
                pin: b"",
                net: b"",
                index: 0,
                joins: Vec::new(alloc),
            },
            cells: Vec::new(alloc),
        }
    }

    /// One token more, or `None` where it breaks, and then nothing changes.
    pub(crate) fn step(&mut self, alloc: Global, place: Place, lexeme: &Lexeme<'a>) -> Step
        ensures { Steps place self.old lexeme.now result self.new }
    {
        match place {
            Place::Module => Ok(self.at_module(lexeme)),
            Place::FirstPort => self.at_first_port(alloc, lexeme),
            Place::HeaderLead(at) => self.at_header_lead(alloc, at, lexeme),
            Place::HeaderName => self.at_header_name(alloc, lexeme),
            Place::Item => self.at_item(alloc, lexeme),
            Place::Lead(at) => self.at_lead(alloc, at, lexeme),
            Place::Declared => self.at_declared(alloc, lexeme),
            Place::Net => self.at_net(alloc, lexeme),
            Place::AfterNet => self.after_net(lexeme),
            Place::Index => Ok(self.at_index(lexeme)),
            Place::NetEnd => self.net_end(lexeme),
            Place::AfterConnection => self.after_connection(alloc, lexeme),
            Place::End => Ok(None),
            Place::ModuleName | Place::Port | Place::InstanceName | Place::Pin => {
                self.at_name(alloc, place, lexeme)
            }
            _ => Ok(self.at_sign(place, lexeme)),
        }
    }

    /// The parts that a whole text says, whose cells leave the draft.
    pub(crate) fn take_parts(&mut self, alloc: Global) -> Result<Parts, Memory>
        ensures says { (p : Partial) → HoldsAt Place.End self.old p → IfOk result (SaysAt p) }
        ensures differ { (p : Partial) → HoldsAt Place.End self.old p
            → IfOk result (λ parts. AllDiffer (port_names parts)) }
        ensures few { (p : Partial) → HoldsAt Place.End self.old p
            → IfOk result (λ parts. length parts.ports ≤ length (spelled p) + 65536) }
    {
        let ports = self.header.ports(alloc, &self.known.ranges)?;
        let module = Name::from_bytes(alloc, self.title)?;
        let cells = mem::replace(&mut self.cells, Vec::new(alloc));
        Ok(Parts {
            module,
            ports: Items::from_vec(ports),
            cells: Items::from_vec(cells),
        })
    }

    /// In front of the module.
    fn at_module(&self, lexeme: &Lexeme<'a>) -> Option<Place>
        ensures { Steps Place.Module self.now lexeme.now (Ok result) self.now }
    {
        if lexeme.is_word(Keyword::Module) {
            return Some(Place::ModuleName);
        }
        None
    }

    /// At a place where a sign alone says what comes next.
    fn at_sign(&self, place: Place, lexeme: &Lexeme<'a>) -> Option<Place>
        requires { takes_sign place ≡ true }
        ensures { Steps place self.now lexeme.now (Ok result) self.now }
    {
        match lexeme {
            Lexeme::Mark(sign) => after_sign(place, *sign),
            _ => None,
        }
    }

    /// At a place where no token stands but a name that isn't declared.
    fn at_name(&mut self, alloc: Global, place: Place, lexeme: &Lexeme<'a>) -> Step
        requires { takes_name_alone place ≡ true }
        ensures { Steps place self.old lexeme.now result self.new }
    {
        let Some(name) = lexeme.name() else {
            return Ok(None);
        };
        self.at_plain(alloc, place, name)
    }

    /// A name that isn't declared.
    #[inline(always)]
    pub(crate) fn at_plain(&mut self, alloc: Global, place: Place, name: &'a [u8]) -> Step
        requires { takes_plain place ≡ true }
        ensures { StepsAt place self.old (NameLexeme name.now) result self.new }
    {
        if self.known.clashes(name) {
            return Ok(None);
        }
        if !self.may_stand(place, name) {
            return Ok(None);
        }
        Ok(Some(self.take_plain(alloc, place, name)?))
    }

    /// Whether a name that isn't declared may stand, but for a clash.
    fn may_stand(&self, place: Place, name: &[u8]) -> bool
        requires { takes_plain place ≡ true }
        ensures { (p : Partial) → HoldsBy place self.now p → MayStand result (spelled p) name.now }
    {
        match place {
            Place::Port => !self.header.has(name),
            Place::Pin => self.instance.may_join(name),
            _ => true,
        }
    }

    /// Takes a name that isn't declared and breaks no rule.
    fn take_plain(&mut self, alloc: Global, place: Place, name: &'a [u8]) -> Result<Place, Memory>
        requires { takes_plain place ≡ true }
        ensures { (p : Partial) → HoldsAt place self.old p → ¬ BreaksRule (spelled p) (NameLexeme name.now)
            → IfOk result (λ after. Takes p (NameLexeme name.now) after self.new) }
    {
        self.known.stand(alloc, name)?;
        match place {
            Place::ModuleName => {
                self.title = name;
                Ok(Place::AfterModuleName)
            }
            Place::InstanceName => {
                self.instance.name = name;
                Ok(Place::Connections)
            }
            Place::Pin => {
                self.instance.pin = name;
                Ok(Place::PinNet)
            }
            _ => {
                self.header.add(name)?;
                Ok(Place::AfterPort)
            }
        }
    }
}

/// The place behind a sign, at a place where a sign alone says what comes next.
fn after_sign(place: Place, sign: Sign) -> Option<Place>
    ensures { result ≡ after_sign place sign }
{
    match (place, sign) {
        (Place::AfterModuleName, Sign::LParen) => Some(Place::FirstPort),
        (Place::AfterModuleName, Sign::Semi) => Some(Place::Item),
        (Place::AfterPort, Sign::Comma) => Some(Place::Port),
        (Place::AfterPort, Sign::RParen) => Some(Place::AfterPorts),
        (Place::AfterHeaderName, Sign::Comma) => Some(Place::HeaderName),
        (Place::AfterHeaderName, Sign::RParen) => Some(Place::AfterPorts),
        (Place::AfterPorts, Sign::Semi) => Some(Place::Item),
        (Place::AfterDeclared, Sign::Comma) => Some(Place::Declared),
        (Place::AfterDeclared, Sign::Semi) => Some(Place::Item),
        (Place::Connections, Sign::LParen) => Some(Place::Connection),
        (Place::Connection, Sign::Dot) => Some(Place::Pin),
        (Place::PinNet, Sign::LParen) => Some(Place::Net),
        (Place::AfterIndex, Sign::RBracket) => Some(Place::NetEnd),
        (Place::AfterInstance, Sign::Semi) => Some(Place::Item),
        _ => None,
    }
}
