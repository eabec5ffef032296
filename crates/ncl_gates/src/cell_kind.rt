//! The cells of a netlist.
ghost use Rattle.std.specs.Prelude.{◌≡◌, ◌≢◌, ◌+◌, IfNone, IfSome, length, map};
ghost use Rattle.ncl_gates.specs.declared.cell_kind.CellKind.{CellKind};
ghost use Rattle.ncl_gates.specs.Cell.{is_data_register, is_register, next_of_cell, pins_of};
ghost use Rattle.ncl_gates.specs.Name.{cell_name_of};

use crate::kind::{Kind, is_some_high};

/// What a cell of a netlist is: a threshold gate, a register cell `TH22N` or `TH22D`, or an acknowledge
/// cell `TH12B`.
#[derive(Clone, Copy, Debug, PartialEq, Eq)]
pub enum CellKind {
    /// A threshold gate.
    Gate(Kind),
    /// A register cell that is reset to 0, `TH22N`: TH22 with a reset.
    Register,
    /// A register cell that is reset to 1, `TH22D`: else it is as `TH22N`.
    RegisterData,
    /// An acknowledge cell, `TH12B`: 1 where neither rail of a bit is at 1.
    Ack,
}

impl CellKind {
    /// The pin names in order: the inputs from `A` on, of a register cell `RST` after them, and the output `Z`.
    pub fn pins(self) -> &'static [&'static [u8]]
        ensures { map (λ pin. pin.now) result.now ≡ pins_of self }
    {
        match self {
            CellKind::Register | CellKind::RegisterData => &[b"A", b"B", b"RST", b"Z"],
            CellKind::Ack => &[b"A", b"B", b"Z"],
            CellKind::Gate(kind) => match kind.arity() {
                2 => &[b"A", b"B", b"Z"],
                3 => &[b"A", b"B", b"C", b"Z"],
                _ => &[b"A", b"B", b"C", b"D", b"Z"],
            },
        }
    }

    /// The next value of the cell's output from the values of its other pins, in the order of `pins`,
    /// and the old value. A gate keeps its value as `Kind::next` says. A register cell of either kind is TH22
    /// on `A` and `B`, whatever `RST` is. An acknowledge cell is 1 where neither of its inputs is.
    pub fn next(self, ins: &[bool], old: bool) -> bool
        requires { length ins.now + 1 ≡ length (pins_of self) }
        ensures { result ≡ next_of_cell self ins.now old }
    {
        match self {
            CellKind::Gate(kind) => kind.next(ins, old),
            CellKind::Register | CellKind::RegisterData => Kind::Th22.next(&ins[..2], old),
            CellKind::Ack => !is_some_high(ins),
        }
    }

    /// Whether the cell is a register cell, of either kind.
    pub fn is_register(self) -> bool
        ensures { result ≡ is_register self }
    {
        matches!(self, CellKind::Register | CellKind::RegisterData)
    }

    /// Whether the cell is a register cell that is reset to 1.
    pub fn is_data_register(self) -> bool
        ensures { result ≡ is_data_register self }
    {
        matches!(self, CellKind::RegisterData)
    }

    /// The name of the cell, as it stands in a netlist.
    pub fn name(self) -> &'static [u8]
        ensures { result.now ≡ cell_name_of self }
    {
        match self {
            CellKind::Gate(kind) => kind.name(),
            CellKind::Register => b"TH22N",
            CellKind::RegisterData => b"TH22D",
            CellKind::Ack => b"TH12B",
        }
    }

    /// The cell of a name, and None where no cell has it. Upper and lower case differ. Compares it with at most 30
    /// names.
    pub fn from_name(name: &[u8]) -> Option<CellKind>
        ensures some { IfSome result (λ cell. cell_name_of cell ≡ name.now) }
        ensures none { IfNone result ((cell : CellKind) → cell_name_of cell ≢ name.now) }
    {
        match name {
            b"TH22N" => Some(CellKind::Register),
            b"TH22D" => Some(CellKind::RegisterData),
            b"TH12B" => Some(CellKind::Ack),
            _ => Kind::from_name(name).map(CellKind::Gate),
        }
    }
}
