//! Tests against tables that were written apart from the code.
use ncl_gates::{CellKind, Kind};

/// Each gate with a line: its name, its pins, its set function at the words of four pins, pin A turning fastest, and the sum of
/// products that docs/formats.md has for it, by which the values were worked out.
static GATES: [(Kind, &str); 27] = [
    (Kind::Th12, "TH12 AB 0111011101110111 A+B"),
    (Kind::Th22, "TH22 AB 0001000100010001 AB"),
    (Kind::Th13, "TH13 ABC 0111111101111111 A+B+C"),
    (Kind::Th23, "TH23 ABC 0001011100010111 AB+AC+BC"),
    (Kind::Th33, "TH33 ABC 0000000100000001 ABC"),
    (Kind::Th23w2, "TH23w2 ABC 0101011101010111 A+BC"),
    (Kind::Th33w2, "TH33w2 ABC 0001010100010101 AB+AC"),
    (Kind::Th14, "TH14 ABCD 0111111111111111 A+B+C+D"),
    (Kind::Th24, "TH24 ABCD 0001011101111111 AB+AC+AD+BC+BD+CD"),
    (Kind::Th34, "TH34 ABCD 0000000100010111 ABC+ABD+ACD+BCD"),
    (Kind::Th44, "TH44 ABCD 0000000000000001 ABCD"),
    (Kind::Th24w2, "TH24w2 ABCD 0101011101111111 A+BC+BD+CD"),
    (Kind::Th34w2, "TH34w2 ABCD 0001010101010111 AB+AC+AD+BCD"),
    (Kind::Th44w2, "TH44w2 ABCD 0000000100010101 ABC+ABD+ACD"),
    (Kind::Th34w3, "TH34w3 ABCD 0101010101010111 A+BCD"),
    (Kind::Th44w3, "TH44w3 ABCD 0001010101010101 AB+AC+AD"),
    (Kind::Th24w22, "TH24w22 ABCD 0111011101111111 A+B+CD"),
    (
        Kind::Th34w22,
        "TH34w22 ABCD 0001011101110111 AB+AC+AD+BC+BD",
    ),
    (Kind::Th44w22, "TH44w22 ABCD 0001000100010111 AB+ACD+BCD"),
    (Kind::Th54w22, "TH54w22 ABCD 0000000100010001 ABC+ABD"),
    (Kind::Th34w32, "TH34w32 ABCD 0101011101110111 A+BC+BD"),
    (Kind::Th54w32, "TH54w32 ABCD 0001000100010101 AB+ACD"),
    (Kind::Th44w322, "TH44w322 ABCD 0001011101010111 AB+AC+AD+BC"),
    (Kind::Th54w322, "TH54w322 ABCD 0001010100010111 AB+AC+BCD"),
    (Kind::ThXor0, "THxor0 ABCD 0001000100011111 AB+CD"),
    (Kind::ThAnd0, "THand0 ABCD 0001001101010111 AB+BC+AD"),
    (Kind::Th24comp, "TH24comp ABCD 0000011101110111 AC+BC+AD+BD"),
];

/// The values of four pins at a word, of which pin A is the lowest bit.
fn pins_at(word: u8) -> [bool; 4] {
    [
        word % 2 == 1,
        word / 2 % 2 == 1,
        word / 4 % 2 == 1,
        word / 8 % 2 == 1,
    ]
}

/// Whether the set function of a gate has this value at a word of its pins, and the gate then goes high, or stays so where a pin
/// is high.
fn has_value(kind: Kind, word: u8, value: bool) -> bool {
    let pins = pins_at(word);
    let ins = &pins[..kind.arity()];
    let stays = value || ins.contains(&true);
    kind.set(ins) == value && kind.next(ins, false) == value && kind.next(ins, true) == stays
}

/// Whether the set function of a gate has these values, one for each word of four pins.
fn has_values(kind: Kind, values: &[u8]) -> bool {
    for (word, value) in (0..16).zip(values) {
        if !has_value(kind, word, *value == b'1') {
            return false;
        }
    }
    true
}

/// Whether a gate has the name, the pins and the values of a line, and is found by the name.
fn is_told_by(kind: Kind, line: &str) -> Option<bool> {
    let (name, line) = line.split_once(' ')?;
    let (pins, line) = line.split_once(' ')?;
    let (values, _) = line.split_once(' ')?;
    let is_named = kind.name() == name.as_bytes() && Kind::from_name(name.as_bytes()) == Some(kind);
    let is_whole = kind.arity() == pins.len() && values.len() == 16;
    Some(is_named && is_whole && has_values(kind, values.as_bytes()))
}

#[test]
fn gates_are_those_of_the_table(rt: HostRuntime) {
    for &(kind, line) in &GATES {
        assert!(rt; is_told_by(kind, line) == Some(true), "{line}");
    }
}

/// The next values from 0 and from 1 of the two register cells and of an acknowledge cell.
fn others(a: bool, b: bool, reset: bool) -> [bool; 6] {
    [
        CellKind::Register.next(&[a, b, reset], false),
        CellKind::Register.next(&[a, b, reset], true),
        CellKind::RegisterData.next(&[a, b, reset], false),
        CellKind::RegisterData.next(&[a, b, reset], true),
        CellKind::Ack.next(&[a, b], false),
        CellKind::Ack.next(&[a, b], true),
    ]
}

/// A register cell rises where its first two inputs are 1, and falls where both are 0, whatever the reset. An acknowledge
/// cell is 1 where both are 0.
#[test]
fn other_cells_follow_two_inputs(rt: HostRuntime) {
    for word in 0..8 {
        let [a, b, reset, _] = pins_at(word);
        let (both, some) = (a && b, a || b);
        assert!(rt; others(a, b, reset) == [both, some, both, some, !some, !some]);
    }
}
