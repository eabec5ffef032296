//! The table of patterns: of each function that has two gates for its rails, but for its orders and inversions, those
//! with fewer transistors first; and of each function of three inputs gates that wait for all. What it says isn't trusted: each
//! form that comes of it is tried at each word.

use crate::form::FormPin;
use crate::pattern::{Pattern, PatternGate};
use crate::waits::Waits;
use ncl_gates::Kind;

/// All words.
const ALL: u16 = u16::MAX;

const V0: FormPin = FormPin::Zero(0);

const V1: FormPin = FormPin::One(0);

const X0: FormPin = FormPin::Zero(1);

const X1: FormPin = FormPin::One(1);

const Y0: FormPin = FormPin::Zero(2);

const Y1: FormPin = FormPin::One(2);

const Z0: FormPin = FormPin::Zero(3);

const Z1: FormPin = FormPin::One(3);

const G: FormPin = FormPin::Inner(0);

const H: FormPin = FormPin::Inner(1);

const K: FormPin = FormPin::Inner(2);

/// Patterns, one in a line: its table, the words at which it waits for each input, its inner gates, and the gates of
/// rails 0 and 1. Pins are the rails of inputs v, x, y and z, and the inner gates g, h and k.
macro_rules! patterns {
    ($($table:literal [$first:expr, $second:expr, $third:expr, $fourth:expr]
       {$($inner:ident($($on:ident),*))*} $zero:ident($($low:ident),*) $one:ident($($high:ident),*);)*) => {
        &[$(Pattern {
            table: $table,
            waits: Waits { first: $first, second: $second, third: $third, fourth: $fourth },
            inner: &[$(PatternGate { kind: Kind::$inner, pins: &[$($on),*] }),*],
            zero: PatternGate { kind: Kind::$zero, pins: &[$($low),*] },
            one: PatternGate { kind: Kind::$one, pins: &[$($high),*] },
        }),*]
    };
}

/// Patterns of two inputs: of the AND.
static OF_TWO: &[Pattern] = patterns! {
    0x8888 [0xCCCC, 0xAAAA, 0, 0] {} Th12(V0, X0) Th22(V1, X1);
    0x8888 [ALL, 0xAAAA, 0, 0] {} Th23w2(V0, V1, X0) Th22(V1, X1);
};

/// Patterns of three inputs: of the AND, of the AND of two or the third, of the majority, and of the choice, by the
/// first, of the second or the third; and of all others those that wait for all.
static OF_THREE: &[Pattern] = patterns! {
    0x8080 [0xC0C0, 0xA0A0, 0x8888, 0] {} Th13(V0, X0, Y0) Th33(V1, X1, Y1);
    0x8080 [ALL, 0xA0A0, 0x8888, 0] {} Th34w32(V0, V1, X0, Y0) Th33(V1, X1, Y1);
    0x8080 [ALL, ALL, 0x8888, 0] {Th34w32(X0, X1, V0, Y0)} Th33w2(G, V0, V1) Th33(V1, X1, Y1);
    0x8080 [ALL, ALL, ALL, ALL] {Th12(V0, V1) Th34w32(X0, X1, V0, Y0)} Th54w22(G, H, Y0, Y1) Th44(V1, X1, Y1, G);
    0xF8F8 [0x0C0C, 0x0A0A, 0x7777, 0] {} Th33w2(Y0, V0, X0) Th23w2(Y1, V1, X1);
    0xF8F8 [0x0C0C, 0x0A0A, ALL, 0] {} Th33w2(Y0, V0, X0) Th34w3(Y1, V1, X1, Y0);
    0xF8F8 [ALL, 0x0A0A, 0x7777, 0] {} Th54w32(Y0, V0, V1, X0) ThAnd0(Y1, V1, X1, V0);
    0xF8F8 [ALL, ALL, 0x7777, 0] {ThAnd0(X0, V0, X1, V1)} Th22(Y0, G) ThXor0(Y1, G, V1, X1);
    0xF8F8 [ALL, 0x0A0A, ALL, 0] {Th33w2(Y1, V0, V1)} Th54w32(Y0, V0, V1, X0) Th34w3(G, V1, X1, Y0);
    0xF8F8 [ALL, ALL, ALL, ALL] {Th22(V1, X1) ThAnd0(V0, X0, V1, X1)} Th22(Y0, H) ThAnd0(Y1, G, Y0, H);
    0xE8E8 [0x3C3C, 0x5A5A, 0x6666, 0] {} Th23(V0, X0, Y0) Th23(V1, X1, Y1);
    0xE8E8 [ALL, 0x5A5A, 0x6666, 0] {} Th54w322(V0, X0, Y0, V1) Th54w322(V1, X1, Y1, V0);
    0xE8E8 [ALL, ALL, 0x6666, 0] {Th24comp(V1, X1, V0, X0)} ThXor0(Y0, G, V0, X0) ThXor0(Y1, G, V1, X1);
    0xE8E8 [ALL, ALL, ALL, ALL] {Th33w2(V1, X0, Y0) Th34w32(G, V0, X1, Y1)} Th34(V0, X0, Y0, H) Th34(V1, X1, Y1, H);
    0xE4E4 [ALL, 0x5555, 0xAAAA, 0] {} ThAnd0(V0, V1, Y0, X0) ThAnd0(V0, V1, Y1, X1);
    0xE4E4 [ALL, ALL, 0xAAAA, 0] {Th33w2(V1, X0, X1)} ThAnd0(V0, G, Y0, X0) ThAnd0(V0, G, Y1, X1);
    0xE4E4 [ALL, 0x5555, ALL, 0] {Th33w2(V0, Y0, Y1)} ThAnd0(G, V1, Y0, X0) ThAnd0(G, V1, Y1, X1);
    0xE4E4 [ALL, ALL, ALL, ALL] {Th33w2(V0, Y0, Y1) Th33w2(V1, X0, X1)} ThAnd0(G, H, Y0, X0) ThAnd0(G, H, Y1, X1);
    0x9090 [ALL, ALL, ALL, ALL] {Th24comp(V0, X1, V1, X0) Th24comp(V0, X0, V1, X1)} ThAnd0(Y0, H, Y1, G) Th22(Y1, G);
    0x6060 [ALL, ALL, ALL, ALL] {Th24comp(V1, X1, V0, X0) Th24comp(V1, X0, V0, X1)} ThAnd0(Y0, H, Y1, G) Th22(Y1, G);
    0x3E3E [ALL, ALL, ALL, ALL] {Th33(V0, X0, Y0) Th24comp(V0, V1, X1, Y1)} Th34w3(G, X1, Y1, H) Th54w322(H, X0, Y0, V1);
    0xCBCB [ALL, ALL, ALL, ALL] {Th33(V0, X1, Y0) Th24comp(V0, V1, X0, Y1)} Th34w3(G, X0, Y1, H) Th54w322(H, X1, Y0, V1);
    0xBCBC [ALL, ALL, ALL, ALL] {Th33(V0, X1, Y1) Th24comp(V0, V1, X0, Y0)} Th34w3(G, X0, Y0, H) Th54w322(H, X1, Y1, V1);
    0x1E1E [ALL, ALL, ALL, ALL] {Th22(V0, X0) ThAnd0(V1, X1, V0, X0)} Th24comp(Y0, H, Y1, G) Th24comp(Y0, G, Y1, H);
    0x2D2D [ALL, ALL, ALL, ALL] {Th22(V1, X0) ThAnd0(V0, X1, V1, X0)} Th24comp(Y0, H, Y1, G) Th24comp(Y0, G, Y1, H);
    0x8787 [ALL, ALL, ALL, ALL] {Th22(V1, X1) ThAnd0(V0, X0, V1, X1)} Th24comp(Y0, H, Y1, G) Th24comp(Y0, G, Y1, H);
    0x6969 [ALL, ALL, ALL, ALL] {Th24comp(V0, X1, V1, X0) Th24comp(V0, X0, V1, X1)} Th24comp(Y0, G, Y1, H) Th24comp(Y0, H, Y1, G);
    0x2424 [ALL, ALL, ALL, ALL] {ThAnd0(Y0, Y1, X1, V1) Th24comp(V1, Y0, X1, Y1) Th44w3(X0, V1, Y0, Y1)} Th44w322(G, V0, K, H) Th33w2(H, V0, K);
    0x8181 [ALL, ALL, ALL, ALL] {ThAnd0(Y0, Y1, X0, V1) Th24comp(V1, Y0, X0, Y1) Th44w3(X1, V1, Y0, Y1)} Th44w322(G, V0, K, H) Th33w2(H, V0, K);
    0x2929 [ALL, ALL, ALL, ALL] {Th24comp(V0, X0, X1, Y0) ThAnd0(X0, X1, Y0, V1) Th24comp(V0, X1, V1, X0)} ThAnd0(Y1, G, H, K) ThAnd0(H, K, G, Y1);
    0x1616 [ALL, ALL, ALL, ALL] {Th24comp(V1, X0, X1, Y0) ThAnd0(X0, X1, Y0, V0) Th24comp(V1, X1, V0, X0)} ThAnd0(Y1, G, H, K) ThAnd0(H, K, G, Y1);
    0x8686 [ALL, ALL, ALL, ALL] {Th24comp(V0, X1, X0, Y0) ThAnd0(X1, X0, Y0, V1) Th24comp(V0, X0, V1, X1)} ThAnd0(Y1, G, H, K) ThAnd0(H, K, G, Y1);
    0x6868 [ALL, ALL, ALL, ALL] {Th24comp(V0, X1, X0, Y1) ThAnd0(X1, X0, Y1, V1) Th24comp(V0, X0, V1, X1)} ThAnd0(Y0, G, H, K) ThAnd0(H, K, G, Y0);
    0x0000 [ALL, ALL, ALL, ALL] {Th24comp(V0, V1, X0, X1)} Th33w2(G, Y0, Y1) Th22(V0, V1);
    0xAAAA [ALL, ALL, ALL, ALL] {Th24comp(X0, X1, Y0, Y1)} Th22(V0, G) Th22(V1, G);
    0x8888 [ALL, ALL, ALL, ALL] {ThAnd0(V0, X0, V1, X1)} Th33w2(G, Y0, Y1) Th54w22(V1, X1, Y0, Y1);
    0x6666 [ALL, ALL, ALL, ALL] {Th24comp(V0, X1, V1, X0) Th24comp(V0, X0, V1, X1)} Th33w2(G, Y0, Y1) Th33w2(H, Y0, Y1);
};

/// Patterns of four inputs: of v·x·y·z, (v + x)·y·z, z·(v·x + v·y + x·y), z·(y + v·x), z·(v + x + y), of at least three, of
/// y·z + (y + z)·v·x, z·(x + y) + v·x·y, z·(v + x + y) + v·x·y, v·z + x·y, and y·z + v·z + x·y.
static OF_FOUR: &[Pattern] = patterns! {
    0x8000 [0xC000, 0xA000, 0x8800, 0x8080] {} Th14(V0, X0, Y0, Z0) Th44(V1, X1, Y1, Z1);
    0x8000 [ALL, 0xA000, 0x8800, 0x8080] {Th44w3(V1, X0, Y0, Z0)} Th12(V0, G) Th44(V1, X1, Y1, Z1);
    0x8000 [ALL, ALL, 0x8800, 0x8080] {Th44w3(V1, X0, Y0, Z0)} Th24comp(V0, G, X0, X1) Th44(V1, X1, Y1, Z1);
    0xE000 [0x3000, 0x5000, 0xEE00, 0xE0E0] {} Th24w22(Y0, Z0, V0, X0) Th54w22(Y1, Z1, V1, X1);
    0xE000 [0x3000, 0x5000, ALL, 0xE0E0] {Th54w32(Y1, Z0, V0, X0)} Th12(Y0, G) Th54w22(Y1, Z1, V1, X1);
    0xE000 [0x3000, 0x5000, ALL, ALL] {Th54w32(Z1, Y0, V0, X0)} Th24comp(Z0, G, Y0, Y1) Th54w22(Y1, Z1, V1, X1);
    0xE800 [0x3C00, 0x5A00, 0x6600, 0xE8E8] {} Th24w2(Z0, V0, X0, Y0) Th44w2(Z1, V1, X1, Y1);
    0xE800 [0x3C00, 0x5A00, 0x6600, ALL] {Th44w2(Z1, V0, X0, Y0)} Th12(Z0, G) Th44w2(Z1, V1, X1, Y1);
    0xF800 [0x0C00, 0x0A00, 0x7700, 0xF8F8] {} Th34w32(Z0, Y0, V0, X0) Th54w32(Z1, Y1, V1, X1);
    0xF800 [0x0C00, 0x0A00, 0x7700, ALL] {Th54w22(Y0, Z1, V0, X0)} Th12(Z0, G) Th54w32(Z1, Y1, V1, X1);
    0xFE00 [0x0300, 0x0500, 0x1100, 0xFEFE] {} Th34w3(Z0, V0, X0, Y0) Th44w3(Z1, V1, X1, Y1);
    0xFE00 [0x0300, 0x0500, 0x1100, ALL] {Th44(V0, X0, Y0, Z1)} Th12(Z0, G) Th44w3(Z1, V1, X1, Y1);
    0xE880 [0x3CC0, 0x5AA0, 0x6688, 0x6868] {} Th24(V0, X0, Y0, Z0) Th34(V1, X1, Y1, Z1);
    0xF880 [0x0CC0, 0x0AA0, 0x7788, 0x7878] {} Th34w22(Y0, Z0, V0, X0) Th44w22(Y1, Z1, V1, X1);
    0xFC80 [0x00C0, 0x0FA0, 0x3388, 0x7C7C] {} Th44w322(Z0, X0, Y0, V0) Th54w322(Z1, X1, Y1, V1);
    0xFE80 [0x03C0, 0x05A0, 0x1188, 0x7E7E] {} Th34w2(Z0, V0, X0, Y0) Th34w2(Z1, V1, X1, Y1);
    0xEAC0 [0x3F00, 0x50F0, 0x44CC, 0x2A2A] {} Th24comp(V0, Z0, X0, Y0) ThXor0(V1, Z1, X1, Y1);
    0xFAC0 [0x0F00, 0x00F0, 0x55CC, 0x3A3A] {} ThAnd0(Y0, Z0, X0, V0) ThAnd0(Z1, Y1, X1, V1);
    0xFAC0 [0x0F0F, 0xF0F0, ALL, 0x3A3A] {ThAnd0(Y0, Y1, X0, V1)} ThXor0(Z0, G, V0, Y0) ThXor0(Z1, G, X1, Y1);
};

/// The patterns of so many inputs; of each function those with fewer transistors first.
pub(crate) fn patterns(inputs: usize) -> &'static [Pattern] {
    match inputs {
        2 => OF_TWO,
        3 => OF_THREE,
        4 => OF_FOUR,
        _ => &[],
    }
}
