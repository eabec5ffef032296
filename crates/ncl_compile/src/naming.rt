//! The names of ports and nets of a compiled netlist.
ghost use Rattle.std.specs.Prelude.{◌≡◌, ◌<◌, ◌∷◌, ◌++◌, [], IfOk, codes, map};
ghost use Rattle.std.specs.List.{range_with_len};
ghost use Rattle.ncl_compile.specs.Ports.{port_pair};
ghost use Rattle.ncl_compile.specs.InnerNames.{three_digits, numbered, inner_pair, inner_pairs, pairs_driven, root_name, request_name};

use itoa::Buffer;
use ncl_base::{Memory, Name};
use ncl_netlist::NamePair;
use std::alloc::Global;

/// The last three decimal digits of a number.
fn three_digits(number: usize) -> [u8; 3]
    ensures { result ≡ three_digits number }
{
    [
        b'0' + (number / 100 % 10) as u8,
        b'0' + (number / 10 % 10) as u8,
        b'0' + (number % 10) as u8,
    ]
}

/// A letter, and in three digits the number, from 1, of what stands at a place.
pub(crate) fn numbered(alloc: Global, letter: u8, place: usize) -> Result<Vec<u8>, Memory>
    requires { place < 999 }
    ensures { IfOk result (λ name. name.items ≡ numbered letter place) }
{
    let mut bytes = Vec::new(alloc);
    bytes.push(letter)?;
    bytes.extend_from_slice(&three_digits(place + 1))?;
    Ok(bytes)
}

/// The two names that begin so, with the number of a rail at their end.
fn pair_of(alloc: Global, stem: &[u8]) -> Result<NamePair, Memory>
    ensures { IfOk result (λ pair. pair ≡ record { zero = stem.now ++ codes "_0"; one = stem.now ++ codes "_1" }) }
{
    let mut zero = stem.to_vec(alloc)?;
    zero.extend_from_slice(b"_0")?;
    let mut one = stem.to_vec(alloc)?;
    one.extend_from_slice(b"_1")?;
    Ok(NamePair {
        zero: Name::from_bytes(alloc, &zero)?,
        one: Name::from_bytes(alloc, &one)?,
    })
}

/// The rails of a port of this letter and this number.
fn port_pair(alloc: Global, letter: u8, number: usize) -> Result<NamePair, Memory>
    ensures { IfOk result (λ pair. pair ≡ port_pair (letter ∷ []) number) }
{
    let mut digits = Buffer::new();
    let mut stem = Vec::new(alloc);
    stem.push(letter)?;
    stem.extend_from_slice(digits.format(number).as_bytes())?;
    pair_of(alloc, &stem)
}

/// The rails of the ports of this letter, from 1. Linear in their number.
pub(crate) fn port_pairs(alloc: Global, letter: u8, width: usize) -> Result<Vec<NamePair>, Memory>
    requires { width < 999 }
    ensures { IfOk result (λ pairs. pairs.items ≡ map (port_pair (letter ∷ [])) (range_with_len 1 width)) }
{
    let mut pairs = Vec::new(alloc);
    for number in 1..width + 1 {
        let pair = port_pair(alloc, letter, number)?;
        pairs.push(pair)?;
    }
    Ok(pairs)
}

/// The rails of a bit that a bank keeps.
fn inner_pair(alloc: Global, bank: usize, bit: usize) -> Result<NamePair, Memory>
    requires few_banks { bank < 999 }
    requires few_bits { bit < 999 }
    ensures { IfOk result (λ pair. pair ≡ inner_pair bank bit) }
{
    let mut stem = numbered(alloc, b'w', bank)?;
    let bit = numbered(alloc, b'b', bit)?;
    stem.extend_from_slice(&bit)?;
    pair_of(alloc, &stem)
}

/// The rails that a bank keeps. Linear in their number.
pub(crate) fn inner_pairs(alloc: Global, bank: usize, width: usize) -> Result<Vec<NamePair>, Memory>
    requires few_banks { bank < 999 }
    requires few_bits { width < 999 }
    ensures { IfOk result (λ pairs. pairs.items ≡ inner_pairs bank width) }
{
    let mut pairs = Vec::new(alloc);
    for bit in 0..width {
        let pair = inner_pair(alloc, bank, bit)?;
        pairs.push(pair)?;
    }
    Ok(pairs)
}

/// The rails that a bank drives, where the last bank has the place `last`. Linear in their number.
pub(crate) fn pairs_driven(
    alloc: Global,
    last: usize,
    bank: usize,
    width: usize,
) -> Result<Vec<NamePair>, Memory>
    requires few_banks { bank < 999 }
    requires few_bits { width < 999 }
    ensures { IfOk result (λ pairs. pairs.items ≡ pairs_driven last bank width) }
{
    if bank == last {
        return port_pairs(alloc, b'o', width);
    }
    inner_pairs(alloc, bank, width)
}

/// The root of a bank.
pub(crate) fn root_name(alloc: Global, bank: usize) -> Result<Name, Memory>
    requires { bank < 999 }
    ensures { IfOk result (λ name. name ≡ root_name bank) }
{
    if bank == 0 {
        return Name::from_bytes(alloc, b"ko");
    }
    let name = numbered(alloc, b'a', bank)?;
    Name::from_bytes(alloc, &name)
}

/// What requests a bank, where the last bank has the place `last`.
pub(crate) fn request_name(alloc: Global, last: usize, bank: usize) -> Result<Name, Memory>
    requires { bank < 998 }
    ensures { IfOk result (λ name. name ≡ request_name last bank) }
{
    if bank == last {
        return Name::from_bytes(alloc, b"ki");
    }
    root_name(alloc, bank + 1)
}
