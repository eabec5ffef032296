//! Worked examples: what small texts say, what their models mean, and what breaks a text.
ghost use Rattle.std.specs.Prelude.{◌≡◌, true, false, [], ◌∷◌, map, codes, None};
ghost use Rattle.ncl_blif.specs.declared.fault.BlifFault.TheVariants.{Syntax, Unsupported, BadRow, MixedCover, TwoDrivers, Undriven, Cycle, NoBits, Width};
ghost use Rattle.ncl_blif.specs.Lines.{lines_of};
ghost use Rattle.ncl_blif.specs.LineFaults.{first_line_fault};
ghost use Rattle.ncl_blif.specs.Numbered.{numbered_model};
ghost use Rattle.ncl_blif.specs.Meaning.{Gives, Computes};
ghost use Rattle.ncl_blif.specs.Answer.{models_said, IsRefused};
ghost use Rattle.ncl_blif.specs.Examples.{text_of, going_on, half_adder, half, rest, with_lines};

/// A line that is continued has the number of its first part. Comments and lines without fields say nothing.
pub fn lines_of_a_text()
    ensures { lines_of (text_of (going_on (codes ".inputs a") ∷ codes " b # two" ∷ codes "  " ∷ codes ".end" ∷ []))
        ≡ record { number = 1; fields = codes ".inputs" ∷ codes "a" ∷ codes "b" ∷ [] }
        ∷ record { number = 4; fields = codes ".end" ∷ [] } ∷ [] }
{}

/// The half adder says two models. At 1 and 1 the first gives a carry and no sum, and both one after another
/// give the carry and the inverse of the sum.
pub fn half_adder_of_two_stages()
    ensures unbroken { first_line_fault (lines_of half_adder) ≡ None }
    ensures models { map numbered_model (models_said half_adder) ≡ half ∷ rest ∷ [] }
    ensures gives { Gives half (true ∷ true ∷ []) (true ∷ false ∷ []) }
    ensures computes { Computes (half ∷ rest ∷ []) (true ∷ true ∷ []) (true ∷ true ∷ []) }
{}

/// What breaks a line, or a whole model, is said with its line or its number.
pub fn refused_texts()
    ensures nothing { IsRefused [] (Syntax 0) }
    ensures latch { IsRefused (with_lines (codes ".latch a y" ∷ [])) (Unsupported 4) }
    ensures lone_row { IsRefused (with_lines (codes "1 1" ∷ [])) (Syntax 4) }
    ensures bad_row { IsRefused (with_lines (codes ".names a y" ∷ codes "2 1" ∷ [])) (BadRow 5) }
    ensures mixed { IsRefused (with_lines (codes ".names a y" ∷ codes "1 1" ∷ codes "0 0" ∷ [])) (MixedCover 6) }
    ensures twice { IsRefused (with_lines (codes ".names y" ∷ codes ".names a y" ∷ [])) (TwoDrivers 5) }
    ensures undriven { IsRefused (with_lines []) (Undriven 3) }
    ensures cycle { IsRefused (with_lines (codes ".names y y" ∷ [])) (Cycle 4) }
    ensures no_bits { IsRefused (text_of (codes ".end" ∷ [])) (NoBits 1) }
    ensures width { IsRefused (text_of (codes ".inputs a" ∷ codes ".outputs a a" ∷ codes ".model n" ∷ codes ".inputs b" ∷ codes ".outputs b" ∷ [])) (Width 2) }
{}
