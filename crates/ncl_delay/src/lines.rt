//! The lines of a file.
ghost use Rattle.std.specs.Prelude.{◌≡◌, reverse};
ghost use Rattle.ncl_delay.specs.Lines.{is_space, tells, from_first, trimmed};

/// A line without blanks, tabs and carriage returns at its ends. Linear in the line.
pub(crate) fn trimmed(line: &[u8]) -> &[u8]
    ensures { result.now ≡ trimmed line.now }
{
    to_last(from_first(line))
}

/// Whether a line, trimmed, says something: it isn't empty, and no remark.
pub(crate) fn tells(line: &[u8]) -> bool
    ensures { result ≡ tells line.now }
{
    match line.first() {
        Some(byte) => *byte != b'#',
        None => false,
    }
}

/// A line from its first byte on that is no space. Linear in the line.
fn from_first(line: &[u8]) -> &[u8]
    ensures { result.now ≡ from_first line.now }
{
    let mut rest = line;
    while let [first, others @ ..] = rest
        && is_space(*first)
    {
        rest = others;
    }
    rest
}

/// A line up to its last byte that is no space. Linear in the line.
fn to_last(line: &[u8]) -> &[u8]
    ensures { result.now ≡ reverse (from_first (reverse line.now)) }
{
    let mut rest = line;
    while let [others @ .., last] = rest
        && is_space(*last)
    {
        rest = others;
    }
    rest
}

/// Whether a byte is dropped at the ends of a line: a blank, a tab or a carriage return.
fn is_space(byte: u8) -> bool
    ensures { result ≡ is_space byte }
{
    byte == b' ' || byte == b'\t' || byte == b'\r'
}
