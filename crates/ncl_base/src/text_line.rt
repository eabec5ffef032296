//! The fields of a line of text.
ghost use Rattle.std.specs.Prelude.{◌≡◌};
ghost use Rattle.ncl_base.specs.TextLines.{is_blank};

/// Whether a byte stands between fields: a blank or a tab.
pub fn is_blank(byte: u8) -> bool
    ensures { result ≡ is_blank byte }
{
    byte == b' ' || byte == b'\t'
}
