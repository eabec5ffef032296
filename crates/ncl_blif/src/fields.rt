//! The fields of a text.
ghost use Rattle.std.specs.Prelude.{◌≡◌, ◌++◌, length, map, OnOk, MatchOption};
ghost use Rattle.ncl_base.specs.TextLines.{is_blank, fields_of};
ghost use Rattle.ncl_blif.specs.Named.{front_fields, last_field};

use ncl_base::{Memory, is_blank};

/// Puts the fields of a text after others, in order. They are parts of the text.
///
/// Linear in the text.
pub(crate) fn push_fields<'a>(fields: &mut Vec<&'a [u8]>, text: &'a [u8]) -> Result<(), Memory>
    ensures { OnOk result (map (λ field. field.now) fields.new.items
        ≡ map (λ field. field.now) fields.old.items ++ fields_of text.now) }
{
    for part in text.split(|byte| is_blank(*byte)) {
        if !part.is_empty() {
            fields.push(part)?;
        }
    }
    Ok(())
}

/// The fields before the last, and the last, or `None` where there is none.
pub(crate) fn front_and_last<'t, 'a>(fields: &'t [&'a [u8]]) -> Option<(&'t [&'a [u8]], &'a [u8])>
    ensures { let said = map (λ field. field.now) fields.now in MatchOption result (length said ≡ 0)
        (λ cut. (map (λ field. field.now) cut.0.now ≡ front_fields said) × (cut.1.now ≡ last_field said)) }
{
    let (last, front) = fields.split_last()?;
    Some((front, *last))
}
