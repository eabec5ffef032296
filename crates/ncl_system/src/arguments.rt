//! The arguments that the program is called with.
ghost use Rattle.std.specs.Prelude.{◌≡◌, ◌≢◌, [], map, drop, string_bytes, Ok, Err, IfOk, IfErr, IsOkAnd, MatchResult};
ghost use Rattle.std.specs.Vec.Iter.{into_iter_items};
ghost use Rattle.std.specs.IoError.{error_kind};

use std::alloc::{AllocError, Global};
use std::env::Args;
use std::io;
use std::io::ErrorKind;

/// The status where memory was refused before there was anything to say.
const OUT_OF_MEMORY: u8 = 7;

/// The arguments after the program's name, or the status to end with where there was no memory for them.
///
/// Where one is no text there are none at all, which is of no form.
pub fn arguments_given(alloc: Global, args: io::Result<Args>) -> Result<Vec<String>, u8>
    ensures arguments { IfOk args (λ args. MatchResult result
        (λ arguments. arguments.items ≡ drop 1 (into_iter_items args)) (λ status. status ≡ OUT_OF_MEMORY)) }
    ensures no_text { IfErr args (λ error. error_kind error ≡ ErrorKind.InvalidData → IsOkAnd result (λ arguments. arguments.items ≡ [])) }
    ensures no_memory { IfErr args (λ error. error_kind error ≢ ErrorKind.InvalidData → result ≡ Err OUT_OF_MEMORY) }
{
    match args {
        Ok(args) => match after_name(alloc, args) {
            Ok(arguments) => Ok(arguments),
            Err(_) => Err(OUT_OF_MEMORY),
        },
        Err(error) if error.kind() == ErrorKind::InvalidData => Ok(Vec::new(alloc)),
        Err(_) => Err(OUT_OF_MEMORY),
    }
}

/// The arguments but the first, which is the program's name.
fn after_name(alloc: Global, args: Args) -> Result<Vec<String>, AllocError>
    ensures { IfOk result (λ arguments. arguments.items ≡ drop 1 (into_iter_items args)) }
{
    args.skip(1).collect(alloc)
}

/// The arguments as views of their texts, or the status to end with where there was no memory for them. Linear in their
/// number; no text is copied.
pub fn views<'a>(alloc: Global, arguments: &'a [String]) -> Result<Vec<&'a str>, u8>
    ensures views { IfOk result (λ views. map (λ view. view.now) views.items ≡ map (λ argument. string_bytes argument) arguments.now) }
    ensures no_memory { IfErr result (λ status. status ≡ OUT_OF_MEMORY) }
{
    let mut views = Vec::new(alloc);
    for argument in arguments {
        if views.push(argument.as_str()).is_err() {
            return Err(OUT_OF_MEMORY);
        }
    }
    Ok(views)
}
