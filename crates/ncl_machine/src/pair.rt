//! What the sink takes.
use ncl_base::Word;

/// What the sink took: the values of the outputs' rails, those for 0 and those for 1.
#[derive(Clone, Debug, Drop)]
pub struct Pair {
    pub rail0: Word,
    pub rail1: Word,
}
