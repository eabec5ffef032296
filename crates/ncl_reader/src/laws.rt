//! Laws of netlist texts. What a law states is its clauses; the functions do nothing.
ghost use Rattle.std.specs.Prelude.{◌≡◌, ◌⊎◌, ℕ, List};
ghost use Rattle.ncl_netlist.specs.declared.parts.Parts.{Parts};
ghost use Rattle.ncl_reader.specs.declared.net_fault.NetFault.{NetFault};
ghost use Rattle.ncl_reader.specs.Grammar.{Text, text_phrase};
ghost use Rattle.ncl_reader.specs.Rules.{NoneBreaks};
ghost use Rattle.ncl_reader.specs.Whole.{IsPlain, KeepsRules};
ghost use Rattle.ncl_reader.specs.Reads.{Reads, IsRefused};

/// A list of tokens is the text of at most one tree.
pub fn one_tree()
    ensures { (t u : Text) → text_phrase t ≡ text_phrase u → t ≡ u }
{}

/// A text has at most one list of parts and at most one fault, and never both.
pub fn one_answer()
    ensures parts { (bytes : List ℕ) (parts other : Parts)
        → Reads bytes parts → Reads bytes other → parts ≡ other }
    ensures fault { (bytes : List ℕ) (fault other : NetFault)
        → IsRefused bytes fault → IsRefused bytes other → fault ≡ other }
    ensures apart { (bytes : List ℕ) (parts : Parts) (fault : NetFault)
        → Reads bytes parts → IsRefused bytes fault → ⊥ }
{}

/// Each text says parts or is refused.
pub fn some_answer()
    ensures { (bytes : List ℕ)
        → ((parts : Parts) × Reads bytes parts) ⊎ ((fault : NetFault) × IsRefused bytes fault) }
{}

/// Where a text without vectors and without declarations in its header keeps the rules as a whole, none of its
/// tokens breaks.
pub fn whole_rules()
    ensures { (text : Text) → IsPlain text → KeepsRules text → NoneBreaks (text_phrase text) }
{}
