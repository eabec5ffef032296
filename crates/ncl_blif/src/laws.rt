//! The laws of texts and models. Each function states some, and does nothing.
ghost use Rattle.std.specs.Prelude.{◌≡◌, ◌⊎◌, ℕ, Bool, List, length, All};
ghost use Rattle.ncl_blif.specs.declared.fault.BlifFault.{BlifFault};
ghost use Rattle.ncl_blif.specs.declared.fault.BlifFault.TheVariants.{Memory as OutOfMemory};
ghost use Rattle.ncl_blif.specs.declared.model.Model.{Model};
ghost use Rattle.ncl_blif.specs.Model.{signals_of, IsModel, AreModels};
ghost use Rattle.ncl_blif.specs.Meaning.{Fits, Computes, width_of};
ghost use Rattle.ncl_blif.specs.Answer.{IsRead, IsRefused};

/// Each text is read as models, or refused with a fault that isn't want of memory.
pub fn some_answer()
    ensures some { (text : List ℕ) → ((models : List Model) × IsRead text models) ⊎ ((fault : BlifFault) × IsRefused text fault) }
    ensures never_memory { (text : List ℕ) → IsRefused text OutOfMemory → ⊥ }
{}

/// A text is read as one list of models, or refused with one fault, and not both.
pub fn one_answer()
    ensures models { (text : List ℕ) (a b : List Model) → IsRead text a → IsRead text b → a ≡ b }
    ensures either { (text : List ℕ) (models : List Model) (fault : BlifFault) → IsRead text models → IsRefused text fault → ⊥ }
    ensures fault { (text : List ℕ) (a b : BlifFault) → IsRefused text a → IsRefused text b → a ≡ b }
{}

/// At each word of as many bits as a model has inputs some assignment of bits to its signals fits, and any
/// two that fit agree on each signal.
pub fn one_assignment()
    ensures some { (model : Model) (word : List Bool) → IsModel model → length word ≡ length model.inputs
        → (bits : ℕ → Bool) × Fits model word bits }
    ensures same { (model : Model) (word : List Bool) (a b : ℕ → Bool) → IsModel model → Fits model word a → Fits model word b
        → All (λ signal. a signal ≡ b signal) (signals_of model) }
{}

/// The models of a text, one after another, give one word at each word of as many bits as the first of them
/// has inputs.
pub fn one_function()
    ensures some { (models : List Model) (word : List Bool) → AreModels models → length word ≡ width_of models
        → (answer : List Bool) × Computes models word answer }
    ensures same { (models : List Model) (word a b : List Bool) → AreModels models → Computes models word a
        → Computes models word b → a ≡ b }
{}
