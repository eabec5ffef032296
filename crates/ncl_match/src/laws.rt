//! Laws of the comparison. Each function states some, and does nothing.
ghost use Rattle.std.specs.Prelude.{◌≡◌, ◌≢◌, ◌<◌, ◌≤◌, ◌↔◌, ℕ, suc, List, Bool, false, length, All, IsTrue, Result, Err, Some, slice_get, slice_index_or};
ghost use Rattle.ncl_blif.specs.declared.model.Model.{Model};
ghost use Rattle.ncl_gates.specs.Gate.{set_of};
ghost use Rattle.ncl_shape.specs.Closure.{function_of, pin_values};
ghost use Rattle.ncl_shape.specs.Pipeline.{PipelineData};
ghost use Rattle.ncl_shape.specs.SamePipeline.{IsSamePipeline};
ghost use Rattle.ncl_match.specs.Circuit.{Circuit, circuit_of, closed, computed};
ghost use Rattle.ncl_match.specs.Counting.{NetCounts};
ghost use Rattle.ncl_match.specs.Plan.{AreMarks, FitPins, IsEvaluated, IsOrdered, Reaches, is_marked};
ghost use Rattle.ncl_match.specs.Planned.{plan_of};
ghost use Rattle.ncl_shape.specs.declared.rails.Rails.{Rails};
ghost use Rattle.ncl_match.specs.declared.planning.DataCell.{DataCell};
ghost use Rattle.ncl_cell_roles.specs.Layout.{Layout, IsLayoutOf, in_rail, out_rail, width};
ghost use Rattle.ncl_shape.specs.Stage.{out_of, rail_nets};
ghost use Rattle.ncl_space.specs.Functions.{is_value};
ghost use Rattle.ncl_match.specs.Answer.{IsAnswer, IsRunAnswer};
ghost use Rattle.ncl_match.specs.declared.answer.Compared.{Compared};
ghost use Rattle.ncl_match.specs.declared.answer.CompareFault.{CompareFault};
ghost use Rattle.ncl_match.specs.declared.answer.CompareFault.TheVariants.{Memory as OutOfMemory};
ghost use Rattle.ncl_match.specs.declared.answer.RunAnswer.{RunAnswer};

/// A run of outputs has one answer, and so have all outputs, but for want of memory.
pub fn one_answer()
    ensures run { (c : Circuit) (models : List Model) (limit low high : ℕ) (x y : RunAnswer) → IsRunAnswer c models limit low high x → IsRunAnswer c models limit low high y → x ≡ y }
    ensures whole { (c : Circuit) (models : List Model) (limit : ℕ) (x y : Result Compared CompareFault) → x ≢ Err OutOfMemory → y ≢ Err OutOfMemory → IsAnswer c models limit x → IsAnswer c models limit y → x ≡ y }
{}

/// The word of a circuit is the function of its pipeline, and pipelines that differ in the order of the cells of their
/// stages are one circuit.
pub fn circuit_of_a_pipeline()
    ensures function { (p : PipelineData) (word : List Bool) → computed (circuit_of p) word ≡ function_of p word }
    ensures one { (p q : PipelineData) → IsSamePipeline p q → circuit_of p ≡ circuit_of q }
{}

/// The closure is what the cells make of it, stage by stage, whether or not the stages are sound: the rails of the inputs
/// are as the word names them, a gate of a stage gives its set function, and a register cell the rail that it reads.
pub fn closure_by_cells()
    ensures inputs { (p : PipelineData) (l : Layout) (word : List Bool) → IsLayoutOf p l → length word ≡ length p.inputs → (b : ℕ) (r : Bool) → b < width l 0
        → closed (circuit_of p) word (in_rail l 0 b r) ≡ is_value r (slice_index_or word b false) }
    ensures gates { (p : PipelineData) (l : Layout) (word : List Bool) → IsLayoutOf p l → (k : ℕ) → k ≤ l.last
        → All (λ gate. closed (circuit_of p) word (out_of gate) ≡ set_of gate.kind (pin_values (closed (circuit_of p) word) gate.ins.items)) (l.stage k).cells }
    ensures registers { (p : PipelineData) (l : Layout) (word : List Bool) → IsLayoutOf p l → (k b : ℕ) (r : Bool) → k < l.last → b < width l (suc k)
        → closed (circuit_of p) word (in_rail l (suc k) b r) ≡ closed (circuit_of p) word (out_rail l k b r) }
{}

/// The plan of a pipeline: no cell reads what it or a cell after it drives, each has the pins of its kind, the closure gives
/// each net what its cell makes of what it reads, and the nets from which rail 1 of an output is reached are those that count
/// for the output.
pub fn plan_of_a_pipeline()
    ensures ordered { (p : PipelineData) (l : Layout) → IsLayoutOf p l → IsOrdered (plan_of p) (length p.netlist.nets) }
    ensures pins { (p : PipelineData) (l : Layout) → IsLayoutOf p l → FitPins (plan_of p) }
    ensures evaluated { (p : PipelineData) (l : Layout) → IsLayoutOf p l → IsEvaluated (length p.inputs) (plan_of p) (rail_nets p.inputs) (λ word net. closed (circuit_of p) word net) }
    ensures counts { (p : PipelineData) (l : Layout) → IsLayoutOf p l → (output : ℕ) (rails : Rails) → slice_get p.outputs output ≡ Some rails
        → (net : ℕ) → Reaches (plan_of p) rails.one.0 net ↔ NetCounts (circuit_of p) output net }
{}

/// A net is marked exactly where the root is reached from it.
pub fn marks_are_reached()
    ensures { (plan : List DataCell) (nets root : ℕ) (marks : List Bool) → AreMarks plan nets root marks 0 → (net : ℕ) → IsTrue (is_marked marks net) ↔ Reaches plan root net }
{}
