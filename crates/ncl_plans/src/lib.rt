//! Plans, operations on signals one after another, and whether a plan computes a node.
//!
//! `small` has the nodes that come of a plan, ANDs, nodes that tell whether two signals differ, majorities and choices. `form` says
//! what an operation on signals comes to, a signal that there is or a small node; `pool` keeps the small nodes and finds equal ones
//! again; `adding` and `plan` add operations one after another. A choice is at most four leaves, the nodes through which a node is
//! computed of them, and a plan. Whoever makes one isn't trusted: `evaluating` tries the plan at the sixteen words of the leaves,
//! through the nodes between (`cone`). `freeing` finds these, and which are needed no longer once one is made another, and
//! `cone_table` a table over the leaves: without a contract, since what they find is tried. `costs` says what networks cost and
//! about how many cells they become, as is reckoned in a `way`, and `stop` why a network isn't improved.
#![tactic(auto)]

mod adding;
mod cone;
mod cone_table;
mod costs;
mod evaluating;
mod form;
mod freeing;
mod plan;
mod pool;
mod small;
mod stop;
mod way;

pub use cone::{Known, Leaves, Offer, known_bit, node_bit};
pub use cone_table::{table_of_cone, table_over};
pub use costs::{MOST_COST, cells, cost, node_cells};
pub use evaluating::{Choice, known_at, test};
pub use form::{Form, and, choose, differ, majority, turned_by};
pub use freeing::{Lost, add_inner, cone_from, cone_of, freed, readers_of};
pub use plan::{Arg, Plan, Step, apply};
pub use pool::Pool;
pub use small::{Op, Small, nodes_of};
pub use stop::Stop;
pub use way::{Way, may_relax};
