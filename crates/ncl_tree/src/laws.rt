//! The laws of names that are made. Each function states some, and does nothing.
ghost use Rattle.std.specs.Prelude.{◌≡◌, ◌<◌, ◌≢◌, ℕ, List};
ghost use Rattle.ncl_tree.specs.PartNames.{IsPartName, cell_name_of, net_name_of, most_parts};

/// Cells and nets with different numbers have different names, no cell has the name of a net, and each name is the
/// prefix with seven letters or digits after it.
pub fn part_names()
    ensures cells { (prefix : List ℕ) (x y : ℕ) → x < most_parts → y < most_parts → cell_name_of prefix x ≡ cell_name_of prefix y → x ≡ y }
    ensures nets { (prefix : List ℕ) (x y : ℕ) → x < most_parts → y < most_parts → net_name_of prefix x ≡ net_name_of prefix y → x ≡ y }
    ensures apart { (prefix : List ℕ) (x y : ℕ) → cell_name_of prefix x ≢ net_name_of prefix y }
    ensures cell_form { (prefix : List ℕ) (x : ℕ) → IsPartName prefix (cell_name_of prefix x) }
    ensures net_form { (prefix : List ℕ) (x : ℕ) → IsPartName prefix (net_name_of prefix x) }
{}
