//! Ports.
use ncl_base::Name;

/// A port of a module, which has the name of its net.
#[derive(Clone, Debug, Drop)]
pub struct Port {
    pub name: Name,
    /// Whether it is an output. An input port drives its net, an output port doesn't.
    pub output: bool,
}
