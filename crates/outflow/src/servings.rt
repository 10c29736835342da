//! Servings that a node has planned.
use switch_rules::Served;

/// The servings of a sequence, one after another, and the phase of each.
///
/// docs/RULES.md, "Predicted outflow".
#[derive(Drop)]
pub(crate) struct Servings<'a> {
    /// The phase of each serving.
    pub phases: &'a [u8],
    /// The servings.
    pub served: &'a [Served],
}
