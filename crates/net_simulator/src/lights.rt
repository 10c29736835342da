//! What the signals show.

use control_flow::greens::Sign;

/// What the signals of a network show: each node has a timeline.
///
/// docs/RULES.md, "World".
pub trait Lights {
    ghost use Rattle.std.specs.Prelude.{◌≡◌, ℕ, List};
    ghost use Rattle.control_flow.specs.declared.greens.Green.{Green};
    ghost use Rattle.control_flow.specs.Signs.{sign_at};

    ghost lines: { Self → ℕ → List Green };

    /// The sign of a node in a second, by its timeline.
    ///
    /// docs/RULES.md, "Signs".
    fn sign(&self, node: u32, second: u32) -> Sign
        ensures { result ≡ sign_at (lines self.now node) second };
}
