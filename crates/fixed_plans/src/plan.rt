//! A fixed plan.
use crate::rows::FixedRow;
use std::marker::Model;

/// A fixed plan of a network: the rows of all nodes, by node, and within a node up its ring. Contracts see it as the
/// list of its rows.
///
/// docs/RULES.md, "Fixed plan".
#[derive(Drop)]
pub struct FixedPlan {
    rows: Vec<FixedRow>,
}

impl Model for FixedPlan {
    ghost use Rattle.std.specs.Prelude.{List};
    ghost use Rattle.fixed_plans.specs.declared.rows.FixedRow.{FixedRow};

    ghost Value = { List FixedRow };

    ghost view = { λ plan. plan.rows.items };
}

impl FixedPlan {
    ghost use Rattle.std.specs.Prelude.{◌≡◌};

    /// The plan of these rows.
    pub(crate) fn of_rows(rows: Vec<FixedRow>) -> FixedPlan
        ensures { result ≡ rows.items }
    {
        FixedPlan { rows }
    }

    /// Its rows, by node, and within a node up its ring.
    ///
    /// docs/RULES.md, "Fixed plan".
    pub fn rows(&self) -> &[FixedRow]
        ensures { result.now ≡ self.now }
    {
        self.rows.as_slice()
    }
}
