//! The files of a fixed plan and of a store, and what they are read as.
use commands::{Flaw, TextKind};
use fixed_plans::{FixedPlan, read_fixed_plan};
use road_net::Network;
use spillback_world::{Store, read_store};
use std::alloc::Global;

/// The file of a fixed plan.
///
/// docs/FORMATS.md, "Words".
#[derive(Debug, Clone, Copy, PartialEq, Eq)]
pub struct PlanFile;

impl TextKind for PlanFile {
    ghost use Rattle.fixed_plans.specs.Rows.{IsFixedPlan};
    ghost use Rattle.controller_jobs.specs.Kinds.{PlanText};

    type Value = FixedPlan;

    type Over = Network;

    ghost kind = { PlanText };

    ghost said = { λ net plan. plan };

    ghost keeps = { IsFixedPlan };

    fn read(alloc: Global, text: &[u8], net: &Network) -> Result<FixedPlan, Flaw> {
        match read_fixed_plan(alloc, text, net) {
            Ok(value) => Ok(value),
            Err(fault) => Err(Flaw::from_fault(alloc, fault)),
        }
    }
}

/// The file of a store, which says how much each link can hold.
///
/// docs/FORMATS.md, "Words".
#[derive(Debug, Clone, Copy, PartialEq, Eq)]
pub struct StoreFile;

impl TextKind for StoreFile {
    ghost use Rattle.std.specs.Prelude.{◌≡◌, length};
    ghost use Rattle.controller_jobs.specs.Kinds.{StoreText};

    type Value = Store;

    type Over = Network;

    ghost kind = { StoreText };

    ghost said = { λ net store. store };

    ghost keeps = { λ net store. length store ≡ length net.link_names };

    fn read(alloc: Global, text: &[u8], net: &Network) -> Result<Store, Flaw> {
        match read_store(alloc, text, net) {
            Ok(value) => Ok(value),
            Err(fault) => Err(Flaw::from_fault(alloc, fault)),
        }
    }
}
