//! What holds of every world whose links hold so much and no more.

ghost use Rattle.std.specs.Prelude.{◌≡◌, ℕ, ◌<◌, List};
ghost use Rattle.arrivals.specs.Amounts.{Amounts, AreArrivals};
ghost use Rattle.control_flow.specs.Signs.{sign_at};
ghost use Rattle.control_flow.specs.declared.greens.Green.{Green};
ghost use Rattle.control_flow.specs.declared.greens.Sign.{Sign};
ghost use Rattle.net_parts.specs.Numbers.{Net};
ghost use Rattle.net_simulator.specs.Worlds.{signs_by};
ghost use Rattle.road_net.specs.Network.{IsNetwork};
ghost use Rattle.spillback_world.specs.Laws.{IsAmple, IsKept};
ghost use Rattle.spillback_world.specs.Worlds.{SpillState, Stands};

/// In a world whose links hold so much and no more, nothing is lost, and no link ever holds more than its storage, whatever
/// the signals show: what entered has left or is on the links, and what arrived has entered or waits outside.
///
/// docs/RULES.md, "Storage".
pub fn law_of_storage()
    ensures { (net : Net) (arrivals : Amounts) (store : ℕ → ℕ) (shown : ℕ → ℕ → Sign) (n : ℕ)
        → IsNetwork net → AreArrivals net arrivals → IsKept net arrivals store shown n }
{}

/// Where each link can hold all that may ever arrive, it is the world without bounds: nothing waits outside of it, and what
/// is counted is the same.
///
/// docs/RULES.md, "Storage".
pub fn law_of_ample_storage()
    ensures { (net : Net) (arrivals : Amounts) (shown : ℕ → ℕ → Sign) (n : ℕ)
        → IsNetwork net → AreArrivals net arrivals → IsAmple net arrivals shown n }
{}

/// A timeline counts for a world only by its signs in the seconds below the world's. So a world goes on under timelines that
/// are spliced from its second on.
///
/// docs/RULES.md, "Storage".
pub fn law_of_stored_lights()
    ensures { (net : Net) (arriving : ℕ → ℕ → ℕ) (store : ℕ → ℕ) (lines others : ℕ → List Green) (w : SpillState)
        → Stands net arriving store (signs_by lines) w
        → ((x node : ℕ) → x < w.second → sign_at (lines node) x ≡ sign_at (others node) x)
        → Stands net arriving store (signs_by others) w }
{}
