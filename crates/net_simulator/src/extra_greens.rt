//! What further greens do for a link.
ghost use Rattle.std.specs.Prelude.{ℕ, ◌≤◌, Bool};
ghost use Rattle.net_simulator.specs.Discharging.{AreWays};

/// Further greens beside the home of a link that gives way to no other never lengthen its queue: whatever reaches its end, no less has
/// left it by each second by all its greens than by its home alone.
///
/// docs/RULES.md, "Links".
pub fn law_of_extra_greens()
    ensures { (home all : ℕ → Bool) (loss losses : ℕ → ℕ) (most sat : ℕ) (came left more : ℕ → ℕ)
        → AreWays home all loss losses most sat came left more → (n : ℕ) → left n ≤ more n }
{}
