//! How an amount is divided among the turns of a link.
ghost use Rattle.std.specs.Prelude.{◌≡◌, ◌≢◌, ◌+◌, ◌≤◌, ℕ, List, AllPairs, sum_by};
ghost use Rattle.net_parts.specs.declared.roads.Turn.{Turn};
ghost use Rattle.road_net.specs.Joins.{share_of, part_between, split_of};

use net_parts::Turn;

/// The part of an amount that turns into the link `exit`: 0 where no turn leads there.
pub(crate) fn split(turns: &[Turn], amount: u32, exit: u32) -> u32
    requires { sum_by share_of turns.now ≤ 1000 }
    ensures { result ≡ split_of turns.now amount exit }
{
    let mut before = 0;
    for turn in turns {
        if turn.exit == exit {
            return part_of_turn(amount, before, turn.share);
        }
        before += turn.share;
    }
    0
}

/// The part of an amount that makes a turn with this share, where the turns of the link before it have the share
/// `before` together. Whoever goes over the turns of a link with a running share has all parts in one step each.
///
/// docs/RULES.md, "Turning".
pub fn part_of_turn(amount: u32, before: u32, share: u32) -> u32
    requires { before + share ≤ 1000 }
    ensures value { result ≡ part_between amount before (before + share) }
    ensures bounds { result ≤ amount }
{
    let amount = u64::from(amount);
    let before = u64::from(before);
    let through = before + u64::from(share);
    (amount * through / 1000 - amount * before / 1000) as u32
}

/// The parts of a split are the whole amount, for all turns into links that differ whose shares are the whole.
///
/// docs/RULES.md, "Turning".
pub fn law_of_parts()
    ensures { (turns : List Turn) (amount : ℕ) → AllPairs (λ s t. s.exit ≢ t.exit) turns → sum_by share_of turns ≡ 1000
        → sum_by (λ t. split_of turns amount t.exit) turns ≡ amount }
{}
