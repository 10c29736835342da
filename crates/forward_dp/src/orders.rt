//! The number of a sequence.

use std::marker::Model;

/// The number of a sequence: its phases as digits to the base 4, at most 40. It is kept in two halves, so that a row
/// takes no more memory than its parts.
///
/// docs/RULES.md, "Table".
#[derive(Debug, Clone, Copy, PartialEq, Eq)]
pub struct Order {
    high: u64,
    low: u64,
}

impl Model for Order {
    ghost use Rattle.std.specs.Prelude.{ℕ, ◌+◌, ◌*◌, ◌/◌, ◌%◌, ◌<◌};
    ghost use Rattle.forward_dp.specs.Halves.{halves-ok};

    ghost Value = { ℕ };

    ghost view = { λ o. o.high * 18446744073709551616 + o.low };

    ghost invariant = { λ o. o.low < 18446744073709551616 };

    ghost inverse = { λ n. record { high = n / 18446744073709551616; low = n % 18446744073709551616 } };

    ghost inverse_ok = { λ o h. λ i. record { high = (halves-ok o.high o.low h).0 i; low = (halves-ok o.high o.low h).1 i } };
}

impl Order {
    ghost use Rattle.std.specs.Prelude.{◌≡◌, ◌+◌, ◌*◌, ◌^◌, ◌<◌, ◌≤◌, ◌↔◌, IsTrue};

    /// The number of the sequence of no places.
    ///
    /// docs/RULES.md, "Table".
    pub fn none() -> Order
        ensures { result ≡ 0 }
    {
        Order { high: 0, low: 0 }
    }

    /// The number itself.
    ///
    /// docs/RULES.md, "Table".
    pub fn value(&self) -> u128
        ensures { result ≡ self.now }
    {
        u128::from(self.high) * 18_446_744_073_709_551_616 + u128::from(self.low)
    }

    /// The number of the sequence with one place more, of this phase.
    pub(crate) fn followed_by(&self, phase: u8) -> Order
        requires few { self.now < 4 ^ 40 }
        ensures { result ≡ self.now * 4 + phase }
    {
        let value = self.value() * 4 + u128::from(phase);
        Order {
            high: (value / 18_446_744_073_709_551_616) as u64,
            low: (value % 18_446_744_073_709_551_616) as u64,
        }
    }

    /// Whether it is not above another.
    pub(crate) fn is_up_to(&self, other: &Order) -> bool
        ensures { IsTrue result ↔ self.now ≤ other.now }
    {
        self.value() <= other.value()
    }
}
