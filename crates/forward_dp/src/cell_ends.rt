//! Where the cells of a table end that are filled so far.

use foundation::threads::CrossesThreads;
use std::alloc::{AllocError, Global};

/// Where the rows of each cell end, cell after cell. It says where a search for a cell looks first; no contract depends on it,
/// since the search tests the place.
#[derive(Drop)]
pub(crate) struct CellEnds {
    ends: Vec<usize>,
    /// For each phase, how many places a cell is after the one with one cluster of the phase less.
    distances: [usize; 4],
}

impl CrossesThreads for CellEnds {}

impl CellEnds {
    ghost use Rattle.std.specs.Prelude.{◌<◌};

    /// No cells. It takes no memory.
    pub(crate) fn none(alloc: Global) -> CellEnds {
        CellEnds {
            ends: Vec::new(alloc),
            distances: [1; 4],
        }
    }

    /// Begins a table whose last cell has these counts: its first cell has one row.
    pub(crate) fn begin(&mut self, last: &[u8; 4]) -> Result<(), AllocError> {
        let [_, second, third, fourth] = *last;
        let third_distance = usize::from(fourth) + 1;
        let second_distance = third_distance.saturating_mul(usize::from(third) + 1);
        let first_distance = second_distance.saturating_mul(usize::from(second) + 1);
        self.distances = [first_distance, second_distance, third_distance, 1];
        self.ends.clear();
        self.ends.push(0)?;
        self.ends.push(1)?;
        Ok(())
    }

    /// The next cell ends here.
    pub(crate) fn push(&mut self, end: usize) -> Result<(), AllocError> {
        self.ends.push(end)?;
        Ok(())
    }

    /// Where the cell begins and ends from which a phase leads to the next one, of rows before which this many others stand.
    #[inline]
    pub(crate) fn before_next(&self, phase: u8, base: usize) -> (usize, usize)
        requires { phase < 4 }
    {
        let next = self.ends.len().saturating_sub(1);
        let place = next.saturating_sub(self.distances[phase as usize]);
        match (self.ends.get(place), self.ends.get(place + 1)) {
            (Some(start), Some(end)) => (start.saturating_sub(base), end.saturating_sub(base)),
            _ => (0, 0),
        }
    }
}
