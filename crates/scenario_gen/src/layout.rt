//! The layout of a square grid: its roads, and where each begins and ends.
ghost use Rattle.std.specs.Prelude.{◌≡◌, ◌*◌, ◌<◌, ◌++◌, IfOk, OnOk, filter, is_none, map};
ghost use Rattle.std.specs.List.{flat_map};
ghost use Rattle.scenario_gen.specs.Layout as layout;
ghost use Rattle.scenario_gen.specs.Layout.{entry_roads, exit_roads, node_if, nodes, IsSide};

use std::alloc::{AllocError, Global};

/// A direction on the grid. Rows run from north to south, columns from west to east.
#[derive(Debug, Clone, Copy, PartialEq, Eq)]
pub(crate) enum Direction {
    North,
    East,
    South,
    West,
}

/// The directions in their order.
const DIRECTIONS: [Direction; 4] = [
    Direction::North,
    Direction::East,
    Direction::South,
    Direction::West,
];

/// Whether a road leaves its node, or comes to it from outside.
#[derive(Debug, Clone, Copy, PartialEq, Eq)]
pub(crate) enum Kind {
    Leaving,
    Entering,
}

/// A road of the grid. It leaves its node in the direction, or comes to it from outside, from the side in that direction.
#[derive(Debug, Clone, Copy, PartialEq, Eq)]
pub(crate) struct Road {
    pub(crate) kind: Kind,
    pub(crate) node: u32,
    pub(crate) direction: Direction,
}

impl Direction {
    ghost use Rattle.std.specs.Prelude.{◌≡◌};
    ghost use Rattle.scenario_gen.specs.Layout as layout;
    ghost use Rattle.scenario_gen.specs.Layout.{number_of, phase_of};

    /// Its number, from 0 in the north, clockwise.
    pub(crate) fn number(self) -> u32
        ensures { result ≡ number_of self }
    {
        match self {
            Direction::North => 0,
            Direction::East => 1,
            Direction::South => 2,
            Direction::West => 3,
        }
    }

    /// The direction across.
    pub(crate) fn opposite(self) -> Direction
        ensures { result ≡ layout.opposite self }
    {
        match self {
            Direction::North => Direction::South,
            Direction::East => Direction::West,
            Direction::South => Direction::North,
            Direction::West => Direction::East,
        }
    }

    /// The next one, clockwise.
    pub(crate) fn clockwise(self) -> Direction
        ensures { result ≡ layout.clockwise self }
    {
        match self {
            Direction::North => Direction::East,
            Direction::East => Direction::South,
            Direction::South => Direction::West,
            Direction::West => Direction::North,
        }
    }

    /// The phase that serves the roads from this side.
    fn phase(self) -> u32
        ensures { result ≡ phase_of self }
    {
        match self {
            Direction::North | Direction::South => 0,
            Direction::East | Direction::West => 1,
        }
    }
}

impl Road {
    ghost use Rattle.std.specs.Prelude.{◌≡◌, ◌*◌, ◌<◌};
    ghost use Rattle.scenario_gen.specs.Layout.{begin_of, end_of, serves, side_of, IsSide};

    /// The node that it comes from.
    pub(crate) fn begin(self) -> Option<u32>
        ensures { result ≡ begin_of self }
    {
        match self.kind {
            Kind::Leaving => Some(self.node),
            Kind::Entering => None,
        }
    }

    /// The node that it ends at, in a grid with `side` nodes a side.
    pub(crate) fn end(self, side: u32) -> Option<u32>
        requires side { IsSide side }
        requires node { self.node < side * side }
        ensures { result ≡ end_of side self }
    {
        match self.kind {
            Kind::Leaving => neighbour(side, self.node, self.direction),
            Kind::Entering => Some(self.node),
        }
    }

    /// The side from which it comes to the node where it ends.
    pub(crate) fn side(self) -> Direction
        ensures { result ≡ side_of self }
    {
        match self.kind {
            Kind::Leaving => self.direction.opposite(),
            Kind::Entering => self.direction,
        }
    }

    /// Whether a phase of a node serves it.
    fn is_served(self, side: u32, node: u32, phase: u32) -> bool
        requires side { IsSide side }
        requires node { self.node < side * side }
        ensures { result ≡ serves side node phase self }
    {
        match self.end(side) {
            Some(end) => end == node && self.side().phase() == phase,
            None => false,
        }
    }
}

/// The neighbour of a node in a direction; nodes are numbered row by row.
fn neighbour(side: u32, node: u32, direction: Direction) -> Option<u32>
    requires side { IsSide side }
    requires node { node < side * side }
    ensures { result ≡ layout.neighbour side node direction }
{
    match direction {
        Direction::North => node_if(side <= node, node.wrapping_sub(side)),
        Direction::East => node_if(node % side + 1 < side, node + 1),
        Direction::South => node_if(node + side < side * side, node + side),
        Direction::West => node_if(node % side > 0, node.wrapping_sub(1)),
    }
}

/// The node, where there is one.
fn node_if(inside: bool, node: u32) -> Option<u32>
    ensures { result ≡ node_if inside node }
{
    if inside { Some(node) } else { None }
}

/// All roads of a grid: those that leave each node, and then those that come to each node from outside.
pub(crate) fn roads(alloc: Global, side: u32) -> Result<Vec<Road>, AllocError>
    requires { IsSide side }
    ensures { IfOk result (λ made. made.items ≡ layout.roads side) }
{
    let mut roads = Vec::new(alloc);
    push_leaving(side, &mut roads)?;
    push_entering(side, &mut roads)?;
    Ok(roads)
}

/// Appends the roads that leave each node.
fn push_leaving(side: u32, roads: &mut Vec<Road>) -> Result<(), AllocError>
    requires { IsSide side }
    ensures { OnOk result (roads.new.items ≡ roads.old.items ++ flat_map exit_roads (nodes side)) }
{
    for node in 0..side * side {
        push_leaving_node(&DIRECTIONS, node, roads)?;
    }
    Ok(())
}

/// Appends the roads that leave a node in these directions.
fn push_leaving_node(
    towards: &[Direction],
    node: u32,
    roads: &mut Vec<Road>,
) -> Result<(), AllocError>
    ensures { OnOk result (roads.new.items ≡ roads.old.items ++ map (layout.leaving_by node) towards.now) }
{
    for direction in towards {
        roads.push(Road {
            kind: Kind::Leaving,
            node,
            direction: *direction,
        })?;
    }
    Ok(())
}

/// Appends the roads that come to each node from outside.
fn push_entering(side: u32, roads: &mut Vec<Road>) -> Result<(), AllocError>
    requires { IsSide side }
    ensures { OnOk result (roads.new.items ≡ roads.old.items ++ flat_map (entry_roads side) (nodes side)) }
{
    for node in 0..side * side {
        push_entering_node(&DIRECTIONS, side, node, roads)?;
    }
    Ok(())
}

/// Appends the roads that come to a node from outside, from these sides of it.
fn push_entering_node(
    sides: &[Direction],
    side: u32,
    node: u32,
    roads: &mut Vec<Road>,
) -> Result<(), AllocError>
    requires side { IsSide side }
    requires node { node < side * side }
    ensures { OnOk result (roads.new.items ≡ roads.old.items
        ++ map (layout.entering_by node) (filter (λ d. is_none (layout.neighbour side node d)) sides.now)) }
{
    for direction in sides {
        if neighbour(side, node, *direction).is_none() {
            roads.push(Road {
                kind: Kind::Entering,
                node,
                direction: *direction,
            })?;
        }
    }
    Ok(())
}

/// The roads that a phase of a node serves.
pub(crate) fn phase_roads(
    alloc: Global,
    side: u32,
    roads: &[Road],
    node: u32,
    phase: u32,
) -> Result<Vec<Road>, AllocError>
    requires side { IsSide side }
    requires roads { roads.now ≡ layout.roads side }
    ensures { IfOk result (λ served. served.items ≡ layout.phase_roads side node phase) }
{
    let mut served = Vec::new(alloc);
    for road in roads {
        if road.is_served(side, node, phase) {
            served.push(*road)?;
        }
    }
    Ok(served)
}
