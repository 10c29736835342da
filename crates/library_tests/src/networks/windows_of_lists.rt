//! Windows of lists of platoons that arrive at even spaces.
ghost use Rattle.std.specs.Prelude.{◌≡◌, ◌+◌, ◌*◌, ◌≤◌, All, IfOk, IfSome, length, map, vec_len};
ghost use Rattle.std.specs.List.{range_with_len};
ghost use Rattle.clusters.specs.Windows.{IsRising};

use clusters::{Parts, Platoon, window};
use foundation::items::Items;
use std::alloc::{AllocError, Global};
use std::test::Fail;
use switch_rules::Cluster;

/// For each phase when its first platoon arrives, how many seconds lie from each to the next, and how many there are; and
/// how many of each phase are in the window, and how many wait.
const WINDOWS: &[(&[[u32; 3]], &[u32])] = &[
    (&[[0, 10, 9], [5, 10, 10]], &[9, 9, 1]),
    (&[[0, 10, 10], [0, 10, 10]], &[9, 9, 2]),
    (&[[5, 1, 3], [0, 50, 2]], &[3, 2, 0]),
    (&[[0, 1, 45], [100, 1, 2]], &[40, 0, 7]),
    (&[[100, 1, 2], [0, 1, 45]], &[0, 40, 7]),
    (
        &[[0, 7, 6], [3, 5, 6], [1, 11, 4], [2, 13, 4]],
        &[3, 3, 2, 2, 10],
    ),
    (&[[0, 1, 0], [0, 1, 0]], &[0, 0, 0]),
    (&[[0, 2, 30], [1, 60, 1], [0, 1, 0]], &[30, 1, 0, 0]),
    (
        &[[0, 3, 180], [1, 3, 180], [2, 3, 180], [0, 4, 180]],
        &[3, 3, 2, 2, 710],
    ),
];

/// A platoon of one vehicle that arrives in this second.
fn platoon(alloc: Global, arr: u32) -> Result<Platoon, AllocError>
    ensures { IfOk result (λ platoon. platoon.cluster.arr ≡ arr) }
{
    let cluster = Cluster {
        size: 1000,
        load: 1000,
        arr,
        len: 1,
    };
    Ok(Platoon {
        cluster,
        parts: Parts::none(alloc)?,
    })
}

/// A number of platoons, one after another.
fn spaced(alloc: Global, first: u32, space: u32, count: u32) -> Result<Vec<Platoon>, AllocError>
    requires first { first ≤ 1000 }
    requires space { (1 ≤ space) × (space ≤ 1000) }
    requires count { count ≤ 180 }
    ensures { IfOk result (λ list. IsRising list.items) }
{
    let mut list = Vec::new(alloc);
    for place in 0..count {
        list.push(platoon(alloc, first + space * place)?)?;
    }
    Ok(list)
}

/// The lists of these rows; nothing where a row has a number out of its bounds.
fn lists_of(alloc: Global, rows: &[[u32; 3]]) -> Result<Option<Vec<Items<Platoon>>>, AllocError>
    ensures { IfOk result (λ made. IfSome made (λ lists. (vec_len lists ≡ length rows.now) × All IsRising lists.items)) }
{
    let mut lists = Vec::new(alloc);
    for &[first, space, count] in rows {
        if first > 1000 || space == 0 || space > 1000 || count > 180 {
            return Ok(None);
        }
        lists.push(Items::from_vec(spaced(alloc, first, space, count)?))?;
    }
    Ok(Some(lists))
}

/// How many platoons of each list are in the window, and how many wait.
fn taken(alloc: Global, rows: &[[u32; 3]]) -> Result<Vec<u32>, AllocError> {
    let mut seen = Vec::new(alloc);
    if rows.len() > 4 {
        return Ok(seen);
    }
    if let Some(lists) = lists_of(alloc, rows)? {
        let window = window(alloc, lists)?;
        for list in window.lists.as_slice() {
            seen.push((list.len() % 1000) as u32)?;
        }
        seen.push(window.waiting)?;
    }
    Ok(seen)
}

#[test]
fn windows(rt: HostRuntime) -> Result<(), Fail> {
    for &(rows, counts) in WINDOWS {
        assert_eq!(rt; taken(rt.alloc(), rows)?.as_slice(), counts);
    }
    Ok(())
}
