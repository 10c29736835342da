//! The texts that the network commands begin with.
ghost use Rattle.std.specs.Prelude.{◌≡◌, IfErr, IfOk, OnOk};
ghost use Rattle.arrivals.specs.Amounts.{AreArrivals, arriving_of};
ghost use Rattle.commands.specs.{Stops.StopsIn, Texts.AreIn};
ghost use Rattle.scene_jobs.specs.{Kinds.ArrivalsText, Meanings.three_texts, Meanings.two_texts};

use crate::kinds::{ArrivalsFile, NetworkFile};
use arrivals::Arrivals;
use commands::{Refusal, TextKind, TextPlace, fetch};
use outside_world::Shelf;
use road_net::Network;
use std::alloc::Global;

/// A network, and what a text after its own says of it.
///
/// docs/FORMATS.md, "Words".
#[derive(Drop)]
pub struct NetworkWith<T> {
    /// The network.
    pub network: Network,
    /// The arrivals at it, or the state in which a round of it begins.
    pub value: T,
}

/// The network of a command's first text, and what its second says of it.
///
/// `Err`: that of the first text that can't be had, as `fetch` says.
///
/// docs/FORMATS.md, "Words".
pub fn fetch_network_with<K: TextKind<Over = Network>, S: Shelf>(
    alloc: Global,
    shelf: &mut S,
    net: &str,
    second: &str,
) -> Result<NetworkWith<K::Value>, Refusal>
    ensures texts { IfOk result (λ all. AreIn (S.state shelf.old).files (two_texts K.kind net.now second.now)
        (all.network, (K.said all.network all.value, tt))) }
    ensures keeps { IfOk result (λ all. K.keeps all.network all.value) }
    ensures ok { OnOk result (S.state shelf.new ≡ S.state shelf.old) }
    ensures refused { IfErr result
        (StopsIn (two_texts K.kind net.now second.now) (S.state shelf.old) (S.state shelf.new)) }
{
    let network = fetch::<NetworkFile, S>(alloc, shelf, TextPlace::First, net, &())?;
    let value = fetch::<K, S>(alloc, shelf, TextPlace::Second, second, &network)?;
    Ok(NetworkWith { network, value })
}

/// A network, and arrivals at it.
///
/// docs/FORMATS.md, "Words".
#[derive(Drop)]
pub struct Scene {
    /// The network.
    pub network: Network,
    /// What enters it.
    pub arrivals: Arrivals,
}

/// The network of a command's first text, and the arrivals at it of its second.
///
/// `Err`: that of the first text that can't be had, as `fetch` says.
///
/// docs/FORMATS.md, "Words".
pub fn fetch_scene<S: Shelf>(
    alloc: Global,
    shelf: &mut S,
    net: &str,
    arr: &str,
) -> Result<Scene, Refusal>
    ensures texts { IfOk result (λ scene. AreIn (S.state shelf.old).files (two_texts ArrivalsText net.now arr.now)
        (scene.network, (arriving_of scene.arrivals, tt))) }
    ensures lawful { IfOk result (λ scene. AreArrivals scene.network scene.arrivals) }
    ensures ok { OnOk result (S.state shelf.new ≡ S.state shelf.old) }
    ensures refused { IfErr result
        (StopsIn (two_texts ArrivalsText net.now arr.now) (S.state shelf.old) (S.state shelf.new)) }
{
    let NetworkWith {
        network,
        value: arrivals,
    } = fetch_network_with::<ArrivalsFile, S>(alloc, shelf, net, arr)?;
    Ok(Scene { network, arrivals })
}

/// A network, arrivals at it, and what a third text says of the network.
///
/// docs/FORMATS.md, "Words".
#[derive(Drop)]
pub struct SceneWith<T> {
    /// The network and the arrivals.
    pub scene: Scene,
    /// A history, the sheet of a report, a store or a fixed plan.
    pub value: T,
}

/// The network of a command's first text, the arrivals at it of its second, and what its third says of the network.
///
/// `Err`: that of the first text that can't be had, as `fetch` says.
///
/// docs/FORMATS.md, "Words".
pub fn fetch_scene_with<K: TextKind<Over = Network>, S: Shelf>(
    alloc: Global,
    shelf: &mut S,
    net: &str,
    arr: &str,
    third: &str,
) -> Result<SceneWith<K::Value>, Refusal>
    ensures texts { IfOk result (λ all. AreIn (S.state shelf.old).files (three_texts K.kind net.now arr.now third.now)
        (all.scene.network, (arriving_of all.scene.arrivals, (K.said all.scene.network all.value, tt)))) }
    ensures entered { IfOk result (λ all. AreArrivals all.scene.network all.scene.arrivals) }
    ensures keeps { IfOk result (λ all. K.keeps all.scene.network all.value) }
    ensures ok { OnOk result (S.state shelf.new ≡ S.state shelf.old) }
    ensures refused { IfErr result
        (StopsIn (three_texts K.kind net.now arr.now third.now) (S.state shelf.old) (S.state shelf.new)) }
{
    let scene = fetch_scene(alloc, shelf, net, arr)?;
    let value = fetch::<K, S>(alloc, shelf, TextPlace::Third, third, &scene.network)?;
    Ok(SceneWith { scene, value })
}
