//! The generic jobs of commands that write something of a network, or of it and of what enters it.
ghost use Rattle.arrivals.specs.Amounts.{AreArrivals, arriving_of};
ghost use Rattle.commands.specs.{Ending.Makes, Outcome.Outcome};
ghost use Rattle.scene_jobs.specs.Meanings.{over_network, over_scene};

use crate::kinds::NetworkFile;
use crate::scenes::fetch_scene;
use arrivals::Arrivals;
use commands::{Made, Refusal, Status, TextPlace, end, fetch};
use outside_world::{Shelf, Sink};
use road_net::Network;
use std::alloc::{AllocError, Global};

/// A command that writes something of a network.
///
/// docs/FORMATS.md, "Words".
pub trait NetworkWork {
    ghost use Rattle.std.specs.Prelude.{ℕ, List, IfOk};
    ghost use Rattle.net_parts.specs.Numbers.{Net};

    /// What it writes.
    ghost writes: { Self → Net → List ℕ → Type 0 };

    /// What it writes. `Err`: out of memory.
    fn write(&self, alloc: Global, net: &Network) -> Result<Vec<u8>, AllocError>
        ensures { IfOk result (λ text. writes self.now net.now text.items) };
}

/// A command that writes something of a network and of what enters it.
///
/// docs/FORMATS.md, "Words".
pub trait SceneWork {
    ghost use Rattle.std.specs.Prelude.{ℕ, List, IfOk};
    ghost use Rattle.arrivals.specs.Amounts.{AreArrivals, arriving_of};
    ghost use Rattle.net_parts.specs.Numbers.{Net};

    /// What it writes.
    ghost writes: { Self → Net → (ℕ → ℕ → ℕ) → List ℕ → Type 0 };

    /// What it writes. `Err`: out of memory.
    fn write(
        &self,
        alloc: Global,
        net: &Network,
        arrivals: &Arrivals,
    ) -> Result<Vec<u8>, AllocError>
        requires { AreArrivals net.now arrivals.now }
        ensures { IfOk result (λ text. writes self.now net.now (arriving_of arrivals.now) text.items) };
}

// What a command makes of the network in a file.
fn network_text<W: NetworkWork, S: Shelf>(
    alloc: Global,
    work: &W,
    shelf: &mut S,
    net: &str,
) -> Result<Made, Refusal>
    ensures { Makes (over_network (W.writes work.now) net.now) (S.state shelf.old) (S.state shelf.new) result }
{
    let network = fetch::<NetworkFile, S>(alloc, shelf, TextPlace::First, net, &())?;
    let text = work.write(alloc, &network)?;
    Ok(Made::Done(text))
}

/// A command over the network in a file.
///
/// Each status has its cause, and each refusal writes its line to `err`, as `signal` says.
///
/// docs/FORMATS.md, "Words".
pub fn network_job<W: NetworkWork, S: Shelf, O: Sink, E: Sink>(
    alloc: Global,
    work: &W,
    net: &str,
    shelf: &mut S,
    out: &mut O,
    err: &mut E,
) -> Status
    ensures { Outcome (over_network (W.writes work.now) net.now)
        (record { shelf = S.state shelf.old; out = O.state out.old; err = E.state err.old })
        (record { shelf = S.state shelf.new; out = O.state out.new; err = E.state err.new }) result }
{
    end(alloc, network_text(alloc, work, shelf, net), out, err)
}

// What a command makes of the network and the arrivals in two files.
fn scene_text<W: SceneWork, S: Shelf>(
    alloc: Global,
    work: &W,
    shelf: &mut S,
    net: &str,
    arr: &str,
) -> Result<Made, Refusal>
    ensures { Makes (over_scene (W.writes work.now) net.now arr.now) (S.state shelf.old) (S.state shelf.new) result }
{
    let scene = fetch_scene(alloc, shelf, net, arr)?;
    let text = work.write(alloc, &scene.network, &scene.arrivals)?;
    Ok(Made::Done(text))
}

/// A command over the network and the arrivals in two files.
///
/// Each status has its cause, and each refusal writes its line to `err`, as `signal` says.
///
/// docs/FORMATS.md, "Words".
pub fn scene_job<W: SceneWork, S: Shelf, O: Sink, E: Sink>(
    alloc: Global,
    work: &W,
    net: &str,
    arr: &str,
    shelf: &mut S,
    out: &mut O,
    err: &mut E,
) -> Status
    ensures { Outcome (over_scene (W.writes work.now) net.now arr.now)
        (record { shelf = S.state shelf.old; out = O.state out.old; err = E.state err.old })
        (record { shelf = S.state shelf.new; out = O.state out.new; err = E.state err.new }) result }
{
    end(alloc, scene_text(alloc, work, shelf, net, arr), out, err)
}
