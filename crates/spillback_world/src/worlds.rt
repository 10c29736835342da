//! The world in which a full link holds back those who want to enter it.

ghost use Rattle.std.specs.Prelude.{◌≡◌, ℕ, ◌+◌, ◌*◌, ◌≤◌, ◌<◌, IfOk, List, length, replicate, slice_index, slice_index_or};
ghost use Rattle.net_parts.specs.Limits.{most_seconds};
ghost use Rattle.arrivals.specs.Amounts.{AreArrivals, arriving_of};
ghost use Rattle.control_flow.specs.declared.greens.Sign.{Sign};
ghost use Rattle.control_flow.specs.declared.greens.Sign.TheVariants.{Dark};
ghost use Rattle.control_flow.specs.Signs.{sign_at};
ghost use Rattle.net_simulator.specs.LinkGreens.{is_green, lit_since};
ghost use Rattle.net_simulator.specs.Rows.{kept_seconds};
ghost use Rattle.net_simulator.specs.Senses.{near_on, sense};
ghost use Rattle.net_simulator.specs.Worlds.{signs_by};
ghost use Rattle.road_net.specs.Senses.{IsSensedOf};
ghost use Rattle.spillback_world.specs.Counting.{CanBeCounted, counted_by};
ghost use Rattle.spillback_world.specs.StoredTotals.{IsBalanced};
ghost use Rattle.spillback_world.specs.Storage.{cumulative_in};
ghost use Rattle.spillback_world.specs.Steps.{AreEmpty, HaveScratch, IsLookedAt, state_of};
ghost use Rattle.spillback_world.specs.Worlds.{SpillState, Stands, IsWorldOf};

use crate::amounts::{clear, sum};
use crate::discharges::{Site, discharge, law_of_storages};
use crate::ends::{Gate, let_in, reach_ends};
use crate::signals::serve;
use crate::store::Store;
use crate::totals::SpillTotals;
use arrivals::Arrivals;
use control_flow::greens::Sign;
use foundation::items::Items;
use foundation::threads::CrossesThreads;
use net_simulator::link_seconds::{Shown, has_walks, look, remember};
use net_simulator::sensing::{Sight, near_amount, sense_links};
use net_simulator::starts::{no_greens, no_signs, zeros};
use net_simulator::{Lights, LinkTotals, rows};
use road_net::{Network, Sensed, law_of_network};
use std::alloc::{AllocError, Global};
use std::marker::Model;

/// What is kept of each link, in thousandths of a vehicle, and what a second needs.
#[derive(Drop)]
pub(crate) struct Links {
    pub(crate) queues: Vec<u32>,
    pub(crate) recent: Vec<u32>,
    pub(crate) waits: Vec<u32>,
    pub(crate) stood: Vec<u32>,
    pub(crate) outside: Vec<u32>,
    pub(crate) held: Vec<u32>,
    pub(crate) leaving: Vec<u32>,
    pub(crate) entering: Vec<u32>,
    pub(crate) rates: Vec<u32>,
}

/// The vehicles on the links of a network, each of which holds so much and no more, at a second.
///
/// A world stands for a network, arrivals, a store and timelines: all that it keeps is what the rules give for them over the
/// seconds below its own.
///
/// docs/RULES.md, "Storage".
#[derive(Drop)]
pub struct SpillWorld {
    second: u32,
    links: Links,
    signs: Vec<Sign>,
    since: Vec<u32>,
    walks: bool,
    totals: SpillTotals,
}

impl Model for SpillWorld {
    ghost use Rattle.std.specs.Prelude.{length};
    ghost use Rattle.spillback_world.specs.StoredTotals.{IsBalanced};
    ghost use Rattle.spillback_world.specs.Steps.{HaveScratch, state_of};
    ghost use Rattle.spillback_world.specs.Worlds.{SpillState};

    ghost Value = { SpillState };

    ghost view = { λ w. state_of w.links w.second w.signs.items w.since.items w.walks w.totals };

    ghost invariant = { λ w. HaveScratch w.links × IsBalanced w.totals };
}

impl CrossesThreads for SpillWorld {}

impl SpillWorld {
    /// The empty world of a network, at second 0, with all the capacity that it will need.
    ///
    /// `Err`: out of memory.
    ///
    /// docs/RULES.md, "Storage".
    pub fn new(alloc: Global, net: &Network) -> Result<SpillWorld, AllocError>
        ensures second { IfOk result (λ w. w.second ≡ 0) }
        ensures stands { (arriving : ℕ → ℕ → ℕ) (store : ℕ → ℕ) (shown : ℕ → ℕ → Sign)
            → IfOk result (λ w. Stands net.now arriving store shown w) }
    {
        let links = empty_links(alloc, net.links() as usize)?;
        let signs = no_signs(alloc, net.nodes() as usize)?;
        let since = no_greens(alloc, net.links() as usize)?;
        Ok(SpillWorld {
            second: 0,
            links,
            signs,
            since,
            walks: has_walks(net),
            totals: SpillTotals {
                entered: 0,
                left: 0,
                on: 0,
                outside: 0,
                delay: 0,
            },
        })
    }

    /// The second up to which the world has moved.
    ///
    /// docs/RULES.md, "Storage".
    pub fn now(&self) -> u32
        ensures { result ≡ self.now.second }
    {
        self.second
    }

    /// What is on link `link`: what entered it less what left it, in thousandths of a vehicle.
    ///
    /// docs/RULES.md, "Storage".
    pub fn held(&self, link: u32) -> u64
        requires { link < length self.now.held }
        ensures { result ≡ slice_index self.now.held link }
    {
        u64::from(self.links.held[link as usize])
    }

    /// What is counted of link `link`, by what was counted of it before the last second.
    pub(crate) fn count(&self, link: u32, before: LinkTotals) -> LinkTotals
        requires held { link < length self.now.held }
        requires queues { link < length self.now.queues }
        requires recent { link * kept_seconds + kept_seconds ≤ length self.now.recent }
        requires second { self.now.second ≤ most_seconds }
        requires fits { CanBeCounted before self.now link }
        ensures { result ≡ counted_by before self.now link }
    {
        let links = &self.links;
        let come = rows::at(links.recent.as_slice(), link, self.second + 127);
        let entered = before.entered + u64::from(come);
        LinkTotals {
            entered,
            left: entered - u64::from(links.held[link as usize]),
            delay: before.delay + u64::from(links.queues[link as usize]),
        }
    }

    /// What is counted of the whole network: what entered it has left it or is on its links.
    ///
    /// docs/RULES.md, "Storage".
    pub fn totals(&self) -> SpillTotals
        ensures value { result ≡ self.now.totals }
        ensures whole { IsBalanced result }
    {
        self.totals
    }

    /// What a node of the network sees of its entry links: their queues, for how long these have stood, and what is on its
    /// way to their ends. What waits outside of them is not seen.
    ///
    /// `Err`: out of memory.
    ///
    /// docs/RULES.md, "What a node sees".
    pub fn sense(&self, alloc: Global, net: &Network, node: u32) -> Result<Sensed, AllocError>
        requires node { node < length net.now.node_names }
        requires world { IsWorldOf net.now self.now }
        ensures sensed { IfOk result (IsSensedOf net.now node) }
        ensures value { (arriving : ℕ → ℕ → ℕ) (store : ℕ → ℕ) (shown : ℕ → ℕ → Sign)
            → Stands net.now arriving store shown self.now
            → IfOk result (λ s. s ≡ sense net.now (cumulative_in net.now arriving store shown self.now.second)
            self.now.second node) }
    {
        let sight = Sight {
            net,
            queues: self.links.queues.as_slice(),
            recent: self.links.recent.as_slice(),
            stood: self.links.stood.as_slice(),
            second: self.second,
        };
        let links = sense_links(alloc, &sight, net.entry_links(node), Vec::new(alloc))?;
        Ok(Sensed {
            now: self.second,
            links: Items::from_vec(links),
        })
    }

    /// What is near on a link of the network, in thousandths of a vehicle: its queue, and what reaches its end in this second
    /// and in each of the next `gap` ones, as far as that is on the link. It is of what `sense` answers to the node where the
    /// link ends, and takes no list. What waits outside of the link is not near.
    ///
    /// docs/RULES.md, "Storage".
    pub fn near(&self, net: &Network, link: u32, gap: u32) -> u32
        requires link { link < length net.now.link_names }
        requires world { IsWorldOf net.now self.now }
        ensures { (arriving : ℕ → ℕ → ℕ) (store : ℕ → ℕ) (shown : ℕ → ℕ → Sign)
            → Stands net.now arriving store shown self.now
            → result ≡ near_on net.now (cumulative_in net.now arriving store shown self.now.second)
            self.now.second gap link }
    {
        law_of_network(net);
        let sight = Sight {
            net,
            queues: self.links.queues.as_slice(),
            recent: self.links.recent.as_slice(),
            stood: self.links.stood.as_slice(),
            second: self.second,
        };
        near_amount(&sight, link, gap)
    }

    /// Moves by `seconds` seconds under these lights, up to second 86,400.
    ///
    /// docs/RULES.md, "Storage".
    pub fn advance<T: Lights>(
        &mut self,
        net: &Network,
        store: &Store,
        lights: &T,
        arrivals: &Arrivals,
        seconds: u32,
    )
        requires second { self.old.second + seconds ≤ most_seconds }
        requires store { length store.now ≡ length net.now.link_names }
        requires arrivals { AreArrivals net.now arrivals.now }
        requires stands { Stands net.now (arriving_of arrivals.now) (slice_index store.now)
            (signs_by (T.lines lights.now)) self.old }
        ensures second { self.new.second ≡ self.old.second + seconds }
        ensures stands { Stands net.now (arriving_of arrivals.now) (slice_index store.now)
            (signs_by (T.lines lights.now)) self.new }
    {
        for _i in 0..seconds {
            self.pass(net, store, lights, arrivals);
        }
    }

    /// Moves by one second.
    fn pass<T: Lights>(&mut self, net: &Network, store: &Store, lights: &T, arrivals: &Arrivals)
        requires second { self.old.second < most_seconds }
        requires store { length store.now ≡ length net.now.link_names }
        requires arrivals { AreArrivals net.now arrivals.now }
        requires stands { Stands net.now (arriving_of arrivals.now) (slice_index store.now)
            (signs_by (T.lines lights.now)) self.old }
        ensures second { self.new.second ≡ self.old.second + 1 }
        ensures stands { Stands net.now (arriving_of arrivals.now) (slice_index store.now)
            (signs_by (T.lines lights.now)) self.new }
    {
        law_of_network(net);
        let x = self.second;
        look(
            self.signs.as_mut_slice(),
            self.since.as_mut_slice(),
            net,
            lights,
            x,
            self.walks,
        );
        let moment = Moment {
            net,
            store,
            lights,
            signs: self.signs.as_slice(),
            since: self.since.as_slice(),
            walks: self.walks,
            arrivals,
            totals: self.totals,
            second: x,
        };
        self.totals = pass_second(&mut self.links, &moment);
        self.second = x + 1;
    }
}

/// What a second begins with: the network, how much its links can hold, its signals and what they show, what comes from
/// outside, and what is counted so far.
#[derive(Drop)]
struct Moment<'a, T> {
    net: &'a Network,
    store: &'a Store,
    lights: &'a T,
    signs: &'a [Sign],
    since: &'a [u32],
    walks: bool,
    arrivals: &'a Arrivals,
    totals: SpillTotals,
    second: u32,
}

/// What happens in one second. Answers what is counted then of the whole network.
fn pass_second<T: Lights>(links: &mut Links, moment: &Moment<T>) -> SpillTotals
    requires second { moment.now.second < most_seconds }
    requires scratch { HaveScratch links.old }
    requires store { length moment.now.store.now ≡ length moment.now.net.now.link_names }
    requires arrivals { AreArrivals moment.now.net.now moment.now.arrivals.now }
    requires signs { (n : ℕ) → n < length moment.now.net.now.node_names
        → slice_index_or moment.now.signs.now n Dark ≡ sign_at (T.lines moment.now.lights.now n) moment.now.second }
    requires nodes { length moment.now.signs.now ≡ length moment.now.net.now.node_names }
    requires links { length moment.now.since.now ≡ length moment.now.net.now.link_names }
    requires since { (l : ℕ) → l < length moment.now.net.now.link_names
        → slice_index moment.now.since.now l ≡
        lit_since (is_green moment.now.net.now (signs_by (T.lines moment.now.lights.now)) l) (moment.now.second + 1) }
    requires stands { IsLookedAt moment.now.net.now (arriving_of moment.now.arrivals.now)
        (slice_index moment.now.store.now) (signs_by (T.lines moment.now.lights.now))
        links.old moment.now.second moment.now.walks moment.now.totals }
    ensures scratch { HaveScratch links.new }
    ensures whole { IsBalanced result }
    ensures stands { Stands moment.now.net.now (arriving_of moment.now.arrivals.now) (slice_index moment.now.store.now)
        (signs_by (T.lines moment.now.lights.now))
        (state_of links.new (moment.now.second + 1) moment.now.signs.now moment.now.since.now moment.now.walks result) }
{
    let net = moment.net;
    let store = moment.store;
    let x = moment.second;
    let all = net.links();
    let leaving = links.leaving.as_mut_slice();
    let queues = links.queues.as_mut_slice();
    let entering = links.entering.as_mut_slice();
    let held = links.held.as_mut_slice();
    let outside = links.outside.as_mut_slice();
    let recent = links.recent.as_mut_slice();
    let waits = links.waits.as_mut_slice();
    let rates = links.rates.as_mut_slice();
    let out = reach_ends(leaving, queues, held, net, recent, x);
    let shown = Shown {
        signs: moment.signs,
        since: moment.since,
    };
    serve(rates, net, waits, &shown, queues, x);
    clear(entering, all);
    let site = Site { net, store, rates };
    discharge(leaving, queues, entering, held, &site);
    law_of_storages(store, 0);
    let gate = Gate {
        store,
        arrivals: moment.arrivals,
        second: x,
    };
    let come = let_in(outside, held, recent, entering, &gate, all);
    remember(waits, links.stood.as_mut_slice(), queues, all, x + 1);
    let entered = moment.totals.entered + come;
    let left = moment.totals.left + out;
    let outside = sum(outside, all);
    SpillTotals {
        entered,
        left,
        on: entered - left,
        outside,
        delay: moment.totals.delay + (sum(queues, all) + outside),
    }
}

/// What is kept of `n` links at second 0.
fn empty_links(alloc: Global, n: usize) -> Result<Links, AllocError>
    requires { n < 4294967296 }
    ensures { IfOk result (λ links. AreEmpty n links) }
{
    let queues = zeros(alloc, n)?;
    let recent = zeros(alloc, n * 128)?;
    let waits = zeros(alloc, n * 128)?;
    let stood = zeros(alloc, n)?;
    let outside = zeros(alloc, n)?;
    let held = zeros(alloc, n)?;
    let leaving = zeros(alloc, n)?;
    let entering = zeros(alloc, n)?;
    let rates = zeros(alloc, n)?;
    Ok(Links {
        queues,
        recent,
        waits,
        stood,
        outside,
        held,
        leaving,
        entering,
        rates,
    })
}
