//! The world.

ghost use Rattle.std.specs.Prelude.{◌≡◌, ℕ, ◌+◌, ◌≤◌, ◌<◌, IfOk, List, length, replicate, slice_index, slice_index_or};
ghost use Rattle.net_parts.specs.Limits.{most_seconds};
ghost use Rattle.arrivals.specs.Amounts.{Amounts, AreArrivals, arriving_of};
ghost use Rattle.control_flow.specs.declared.greens.Green.{Green};
ghost use Rattle.control_flow.specs.Signs.{sign_at};
ghost use Rattle.control_flow.specs.declared.greens.Sign.{Sign};
ghost use Rattle.control_flow.specs.declared.greens.Sign.TheVariants.{Dark};
ghost use Rattle.net_parts.specs.Numbers.{Net};
ghost use Rattle.net_simulator.specs.Counts.{counts_at, no_totals, IsBalanced};
ghost use Rattle.net_simulator.specs.Flow.{cumulative_under};
ghost use Rattle.net_simulator.specs.LinkGreens.{is_green, lit_since};
ghost use Rattle.net_simulator.specs.Senses.{near_on, sense};
ghost use Rattle.net_simulator.specs.Steps.{IsLookedAt};
ghost use Rattle.net_simulator.specs.Worlds.{WorldState, Stands, IsWorldOf, signs_by};
ghost use Rattle.road_net.specs.Senses.{IsSensedOf};

use super::lights::Lights;
use super::link_seconds::{Shown, has_walks, look, remember};
use super::seconds;
use super::sensing::{Sight, near_amount, sense_links};
use super::starts::{no_greens, no_signs, zeros};
use super::totals::{LinkTotals, Totals};
use arrivals::Arrivals;
use control_flow::greens::Sign;
use foundation::items::Items;
use foundation::threads::CrossesThreads;
use road_net::{LinkSense, Network, Sensed, law_of_network};
use std::alloc::{AllocError, Global};
use std::marker::Model;

/// The vehicles on the links of a network, at a second.
///
/// A world stands for a network, arrivals and timelines: all that it keeps is what the rules give for them over the seconds
/// below its own.
///
/// docs/RULES.md, "World".
#[derive(Drop)]
pub struct World {
    second: u32,
    queues: Vec<u32>,
    recent: Vec<u32>,
    waits: Vec<u32>,
    stood: Vec<u32>,
    signs: Vec<Sign>,
    since: Vec<u32>,
    leaving: Vec<u32>,
    counts: Vec<LinkTotals>,
    totals: Totals,
    walks: bool,
}

impl Model for World {
    ghost use Rattle.std.specs.Prelude.{◌≡◌, length};
    ghost use Rattle.net_simulator.specs.Counts.{IsBalanced};
    ghost use Rattle.net_simulator.specs.Worlds.{WorldState};

    ghost Value = { WorldState };

    ghost view = { λ w. record {
      second = w.second;
      signs = w.signs.items;
      since = w.since.items;
      queues = w.queues.items;
      recent = w.recent.items;
      waits = w.waits.items;
      stood = w.stood.items;
      counts = w.counts.items;
      totals = w.totals;
      walks = w.walks;
    } };

    ghost invariant = { λ w. (length w.leaving.items ≡ length w.queues.items) × IsBalanced w.totals };
}

impl CrossesThreads for World {}

impl World {
    /// The empty world of a network, at second 0, with all the capacity that it will need.
    ///
    /// `Err`: out of memory.
    ///
    /// docs/RULES.md, "World".
    pub fn new(alloc: Global, net: &Network) -> Result<World, AllocError>
        ensures second { IfOk result (λ w. w.second ≡ 0) }
        ensures stands { (arriving : ℕ → ℕ → ℕ) (shown : ℕ → ℕ → Sign)
            → IfOk result (λ w. Stands net.now arriving shown w) }
    {
        let links = net.links() as usize;
        let queues = zeros(alloc, links)?;
        let recent = zeros(alloc, links * 128)?;
        let waits = zeros(alloc, links * 128)?;
        let stood = zeros(alloc, links)?;
        let leaving = zeros(alloc, links)?;
        let counts = no_counts(alloc, links)?;
        let signs = no_signs(alloc, net.nodes() as usize)?;
        let since = no_greens(alloc, links)?;
        Ok(World {
            second: 0,
            queues,
            recent,
            waits,
            stood,
            signs,
            since,
            leaving,
            counts,
            totals: Totals {
                entered: 0,
                left: 0,
                on: 0,
                delay: 0,
            },
            walks: has_walks(net),
        })
    }

    /// The second up to which the world has moved.
    ///
    /// docs/RULES.md, "World".
    pub fn now(&self) -> u32
        ensures { result ≡ self.now.second }
    {
        self.second
    }

    /// What is counted of link `l`, from second 0 on.
    ///
    /// docs/RULES.md, "World".
    pub fn link_totals(&self, l: u32) -> LinkTotals
        requires { l < length self.now.counts }
        ensures { result ≡ counts_at self.now.counts l }
    {
        self.counts[l as usize]
    }

    /// What is counted of the whole network: what entered it has left it or is on its links.
    ///
    /// docs/RULES.md, "World".
    pub fn totals(&self) -> Totals
        ensures value { result ≡ self.now.totals }
        ensures whole { IsBalanced result }
    {
        self.totals
    }

    /// What a node of the network sees of its entry links: their queues, for how long these have stood, and what is on its
    /// way to their ends.
    ///
    /// `Err`: out of memory.
    ///
    /// docs/RULES.md, "What a node sees".
    pub fn sense(&self, alloc: Global, net: &Network, node: u32) -> Result<Sensed, AllocError>
        requires node { node < length net.now.node_names }
        requires world { IsWorldOf net.now self.now }
        ensures sensed { IfOk result (IsSensedOf net.now node) }
        ensures value { (arriving : ℕ → ℕ → ℕ) (lines : ℕ → List Green)
            → Stands net.now arriving (signs_by lines) self.now
            → IfOk result (λ s. s ≡
            sense net.now (cumulative_under net.now arriving (signs_by lines) self.now.second)
            self.now.second node) }
    {
        self.sense_again(alloc, net, node, Vec::new(alloc))
    }

    /// What a node of the network sees of its entry links, as `sense` answers it, in the memory of what it saw before.
    /// It takes more only where that is too little; what stands in `spare` does not matter.
    ///
    /// `Err`: out of memory.
    ///
    /// docs/RULES.md, "What a node sees".
    pub fn sense_again(
        &self,
        alloc: Global,
        net: &Network,
        node: u32,
        spare: Vec<LinkSense>,
    ) -> Result<Sensed, AllocError>
        requires node { node < length net.now.node_names }
        requires world { IsWorldOf net.now self.now }
        ensures sensed { IfOk result (IsSensedOf net.now node) }
        ensures value { (arriving : ℕ → ℕ → ℕ) (lines : ℕ → List Green)
            → Stands net.now arriving (signs_by lines) self.now
            → IfOk result (λ s. s ≡
            sense net.now (cumulative_under net.now arriving (signs_by lines) self.now.second)
            self.now.second node) }
    {
        let sight = Sight {
            net,
            queues: self.queues.as_slice(),
            recent: self.recent.as_slice(),
            stood: self.stood.as_slice(),
            second: self.second,
        };
        let links = sense_links(alloc, &sight, net.entry_links(node), spare)?;
        Ok(Sensed {
            now: self.second,
            links: Items::from_vec(links),
        })
    }

    /// What is near on a link of the network, in thousandths of a vehicle: its queue, and what reaches its end in this second
    /// and in each of the next `gap` ones, as far as that is on the link. It is of what `sense` answers to the node where the
    /// link ends, and takes no list.
    ///
    /// docs/RULES.md, "Actuated control".
    pub fn near(&self, net: &Network, link: u32, gap: u32) -> u32
        requires link { link < length net.now.link_names }
        requires world { IsWorldOf net.now self.now }
        ensures { (arriving : ℕ → ℕ → ℕ) (lines : ℕ → List Green)
            → Stands net.now arriving (signs_by lines) self.now
            → result ≡ near_on net.now (cumulative_under net.now arriving (signs_by lines) self.now.second)
            self.now.second gap link }
    {
        law_of_network(net);
        let sight = Sight {
            net,
            queues: self.queues.as_slice(),
            recent: self.recent.as_slice(),
            stood: self.stood.as_slice(),
            second: self.second,
        };
        near_amount(&sight, link, gap)
    }

    /// Moves by `seconds` seconds under these lights, up to second 86,400.
    ///
    /// docs/RULES.md, "World".
    pub fn advance<T: Lights>(
        &mut self,
        net: &Network,
        lights: &T,
        arrivals: &Arrivals,
        seconds: u32,
    )
        requires second { self.old.second + seconds ≤ most_seconds }
        requires arrivals { AreArrivals net.now arrivals.now }
        requires stands { Stands net.now (arriving_of arrivals.now) (signs_by (T.lines lights.now)) self.old }
        ensures second { self.new.second ≡ self.old.second + seconds }
        ensures stands { Stands net.now (arriving_of arrivals.now) (signs_by (T.lines lights.now)) self.new }
    {
        for _i in 0..seconds {
            self.pass(net, lights, arrivals);
        }
    }

    /// Moves by one second.
    fn pass<T: Lights>(&mut self, net: &Network, lights: &T, arrivals: &Arrivals)
        requires second { self.old.second < most_seconds }
        requires arrivals { AreArrivals net.now arrivals.now }
        requires stands { Stands net.now (arriving_of arrivals.now) (signs_by (T.lines lights.now)) self.old }
        ensures second { self.new.second ≡ self.old.second + 1 }
        ensures stands { Stands net.now (arriving_of arrivals.now) (signs_by (T.lines lights.now)) self.new }
    {
        law_of_network(net);
        let x = self.second;
        look(
            self.signs.as_mut_slice(),
            self.since.as_mut_slice(),
            net,
            lights,
            x,
            self.walks,
        );
        let moment = Moment {
            net,
            lights,
            signs: self.signs.as_slice(),
            since: self.since.as_slice(),
            arrivals,
            totals: self.totals,
            second: x,
            walks: self.walks,
        };
        self.totals = pass_second(
            self.queues.as_mut_slice(),
            self.recent.as_mut_slice(),
            self.waits.as_mut_slice(),
            self.stood.as_mut_slice(),
            self.leaving.as_mut_slice(),
            self.counts.as_mut_slice(),
            &moment,
        );
        self.second = x + 1;
    }
}

/// What a second begins with: the network, its signals and what they show, what comes from outside, and what is counted so
/// far.
#[derive(Drop)]
struct Moment<'a, T> {
    net: &'a Network,
    lights: &'a T,
    signs: &'a [Sign],
    since: &'a [u32],
    arrivals: &'a Arrivals,
    totals: Totals,
    second: u32,
    walks: bool,
}

/// What happens in one second. Answers what is counted then of the whole network.
fn pass_second<T: Lights>(
    queues: &mut [u32],
    recent: &mut [u32],
    waits: &mut [u32],
    stood: &mut [u32],
    leaving: &mut [u32],
    counts: &mut [LinkTotals],
    moment: &Moment<T>,
) -> Totals
    requires second { moment.now.second < most_seconds }
    requires leaving { length leaving.old ≡ length queues.old }
    requires arrivals { AreArrivals moment.now.net.now moment.now.arrivals.now }
    requires signs { (n : ℕ) → n < length moment.now.net.now.node_names
        → slice_index_or moment.now.signs.now n Dark ≡
        sign_at (T.lines moment.now.lights.now n) moment.now.second }
    requires since { (l : ℕ) → l < length moment.now.net.now.link_names
        → slice_index moment.now.since.now l ≡
        lit_since (is_green moment.now.net.now (signs_by (T.lines moment.now.lights.now)) l) (moment.now.second + 1) }
    requires stands { IsLookedAt moment.now.net.now (arriving_of moment.now.arrivals.now)
        (signs_by (T.lines moment.now.lights.now)) (record {
          second = moment.now.second;
          signs = moment.now.signs.now;
          since = moment.now.since.now;
          queues = queues.old;
          recent = recent.old;
          waits = waits.old;
          stood = stood.old;
          counts = counts.old;
          totals = moment.now.totals;
          walks = moment.now.walks;
        }) }
    ensures whole { IsBalanced result }
    ensures stands { Stands moment.now.net.now (arriving_of moment.now.arrivals.now)
        (signs_by (T.lines moment.now.lights.now)) (record {
          second = moment.now.second + 1;
          signs = moment.now.signs.now;
          since = moment.now.since.now;
          queues = queues.new;
          recent = recent.new;
          waits = waits.new;
          stood = stood.new;
          counts = counts.new;
          totals = result;
          walks = moment.now.walks;
        }) }
{
    let net = moment.net;
    let x = moment.second;
    let totals = &moment.totals;
    let links = net.links();
    let arriving = seconds::arrive(recent, queues, net, moment.arrivals, x);
    let shown = Shown {
        signs: moment.signs,
        since: moment.since,
    };
    let out = seconds::discharge(leaving, recent, net, waits, &shown, queues, x);
    seconds::settle(queues, leaving, links);
    remember(waits, stood, queues, links, x + 1);
    let waiting = seconds::count(counts, recent, leaving, queues, links, x);
    let entered = totals.entered + arriving;
    let left = totals.left + out;
    Totals {
        entered,
        left,
        on: entered - left,
        delay: totals.delay + waiting,
    }
}

/// A timeline counts for a world only by its signs in the seconds below the world's. So a world goes on under timelines that
/// are spliced from its second on.
///
/// docs/RULES.md, "World".
pub fn law_of_lights()
    ensures { (net : Net) (arriving : ℕ → ℕ → ℕ) (lines others : ℕ → List Green) (w : WorldState)
        → Stands net arriving (signs_by lines) w
        → ((x node : ℕ) → x < w.second → sign_at (lines node) x ≡ sign_at (others node) x)
        → Stands net arriving (signs_by others) w }
{}

/// What is counted at second 0 of `links` links.
fn no_counts(alloc: Global, n: usize) -> Result<Vec<LinkTotals>, AllocError>
    ensures { IfOk result (λ v. v.items ≡ replicate n no_totals) }
{
    let nothing = LinkTotals {
        entered: 0,
        left: 0,
        delay: 0,
    };
    vec![in alloc; nothing; n]
}
