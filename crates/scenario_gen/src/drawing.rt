//! What enters a square grid: words are drawn one after another, and decide.
ghost use Rattle.std.specs.Prelude.{◌≡◌, ◌<◌, ◌≤◌, ◌++◌, ◌∷◌, [], IfOk, OnOk, if◌then◌else◌, false, is_none, length};
ghost use Rattle.net_parts.specs.{Limits.limits, Outline.link_at};
ghost use Rattle.road_net.specs.Network.{IsNetwork};
ghost use Rattle.arrivals.specs.Rows.{AreRows};
ghost use Rattle.scenario_gen.specs.Arrivals as words;
ghost use Rattle.scenario_gen.specs.{Arrivals.after_words, Arrivals.row_by, Arrivals.rows_of_second, Grids.AreRounds};

use arrivals::ArrivalRow;
use rand_core::utils::NextWord;
use rand_pcg::Lcg64Xsh32;
use road_net::Network;
use std::alloc::{AllocError, Global};

/// The stream of the generator.
const STREAM: u64 = 54;

/// The seconds of a round.
const STEP: u32 = 5;

/// The rows of arrivals that the words of a number decide, in `rounds` rounds of a network that is not great.
pub(crate) fn rows(
    alloc: Global,
    number: u64,
    rounds: u32,
    net: &Network,
) -> Result<Vec<ArrivalRow>, AllocError>
    requires rounds { AreRounds rounds }
    requires few { length net.now.link_names ≤ (limits false).links }
    ensures value { IfOk result (λ rows. rows.items ≡ words.rows number rounds net.now) }
    ensures lawful { IfOk result (λ rows. AreRows net.now (words.rows number rounds net.now)) }
{
    let entered = sources(alloc, net)?;
    let mut generator = Lcg64Xsh32::new(number, STREAM);
    let mut rows = Vec::new(alloc);
    for second in 0..STEP * rounds {
        push_second(second, entered.as_slice(), &mut generator, &mut rows)?;
    }
    Ok(rows)
}

/// Draws a word for each of these links, and appends the rows that they bring in a second.
fn push_second(
    second: u32,
    entered: &[u32],
    generator: &mut Lcg64Xsh32,
    rows: &mut Vec<ArrivalRow>,
) -> Result<(), AllocError>
    ensures rows { OnOk result (rows.new.items ≡ rows.old.items ++ rows_of_second second entered.now generator.old) }
    ensures drawn { OnOk result (generator.new ≡ after_words generator.old (length entered.now)) }
{
    for link in entered {
        push_drawn(second, *link, generator.next_word(), rows)?;
    }
    Ok(())
}

/// Appends the row that a link brings in a second, by the word that was drawn for it, if it brings one.
fn push_drawn(
    second: u32,
    link: u32,
    word: u32,
    rows: &mut Vec<ArrivalRow>,
) -> Result<(), AllocError>
    ensures { OnOk result (rows.new.items ≡ rows.old.items ++ row_by second link word) }
{
    if word % 10 == 0 {
        rows.push(ArrivalRow {
            second,
            link,
            amount: 1000,
        })?;
    }
    Ok(())
}

/// The links that are entered from outside, in their order.
fn sources(alloc: Global, net: &Network) -> Result<Vec<u32>, AllocError>
    ensures value { IfOk result (λ links. links.items ≡ words.sources net.now) }
    ensures network { IfOk result (λ links. IsNetwork net.now) }
{
    let mut entered = Vec::new(alloc);
    for link in 0..net.links() {
        push_source(net, link, &mut entered)?;
    }
    Ok(entered)
}

/// Appends a link, if it is entered from outside.
fn push_source(net: &Network, link: u32, entered: &mut Vec<u32>) -> Result<(), AllocError>
    requires { link < length net.now.link_names }
    ensures { OnOk result (entered.new.items ≡ entered.old.items ++ (if is_none (link_at net.now link).from then link ∷ [] else [])) }
{
    if net.link(link).from.is_none() {
        entered.push(link)?;
    }
    Ok(())
}
