//! The report of the run of a history.
ghost use Rattle.std.specs.Prelude.{IfOk};
ghost use Rattle.arrivals.specs.Amounts.{AreArrivals, arriving_of};
ghost use Rattle.histories.specs.Histories.{IsLawful};
ghost use Rattle.network_jobs.specs.Headline.{Headline};

use arrivals::Arrivals;
use bounded_runs::kept_run;
use delay_report::{law_of_reports, render};
use histories::History;
use road_net::{Network, law_of_network};
use std::alloc::{AllocError, Global};

/// The report of the run of a lawful history. `Err`: out of memory.
pub fn report(
    alloc: Global,
    net: &Network,
    arrivals: &Arrivals,
    h: &History,
) -> Result<Vec<u8>, AllocError>
    requires arrivals { AreArrivals net.now arrivals.now }
    requires lawful { IsLawful net.now h.now }
    ensures { IfOk result (λ text. Headline net.now (arriving_of arrivals.now) h.now text.items) }
{
    law_of_network(net);
    // It is called for its clause `clean`.
    law_of_reports(net);
    let run = kept_run(alloc, net, arrivals, h)?;
    render(alloc, net, &run, h)
}
