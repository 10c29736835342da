//! Which version of the text says given phases and clusters.

ghost use Rattle.std.specs.Prelude.{◌≡◌};
ghost use Rattle.instance_form.specs.Versions.{has_marks, has_load, has_loads, marks_said, version_of};

use crate::form::Version;
use foundation::items::Items;
use phase_plan::{Marks, Phase};
use switch_rules::Cluster;

/// The least version that says these phases and clusters, of which so many are said to be marked.
pub fn version_of(marks: Marks, phases: &[Phase], lists: &[Items<Cluster>]) -> Version
    ensures { result ≡ version_of marks phases.now lists.now }
{
    match marks {
        Marks::All => Version::Four,
        Marks::AllButOne => Version::Five,
        Marks::Fewer if has_loads(lists) => Version::Three,
        Marks::Fewer if has_marks(phases) => Version::Two,
        Marks::Fewer => Version::One,
    }
}

/// What the version says of the marks.
pub fn marks_said(version: Version) -> Marks
    ensures { result ≡ marks_said version }
{
    match version {
        Version::One | Version::Two | Version::Three => Marks::Fewer,
        Version::Four => Marks::All,
        Version::Five => Marks::AllButOne,
    }
}

/// Whether some phase is marked.
pub fn has_marks(phases: &[Phase]) -> bool
    ensures { result ≡ has_marks phases.now }
{
    phases.iter().any(|phase| phase.skip)
}

/// Whether some cluster has another load than its size.
pub fn has_loads(lists: &[Items<Cluster>]) -> bool
    ensures { result ≡ has_loads lists.now }
{
    lists.iter().any(|list| has_load(list.as_slice()))
}

/// Whether some cluster of a list has another load than its size.
fn has_load(list: &[Cluster]) -> bool
    ensures { result ≡ has_load list.now }
{
    list.iter().any(|cluster| cluster.load != cluster.size)
}
