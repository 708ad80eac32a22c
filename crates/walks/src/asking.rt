// What one entry's filter is asked.
ghost use Rattle.std.specs.Prelude.{◌≡◌};

use filters::filter::Filter;
use rules::ring::Entry;

// Whether the entry's filter meets the other one.
pub(crate) fn meets<F: Filter>(entry: &Entry<F>, other: &F) -> bool
    ensures { result ≡ F.meeting entry.now.filter other.now }
{
    entry.filter.meets(other)
}
