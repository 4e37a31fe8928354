// The channel counts, stepped in place.
ghost use Rattle.std.specs.Prelude.{◌≡◌, ◌-◌, ◌≤◌, ◌<◌, get_or};
ghost use Rattle.kinds.specs.Sizes as sizes;
ghost use Rattle.rules.specs.Send.{step_count};
ghost use Rattle.rules.specs.Course.{taken_from};

use kinds::Channels;
use kinds::sizes::SITES;

// One more at a site's count.
pub(crate) fn step_site(counts: &mut [u64; SITES], site: u64)
    requires { (1 ≤ site) × ((site ≤ sizes.sites) × (get_or counts.old (site - 1) 0 < sizes.last)) }
    ensures { counts.new ≡ step_count counts.old (site - 1) }
{
    counts[(site - 1) as usize] += 1;
}

// One more message taken from a site: the lent counters change in place.
pub fn step_taken(c: &mut Channels, from: u64)
    requires { (1 ≤ from) × ((from ≤ sizes.sites) × (get_or c.old.taken (from - 1) 0 < sizes.last)) }
    ensures { c.new ≡ taken_from c.old from }
{
    step_site(&mut c.taken, from);
}
