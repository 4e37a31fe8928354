// The house that `sites` opens (Q3.7): its first keys stand behind the count, or are 0, 256 and so on where none is given.
ghost use Rattle.std.specs.Prelude.{◌≡◌, ◌≤◌, length};
ghost use Rattle.kinds.specs.Refusal.{refusal_in};
ghost use Rattle.kinds.specs.Sizes as sizes;
ghost use Rattle.rules.specs.House.{house_of};
ghost use Rattle.rules.specs.Merger.{merger_start_code};
ghost use Rattle.routing.specs.Open.{table_given};

use kinds::{House, Refusal};
use numbers::{count_ok, house_of, table_ok};
use pieces::front;

// What the starts of the house will be refused with: a line that gives keys gives one for each site.
#[tactic(auto, unfolding(rules::specs::Merger::merger_start_code, crate::specs::Open::table_given))]
pub fn check_open(n: u64, given: u64, keys: &[u64]) -> Result<(), Refusal>
    ensures { refusal_in result ≡ merger_start_code n (table_given n given keys.now) sizes.queues }
{
    if !count_ok(n) {
        return Err(Refusal::Malformed);
    }
    if given == 0 {
        return Ok(());
    }
    let firsts = front(keys, given as usize);
    if firsts.len() as u64 != n {
        return Err(Refusal::Malformed);
    }
    if !table_ok(n, firsts) {
        return Err(Refusal::BadTable);
    }
    Ok(())
}

#[tactic(auto, unfolding(crate::specs::Open::table_given, rules::specs::House::even_table))]
pub fn open_house(n: u64, given: u64, keys: &[u64]) -> House
    requires { length keys.now ≤ sizes.sites }
    ensures { result ≡ house_of n (table_given n given keys.now) }
{
    if given == 0 {
        let even = [0u64, 256, 512, 768, 1024, 1280, 1536, 1792];
        return house_of(n, front(&even, n as usize));
    }
    house_of(n, front(keys, given as usize))
}
