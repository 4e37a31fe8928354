// Pokes of a house, in the state of a site and of the merger.
use kinds::House;
use kinds::sizes::SITES;

// Fields of a house: its number of sites, and the first key of its first site. Those of the other sites stand behind it.
const COUNT: u64 = 0;

const FIRST_KEY: u64 = 31;

pub fn poke_house(h: House, field: u64, v: u64) -> House {
    let mut k = h;
    if field == COUNT {
        k.sites = v;
        return k;
    }
    if field < FIRST_KEY {
        return k;
    }
    if field < FIRST_KEY + SITES as u64 {
        let i = (field - FIRST_KEY) as usize;
        k.firsts[i] = v;
        return k;
    }
    k
}
