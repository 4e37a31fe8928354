// Start: a fresh site with its table of first keys, and its lent tables filled with 0.
ghost use Rattle.std.specs.Prelude.{◌≡◌, length, IfOk};
ghost use Rattle.kinds.specs.Refusal.{number_of, refusal_in};
ghost use Rattle.kinds.specs.declared.Answer.TheVariants.{Refused};
ghost use Rattle.rules.specs.House.{house_of, no_house};
ghost use Rattle.rules.specs.Install.{start_code, start_table};
ghost use Rattle.lent.specs.Fresh.{fresh_core, started_code, Started};

use kinds::sizes::{BASE, LISTS, LIVE, SITES};
use kinds::stage::FREE;
use kinds::{Answer, Channels, Core, Counters, House, Refusal, Reply, Seat};

// The house, if a site of it can start. A table that is not good is refused behind everything else (Q3.4).
fn check_start(
    sites: u64,
    firsts: &[u64],
    own: u64,
    base: usize,
    lists: usize,
) -> Result<House, Refusal>
    ensures code { refusal_in result ≡ start_code sites firsts.now own base lists }
    ensures house { IfOk result (λ house. house ≡ house_of sites firsts.now) }
{
    if !numbers::count_ok(sites) || firsts.len() as u64 != sites {
        return Err(Refusal::Malformed);
    }
    let house = numbers::house_of(sites, firsts);
    if !numbers::is_site(house, own) || base != BASE || lists != LISTS {
        return Err(Refusal::Malformed);
    }
    if !numbers::table_ok(sites, firsts) {
        return Err(Refusal::BadTable);
    }
    Ok(house)
}

fn fresh_core(house: House, own: u64) -> Core
    ensures { result ≡ fresh_core house own }
{
    let free = Seat { tx: 0, stage: FREE };
    Core {
        house,
        counters: Counters {
            own,
            clock: 0,
            serial: 0,
            installs: 0,
        },
        channels: Channels {
            sent: [0; SITES],
            taken: [0; SITES],
        },
        seats: [free; LIVE],
    }
}

// A refused start hands back a site of no house.
fn unstarted(cause: Refusal) -> Reply
    ensures { result ≡ record { answer = Refused (number_of cause); words = 0; core = fresh_core no_house 0 } }
{
    Reply {
        answer: Answer::Refused(cause.into()),
        words: 0,
        core: fresh_core(tables::no_house(), 0),
    }
}

pub fn start(
    sites: u64,
    firsts: &[u64],
    own: u64,
    live: &mut [u64],
    history: &mut [u64],
    base: &mut [u64],
    lists: &mut [u64],
) -> Reply
    ensures started { Started sites firsts.now own live.old history.old (length base.old)
        (length lists.old) result live.new history.new }
    ensures base_after { base.new
        ≡ start_table
        (started_code sites firsts.now own live.old history.old (length base.old)
        (length lists.old)) base.old }
    ensures lists_after { lists.new
        ≡ start_table
        (started_code sites firsts.now own live.old history.old (length base.old)
        (length lists.old)) lists.old }
{
    let count = tables::lent_sites(sites, live.len(), history.len());
    let house = match check_start(count, firsts, own, base.len(), lists.len()) {
        Ok(house) => house,
        Err(cause) => return unstarted(cause),
    };
    slices::fill_words(live);
    slices::fill_words(history);
    slices::fill_words(base);
    slices::fill_words(lists);
    Reply {
        answer: Answer::Done,
        words: 0,
        core: fresh_core(house, own),
    }
}
