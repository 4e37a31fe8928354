// A run of offsets as pages and rests.
ghost use Rattle.std.specs.Prelude.{◌≡◌, ◌*◌, ◌<◌, eqb, length};
ghost use Rattle.kinds.specs.Refusal.{refusal_in};
ghost use Rattle.rules.specs.Page.{pages_code, places_of, pages_of};

use kinds::{Answer, Refusal};

// Whether a buffer has two words for each offset. It is asked by halves, which cannot wrap.
fn is_double(room: usize, given: usize) -> bool
    ensures { result ≡ eqb room (2 * given) }
{
    room % 2 == 0 && room / 2 == given
}

#[tactic(auto, unfolding(rules::specs::Page::pages_code))]
fn check_pages(size: u64, given: usize, room: usize) -> Result<(), Refusal>
    ensures { refusal_in result ≡ pages_code size given room }
{
    if !is_double(room, given) {
        return Err(Refusal::Malformed);
    }
    if size == 0 {
        return Err(Refusal::NoPage);
    }
    Ok(())
}

fn put_places(size: u64, offsets: &[u64], out: &mut [u64])
    requires { (0 < size) × (length out.old ≡ 2 * length offsets.now) }
    ensures { out.new ≡ places_of size offsets.now }
{
    for i in 0..offsets.len() {
        out[2 * i] = offsets[i] / size;
        out[2 * i + 1] = offsets[i] % size;
    }
}

// The page and then the rest of each offset; nothing is written unless all are.
#[tactic(auto, unfolding(rules::specs::Page::pages_of))]
pub fn pages(size: u64, offsets: &[u64], out: &mut [u64]) -> Answer
    ensures value { result ≡ (pages_of size offsets.now out.old).answer }
    ensures out_after { out.new ≡ (pages_of size offsets.now out.old).out }
{
    if let Err(cause) = check_pages(size, offsets.len(), out.len()) {
        return Answer::Refused(cause.into());
    }
    put_places(size, offsets, out);
    Answer::Done
}
