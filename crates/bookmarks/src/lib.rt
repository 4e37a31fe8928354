// Bookmarks by page (Q8.1 to Q8.7): the page and the rest of an offset, the way back, and a run of offsets. `size` is the page length in
// bytes, and a rest is the bytes into a page. An offset is the start of a value alone.

#![tactic(auto)]

mod run;

ghost use Rattle.std.specs.Prelude.{◌≡◌};
ghost use Rattle.kinds.specs.Refusal.{refusal_in};
ghost use Rattle.rules.specs.Page.{page_of, offset_code, offset_of};

use kinds::sizes::LAST;
use kinds::{Answer, Refusal};
pub use run::pages;

// The page of an offset, counted from 0, and the rest.
#[tactic(auto, unfolding(rules::specs::Page::page_of, rules::specs::Page::page_code))]
pub fn page(size: u64, offset: u64) -> Answer
    ensures { result ≡ page_of size offset }
{
    if size == 0 {
        return Answer::Refused(Refusal::NoPage.into());
    }
    Answer::Paged {
        page: offset / size,
        rest: offset % size,
    }
}

// Whether a page and a rest have an offset. Whether it would pass the last is asked by a division, which cannot wrap.
#[tactic(auto, unfolding(rules::specs::Page::offset_code))]
fn check_offset(size: u64, page: u64, rest: u64) -> Result<(), Refusal>
    ensures { refusal_in result ≡ offset_code size page rest }
{
    if size == 0 {
        return Err(Refusal::NoPage);
    }
    if size <= rest || (LAST - rest) / size < page {
        return Err(Refusal::Malformed);
    }
    Ok(())
}

// The offset of a page and a rest.
#[tactic(auto, unfolding(rules::specs::Page::offset_of))]
pub fn offset(size: u64, page: u64, rest: u64) -> Answer
    ensures { result ≡ offset_of size page rest }
{
    match check_offset(size, page, rest) {
        Err(cause) => Answer::Refused(cause.into()),
        Ok(()) => Answer::Offset {
            offset: page * size + rest,
        },
    }
}
