// The merger (G1 to G4): queues each site's parts, and emits the due record.

#![tactic(auto)]

mod heads;

ghost use Rattle.std.specs.Prelude.{◌≡◌, [], ◌≤◌, ◌<◌, length};
ghost use Rattle.laws.specs.Overlay.{overlay};
ghost use Rattle.kinds.specs.Sizes as sizes;
ghost use Rattle.rules.specs.Merger.{merger_out_of, done_merger, refused_merger, with_source, fresh_merger, merger_start_code};
ghost use Rattle.rules.specs.Merger.{merger_start_of};
ghost use Rattle.rules.specs.Merger.{merge_code, merge_part_code, merge_part, merge_state, merge_of, emit_code, emit_due, emit_of};
ghost use Rattle.rules.specs.MergerClear.{MergerClear, PartReady, StateReady};
ghost use Rattle.kinds.specs.Refusal.{number_of, refusal_in};
ghost use Rattle.merger.specs.Order.{least_in};

use heads::Heads;
use kinds::kind::PART;
use kinds::sizes::{MERGED, QUEUE, QUEUES, SITES};
use kinds::{Answer, House, Merger, MergerOut, RecordHead, Refusal, Source};
use numbers::{count_ok, house_of, precedes, table_ok};
use queues::{merger_ok, place_at, pop_queues, write_merged};
use records::{part_ok, read_record, state_ok};
use slices::{copy_words, fill_words};

fn refused(g: Merger, cause: Refusal) -> MergerOut
    ensures { result ≡ merger_out_of (refused_merger (number_of cause) g []) }
{
    MergerOut {
        answer: Answer::Refused(cause.into()),
        words: 0,
        merger: g,
    }
}

fn fresh(house: House) -> Merger
    ensures { result ≡ fresh_merger house }
{
    let empty = Source {
        state: 0,
        number: 0,
        coordinator: 0,
        queued: 0,
    };
    Merger {
        house,
        sources: [empty; SITES],
    }
}

fn check_start(sites: u64, firsts: &[u64], given: usize) -> Result<(), Refusal>
    ensures { refusal_in result ≡ merger_start_code sites firsts.now given }
{
    if !count_ok(sites) || firsts.len() as u64 != sites || given != QUEUES {
        return Err(Refusal::Malformed);
    }
    if !table_ok(sites, firsts) {
        return Err(Refusal::BadTable);
    }
    Ok(())
}

// A merger of a house with these first keys (Q3.4), with empty queues.
// Stays: a refused start leaves a merger of no sites, as the contract of `start` has it.
pub fn start(sites: u64, firsts: &[u64], queues: &mut [u64]) -> MergerOut
    ensures value { result ≡ merger_out_of (merger_start_of sites firsts.now queues.old) }
    ensures queues_after { queues.new ≡ (merger_start_of sites firsts.now queues.old).queues }
{
    if let Err(cause) = check_start(sites, firsts, queues.len()) {
        let none = House {
            sites: 0,
            firsts: [0; SITES],
        };
        return refused(fresh(none), cause);
    }
    fill_words(queues);
    MergerOut {
        answer: Answer::Done,
        words: 0,
        merger: fresh(house_of(sites, firsts)),
    }
}

fn check_merge(g: Merger, queues: &[u64], m: &[u64]) -> Result<(), Refusal>
    ensures { refusal_in result ≡ merge_code g queues.now m.now }
{
    let o = g.house;
    if merger_ok(g, queues) && (part_ok(o, m) || state_ok(o, m)) {
        return Ok(());
    }
    Err(Refusal::Malformed)
}

// A part is above its site's last part, and its number above the site's last state.
fn check_part(c: Source, r: RecordHead) -> Result<(), Refusal>
    ensures { refusal_in result ≡ merge_part_code c r }
{
    if !precedes(c.number, c.coordinator, r.number, r.coordinator) || r.number <= c.state {
        return Err(Refusal::Behind);
    }
    if QUEUE <= c.queued {
        return Err(Refusal::QueueFull);
    }
    Ok(())
}

// Sets what is kept of site i + 1.
fn with_source(g: Merger, i: usize, c: Source) -> MergerOut
    requires { i < sizes.sites }
    ensures { result ≡ merger_out_of (done_merger (with_source g i c) []) }
{
    let mut h = g;
    h.sources[i] = c;
    MergerOut {
        answer: Answer::Done,
        words: 0,
        merger: h,
    }
}

fn merge_part(g: Merger, queues: &mut [u64], m: &[u64]) -> MergerOut
    requires { PartReady queues.old m.now }
    ensures value { result ≡ merger_out_of (merge_part g queues.old m.now) }
    ensures queues_after { queues.new ≡ (merge_part g queues.old m.now).queues }
{
    let r = read_record(m);
    let i = (r.site - 1) as usize;
    let mut c = g.sources[i];
    if let Err(cause) = check_part(c, r) {
        return refused(g, cause);
    }
    let at = place_at(i, c.queued);
    copy_words(&mut queues[at..], m);
    c.number = r.number;
    c.coordinator = r.coordinator;
    c.queued += 1;
    with_source(g, i, c)
}

fn merge_state(g: Merger, m: &[u64]) -> MergerOut
    requires { StateReady m.now }
    ensures { result ≡ merger_out_of (merge_state g [] m.now) }
{
    let r = read_record(m);
    let i = (r.site - 1) as usize;
    let mut c = g.sources[i];
    if r.number < c.state {
        return refused(g, Refusal::Behind);
    }
    c.state = r.number;
    with_source(g, i, c)
}

// Queues a part, or notes a state number.
pub fn merge(g: Merger, queues: &mut [u64], m: &[u64]) -> MergerOut
    ensures value { result ≡ merger_out_of (merge_of g queues.old m.now) }
    ensures queues_after { queues.new ≡ (merge_of g queues.old m.now).queues }
{
    if let Err(cause) = check_merge(g, queues, m) {
        return refused(g, cause);
    }
    let r = read_record(m);
    if r.kind == PART {
        return merge_part(g, queues, m);
    }
    merge_state(g, m)
}

fn check_emit(g: Merger, queues: &[u64], room: usize) -> Result<(), Refusal>
    ensures { refusal_in result ≡ emit_code g queues.now room }
{
    if room < MERGED {
        return Err(Refusal::Short);
    }
    if !merger_ok(g, queues) {
        return Err(Refusal::Malformed);
    }
    Ok(())
}

// Joins the parts of the order's due pair, and takes them from the queues.
fn emit_due(h: Heads, queues: &mut [u64], out: &mut [u64]) -> MergerOut
    requires { MergerClear h.merger queues.old × (sizes.merged ≤ length out.old) }
    ensures value { result ≡ merger_out_of (emit_due h.merger queues.old h.heads (least_in h)) }
    ensures queues_after { queues.new ≡ (emit_due h.merger queues.old h.heads (least_in h)).queues }
    ensures out_after { out.new
        ≡ overlay out.old (emit_due h.merger queues.old h.heads (least_in h)).words }
{
    let n = h.sites();
    let due = match h.take_due() {
        Ok(due) => due,
        Err(undue) => return refused(undue.heads.merger, undue.cause),
    };
    let head = due.head;
    let words = write_merged(out, queues, n, head);
    pop_queues(queues, head.mask, n);
    MergerOut {
        answer: Answer::Emitted {
            number: head.number,
            coordinator: head.coordinator,
            tx: head.tx,
        },
        words,
        merger: due.heads.merger,
    }
}

// Writes the due record.
pub fn emit(g: Merger, queues: &mut [u64], out: &mut [u64]) -> MergerOut
    ensures value { result ≡ merger_out_of (emit_of g (length out.old) queues.old) }
    ensures queues_after { queues.new ≡ (emit_of g (length out.old) queues.old).queues }
    ensures out_after { out.new ≡ overlay out.old (emit_of g (length out.old) queues.old).words }
{
    if let Err(cause) = check_emit(g, queues, out.len()) {
        return refused(g, cause);
    }
    emit_due(Heads::read(g, queues), queues, out)
}
