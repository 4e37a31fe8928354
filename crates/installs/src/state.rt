// Report: the state number as a state record.
ghost use Rattle.std.specs.Prelude.{◌≡◌, ◌≤◌, length};
ghost use Rattle.laws.specs.Overlay.{overlay};
ghost use Rattle.kinds.specs.Refusal.{refusal_in};
ghost use Rattle.kinds.specs.Sizes as sizesOf;
ghost use Rattle.rules.specs.Install.{report_code, state_words, report_of};
ghost use Rattle.rules.specs.Valid.{site_ok};
ghost use Rattle.lent.specs.Lent.{site_of, Replied};

use kinds::kind::STATE;
use kinds::{Answer, Core, RecordHead, Refusal, Reply, sizes};

// The first cause against a report.
fn check_report(p: Core, live: &[u64], history: &[u64], room: usize) -> Result<(), Refusal>
    ensures { refusal_in result ≡ report_code (site_ok (site_of p live.now history.now)) room }
{
    if room < sizes::PART {
        return Err(Refusal::Short);
    }
    if !valid::site_ok(p, live, history) {
        return Err(Refusal::Malformed);
    }
    Ok(())
}

// Writes the state record, and returns how many words it has.
fn write_state(out: &mut [u64], own: u64, state: u64) -> usize
    requires { sizesOf.part ≤ length out.old }
    ensures { (result ≡ length (state_words own state)) × (out.new ≡ overlay out.old (state_words own state)) }
{
    let head = RecordHead {
        kind: STATE,
        site: own,
        number: state,
        coordinator: 0,
        tx: 0,
        mask: 0,
        count: 0,
    };
    records::write_record(out, head, &[])
}

pub fn report(p: Core, live: &[u64], history: &[u64], out: &mut [u64]) -> Reply
    ensures replied { Replied p live.now history.now result live.now history.now
        (report_of (site_of p live.now history.now) (length out.old)) }
    ensures out_after { out.new
        ≡ overlay out.old
        (report_of (site_of p live.now history.now) (length out.old)).words }
{
    if let Err(cause) = check_report(p, live, history, out.len()) {
        return shell::refused_by(p, cause);
    }
    let state = queue::state_number(p.seats, live, p.counters.clock);
    let words = write_state(out, p.counters.own, state);
    shell::unaltered(p, Answer::Reported { state }, words)
}
