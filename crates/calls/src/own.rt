// A line as the call of its site, which is lent its own words.
ghost use Rattle.calls.specs.Calls.{OwnLeaves};

use kinds::{Core, Refusal, Reply, Value};
use lines::Command;

#[tactic(auto, unfolding(crate::specs::Calls::effect_of, crate::specs::Calls::base_left, crate::specs::Calls::lists_left))]
pub fn own_call(
    p: Core,
    c: Command,
    live: &mut [u64],
    history: &mut [u64],
    base: &mut [u64],
    lists: &mut [u64],
    out: &mut [u64],
) -> Reply
    ensures { OwnLeaves c p
        live.old history.old base.old lists.old out.old
        result
        live.new history.new base.new lists.new out.new }
{
    match c {
        Command::Begin(_, desk) => store::begin(p, live, history, desk),
        Command::Enlist(tx, to) => store::enlist(p, live, history, tx, to, out),
        Command::Read(_, tx, key) => store::read(p, live, history, base, tx, key),
        Command::Write(_, tx, key, start, length) => {
            store::write(p, live, history, tx, key, Value { start, length })
        }
        Command::Commit(tx) => store::commit(p, live, history, tx, lists, out),
        Command::Abandon(tx) => store::abandon(p, live, history, tx, out),
        Command::Install(_) => store::install(p, live, history, base, out),
        Command::Report(_) => store::report(p, live, history, out),
        _ => shell::refused_by(p, Refusal::Malformed),
    }
}
