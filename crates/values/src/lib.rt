// A value in lent words (Q12.1): where it is read, and how it is put; and whether it fits (Q12.5).

#![tactic(auto)]

ghost use Rattle.std.specs.Prelude.{◌≡◌, ◌+◌, ◌≤◌, length};
ghost use Rattle.kinds.specs.Sizes as sizes;
ghost use Rattle.rules.specs.Value.{value_at, put_value, fits as fits_of};

use kinds::sizes::LAST;
use kinds::{Value, word};

// The value from word `at` on.
#[tactic(auto, unfolding(rules::specs::Value::value_at))]
pub fn value_at(ws: &[u64], at: usize) -> Value
    requires { at + sizes.value ≤ length ws.now }
    ensures { result ≡ value_at ws.now at }
{
    Value {
        start: ws[at + word::VALUE_START],
        length: ws[at + word::VALUE_LENGTH],
    }
}

// Puts the value from word `at` on.
#[tactic(auto, unfolding(rules::specs::Value::put_value))]
pub fn put_value(ws: &mut [u64], at: usize, v: Value)
    requires { at + sizes.value ≤ length ws.old }
    ensures { ws.new ≡ put_value ws.old at v }
{
    ws[at + word::VALUE_START] = v.start;
    ws[at + word::VALUE_LENGTH] = v.length;
}

// Whether start plus length is at most the last number: the sum itself could wrap.
#[tactic(auto, unfolding(rules::specs::Value::fits))]
pub fn fits(v: Value) -> bool
    ensures { result ≡ fits_of v }
{
    v.length <= LAST - v.start
}
