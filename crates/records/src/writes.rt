// What the writes of a record must be. The functions take the words of the writes alone.
ghost use Rattle.std.specs.Prelude.{◌≡◌, ◌+◌, ◌*◌, ◌≤◌, ◌<◌, [], ◌∷◌, length};
ghost use Rattle.laws.specs.Choice.{every};
ghost use Rattle.laws.specs.Scan.{all_below};
ghost use Rattle.kinds.specs.Sizes as sizes;
ghost use Rattle.rules.specs.House.{within};
ghost use Rattle.rules.specs.Value.{fits as fits_of};
ghost use Rattle.rules.specs.Record.{write_key, write_value, key_ascends, part_write_ok, merged_write_ok};
ghost use Rattle.rules.specs.ValidLaws.{ValidHouse};

use kinds::sizes::{KEYS, WRITE};
use kinds::{House, word};
use numbers::{end_key, first_key};
use values::{fits, value_at};

// Whether the write's key is above that of the one before.
#[tactic(auto, unfolding(rules::specs::Record::key_ascends))]
fn key_ascends(ws: &[u64], i: usize) -> bool
    requires { (i < sizes.merged_writes) × (sizes.write * i + sizes.write ≤ length ws.now) }
    ensures { result ≡ key_ascends ws.now i }
{
    i == 0 || ws[WRITE * (i - 1) + word::WRITE_KEY] < ws[WRITE * i + word::WRITE_KEY]
}

// Whether the write's value fits (Q12.6).
fn write_fits(ws: &[u64], i: usize) -> bool
    requires { (i < sizes.merged_writes) × (sizes.write * i + sizes.write ≤ length ws.now) }
    ensures { result ≡ fits_of (write_value ws.now i) }
{
    fits(value_at(ws, WRITE * i + word::WRITE_VALUE))
}

// Whether the key is above that of the write before, from `first` on and below `end`, and the value fits.
fn write_ok(first: u64, end: u64, ws: &[u64], i: usize) -> bool
    requires { (i < sizes.merged_writes) × (sizes.write * i + sizes.write ≤ length ws.now) }
    ensures { result ≡ every (key_ascends ws.now i ∷ within first end (write_key ws.now i)
        ∷ fits_of (write_value ws.now i) ∷ []) }
{
    let key = ws[WRITE * i + word::WRITE_KEY];
    key_ascends(ws, i) && first <= key && key < end && write_fits(ws, i)
}

// The keys of a site are those of its range (Q3.1), which is asked for once.
pub fn part_writes_ok(o: House, site: u64, ws: &[u64], n: usize) -> bool
    requires valid_house { ValidHouse o site }
    requires n_le_merged_writes { (n ≤ sizes.merged_writes) × (sizes.write * n ≤ length ws.now) }
    ensures { result ≡ all_below (part_write_ok o site ws.now) n }
{
    let first = first_key(o, site);
    let end = end_key(o, site);
    (0..n).all(|i| write_ok(first, end, ws, i))
}

// At a merged record they are those of any site.
pub fn merged_writes_ok(ws: &[u64], n: usize) -> bool
    requires { (n ≤ sizes.merged_writes) × (sizes.write * n ≤ length ws.now) }
    ensures { result ≡ all_below (merged_write_ok ws.now) n }
{
    (0..n).all(|i| write_ok(0, KEYS as u64, ws, i))
}
