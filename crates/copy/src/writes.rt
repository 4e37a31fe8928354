// A record's writes laid over the values of a copy.
ghost use Rattle.std.specs.Prelude.{◌≡◌, ℕ, ◌+◌, ◌*◌, ◌≤◌, ◌<◌, length};
ghost use Rattle.kinds.specs.Sizes as sizes;
ghost use Rattle.rules.specs.Value.{put_value};
ghost use Rattle.rules.specs.Record.{write_key, write_value};
ghost use Rattle.rules.specs.Copy.{put_writes};

use kinds::sizes::{COPY_HEADER, VALUE, WRITE};
use kinds::word;
use values::{put_value, value_at};

// Lays one write over the values.
fn put_write(copy: &mut [u64], ws: &[u64], i: usize)
    requires copy_len { length copy.old ≡ sizes.copy }
    requires i_lt_merged_writes { (i < sizes.merged_writes) × (sizes.write * i + sizes.write ≤ length ws.now) }
    requires i_bound { write_key ws.now i < sizes.keys }
    ensures { copy.new
        ≡ put_value copy.old (sizes.copy_header + sizes.value * write_key ws.now i) (write_value ws.now i) }
{
    let key = ws[WRITE * i + word::WRITE_KEY];
    let v = value_at(ws, WRITE * i + word::WRITE_VALUE);
    put_value(copy, COPY_HEADER + VALUE * key as usize, v);
}

// Lays the first n writes over the values, one after the other.
pub fn put_writes(copy: &mut [u64], ws: &[u64], n: usize)
    requires copy_len { length copy.old ≡ sizes.copy }
    requires n_le_merged_writes { (n ≤ sizes.merged_writes) × (sizes.write * n ≤ length ws.now) }
    requires by_index { (i : ℕ) → i < n → write_key ws.now i < sizes.keys }
    ensures { copy.new ≡ put_writes copy.old ws.now n }
{
    for i in 0..n {
        put_write(copy, ws, i);
    }
}
