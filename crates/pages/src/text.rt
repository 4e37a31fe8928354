// Bytes and numbers laid on a page, one behind the other.
ghost use Rattle.std.specs.Prelude.{◌+◌, ◌≤◌, [], ◌∷◌, ◌++◌, length};
ghost use Rattle.pages.specs.Laid.{Laid, digits as most, field, fields};
ghost use Rattle.pages.specs.Line.{decimal_of, results_of};

use crate::decimal::decimal;

pub fn put(page: &mut [u8], used: usize, b: &[u8]) -> usize
    requires { used + length b.now ≤ length page.old }
    ensures { Laid page.old used b.now page.new result }
{
    let end = used + b.len();
    page[used..end].copy_from_slice(b);
    end
}

pub fn digits(page: &mut [u8], used: usize, n: u64) -> usize
    requires { used + most ≤ length page.old }
    ensures laid { Laid page.old used (decimal_of n) page.new result }
    ensures upper_bound { result ≤ used + most }
{
    let mut text = [0u8; 20];
    let k = decimal(n, &mut text);
    put(page, used, &text[..k])
}

fn number(page: &mut [u8], used: usize, n: u64) -> usize
    requires { used + field ≤ length page.old }
    ensures laid { Laid page.old used (results_of (n ∷ [])) page.new result }
    ensures upper_bound { result ≤ used + field }
{
    let next = put(page, used, b" ");
    digits(page, next, n)
}

// A word and the results behind it.
pub fn told(page: &mut [u8], used: usize, word: &[u8], numbers: &[u64]) -> usize
    requires { used + (length word.now + fields (length numbers.now)) ≤ length page.old }
    ensures laid { Laid page.old used (word.now ++ results_of numbers.now) page.new result }
    ensures upper_bound { result ≤ used + (length word.now + fields (length numbers.now)) }
{
    let mut end = put(page, used, word);
    for n in numbers {
        end = number(page, end, *n);
    }
    end
}
