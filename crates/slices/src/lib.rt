// Lent words copied and cleared.

#![tactic(auto)]

ghost use Rattle.std.specs.Prelude.{◌≡◌, ◌≤◌, length, replicate};
ghost use Rattle.laws.specs.Overlay.{overlay};

// Lays `src` over the front of `out`.
#[tactic(auto, unfolding(laws::specs::Overlay::overlay))]
pub fn copy_words(out: &mut [u64], src: &[u64])
    requires { length src.now ≤ length out.old }
    ensures { out.new ≡ overlay out.old src.now }
{
    out[..src.len()].copy_from_slice(src);
}

// Sets every word to 0.
pub fn fill_words(out: &mut [u64])
    ensures { out.new ≡ replicate (length out.old) 0 }
{
    out.fill(0);
}
