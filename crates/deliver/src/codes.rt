// Causes of refusal of a message before its kind is looked at.
ghost use Rattle.std.specs.Prelude.{◌≡◌};
ghost use Rattle.kinds.specs.Refusal.{refusal_in};
ghost use Rattle.rules.specs.Deliver.{arrival_code, next_code};

use kinds::Refusal;
use kinds::sizes::OUTGOING;

pub fn check_arrival(ok: bool, room: usize, fine: bool) -> Result<(), Refusal>
    ensures { refusal_in result ≡ arrival_code ok room fine }
{
    if room < OUTGOING {
        return Err(Refusal::Short);
    }
    if !ok || !fine {
        return Err(Refusal::Malformed);
    }
    Ok(())
}

// A receiver that has taken 2^64 − 1 has no next message.
pub fn check_next(to: u64, own: u64, channel: u64, taken: u64) -> Result<(), Refusal>
    ensures { refusal_in result ≡ next_code to own channel taken }
{
    if to != own {
        return Err(Refusal::Elsewhere);
    }
    if channel == 0 || channel - 1 != taken {
        return Err(Refusal::NotNext);
    }
    Ok(())
}
