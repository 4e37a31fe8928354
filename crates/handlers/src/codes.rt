// Causes of refusal of a message in its turn.
ghost use Rattle.std.specs.Prelude.{◌≡◌};
ghost use Rattle.kinds.specs.Refusal.{refusal_in};
ghost use Rattle.rules.specs.Deliver.{reply_code};

use kinds::Refusal;

pub fn check_reply(in_turn: bool, spent: bool) -> Result<(), Refusal>
    ensures { refusal_in result ≡ reply_code in_turn spent }
{
    if !in_turn {
        return Err(Refusal::Stage);
    }
    if spent {
        return Err(Refusal::Spent);
    }
    Ok(())
}
