// Demand 3 speaks of lists that there are: each script is a lawful list, its calls answer what it tells, and the copies hold what is said
// here.

#![tactic(auto)]

ghost use Rattle.std.specs.Prelude.{◌≡◌, ℕ};
ghost use Rattle.kinds.specs.declared.Answer.TheVariants.{Standing};
ghost use Rattle.rules.specs.Copy.{value_of};
ghost use Rattle.rules.specs.House.{GoodHouse};
ghost use Rattle.rules.specs.World.{Lawful, fresh_world, run};
ghost use Rattle.rules.specs.Book.{book_from};
ghost use Rattle.rules.specs.Claim.{Committed};
ghost use Rattle.rules.specs.Desks.{BegunFor};
ghost use Rattle.played.specs.Script.{even, highlight, answers_from, answers_of};
ghost use Rattle.played.specs.First.{first_script, first_calls};
ghost use Rattle.played.specs.Second.{second_script, second_calls, second_mail, second_book, spanning, half_seeing, later};
ghost use Rattle.played.specs.Third.{third_script, third_calls, third_mail, proofing, whole};
ghost use Rattle.played.specs.Fourth.{fourth_script, fourth_calls, uneven};
ghost use Rattle.played.specs.Fifth.{fifth_script, fifth_calls, fifth_log};
ghost use Rattle.played.specs.Seen.{SawBoth, SawHalf};

// The worked script H2.
pub fn first_script_plays()
    ensures { Lawful (fresh_world (even 1)) first_calls
        × (answers_from (fresh_world (even 1)) first_calls ≡ answers_of first_script)
        × (value_of ((run (fresh_world (even 1)) first_calls).copy 1) 5 ≡ Standing (highlight 700 0) 1 1) }
{}

// Commits at two sites, an abort 18, messages and records handed in twice, and two copies.
pub fn second_script_plays()
    ensures { Lawful (fresh_world (even 2)) second_calls
        × (answers_from (fresh_world (even 2)) second_calls ≡ answers_of second_script)
        × ((run (fresh_world (even 2)) second_calls).sent ≡ second_mail)
        × (book_from (fresh_world (even 2)) second_calls ≡ second_book)
        × (value_of ((run (fresh_world (even 2)) second_calls).copy 1) 5 ≡ Standing (highlight 700 0) 3 2)
        × (value_of ((run (fresh_world (even 2)) second_calls).copy 1) 6 ≡ Standing (highlight 600 0) 3 2)
        × (value_of ((run (fresh_world (even 2)) second_calls).copy 1) 7 ≡ Standing (highlight 0 0) 3 2)
        × (value_of ((run (fresh_world (even 2)) second_calls).copy 1) 261 ≡ Standing (highlight 901 0) 3 2)
        × (value_of ((run (fresh_world (even 2)) second_calls).copy 2) 261 ≡ Standing (highlight 900 0) 1 1) }
{}

// In its book one saw `spanning` at both sites and committed; one saw it at site 1 only and did not.
pub fn half_seeing_did_not_commit()
    ensures { SawBoth second_book later spanning 1 2 × Committed second_book later 3 2
        × SawHalf second_book half_seeing spanning 1 2 × ((n c : ℕ) → Committed second_book half_seeing n c → ⊥) }
{}

// Two desks: a fifth key is refused at the coordinator and at a participant, and the desk is that of `rules::desks_kept`.
pub fn third_script_plays()
    ensures { Lawful (fresh_world (even 2)) third_calls
        × (answers_from (fresh_world (even 2)) third_calls ≡ answers_of third_script)
        × ((run (fresh_world (even 2)) third_calls).sent ≡ third_mail)
        × BegunFor (even 2) third_calls proofing 1
        × BegunFor (even 2) third_calls whole 0 }
{}

// Three sites of unequal length, one of them of one key: each key goes where its range is, from the edge of one range to the next.
pub fn fourth_script_plays()
    ensures { GoodHouse uneven
        × Lawful (fresh_world uneven) fourth_calls
        × (answers_from (fresh_world uneven) fourth_calls ≡ answers_of fourth_script) }
{}

// Values with a length: start and length of one save are replaced whole by the next, in reads, records and a copy; 29 at its place.
pub fn fifth_script_plays()
    ensures { Lawful (fresh_world (even 1)) fifth_calls
        × (answers_from (fresh_world (even 1)) fifth_calls ≡ answers_of fifth_script)
        × ((run (fresh_world (even 1)) fifth_calls).log 1 ≡ fifth_log) }
{}
