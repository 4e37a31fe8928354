// What a reader must believe: the requirements as definitions (specs), and what holds of these very definitions after any list of calls.

#![tactic(auto)]

ghost use Rattle.rules.specs.Claim.{Demand3};
ghost use Rattle.rules.specs.Progress.{MessagesProgress, RecordsProgress};
ghost use Rattle.rules.specs.Possible.{Possible};
ghost use Rattle.rules.specs.Reads.{ReadsRight};
ghost use Rattle.rules.specs.Searches.{SearchesRight};
ghost use Rattle.rules.specs.Snapshots.{SnapshotsStay};
ghost use Rattle.rules.specs.Desks.{WritesLimited, DesksKept};
ghost use Rattle.rules.specs.Lengths.{WritesMeasured, AnswersFit};
ghost use Rattle.rules.specs.Tables.{KeysPlaced, TablesRefused, HousesStay};
ghost use Rattle.rules.specs.Refusals.{RefusedLeaves, FirstCause, OwnNumbers};
ghost use Rattle.rules.specs.Moments.{WrongMoments};
ghost use Rattle.rules.specs.Pages.{PagesRight, PagesRefused};
ghost use Rattle.rules.specs.Readers.{ReadersRight, ReadersRefused, ReadersFollow};

// Demand 3: any list of the fourteen calls, from a fresh house.
pub fn demand3_holds()
    ensures { Demand3 }
{}

// In such a list each accepted read answers the own last write, else what the installs that its part saw left.
pub fn reads_right()
    ensures { ReadsRight }
{}

// In any state a search answers the version that its snapshot sees, and exactly how many entries it looked at; a read runs it.
pub fn searches_right()
    ensures { SearchesRight }
{}

// In such a list what a snapshot sees stays, until more than 32 installs come after it: a search answers what was installed by then.
pub fn snapshots_stay()
    ensures { SnapshotsStay }
{}

// In such a list each part of a transaction has the desk that the transaction was begun for, and at no site does the transaction write
// more distinct keys than the desk allows.
pub fn desks_kept()
    ensures { DesksKept }
{}

// In any state a part writes one key more below its desk's limit, is refused 11 at it, and never passes it.
pub fn writes_limited()
    ensures { WritesLimited }
{}

// In such a list no message is refused 26 or 27, and none is voted 5.
pub fn messages_progress()
    ensures { MessagesProgress }
{}

// In such a list every log ascends, its next record is taken, a due record is whole, and a drained house emits.
pub fn records_progress()
    ensures { RecordsProgress }
{}

// In such a list every state stays possible, every message passes the check at its site, and the next one is taken, or refused 13.
pub fn states_possible()
    ensures { Possible }
{}

// In any state a refused call leaves all as it was.
pub fn refused_leaves()
    ensures { RefusedLeaves }
{}

// In any state a call is refused with the first of its causes that holds, in the order of the table, and taken where none does.
pub fn first_cause()
    ensures { FirstCause }
{}

// In any state a call is refused with a number of its own list only.
pub fn own_numbers()
    ensures { OwnNumbers }
{}

// In any state a coordinator's call is refused 26 at another site; 27 says that stage, mask or turn forbids a call. None is refused 6.
pub fn wrong_moments()
    ensures { WrongMoments }
{}

// Each key lives at exactly one site of a good house, the one whose range holds it; by 0, 256 and so on where division puts it.
pub fn keys_placed()
    ensures { KeysPlaced }
{}

// A start of a site or of the merger is refused 22 exactly where nothing gives 2 and its table is bad.
pub fn tables_refused()
    ensures { TablesRefused }
{}

// In any state a write is refused 29 exactly where no cause before 29 holds and its value does not fit.
pub fn writes_measured()
    ensures { WritesMeasured }
{}

// After any list of calls, with any words handed in, a value that a read, a search or a copy answers fits.
pub fn answers_fit()
    ensures { AnswersFit }
{}

// In any state no call changes a house.
pub fn houses_stay()
    ensures { HousesStay }
{}

// For every page length above 0 page and offset undo one another, each place has one offset, and a run converts each of its offsets.
pub fn pages_right()
    ensures { PagesRight }
{}

// A conversion is refused 28 exactly where the page length is 0, behind 2 for a buffer and before 2 on the way back.
pub fn pages_refused()
    ensures { PagesRefused }
{}

// For every buffer, a call on bytes does what the call on their words does; a record has one byte string, and comes back from it.
pub fn readers_right()
    ensures { ReadersRight }
{}

// A call on bytes of another count is refused 2, and a refused one leaves every byte.
pub fn readers_refused()
    ensures { ReadersRefused }
{}

// After any list of calls a copy in bytes, handed the bytes of what the list hands to a copy in words, holds that copy.
pub fn readers_follow()
    ensures { ReadersFollow }
{}
