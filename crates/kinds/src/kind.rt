// Kinds of message (M10): the coordinator asks a site to begin its part,
pub const JOIN: u64 = 1;

// and the site answers 0, or 12 where it is full.
pub const JOINED: u64 = 2;

// The coordinator names the participants and asks for lists,
pub const PREPARE: u64 = 3;

// and a participant answers with the transactions that run beside this one.
pub const CONC: u64 = 4;

// The coordinator sends the joined list to be certified,
pub const CERT: u64 = 5;

// and a participant answers with its vote and its clock.
pub const VOTE: u64 = 6;

// The coordinator tells the decision: the commit number,
pub const COMMIT: u64 = 7;

// or that there is none.
pub const ABORT: u64 = 8;

// A message's kind, from its word.
#[derive(Clone, Copy, Debug, PartialEq, Eq)]
pub enum MessageKind {
    Join,
    Joined,
    Prepare,
    Conc,
    Cert,
    Vote,
    Commit,
    Abort,
}

// A word that is no kind of message.
#[derive(Clone, Copy, Debug, PartialEq, Eq)]
pub struct NoKind(pub u64);

impl TryFrom<u64> for MessageKind {
    type Error = NoKind;

    ghost use Rattle.kinds.specs.MessageKind.{Decodes};

    ghost try_from_gives = { Decodes };

    fn try_from(word: u64) -> Result<Self, NoKind> {
        match word {
            JOIN => Ok(MessageKind::Join),
            JOINED => Ok(MessageKind::Joined),
            PREPARE => Ok(MessageKind::Prepare),
            CONC => Ok(MessageKind::Conc),
            CERT => Ok(MessageKind::Cert),
            VOTE => Ok(MessageKind::Vote),
            COMMIT => Ok(MessageKind::Commit),
            ABORT => Ok(MessageKind::Abort),
            _ => Err(NoKind(word)),
        }
    }
}

// Kinds of record (R1): an install of one site,
pub const PART: u64 = 1;

// the state number of one site,
pub const STATE: u64 = 2;

// and the joined parts of one transaction.
pub const MERGED: u64 = 3;
