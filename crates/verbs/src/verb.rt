// Verbs of a probe, each as its letters to the base 256.

pub const HOUSE: u64 = 448546567013;

pub const ROOM: u64 = 1919905645;

pub const PLACES: u64 = 123610792682867;

pub const SLOTS: u64 = 495740482675;

pub const BASE: u64 = 1650553701;

pub const LISTS: u64 = 465625642099;

pub const QUEUES: u64 = 124749027304819;

pub const COPIES: u64 = 109330278475123;

pub const TABLE: u64 = 499850046565;

pub const TABLES: u64 = 127961611920755;

pub const BEGIN: u64 = 422608071022;

pub const ENLIST: u64 = 111524939658100;

pub const READ: u64 = 1919246692;

pub const SEARCH: u64 = 126879263777640;

pub const WRITE: u64 = 513020621925;

pub const COMMIT: u64 = 109330228406644;

pub const ABANDON: u64 = 27411243344359278;

pub const MESSAGE: u64 = 30792318992869221;

pub const INSTALL: u64 = 29676314707455084;

pub const REPORT: u64 = 125780003615348;

pub const START: u64 = 495873782388;

pub const SITE: u64 = 1936290917;

pub const LIVE: u64 = 1818850917;

pub const PAST: u64 = 1885434740;

pub const LIST: u64 = 1818850164;

pub const MERGE: u64 = 469853431653;

pub const EMIT: u64 = 1701669236;

pub const OPEN: u64 = 1869636974;

pub const MERGER: u64 = 120282478503282;

pub const SOURCE: u64 = 126922548994917;

pub const QUEUED: u64 = 124749027304804;

pub const REPLAY: u64 = 125780003414393;

pub const VALUE: u64 = 508440638821;

pub const BLANK: u64 = 422725119595;

pub const COPIED: u64 = 109330278475108;

pub const LETTER: u64 = 119183001281906;

pub const RECORD: u64 = 125779785511524;

pub const WORD: u64 = 2003792484;

pub const CUT: u64 = 6518132;

pub const HEAD: u64 = 1751474532;

pub const ENTRIES: u64 = 28550419062547827;

pub const FORM: u64 = 1718579821;

pub const WRITES: u64 = 131333279212915;

pub const PAGE: u64 = 1885431653;

pub const OFFSET: u64 = 122485596185972;

pub const RUN: u64 = 7501166;

pub const BYTES: u64 = 422944466291;
