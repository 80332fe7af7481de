// The keys, words and separators of the texts. The same constants are read and written.
// Kept: constants, since an enum of the keys would say each text in a match beside its name.
pub const OFFICES_KEY: &[u8] = b"offices=";

pub const GRAIN_KEY: &[u8] = b"grain=";

pub const LADDER_KEY: &[u8] = b"ladder=";

pub const POST_KEY: &[u8] = b"post=";

pub const MARKS_KEY: &[u8] = b"marks=";

pub const LOTS_KEY: &[u8] = b"lots=";

pub const HALVING_WORD: &[u8] = b"halving/";

pub const LISTED_WORD: &[u8] = b"listed/";

pub const DIRECT_WORD: &[u8] = b"direct";

pub const BIT_WORD: &[u8] = b"bit";

pub const COMMA: &[u8] = b",";

pub const CLOSED_KEY: &[u8] = b"closed=";

pub const STEP_KEY: &[u8] = b"step=";

pub const SIGNALS_KEY: &[u8] = b"signals=";

pub const MESSAGES_KEY: &[u8] = b"messages=";

pub const FRAMES_KEY: &[u8] = b"frames=";

pub const ACCEPTED_KEY: &[u8] = b"accepted=";

pub const LATE_KEY: &[u8] = b"late=";

pub const CREDITS_KEY: &[u8] = b"credits=";

pub const REMAINDERS_KEY: &[u8] = b"remainders=";

pub const NO_WORD: &[u8] = b"no";
