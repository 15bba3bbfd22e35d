// The bytes of a state, whose tag answers `show` (docs/REPLAY.md): where each field stands, past the one
// before it, and how many bytes there are.
// kept: (a) public names, and places, no kinds: `states` of test_replay_parts puts the fields in this order.

// A name, which every state begins with, and a secret key.
pub const NAME: usize = 16;

pub const KEY: usize = 32;

// A vector: 512 words.
pub const VECTOR: usize = 2048;

// A correction of a comparison key: 8 seed words, word and flags.
pub const CORRECTION: usize = 40;

// The fields of a set, open or waiting. Its number comes first.
pub const CODE_AT: usize = 8;

pub const LENGTH_AT: usize = CODE_AT + 4;

pub const MASK_AT: usize = LENGTH_AT + 8;

pub const X_AT: usize = MASK_AT + VECTOR;

pub const Y_AT: usize = X_AT + VECTOR;

pub const C_AND_R_AT: usize = Y_AT + VECTOR;

pub const SEED_AT: usize = C_AND_R_AT + 8;

pub const CORRECTIONS_AT: usize = SEED_AT + 32;

pub const FINAL_WORD_AT: usize = CORRECTIONS_AT + 32 * CORRECTION;

pub const WIDTH_AND_MARK_AT: usize = FINAL_WORD_AT + 4;

// 7,496 bytes.
pub const SET: usize = WIDTH_AND_MARK_AT + 8;

// The fields of a box.
pub const PARTY_AT: usize = NAME;

pub const KEY_AT: usize = PARTY_AT + 4;

pub const LAST_AT: usize = KEY_AT + KEY;

pub const PHASE_AT: usize = LAST_AT + 8;

pub const OPEN_AT: usize = PHASE_AT + 4;

pub const MASKED_AT: usize = OPEN_AT + SET;

pub const OWN_AND_WORD_AT: usize = MASKED_AT + VECTOR;

pub const WAITING_AT: usize = OWN_AND_WORD_AT + 8;

// 17,112 bytes.
pub const BOX: usize = WAITING_AT + SET;

// The fields of a dealer.
pub const KEY0_AT: usize = NAME;

pub const KEY1_AT: usize = KEY0_AT + KEY;

pub const DEALER_LAST_AT: usize = KEY1_AT + KEY;

pub const DEALER: usize = DEALER_LAST_AT + 8;

// The fields of a lock.
pub const LOCK_LAST_AT: usize = NAME;

pub const LOCK: usize = LOCK_LAST_AT + 8;
