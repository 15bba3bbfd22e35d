// The commands of a script, the parts that they ask, and the kinds of their fields.

// The door's parts, as `show` names them.
#[derive(Clone, Copy, PartialEq, Eq)]
pub enum Part {
    Camera,
    Office,
    Dealer,
    Lock,
}

impl Part {
    pub fn of(word: &[u8]) -> Option<Part> {
        match word {
            b"camera" => Some(Part::Camera),
            b"office" => Some(Part::Office),
            b"dealer" => Some(Part::Dealer),
            b"lock" => Some(Part::Lock),
            _ => None,
        }
    }
}

// What a field may say: a number up to the given one, bytes, whole words, a rule, a box, a part, or what
// a box sent last in place of words or of a number.
#[derive(Clone, Copy, PartialEq, Eq)]
pub enum Kind {
    Number(u64),
    Bytes,
    Vector,
    Rule,
    Box,
    Part,
    From,
    SentVector,
    SentWord,
    SentAnswer,
}

const NUMBER: Kind = Kind::Number(u64::MAX);

const WORD: Kind = Kind::Number(4294967295);

// How many bytes a deal's buffer has, and how many words that of call 2.
const ROOM: Kind = Kind::Number(8704);

const WORDS: Kind = Kind::Number(520);

// A block of a half, and how many deals back a half was written.
const BLOCK: Kind = Kind::Number(15);

const BACK: Kind = Kind::Number(3);

const BYTES: Kind = Kind::Bytes;

const VECTOR: Kind = Kind::Vector;

const RULE: Kind = Kind::Rule;

const BOX: Kind = Kind::Box;

const PART: Kind = Kind::Part;

const FROM: Kind = Kind::From;

const SENT_VECTOR: Kind = Kind::SentVector;

const SENT_WORD: Kind = Kind::SentWord;

const SENT_ANSWER: Kind = Kind::SentAnswer;

#[derive(Clone, Copy, PartialEq, Eq)]
pub enum Command {
    Dealer,
    Party,
    Lock,
    Deal,
    Clock,
    Load,
    Mixed,
    Bytes,
    Trial,
    TrialMixed,
    TrialBytes,
    Mask,
    Take,
    Finish,
    Drop,
    Join,
    Host,
    Put,
    Waiting,
    Width,
    Show,
    // An empty line or a comment, which asks for nothing.
    Comment,
}

impl Command {
    pub fn of(word: &[u8]) -> Option<Command> {
        match word {
            b"dealer" => Some(Command::Dealer),
            b"party" => Some(Command::Party),
            b"lock" => Some(Command::Lock),
            b"deal" => Some(Command::Deal),
            b"clock" => Some(Command::Clock),
            b"load" => Some(Command::Load),
            b"mixed" => Some(Command::Mixed),
            b"bytes" => Some(Command::Bytes),
            b"trial" => Some(Command::Trial),
            b"trial-mixed" => Some(Command::TrialMixed),
            b"trial-bytes" => Some(Command::TrialBytes),
            b"mask" => Some(Command::Mask),
            b"take" => Some(Command::Take),
            b"finish" => Some(Command::Finish),
            b"drop" => Some(Command::Drop),
            b"join" => Some(Command::Join),
            b"host" => Some(Command::Host),
            b"put" => Some(Command::Put),
            b"waiting" => Some(Command::Waiting),
            b"width" => Some(Command::Width),
            b"show" => Some(Command::Show),
            _ => None,
        }
    }

    // The part that is asked, where no field says it.
    pub fn part(self) -> Option<Part> {
        match self {
            Command::Dealer | Command::Deal | Command::Clock => Some(Part::Dealer),
            Command::Lock | Command::Join => Some(Part::Lock),
            _ => None,
        }
    }

    // The kinds of the fields behind the name, in docs/REPLAY.md's order.
    pub fn kinds(self) -> &'static [Kind] {
        match self {
            Command::Dealer => &[BYTES, BYTES, BYTES, NUMBER],
            Command::Party => &[BOX, BYTES, WORD, BYTES, NUMBER],
            Command::Lock => &[BYTES, NUMBER],
            Command::Deal => &[NUMBER, BYTES, WORD, WORD, RULE, ROOM, ROOM],
            Command::Clock => &[
                NUMBER, BYTES, WORD, WORD, VECTOR, VECTOR, VECTOR, WORD, ROOM, ROOM,
            ],
            Command::Load | Command::Trial => &[BOX, FROM, BACK, WORD, WORD],
            Command::Mixed | Command::TrialMixed => &[BOX, BLOCK, BACK, BLOCK],
            Command::Bytes | Command::TrialBytes => &[BOX, BYTES],
            Command::Mask => &[BOX, VECTOR, WORDS],
            Command::Take => &[BOX, WORD, BYTES, WORD, NUMBER, SENT_VECTOR],
            Command::Finish => &[BOX, WORD, BYTES, WORD, NUMBER, SENT_WORD],
            Command::Drop => &[BOX],
            Command::Join => &[
                WORD,
                BYTES,
                WORD,
                NUMBER,
                SENT_ANSWER,
                WORD,
                BYTES,
                WORD,
                NUMBER,
                SENT_ANSWER,
            ],
            Command::Host => &[
                BYTES,
                NUMBER,
                WORD,
                BYTES,
                WORD,
                NUMBER,
                SENT_ANSWER,
                WORD,
                BYTES,
                WORD,
                NUMBER,
                SENT_ANSWER,
            ],
            Command::Put => &[BOX, WORD, WORD, WORD, WORD],
            Command::Waiting => &[BOX, NUMBER, WORD, WORD],
            Command::Width => &[BOX, WORD, WORD],
            Command::Show => &[PART],
            Command::Comment => &[],
        }
    }
}
