// The three measures (01, "Measures"; 02, §2 and §4): what the table says of each code, as words, and
// the rule that a set is dealt by. Elements, thresholds and marks are words; a negative number stands
// for itself plus 2^32. No public function asks anything of its caller. (1073741824 is 2^30, and
// 2147483648 is 2^31.) `share_vectors` has the own term. [SPEC 2.3, 2.4, 3.3, 3.7, 3.13]
#![tactic(auto)]

ghost use Rattle.std.specs.Prelude.{◌≡◌};
ghost use Rattle.base_algebra.specs.Word.{signed};
ghost use Rattle.measure_table.specs.Measure.{row, is_code, length_fits, in_range, all_in_range, threshold_fits};
ghost use Rattle.measure_table.specs.Measure.{within, word, k_word, sign_word, rule_fits, in_order, offset_of};
ghost use Rattle.measure_table.specs.Measure.{width_of, mark_of};

// The most elements that a vector has under any measure: the places of every array of a vector's words.
pub const MOST_ELEMENTS: usize = 512;

// What a set's measure is of: its code, and how many elements a vector has (01's L).
// kept: the C interface: the code is a number.
#[repr(C)]
#[derive(Clone, Copy)]
pub struct Terms {
    pub code: u32,
    pub n: usize,
}

// What a set answers yes to: a measure that reaches the threshold, or one that lies from the first
// mark to the second, both included. Only the dealer knows it: the boxes know which of the two it is,
// and of two marks how far they are apart.
#[derive(Clone, Copy)]
pub enum Rule {
    Threshold(u32),
    Between(u32, u32),
}

// The mark of a set that was dealt by a threshold, and of one between two marks.
// kept: the C interface: a half holds the mark as a byte; inside, `Rule` says which it is.
pub const ORDINARY_MARK: u32 = 0;

// kept: the C interface, as above.
pub const BETWEEN_MARK: u32 = 1;

// The width of an ordinary set (2^31 - 1): what its boxes open, less r, lies from 0 to this if the
// threshold is reached.
pub const ORDINARY_WIDTH: u32 = 2147483647;

// -1, -2, -1024 and -2^30
const MINUS_1: u32 = 4294967295;

const MINUS_2: u32 = 4294967294;

const MINUS_1024: u32 = 4294966272;

const MINUS_2_30: u32 = 3221225472;

// A row of the table. `squares`: own is the sum of squares, else 0. An element lies from `low` to
// `high`, a threshold from `least` to `most`. A vector has at most `longest` elements. `sign`: 1 where
// what an ordinary set opens, less r, is measure - T, and -1 where that is T - measure.
#[derive(Clone, Copy)]
pub struct Row {
    pub squares: bool,
    pub k: u32,
    pub low: u32,
    pub high: u32,
    pub least: u32,
    pub most: u32,
    pub longest: usize,
    pub sign: u32,
}

impl Row {
    // The columns in the order of 01's table, then the length's and the sign's. [SPEC 3.3]
    // kept: with it `row_of` reads as that table, a row to a line; three literals would take thirty lines.
    fn new(
        squares: bool,
        k: u32,
        low: u32,
        high: u32,
        least: u32,
        most: u32,
        longest: usize,
        sign: u32,
    ) -> Row
        ensures { (result.squares ≡ squares) × (result.k ≡ k) × (result.low ≡ low) × (result.high ≡ high)
            × (result.least ≡ least) × (result.most ≡ most) × (result.longest ≡ longest) × (result.sign ≡ sign) }
    {
        Row {
            squares,
            k,
            low,
            high,
            least,
            most,
            longest,
            sign,
        }
    }
}

// The table, a row for each code. A code above 2 reads as 2: is_code refuses it.
pub fn row_of(code: u32) -> Row
    ensures { (result.squares ≡ (row code).squares) × (result.k ≡ word (row code).k)
        × (signed result.low ≡ (row code).low) × (signed result.high ≡ (row code).high)
        × (signed result.least ≡ (row code).least) × (signed result.most ≡ (row code).most)
        × (result.longest ≡ (row code).longest) × (result.sign ≡ word (row code).sign) }
{
    if code == 0 {
        Row::new(false, 1, MINUS_1024, 1023, MINUS_2_30, 1073741824, 512, 1)
    } else if code == 1 {
        Row::new(true, MINUS_2, MINUS_1024, 1023, 0, 2147483647, 512, MINUS_1)
    } else {
        Row::new(true, MINUS_2, 0, 1, 0, 513, 512, MINUS_1)
    }
}

pub fn is_code(code: u32) -> bool
    ensures { result ≡ is_code code }
{
    code < 3
}

// Whether a vector may have so many elements.
pub fn length_fits(terms: Terms) -> bool
    ensures { result ≡ length_fits terms }
{
    let row = row_of(terms.code);
    (1 <= terms.n) & (terms.n <= row.longest)
}

// Whether w lies from low to high, all read as signed: 2^31 more, and the order is that of words.
fn between(w: u32, low: u32, high: u32) -> bool
    ensures { result ≡ within (signed low) (signed high) (signed w) }
{
    let at = base_words::add(w, 2147483648);
    (base_words::add(low, 2147483648) <= at) & (at <= base_words::add(high, 2147483648))
}

pub fn in_range(terms: Terms, w: u32) -> bool
    ensures { result ≡ in_range terms w }
{
    let row = row_of(terms.code);
    between(w, row.low, row.high)
}

pub fn threshold_fits(terms: Terms, t: u32) -> bool
    ensures { result ≡ threshold_fits terms t }
{
    let row = row_of(terms.code);
    between(t, row.least, row.most)
}

// Every element is looked at, so that how long it takes tells nothing of where one is out of range.
pub fn all_in_range(terms: Terms, v: &[u32]) -> bool
    ensures { result ≡ all_in_range terms v.now }
{
    let mut all = true;
    for w in v {
        all = all & in_range(terms, *w);
    }
    all
}

pub fn k(terms: Terms) -> u32
    ensures { result ≡ k_word terms }
{
    let row = row_of(terms.code);
    row.k
}

// The sign that a set of this mark has its sum opened by, as a word.
pub fn sign(terms: Terms, mark: u32) -> u32
    ensures { result ≡ sign_word terms mark }
{
    let row = row_of(terms.code);
    if mark == ORDINARY_MARK { row.sign } else { 1 }
}

// Whether the threshold, or each of the two marks, is in range.
pub fn rule_fits(terms: Terms, rule: Rule) -> bool
    ensures { result ≡ rule_fits terms rule }
{
    match rule {
        Rule::Threshold(t) => threshold_fits(terms, t),
        Rule::Between(p, q) => threshold_fits(terms, p) & threshold_fits(terms, q),
    }
}

// Whether q, read as signed, is not below p, and above it by at most an ordinary set's width. (Where it
// is not below, the difference of the words is that of the numbers.)
fn ordered(p: u32, q: u32) -> bool
    ensures { result ≡ in_order (Rule.Between p q) }
{
    (base_words::add(p, 2147483648) <= base_words::add(q, 2147483648))
        & (base_words::sub(q, p) <= ORDINARY_WIDTH)
}

// Whether two marks are in order, and not too far apart.
pub fn in_order(rule: Rule) -> bool
    ensures { result ≡ in_order rule }
{
    match rule {
        Rule::Threshold(_) => true,
        Rule::Between(p, q) => ordered(p, q),
    }
}

// What is taken off the measure: the threshold, or the first mark.
pub fn offset_of(rule: Rule) -> u32
    ensures { result ≡ offset_of rule }
{
    match rule {
        Rule::Threshold(t) => t,
        Rule::Between(p, _) => p,
    }
}

pub fn width_of(rule: Rule) -> u32
    ensures { result ≡ width_of rule }
{
    match rule {
        Rule::Threshold(_) => ORDINARY_WIDTH,
        Rule::Between(p, q) => base_words::sub(q, p),
    }
}

pub fn mark_of(rule: Rule) -> u32
    ensures { result ≡ mark_of rule }
{
    match rule {
        Rule::Threshold(_) => ORDINARY_MARK,
        Rule::Between(_, _) => BETWEEN_MARK,
    }
}
