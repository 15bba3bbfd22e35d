// What a box sends in one check (01, "One check at a box"): its word, and its answer to the lock.
// [SPEC 17.4, 18.3, 18.4]
#![tactic(auto)]

ghost use Rattle.std.specs.Prelude.{◌≡◌};
ghost use Rattle.base_algebra.specs.Bit.{less};
ghost use Rattle.share_vectors.specs.Share.{box_word as word_of, answer as answer_of};

use dcf_node::Key;
use measure_table::Terms;

// A box's word, from the set's mark, the box's share, its own term and its r word.
pub fn word(terms: Terms, mark: u32, share: u32, own: u32, r: u32) -> u32
    ensures { result ≡ word_of terms mark share own r }
{
    let part = base_words::add(base_words::mul(measure_table::k(terms), share), own);
    base_words::add(base_words::mul(measure_table::sign(terms, mark), part), r)
}

// A box's answer, from the sum of both words: whether it lies from 0 to the width above the point, as
// a share.
pub fn answer(width: u32, party: u32, key: Key, seed: [u32; 8], z: u32) -> u32
    ensures { result ≡ answer_of width party key seed z }
{
    let end = base_words::add(width, 1);
    let (first, second) = dcf_walk::values(key, seed, party, base_words::sub(z, end), z);
    let difference = base_words::sub(first, second);
    base_words::add(difference, base_words::only(party, below(z, end)))
}

// 1 if z is below end, else 0.
fn below(z: u32, end: u32) -> u32
    ensures { result ≡ less z end }
{
    (z < end) as u32
}
