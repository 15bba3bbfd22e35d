// What a box computes of vectors in one check (01, "One check at a box"; 02, §6), and what the dealer
// computes for it: the own term, the masked vector and the share of the product. `share_answers` has the
// word and the answer. [SPEC 3.4, 3.8, 5.5 to 5.8, 16.2, 17.3]
// kept: n beside the vectors, in each function: an array of words has places for the longest vector, and the
// definitions (`plus`, `inner`, `share`) take n; slices cut to n would put `take n` in every clause.
#![tactic(auto)]

ghost use Rattle.std.specs.Prelude.{◌≡◌, length, ◌≤◌};
ghost use Rattle.base_words.specs.List.{over};
ghost use Rattle.measure_table.specs.Measure.{own_word};
ghost use Rattle.share_vectors.specs.Share.{plus, inner as inner_of, other_c, other_r, share as share_of};

use measure_table::Terms;

// The first n words of a and of b, added element by element, from the start of out: an element and
// its mask, or the two shares of a mask.
pub fn add_vectors(n: usize, a: &[u32], b: &[u32], out: &mut [u32])
    requires { (n ≤ length a.now) × (n ≤ length b.now) × (n ≤ length out.old) }
    ensures { out.new ≡ over 0 (plus n a.now b.now) out.old }
{
    for i in 0..n {
        out[i] = base_words::add(a[i], b[i]);
    }
}

// The sum of products over the first n places.
pub fn inner(n: usize, a: &[u32], b: &[u32]) -> u32
    requires { (n ≤ length a.now) × (n ≤ length b.now) }
    ensures { result ≡ inner_of n a.now b.now }
{
    let mut total: u32 = 0;
    for i in 0..n {
        total = base_words::add(total, base_words::mul(a[i], b[i]));
    }
    total
}

// The own term of the vector whose elements stand at the start of v. A negative element's word has the
// square of the element, so a word is multiplied as it is. [SPEC 3.9]
pub fn own(terms: Terms, v: &[u32]) -> u32
    requires { terms.n ≤ length v.now }
    ensures { result ≡ own_word terms v.now }
{
    let n = terms.n;
    let row = measure_table::row_of(terms.code);
    if row.squares { inner(n, v, v) } else { 0 }
}

// Party 1's c word, from the two masks and party 0's.
pub fn other_c(n: usize, x: &[u32], y: &[u32], c0: u32) -> u32
    requires { (n ≤ length x.now) × (n ≤ length y.now) }
    ensures { result ≡ other_c n x.now y.now c0 }
{
    base_words::sub(inner(n, x, y), c0)
}

// Party 1's r word, from the set's mark, r, the threshold or first mark, and party 0's.
pub fn other_r(terms: Terms, mark: u32, r: u32, t: u32, r0: u32) -> u32
    ensures { result ≡ other_r terms mark r t r0 }
{
    base_words::sub(
        base_words::sub(r, base_words::mul(measure_table::sign(terms, mark), t)),
        r0,
    )
}

// A party's share of the product, from the masked vectors mx and my and its shares sx and sy of the
// two masks. Only party 1 adds the product of the masked vectors: it is put together with mx times
// sy, so that a place takes two products and not three.
pub fn share_of(party: u32, n: usize, c: u32, mx: &[u32], my: &[u32], sx: &[u32], sy: &[u32]) -> u32
    requires { (n ≤ length mx.now) × (n ≤ length my.now) × (n ≤ length sx.now) × (n ≤ length sy.now) }
    ensures { result ≡ share_of party n c mx.now my.now sx.now sy.now }
{
    let mut total = c;
    for i in 0..n {
        let factor = base_words::sub(base_words::only(party, my[i]), sy[i]);
        let place = base_words::sub(
            base_words::mul(mx[i], factor),
            base_words::mul(my[i], sx[i]),
        );
        total = base_words::add(total, place);
    }
    total
}
