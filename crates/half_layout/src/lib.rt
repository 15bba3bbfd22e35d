// The plain bytes of a set (01, "The sealed half"), field after field. [SPEC 9.1 to 9.3, 9.5]
#![tactic(auto)]

ghost use Rattle.std.specs.Prelude.{◌≡◌, [], ◌∷◌, ◌++◌, map, ◌+◌, ◌-◌, ◌*◌, ◌<◌, ◌≤◌, length, take, replicate};
ghost use Rattle.base_words.specs.Numbers.{bytes};
ghost use Rattle.base_words.specs.List.{over, flat};
ghost use Rattle.base_words.specs.Bytes.{le32, bytes_of};
ghost use Rattle.measure_table.specs.Measure.{most_elements};
ghost use Rattle.half_content.specs.Content.{room_bytes, correction_bytes, fields, size, FlagBytes};

use dcf_node::Correction;
use half_content::{
    CODE_AT, CORRECTIONS_IN_TAIL, HEAD, LAST_IN_TAIL, LENGTH_AT, MARK_IN_TAIL, PARTY_AT, R_IN_TAIL,
    ROOM, SEED_IN_TAIL, Set, TAIL, WIDTH_IN_TAIL,
};
use measure_table::Terms;

// Name, party, measure code and L.
fn head(name: &[u8; 16], party: u32, terms: Terms) -> [u8; HEAD]
    requires { (party < 256) × (terms.code < 256) × (terms.n ≤ most_elements) }
    ensures { result ≡ flat (name.now ∷ (party ∷ []) ∷ (terms.code ∷ []) ∷ bytes 2 terms.n ∷ []) }
{
    let mut h = [0u8; HEAD];
    base_slices::copy(&mut h, 0, name);
    h[PARTY_AT] = party as u8;
    h[CODE_AT] = terms.code as u8;
    let [low, high] = (terms.n as u16).to_le_bytes();
    h[LENGTH_AT] = low;
    h[LENGTH_AT + 1] = high;
    h
}

// A correction: seed, word, flag byte.
fn correction_bytes(c: &Correction) -> [u8; 37]
    requires { c.now.flags < 256 }
    ensures { result ≡ correction_bytes c.now }
{
    let mut b = [0u8; 37];
    base_slices::store_all(&mut b, 0, &c.seed);
    base_slices::store(&mut b, 32, c.word);
    b[36] = c.flags as u8;
    b
}

// The 32 corrections over the bytes from `at` on.
fn store_corrections(out: &mut [u8], at: usize, cs: &[Correction; 32])
    requires at_in_bounds { at + 32 * 37 ≤ length out.old }
    requires flag_bytes { FlagBytes cs.now }
    ensures out_after { out.new ≡ over at (flat (map correction_bytes cs.now)) out.old }
    ensures cs_len { length (flat (map correction_bytes cs.now)) ≡ 32 * 37 }
{
    for i in 0..32 {
        let b = correction_bytes(&cs[i]);
        base_slices::copy(out, at + 37 * i, &b);
    }
}

// What follows the three vectors: c, r, the key seed, the corrections, the final word, the width and
// the mark.
fn tail(s: &Set) -> [u8; TAIL]
    requires flag_bytes { FlagBytes s.now.key.corrections }
    requires mark_bound { s.now.mark < 256 }
    ensures { result ≡ flat (le32 s.now.c ∷ le32 s.now.r ∷ bytes_of s.now.seed
        ∷ flat (map correction_bytes s.now.key.corrections) ∷ le32 s.now.key.last ∷ le32 s.now.width
        ∷ (s.now.mark ∷ []) ∷ []) }
{
    let mut t = [0u8; TAIL];
    base_slices::store(&mut t, 0, s.c);
    base_slices::store(&mut t, R_IN_TAIL, s.r);
    base_slices::store_all(&mut t, SEED_IN_TAIL, &s.seed);
    store_corrections(&mut t, CORRECTIONS_IN_TAIL, &s.key.corrections);
    base_slices::store(&mut t, LAST_IN_TAIL, s.key.last);
    base_slices::store(&mut t, WIDTH_IN_TAIL, s.width);
    t[MARK_IN_TAIL] = s.mark as u8;
    t
}

// A head, the used words of the set's three vectors and a tail, and zeros up to the most blocks.
// kept: no method of the library joins bytes and words in a fixed array.
fn joined(h: &[u8; HEAD], s: &Set, t: &[u8; TAIL]) -> [u8; ROOM]
    requires { s.now.terms.n ≤ most_elements }
    ensures { let n = s.now.terms.n in
        result ≡ flat (h.now ∷ bytes_of (take n s.now.mask) ∷ bytes_of (take n s.now.x)
        ∷ bytes_of (take n s.now.y) ∷ t.now ∷ []) ++ replicate (room_bytes - size n) 0 }
{
    let n = s.terms.n;
    let mut out = [0u8; ROOM];
    base_slices::copy(&mut out, 0, h);
    base_slices::store_all(&mut out, HEAD, &s.mask[..n]);
    base_slices::store_all(&mut out, half_content::x_at(n), &s.x[..n]);
    base_slices::store_all(&mut out, half_content::y_at(n), &s.y[..n]);
    base_slices::copy(&mut out, half_content::c_at(n), t);
    out
}

// The plain content of a set for a party, and zeros up to the most blocks.
pub fn lay_out(name: [u8; 16], party: u32, s: Set) -> [u8; ROOM]
    requires party_bound { (party < 256) × (s.terms.code < 256) × (s.terms.n ≤ most_elements) }
    requires flag_bytes { FlagBytes s.key.corrections }
    requires mark_bound { s.mark < 256 }
    ensures { result ≡ flat (fields name party s) ++ replicate (room_bytes - size s.terms.n) 0 }
{
    let h = head(&name, party, s.terms);
    let t = tail(&s);
    joined(&h, &s, &t)
}
