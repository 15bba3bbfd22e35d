// Deals a set (01, "Dealing a set"): from the set seed's key stream to what each party's half holds.
// The words that are drawn stand in one array, in 01's order, and are read from there by their place.
// [SPEC 5.2, 5.3, 5.9 to 5.11]
#![tactic(auto)]

ghost use Rattle.std.specs.Prelude.{◌≡◌, List, ℕ, ◌+◌, ◌*◌, ◌≤◌, length, take};
ghost use Rattle.share_vectors.specs.Share.{plus};
ghost use Rattle.measure_table.specs.Measure.{most_elements, width_of, mark_of};
ghost use Rattle.half_content.specs.Content.{part, fill};
ghost use Rattle.half_deal.specs.Dealing.{set_words, x as share_x, y as share_y, key_seed, deal_from, set_from};
ghost use Rattle.half_deal.specs.Dealing.{dealt_set};

use dcf_node::Key;
use half_content::Set;
use measure_table::{MOST_ELEMENTS, Rule, Terms};

// The words that are drawn for the longest vectors.
const MOST_WORDS: usize = 4 * MOST_ELEMENTS + 19;

#[derive(Clone, Copy)]
pub struct Dealt {
    pub camera: Set,
    pub office: Set,
}

// kept: `n ≤ most_elements` stands in four contracts: each also says how far it reads past its own `at`, so that
// a struct of w and n would take no line from any of them.

// The words of a set of length n: 4 n + 19 of them, from the start of an array with room for the
// longest.
fn draw(seed: &[u8; 32], n: usize) -> [u32; MOST_WORDS]
    requires { n ≤ most_elements }
    ensures { take (4 * n + 19) result ≡ set_words seed.now n }
{
    let mut w = [0u32; MOST_WORDS];
    let end = 4 * n + 19;
    chacha20_stream::stream(chacha20_block::key_words(seed), [1, 0, 0], &mut w[..end]);
    w
}

// n words from `at` on, in an array.
fn words_from(w: &[u32], at: usize, n: usize) -> [u32; MOST_ELEMENTS]
    requires { (n ≤ most_elements) × (at + n ≤ length w.now) }
    ensures { result ≡ fill (part at n w.now) }
{
    let mut a = [0u32; MOST_ELEMENTS];
    a[..n].copy_from_slice(&w[at..at + n]);
    a
}

// A party's key seed.
fn key_seed(w: &[u32], n: usize, party: usize) -> [u32; 8]
    requires { (party ≤ 1) × (n ≤ most_elements) × (4 * n + 19 ≤ length w.now) }
    ensures { result ≡ key_seed n w.now party }
{
    let mut seed = [0u32; 8];
    let at = 4 * n + 3 + 8 * party;
    seed.copy_from_slice(&w[at..at + 8]);
    seed
}

// The mask whose two shares stand from `at` on, one after the other.
fn mask(w: &[u32], at: usize, n: usize) -> [u32; MOST_ELEMENTS]
    requires { (n ≤ most_elements) × (at + 2 * n ≤ length w.now) }
    ensures { result ≡ fill (plus n (part at n w.now) (part (at + n) n w.now)) }
{
    let mut m = [0u32; MOST_ELEMENTS];
    let next = at + n;
    share_vectors::add_vectors(n, &w[at..], &w[next..], &mut m);
    m
}

// What both sets of a deal have.
#[derive(Clone, Copy)]
struct Shared {
    number: u64,
    terms: Terms,
    rule: Rule,
    key: Key,
}

// A party's set, from what is made for it and its own words among those that were drawn.
fn set_for(
    w: &[u32],
    party: usize,
    shared: &Shared,
    mask: [u32; MOST_ELEMENTS],
    c: u32,
    r: u32,
) -> Set
    requires { (party ≤ 1) × (shared.now.terms.n ≤ most_elements)
        × (4 * shared.now.terms.n + 19 ≤ length w.now) }
    ensures { result ≡ record {
      number = shared.now.number;
      terms = shared.now.terms;
      mask = mask;
      x = fill (share_x shared.now.terms.n w.now party);
      y = fill (share_y shared.now.terms.n w.now party);
      c = c;
      r = r;
      seed = key_seed shared.now.terms.n w.now party;
      key = shared.now.key;
      width = width_of shared.now.rule;
      mark = mark_of shared.now.rule;
    } }
{
    let n = shared.terms.n;
    Set {
        number: shared.number,
        terms: shared.terms,
        mask,
        x: words_from(w, party * n, n),
        y: words_from(w, (2 + party) * n, n),
        c,
        r,
        seed: key_seed(w, n, party),
        key: shared.key,
        width: measure_table::width_of(shared.rule),
        mark: measure_table::mark_of(shared.rule),
    }
}

// Both parties' sets, from the words that were drawn from any seed. They hold one key.
fn sets_from(w: &[u32], number: u64, terms: Terms, rule: Rule) -> Dealt
    requires { (terms.n ≤ most_elements) × (4 * terms.n + 19 ≤ length w.now) }
    ensures { (seed : List ℕ) → (result.camera ≡ set_from (deal_from number seed terms rule) w.now 0)
        × (result.office ≡ set_from (deal_from number seed terms rule) w.now 1) }
{
    let n = terms.n;
    let mask_x = mask(w, 0, n);
    let mask_y = mask(w, 2 * n, n);
    let c0 = w[4 * n];
    let r = w[4 * n + 1];
    let r0 = w[4 * n + 2];
    let seed0 = key_seed(w, n, 0);
    let seed1 = key_seed(w, n, 1);
    let key = dcf_keys::make(seed0, seed1, r);
    let c1 = share_vectors::other_c(n, &mask_x, &mask_y, c0);
    let mark = measure_table::mark_of(rule);
    let r1 = share_vectors::other_r(terms, mark, r, measure_table::offset_of(rule), r0);
    let shared = Shared {
        number,
        terms,
        rule,
        key,
    };
    Dealt {
        camera: set_for(w, 0, &shared, mask_x, c0, r0),
        office: set_for(w, 1, &shared, mask_y, c1, r1),
    }
}

// Both parties' sets of a deal.
pub fn sets(seed: &[u8; 32], number: u64, terms: Terms, rule: Rule) -> Dealt
    requires { terms.n ≤ most_elements }
    ensures { (result.camera ≡ dealt_set (deal_from number seed.now terms rule) 0)
        × (result.office ≡ dealt_set (deal_from number seed.now terms rule) 1) }
{
    let n = terms.n;
    let w = draw(seed, n);
    let end = 4 * n + 19;
    sets_from(&w[..end], number, terms, rule)
}
