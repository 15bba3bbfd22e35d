// Answers a script of keys, values, whole checks, own terms and tables of the day, a line for each line. A second
// implementation made it, and the output is compared with that implementation's.
#![tactic(auto)]

mod run;
mod table;

use dcf_node::Key;
use test_script::{Line, Output};

// A key, with the two seeds that it was made from, party 0's first.
#[derive(Clone, Copy)]
struct Dealt {
    seeds: [[u32; 8]; 2],
    key: Key,
}

fn seed(line: Line<'_>, n: usize) -> Option<[u32; 8]> {
    Some(chacha20_block::key_words(&line.array(n)?))
}

// Makes the key of the seeds and the point at three of a line's fields.
fn deal(line: Line<'_>, at0: usize, at1: usize, point_at: usize) -> Option<Dealt> {
    let seeds = [seed(line, at0)?, seed(line, at1)?];
    let key = dcf_keys::make(seeds[0], seeds[1], line.word(point_at)?);
    Some(Dealt { seeds, key })
}

// key SEED0 SEED1 POINT, answered as a sealed half stores the key: seed, word and flags of each level,
// then the final word.
fn make_key(line: Line<'_>, out: &mut Output) -> Option<()> {
    let key = deal(line, 1, 2, 3)?.key;
    for c in &key.corrections {
        out.put_words(&c.seed);
        out.put_words(&[c.word]);
        out.put_hex(&[(c.flags % 256) as u8]);
    }
    out.put_words(&[key.last]);
    Some(())
}

// value PARTY SEED0 SEED1 POINT U
fn value(line: Line<'_>, out: &mut Output) -> Option<()> {
    let party = line.word(1)?;
    let dealt = deal(line, 2, 3, 4)?;
    let seed = *dealt.seeds.get(party as usize)?;
    out.put_numbers(&[dcf_walk::value(dealt.key, seed, party, line.word(5)?)]);
    Some(())
}

fn answer(line: Line<'_>, out: &mut Output) -> Option<()> {
    match (line.field(0), line.count()) {
        (b"key", 4) => make_key(line, out),
        (b"value", 6) => value(line, out),
        (b"run", 11) => run::check(line, out),
        (b"own", 3) => run::own(line, out),
        (b"table", 5) => table::choose(line, out),
        _ => None,
    }
}

fn main() {
    test_script::answer_lines(answer);
}
