// Answers a script of calls on a door's four parts, a line for each line (docs/REPLAY.md), so that a
// host's log can be run again. The output is compared with a second implementation's.
#![tactic(auto)]

use test_replay_lines::memory::Memory;
use test_replay_lines::request::Request;
use test_replay_lines::{kept, put};
use test_script::{Lines, Output};

// Writes the answer of a line that was run, and keeps what its call sent.
fn finish(r: Request, why: u32, word: u32, m: &mut Memory, out: &mut Output) {
    if why == 0 {
        kept::keep(r, word, m);
        put::answer(r, word, m, out);
    } else {
        put::refused(r, why, word, out);
    }
}

fn answers(lines: Lines<'_>) {
    let mut out = Output::new();
    let mut m = Memory::new();
    let mut door = test_replay_parts::closed();
    let mut place: u64 = 0;
    for line in lines {
        place = place.saturating_add(1);
        match kept::read(line, &mut m) {
            Some(r) => {
                let step = test_replay_parts::call(door, &mut m, r);
                finish(r, step.why, step.word, &mut m, &mut out);
                door = step.door;
            }
            None => put::bad_line(place, &mut out),
        }
        out.put_byte(b'\n');
    }
    out.flush();
}

fn main() {
    let mut text = test_script::no_text();
    answers(test_script::read_lines(&mut text));
}
