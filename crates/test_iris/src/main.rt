// Answers a script of calls on iris codes, a line for each line. A second implementation made it, and the
// output is compared with that implementation's; second/src/iris_lines.rs says what the lines are.
#![tactic(auto)]

use test_script::{Line, Output};

// The most bytes of a code that is handed in and of a buffer that is lent, and the most words.
const BYTES: usize = 128;

const WORDS: usize = 640;

// What stands in a buffer before the call: no two neighbours are alike, and no word is a bit.
fn bytes_before() -> [u8; BYTES] {
    std::array::from_fn(|i| ((i % 256 * 37 + 11) % 256) as u8)
}

fn words_before() -> [u32; WORDS] {
    std::array::from_fn(|i| (2 + i % 8) as u32)
}

// As much of a buffer as a field says.
fn lend<'a, T>(buffer: &'a mut [T], line: Line<'_>, place: usize) -> Option<&'a mut [T]> {
    buffer.get_mut(..line.word(place)? as usize)
}

// Why not, and the buffer after the call.
fn answer_bytes(out: &mut Output, why: u32, lent: &[u8]) {
    out.put_number(u64::from(why));
    out.put_byte(b' ');
    out.put_hex(lent);
}

// The words as digits, - if there are none.
fn answer_digits(out: &mut Output, lent: &[u32]) {
    if lent.is_empty() {
        out.put_byte(b'-');
    }
    for w in lent {
        if *w < 10 {
            out.put_number(u64::from(*w));
        } else {
            out.put_byte(b'*');
        }
    }
}

// rings CODE ROOM and angles CODE ROOM
fn rearrange<F: Fn(&[u8], &mut [u8]) -> u32>(to: F, line: Line<'_>, out: &mut Output) -> Option<()>
    requires { F.IsAlwaysCallable to }
{
    let mut code = [0u8; BYTES];
    let mut buffer = bytes_before();
    let lent = lend(&mut buffer, line, 2)?;
    let why = to(line.bytes(1, &mut code)?, lent);
    answer_bytes(out, why, lent);
    Some(())
}

// unpack CODE ROOM
fn unpack(line: Line<'_>, out: &mut Output) -> Option<()> {
    let mut code = [0u8; BYTES];
    let mut buffer = words_before();
    let lent = lend(&mut buffer, line, 2)?;
    let why = measure_iris::unpack(line.bytes(1, &mut code)?, lent);
    out.put_number(u64::from(why));
    out.put_byte(b' ');
    answer_digits(out, lent);
    Some(())
}

fn answer_packed(vector: &[u32], line: Line<'_>, out: &mut Output) -> Option<()> {
    let mut buffer = bytes_before();
    let lent = lend(&mut buffer, line, 2)?;
    let why = measure_iris::pack(vector, lent);
    answer_bytes(out, why, lent);
    Some(())
}

// pack VECTOR ROOM
fn pack(line: Line<'_>, out: &mut Output) -> Option<()> {
    let mut words: [u32; WORDS] = test_script::zeros();
    answer_packed(line.vector(1, &mut words)?, line, out)
}

// pack VECTOR ROOM PLACE WORD
fn pack_with(line: Line<'_>, out: &mut Output) -> Option<()> {
    let mut words: [u32; WORDS] = test_script::zeros();
    let vector = line.vector(1, &mut words)?;
    *vector.get_mut(line.word(3)? as usize)? = line.word(4)?;
    answer_packed(vector, line, out)
}

// hamming CODE CODE
fn hamming(line: Line<'_>, out: &mut Output) -> Option<()> {
    let mut first = [0u8; BYTES];
    let mut second = [0u8; BYTES];
    let h = measure_iris::hamming(line.bytes(1, &mut first)?, line.bytes(2, &mut second)?);
    out.put_numbers(&[h.why, h.distance]);
    Some(())
}

fn answer(line: Line<'_>, out: &mut Output) -> Option<()> {
    match (line.field(0), line.count()) {
        (b"rings", 3) => rearrange(measure_iris::to_rings, line, out),
        (b"angles", 3) => rearrange(measure_iris::to_angles, line, out),
        (b"unpack", 3) => unpack(line, out),
        (b"pack", 3) => pack(line, out),
        (b"pack", 5) => pack_with(line, out),
        (b"hamming", 3) => hamming(line, out),
        _ => None,
    }
}

fn main() {
    test_script::answer_lines(answer);
}
