// The row of a minute in a table of the day, or why the table is turned down.
use call_day::Lists;
use test_script::{Line, Output};

// The most words of a list.
const LIST: usize = 512;

// table FIRSTS LASTS THRESHOLDS MINUTE: the number and the place, and the threshold of a row that was
// chosen, else 0.
pub fn choose(line: Line<'_>, out: &mut Output) -> Option<()> {
    let mut firsts: [u32; LIST] = test_script::zeros();
    let mut lasts: [u32; LIST] = test_script::zeros();
    let mut thresholds: [u32; LIST] = test_script::zeros();
    let table = Lists {
        firsts: line.vector(1, &mut firsts)?,
        lasts: line.vector(2, &mut lasts)?,
        thresholds: line.vector(3, &mut thresholds)?,
    };
    out.put_numbers(&match call_day::choose(table, line.word(4)?) {
        Ok(Some(row)) => [0, row.place, row.threshold],
        Ok(None) => [0; 3],
        Err(bad) => [bad.why.number(), bad.place, 0],
    });
    Some(())
}
