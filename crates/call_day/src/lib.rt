// The table of the day (02, §5): rows of a first minute, a last minute and a threshold, handed in as
// three lists. It tells which row holds a minute, or why a table is turned down and at which place.
#![tactic(auto)]

ghost use Rattle.std.specs.Prelude.{◌≡◌, ◌≤◌, length};
ghost use Rattle.call_day.specs.Table.{in_row, row_fits, rows_with, first_bad_row, first_bad_minute, row_at};
ghost use Rattle.call_day.specs.Table.{shaped, Finds, table_in, why_not_table, fault_of};
ghost use Rattle.call_day.specs.Table.{choose as choose_of, choice_of, Placed};
ghost use Rattle.call_day.specs.Turns.{lower_of};

use base_messages::Refusal;

// The minutes of a day run from 0 to 1,439.
pub const DAY: u32 = 1440;

// The most rows of a table.
pub const ROWS: usize = 32;

// A table as it is handed in: its rows' first minutes, last minutes and thresholds.
// kept: the C interface; three lists, which can be of any lengths.
#[derive(Clone, Copy)]
pub struct Lists<'a> {
    pub firsts: &'a [u32],
    pub lasts: &'a [u32],
    pub thresholds: &'a [u32],
}

impl Lists<'_> {
    // Whether they are of one length, 1 to 32.
    fn shaped(self) -> bool
        ensures { result ≡ shaped (table_in self.entry) }
    {
        let n = self.firsts.len();
        (self.lasts.len() == n) & ((self.thresholds.len() == n) & ((1 <= n) & (n <= ROWS)))
    }
}

// Why a table is turned down, and the place beside it: a row, counted from 1, or a minute, or 0.
#[derive(Clone, Copy)]
pub struct BadTable {
    pub why: Refusal,
    pub place: u32,
}

// The row that holds a minute: its place, counted from 1, and its threshold.
#[derive(Clone, Copy)]
pub struct Row {
    pub place: u32,
    pub threshold: u32,
}

fn in_row(first: u32, last: u32, minute: u32) -> bool
    ensures { result ≡ in_row first last minute }
{
    (first <= minute) & (minute <= last)
}

fn row_fits(first: u32, last: u32) -> bool
    ensures { result ≡ row_fits first last }
{
    (first <= last) & (last < DAY)
}

// The rows of a table of the day: as many first minutes as last ones.
#[derive(Clone, Copy)]
struct Rows<'a> {
    firsts: &'a [u32],
    lasts: &'a [u32],
    ghost same_length: { length lasts.now ≡ length firsts.now },
}

impl Rows<'_> {
    // How many rows hold the minute.
    // kept: (b) an index, not `zip`, `filter` and `count`, which LLVM does not vectorise: a table is then tested in 2.5
    // times the time.
    fn with(self, minute: u32) -> usize
        ensures { result ≡ rows_with self.entry.firsts.now self.entry.lasts.now minute }
    {
        let mut n: usize = 0;
        for i in 0..self.firsts.len() {
            if in_row(self.firsts[i], self.lasts[i], minute) {
                n += 1;
            }
        }
        n
    }

    // The first row that runs backwards or past the day, counted from 0.
    fn first_bad(self) -> Option<usize>
        ensures { Finds result (length self.entry.firsts.now)
            (first_bad_row self.entry.firsts.now self.entry.lasts.now) }
    {
        let mut rows = self.firsts.iter().zip(self.lasts);
        rows.position(|(first, last)| !row_fits(*first, *last))
    }

    // The first row that holds the minute, counted from 0.
    fn at(self, minute: u32) -> Option<usize>
        ensures { Finds result (length self.entry.firsts.now)
            (row_at self.entry.firsts.now self.entry.lasts.now minute) }
    {
        let mut rows = self.firsts.iter().zip(self.lasts);
        rows.position(|(first, last)| in_row(*first, *last, minute))
    }

    // The minute where it is below the lowest bad one so far and bad too, else that one.
    fn lower(self, lowest: u32, minute: u32) -> u32
        ensures { result ≡ lower_of self.entry.firsts.now self.entry.lasts.now lowest minute }
    {
        if minute < lowest {
            if self.with(minute) != 1 {
                return minute;
            }
        }
        lowest
    }

    // The lowest minute that does not lie in just one row, or 1,440. How many rows hold a minute changes
    // only where a row begins or has just ended, so no other minutes are tried.
    fn first_bad_minute(self) -> u32
        requires { length self.firsts.now ≤ first_bad_row self.firsts.now self.lasts.now }
        ensures { result ≡ first_bad_minute self.entry.firsts.now self.entry.lasts.now }
    {
        let mut lowest = self.lower(DAY, 0);
        for (first, last) in self.firsts.iter().zip(self.lasts) {
            lowest = self.lower(lowest, *first);
            lowest = self.lower(lowest, *last + 1);
        }
        lowest
    }
}

// Why a table is turned down, if it is.
pub fn why_not(table: Lists) -> Result<(), BadTable>
    ensures { fault_of result ≡ why_not_table (table_in table.entry) }
{
    if !table.shaped() {
        return Err(BadTable {
            why: Refusal::BadRows,
            place: 0,
        });
    }
    let rows = Rows {
        firsts: table.firsts,
        lasts: table.lasts,
    };
    if let Some(row) = rows.first_bad() {
        return Err(BadTable {
            why: Refusal::BadRows,
            place: row as u32 + 1,
        });
    }
    let lowest = rows.first_bad_minute();
    if !(lowest < DAY) {
        return Ok(());
    }
    if rows.with(lowest) == 0 {
        return Err(BadTable {
            why: Refusal::NoRow,
            place: lowest,
        });
    }
    Err(BadTable {
        why: Refusal::MoreRows,
        place: lowest,
    })
}

// The row of a minute, where the table is good: a minute that is not of the day has none.
pub fn choose(table: Lists, minute: u32) -> Result<Option<Row>, BadTable>
    ensures value { choice_of result ≡ choose_of (table_in table.entry) minute }
    ensures placed { Placed result }
{
    why_not(table)?;
    if !(minute < DAY) {
        return Ok(None);
    }
    let rows = Rows {
        firsts: table.firsts,
        lasts: table.lasts,
    };
    let at = rows.at(minute).unwrap();
    Ok(Some(Row {
        place: at as u32 + 1,
        threshold: table.thresholds[at],
    }))
}
