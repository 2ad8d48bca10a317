// Runs the pairing call and the check on some hundred fixed sheets: every size up to 5 by 5 against a search of all pairings, and sheets
// of 100 by 100. A line a family: sheets, accepted by the check, as good as the search of all, pairs, sum of scores.
#![tactic(auto)]

ghost use Rattle.std.specs.Prelude.{◌≡◌, ◌+◌, ◌-◌, ◌*◌, ◌^◌, ◌<◌, ◌≤◌, length};
ghost use Rattle.matching.specs.Pairing.{most_tracks, most_reports};

use matching::{LEFT_OUT, MOST_REPORTS, MOST_TRACKS, NONE, SCORE_END};
use std::io;

const SIZES: usize = 6;

const CELLS: usize = MOST_TRACKS * MOST_REPORTS;

const NUMBERS: u64 = 2147483648;

// The rule by which a family's cells are made.
#[derive(Clone, Copy)]
enum Family {
    // Scores of 0 to 2.
    Ties,
    // Every other row has nothing.
    Gaps,
    // One pair in eight is admissible.
    Sparse,
    // The product of the row's number and the column's.
    Products,
    // Any scores.
    Full,
}

const FAMILIES: [(&str, Family); 5] = [
    ("ties and zeros", Family::Ties),
    ("rows with nothing", Family::Gaps),
    ("one in eight", Family::Sparse),
    ("products", Family::Products),
    ("all admissible", Family::Full),
];

// A sheet of a family: its size, and the number that its cells start from.
#[derive(Clone, Copy)]
struct Case {
    family: Family,
    tracks: usize,
    reports: usize,
    seed: u64,
    ghost few: { (tracks ≤ most_tracks) × (reports ≤ most_reports) },
}

// What sheets came to.
#[derive(Clone, Copy, Default)]
struct Tally {
    sheets: u64,
    accepted: u64,
    agreed: u64,
    pairs: u64,
    scores: u64,
}

impl Tally {
    fn plus(self, other: Tally) -> Tally {
        Tally {
            sheets: self.sheets.wrapping_add(other.sheets),
            accepted: self.accepted.wrapping_add(other.accepted),
            agreed: self.agreed.wrapping_add(other.agreed),
            pairs: self.pairs.wrapping_add(other.pairs),
            scores: self.scores.wrapping_add(other.scores),
        }
    }
}

// One pairing: its pairs, and the sum of their scores.
#[derive(Clone, Copy, Default)]
struct Pairs {
    pairs: u64,
    scores: u64,
}

// The next number of a fixed sequence.
fn next(x: u64) -> u64 {
    (x % NUMBERS * 1103515245 + 12345) % NUMBERS
}

fn cell_of(family: Family, row: usize, column: usize, x: u64) -> u32 {
    let score = (x / 64 % u64::from(SCORE_END)) as u32;
    match family {
        Family::Ties => score % 3,
        Family::Gaps if row % 2 == 0 => NONE,
        Family::Sparse if x / 1048576 % 8 != 0 => NONE,
        Family::Products => ((row % MOST_TRACKS + 1) * (column % MOST_REPORTS + 1)) as u32,
        _ => score,
    }
}

fn fill_sheet(case: Case, cells: &mut [u32]) {
    let width = case.reports.max(1);
    let mut x = case.seed;
    for (k, cell) in cells.iter_mut().enumerate() {
        x = next(x);
        *cell = cell_of(case.family, k / width, k % width, x);
    }
}

// The least total of all pairings of the tracks from i on, where track i takes a report from j on, or is left out. The bits of taken
// are the reports that are taken.
fn least_total(cells: &[u32], case: Case, i: usize, j: usize, taken: u128) -> u64
    requires { (case.tracks * case.reports ≤ length cells.now) × ((i ≤ case.tracks) × (j ≤ case.reports)) }
    ensures { result ≤ (case.tracks - i) * 2 ^ 32 }
{
    if i >= case.tracks {
        return 0;
    }
    if j >= case.reports {
        return u64::from(LEFT_OUT) + least_total(cells, case, i + 1, 0, taken);
    }
    let without = least_total(cells, case, i, j + 1, taken);
    let cell = cells[i * case.reports + j];
    let bit = 1u128 << j;
    if cell == NONE || taken & bit != 0 {
        return without;
    }
    without.min(u64::from(cell) + least_total(cells, case, i + 1, 0, taken | bit))
}

// One track more: its pair, if it has one.
fn with_track(cells: &[u32], case: Case, track: usize, report: usize, before: Pairs) -> Pairs
    requires { track ≤ most_tracks }
{
    if report >= case.reports {
        return before;
    }
    let score = cells
        .get(track * case.reports + report)
        .map_or(0, |s| u64::from(*s));
    Pairs {
        pairs: before.pairs.wrapping_add(1),
        scores: before.scores.wrapping_add(score),
    }
}

fn outcome(cells: &[u32], case: Case, pairing: &[u32]) -> Pairs
    requires { length pairing.now ≤ most_tracks }
{
    let mut found = Pairs::default();
    for (track, report) in pairing.iter().enumerate() {
        found = with_track(cells, case, track, *report as usize, found);
    }
    found
}

// Whether a pairing is as good as the best of all.
fn as_good(cells: &[u32], case: Case, found: Pairs) -> bool
    requires { case.tracks * case.reports ≤ length cells.now }
{
    let left = (case.tracks as u64).wrapping_sub(found.pairs) % 128;
    left * u64::from(LEFT_OUT) + found.scores % NUMBERS == least_total(cells, case, 0, 0, 0)
}

// The sheet is made, paired and checked. Small sheets are settled by a search of all pairings too.
fn run(case: Case, small: bool) -> Tally {
    let mut cells = [0; CELLS];
    let mut pairing = [0; MOST_TRACKS];
    let mut prices = [0; MOST_TRACKS];
    let mut discounts = [0; MOST_REPORTS];
    fill_sheet(case, &mut cells);
    let _ = engine::pair_sheet(
        case.tracks,
        case.reports,
        &cells,
        &mut pairing,
        &mut prices,
        &mut discounts,
    );
    let verdict = matching::check_pairing(
        case.tracks,
        case.reports,
        &cells,
        &pairing,
        &prices,
        &discounts,
    );
    let found = outcome(&cells, case, &pairing[..case.tracks]);
    Tally {
        sheets: 1,
        accepted: u64::from(verdict.is_ok()),
        agreed: u64::from(small && as_good(&cells, case, found)),
        pairs: found.pairs,
        scores: found.scores,
    }
}

// Every size up to 5 tracks by 5 reports, twice.
fn small_sheets(family: Family) -> Tally {
    let mut tally = Tally::default();
    for k in 0..2 * SIZES * SIZES {
        let case = Case {
            family,
            tracks: k % SIZES,
            reports: k / SIZES % SIZES,
            seed: k as u64,
        };
        tally = tally.plus(run(case, true));
    }
    tally
}

fn wide_sheets(family: Family) -> Tally {
    let mut tally = Tally::default();
    for seed in 0..3u64 {
        let case = Case {
            family,
            tracks: MOST_TRACKS,
            reports: MOST_REPORTS,
            seed,
        };
        tally = tally.plus(run(case, false));
    }
    tally
}

fn line(rt: &HostRuntime, t: Tally) -> io::Result<()> {
    let Tally {
        sheets,
        accepted,
        agreed,
        pairs,
        scores,
    } = t;
    println!(rt; " {sheets} {accepted} {agreed} {pairs} {scores}")
}

fn main(rt: HostRuntime) -> io::Result<()> {
    for (name, family) in FAMILIES {
        print!(rt; "{name}")?;
        line(&rt, small_sheets(family))?;
    }
    for (name, family) in FAMILIES {
        print!(rt; "wide, {name}")?;
        line(&rt, wide_sheets(family))?;
    }
    Ok(())
}
