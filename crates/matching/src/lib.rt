// The referee: checks that a pairing of tracks with reports is best, by prices and discounts that show it. It knows of no engine.
#![tactic(auto)]

ghost use Rattle.std.specs.Prelude.{◌≡◌, true, false, MatchResult, nat_le, ◌&&◌, ◌+◌, ◌*◌, ◌≤◌, ◌<◌, ◌^◌, length, take, drop};
ghost use Rattle.std.specs.List.{list_all, fold, zip};
ghost use Rattle.laws.specs.Sums.{sum};
ghost use Rattle.laws.specs.Lists.{at};
ghost use Rattle.matching.specs.Pairing.{left_out, HasReport, score_or, total, sheet_of};
ghost use Rattle.matching.specs.Answer.{sizes_ok, Sizes, cell_ok, cells_ok, entry_ok, pairing_ok, pair_ok, scores_ok, totals_ok, sheet_refusal, check_answer, fault_number, check_number};

// In a cell: the pair is not admissible. In a pairing: the track is left out. A number and no Option, since C lends these lists.
pub const NONE: u32 = 4294967295;
// A score is below this.
pub const SCORE_END: u32 = 2097152;
// What a track left out counts in a total; no price and no discount is above it.
pub const LEFT_OUT: u32 = 268435456;
// A sheet has no more tracks than this,
pub const MOST_TRACKS: usize = 100;
// and no more reports than this.
pub const MOST_REPORTS: usize = 100;

// Why a sheet is refused, or its pairing not accepted, by 01's numbers.
#[derive(Clone, Copy, Debug, PartialEq, Eq)]
pub enum Fault {
    // Too many tracks or reports, or a list too short for them.
    Sizes = 21,
    // A cell is neither NONE nor a score.
    Cells = 22,
    // A track's report is not there, not admissible, or another track's too.
    Pairing = 23,
    // A price or a discount is above LEFT_OUT.
    Numbers = 24,
    // A price less a discount is above the score of an admissible pair.
    Scores = 25,
    // All prices less all discounts are not the pairing's total.
    Totals = 26,
}

impl Fault {
    pub fn number(self) -> u8
        ensures { result ≡ fault_number self }
    {
        self as u8
    }
}

// A score sheet: a row a track, `reports` cells a row.
#[derive(Clone, Copy)]
pub struct Sheet<'a> {
    pub cells: &'a [u32],
    pub reports: usize,
}

impl<'a> Sheet<'a> {
    // A track's cells.
    pub fn row(self, track: usize) -> &'a [u32]
        requires { track * self.reports + self.reports ≤ length self.cells.now }
        ensures { result.now ≡ take self.entry.reports (drop (track * self.entry.reports) self.entry.cells.now) }
    {
        let start = track * self.reports;
        &self.cells[start..start + self.reports]
    }
}

// Few enough tracks and reports, and long enough lists, by their lengths.
#[tactic(auto, unfolding(crate::specs::Answer::sizes_ok, laws::specs::Tests::holds))]
fn sizes_ok(
    tracks: usize,
    reports: usize,
    cells: usize,
    pairing: usize,
    prices: usize,
    discounts: usize,
) -> bool
    ensures { result ≡ sizes_ok tracks reports cells pairing prices discounts }
{
    tracks <= MOST_TRACKS
        && reports <= MOST_REPORTS
        && tracks * reports <= cells
        && tracks <= pairing
        && tracks <= prices
        && reports <= discounts
}

// NONE, or a score.
fn cell_ok(cell: u32) -> bool
    ensures { result ≡ cell_ok cell }
{
    cell == NONE || cell < SCORE_END
}

// A fold with no way out is what the compiler turns into vector instructions.
fn cells_ok(cells: &[u32]) -> bool
    ensures { result ≡ cells_ok (length cells.now) cells.now }
{
    cells.iter().fold(true, |ok, cell| ok & cell_ok(*cell))
}

// The fault, where a test fails. Intake's `demand` says it of a refusal: no crate with code lies below both.
fn refuse_unless(ok: bool, fault: Fault) -> Result<(), Fault>
    ensures { MatchResult result (λ _. ok ≡ true) (λ told. (ok ≡ false) × (told ≡ fault)) }
{
    if ok { Ok(()) } else { Err(fault) }
}

// Whether a sheet can be paired and judged. The last three are the lengths of the lists beside it.
pub fn sheet_refusal(
    tracks: usize,
    reports: usize,
    sheet: &[u32],
    pairing: usize,
    prices: usize,
    discounts: usize,
) -> Result<(), Fault>
    ensures { check_number result ≡ sheet_refusal tracks reports sheet.now pairing prices discounts 0 }
{
    let sizes = sizes_ok(tracks, reports, sheet.len(), pairing, prices, discounts);
    refuse_unless(sizes, Fault::Sizes)?;
    refuse_unless(cells_ok(&sheet[..tracks * reports]), Fault::Cells)
}

// A track is left out, or its report is there, the pair is admissible, and no track before it has the report. How many tracks the
// sheet has does not matter to one of them, hence `sheet_of 0`.
fn entry_ok(sheet: Sheet, pairing: &[u32], track: usize) -> bool
    requires { (track < length pairing.now) × (track * sheet.reports + sheet.reports ≤ length sheet.cells.now) }
    ensures { result ≡ entry_ok (sheet_of 0 sheet.entry.reports sheet.entry.cells.now) (at pairing.now) track }
{
    let report = pairing[track];
    if report == NONE {
        return true;
    }
    let place = report as usize;
    if place >= sheet.reports {
        return false;
    }
    if sheet.row(track)[place] == NONE {
        return false;
    }
    !pairing[..track].contains(&report)
}

fn pairing_ok(sheet: Sheet, pairing: &[u32]) -> bool
    requires { length pairing.now * sheet.reports ≤ length sheet.cells.now }
    ensures { result ≡ pairing_ok (sheet_of (length pairing.now) sheet.entry.reports sheet.entry.cells.now) (at pairing.now) }
{
    for track in 0..pairing.len() {
        if !entry_ok(sheet, pairing, track) {
            return false;
        }
    }
    true
}

// Each price, or discount, is in range.
fn numbers_ok(numbers: &[u32]) -> bool
    ensures { result ≡ list_all (λ x. nat_le x left_out) numbers.now }
{
    numbers.iter().all(|x| *x <= LEFT_OUT)
}

// The pair is not admissible, which most are and one glance tells, or the price less the discount is not above its score.
fn pair_ok(price: u32, score: u32, discount: u32) -> bool
    ensures { result ≡ pair_ok price score discount }
{
    score == NONE || u64::from(price) <= u64::from(score) + u64::from(discount)
}

// The same with no branch, for vectors: no price is above NONE, so that one test says both.
fn lane_ok(price: u32, score: u32, discount: u32) -> bool
    ensures { result ≡ pair_ok price score discount }
{
    price.saturating_sub(discount) <= score
}

// The loop by vectors takes so many pairs at a time.
const VECTOR: usize = 8;

// The pairs of a track, one by one to the first fault: with few of them that is quicker than by vectors.
fn short_row_ok(price: u32, scores: &[u32], discounts: &[u32]) -> bool
    ensures { result ≡ list_all (λ pair. pair_ok price pair.0 pair.1) (zip scores.now discounts.now) }
{
    scores
        .iter()
        .zip(discounts)
        .all(|(score, discount)| pair_ok(price, *score, *discount))
}

// The pairs of a track. A fold with no way out goes by vectors.
#[tactic(auto, using(crate::proofs::Walks::all_folds))]
fn row_ok(price: u32, scores: &[u32], discounts: &[u32]) -> bool
    ensures { result ≡ fold (λ ok pair. ok && pair_ok price pair.0 pair.1) true (zip scores.now discounts.now) }
{
    if scores.len() < VECTOR {
        return short_row_ok(price, scores, discounts);
    }
    scores
        .iter()
        .zip(discounts)
        .fold(true, |ok, (score, discount)| {
            ok & lane_ok(price, *score, *discount)
        })
}

fn scores_ok(sheet: Sheet, prices: &[u32], discounts: &[u32]) -> bool
    requires { (length prices.now * sheet.reports ≤ length sheet.cells.now) × (length discounts.now ≡ sheet.reports) }
    ensures { result ≡ scores_ok (sheet_of (length prices.now) sheet.entry.reports sheet.entry.cells.now) (at prices.now) (at discounts.now) }
{
    for (track, price) in prices.iter().enumerate() {
        if !row_ok(*price, sheet.row(track), discounts) {
            return false;
        }
    }
    true
}

// All prices, or discounts, together. Each is below 2^32, so that 64 bits hold the sum.
fn sum_of(numbers: &[u32]) -> u64
    requires { length numbers.now ≤ 2 ^ 31 }
    ensures { (result ≡ sum (length numbers.now) (at numbers.now)) × (result ≤ length numbers.now * 2 ^ 32) }
{
    numbers.iter().map(|x| u64::from(*x)).sum()
}

// What a track counts in the total: its score, or LEFT_OUT.
fn counted(sheet: Sheet, pairing: &[u32], track: usize) -> u64
    requires { (track < length pairing.now) × ((track * sheet.reports + sheet.reports ≤ length sheet.cells.now) × (HasReport (at pairing.now) track → at pairing.now track < sheet.reports)) }
    ensures { (result ≡ score_or left_out (sheet_of 0 sheet.entry.reports sheet.entry.cells.now) (at pairing.now) track) × (result < 2 ^ 32) }
{
    let report = pairing[track];
    if report == NONE {
        return u64::from(LEFT_OUT);
    }
    u64::from(sheet.row(track)[report as usize])
}

// The total of a valid pairing.
fn total_of(sheet: Sheet, pairing: &[u32]) -> u64
    requires { (length pairing.now ≤ 2 ^ 31) × ((length pairing.now * sheet.reports ≤ length sheet.cells.now) × (pairing_ok (sheet_of (length pairing.now) sheet.reports sheet.cells.now) (at pairing.now) ≡ true)) }
    ensures { (result ≡ total (sheet_of (length pairing.now) sheet.entry.reports sheet.entry.cells.now) (at pairing.now)) × (result ≤ length pairing.now * 2 ^ 32) }
{
    let mut sum: u64 = 0;
    for track in 0..pairing.len() {
        sum += counted(sheet, pairing, track);
    }
    sum
}

// All prices are the total and all discounts.
fn totals_ok(sheet: Sheet, pairing: &[u32], prices: &[u32], discounts: &[u32]) -> bool
    requires sizes { Sizes (length pairing.now) sheet.reports (length sheet.cells.now) (length pairing.now) (length prices.now) (length discounts.now) }
    requires exact { (length prices.now ≡ length pairing.now) × (length discounts.now ≡ sheet.reports) }
    requires pairing_good { pairing_ok (sheet_of (length pairing.now) sheet.reports sheet.cells.now) (at pairing.now) ≡ true }
    ensures { result ≡ totals_ok (sheet_of (length pairing.now) sheet.entry.reports sheet.entry.cells.now) (at pairing.now) (at prices.now) (at discounts.now) }
{
    let paid = sum_of(prices);
    let total = total_of(sheet, pairing);
    let off = sum_of(discounts);
    paid == total + off
}

// What is tested once sizes and cells are in order, and the lists just long enough.
fn judge(sheet: Sheet, pairing: &[u32], prices: &[u32], discounts: &[u32]) -> Result<(), Fault>
    requires sizes { Sizes (length pairing.now) sheet.reports (length sheet.cells.now) (length pairing.now) (length prices.now) (length discounts.now) }
    requires exact { (length prices.now ≡ length pairing.now) × (length discounts.now ≡ sheet.reports) }
    requires tested { cells_ok (length pairing.now * sheet.reports) sheet.cells.now ≡ true }
    ensures { check_number result ≡ check_answer (length pairing.now) sheet.entry.reports sheet.entry.cells.now pairing.now prices.now discounts.now }
{
    refuse_unless(pairing_ok(sheet, pairing), Fault::Pairing)?;
    refuse_unless(numbers_ok(prices), Fault::Numbers)?;
    refuse_unless(numbers_ok(discounts), Fault::Numbers)?;
    refuse_unless(scores_ok(sheet, prices, discounts), Fault::Scores)?;
    refuse_unless(totals_ok(sheet, pairing, prices, discounts), Fault::Totals)
}

// Whether prices and discounts show that the pairing is best; else the first fault in 01's order. It writes nothing. Its parameters
// are in C's order.
pub fn check_pairing(
    tracks: usize,
    reports: usize,
    sheet: &[u32],
    pairing: &[u32],
    prices: &[u32],
    discounts: &[u32],
) -> Result<(), Fault>
    ensures { check_number result ≡ check_answer tracks reports sheet.now pairing.now prices.now discounts.now }
{
    sheet_refusal(
        tracks,
        reports,
        sheet,
        pairing.len(),
        prices.len(),
        discounts.len(),
    )?;
    judge(
        Sheet {
            cells: sheet,
            reports,
        },
        &pairing[..tracks],
        &prices[..tracks],
        &discounts[..reports],
    )
}
