// The sector call: one call serves one sector.
#![tactic(auto)]

ghost use Rattle.std.specs.Prelude.{◌≡◌, ◌<◌, ◌≤◌, length, take};
ghost use Rattle.numbers.specs.Sectors.{next_sector};
ghost use Rattle.intake.specs.Refusals.{input, input_in, most_batch, due_slots, Ready};
ghost use Rattle.sector.specs.Settled.{SettledAs};
ghost use Rattle.sector.specs.Serve.{lent, tally, ServedWith, ServesSector};
ghost use Rattle.sector.specs.Lists.{lent_in, rooms_in, RoomIn, SameLists, PairableIn, PairedUpIn, PairedOffIn};
ghost use Rattle.laws.specs.Lists.{at};
ghost use Rattle.laws.specs.Tests.{holds};
ghost use Rattle.matching.specs.Pairing.{score_end, sheet_of, score_or, sum_of_scores};
ghost use Rattle.sector.specs.Sum.{Summable};

use fates::{Assigned, Fate};
use intake::{Call, Refusal};
use records::Site;
use walk::MissedCounts;

// A cell for each pair of the largest sector.
const MOST_CELLS: usize = intake::MOST_DUE * intake::MOST_BATCH;

#[derive(Clone, Copy, Debug, PartialEq, Eq)]
pub struct Counts {
    pub paired: u32,
    pub coasted: u32,
    pub dropped: u32,
    pub started: u32,
    pub weak: u32,
    pub full: u32,
    pub score_sum: u32,
}

// The lists that a call's answer is written to.
#[derive(Drop)]
struct Answer<'a> {
    // of each report
    fates: &'a mut [u8],
    slots: &'a mut [u16],
    shown: &'a mut [u8],
    discounts: &'a mut [u32],
    // of each slot
    prices: &'a mut [u32],
}

impl Answer<'_> {
    // Whether there is a fate, slot, shown mark and discount per report and a price per slot.
    fn has_room(&self, reports: usize, table: usize) -> bool
        ensures { result ≡ holds (rooms_in reports table self.now) }
    {
        let rooms = [
            reports <= self.fates.len(),
            reports <= self.slots.len(),
            reports <= self.shown.len(),
            reports <= self.discounts.len(),
            table <= self.prices.len(),
        ];
        records::first_broken(&rooms).is_none()
    }

    // The counts, once the reports are told.
    fn count_all(&self, reports: usize, missed: MissedCounts, scores: u32) -> Counts
        requires { (reports ≤ length self.now.fates.now) × (reports ≤ most_batch) }
        ensures { result ≡ tally (take reports self.now.fates.now) missed.coasted missed.dropped scores }
    {
        let fates = &self.fates[..reports];
        Counts {
            paired: fates::count_fate(fates, Fate::Paired as u8),
            coasted: missed.coasted,
            dropped: missed.dropped,
            started: fates::count_fate(fates, Fate::Started as u8),
            weak: fates::count_fate(fates, Fate::Weak as u8),
            full: fates::count_fate(fates, Fate::Full as u8),
            score_sum: scores,
        }
    }
}

// The sheet of a call's due tracks and its batch, and what pairing gives each of the tracks.
#[derive(Drop)]
struct Worksheet<'a> {
    // a score a pair
    cells: &'a mut [u32],
    // a report number a due track
    pairing: &'a mut [u32],
    // a price a due track
    prices: &'a mut [u32],
}

// The score of a due track's pair, or 0 where it has none: in the check's totals a track left out counts otherwise.
fn pair_score(sheet: &[u32], reports: usize, pairing: &[u32], track: usize) -> u32
    requires summable { Summable reports sheet.now pairing.now }
    requires track_in { track < length pairing.now }
    ensures { (result ≡ score_or 0 (sheet_of (length pairing.now) reports sheet.now) (at pairing.now) track) × (result < score_end) }
{
    let number = pairing[track];
    if number == matching::NONE {
        return 0;
    }
    let cell = track * reports + number as usize;
    sheet[cell]
}

fn score_sum(sheet: &[u32], reports: usize, pairing: &[u32]) -> u32
    requires { Summable reports sheet.now pairing.now }
    ensures { result ≡ sum_of_scores (sheet_of (length pairing.now) reports sheet.now) (at pairing.now) }
{
    let mut sum: u32 = 0;
    for track in 0..pairing.len() {
        sum += pair_score(sheet, reports, pairing, track);
    }
    sum
}

// After pairing: the table is settled, then the reports are told, and all is counted.
fn settle(
    table: &mut [[u8; records::SLOT_BYTES]],
    call: Call,
    due: &[usize],
    sheet: &Worksheet<'_>,
    answer: &mut Answer<'_>,
) -> Counts
    requires ready { Ready (input_in table.old call) }
    requires paired_up { PairedUpIn (input_in table.old call) due.now sheet.now }
    requires room { RoomIn (length table.old) (length call.batch.now) answer.old }
    ensures settled { SettledAs (input_in table.old call.entry) sheet.now.pairing.now sheet.now.prices.now (lent_in table.old call.entry.sector answer.old) (lent_in table.new call.entry.sector answer.new) result }
    ensures same_lists { SameLists answer.old answer.new }
{
    let reports = call.batch.len();
    let scores = score_sum(sheet.cells, reports, sheet.pairing);
    let missed = walk::count_missed(table, call, due, sheet.pairing);
    walk::settle_table(table, call, due, sheet.pairing, sheet.prices, answer.prices);
    fates::tell_reports(
        table,
        call,
        Assigned {
            due,
            pairing: sheet.pairing,
        },
        answer.fates,
        answer.slots,
        answer.shown,
    );
    answer.count_all(reports, missed, scores)
}

// Score and pair: the sheet's cells, a report number and a price a due track, a discount a report.
fn pair_up(
    table: &[[u8; records::SLOT_BYTES]],
    call: Call,
    due: &[usize],
    sheet: &mut Worksheet<'_>,
    discounts: &mut [u32],
)
    requires ready { Ready (input_in table.now call) }
    requires pairable { PairableIn (input_in table.now call) due.now sheet.old discounts.old }
    ensures { PairedOffIn (input_in table.now call.entry) due.now sheet.new discounts.old discounts.new }
{
    let cells = &mut *sheet.cells;
    scoresheet::fill_rows(table, call, due, cells);
    // The sheet is not refused: its sizes and cells are the sector's.
    let _ = engine::pair_sheet(
        due.len(),
        call.batch.len(),
        cells,
        sheet.pairing,
        sheet.prices,
        discounts,
    );
}

// A call that is refused by nothing, with its due list and a sheet of the right size: score, pair, settle.
fn serve_due(
    table: &mut [[u8; records::SLOT_BYTES]],
    call: Call,
    due: &[usize],
    sheet: &mut Worksheet<'_>,
    answer: &mut Answer<'_>,
) -> Counts
    requires ready { Ready (input_in table.old call) }
    requires pairable { PairableIn (input_in table.old call) due.now sheet.old answer.old.discounts.now }
    requires room { RoomIn (length table.old) (length call.batch.now) answer.old }
    ensures served { ServedWith (input_in table.old call.entry)
        (lent_in table.old call.entry.sector answer.old) (lent_in table.new (next_sector call.entry.sector) answer.new) result }
    ensures same_lists { SameLists answer.old answer.new }
{
    pair_up(table, call, due, sheet, answer.discounts);
    settle(table, call, due, sheet, answer)
}

// A list of a call's own.
fn blank<const N: usize>() -> [u32; N]
    ensures { length result ≡ N }
{
    [0; N]
}

// A call that is refused by nothing, with its due list.
fn serve(
    table: &mut [[u8; records::SLOT_BYTES]],
    call: Call,
    due: &[usize],
    answer: &mut Answer<'_>,
) -> Counts
    requires ready { Ready (input_in table.old call) }
    requires due_listed { due.now ≡ due_slots table.old }
    requires room { RoomIn (length table.old) (length call.batch.now) answer.old }
    ensures served { ServedWith (input_in table.old call.entry)
        (lent_in table.old call.entry.sector answer.old) (lent_in table.new (next_sector call.entry.sector) answer.new) result }
    ensures same_lists { SameLists answer.old answer.new }
{
    let tracks = due.len();
    let cells = tracks * call.batch.len();
    let mut scores: [u32; MOST_CELLS] = blank();
    let mut pairing: [u32; intake::MOST_DUE] = blank();
    let mut prices: [u32; intake::MOST_DUE] = blank();
    let mut sheet = Worksheet {
        cells: &mut scores[..cells],
        pairing: &mut pairing[..tracks],
        prices: &mut prices[..tracks],
    };
    serve_due(table, call, due, &mut sheet, answer)
}

// The public call: refused by 1 to 9, and then nothing that was lent changes; else the sector is served.
pub fn serve_sector(
    table: &mut [[u8; records::SLOT_BYTES]],
    sector: &mut u8,
    site: Site,
    batch: &[[u8; records::REPORT_BYTES]],
    fates: &mut [u8],
    slots: &mut [u16],
    shown: &mut [u8],
    discounts: &mut [u32],
    prices: &mut [u32],
) -> Result<Counts, Refusal>
    ensures { ServesSector (input table.old sector.old site batch.now)
        (lent table.old sector.old fates.old slots.old shown.old discounts.old prices.old)
        (lent table.new sector.new fates.new slots.new shown.new discounts.new prices.new) result }
{
    let call = Call {
        sector: *sector,
        site,
        batch,
    };
    let mut answer = Answer {
        fates,
        slots,
        shown,
        discounts,
        prices,
    };
    let mut due = intake::blank_due();
    let tracks = intake::take_in(table, call, &mut due)?;
    if !answer.has_room(batch.len(), table.len()) {
        return Err(Refusal::NoRoom);
    }
    let counts = serve(table, call, &due[..tracks], &mut answer);
    *sector = numbers::next_sector(call.sector);
    Ok(counts)
}
