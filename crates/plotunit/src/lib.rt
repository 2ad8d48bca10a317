// The C border: the four public calls. A slice is a pointer and a count. 0 means served, or accepted by the check; anything else is
// the number of the refusal or fault, and then nothing that was lent has changed.
#![tactic(auto)]

ghost use Rattle.std.specs.Prelude.{◌≡◌};
ghost use Rattle.intake.specs.Refusals.{input};
ghost use Rattle.sector.specs.Serve.{lent, count_list};
ghost use Rattle.matching.specs.Answer.{check_answer, check_number};
ghost use Rattle.plotunit.specs.Calls.{site_from, ServesForC, ScoresForC, PairsForC};

use matching::Fault;
use records::Site;
use scoresheet::Size;
use sector::Counts;

const SERVED: u8 = 0;

// The counts, in the order in which C reads them; batchrun puts them into a line.
fn write_counts(counts: &mut [u32; 7], c: Counts)
    ensures { counts.new ≡ count_list c }
{
    *counts = [
        c.paired,
        c.coasted,
        c.dropped,
        c.started,
        c.weak,
        c.full,
        c.score_sum,
    ];
}

#[unsafe(no_mangle)]
pub extern "C" fn plot_serve_sector(
    table: &mut [[u8; records::SLOT_BYTES]],
    sector: &mut u8,
    range_sigma: u8,
    azimuth_sigma: u8,
    batch: &[[u8; records::REPORT_BYTES]],
    fates: &mut [u8],
    slots: &mut [u16],
    shown: &mut [u8],
    discounts: &mut [u32],
    prices: &mut [u32],
    counts: &mut [u32; 7],
) -> u8
    ensures { ServesForC (input table.old sector.old (site_from range_sigma azimuth_sigma) batch.now)
        (lent table.old sector.old fates.old slots.old shown.old discounts.old prices.old)
        (lent table.new sector.new fates.new slots.new shown.new discounts.new prices.new)
        counts.old counts.new result }
{
    let site = Site {
        range_sigma,
        azimuth_sigma,
    };
    let answer = sector::serve_sector(
        table, sector, site, batch, fates, slots, shown, discounts, prices,
    );
    match answer {
        Err(refusal) => refusal.number(),
        Ok(served) => {
            write_counts(counts, served);
            SERVED
        }
    }
}

#[unsafe(no_mangle)]
pub extern "C" fn plot_score_sheet(
    table: &[[u8; records::SLOT_BYTES]],
    sector: u8,
    range_sigma: u8,
    azimuth_sigma: u8,
    batch: &[[u8; records::REPORT_BYTES]],
    sheet: &mut [u32],
    size: &mut [u32; 2],
) -> u8
    ensures { ScoresForC (input table.now sector (site_from range_sigma azimuth_sigma) batch.now)
        sheet.old sheet.new size.old size.new result }
{
    let site = Site {
        range_sigma,
        azimuth_sigma,
    };
    let answer = scoresheet::score_sheet(table, sector, site, batch, sheet);
    match answer {
        Err(refusal) => refusal.number(),
        Ok(Size { tracks, reports }) => {
            *size = [tracks as u32, reports as u32];
            SERVED
        }
    }
}

// A fault by its number, for C, and 0 for none.
fn told(answer: Result<(), Fault>) -> u8
    ensures { result ≡ check_number answer }
{
    match answer {
        Ok(()) => SERVED,
        Err(fault) => fault.number(),
    }
}

#[unsafe(no_mangle)]
pub extern "C" fn plot_pair_sheet(
    tracks: usize,
    reports: usize,
    sheet: &[u32],
    pairing: &mut [u32],
    prices: &mut [u32],
    discounts: &mut [u32],
) -> u8
    ensures { PairsForC tracks reports sheet.now pairing.old prices.old discounts.old
        pairing.new prices.new discounts.new result }
{
    let answer = engine::pair_sheet(tracks, reports, sheet, pairing, prices, discounts);
    told(answer)
}

#[unsafe(no_mangle)]
pub extern "C" fn plot_check_pairing(
    tracks: usize,
    reports: usize,
    sheet: &[u32],
    pairing: &[u32],
    prices: &[u32],
    discounts: &[u32],
) -> u8
    ensures { result ≡ check_answer tracks reports sheet.now pairing.now prices.now discounts.now }
{
    let answer = matching::check_pairing(tracks, reports, sheet, pairing, prices, discounts);
    told(answer)
}
