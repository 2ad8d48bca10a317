// The glider over the ridge: two due tracks, two returns. What the old filter, nearest report first in table order, makes of them,
// and what the pairing call and the sector call make of them.
#![tactic(auto)]

ghost use Rattle.std.specs.Prelude.{◌≡◌, true, ◌≤◌, ◌<◌, length, set};
ghost use Rattle.records.specs.Bytes.{bytes_of, report_bytes_of};
ghost use Rattle.numbers.specs.Scales.{range_speed_most, azimuth_speed_most};
ghost use Rattle.glider.specs.Nearest.{score_in, nearer_of, nearest_of, nearest_first, Filterable};
ghost use Rattle.glider.specs.Scene.{track_at, return_at, table, batch, site, cells, lost, kept, both_shown};
ghost use Rattle.matching.specs.Pairing.{most_reports};

use matching::NONE;
use records::{Report, Site, Track};
use std::io;

const TRACKS: usize = 2;

const REPORTS: usize = 2;

const CELLS: usize = TRACKS * REPORTS;

const SIGMA: u8 = 16;

const SECTOR: u8 = 3;

const CONFIDENCE: u8 = 5;

// What the returns of the scene are called, in their order.
const RETURNS: [&str; REPORTS] = ["the ridge's return", "the glider's return"];

// ---- the old filter; its answers are the pairing's numbers, as in specs/Nearest

fn score_in(row: &[u32], report: u32) -> u32
    ensures { result ≡ score_in row.now report }
{
    row.get(report as usize).copied().unwrap_or(NONE)
}

// Report j in the place of the nearest so far, if it is free and its score is lower.
fn nearer(row: &[u32], taken: &[bool], j: usize, nearest: u32) -> u32
    requires { (j < length row.now) × ((length row.now ≤ most_reports) × (length taken.now ≡ length row.now)) }
    ensures { result ≡ nearer_of row.now taken.now j nearest }
{
    if taken[j] || score_in(row, nearest) <= row[j] {
        return nearest;
    }
    j as u32
}

// The admissible report of the lowest score that is still free.
fn nearest_free(row: &[u32], taken: &[bool]) -> u32
    requires { (length row.now ≤ most_reports) × (length taken.now ≡ length row.now) }
    ensures { result ≡ nearest_of row.now taken.now }
{
    let mut nearest = NONE;
    for j in 0..row.len() {
        nearest = nearer(row, taken, j, nearest);
    }
    nearest
}

fn take_report(taken: &mut [bool], report: u32)
    ensures { taken.new ≡ set taken.old report true }
{
    // By index: of what is written through get_mut a proof knows no element.
    let j = report as usize;
    if j < taken.len() {
        taken[j] = true;
    }
}

// Nearest report first, track by track in table order.
fn nearest_first(sheet: &[u32], reports: usize, taken: &mut [bool], pairing: &mut [u32])
    requires { Filterable reports sheet.now taken.old (length pairing.old) }
    ensures { pairing.new ≡ nearest_first (length pairing.old) reports sheet.now taken.old }
{
    for (track, report) in pairing.iter_mut().enumerate() {
        let from = track * reports;
        *report = nearest_free(&sheet[from..from + reports], taken);
        take_report(taken, *report);
    }
}

// ---- the scene

fn track(
    range: u32,
    azimuth: u16,
    range_speed: u32,
    azimuth_speed: u32,
    updates: u8,
    quality: u8,
) -> [u8; records::SLOT_BYTES]
    requires { (range_speed ≤ range_speed_most) × (azimuth_speed ≤ azimuth_speed_most) }
    ensures { result ≡ bytes_of (track_at range azimuth range_speed azimuth_speed updates quality) }
{
    records::pack(Track {
        range,
        azimuth,
        range_speed: i64::from(range_speed),
        azimuth_speed: i64::from(azimuth_speed),
        updates,
        misses: 0,
        confidence: CONFIDENCE,
        quality,
        wait: 0,
        mark: records::HELD,
    })
}

fn report(range: u32, azimuth: u16, quality: u8, doppler: u8) -> [u8; records::REPORT_BYTES]
    ensures { result ≡ report_bytes_of (return_at range azimuth quality doppler) }
{
    records::pack_report(Report {
        range,
        azimuth,
        confidence: CONFIDENCE,
        quality,
        azimuth_degrade: 0,
        high: doppler,
        low: doppler,
    })
}

fn sigmas() -> Site
    ensures { result ≡ site }
{
    Site {
        range_sigma: SIGMA,
        azimuth_sigma: SIGMA,
    }
}

// The ridge's track, then the glider's.
fn tracks() -> [[u8; records::SLOT_BYTES]; TRACKS]
    ensures { result ≡ table }
{
    let ridge = track(8_192, 7_144, 0, 0, 9, 0);
    let glider = track(8_220, 7_200, 8, 110, 5, 3);
    [ridge, glider]
}

// The ridge's return, off its track, and the glider's, where its track says and nearer to the ridge's.
fn returns() -> [[u8; records::REPORT_BYTES]; REPORTS]
    ensures { result ≡ batch }
{
    let ridge = report(8_188, 7_044, 0, 0);
    let glider = report(8_216, 7_204, 3, 8);
    [ridge, glider]
}

fn sheet() -> [u32; CELLS]
    ensures { result ≡ cells }
{
    let table = tracks();
    let batch = returns();
    let mut sheet = [0u32; CELLS];
    let _ = scoresheet::score_sheet(&table, SECTOR, sigmas(), &batch, &mut sheet);
    sheet
}

// ---- the story

fn old_filter() -> [u32; TRACKS]
    ensures { result ≡ lost }
{
    let sheet = sheet();
    let mut taken = [false; REPORTS];
    let mut pairing = [NONE; TRACKS];
    nearest_first(&sheet, REPORTS, &mut taken, &mut pairing);
    pairing
}

fn ours() -> [u32; TRACKS]
    ensures { result ≡ kept }
{
    let sheet = sheet();
    let mut pairing = [NONE; TRACKS];
    let mut prices = [0u32; TRACKS];
    let mut discounts = [0u32; REPORTS];
    let _ = engine::pair_sheet(
        TRACKS,
        REPORTS,
        &sheet,
        &mut pairing,
        &mut prices,
        &mut discounts,
    );
    pairing
}

// The marks of the returns that the sector call shows.
fn marks() -> [u8; REPORTS]
    ensures { result ≡ both_shown }
{
    let mut table = tracks();
    let batch = returns();
    let mut sector = SECTOR;
    let mut fates = [0u8; REPORTS];
    let mut slots = [0u16; REPORTS];
    let mut shown = [0u8; REPORTS];
    let mut discounts = [0u32; REPORTS];
    let mut prices = [0u32; TRACKS];
    let _ = sector::serve_sector(
        &mut table,
        &mut sector,
        sigmas(),
        &batch,
        &mut fates,
        &mut slots,
        &mut shown,
        &mut discounts,
        &mut prices,
    );
    shown
}

fn name_of(report: u32) -> &'static str {
    RETURNS.get(report as usize).copied().unwrap_or("nothing")
}

fn tell(rt: &HostRuntime, who: &str, pairing: [u32; TRACKS]) -> io::Result<()> {
    let ridge = name_of(pairing[0]);
    let glider = name_of(pairing[1]);
    println!(rt; "{who}: the ridge's track takes {ridge}, the glider's track takes {glider}")
}

fn main(rt: HostRuntime) -> io::Result<()> {
    tell(&rt, "old filter", old_filter())?;
    tell(&rt, "ours", ours())?;
    let mark = marks()[1];
    let shown = if mark == 0 { "not shown" } else { "shown" };
    println!(rt; "the glider is {shown}")
}
