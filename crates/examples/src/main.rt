// Document 01's examples, run: a line each, in 01's order, and then its gains. Their numbers are held to the file stdout, which was
// written from 01. The starred ones are proved of the definitions besides (specs/Starred.antt).
#![tactic(auto)]

ghost use Rattle.std.specs.Prelude.{◌≤◌, ◌<◌};
ghost use Rattle.numbers.specs.Scales.{range_most, half_turn, sectors, range_speed_most};
ghost use Rattle.records.specs.Fields.{confidence_most, quality_most, high_circle, low_circle, Sound};
ghost use Rattle.settling.specs.Settle.{Settleable};

use matching::Fault;
use records::{Report, Site, Track};
use settling::Gains;
use std::io;

const SIGMA: u8 = 16;

const UPDATES: u8 = 8;

fn number_line(rt: &HostRuntime, name: &str, value: i64) -> io::Result<()> {
    println!(rt; "{name}{value}")
}

fn azimuths(rt: &HostRuntime) -> io::Result<()> {
    number_line(rt, "0 - 65535 = ", numbers::azimuth_difference(0, 65_535))?;
    number_line(rt, "32768 - 0 = ", numbers::azimuth_difference(32_768, 0))?;
    number_line(rt, "32767 - 0 = ", numbers::azimuth_difference(32_767, 0))
}

fn position_line(rt: &HostRuntime, dr: u64, da: u64) -> io::Result<()>
    requires { (dr ≤ range_most) × (da ≤ half_turn) }
{
    let number = scoring::position_number(dr, da, SIGMA, SIGMA);
    println!(rt; "S ({dr},{da}) = {number}")
}

fn positions(rt: &HostRuntime) -> io::Result<()> {
    position_line(rt, 0, 0)?;
    position_line(rt, 1, 0)?;
    position_line(rt, 2, 0)?;
    position_line(rt, 48, 64)?;
    position_line(rt, 2_041, 0)?;
    position_line(rt, 2_042, 0)?;
    position_line(rt, 2_046, 0)
}

// A track of the best confidence and quality without misses. Reports lie at range 0 and azimuth 0: it is dr and da off them.
fn track(dr: u32, da: u16, speed: u32, updates: u8) -> Track
    requires { (dr ≤ range_most) × (speed ≤ range_speed_most) }
    ensures { Settleable result }
{
    Track {
        range: dr,
        azimuth: da,
        range_speed: i64::from(speed),
        azimuth_speed: 0,
        updates,
        misses: 0,
        confidence: records::CONFIDENCE_MOST,
        quality: records::QUALITY_MOST,
        wait: 0,
        mark: records::HELD,
    }
}

fn report(confidence: u8, quality: u8, azimuth_degrade: u8, high: u8, low: u8) -> Report
    requires fields_in_range { (confidence ≤ confidence_most) × ((quality ≤ quality_most) × (azimuth_degrade ≤ 1)) }
    requires doppler_in_range { (high < high_circle) × (low < low_circle) }
    ensures { Sound result }
{
    Report {
        range: 0,
        azimuth: 0,
        confidence,
        quality,
        azimuth_degrade,
        high,
        low,
    }
}

// The score of a pair: 8 updates, no misses, trust 0. It is 0 for a pair that is not admissible.
fn score(dr: u32, da: u16, speed: u32, high: u8, low: u8) -> u32
    requires off_in_range { (dr ≤ range_most) × (speed ≤ range_speed_most) }
    requires doppler_in_range { (high < high_circle) × (low < low_circle) }
{
    let p = report(
        records::CONFIDENCE_MOST,
        records::QUALITY_MOST,
        0,
        high,
        low,
    );
    let site = Site {
        range_sigma: SIGMA,
        azimuth_sigma: SIGMA,
    };
    scoring::score(track(dr, da, speed, UPDATES), p, site).unwrap_or(0)
}

// The zone's digit: inner 3, outer 6, and 0 for a pair that is not admissible.
fn zone_line(rt: &HostRuntime, dr: u32) -> io::Result<()>
    requires { dr ≤ range_most }
{
    let zone = score(dr, 0, 0, 0, 0) / scoring::ZONE_WORTH;
    println!(rt; "zone of ({dr},0) = {zone}")
}

fn zones(rt: &HostRuntime) -> io::Result<()> {
    zone_line(rt, 64)?;
    zone_line(rt, 65)?;
    zone_line(rt, 128)?;
    zone_line(rt, 129)?;
    let score = score(48, 64, 0, 0, 0);
    println!(rt; "score of (48,64) = {score}")
}

// What range speed -300 expects.
fn expected_line(rt: &HostRuntime, name: &str, circle: u8) -> io::Result<()>
    requires { 0 < circle }
{
    let expected = numbers::remainder(-300, u32::from(circle));
    println!(rt; "speed -300, {name} = {expected}")
}

// The Doppler's digit: agree 0, else 1.
fn doppler_line(rt: &HostRuntime, high: u8) -> io::Result<()>
    requires { high < high_circle }
{
    let digit = score(0, 0, 5, high, 5) / scoring::DOPPLER_WORTH % 8;
    println!(rt; "speed 5, low 5, high {high}: Doppler = {digit}")
}

fn dopplers(rt: &HostRuntime) -> io::Result<()> {
    expected_line(rt, "high", records::HIGH_CIRCLE)?;
    expected_line(rt, "low", records::LOW_CIRCLE)?;
    doppler_line(rt, 173)?;
    doppler_line(rt, 172)
}

fn corrections(rt: &HostRuntime) -> io::Result<()> {
    number_line(rt, "b 3, D 5, f 1 = ", settling::speed_correction(5, 3, 1))?;
    number_line(
        rt,
        "b 3, D -5, f 1 = ",
        settling::speed_correction(-5, 3, 1),
    )
}

// The check's number, as 01 prints it: 0 where it finds no fault.
fn fault_number(answer: Result<(), Fault>) -> u8 {
    match answer {
        Ok(()) => 0,
        Err(fault) => fault.number(),
    }
}

// The check passes, and its number is 0, which asks that the total is all prices less all discounts.
fn pairings(rt: &HostRuntime) -> io::Result<()> {
    let sheet = [10, 20, 12, matching::NONE];
    let crossed = [1, 0];
    let prices = [20, 22];
    let discounts = [10, 0];
    let check = fault_number(matching::check_pairing(2, 2, &sheet, &crossed, &prices, &discounts));
    println!(rt; "scores 10 20, 12 none; total 32; prices 20 22; discounts 10 0: check = {check}")?;
    let mut left_out = [0];
    let mut prices = [0];
    let _ = engine::pair_sheet(1, 0, &[], &mut left_out, &mut prices, &mut []);
    let price = prices[0];
    println!(rt; "one track, no report: price = {price}")?;
    let check = fault_number(matching::check_pairing(1, 0, &[], &left_out, &prices, &[]));
    println!(rt; "one track, no report: check = {check}")
}

// j of a track that is served in sector 0.
fn wait_line(rt: &HostRuntime, predicted: u8) -> io::Result<()>
    requires { predicted < sectors }
{
    let ahead = numbers::calls_ahead(0, predicted);
    println!(rt; "sector 0 to {predicted}: j = {ahead}")
}

fn waits(rt: &HostRuntime) -> io::Result<()> {
    wait_line(rt, 15)?;
    wait_line(rt, 16)?;
    wait_line(rt, 31)?;
    wait_line(rt, 0)
}

fn gain(listed: Gains, updates: u8, confidence: u8, quality: u8, azimuth_degrade: u8) -> u32
    requires { (confidence ≤ confidence_most) × ((quality ≤ quality_most) × (azimuth_degrade ≤ 1)) }
{
    let t = track(0, 0, 0, updates);
    let p = report(confidence, quality, azimuth_degrade, 0, 0);
    listed.of(t, p)
}

// A quality's gains, confidence by confidence.
fn gain_row(rt: &HostRuntime, name: &str, listed: Gains, quality: u8) -> io::Result<()>
    requires { quality ≤ quality_most }
{
    print!(rt; "{name}, quality {quality} =")?;
    for confidence in 0..=records::CONFIDENCE_MOST {
        let tenths = gain(listed, UPDATES, confidence, quality, 0);
        print!(rt; " {tenths}")?;
    }
    println!(rt)
}

fn gain_rows(rt: &HostRuntime, name: &str, listed: Gains) -> io::Result<()> {
    for quality in 0..=records::QUALITY_MOST {
        gain_row(rt, name, listed, quality)?;
    }
    Ok(())
}

fn degraded_line(rt: &HostRuntime, name: &str, listed: Gains) -> io::Result<()> {
    let tenths = gain(
        listed,
        UPDATES,
        records::CONFIDENCE_MOST,
        records::QUALITY_MOST,
        1,
    );
    println!(rt; "{name}, azimuth-degrade 1 = {tenths}")
}

fn young_line(rt: &HostRuntime, name: &str, listed: Gains) -> io::Result<()> {
    let tenths = gain(listed, 1, 0, 0, 1);
    println!(rt; "{name}, updates 1 = {tenths}")
}

fn gains(rt: &HostRuntime) -> io::Result<()> {
    gain_rows(rt, "a", settling::GAINS_A)?;
    gain_rows(rt, "b", settling::GAINS_B)?;
    degraded_line(rt, "a", settling::GAINS_A)?;
    degraded_line(rt, "b", settling::GAINS_B)?;
    young_line(rt, "a", settling::GAINS_A)?;
    young_line(rt, "b", settling::GAINS_B)
}

fn main(rt: HostRuntime) -> io::Result<()> {
    azimuths(&rt)?;
    positions(&rt)?;
    zones(&rt)?;
    dopplers(&rt)?;
    corrections(&rt)?;
    pairings(&rt)?;
    waits(&rt)?;
    gains(&rt)
}
