// What becomes of one track after pairing: updated, coasted, dropped, started, aged.
#![tactic(auto)]

ghost use Rattle.std.specs.Prelude.{◌≡◌, ◌+◌, ◌*◌, ◌≤◌, ◌<◌, min, pos, nat_abs, ◌*ℤ◌};
ghost use Rattle.numbers.specs.Scales.{range_most, sectors, range_speed_most, azimuth_speed_most};
ghost use Rattle.records.specs.Fields.{held, Sound};
ghost use Rattle.settling.specs.Gains.{tenths, listed_at, gain, gain_a, gain_b};
ghost use Rattle.settling.specs.Settle.{Settleable, speed_correction, new_speed, correction};
ghost use Rattle.settling.specs.Settle.{smoothed_range, smoothed_azimuth, range_ahead, azimuth_ahead, wait_after};
ghost use Rattle.settling.specs.Settle.{updated_of, without_pair, started_of, aged_of};

use records::{Report, Track};

const TENTHS: u32 = 10;

// The gains by quality, a row each, and confidence.
const QUALITIES: usize = (records::QUALITY_MOST as usize) + 1;

const CONFIDENCES: usize = (records::CONFIDENCE_MOST as usize) + 1;

// A gain in tenths, of the prediction or of the speed.
#[derive(Clone, Copy)]
pub struct Gains {
    listed: [[u32; CONFIDENCES]; QUALITIES],
    degraded: u32,
}

pub const GAINS_A: Gains = Gains {
    listed: [
        [6, 6, 6, 6, 6, 6, 6, 10],
        [6, 6, 6, 9, 9, 9, 9, 10],
        [6, 6, 6, 10, 9, 10, 10, 10],
        [6, 6, 6, 10, 9, 10, 10, 10],
    ],
    degraded: 6,
};

pub const GAINS_B: Gains = Gains {
    listed: [
        [3, 3, 3, 3, 3, 3, 3, 10],
        [3, 3, 3, 7, 6, 7, 7, 10],
        [3, 3, 3, 9, 6, 9, 9, 10],
        [3, 3, 3, 9, 6, 9, 9, 10],
    ],
    degraded: 3,
};

impl Gains {
    // Whole for a track of one update, else by the report's azimuth-degrade, else as listed.
    #[tactic(auto, unfolding(crate::specs::Gains::gain, crate::specs::Gains::listed_at))]
    pub fn of(self, t: Track, p: Report) -> u32
        requires { Sound p }
        ensures { result ≡ gain t p self.degraded (listed_at self.listed p.quality p.confidence) }
    {
        if t.updates == records::UPDATES_AT_START {
            return TENTHS;
        }
        if p.azimuth_degrade == 1 {
            return self.degraded;
        }
        self.listed[usize::from(p.quality)][usize::from(p.confidence)]
    }
}

// a and b of a pair.
pub fn both_gains(t: Track, p: Report) -> (u32, u32)
    requires { Sound p }
    ensures as_listed { (result.0 ≡ gain_a t p) × (result.1 ≡ gain_b t p) }
    ensures gains_in_range { (result.0 ≤ tenths) × (result.1 ≤ tenths) }
{
    (GAINS_A.of(t, p), GAINS_B.of(t, p))
}

// d times a gain, and how large that gets. An azimuth's d is smaller than a range's, so one bound serves both.
fn weighted(d: i64, gain: u32) -> i64
    requires { (nat_abs d ≤ range_most) × (gain ≤ tenths) }
    ensures { (result ≡ d *ℤ pos gain) × (nat_abs result ≤ range_most * tenths) }
{
    d * i64::from(gain)
}

// What a pair takes off the speed of one coordinate: d is predicted less reported, f one more than the misses.
#[tactic(auto, unfolding(crate::specs::Settle::speed_correction))]
pub fn speed_correction(d: i64, b: u32, f: u32) -> i64
    requires { (nat_abs d ≤ range_most) × ((b ≤ tenths) × ((0 < f) × (f ≤ 256))) }
    ensures { (result ≡ speed_correction d b f) × (nat_abs result ≤ range_most * tenths) }
{
    numbers::rounded(weighted(d, b), TENTHS * f)
}

#[tactic(auto, unfolding(crate::specs::Settle::new_speed))]
fn new_speed(most: u32, speed: i64, d: i64, b: u32, f: u32) -> i64
    requires sizes_in_range { (nat_abs speed ≤ azimuth_speed_most) × (nat_abs d ≤ range_most) }
    requires gains_in_range { (b ≤ tenths) × ((0 < f) × (f ≤ 256)) }
    ensures { (result ≡ new_speed most speed d b f) × (nat_abs result ≤ most) }
{
    numbers::held_within(speed - speed_correction(d, b, f), most)
}

// How far the prediction is drawn towards the report.
#[tactic(auto, unfolding(crate::specs::Settle::correction))]
fn correction(d: i64, a: u32) -> i64
    requires { (nat_abs d ≤ range_most) × (a ≤ tenths) }
    ensures { (result ≡ correction d a) × (nat_abs result ≤ range_most * tenths) }
{
    numbers::rounded(weighted(d, a), TENTHS)
}

#[tactic(auto, unfolding(crate::specs::Settle::smoothed_range))]
fn smoothed_range(predicted: u32, d: i64, a: u32) -> u32
    requires { (nat_abs d ≤ range_most) × (a ≤ tenths) }
    ensures { result ≡ smoothed_range predicted d a }
{
    numbers::held_from_zero(i64::from(predicted) - correction(d, a), numbers::RANGE_MOST)
}

#[tactic(auto, unfolding(crate::specs::Settle::smoothed_azimuth))]
fn smoothed_azimuth(predicted: u16, d: i64, a: u32) -> u16
    requires { (nat_abs d ≤ range_most) × (a ≤ tenths) }
    ensures { result ≡ smoothed_azimuth predicted d a }
{
    numbers::azimuth_moved(predicted, -correction(d, a))
}

// A range one scan ahead.
#[tactic(auto, unfolding(crate::specs::Settle::range_ahead))]
fn range_ahead(range: u32, speed: i64) -> u32
    requires { nat_abs speed ≤ range_speed_most }
    ensures { result ≡ range_ahead range speed }
{
    numbers::held_from_zero(i64::from(range) + speed, numbers::RANGE_MOST)
}

// An azimuth one scan ahead.
#[tactic(auto, unfolding(crate::specs::Settle::azimuth_ahead))]
fn azimuth_ahead(azimuth: u16, speed: i64) -> u16
    ensures { result ≡ azimuth_ahead azimuth speed }
{
    numbers::azimuth_moved(azimuth, speed)
}

// The wait that the call for sector s stores: how many calls come between it and the one that is j ahead.
#[tactic(auto, using(numbers::proofs::SectorLaws::ahead_soonest), unfolding(crate::specs::Settle::wait_after))]
fn wait_after(s: u8, azimuth: u16) -> u8
    requires { s < sectors }
    ensures { result ≡ wait_after s azimuth }
{
    numbers::calls_ahead(s, numbers::sector_of(azimuth)) - 1
}

// A due track with its pair, served in sector s.
#[tactic(auto, unfolding(crate::specs::Settle::updated_of, crate::specs::Settle::updated_range, crate::specs::Settle::updated_azimuth, crate::specs::Settle::updated_range_speed, crate::specs::Settle::updated_azimuth_speed))]
pub fn updated(t: Track, p: Report, s: u8) -> Track
    requires settleable { Settleable t }
    requires sound { Sound p }
    requires sector_in { s < sectors }
    ensures { result ≡ updated_of t p s }
{
    let (a, b) = both_gains(t, p);
    let f = u32::from(t.misses) + 1;
    let dr = i64::from(t.range) - i64::from(p.range);
    let da = numbers::azimuth_difference(t.azimuth, p.azimuth);
    let range_speed = new_speed(numbers::RANGE_SPEED_MOST, t.range_speed, dr, b, f);
    let azimuth_speed = new_speed(numbers::AZIMUTH_SPEED_MOST, t.azimuth_speed, da, b, f);
    let azimuth = azimuth_ahead(smoothed_azimuth(t.azimuth, da, a), azimuth_speed);
    Track {
        range: range_ahead(smoothed_range(t.range, dr, a), range_speed),
        azimuth,
        range_speed,
        azimuth_speed,
        updates: t.updates.saturating_add(1),
        misses: 0,
        confidence: p.confidence,
        quality: p.quality,
        wait: wait_after(s, azimuth),
        mark: records::HELD,
    }
}

// A due track without a pair, in sector s; None: it is dropped, since one more miss exceeds its allowance.
#[tactic(auto, using(records::proofs::Checked::allowance_most), unfolding(crate::specs::Settle::without_pair, crate::specs::Settle::coasted_of))]
pub fn without_pair(t: Track, s: u8) -> Option<Track>
    requires settleable { Settleable t }
    requires sector_in { s < sectors }
    ensures { result ≡ without_pair t s }
{
    if records::allowed_misses(t.updates) <= t.misses {
        return None;
    }
    let azimuth = azimuth_ahead(t.azimuth, t.azimuth_speed);
    Some(Track {
        range: range_ahead(t.range, t.range_speed),
        azimuth,
        misses: t.misses + 1,
        wait: wait_after(s, azimuth),
        mark: records::HELD,
        ..t
    })
}

// The track that a report starts in sector s.
#[tactic(auto, unfolding(crate::specs::Settle::started_of))]
pub fn started(p: Report, s: u8) -> Track
    requires { s < sectors }
    ensures { result ≡ started_of p s }
{
    Track {
        range: p.range,
        azimuth: p.azimuth,
        range_speed: 0,
        azimuth_speed: 0,
        updates: records::UPDATES_AT_START,
        misses: 0,
        confidence: p.confidence,
        quality: p.quality,
        wait: wait_after(s, p.azimuth),
        mark: records::HELD,
    }
}

// A held track that is not due, a call later.
#[tactic(auto, unfolding(crate::specs::Settle::aged_of))]
pub fn aged(mut t: Track) -> Track
    requires { (t.mark ≡ held) × (0 < t.wait) }
    ensures { result ≡ aged_of t }
{
    t.wait -= 1;
    t
}
