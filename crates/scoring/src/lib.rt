// A pair of a track and a report: admissible or not, and its score.
#![tactic(auto)]

ghost use Rattle.std.specs.Prelude.{◌≡◌, cond, ◌+◌, ◌-◌, ◌*◌, ◌^◌, ◌≤◌, ◌<◌, max, leb, nat_abs};
ghost use Rattle.numbers.specs.Scales.{range_most, half_turn, range_speed_most};
ghost use Rattle.scoring.specs.Zone.{range_off, azimuth_off, within_sigmas, outer_sigmas, azimuth_reach, within_reach, within_outer, zone_digit};
ghost use Rattle.scoring.specs.Position.{square, position_most, position_of};
ghost use Rattle.scoring.specs.Score.{Scorable, doppler_near, doppler_agrees, doppler_of, updates_age, age_of, confidence_trust, quality_trust, trust_of};
ghost use Rattle.scoring.specs.Score.{digits_worth, digits_end, score_of};

use records::{Report, Site, Track};

const INNER_SIGMAS: u32 = 4;

// The outer zone's sigmas: of a track with no misses, and what each miss adds.
const STEADY_SIGMAS: u32 = 8;

const MISS_SIGMAS: u32 = 4;

const INNER_DIGIT: u32 = 3;

const OUTER_DIGIT: u32 = 6;

const CROSS_REACH: u32 = 8_552_910;

const POSITION_MOST: u64 = 511;

// The position counts quarter sigmas to the nearest, so that its rule compares squares of eighths.
const EIGHTHS_SQUARED: u64 = 64;

const DOPPLER_TOLERANCE: u32 = 12;

// The age's digit, but for the misses; that of a mature track is 0.
const NEW_AGE: u32 = 4;

const GROWING_AGE: u32 = 2;

// What a digit of the score is worth: of the zone, the position (three digits), the Doppler, the age.
pub const ZONE_WORTH: u32 = 262_144;

const POSITION_WORTH: u32 = 512;

pub const DOPPLER_WORTH: u32 = 64;

const AGE_WORTH: u32 = 8;

// |dr|, predicted less reported.
#[tactic(auto, using(laws::proofs::Sizes::difference_size), unfolding(crate::specs::Zone::range_off))]
fn range_off(t: Track, p: Report) -> u64
    ensures { (result ≡ range_off t p) × (result ≤ max t.range p.range) }
{
    u64::from(t.range.abs_diff(p.range))
}

// |da|, across north or not.
#[tactic(auto, unfolding(crate::specs::Zone::azimuth_off))]
fn azimuth_off(t: Track, p: Report) -> u64
    ensures { (result ≡ azimuth_off t p) × (result ≤ half_turn) }
{
    numbers::azimuth_difference(t.azimuth, p.azimuth).unsigned_abs()
}

fn by_sigma(x: u64, sigma: u8) -> u64
    requires { x < 2 ^ 32 }
    ensures { result ≡ x * sigma }
{
    x * u64::from(sigma)
}

// Range first: it is the cheaper of the two.
#[tactic(auto, unfolding(crate::specs::Zone::within_sigmas))]
fn within_sigmas(n: u32, t: Track, p: Report, site: Site) -> bool
    ensures { result ≡ within_sigmas n t p site }
{
    range_off(t, p) <= by_sigma(u64::from(n), site.range_sigma)
        && azimuth_off(t, p) <= by_sigma(u64::from(n), site.azimuth_sigma)
}

fn outer_sigmas(t: Track) -> u32
    ensures { result ≡ outer_sigmas t }
{
    STEADY_SIGMAS + MISS_SIGMAS * u32::from(t.misses)
}

// How far across a track of one update may have gone.
#[tactic(auto, unfolding(crate::specs::Zone::azimuth_reach))]
fn azimuth_reach(range: u32) -> u64
    ensures { result ≡ azimuth_reach range }
{
    u64::from(numbers::AZIMUTH_SPEED_MOST.min(CROSS_REACH / range.max(1)))
}

#[tactic(auto, unfolding(crate::specs::Zone::within_reach))]
fn within_reach(t: Track, p: Report) -> bool
    ensures { result ≡ within_reach t p }
{
    range_off(t, p) <= u64::from(numbers::RANGE_SPEED_MOST)
        && azimuth_off(t, p) <= azimuth_reach(t.range)
}

#[tactic(auto, unfolding(crate::specs::Zone::within_outer))]
fn within_outer(t: Track, p: Report, site: Site) -> bool
    ensures { result ≡ within_outer t p site }
{
    if records::UPDATES_AT_START < t.updates {
        return within_sigmas(outer_sigmas(t), t, p, site);
    }
    within_reach(t, p)
}

// The zone's digit; None for a pair that is not admissible.
#[tactic(auto, unfolding(crate::specs::Zone::zone_digit, crate::specs::Zone::zone_of))]
fn zone(t: Track, p: Report, site: Site) -> Option<u32>
    ensures { result ≡ zone_digit t p site }
{
    if within_sigmas(INNER_SIGMAS, t, p, site) {
        return Some(INNER_DIGIT);
    }
    if within_outer(t, p, site) {
        return Some(OUTER_DIGIT);
    }
    None
}

fn square(x: u64) -> u64
    requires { x < 2 ^ 32 }
    ensures { result ≡ square x }
{
    x * x
}

// Whether a pair this far off has the position number s or a larger one.
fn reached(s: u64, sigmas: u64, off: u64) -> bool
    requires { (0 < s) × ((s ≤ position_most) × (square (2 * s - 1) * sigmas < 2 ^ 63)) }
    ensures { result ≡ leb (square (2 * s - 1) * sigmas) off }
{
    square(2 * s - 1) * sigmas <= off
}

// A branch here would be guessed wrong half the time.
fn raised(low: u64, width: u64, up: bool) -> u64
    requires { low + width < 2 ^ 32 }
    ensures { result ≡ cond up (low + width) low }
{
    low + width * u64::from(up)
}

// Halves the interval of `width` numbers from `low` on until one is left. The width depends on no test, so that the compiler
// can write out the nine rounds; it counts no index. The sides of 01's rule, but for (2s-1)^2, are computed once.
pub fn position_number(dr: u64, da: u64, range_sigma: u8, azimuth_sigma: u8) -> u32
    requires { (dr ≤ range_most) × (da ≤ half_turn) }
    ensures { result ≡ position_of dr da range_sigma azimuth_sigma }
{
    let sigmas = square(by_sigma(u64::from(range_sigma), azimuth_sigma));
    let off = EIGHTHS_SQUARED
        * (square(by_sigma(dr, azimuth_sigma)) + square(by_sigma(da, range_sigma)));
    let mut low: u64 = 0;
    let mut width: u64 = POSITION_MOST + 1;
    while 1 < width {
        width = width / 2;
        let up = reached(low + width, sigmas, off);
        low = raised(low, width, up);
    }
    low as u32
}

// Whether the Doppler that the track's range speed leads to on this circle is the one that was reported.
#[tactic(auto, unfolding(crate::specs::Score::doppler_near))]
fn doppler_near(circle: u8, t: Track, doppler: u8) -> bool
    requires { (nat_abs t.range_speed ≤ range_speed_most) × (doppler < circle) }
    ensures { result ≡ doppler_near circle t doppler }
{
    let around = u32::from(circle);
    let expected = numbers::remainder(t.range_speed, around);
    numbers::circular_distance(around, expected, u32::from(doppler)) <= DOPPLER_TOLERANCE
}

#[tactic(auto, unfolding(crate::specs::Score::doppler_agrees))]
fn doppler_agrees(t: Track, p: Report) -> bool
    requires { Scorable t p }
    ensures { result ≡ doppler_agrees t p }
{
    !records::is_weak(p)
        && doppler_near(records::HIGH_CIRCLE, t, p.high)
        && doppler_near(records::LOW_CIRCLE, t, p.low)
}

// The Doppler's digit.
#[tactic(auto, unfolding(crate::specs::Score::doppler_of))]
fn doppler(t: Track, p: Report) -> u32
    requires { Scorable t p }
    ensures { result ≡ doppler_of t p }
{
    u32::from(!doppler_agrees(t, p))
}

#[tactic(auto, unfolding(crate::specs::Score::updates_age))]
fn updates_age(updates: u8) -> u32
    ensures { result ≡ updates_age updates }
{
    if updates < records::GROWING_FROM {
        return NEW_AGE;
    }
    if updates < records::MATURE_FROM {
        return GROWING_AGE;
    }
    0
}

#[tactic(auto, using(crate::proofs::ScoreLaws::updates_age_most), unfolding(crate::specs::Score::age_of))]
fn age(t: Track) -> u32
    ensures { result ≡ age_of t }
{
    updates_age(t.updates) + u32::from(t.misses != 0)
}

// Two where the report's confidence is low, one more where the track's is: of confidence and quality 01 has a rule each.
#[tactic(auto, unfolding(crate::specs::Score::confidence_trust, records::specs::Fields::sure_confidence, records::specs::Fields::sure_quality))]
fn confidence_trust(t: Track, p: Report) -> u32
    ensures { result ≡ confidence_trust t p }
{
    2 * u32::from(p.confidence < records::SURE_CONFIDENCE_FROM)
        + u32::from(t.confidence < records::SURE_CONFIDENCE_FROM)
}

#[tactic(auto, unfolding(crate::specs::Score::quality_trust, records::specs::Fields::sure_confidence, records::specs::Fields::sure_quality))]
fn quality_trust(t: Track, p: Report) -> u32
    ensures { result ≡ quality_trust t p }
{
    u32::from(p.quality < records::SURE_QUALITY_FROM)
        + u32::from(t.quality < records::SURE_QUALITY_FROM)
}

#[tactic(auto, using(crate::proofs::ScoreLaws::confidence_most_lem, crate::proofs::ScoreLaws::quality_most_lem), unfolding(crate::specs::Score::trust_of))]
fn trust(t: Track, p: Report) -> u32
    ensures { result ≡ trust_of t p }
{
    confidence_trust(t, p) + quality_trust(t, p)
}

fn worth(zone: u32, position: u32, doppler: u32, age: u32, trust: u32) -> u32
    requires { digits_worth zone position doppler age trust < digits_end }
    ensures { result ≡ digits_worth zone position doppler age trust }
{
    zone * ZONE_WORTH
        + position * POSITION_WORTH
        + doppler * DOPPLER_WORTH
        + age * AGE_WORTH
        + trust
}

// None: not admissible. The position number, which costs most, is computed for admissible pairs only.
#[tactic(auto, using(crate::proofs::ScoreLaws::worth_below), unfolding(crate::specs::Score::score_of, crate::specs::Zone::zone_digit, crate::specs::Score::worth_of, crate::specs::Score::pair_position))]
pub fn score(t: Track, p: Report, site: Site) -> Option<u32>
    requires { Scorable t p }
    ensures { result ≡ score_of t p site }
{
    let zone = zone(t, p, site)?;
    let position = position_number(
        range_off(t, p),
        azimuth_off(t, p),
        site.range_sigma,
        site.azimuth_sigma,
    );
    Some(worth(zone, position, doppler(t, p), age(t), trust(t, p)))
}
