// Ranges, azimuths that go round, sectors, and whole numbers with a sign.
#![tactic(auto)]

ghost use Rattle.std.specs.Prelude.{◌≡◌, ◌+◌, ◌*◌, ◌/◌, ◌^◌, ◌<◌, ◌≤◌, unsigned_abs};
ghost use Rattle.numbers.specs.Scales.{turn, half_turn, sectors};
ghost use Rattle.numbers.specs.Whole.{rounded, held_within, held_from_zero, remainder, circular_distance};
ghost use Rattle.numbers.specs.Azimuth.{signed16, azimuth_difference, azimuth_moved};
ghost use Rattle.numbers.specs.Sectors.{sector_of, next_sector, calls_ahead};

pub const RANGE_MOST: u32 = 66_560;

pub const RANGE_SPEED_MOST: u32 = 820;

pub const AZIMUTH_SPEED_MOST: u32 = 8_192;

pub const SECTORS: u8 = 32;

const TURN: u32 = 65_536;

const SECTOR_WIDTH: u16 = 2_048;

const SOONEST: u8 = 16;

// n / d to the nearest, halves up.
fn nearest(n: u64, d: u64) -> u64
    requires { (n < 2 ^ 62) × ((0 < d) × (d < 2 ^ 32)) }
    ensures { (result ≡ (2 * n + d) / (2 * d)) × (result ≤ n) }
{
    (2 * n + d) / (2 * d)
}

// z / d to the nearest, halves away from zero.
pub fn rounded(z: i64, d: u32) -> i64
    requires { (unsigned_abs z < 2 ^ 62) × (0 < d) }
    ensures { (result ≡ rounded z d) × (unsigned_abs result ≤ unsigned_abs z) }
{
    let size = nearest(z.unsigned_abs(), u64::from(d)) as i64;
    if z < 0 { -size } else { size }
}

// z held to -most..most.
pub fn held_within(z: i64, most: u32) -> i64
    ensures { (result ≡ held_within most z) × (unsigned_abs result ≤ most) }
{
    let most = i64::from(most);
    z.clamp(-most, most)
}

// z held to 0..most.
pub fn held_from_zero(z: i64, most: u32) -> u32
    ensures { (result ≡ held_from_zero most z) × (result ≤ most) }
{
    z.clamp(0, i64::from(most)) as u32
}

// The remainder that is not negative, for a closing speed too.
pub fn remainder(z: i64, m: u32) -> u32
    requires { 0 < m }
    ensures { (result ≡ remainder z m) × (result < m) }
{
    z.rem_euclid(i64::from(m)) as u32
}

// How far x and y are apart, the short way round a circle of n.
pub fn circular_distance(n: u32, x: u32, y: u32) -> u32
    requires { (x < n) × (y < n) }
    ensures { result ≡ circular_distance n x y }
{
    let direct = x.abs_diff(y);
    direct.min(n - direct)
}

// Sixteen bits as a number with a sign.
pub fn from_bits(n: u16) -> i64
    ensures { (result ≡ signed16 n) × (unsigned_abs result ≤ half_turn) }
{
    i64::from(n.cast_signed())
}

// The sixteen bits that z goes round to.
pub fn to_bits(z: i64) -> u16
    ensures { result ≡ remainder z turn }
{
    remainder(z, TURN) as u16
}

// a - b across north or not: the wrapped difference, read with its sign.
pub fn azimuth_difference(a: u16, b: u16) -> i64
    ensures { (result ≡ azimuth_difference a b) × (unsigned_abs result ≤ half_turn) }
{
    from_bits(a.wrapping_sub(b))
}

// Azimuth a moved by z units, round north where it comes to that.
pub fn azimuth_moved(a: u16, z: i64) -> u16
    ensures { result ≡ azimuth_moved a z }
{
    a.wrapping_add(to_bits(z))
}

pub fn sector_of(azimuth: u16) -> u8
    ensures { (result ≡ sector_of azimuth) × (result < sectors) }
{
    (azimuth / SECTOR_WIDTH) as u8
}

// A sector is the byte that C lends: a type of 32 numbers would ask more of a caller than the clause does.
pub fn next_sector(s: u8) -> u8
    requires { s < sectors }
    ensures { (result ≡ next_sector s) × (result < sectors) }
{
    (s + 1) % SECTORS
}

// How many calls after the one that serves sector s a track predicted in sector p is due.
pub fn calls_ahead(s: u8, p: u8) -> u8
    requires { (s < sectors) × (p < sectors) }
    ensures { result ≡ calls_ahead s p }
{
    SOONEST + (p + SECTORS + SOONEST - s) % SECTORS
}
