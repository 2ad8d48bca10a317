// The lines of text that a program prints, put one behind the other into one buffer.
#![tactic(auto)]

ghost use Rattle.std.specs.Prelude.{◌≡◌, ◌+◌, ◌*◌, ◌≤◌, length};
ghost use Rattle.lines.specs.Text.{most_digits, most_number, numeral, separator_of, line_of, Put, Puts, so_far};

// The digits that io spells a number into.
const SPELL_ROOM: usize = 20;

// The most digits of a u32, and the most bytes of a number in a line: its digits and what stands behind them.
const MOST_DIGITS: usize = 10;

pub const MOST_NUMBER: usize = MOST_DIGITS + 1;

// Puts text at a place; the answer is the place behind it.
pub fn put_text(out: &mut [u8], place: usize, text: &[u8]) -> usize
    requires { place + length text.now ≤ length out.old }
    ensures { Put out.old place text.now out.new result }
{
    let behind = place + text.len();
    out[place..behind].copy_from_slice(text);
    behind
}

fn put_number(out: &mut [u8], place: usize, n: u32) -> usize
    requires { place + most_digits ≤ length out.old }
    ensures { Put out.old place (numeral n) out.new result }
{
    let mut digits = [0u8; SPELL_ROOM];
    let k = io::decimal(u64::from(n), &mut digits);
    put_text(out, place, &digits[..k])
}

// What stands behind a number that so many others follow.
#[tactic(auto, unfolding(crate::specs::Text::separator_of))]
fn separator(left: usize) -> u8
    ensures { result ≡ separator_of left }
{
    if left == 0 { b'\n' } else { b' ' }
}

// Puts a line of numbers.
pub fn put_line(out: &mut [u8], place: usize, numbers: &[u32]) -> usize
    requires { place + length numbers.now * most_number ≤ length out.old }
    ensures put { Put out.old place (line_of numbers.now) out.new result }
    ensures in_room { result ≤ place + length numbers.now * most_number }
{
    let mut at = place;
    for (i, n) in numbers.iter().enumerate() {
        at = put_number(out, at, *n);
        out[at] = separator(numbers.len() - (i + 1));
        at += 1;
    }
    at
}

// Text that gathers in a buffer of a fixed size: the first `filled` of its bytes are the text so far.
#[derive(Drop)]
pub struct Text<const N: usize> {
    pub bytes: [u8; N],
    pub filled: usize,
}

impl<const N: usize> Text<N> {
    pub fn new() -> Self
        ensures sized { length result.bytes ≡ N }
        ensures empty { result.filled ≡ 0 }
    {
        Text {
            bytes: [0; N],
            filled: 0,
        }
    }

    // Puts a text behind what has gathered.
    pub fn put(&mut self, text: &[u8])
        requires { self.old.filled + length text.now ≤ length self.old.bytes }
        ensures { Puts self.old text.now self.new }
    {
        let behind = put_text(&mut self.bytes, self.filled, text);
        self.filled = behind;
    }

    // Puts a line of numbers behind it.
    pub fn put_line(&mut self, numbers: &[u32])
        requires { self.old.filled + length numbers.now * most_number ≤ length self.old.bytes }
        ensures put { Puts self.old (line_of numbers.now) self.new }
        ensures in_room { self.new.filled ≤ self.old.filled + length numbers.now * most_number }
    {
        self.filled = put_line(&mut self.bytes, self.filled, numbers);
    }

    // The text so far.
    pub fn so_far(&self) -> &[u8]
        requires { self.now.filled ≤ length self.now.bytes }
        ensures { result.now ≡ so_far self.now }
    {
        let room = &self.bytes[..];
        &room[..self.filled]
    }
}
