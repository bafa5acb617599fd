//! A stage that XORs bytes with a bit sequence, so that long runs of equal bits are broken up.

ghost use Rattle.std.specs.Prelude.{◌≡◌, ◌≤◌, length, take, Some};
ghost use Rattle.stage.specs.Agreement.{Regains};
ghost use Rattle.codings.specs.Scramblers.{scrambling, scrambled, short_length, four_on, SequenceLaw, ScrambleExample};
ghost use Rattle.codings.specs.ScrambleLaws.{scrambling_sound};

use stage::PlainStage;

/// The longest list that the stage takes.
const LONGEST: usize = 255;

/// The seven bits before the sequence's start.
const SEVEN_ONES: u8 = 0x7f;

/// The lower four bits of a byte.
const LOWER_FOUR: u8 = 0x0f;

/// A plain stage that takes 0 to 255 bytes and XORs them with the scrambling sequence from its
/// start on, the highest bit of each byte first.
///
/// A longer list is illegal, and as a received list refused at place 0; no other is refused.
#[derive(Clone, Copy)]
pub struct Scramble;

/// The sequence's latest eight bits, four bits on: each new bit is the XOR of those 7 and 4 earlier.
fn four_more(window: u8) -> u8
    ensures { result ≡ four_on window }
{
    (window << 4) | (((window >> 3) ^ window) & LOWER_FOUR)
}

/// The sequence's next byte, from the eight bits before it.
fn next_byte(window: u8) -> u8
    ensures { result ≡ four_on (four_on window) }
{
    four_more(four_more(window))
}

/// The same length, if it is legal.
fn same_length(length: usize) -> Option<usize>
    ensures { result ≡ short_length length }
{
    (length <= LONGEST).then_some(length)
}

/// Writes the bytes of `list`, XORed with the sequence, over `mixed`.
fn mix(list: &[u8], mixed: &mut [u8])
    requires { length mixed.old ≡ length list.now }
    ensures { mixed.new ≡ scrambled 0 list.now }
{
    let mut window = SEVEN_ONES;
    for (i, byte) in list.iter().enumerate() {
        window = next_byte(window);
        mixed[i] = *byte ^ window;
    }
}

/// XORs the bytes of `list` with the sequence.
fn mix_over(list: &mut [u8])
    ensures { list.new ≡ scrambled 0 list.old }
{
    let mut window = SEVEN_ONES;
    for byte in list.iter_mut() {
        window = next_byte(window);
        *byte ^= window;
    }
}

impl PlainStage for Scramble {
    ghost meaning = { λ _. scrambling 0 };

    fn number(&self) -> u8 {
        2
    }

    fn takes(&self) -> u8 {
        255
    }

    fn puts(&self) -> u8 {
        255
    }

    fn coded_length(&self, length: usize) -> Option<usize> {
        same_length(length)
    }

    fn message_length(&self, length: usize) -> Option<usize> {
        same_length(length)
    }

    fn write_coding(&self, list: &[u8], coded: &mut [u8]) {
        mix(list, coded)
    }

    fn regain(&self, received: &[u8], list: &mut [u8]) -> Option<usize> {
        mix(received, list);
        None
    }

    fn code_front(&self, n: usize, reach: usize, work: &mut [u8], res: &mut [u8])
        requires long { (scrambling 0).coded_length n ≡ Some reach }
        requires aside { n ≤ length work.old }
        requires front { n ≤ length res.old }
        requires room { reach ≤ length res.old }
        ensures coded { take reach res.new ≡ (scrambling 0).coding (take n res.old) }
        ensures work { work.new ≡ work.old }
    {
        mix_over(&mut res[0..reach]);
    }

    fn regain_front(&self, n: usize, reach: usize, work: &mut [u8], res: &mut [u8]) -> Option<usize>
        requires long { (scrambling 0).message_length n ≡ Some reach }
        requires aside { n ≤ length work.old }
        requires front { n ≤ length res.old }
        requires room { reach ≤ length res.old }
        ensures regained { Regains (scrambling 0) (take n res.old) result (take reach res.new) }
        ensures work { work.new ≡ work.old }
    {
        mix_over(&mut res[0..n]);
        None
    }

    ghost sound = { λ _. scrambling_sound 0 };
}

/// The scrambling sequence keeps its recurrence: seven ones, and then each bit is the XOR of those
/// 7 and 4 earlier. The function does nothing: its contract is the law.
pub fn sequence_law()
    ensures { SequenceLaw }
{}

/// Two bytes 00 are scrambled to 0E F2. The function does nothing: its contract is the fact.
pub fn scramble_example()
    ensures { ScrambleExample }
{}
