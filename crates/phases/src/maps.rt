//! The stage that maps bits to phase increments.

ghost use Rattle.std.specs.Prelude.{◌≡◌, ◌*◌, ◌^◌, ◌<◌, ◌≤◌, true, length, take, Some, None, slice_index};
ghost use Rattle.std.specs.Result.{result_map_both};
ghost use Rattle.stage.specs.Model.{plain, legal};
ghost use Rattle.stage.specs.Plain.{within};
ghost use Rattle.phases.specs.Maps.{is_width, made_map, phase_table, number_table, GrayMaps, written, mapping, Written};
ghost use Rattle.phases.specs.MapLaws.{mapping_sound};

use stage::{PlainStage, Refusal};

/// The number under which the stage's faults are known.
const NUMBER: u8 = 9;

/// The highest increment.
const HIGHEST: u8 = 7;

/// The most bits that an increment carries.
const WIDEST: usize = 3;

/// The longest list of bits.
const LONGEST: usize = 9_072;

// Tables both ways, and no map: they are constants, and an increment is found by its place.
/// The increment for each number that one bit writes.
const TWO_PHASES: [u8; 2] = [0, 4];

/// The increment for each number that two bits write.
const FOUR_PHASES: [u8; 4] = [0, 2, 6, 4];

/// The increment for each number that three bits write.
const EIGHT_PHASES: [u8; 8] = [0, 1, 3, 2, 7, 6, 4, 5];

/// The number for each increment that one bit is mapped to, 0 where it is not in use.
const TWO_NUMBERS: [u8; 8] = [0, 0, 0, 0, 1, 0, 0, 0];

/// The number for each increment that two bits are mapped to, 0 where it is not in use.
const FOUR_NUMBERS: [u8; 8] = [0, 0, 1, 0, 3, 0, 2, 0];

/// The number for each increment; with three bits all are in use.
const EIGHT_NUMBERS: [u8; 8] = [0, 1, 3, 2, 6, 7, 5, 4];

/// A plain stage that maps each 1, 2 or 3 bits, the first highest, to one phase increment by a
/// table; it takes up to 9,072 bits, as many as whole increments have.
#[derive(Clone, Copy)]
pub struct Map {
    // A number and no enum: lengths are divided by it.
    bits: usize,
    ghost width: { is_width bits ≡ true },
}

/// Bits and increments go with each other one by one, and increments that are neighbours on the
/// circle differ in one bit.
pub fn neighbours_differ_in_one_bit()
    ensures { GrayMaps }
{}

/// The number that an increment stands for by a table of numbers, 0 where it is not in the table.
fn number_for(numbers: &[u8], increment: u8) -> u8
    ensures { result ≡ slice_index numbers.now increment }
{
    numbers.get(increment as usize).copied().unwrap_or(0)
}

impl Map {
    /// The stage that maps `bits` bits to an increment.
    ///
    /// Refuses with `Setting` another count than 1, 2 or 3.
    pub fn new(bits: usize) -> Result<Map, Refusal>
        ensures { result_map_both (λ (m : Map). plain (mapping m.bits)) (λ e. e) result ≡ made_map bits }
    {
        if bits < 1 || bits > WIDEST {
            return Err(Refusal::Setting);
        }
        Ok(Map { bits })
    }

    /// The increment for each number that the bits write, and the number for each increment.
    fn tables(&self) -> (&'static [u8], &'static [u8])
        ensures increments { result.0.now ≡ phase_table self.now.bits }
        ensures numbers { result.1.now ≡ number_table self.now.bits }
    {
        match self.bits {
            1 => (&TWO_PHASES, &TWO_NUMBERS),
            2 => (&FOUR_PHASES, &FOUR_NUMBERS),
            _ => (&EIGHT_PHASES, &EIGHT_NUMBERS),
        }
    }

    /// The number that the bits of one increment write, the first of them highest.
    fn number_written(&self, group: &[u8]) -> u8
        requires long { length group.now ≡ self.now.bits }
        requires digits { within 1 group.now ≡ true }
        ensures value { result ≡ written group.now 0 self.now.bits }
        ensures short { result < 2 ^ self.now.bits }
    {
        match self.bits {
            1 => group[0],
            2 => 2 * group[0] + group[1],
            _ => 4 * group[0] + 2 * group[1] + group[2],
        }
    }

    /// Writes the bits of one increment that write `number`.
    fn write_bits(&self, number: u8, group: &mut [u8])
        requires { length group.old ≡ self.now.bits }
        ensures { Written self.now.bits number group.new }
    {
        for (place, bit) in group.iter_mut().enumerate() {
            *bit = (number >> (self.bits - 1 - place)) & 1;
        }
    }
}

impl PlainStage for Map {
    ghost meaning = { λ s. mapping s.bits };

    fn number(&self) -> u8 {
        NUMBER
    }

    fn takes(&self) -> u8 {
        1
    }

    fn puts(&self) -> u8 {
        HIGHEST
    }

    fn coded_length(&self, length: usize) -> Option<usize> {
        if length <= LONGEST && length % self.bits == 0 {
            Some(length / self.bits)
        } else {
            None
        }
    }

    fn message_length(&self, length: usize) -> Option<usize> {
        if length <= LONGEST / self.bits {
            Some(length * self.bits)
        } else {
            None
        }
    }

    fn write_coding(&self, list: &[u8], coded: &mut [u8]) {
        let (increments, _) = self.tables();
        for (i, increment) in coded.iter_mut().enumerate() {
            let group = &list[i * self.bits..(i + 1) * self.bits];
            *increment = increments[self.number_written(group) as usize];
        }
    }

    fn regain(&self, received: &[u8], list: &mut [u8]) -> Option<usize> {
        let (increments, numbers) = self.tables();
        for (i, increment) in received.iter().enumerate() {
            let number = number_for(numbers, *increment);
            if increments[number as usize] != *increment {
                return Some(i);
            }
            // By place: what is written through `chunks_exact_mut` is not known behind it.
            self.write_bits(number, &mut list[i * self.bits..(i + 1) * self.bits]);
        }
        None
    }

    fn code_front(&self, n: usize, reach: usize, work: &mut [u8], res: &mut [u8])
        requires list { legal (plain (mapping self.now.bits)) (take n res.old) ≡ true }
        requires long { (mapping self.now.bits).coded_length n ≡ Some reach }
        requires aside { n ≤ length work.old }
        requires front { n ≤ length res.old }
        requires room { reach ≤ length res.old }
        ensures coded { take reach res.new ≡ (mapping self.now.bits).coding (take n res.old) }
        ensures work { work.new ≡ work.old }
    {
        let (increments, _) = self.tables();
        for i in 0..reach {
            let group = &res[i * self.bits..(i + 1) * self.bits];
            res[i] = increments[self.number_written(group) as usize];
        }
    }

    ghost sound = { λ s. mapping_sound s.bits s.width };
}
