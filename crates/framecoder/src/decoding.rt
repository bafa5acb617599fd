//! The ten stages' decoding, a call to a stage with its settings.

ghost use Rattle.std.specs.Prelude.{◌≡◌, length, Ok};
ghost use Rattle.codings.specs.Checks.{checking};
ghost use Rattle.codings.specs.Fills.{made_fill};
ghost use Rattle.codings.specs.Repeats.{made_repeat};
ghost use Rattle.codings.specs.Scramblers.{scrambling};
ghost use Rattle.codings.specs.Unpackers.{unpacking};
ghost use Rattle.convolution.specs.Convolutions.{convolution};
ghost use Rattle.framecoder.specs.Calls.{decode_told, DecodeLeaves};
ghost use Rattle.interleave.specs.Interleavings.{made_interleave};
ghost use Rattle.phases.specs.Differences.{made_difference};
ghost use Rattle.phases.specs.Maps.{made_map};
ghost use Rattle.reedsolomon.specs.Words.{made_words};
ghost use Rattle.stage.specs.Model.{plain};

use crate::answers::Answer;
use crate::calls::decode_with;
use codings::{Check, Fill, Repeat, Scramble, UnpackBits};
use convolution::Convolve;
use interleave::Interleave;
use phases::{Difference, Map};
use reedsolomon::ReedSolomon;

// C interface: a function for each stage, since C has no generics.
/// Decodes by stage 1: 28 bits and their five check bits.
#[unsafe(no_mangle)]
pub extern "C" fn framecoder_check_decode(list: &[u8], work: &mut [u8], res: &mut [u8]) -> Answer
    ensures answer { result ≡ decode_told (Ok (plain checking)) list.now (length work.old) (length res.old) }
    ensures buffers { DecodeLeaves (Ok (plain checking)) list.now work.old res.old work.new res.new }
{
    decode_with(Ok(Check), list, work, res)
}

/// Decodes by stage 2: 0 to 255 bytes, scrambled.
#[unsafe(no_mangle)]
pub extern "C" fn framecoder_scramble_decode(list: &[u8], work: &mut [u8], res: &mut [u8]) -> Answer
    ensures answer { result ≡ decode_told (Ok (plain (scrambling 0))) list.now (length work.old) (length res.old) }
    ensures buffers { DecodeLeaves (Ok (plain (scrambling 0))) list.now work.old res.old work.new res.new }
{
    decode_with(Ok(Scramble), list, work, res)
}

/// Decodes by stage 3: 1 to 255 − 2 · `strength` bytes and 2 · `strength` bytes of parity.
/// Refuses with 1 unless `strength` is 4 or 8.
#[unsafe(no_mangle)]
pub extern "C" fn framecoder_reed_solomon_decode(
    strength: usize,
    list: &[u8],
    work: &mut [u8],
    res: &mut [u8],
) -> Answer
    ensures answer { result ≡ decode_told (made_words strength) list.now (length work.old) (length res.old) }
    ensures buffers { DecodeLeaves (made_words strength) list.now work.old res.old work.new res.new }
{
    decode_with(ReedSolomon::new(strength), list, work, res)
}

/// Decodes by stage 4: 0 to 255 bytes as bits.
#[unsafe(no_mangle)]
pub extern "C" fn framecoder_unpack_bits_decode(
    list: &[u8],
    work: &mut [u8],
    res: &mut [u8],
) -> Answer
    ensures answer { result ≡ decode_told (Ok (plain unpacking)) list.now (length work.old) (length res.old) }
    ensures buffers { DecodeLeaves (Ok (plain unpacking)) list.now work.old res.old work.new res.new }
{
    decode_with(Ok(UnpackBits), list, work, res)
}

/// Decodes by stage 5: 0 to 2,040 bits at rate one half.
#[unsafe(no_mangle)]
pub extern "C" fn framecoder_convolution_decode(
    list: &[u8],
    work: &mut [u8],
    res: &mut [u8],
) -> Answer
    ensures answer { result ≡ decode_told (Ok (plain convolution)) list.now (length work.old) (length res.old) }
    ensures buffers { DecodeLeaves (Ok (plain convolution)) list.now work.old res.old work.new res.new }
{
    decode_with(Ok(Convolve), list, work, res)
}

/// Decodes by stage 6: `bits` bits with zeros behind them, `total` together.
/// Refuses with 1 unless `bits` is at most `total`, and that at most 9,072.
#[unsafe(no_mangle)]
pub extern "C" fn framecoder_fill_decode(
    bits: usize,
    total: usize,
    list: &[u8],
    work: &mut [u8],
    res: &mut [u8],
) -> Answer
    ensures answer { result ≡ decode_told (made_fill bits total) list.now (length work.old) (length res.old) }
    ensures buffers { DecodeLeaves (made_fill bits total) list.now work.old res.old work.new res.new }
{
    decode_with(Fill::new(bits, total), list, work, res)
}

/// Decodes by stage 7: 0 to 2,268 bits, each `times` times.
/// Refuses with 1 unless `times` is 4 or 6.
#[unsafe(no_mangle)]
pub extern "C" fn framecoder_repeat_decode(
    times: usize,
    list: &[u8],
    work: &mut [u8],
    res: &mut [u8],
) -> Answer
    ensures answer { result ≡ decode_told (made_repeat times) list.now (length work.old) (length res.old) }
    ensures buffers { DecodeLeaves (made_repeat times) list.now work.old res.old work.new res.new }
{
    decode_with(Repeat::new(times), list, work, res)
}

/// Decodes by stage 8: `blocks` blocks of `rows` rows of `width` bits, each bit at another place of its block.
/// Refuses with 1 unless `width` is 6 to 36 in steps of 6, `rows` 1 to 252, `blocks` 1 to 3.
#[unsafe(no_mangle)]
pub extern "C" fn framecoder_interleave_decode(
    width: usize,
    rows: usize,
    blocks: usize,
    list: &[u8],
    work: &mut [u8],
    res: &mut [u8],
) -> Answer
    ensures answer { result ≡ decode_told (made_interleave width rows blocks) list.now (length work.old) (length res.old) }
    ensures buffers { DecodeLeaves (made_interleave width rows blocks) list.now work.old res.old work.new res.new }
{
    decode_with(Interleave::new(width, rows, blocks), list, work, res)
}

/// Decodes by stage 9: up to 9,072 bits, `bits` of them to an increment.
/// Refuses with 1 unless `bits` is 1, 2 or 3.
#[unsafe(no_mangle)]
pub extern "C" fn framecoder_map_decode(
    bits: usize,
    list: &[u8],
    work: &mut [u8],
    res: &mut [u8],
) -> Answer
    ensures answer { result ≡ decode_told (made_map bits) list.now (length work.old) (length res.old) }
    ensures buffers { DecodeLeaves (made_map bits) list.now work.old res.old work.new res.new }
{
    decode_with(Map::new(bits), list, work, res)
}

/// Decodes by stage 10: up to 9,072 increments in whole rows, each added to the cell a row earlier.
/// Refuses with 1 unless `reference` has 6 to 36 cells in steps of 6, each at most 7.
#[unsafe(no_mangle)]
pub extern "C" fn framecoder_difference_decode(
    reference: &[u8],
    list: &[u8],
    work: &mut [u8],
    res: &mut [u8],
) -> Answer
    ensures answer { result ≡ decode_told (made_difference reference.now) list.now (length work.old) (length res.old) }
    ensures buffers { DecodeLeaves (made_difference reference.now) list.now work.old res.old work.new res.new }
{
    decode_with(Difference::new(reference), list, work, res)
}
