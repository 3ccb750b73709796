// Old sheets to new ones. Before W-206 a sheet was N records of 20 bytes, N = 1, 2, 4, .. 128; today it is N records of 68. A
// record is converted by putting zeros behind it, and says the same rule. Every public function here is total.
#![tactic(auto)]

ghost use Rattle.std.specs.Prelude.{◌≡◌, false, ◌*◌, ◌/◌, ◌≤◌, ◌<◌, length};
ghost use Rattle.bits.specs.Vectors.{tab};
ghost use Rattle.meaning.specs.Limits.{layout, old_layout, record_bytes, old_record_bytes};
ghost use Rattle.meaning.specs.Answers.{bad_shape, reply};
ghost use Rattle.meaning.specs.Results.{done_or_refusal};
ghost use Rattle.meaning.specs.Stream.{n_in};
ghost use Rattle.sheet_convert.specs.Conversion.{wide_at, converting, handing};

use meaning::{Refused, limits};

// Bytes of the longest old sheet, converted.
pub const LONGEST: usize = limits::OLD_POSITIONS * limits::RECORD;

// The n of an old sheet of N = 2 to the n records, from its length; 8 where no n up to 7 has such a sheet: a
// number, since it cannot fail. The search of stream::n_of by another length: shared, it would be one more public function for the
// same four lines.
pub fn old_n(old: &[u8]) -> usize
    ensures { result ≡ n_in old_layout old.now }
{
    for n in 0..=limits::OLD_LARGEST_N {
        if old.len() == sheet::size(n) * limits::OLD_RECORD {
            return n;
        }
    }
    limits::OLD_LARGEST_N + 1
}

// Byte p of the new sheet: the old record's byte, or 0 behind it.
fn byte_at(old: &[u8], p: usize) -> u8
    requires { p / record_bytes < length old.now / old_record_bytes }
    ensures { result ≡ wide_at old_layout layout old.now p }
{
    let k = p % limits::RECORD;
    if limits::OLD_RECORD <= k {
        return 0;
    }
    old[p / limits::RECORD * limits::OLD_RECORD + k]
}

// Fills `sheet` with the bytes of the new sheet. By bytes: of what is written through chunks_exact_mut a proof knows nothing.
fn widen(old: &[u8], sheet: &mut [u8])
    requires { length sheet.old ≤ length old.now / old_record_bytes * record_bytes }
    ensures { sheet.new ≡ tab (length sheet.old) (wide_at old_layout layout old.now) }
{
    for (p, b) in sheet.iter_mut().enumerate() {
        *b = byte_at(old, p);
    }
}

// Hands out a sheet of today: refuses a bad record or too little room, or copies it.
fn hand_out(n: usize, sheet: &[u8], out: &mut [u8]) -> Result<(), Refused>
    requires { bad_shape n sheet.now ≡ false }
    ensures { reply out.new (done_or_refusal result) ≡ handing n sheet.now out.old }
{
    // A sheet with no free position is handed out too.
    if let Err(e) = sheet::check_sheet(n, sheet, 0) {
        if let Refused::BadRecord { .. } = e {
            return Err(e);
        }
    }
    if out.len() < sheet.len() {
        return Err(Refused::ShortOutput);
    }
    out[..sheet.len()].copy_from_slice(sheet);
    Ok(())
}

// Converts an old sheet. `old` is to be N = 2 to the n records of 20 bytes, n from 0 to 7. Writes the new sheet, N records of
// 68 bytes, to the front of `out`: of each record its 20 bytes, and 48 zeros. Bytes of `out` past it stay.
// The new sheet has the same codewords in the same order with every check length, and the check says of it what it said of
// the old one: a sheet with no free position is converted, and refused (19) when it is used.
// Refuses, the first that applies, and leaves `out` as found:
//     BadShape (11)       n is above 7, or `old` is not 20N bytes long
//     BadRecord (12)      the place of the first record that breaks any rule
//     ShortOutput (16)    `out` is under 68N bytes long; LONGEST is enough for any
pub fn convert(n: usize, old: &[u8], out: &mut [u8]) -> Result<(), Refused>
    ensures { reply out.new (done_or_refusal result) ≡ converting n old.now out.old }
{
    if limits::OLD_LARGEST_N < n {
        return Err(Refused::BadShape);
    }
    let size = sheet::size(n);
    if old.len() != size * limits::OLD_RECORD {
        return Err(Refused::BadShape);
    }
    let mut room = [0u8; LONGEST];
    let sheet = &mut room[..size * limits::RECORD];
    widen(old, sheet);
    hand_out(n, sheet, out)
}
