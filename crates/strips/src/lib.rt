// Whole strips: N records of 64 bytes end to end, some of them lost. All 512 lanes are repaired at once, lane t being bit
// t mod 8 of byte t div 8 of each record. What depends on the losses alone is done once.
#![tactic(auto)]

ghost use Rattle.std.specs.Prelude.{◌≡◌, length};
ghost use Rattle.meaning.specs.Answers.{fault, reply};
ghost use Rattle.meaning.specs.Results.{done_or_refusal, verdict_or_refusal};
ghost use Rattle.strips.specs.Repairing.{repair_form, repairing};

mod place;
mod rooms;
mod solving;
mod strip;

use meaning::{Refused, Verdict, limits};
use strip::Strip;
use system::Terms;

// Whether a repair is refused for a fault of form: the sheet's, the strip's, the marks', the output's or the ceiling's.
// In the order in which the refusals are tried.
fn check(
    n: usize,
    sheet: &[u8],
    r: usize,
    ceiling: usize,
    strip: usize,
    lost: &[u8],
    room: usize,
) -> Result<(), Refused>
    ensures { done_or_refusal result ≡ fault (repair_form n sheet.now r ceiling strip lost.now room) }
{
    sheet::check_sheet(n, sheet, r)?;
    let size = sheet.len() / limits::RECORD;
    if strip != size * 64 {
        return Err(Refused::BadLength);
    }
    sheet::check_word(lost, size, 1, room, 65 * size)?;
    if limits::LARGEST_CEILING < ceiling {
        return Err(Refused::BadCeiling);
    }
    Ok(())
}

// Repairs N records of 64 bytes end to end, of which those with a mark of 1 are lost; their bytes count for nothing.
// Answers Unique (0) or Ambiguous (1), with g unknowns, m equations and dimension d, as `decoder::decode` answers each of the
// 512 lanes alone. The output then starts with the repaired strip of 64N bytes, the lost records filled in where they are
// settled and zeros where they are not, followed by N marks, 1 for a record that is not settled: with Unique none is. Later
// bytes are as found.
// Answers LaneInconsistent (2) with the first lane in which no codeword agrees, and g and m.
// Refuses (as sheet::check_sheet; 14: the strip is not 64N bytes, or there are not N marks; 15: the first mark above 1; 16: the
// output is shorter than 65N; 17: the ceiling is above 255; 18: g is above the ceiling). LaneInconsistent and refusals leave
// the output as found.
// Numbers one by one: the call is README's.
pub fn repair(
    n: usize,
    sheet: &[u8],
    r: usize,
    ceiling: usize,
    strip: &[u8],
    lost: &[u8],
    out: &mut [u8],
) -> Result<Verdict, Refused>
    ensures { reply out.new (verdict_or_refusal result) ≡ repairing n sheet.now r ceiling strip.now lost.now out.old }
{
    check(n, sheet, r, ceiling, strip.len(), lost, out.len())?;
    let mut room = [0u8; limits::POSITIONS];
    let word = &mut room[..lost.len()];
    place::erase(lost, word);
    let g = counting::unknowns(n, sheet, word);
    if ceiling < g {
        return Err(Refused::TooMany { g });
    }
    let coeffs = g / 64 + 1;
    let s = Strip {
        sheet,
        records: strip,
        lost: word,
        terms: Terms {
            n,
            r,
            most: g,
            coeffs,
            words: coeffs + 9,
        },
    };
    rooms::answer(&s, out)
}
