// Rows that a position's record asks for: the row of an unknown, and the row that a frozen rule says. A row has w words: c of
// coefficients, unknown k at bit k mod 64 of word k div 64, then the constant at bit 0 of word c, then words that stay 0.
#![tactic(auto)]

ghost use Rattle.std.specs.Prelude.{◌≡◌, ℕ, ◌+◌, ◌*◌, ◌<◌, ◌≤◌, length, eqb};
ghost use Rattle.bits.specs.Rows.{rows};
ghost use Rattle.meaning.specs.Limits.{record_bytes, mask_bytes};
ghost use Rattle.meaning.specs.Sheet.{byte, mask};
ghost use Rattle.model.specs.Model.{named, rule_value};
ghost use Rattle.model.specs.RowValues.{unknown_row, row_values};
ghost use Rattle.ruling.specs.Ruling.{fitting, ruled, Gap};

use bits::rows;
use meaning::limits;

// The row of unknown k, all of `d`: 0 where it has no such bit.
pub fn unknown_row(d: &mut [u64], k: usize)
    ensures { d.new ≡ unknown_row (length d.old) k }
{
    d.fill(0);
    if k / 64 < d.len() {
        d[k / 64] = 1 << (k % 64);
    }
}

// Record `at` of a sheet that has it, and one that a mask can name.
#[derive(Clone, Copy)]
struct Record<'a> {
    sheet: &'a [u8],
    at: usize,
    ghost few: { at < 8 * mask_bytes },
    ghost there: { (at + 1) * record_bytes ≤ length sheet.now },
}

impl<'a> Record<'a> {
    // How many of the positions just below j, in their word of the mask, the record does not name.
    fn unnamed_below(self, j: usize) -> usize
        requires { (0 < j) × (j ≤ self.at) }
        ensures { Gap self.entry.sheet.now self.entry.at j result }
    {
        let top = (j - 1) % 64;
        let m = sheet::mask_word(self.sheet, self.at, (j - 1) / 64) << (63 - top);
        if m == 0 {
            return top + 1;
        }
        u64::leading_zeros(m) as usize
    }

    // The sum of the rows before the record's position that it names.
    fn named_row(self, row: &mut [u64], us: &[u64])
        requires { self.at * length row.old ≤ length us.now }
        ensures { (c : ℕ) → row.new ≡ named (row_values c (length row.old)) (mask self.entry.sheet.now self.entry.at) (rows (length row.old) self.entry.at us.now) }
    {
        let w = row.len();
        row.fill(0);
        let mut j = self.at;
        // No `for`: each turn passes over a gap of any length.
        while j > 0 {
            let k = self.unnamed_below(j);
            if (j - 1) % 64 < k {
                j -= k;
            } else {
                j -= k + 1;
                let from = j * w;
                rows::add(row, 0, us, from, w);
            }
        }
    }

    // What the record's rule says.
    fn ruled_row(self, row: &mut [u64], us: &[u64], c: usize)
        requires { (self.at * length row.old ≤ length us.now) × (c < length row.old) }
        ensures { row.new ≡ rule_value (row_values c (length row.old)) (eqb (byte self.entry.sheet.now self.entry.at 1) 1) (mask self.entry.sheet.now self.entry.at) (rows (length row.old) self.entry.at us.now) }
    {
        self.named_row(row, us);
        if sheet::byte(self.sheet, self.at, 1) == 1 {
            row[c] ^= 1;
        }
    }
}

// Whether a row of w words lies within d words from `to` on, `us` words hold the rows before position `at`, and a sheet of
// this length has record `at`, which is one that a mask can name.
fn fits(d: usize, to: usize, us: usize, sheet: usize, at: usize, c: usize, w: usize) -> bool
    ensures { result ≡ fitting d to us sheet at c w }
{
    // One test at a time: tried as one chain of `&&`, and the proof did not close.
    if w <= c {
        return false;
    }
    if limits::POSITIONS <= at {
        return false;
    }
    if sheet / limits::RECORD <= at {
        return false;
    }
    if us / w < at {
        return false;
    }
    if d < w {
        return false;
    }
    to <= d - w
}

// Writes what the rule of position `at` says to the row of `d` at `to`: the sum of the rows of `us` before `at` that its record
// names, and the constant. `d` is left as it is where the row, a row before it or the record is not there.
// Numbers one by one, as in the definition that its clause names: a struct for them would only be taken apart there.
pub fn rule_row(d: &mut [u64], to: usize, us: &[u64], sheet: &[u8], at: usize, c: usize, w: usize)
    ensures { d.new ≡ ruled d.old to us.now sheet.now at c w }
{
    if fits(d.len(), to, us.len(), sheet.len(), at, c, w) {
        let record = Record { sheet, at };
        record.ruled_row(&mut d[to..to + w], us, c);
    }
}
