// The frozen rules: what a record says of its position, and the vector that the rules give.
ghost use Rattle.std.specs.Prelude.{◌≡◌, map, [], ◌+◌, ◌*◌, ◌<◌, ◌≤◌, length, replicate, eqb, IsTrue, ◌↔◌};
ghost use Rattle.bits.specs.Vectors.{◌⊕◌, bit, tab, odd};
ghost use Rattle.meaning.specs.Limits.{record_bytes, mask_bytes};
ghost use Rattle.meaning.specs.Sheet.{byte, mask, rule_at, frees};
ghost use Rattle.meaning.specs.Check.{free_bits};
ghost use Rattle.meaning.specs.Payload.{place};
ghost use Rattle.meaning.specs.Answers.{is_one};
ghost use Rattle.sheet.specs.Masks.{mask_words};
ghost use Rattle.codec.specs.Packed.{held, put};
ghost use Rattle.codec.specs.Ready.{AreBits, Placeable};

use meaning::limits;

// The values of the positions, packed as a record's mask is: that of position j is bit j mod 64 of word j div 64.
#[derive(Drop)]
struct Values([u64; sheet::MASK_WORDS]);

impl Values {
    // All of them 0.
    fn none() -> Values
        ensures { result.0 ≡ replicate mask_words 0 }
    {
        Values([0; sheet::MASK_WORDS])
    }

    // 1 if an odd number of the positions that record i names hold 1, else 0: the count of ones of mask and value words.
    fn odd_named(&self, sheet: &[u8], i: usize) -> u8
        requires { (i + 1) * record_bytes ≤ length sheet.now }
        ensures { result ≡ bit (odd (mask sheet.now i) (held self.now.0)) }
    {
        let mut o = 0;
        for (k, v) in self.0.iter().enumerate() {
            o ^= bits::parity(sheet::mask_word(sheet, i, k), *v);
        }
        o
    }

    // What the rule of a frozen record i says of u_i: the constant, flipped if an odd number of the named positions hold 1.
    fn rule_bit(&self, sheet: &[u8], i: usize) -> u8
        requires { (i + 1) * record_bytes ≤ length sheet.now }
        ensures { result ≡ bit (eqb (byte sheet.now i 1) 1 ⊕ odd (mask sheet.now i) (held self.now.0)) }
    {
        let o = self.odd_named(sheet, i);
        if sheet::byte(sheet, i, 1) == 1 {
            o ^ 1
        } else {
            o
        }
    }

    // Puts the value b of position i in.
    fn remember(&mut self, i: usize, b: u8)
        requires { (i < 8 * mask_bytes) × (b < 2) }
        ensures { self.new.0 ≡ put self.old.0 i b }
    {
        self.0[i / 64] ^= u64::from(b) << (i % 64);
    }
}

// Writes the vector u that the rules give for these free bits.
pub fn place_bits(sheet: &[u8], free: &[u8], u: &mut [u8])
    requires { Placeable sheet.now (length u.old) free.now }
    ensures { u.new ≡ map bit (place (tab (length u.old) (rule_at sheet.now)) [] (map is_one free.now)) }
{
    let mut values = Values::none();
    let mut bits = free.iter();
    for (i, x) in u.iter_mut().enumerate() {
        let b = if sheet::is_free(sheet, i) {
            *bits.next().unwrap()
        } else {
            values.rule_bit(sheet, i)
        };
        *x = b;
        values.remember(i, b);
    }
}

// Takes the free bits out of u.
pub fn take_free(sheet: &[u8], u: &[u8], free: &mut [u8])
    requires sheet_len { (length sheet.now ≡ length u.now * record_bytes) × AreBits u.now }
    requires free_len { length free.old ≡ frees (tab (length u.now) (rule_at sheet.now)) }
    ensures { free.new ≡ map bit (free_bits (tab (length u.now) (rule_at sheet.now)) (map is_one u.now)) }
{
    // A counter, and no `free.iter_mut()`: of what is written through its `next` a proof knows nothing.
    let mut next = 0;
    for (i, b) in u.iter().enumerate() {
        if sheet::is_free(sheet, i) {
            free[next] = *b;
            next += 1;
        }
    }
}

// Whether u is the vector that the rules give for these free bits.
pub fn ruled(sheet: &[u8], free: &[u8], u: &[u8]) -> bool
    requires { Placeable sheet.now (length u.now) free.now }
    ensures { IsTrue result ↔ (u.now ≡ map bit (place (tab (length u.now) (rule_at sheet.now)) [] (map is_one free.now))) }
{
    let mut room = [0u8; limits::POSITIONS];
    let again = &mut room[..u.len()];
    place_bits(sheet, free, again);
    u == again
}
