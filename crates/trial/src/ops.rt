// The ops that are more than a call on what a request gives: a view, whose bytes are copied to the output, and strips end to
// end, whose two buffers are parts of the output.
ghost use Rattle.std.specs.Prelude.{◌≡◌, ◌++◌, length, take, drop};
ghost use Rattle.meaning.specs.Results.{done_or_refusal};
ghost use Rattle.view.specs.Viewing.{record_of};
ghost use Rattle.strip_stream.specs.Strips.{leaving_both, answering_strips};

use bits::octets;
use meaning::Refused;

// Op 8: as many bytes of a cartridge's record as the output has room for, at its start; answers how many the record has.
// `view::cartridge` of `view::view` is `view::record` by contract, and the borrow checker covers no caller of these two.
pub fn put_view(strip: &[u8], n: usize, at: usize, out: &mut [u8]) -> usize
    ensures value { result ≡ length (record_of strip.now n at) }
    ensures out_after { out.new ≡ take (length out.old) (record_of strip.now n at) ++ drop (length (record_of strip.now n at)) out.old }
{
    let record = view::record(strip, n, at);
    octets::copy(record, out);
    record.len()
}

// Op 15: the first n bytes of c, or all, are the choice, the others the marks; the first r bytes of the output, or all, are
// the room for the records, the others that for the repaired strips.
pub fn repair_strips(
    n: usize,
    r: usize,
    sheet: &[u8],
    c: &[u8],
    input: &[u8],
    out: &mut [u8],
) -> Result<(), Refused>
    ensures { leaving_both (drop r out.new) (take r out.new) (done_or_refusal result) ≡ answering_strips sheet.now (take n c.now) (drop n c.now) input.now (drop r out.old) (take r out.old) }
{
    let k = n.min(c.len());
    let m = r.min(out.len());
    let (choice, lost) = c.split_at(k);
    let (records, repaired) = out.split_at_mut(m);
    strip_stream::answer(sheet, choice, lost, input, repaired, records)
}
