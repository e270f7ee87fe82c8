// A sheet of scores, written part by part.
ghost use Rattle.std.specs.Prelude.{◌≡◌, ◌+◌, ◌*◌, ◌<◌, ◌≤◌, length, drop};
ghost use mathlib.Core.List.{◌++◌, flat_map};
ghost use lib.Seq.{sets};
ghost use Rattle.layout.specs.Values.{signed_bytes};
ghost use Rattle.score.specs.Score.{score_of};
ghost use Rattle.score.specs.ScoreSheet.{reference_count, reference, sheet_length, score_at, scores, scored_sheet};
ghost use Rattle.score.specs.Asked.{Lists};

use crate::table::Table;
use layout::edition::Edition;
use layout::field::Field;
use layout::trailer::write_trailer;

// The reference with number i.
fn reference(list: &[u8], i: usize) -> &[u8]
    requires { 12 * i + 12 ≤ length list.now }
    ensures { result.now ≡ reference i list.now }
{
    &list[12 * i..12 * i + 12]
}

// Two lists of n references, every one of the first with every one of the second.
#[derive(Drop)]
struct Pairs<'a> {
    n: usize,
    firsts: &'a [u8],
    seconds: &'a [u8],
    table: Table,
    ghost listed: { Lists n firsts.now seconds.now },
}

impl Pairs<'_> {
    // The score of reference i of the first list and reference j of the second.
    fn score(&self, i: usize, j: usize) -> i32
        requires { (i < self.now.n) × (j < self.now.n) }
        ensures { result ≡ score_of (reference i self.now.firsts.now) (reference j self.now.seconds.now) }
    {
        self.table
            .score(reference(self.firsts, i), reference(self.seconds, j))
    }

    // The score at place k of a sheet of side n, in row order.
    fn score_at(&self, k: usize) -> i32
        requires { k < self.now.n * self.now.n }
        ensures { result ≡ score_at self.now.n self.now.firsts.now self.now.seconds.now k }
    {
        self.score(k / self.n, k % self.n)
    }

    // Writes the scores over the front of a sheet's room, four bytes each.
    fn write(&self, sheet: &mut [u8])
        requires { 4 * (self.now.n * self.now.n) ≤ length sheet.old }
        ensures { sheet.new ≡ sets sheet.old 0 (flat_map (signed_bytes 4) (scores self.now.n self.now.firsts.now self.now.seconds.now)) }
    {
        for k in 0..self.n * self.n {
            self.score_at(k).write(sheet, 4 * k);
        }
    }
}

// Writes the sheet of two lists over the front of its room; its mark is "MTCH", the lowest byte first.
pub fn write_sheet(sheet: &mut [u8], firsts: &[u8], seconds: &[u8])
    requires { Lists (reference_count firsts.now) firsts.now seconds.now × (sheet_length (reference_count firsts.now) ≤ length sheet.old) }
    ensures { sheet.new ≡ scored_sheet firsts.now seconds.now ++ drop (sheet_length (reference_count firsts.now)) sheet.old }
{
    let n = firsts.len() / 12;
    let distance = 4 * (n * n);
    let pairs = Pairs {
        n,
        firsts,
        seconds,
        table: Table::new(),
    };
    pairs.write(sheet);
    write_trailer(
        sheet,
        distance,
        distance,
        n,
        Edition::Square.number(),
        0x4843_544D,
    );
}
