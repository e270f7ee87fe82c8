// The score of two references, and a sheet of the scores of two lists of them. What is promised is said in specs/.
#![tactic(auto)]

ghost use Rattle.std.specs.Prelude.{◌≡◌};
ghost use Rattle.matrix.specs.Answers.{values_of};
ghost use Rattle.score.specs.Score.{score};
ghost use Rattle.score.specs.ScoreSheet.{Filled, score_sheet};

mod characters;
mod sheets;
mod table;
mod tests;

use matrix::Refusal;
use sheets::write_sheet;
use table::Table;
use tests::{score_tested, sheet_tested};

// The score of two references, or why they have none.
#[tactic(auto, unfolding(crate::specs::Score::score, matrix::specs::Answers::totalled))]
pub fn score(first: &[u8], second: &[u8]) -> Result<i64, Refusal>
    ensures { values_of result ≡ values_of (score first.now second.now) }
{
    score_tested(first, second)?;
    Ok(i64::from(Table::new().score(first, second)))
}

// A sheet of the scores of two lists of references is written over the front of its room; 0, or the refusal as number + 256*place.
#[tactic(auto, unfolding(crate::specs::ScoreSheet::score_sheet))]
pub fn score_sheet(firsts: &[u8], seconds: &[u8], sheet: &mut [u8]) -> u64
    ensures { ◌≡◌ {A = Filled} (record { number = result; sheet = sheet.new }) (score_sheet firsts.now seconds.now sheet.old) }
{
    match sheet_tested(firsts, seconds, sheet.len()) {
        Err(refusal) => refusal.code(),
        Ok(()) => {
            write_sheet(sheet, firsts, seconds);
            0
        }
    }
}
