// The tests of references, 18 and 19, and what a sheet of scores is refused for.
ghost use Rattle.std.specs.Prelude.{◌≡◌, ◌≤◌, length};
ghost use Rattle.lists.specs.Runs.{Finds};
ghost use Rattle.lists.specs.Permutations.{at};
ghost use Rattle.score.specs.Characters.{foreign};
ghost use Rattle.score.specs.Score.{lengths_twelve, characters_known, score_tests};
ghost use Rattle.score.specs.ScoreSheet.{uneven, lists_fit, sheet_tests};

use crate::characters::foreign;
use matrix::limits::sheet_side;
use matrix::tests::fails_if;
use matrix::{Reason, Refusal};

// Test 18 of two references.
fn lengths_twelve(first: &[u8], second: &[u8]) -> Result<(), Refusal>
    ensures { result ≡ lengths_twelve first.now second.now }
{
    fails_if(first.len() != 12, Reason::ReferenceLength, 1)?;
    fails_if(second.len() != 12, Reason::ReferenceLength, 2)
}

// Refusal 19: the first byte of a list that is no character.
fn first_foreign(list: &[u8]) -> Option<usize>
    ensures { Finds (length list.now) (λ p. foreign (at list.now p)) result }
{
    list.iter().position(|&byte| foreign(byte))
}

// Test 19 of a list of references, which begin at `start` in each pair of 24.
fn characters_known(start: usize, list: &[u8]) -> Result<(), Refusal>
    requires { (start ≤ 12) × (length list.now ≤ 768) }
    ensures { result ≡ characters_known start list.now }
{
    match first_foreign(list) {
        Some(p) => Err(Refusal::new(Reason::CharacterUnknown, 24 * (p / 12) + (start + p % 12))),
        None => Ok(()),
    }
}

// Tests 18, 19 of two references.
#[tactic(auto, unfolding(crate::specs::Score::score_tests))]
pub fn score_tested(first: &[u8], second: &[u8]) -> Result<(), Refusal>
    ensures { result ≡ score_tests first.now second.now }
{
    lengths_twelve(first, second)?;
    characters_known(0, first)?;
    characters_known(12, second)
}

// Whether two lengths differ, or are not of whole references.
fn uneven(firsts: usize, seconds: usize) -> bool
    ensures { result ≡ uneven firsts seconds }
{
    firsts != seconds || firsts % 12 != 0
}

// Tests 18, 13, 16 of a sheet of scores, given the lengths of the two lists and of the room.
fn lists_fit(firsts: usize, seconds: usize, room: usize) -> Result<(), Refusal>
    ensures { result ≡ lists_fit firsts seconds room }
{
    fails_if(uneven(firsts, seconds), Reason::ReferenceLength, 0)?;
    let n = firsts / 12;
    fails_if(sheet_side() < n, Reason::SheetSideOver, 0)?;
    fails_if(room < 4 * (n * n) + 12, Reason::SlipRoomShort, 0)
}

// Tests 18, 13, 16, 19 of a sheet of scores.
#[tactic(auto, unfolding(crate::specs::ScoreSheet::sheet_tests))]
pub fn sheet_tested(firsts: &[u8], seconds: &[u8], room: usize) -> Result<(), Refusal>
    ensures { result ≡ sheet_tests firsts.now seconds.now room }
{
    lists_fit(firsts.len(), seconds.len(), room)?;
    characters_known(0, firsts)?;
    characters_known(12, seconds)
}
