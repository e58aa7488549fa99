// The checks that every call begins with: the state, then the sheet and the memory where they are taken. How much of them a driver asks
// for is the driver's.
ghost use Rattle.std.specs.Prelude.{◌≡◌, not, [], ◌∷◌, eqb, ltb};
ghost use Rattle.rules.specs.Reason.{◌if◌, first_reason, INVALID_STATE, SHEET_TOO_SHORT, WRONG_RAM_SIZE};
ghost use Rattle.core_answers.specs.Answer.{verdict_reason};

use crate::rejection::Rejection;
use crate::verdict::Verdict;

// A sheet of so many words, where a driver asks for sheet_size.
#[tactic(auto, unfolding(rules::specs::Reason::first_reason))]
fn judge_sheet(sheet: usize, sheet_size: usize) -> Verdict
    ensures { verdict_reason result ≡ first_reason (SHEET_TOO_SHORT if ltb sheet sheet_size ∷ []) }
{
    if sheet < sheet_size {
        return Err(Rejection::SheetTooShort);
    }
    Ok(())
}

// Memory of so many bytes.
#[tactic(auto, unfolding(rules::specs::Reason::first_reason))]
fn judge_ram(ram: usize, ram_size: usize) -> Verdict
    ensures { verdict_reason result ≡ first_reason (WRONG_RAM_SIZE if not (eqb ram ram_size) ∷ []) }
{
    if ram != ram_size {
        return Err(Rejection::WrongRamSize);
    }
    Ok(())
}

// A call that takes neither sheet nor memory.
#[tactic(auto, unfolding(rules::specs::Reason::first_reason))]
pub fn state_gate(valid: bool) -> Verdict
    ensures { verdict_reason result ≡ first_reason (INVALID_STATE if not valid ∷ []) }
{
    if valid {
        Ok(())
    } else {
        Err(Rejection::InvalidState)
    }
}

// A call that takes a sheet of so many words.
#[tactic(auto, unfolding(rules::specs::Reason::first_reason))]
pub fn sheet_gate(valid: bool, sheet: usize, sheet_size: usize) -> Verdict
    ensures { verdict_reason result ≡ first_reason (INVALID_STATE if not valid ∷ SHEET_TOO_SHORT if ltb sheet sheet_size ∷ []) }
{
    state_gate(valid)?;
    judge_sheet(sheet, sheet_size)
}

// A call that takes a sheet of so many words and memory of so many bytes.
#[tactic(auto, unfolding(rules::specs::Reason::first_reason))]
pub fn full_gate(
    valid: bool,
    sheet: usize,
    sheet_size: usize,
    ram: usize,
    ram_size: usize,
) -> Verdict
    ensures { verdict_reason result
        ≡ first_reason
        (INVALID_STATE if not valid
        ∷ SHEET_TOO_SHORT if ltb sheet sheet_size
        ∷ WRONG_RAM_SIZE if not (eqb ram ram_size)
        ∷ []) }
{
    state_gate(valid)?;
    judge_sheet(sheet, sheet_size)?;
    judge_ram(ram, ram_size)
}

// A call that takes memory of so many bytes and no sheet.
#[tactic(auto, unfolding(rules::specs::Reason::first_reason))]
pub fn ram_gate(valid: bool, ram: usize, ram_size: usize) -> Verdict
    ensures { verdict_reason result ≡ first_reason (INVALID_STATE if not valid ∷ WRONG_RAM_SIZE if not (eqb ram ram_size) ∷ []) }
{
    state_gate(valid)?;
    judge_ram(ram, ram_size)
}
