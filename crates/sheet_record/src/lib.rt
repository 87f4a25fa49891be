// A record of a sheet, tested.
#![tactic(auto)]

ghost use Rattle.std.specs.Prelude.{◌≡◌, ◌<◌, length};
ghost use Rattle.sheet_record.specs.Record.{marked as isMarked, record_refusal};
ghost use Rattle.refusals.specs.Number.{number_of};

use refusals::Refusal;

// Whether the mark stands at place p.
#[tactic(auto, unfolding(crate::specs::Record::marked))]
fn marked(sheet: &[u8], p: usize) -> bool
    requires { p < length sheet.now }
    ensures { result ≡ isMarked sheet.now p }
{
    sheet[p..].starts_with(&[0x4C, 0x43])
}

// The tests of the record at place p: passed by a whole record.
#[tactic(auto, unfolding(crate::specs::Record::record_refusal))]
pub fn test_record(sheet: &[u8], p: usize) -> Result<(), Refusal>
    requires { p < length sheet.now }
    ensures { number_of result ≡ record_refusal sheet.now p }
{
    if !marked(sheet, p) {
        return Err(Refusal::Mark);
    }
    let Some(&kind) = sheet.get(p + 2) else {
        return Err(Refusal::MessageLength);
    };
    if !kind_table::is_kind(kind) {
        return Err(Refusal::Kind);
    }
    let Some(&grade) = sheet.get(p + 3) else {
        return Err(Refusal::MessageLength);
    };
    if !kind_table::is_grade(grade) {
        return Err(Refusal::Grade);
    }
    if sheet.len() - p - 4 < kind_table::message_bytes(kind, grade as usize) {
        return Err(Refusal::MessageLength);
    }
    Ok(())
}
