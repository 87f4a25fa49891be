// The listing of a sheet, line by line into a lent buffer.
#![tactic(auto)]

ghost use Rattle.std.specs.Prelude.{◌≡◌, ◌+◌, ◌%◌, ◌^◌, ◌<◌, ◌≤◌, length};
ghost use Rattle.sheet_record.specs.Record.{record_refusal};
ghost use Rattle.text.specs.Text.{Put};
ghost use Rattle.listing.specs.Places.{beginning, start_of, line_on, next_on, line_into, next_into, beginning_into, start_into, ended};

use refusals::Refusal;

// The room that a line has to be lent: enough for 64 coordinates (text::put_line).
const ROOM: usize = 1024;

// The bytes of the longest sheet whose records are listed.
const LONGEST: usize = 32768;

// A place of a sheet: where the next record stands, and its number.
#[derive(Clone, Copy)]
pub struct Place {
    pub at: usize,
    pub number: u32,
}

// What was put at the start of the lent line: its length, and the place from which the listing goes on. At the sheet's end the
// listing ends.
#[derive(Clone, Copy)]
pub struct Written {
    pub length: usize,
    pub next: Place,
}

impl Place {
    // The place of the record after this one, where it stands at `at`.
    fn next(self, at: usize) -> Place
        ensures { result ≡ record { at = at; number = (self.number + 1) % 2 ^ 32 } }
    {
        Place {
            at,
            number: self.number.wrapping_add(1),
        }
    }
}

// The end of a sheet: no record stands there.
fn end_of(sheet: &[u8], number: u32) -> Place
    ensures { result ≡ ended sheet.now number }
{
    Place {
        at: sheet.len(),
        number,
    }
}

// The line of the record at the place, whose tests are passed. With one whose message is refused the listing ends.
#[tactic(auto, unfolding(crate::specs::Places::next_on))]
fn message_line(sheet: &[u8], place: Place, out: &mut [u8]) -> Written
    requires { (place.at < length sheet.now) × (record_refusal sheet.now place.at ≡ 0) × (1024 ≤ length out.old) }
    ensures line { Put out.old 0 (line_on sheet.now place) result.length out.new × (result.length ≤ 1024) }
    ensures next { (result.next ≡ next_on sheet.now place) × (place.at < result.next.at) }
{
    let kind = sheet[place.at + 2];
    let grade = sheet[place.at + 3];
    let start = place.at + 4;
    let end = start + kind_table::message_bytes(kind, grade as usize);
    let line = sheet_line::put_message(kind, grade, place.number, &sheet[start..end], out);
    let next = match line.answer {
        Ok(()) => end,
        Err(_) => sheet.len(),
    };
    Written {
        length: line.length,
        next: place.next(next),
    }
}

// The line of the record at the place, where there is room for it: of one that is refused, its refusal, with which the listing ends.
#[tactic(auto, unfolding(crate::specs::Listing::line_at, crate::specs::Listing::next_at, crate::specs::Places::next_on))]
fn record_line(sheet: &[u8], place: Place, out: &mut [u8]) -> Written
    requires { (place.at < length sheet.now) × (1024 ≤ length out.old) }
    ensures line { Put out.old 0 (line_on sheet.now place) result.length out.new × (result.length ≤ 1024) }
    ensures next { (result.next ≡ next_on sheet.now place) × (place.at < result.next.at) }
{
    match sheet_record::test_record(sheet, place.at) {
        Ok(()) => message_line(sheet, place, out),
        Err(refusal) => Written {
            length: text::put_refused(out, 0, refusal.number()),
            next: place.next(sheet.len()),
        },
    }
}

// The header, and for a long sheet its refusal, where there is room for them.
#[tactic(auto, unfolding(crate::specs::Places::beginning, crate::specs::Places::start_of))]
fn header(sheet: &[u8], out: &mut [u8]) -> Written
    requires { 1024 ≤ length out.old }
    ensures line { Put out.old 0 (beginning sheet.now) result.length out.new × (result.length ≤ 1024) }
    ensures next { result.next ≡ start_of sheet.now }
{
    let length = text::put_header(out, 0);
    if LONGEST < sheet.len() {
        return Written {
            length: text::put_refused(out, length, Refusal::SheetTooLong.number()),
            next: end_of(sheet, 0),
        };
    }
    Written {
        length,
        next: Place { at: 0, number: 0 },
    }
}

// Nothing put, and the listing at its end: the number of the next record stays.
fn nothing(sheet: &[u8], number: u32) -> Written
    ensures { (result.length ≡ 0) × (result.next ≡ ended sheet.now number) }
{
    Written {
        length: 0,
        next: end_of(sheet, number),
    }
}

// The line of the record at the place. Nothing is put where less than 1024 bytes are lent, for a long sheet, or past the end of the
// sheet.
#[tactic(auto, unfolding(crate::specs::Places::line_into, crate::specs::Places::next_into))]
pub fn line(sheet: &[u8], place: Place, out: &mut [u8]) -> Written
    ensures line { Put out.old 0 (line_into (length out.old) sheet.now place) result.length out.new }
    ensures short { result.length ≤ length out.old }
    ensures next { result.next ≡ next_into (length out.old) sheet.now place }
    ensures further { place.at < length sheet.now → place.at < result.next.at }
{
    if out.len() < ROOM || LONGEST < sheet.len() || sheet.len() <= place.at {
        return nothing(sheet, place.number);
    }
    record_line(sheet, place, out)
}

// What the listing begins with, and the first place. Nothing is put where less than 1024 bytes are lent.
#[tactic(auto, unfolding(crate::specs::Places::beginning_into, crate::specs::Places::start_into))]
pub fn begin(sheet: &[u8], out: &mut [u8]) -> Written
    ensures line { Put out.old 0 (beginning_into (length out.old) sheet.now) result.length out.new }
    ensures short { result.length ≤ length out.old }
    ensures next { result.next ≡ start_into (length out.old) sheet.now }
{
    if out.len() < ROOM {
        return nothing(sheet, 0);
    }
    header(sheet, out)
}
