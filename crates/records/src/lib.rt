// The record of a sent frame (request E11): what its reader gives, and its length.
#![tactic(auto)]

ghost use Rattle.std.specs.Prelude.{◌≡◌};
ghost use Rattle.records.specs.Record.{record_length};

// What the reader gives of a record: its kind, grade and frame number, the energy of its frame, and the place after it.
#[derive(Clone, Copy, Debug, PartialEq, Eq)]
pub struct Record {
    pub kind: u8,
    pub grade: u8,
    pub number: u32,
    pub energy: u64,
    pub next: usize,
}

// The bytes of a record, 0 where there is no such kind.
#[tactic(auto, unfolding(crate::specs::Record::record_length))]
pub fn record_length(kind: u8) -> usize
    ensures { result ≡ record_length kind }
{
    if !kind_table::is_kind(kind) {
        return 0;
    }
    8 + 4 * kind_table::positions(kind)
}
