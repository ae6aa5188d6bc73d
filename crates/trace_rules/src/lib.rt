// The vocabulary of document 02, Five: a trace file that plays. Its rules are the definitions in specs/, and what follows from
// them is in proofs/.
#![tactic(auto)]

ghost use Rattle.std.specs.Prelude.{◌≡◌};
ghost use Rattle.trace_rules.specs.Trace.{fault_number_of};

// A record of a section: its kind, its argument and its value.
// The kind is the file's own byte and no enum: a record of any kind is there, and right_record says which are right.
#[derive(Clone, Copy)]
pub struct Entry {
    pub kind: u8,
    pub argument: u8,
    pub value: u16,
}

// Why a file is not played: its contents or its length are wrong, a record is wrong, or it would make too many calls. The
// paper's numbers are given by fault_number_of in specs/Trace.antt.
#[derive(Clone, Copy)]
pub enum Fault {
    BadContents,
    BadRecord,
    TooManyCalls,
}

// The table's number for a fault.
impl From<Fault> for u8 {
    ghost from_gives = { λ fault n. n ≡ fault_number_of fault };

    #[tactic(auto, unfolding(crate::specs::Trace::fault_number_of))]
    fn from(fault: Fault) -> u8 {
        match fault {
            Fault::BadContents => 17,
            Fault::BadRecord => 18,
            Fault::TooManyCalls => 19,
        }
    }
}
