// The vocabulary of document 02, Fourteen: a cut trace is salvaged. Its rules are the definitions in specs/, and what follows from
// them is in proofs/.
#![tactic(auto)]

ghost use Rattle.std.specs.Prelude.{◌≡◌, Err};
ghost use Rattle.trace_salvage_rules.specs.Salvage.{salvage_number_of};

// Why a file is not salvaged: its contents are not whole and gapless, or the new file does not fit the lent buffer. The paper's
// numbers are given by salvage_number_of in specs/Salvage.antt.
#[derive(Clone, Copy)]
pub enum SalvageFault {
    BadContents,
    NoRoom,
}

// The table's number for a fault.
impl From<SalvageFault> for u8 {
    ghost from_gives = { λ fault n. n ≡ salvage_number_of (Err fault) };

    #[tactic(auto, unfolding(crate::specs::Salvage::salvage_number_of))]
    fn from(fault: SalvageFault) -> u8 {
        match fault {
            SalvageFault::BadContents => 17,
            SalvageFault::NoRoom => 20,
        }
    }
}

// What is told of a file that is salvaged: the sections cut, the bytes lost and the new file's length.
#[derive(Clone, Copy)]
pub struct Salvaged {
    pub cut: u16,
    pub lost: u16,
    pub length: u16,
}
