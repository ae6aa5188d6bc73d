// The vocabulary of document 02, Six: a script session saved as a trace file. Its rules are the definitions in specs/, and what
// follows from them is in proofs/.
#![tactic(auto)]

ghost use Rattle.std.specs.Prelude.{◌≡◌, Err};
ghost use Rattle.trace_save_rules.specs.Save.{saved_number_of};

// The file does not fit: saving answers its length, or this. The paper's number is given by saved_number_of in specs/Save.antt.
#[derive(Clone, Copy)]
pub struct NoRoom;

// The table's number for it.
impl From<NoRoom> for u8 {
    ghost from_gives = { λ fault n. n ≡ saved_number_of (Err fault) };

    #[tactic(auto, unfolding(crate::specs::Save::saved_number_of))]
    fn from(_fault: NoRoom) -> u8 {
        20
    }
}
