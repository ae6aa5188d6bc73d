// The vocabulary of document 01, "The script program". Its rules are the definitions in specs/, and what follows from them
// is in proofs/.
#![tactic(auto)]

use module_types::Module;

// Where a script that is being played stands: the lines answered, and the place of the next line.
#[derive(Clone, Copy)]
pub struct Bookmark {
    pub lines: u32,
    pub at: usize,
}

// A script that is being played, as the definitions see it: the module so far, and where the script stands.
#[derive(Clone, Copy)]
pub struct Session {
    pub spi: Module,
    pub lines: u32,
    pub at: usize,
}

// What playing a piece of a script returns: where the script stands after it, and how many bytes were written.
#[derive(Clone, Copy)]
pub struct Piece {
    pub to: Bookmark,
    pub written: usize,
}
