// A reader carries a trace file and its place in it. Each method takes it apart, and the work is done by functions over the
// file's slice.
#![tactic(auto)]

ghost use Rattle.std.specs.Prelude.{◌≡◌};
ghost use Rattle.trace_rules.specs.Trace.{body_of};
ghost use Rattle.trace_numbers.specs.Places.{entry_at};

use trace_rules::Entry;

#[derive(Clone, Copy)]
pub struct Reader<'a> {
    pub file: &'a [u8],
    pub at: usize,
}

impl<'a> Reader<'a> {
    // A reader at the start of a file.
    pub fn at_start(file: &'a [u8]) -> Reader<'a>
        ensures { (result.file ≡ file.entry) × (result.at ≡ 0) }
    {
        Reader { file, at: 0 }
    }

    // A reader at a place of a file.
    pub fn at_place(file: &'a [u8], at: usize) -> Reader<'a>
        ensures { (result.file ≡ file.entry) × (result.at ≡ at) }
    {
        Reader { file, at }
    }

    // The record at its place.
    pub fn entry(self) -> Entry
        ensures { result ≡ entry_at self.entry.file.now self.entry.at }
    {
        trace_numbers::entry_at(self.file, self.at)
    }

    // A section's body, as part of the file itself.
    pub fn body(self, k: u16) -> &'a [u8]
        ensures { result.now ≡ body_of self.entry.file.now k }
    {
        trace_numbers::section_body(self.file, k)
    }
}

// Names that docs/TRACE.md has; they promise what trace_numbers does.
// The record at a place of a file.
pub fn entry_of(file: &[u8], at: usize) -> Entry
    ensures { result ≡ entry_at file.now at }
{
    Reader::at_place(file, at).entry()
}

// The body of a section of a file.
pub fn body_of(file: &[u8], k: u16) -> &[u8]
    ensures { result.now ≡ body_of file.now k }
{
    Reader::at_start(file).body(k)
}
