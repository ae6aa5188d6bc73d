// Bits of words and of registers, over the width. Nothing here asks whether the width is 8 or 16.
#![tactic(auto)]

ghost use Rattle.std.specs.Prelude.{◌≡◌, ◌+◌, ◌-◌, ltb};
ghost use Rattle.word_order.specs.Bits.{bit_of};
ghost use Rattle.module_rules.specs.Settings.{width_of};
ghost use Rattle.module_rules.specs.Registers.{low_bits};
ghost use Rattle.module_rules.specs.Edge.{word_edges};
ghost use Rattle.module_rules.specs.Bits.{samples, shifted_in, received_after, shown_bit, sdo_after};

use module_types::Settings;

// Bit `i` of a word.
pub fn bit(word: u16, i: u16) -> bool
    ensures { result ≡ bit_of word i }
{
    i < 16 && (word >> i) % 2 == 1
}

// The top bit of a word at the present width.
#[tactic(auto, using(module_rules::proofs::Sizes::width_least))]
pub fn top_bit(s: Settings, word: u16) -> bool
    ensures { result ≡ bit_of word (width_of s - 1) }
{
    bit(word, module_settings::width(s) as u16 - 1)
}

// The bits of a value that fit the width.
pub fn low_bits(s: Settings, v: u16) -> u16
    ensures { result ≡ low_bits s v }
{
    let w = module_settings::width(s);
    ((v as u32) % (1u32 << w)) as u16
}

// Whether the next edge of a word that has been given so many does not finish it.
pub fn goes_on(s: Settings, edges: u8) -> bool
    ensures { result ≡ ltb (edges + 1) (word_edges s) }
{
    (edges as u16 + 1) < 2 * module_settings::width(s) as u16
}

// Whether an edge samples SDI, by CKE as the edge rules see it; any other edge changes SDO.
pub fn is_sampling(cke: bool, edge: u16) -> bool
    ensures { result ≡ samples cke edge }
{
    cke == (edge % 2 == 1)
}

// A bit enters behind those received before it.
#[tactic(auto, unfolding(module_rules::specs::Bits::shifted_in))]
pub fn shift_in(received: u16, sdi: bool) -> u16
    ensures { result ≡ shifted_in received sdi }
{
    (((received as u32) * 2 + (sdi as u32)) % 65536) as u16
}

// The bits received once an edge has been given.
pub fn received_after(s: Settings, edge: u16, sdi: bool, received: u16) -> u16
    ensures { result ≡ received_after s edge sdi received }
{
    if is_sampling(module_settings::cke(s), edge) {
        shift_in(received, sdi)
    } else {
        received
    }
}

// The bit that an edge shows when it changes SDO.
#[tactic(auto, using(module_rules::proofs::Sizes::width_least), unfolding(module_rules::specs::Bits::shown_bit))]
fn shown_bit(s: Settings, word: u16, edge: u16) -> bool
    ensures { result ≡ shown_bit s word edge }
{
    let top = module_settings::width(s) as u16 - 1;
    bit(word, top.saturating_sub(edge / 2))
}

// The SDO level once an edge short of the last has been given.
pub fn sdo_after(s: Settings, word: u16, edge: u16, sdo: bool) -> bool
    ensures { result ≡ sdo_after s word edge sdo }
{
    if is_sampling(module_settings::cke(s), edge) {
        sdo
    } else {
        shown_bit(s, word, edge)
    }
}
