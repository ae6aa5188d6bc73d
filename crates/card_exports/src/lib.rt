// The audio card for a program in C or Rust to link: its calls over memory that the caller holds, 40 numbers of 32 bits. Only numbers cross
// the boundary, and any numbers are answered. An answer has the refusal number in its upper 32 bits, and in the lower ones the sample that
// was read.
#![tactic(auto)]

ghost use Rattle.std.specs.Prelude.{◌≡◌};
ghost use Rattle.card_rules.specs.Card.{powered_up};
ghost use Rattle.card_rules.specs.Calls.{refused, set_protocol_of, set_length_of, enable_of, disable_of, write_of, read_of, edge_of, clear_underrun_of, clear_overflow_of};
ghost use Rattle.card.specs.Memory.{protocol_in, card_in};
ghost use Rattle.card.specs.Answered.{why_of, done_in, answer_number, Tells};
ghost use Rattle.card_look.specs.Look.{look_number};
ghost use Rattle.card_exports.specs.Levels.{level_in};

use card::Refusal;

// A refusal as a number.
fn number(why: Refusal) -> u64
    ensures { result ≡ answer_number (refused (why_of why)) }
{
    (why as u64) << 32
}

// A call that is done is 0. This is a match, since an edge by `map_or_else` took 7.3 ns in place of 6.7.
fn number_unless_done(answer: Result<(), Refusal>) -> u64
    ensures { result ≡ answer_number (done_in answer) }
{
    match answer {
        Ok(()) => 0,
        Err(why) => number(why),
    }
}

// Power-up: the memory may hold anything before.
#[unsafe(no_mangle)]
pub extern "C" fn thurafeqa_card_power_up(w: &mut [u32; 40])
    ensures { card_in w.new ≡ powered_up }
{
    card::power_up(w);
}

// The protocol by the low two bits of a number: I2S, left justified, right justified, PCM/DSP.
#[unsafe(no_mangle)]
pub extern "C" fn thurafeqa_card_set_protocol(w: &mut [u32; 40], protocol: u32) -> u64
    ensures { Tells (set_protocol_of (card_in w.old) (protocol_in protocol)) result w.old w.new }
{
    number_unless_done(card::set_protocol(w, protocol))
}

// The bits of a sample and the clocks of a frame.
#[unsafe(no_mangle)]
pub extern "C" fn thurafeqa_card_set_length(w: &mut [u32; 40], bits: u32, frame: u32) -> u64
    ensures { Tells (set_length_of (card_in w.old) bits frame) result w.old w.new }
{
    number_unless_done(card::set_length(w, bits, frame))
}

#[unsafe(no_mangle)]
pub extern "C" fn thurafeqa_card_enable(w: &mut [u32; 40]) -> u64
    ensures { Tells (enable_of (card_in w.old)) result w.old w.new }
{
    card::enable(w);
    0
}

#[unsafe(no_mangle)]
pub extern "C" fn thurafeqa_card_disable(w: &mut [u32; 40]) -> u64
    ensures { Tells (disable_of (card_in w.old)) result w.old w.new }
{
    card::disable(w);
    0
}

// A sample waits to be sent.
#[unsafe(no_mangle)]
pub extern "C" fn thurafeqa_card_write(w: &mut [u32; 40], sample: u32) -> u64
    ensures { Tells (write_of (card_in w.old) sample) result w.old w.new }
{
    number_unless_done(card::write(w, sample))
}

// The first unread sample.
#[unsafe(no_mangle)]
pub extern "C" fn thurafeqa_card_read(w: &mut [u32; 40]) -> u64
    ensures { Tells (read_of (card_in w.old)) result w.old w.new }
{
    card::read(w).map_or_else(number, u64::from)
}

// One edge, with the level of SDI.
#[unsafe(no_mangle)]
pub extern "C" fn thurafeqa_card_edge(w: &mut [u32; 40], sdi: u32) -> u64
    ensures { Tells (edge_of (card_in w.old) (level_in sdi)) result w.old w.new }
{
    number_unless_done(card_edge::edge(w, sdi != 0))
}

#[unsafe(no_mangle)]
pub extern "C" fn thurafeqa_card_clear_underrun(w: &mut [u32; 40])
    ensures { card_in w.new ≡ (clear_underrun_of (card_in w.old)).after }
{
    card::clear_underrun(w);
}

#[unsafe(no_mangle)]
pub extern "C" fn thurafeqa_card_clear_overflow(w: &mut [u32; 40])
    ensures { card_in w.new ≡ (clear_overflow_of (card_in w.old)).after }
{
    card::clear_overflow(w);
}

// The pins, the flags, the next channel, the samples held and the settings.
#[unsafe(no_mangle)]
pub extern "C" fn thurafeqa_card_look(w: &[u32; 40]) -> u32
    ensures { result ≡ look_number (card_in w.now) }
{
    card_look::look(w)
}
