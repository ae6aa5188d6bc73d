// The TI module for a program in C or Rust to link: its calls over memory that the caller holds, 20 numbers of 16 bits. Only numbers cross
// the boundary, and any numbers are answered. A level is low for 0 and high for any other number.
#![tactic(auto)]

ghost use Rattle.std.specs.Prelude.{◌*◌, ◌%◌, [], ◌∷◌, ◌≡◌};
ghost use Rattle.ti_rules.specs.Settings.{powered_up};
ghost use Rattle.ti_rules.specs.Calls.{enter_of, leave_of, set_mode, set_length, write_of, read_of, tick_of, pins_of, clear_of};
ghost use Rattle.ti_rules.specs.Clock.{rate_of};
ghost use Rattle.ti_rules.specs.declared.Answer.TheVariants.{Refused};
ghost use Rattle.ti.specs.Memory.{flag_in, ti_in, Becomes, Tells, status_number, levels_number, settings_number, answer_number};

use ti::Mode;
use ti_rules::Refusal;

// What a refused call answers: the refusal number in the upper 16 bits.
fn refused(refusal: Refusal) -> u32
    ensures { result ≡ answer_number (Refused refusal) }
{
    refusal as u32 * 65536
}

// What a call answers that is done and has nothing to tell.
fn done(_nothing: ()) -> u32
    ensures { result ≡ 0 }
{
    0
}

// Power-up: the memory may hold anything before.
#[unsafe(no_mangle)]
pub extern "C" fn thurafeqa_ti_power_up(w: &mut [u16; 20])
    ensures { Becomes powered_up w.new }
{
    ti::power_up(w);
}

// Enters software reset.
#[unsafe(no_mangle)]
pub extern "C" fn thurafeqa_ti_enter_reset(w: &mut [u16; 20])
    ensures { Becomes (enter_of (ti_in w.old)).after w.new }
{
    ti::enter(w);
}

// Leaves it.
#[unsafe(no_mangle)]
pub extern "C" fn thurafeqa_ti_leave_reset(w: &mut [u16; 20])
    ensures { Becomes (leave_of (ti_in w.old)).after w.new }
{
    ti::leave(w);
}

// Sets master, talk, polarity and phase.
#[unsafe(no_mangle)]
pub extern "C" fn thurafeqa_ti_set_mode(
    w: &mut [u16; 20],
    master: u32,
    talk: u32,
    polarity: u32,
    phase: u32,
) -> u32
    ensures { Tells (set_mode (ti_in w.old) (flag_in master) (flag_in talk) (flag_in polarity) (flag_in phase)) result w.old w.new }
{
    let mode = Mode {
        master: master != 0,
        talk: talk != 0,
        polarity: polarity != 0,
        phase: phase != 0,
    };
    ti::set_mode(w, mode).map_or_else(refused, done)
}

// Sets the character length, 1 to 16.
#[unsafe(no_mangle)]
pub extern "C" fn thurafeqa_ti_set_length(w: &mut [u16; 20], length: u32) -> u32
    ensures { Tells (set_length (ti_in w.old) length) result w.old w.new }
{
    ti::set_length(w, length).map_or_else(refused, done)
}

// Writes a character, left-justified in the low 16 bits of a value.
#[unsafe(no_mangle)]
pub extern "C" fn thurafeqa_ti_write(w: &mut [u16; 20], value: u32) -> u32
    ensures { Tells (write_of (ti_in w.old) (value % 65536)) result w.old w.new }
{
    ti::write(w, (value % 65536) as u16).map_or_else(refused, done)
}

// Reads the unread character, right-justified.
#[unsafe(no_mangle)]
pub extern "C" fn thurafeqa_ti_read(w: &mut [u16; 20]) -> u32
    ensures { Tells (read_of (ti_in w.old)) result w.old w.new }
{
    ti::read(w).map_or_else(refused, u32::from)
}

// One tick of a master, with the level SDI.
#[unsafe(no_mangle)]
pub extern "C" fn thurafeqa_ti_tick(w: &mut [u16; 20], sdi: u32) -> u32
    ensures { Tells (tick_of (ti_in w.old) (flag_in sdi)) result w.old w.new }
{
    ti::tick(w, sdi != 0).map_or_else(refused, u32::from)
}

// The levels SCK, SDI and select are shown to a slave.
#[unsafe(no_mangle)]
pub extern "C" fn thurafeqa_ti_pins(w: &mut [u16; 20], sck: u32, sdi: u32, select: u32) -> u32
    ensures { Tells (pins_of (ti_in w.old) (flag_in sck) (flag_in sdi) (flag_in select)) result w.old w.new }
{
    ti::pins(w, sck != 0, sdi != 0, select != 0).map_or_else(refused, done)
}

// Clears the overrun flag.
#[unsafe(no_mangle)]
pub extern "C" fn thurafeqa_ti_clear_overrun(w: &mut [u16; 20])
    ensures { Becomes (clear_of (ti_in w.old)).after w.new }
{
    ti::clear(w);
}

// The flags, as SPISTS has them.
#[unsafe(no_mangle)]
pub extern "C" fn thurafeqa_ti_status(w: &[u16; 20]) -> u32
    ensures { result ≡ status_number (ti_in w.now) }
{
    ti::status(w)
}

// The levels of the clock and of the output pin.
#[unsafe(no_mangle)]
pub extern "C" fn thurafeqa_ti_levels(w: &[u16; 20]) -> u32
    ensures { result ≡ levels_number (ti_in w.now) }
{
    ti::levels(w)
}

// The settings, and whether the module is in reset.
#[unsafe(no_mangle)]
pub extern "C" fn thurafeqa_ti_settings(w: &[u16; 20]) -> u32
    ensures { result ≡ settings_number (ti_in w.now) }
{
    ti::settings(w)
}

// The bit rate of a master, into memory that the caller lends.
#[unsafe(no_mangle)]
pub extern "C" fn thurafeqa_ti_rate(spibrr: u32, lspclk: u32, rate: &mut [f64; 1])
    ensures { rate.new ≡ rate_of spibrr lspclk ∷ [] }
{
    *rate = [ti::rate(spibrr, lspclk)];
}
