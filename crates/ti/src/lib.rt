// A TI module (request Ten) in memory that a caller holds: 20 numbers of 16 bits, read as some module whatever they are, and its calls. An
// edge stores what it changes and no more. A refused call, and a tick that makes no edge, leave every number as it was.
#![tactic(auto)]

ghost use Rattle.std.specs.Prelude.{MatchResult, ◌-◌, ◌/◌, ◌%◌, ◌^◌, ◌<◌, ◌≤◌, true, false, not, ◌≡◌};
ghost use Rattle.laws.specs.Choice.{when◌then◌else◌};
ghost use Rattle.word_order.specs.Bits.{bit_of};
ghost use Rattle.ti_rules.specs.Settings.{rested_at, powered_up, changes_mode};
ghost use Rattle.ti_rules.specs.Characters.{is_free};
ghost use Rattle.ti_rules.specs.Finish.{finished};
ghost use Rattle.ti_rules.specs.Edge.{under_way, edged, seen, leads_on};
ghost use Rattle.ti_rules.specs.Calls.{enter_of, leave_of, set_mode, set_length, write_of, read_of, tick_of, pins_of, clear_of, sdo_of};
ghost use Rattle.ti_rules.specs.Clock.{divider_of, rate_of};
ghost use Rattle.ti_rules.specs.declared.Answer.TheVariants.{Value};
ghost use Rattle.ti.specs.Memory.{flag_in, length_in, ti_in, mode_in, with_mode, Becomes, Steps, done, ticked, Gives, output_bits, status_number, levels_number, settings_number};
ghost use Rattle.ti.specs.Steps.{begun, loaded_with, landed, next_loaded};

use lent::weigh;
use ti_rules::Refusal;

// What the mode call sets.
#[derive(Clone, Copy, PartialEq)]
pub struct Mode {
    pub master: bool,
    pub talk: bool,
    pub polarity: bool,
    pub phase: bool,
}

// Power-up, whatever memory held before.
pub fn power_up(w: &mut [u16; 20])
    ensures { Becomes powered_up w.new }
{
    *w = [0; 20];
    w[17] = 1;
}

// The buffers, the shift register and the overrun flag are emptied, and the pins rest. No loop: the places do not stand together, and
// each is one that specs/Memory.antt names.
fn rest(w: &mut [u16; 20])
    ensures { Steps (λ s _. rested_at s.polarity) w.old w.new }
{
    let idle = w[3];
    w[6] = 0;
    w[11] = 0;
    w[13] = 0;
    w[15] = 0;
    w[16] = idle;
    w[17] = 1;
    w[18] = 0;
}

// Enters software reset. Two definitions, enter_of and leave_of; one function over the flag would tell them apart in its clause.
pub fn enter(w: &mut [u16; 20])
    ensures { Becomes (enter_of (ti_in w.old)).after w.new }
{
    if w[0] != 0 {
        rest(w);
        w[0] = 0;
    }
}

// Leaves it.
pub fn leave(w: &mut [u16; 20])
    ensures { Becomes (leave_of (ti_in w.old)).after w.new }
{
    if w[0] == 0 {
        rest(w);
        w[0] = 1;
    }
}

// The present mode.
fn present_mode(w: &[u16; 20]) -> Mode
    ensures { result ≡ mode_in (ti_in w.now).settings }
{
    Mode {
        master: w[1] != 0,
        talk: w[2] != 0,
        polarity: w[3] != 0,
        phase: w[4] != 0,
    }
}

// Master, talk, polarity and phase.
fn store_mode(w: &mut [u16; 20], mode: Mode)
    ensures { Becomes (with_mode mode.master mode.talk mode.polarity mode.phase (ti_in w.old)) w.new }
{
    w[1] = u16::from(mode.master);
    w[2] = u16::from(mode.talk);
    w[3] = u16::from(mode.polarity);
    w[4] = u16::from(mode.phase);
}

// Sets master, talk, polarity and phase. Out of reset talk alone may change.
pub fn set_mode(w: &mut [u16; 20], mode: Mode) -> Result<(), Refusal>
    ensures { Gives done (set_mode (ti_in w.old) mode.master mode.talk mode.polarity mode.phase) result w.old w.new }
{
    if w[0] == 0 {
        store_mode(w, mode);
        rest(w);
        return Ok(());
    }
    let present = present_mode(w);
    let with_present_talk = Mode {
        talk: present.talk,
        ..mode
    };
    if present != with_present_talk {
        return Err(Refusal::OutOfReset);
    }
    store_mode(w, mode);
    Ok(())
}

// Sets the length, in reset only.
pub fn set_length(w: &mut [u16; 20], n: u32) -> Result<(), Refusal>
    ensures { Gives done (set_length (ti_in w.old) n) result w.old w.new }
{
    if w[0] != 0 {
        return Err(Refusal::OutOfReset);
    }
    if (n == 0) | (16 < n) {
        return Err(Refusal::WrongLength);
    }
    w[5] = (n - 1) as u16;
    Ok(())
}

// Bit `i` of a character.
fn bit(c: u16, i: u16) -> bool
    requires { i < 16 }
    ensures { result ≡ bit_of c i }
{
    (c >> i) % 2 == 1
}

// The output between characters, by the phase, the level before, and the top bit of the character that is loaded.
fn between(phase: u16, sdo: u16, top: bool) -> bool
    ensures { result ≡ (when flag_in phase then top else flag_in sdo) }
{
    if phase != 0 { top } else { sdo != 0 }
}

// A character, or zeros that nobody wrote, goes to the shift register, which has had no edge of it.
fn begin(w: &mut [u16; 20], zeros: bool, c: u16)
    ensures { Steps (λ s n. begun zeros c n) w.old w.new }
{
    w[6] = 1;
    w[7] = u16::from(zeros);
    w[8] = c;
    w[9] = 0;
    w[10] = 0;
}

// A written character goes there, and the output may show its top bit.
fn load(w: &mut [u16; 20], c: u16)
    ensures { Steps (λ s n. loaded_with s c n) w.old w.new }
{
    begin(w, false, c);
    w[18] = u16::from(between(w[4], w[18], bit(c, w[5] % 16)));
}

// The character of a left-justified write.
fn character(char: u16, v: u16) -> u16
    ensures { result ≡ v % 2 ^ 16 / 2 ^ (16 - length_in char) }
{
    v >> (15 - char % 16)
}

// What only a module out of reset allows.
fn out_of_reset(w: &[u16; 20]) -> Result<(), Refusal>
    ensures { MatchResult result (λ _. (ti_in w.now).reset ≡ false) (λ why. ((ti_in w.now).reset ≡ true) × (why ≡ Refusal.InReset)) }
{
    if w[0] == 0 {
        Err(Refusal::InReset)
    } else {
        Ok(())
    }
}

// Writes a character.
pub fn write(w: &mut [u16; 20], v: u16) -> Result<(), Refusal>
    ensures { Gives done (write_of (ti_in w.old) v) result w.old w.new }
{
    out_of_reset(w)?;
    if w[11] != 0 {
        return Err(Refusal::TransmitFull);
    }
    let c = character(w[5], v);
    if w[6] == 0 {
        load(w, c);
    } else {
        w[11] = 1;
        w[12] = c;
    }
    Ok(())
}

// Reads the unread character.
pub fn read(w: &mut [u16; 20]) -> Result<u16, Refusal>
    ensures { Gives Value (read_of (ti_in w.old)) result w.old w.new }
{
    out_of_reset(w)?;
    if w[13] == 0 {
        return Err(Refusal::ReceiveEmpty);
    }
    w[13] = 0;
    Ok(w[14])
}

// Clears the overrun flag.
pub fn clear(w: &mut [u16; 20])
    ensures { Becomes (clear_of (ti_in w.old)).after w.new }
{
    w[15] = 0;
}

// A received character takes the place of the unread one, which is then lost.
fn receive(w: &mut [u16; 20], received: u16)
    ensures { Steps (λ s n. landed received n) w.old w.new }
{
    w[15] = u16::from((w[15] != 0) | (w[13] != 0));
    w[13] = 1;
    w[14] = received;
}

// The character that waits is loaded; with none the shift register is free.
fn load_next(w: &mut [u16; 20])
    ensures { Steps next_loaded w.old w.new }
{
    if w[11] == 0 {
        w[6] = 0;
        w[18] = u16::from(between(w[4], w[18], false));
    } else {
        let c = w[12];
        w[11] = 0;
        load(w, c);
    }
}

// The last edge of a character.
fn finish(w: &mut [u16; 20], received: u16)
    ensures { Steps (λ s n. finished s received n) w.old w.new }
{
    receive(w, received);
    load_next(w);
}

// One edge of the character in the shift register: it latches the input or moves the output, and the last one finishes.
fn edge(w: &mut [u16; 20], sdi: bool)
    requires { is_free (ti_in w.old).engine.shift ≡ false }
    ensures { Steps (λ s n. edged s sdi n) w.old w.new }
{
    let top = w[5] % 16;
    let edge = u32::from(w[9]) + 1;
    let latches = (w[4] != 0) == (edge % 2 == 1);
    let received = if latches {
        (w[10] << 1) + u16::from(sdi)
    } else {
        w[10]
    };
    if edge < 2 * u32::from(top) + 2 {
        w[9] = edge as u16;
        if latches {
            w[10] = received;
        } else {
            w[18] = u16::from(bit(w[8], top - (edge / 2) as u16));
        }
    } else {
        finish(w, received);
    }
}

// The levels of clock and select are remembered.
fn see(w: &mut [u16; 20], sck: bool, select: bool)
    ensures { Steps (λ s n. seen sck select n) w.old w.new }
{
    w[16] = u16::from(sck);
    w[17] = u16::from(select);
}

// A master's clock turns.
fn turn(w: &mut [u16; 20])
    ensures { Steps (λ s n. seen (not n.pins.sck) n.pins.select n) w.old w.new }
{
    w[16] = u16::from(w[16] == 0);
}

// One tick of a master, with the level SDI: whether it made an edge.
pub fn tick(w: &mut [u16; 20], sdi: bool) -> Result<bool, Refusal>
    ensures { Gives ticked (tick_of (ti_in w.old) sdi) result w.old w.new }
{
    out_of_reset(w)?;
    if w[1] == 0 {
        return Err(Refusal::WrongClock);
    }
    if w[6] == 0 {
        return Ok(false);
    }
    turn(w);
    edge(w, sdi);
    Ok(true)
}

// An edge of a slave's character, or of zeros if it has none.
fn slave_edge(w: &mut [u16; 20], sdi: bool)
    ensures { Steps (λ s n. edged s sdi n) w.old w.new }
{
    if w[6] == 0 {
        begin(w, true, 0);
    }
    edge(w, sdi);
}

// The edges that the character in the shift register was given.
fn edges_given(w: &[u16; 20]) -> u16
    ensures { result ≡ (under_way (ti_in w.now).engine.shift).edges }
{
    if w[6] == 0 { 0 } else { w[9] }
}

// Whether an edge to the level SCK leads on.
fn leads_on(w: &[u16; 20], sck: bool) -> bool
    ensures { result ≡ leads_on (ti_in w.now).settings sck (under_way (ti_in w.now).engine.shift).edges }
{
    (sck == (w[3] != 0)) == (edges_given(w) % 2 == 1)
}

// The levels SCK, SDI and select are shown to a slave.
pub fn pins(w: &mut [u16; 20], sck: bool, sdi: bool, select: bool) -> Result<(), Refusal>
    ensures { Gives done (pins_of (ti_in w.old) sck sdi select) result w.old w.new }
{
    out_of_reset(w)?;
    if w[1] != 0 {
        return Err(Refusal::WrongClock);
    }
    let moved = sck != (w[16] != 0);
    let counts = moved & (!select & leads_on(w, sck));
    see(w, sck, select);
    if counts {
        slave_edge(w, sdi);
    }
    Ok(())
}

// The flags that firmware polls, as SPISTS has them.
pub fn status(w: &[u16; 20]) -> u32
    ensures { result ≡ status_number (ti_in w.now) }
{
    u32::from(weigh(w[15] != 0, 128) + weigh(w[13] != 0, 64) + weigh(w[11] != 0, 32))
}

// The output pin in two bits: its level, and whether it is driven.
fn output(w: &[u16; 20]) -> u16
    ensures { (result ≡ output_bits (sdo_of (ti_in w.now))) × (result ≤ 12) }
{
    if (w[0] == 0) | ((w[2] == 0) | ((w[1] == 0) & (w[17] != 0))) {
        0
    } else if w[18] != 0 {
        12
    } else {
        8
    }
}

// The levels of the clock and of the output pin.
pub fn levels(w: &[u16; 20]) -> u32
    ensures { result ≡ levels_number (ti_in w.now) }
{
    u32::from(weigh(w[16] != 0, 2) + output(w))
}

// The settings, and whether the module is in reset.
pub fn settings(w: &[u16; 20]) -> u32
    ensures { result ≡ settings_number (ti_in w.now) }
{
    u32::from(
        w[5] % 16
            + 1
            + weigh(w[4] != 0, 32)
            + weigh(w[3] != 0, 64)
            + weigh(w[2] != 0, 128)
            + weigh(w[1] != 0, 256)
            + weigh(w[0] == 0, 512),
    )
}

// The divider of a master's clock.
fn divider(spibrr: u32) -> u32
    ensures { result ≡ divider_of spibrr }
{
    (spibrr % 128).max(3) + 1
}

// The bit rate of a master: one division.
pub fn rate(spibrr: u32, lspclk: u32) -> f64
    ensures { result ≡ rate_of spibrr lspclk }
{
    f64::from(lspclk) / f64::from(divider(spibrr))
}
