// The audio card in memory: 40 numbers of 32 bits that a caller holds, since a sample has up to 32 bits. Each call changes the numbers that
// it must, and any numbers are answered.
#![tactic(auto)]

ghost use Rattle.std.specs.Prelude.{◌<◌, ◌≤◌, true, false, ◌≡◌, MatchResult};
ghost use Rattle.card_rules.specs.Settings.{shape_of};
ghost use Rattle.card_rules.specs.Card.{powered_up};
ghost use Rattle.card_rules.specs.Calls.{done, set_protocol_of, set_length_of, enable_of, disable_of, sample_of, write_of, read_of, clear_underrun_of, clear_overflow_of};
ghost use Rattle.card.specs.Memory.{protocol_in, bits_in, frame_in, length_number, settings_from, count_in, head_in, card_in, framed};
ghost use Rattle.card.specs.Rings.{Pushes, Pops};
ghost use Rattle.card.specs.Answered.{done_in, sample_in, Gives};

// Why a call is refused, with the papers' numbers.
#[derive(Clone, Copy, Debug, PartialEq, Eq)]
pub enum Refusal {
    Disabled = 2,
    Enabled = 3,
    TransmitFull = 5,
    ReceiveEmpty = 6,
    NotNamed = 23,
}

// The two rings, each a number since a const parameter is one: the samples waiting to be sent, and those received and not read.
pub const WAITING: usize = 0;

pub const UNREAD: usize = 1;

// A ring that holds eight samples takes no more.
#[derive(Clone, Copy, Debug, PartialEq, Eq)]
pub struct Full;

// Where a frame has its samples, in edges.
#[derive(Clone, Copy)]
pub struct Frame {
    pub first: u32,
    pub second: u32,
    pub lead: u32,
    pub last: u32,
    pub edges: u32,
    pub active: u32,
    pub rest: bool,
}

// The bits of a sample, and the clocks of a frame.
pub fn bits_of(code: u32) -> u32
    ensures bits { result ≡ bits_in code }
    ensures most { result ≤ 32 }
{
    match code / 4 % 4 {
        0 | 1 => 16,
        2 => 24,
        _ => 32,
    }
}

pub fn clocks_of(code: u32) -> u32
    ensures clocks { result ≡ frame_in code }
    ensures most { result ≤ 64 }
{
    match code / 4 % 4 {
        0 => 32,
        _ => 64,
    }
}

// The frame of the settings: that of left justified samples, and what the other protocols have otherwise.
pub fn frame_of(code: u32) -> Frame
    ensures { result ≡ framed (shape_of (settings_from code)) }
{
    let half = clocks_of(code);
    let sample = 2 * bits_of(code);
    let left = Frame {
        first: 0,
        second: half,
        lead: 0,
        last: sample,
        edges: 2 * half,
        active: half,
        rest: false,
    };
    match code % 4 {
        0 => Frame {
            first: 2,
            second: 2 + half,
            rest: true,
            ..left
        },
        1 => left,
        2 => Frame {
            lead: half - sample,
            last: half,
            ..left
        },
        _ => Frame {
            first: 2,
            second: 2 + sample,
            active: 2,
            ..left
        },
    }
}

// Refused while the card is disabled.
pub fn enabled(w: &[u32; 40]) -> Result<(), Refusal>
    ensures { MatchResult result (λ _. (head_in w.now).enabled ≡ true) (λ why. ((head_in w.now).enabled ≡ false) × (why ≡ Refusal.Disabled)) }
{
    match w[0] % 2 {
        0 => Err(Refusal::Disabled),
        _ => Ok(()),
    }
}

// Refused while it is enabled.
fn disabled(w: &[u32; 40]) -> Result<(), Refusal>
    ensures { MatchResult result (λ _. (head_in w.now).enabled ≡ false) (λ why. ((head_in w.now).enabled ≡ true) × (why ≡ Refusal.Enabled)) }
{
    match w[0] % 2 {
        0 => Ok(()),
        _ => Err(Refusal::Enabled),
    }
}

// How many samples a ring holds: any number counts as at most eight.
pub fn held(count: u32) -> u32
    ensures samples { result ≡ count_in count }
    ensures most { result ≤ 8 }
{
    count.min(8)
}

// A sample goes behind those of a ring.
pub fn push<const RING: usize>(w: &mut [u32; 40], sample: u32) -> Result<(), Full>
    ensures { Pushes RING sample w.old result w.new }
{
    let ring = RING.min(1);
    let count = w[14 + 2 * ring];
    if 8 <= count {
        return Err(Full);
    }
    let at = (w[13 + 2 * ring] % 8 + count) % 8;
    w[24 + 8 * ring + at as usize] = sample;
    w[14 + 2 * ring] = count + 1;
    Ok(())
}

// The first sample leaves a ring.
pub fn pop<const RING: usize>(w: &mut [u32; 40]) -> Option<u32>
    ensures { Pops RING w.old result w.new }
{
    let ring = RING.min(1);
    let count = held(w[14 + 2 * ring]);
    if count == 0 {
        return None;
    }
    let first = w[13 + 2 * ring] % 8;
    let sample = w[24 + 8 * ring + first as usize];
    w[13 + 2 * ring] = (first + 1) % 8;
    w[14 + 2 * ring] = count - 1;
    Some(sample)
}

// Every number is 0, whatever memory held before: a card that has just powered up.
pub fn power_up(w: &mut [u32; 40])
    ensures { card_in w.new ≡ powered_up }
{
    *w = [0; 40];
}

// The protocol by the low two bits of a number. It stays the number that C gives and memory holds: any number is one, by its low two bits.
pub fn set_protocol(w: &mut [u32; 40], protocol: u32) -> Result<(), Refusal>
    ensures { Gives (set_protocol_of (card_in w.old) (protocol_in protocol)) (done_in result) w.old w.new }
{
    disabled(w)?;
    w[1] = w[1] / 4 % 4 * 4 + protocol % 4;
    Ok(())
}

// The number of a length and frame, if they are named.
fn length_number(bits: u32, frame: u32) -> Option<u32>
    ensures { result ≡ length_number bits frame }
{
    match (bits, frame) {
        (16, 32) => Some(0),
        (16, 64) => Some(1),
        (24, 64) => Some(2),
        (32, 64) => Some(3),
        _ => None,
    }
}

// The bits of a sample and the clocks of a frame.
pub fn set_length(w: &mut [u32; 40], bits: u32, frame: u32) -> Result<(), Refusal>
    ensures { Gives (set_length_of (card_in w.old) bits frame) (done_in result) w.old w.new }
{
    disabled(w)?;
    let Some(length) = length_number(bits, frame) else {
        return Err(Refusal::NotNamed);
    };
    w[1] = length * 4 + w[1] % 4;
    Ok(())
}

// Enabling, which is never refused: SCK idle, LRCK inactive, SDO 0, nothing held.
pub fn enable(w: &mut [u32; 40])
    ensures { Gives (enable_of (card_in w.old)) done w.old w.new }
{
    if w[0] % 2 == 0 {
        let rest = u32::from(frame_of(w[1]).rest);
        w[0] = 1;
        w[2] = 0;
        w[3] = 0;
        w[8] = rest;
        w[9] = rest;
        w[10] = 0;
        w[14] = 0;
        w[16] = 0;
    }
}

// Disabling, which is never refused, empties the card; the pins and the flags stay.
pub fn disable(w: &mut [u32; 40])
    ensures { Gives (disable_of (card_in w.old)) done w.old w.new }
{
    if w[0] % 2 == 1 {
        w[0] = 0;
        w[2] = 0;
        w[3] = 0;
        w[14] = 0;
        w[16] = 0;
    }
}

// The bits of a sample that its length keeps.
fn cut(code: u32, v: u32) -> u32
    ensures { result ≡ sample_of (bits_in code) v }
{
    match code / 4 % 4 {
        0 | 1 => v % 65536,
        2 => v % 16777216,
        _ => v,
    }
}

// A sample waits to be sent.
pub fn write(w: &mut [u32; 40], v: u32) -> Result<(), Refusal>
    ensures { Gives (write_of (card_in w.old) v) (done_in result) w.old w.new }
{
    enabled(w)?;
    let sample = cut(w[1], v);
    push::<WAITING>(w, sample).map_err(|_| Refusal::TransmitFull)
}

// The first unread sample.
pub fn read(w: &mut [u32; 40]) -> Result<u32, Refusal>
    ensures { Gives (read_of (card_in w.old)) (sample_in result) w.old w.new }
{
    enabled(w)?;
    pop::<UNREAD>(w).ok_or(Refusal::ReceiveEmpty)
}

// Each flag is cleared by its own call. One function over the flag's place would be no plainer than these two stores.
pub fn clear_underrun(w: &mut [u32; 40])
    ensures { card_in w.new ≡ (clear_underrun_of (card_in w.old)).after }
{
    w[11] = 0;
}

pub fn clear_overflow(w: &mut [u32; 40])
    ensures { card_in w.new ≡ (clear_overflow_of (card_in w.old)).after }
{
    w[12] = 0;
}
