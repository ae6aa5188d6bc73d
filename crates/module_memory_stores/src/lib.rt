// Stores to a module in memory: each puts a part into it and leaves all else. Power-up, and the memory of a module, are made of them.
#![tactic(auto)]

ghost use Rattle.std.specs.Prelude.{◌+◌, ◌%◌, ◌≤◌, ◌≡◌, [], ◌∷◌, ◌++◌, get_or};
ghost use Rattle.module_types.specs.declared.Shift.TheVariants.{Free, Loaded, Begun};
ghost use Rattle.module_rules.specs.Changes.{with_transmit, with_receive, with_shift, with_sck, with_ss, with_sdo, with_pulse, with_spirov, with_interrupt};
ghost use Rattle.module_rules.specs.Registers.{con1_from, con2_from, stat_settings};
ghost use Rattle.module_rules.specs.Calls.{powered_at, powered_up, with_con1, with_con2};
ghost use Rattle.module_memory.specs.Memory.{depth_in, module_in, gone_on, with_mark, pushed, popped, arrived, fetched, Steps, Sets};
ghost use Rattle.laws.specs.Writes.{at, writes};
ghost use Rattle.module_memory.specs.Writes.{words_written};

use module_buffers::{RECEIVE, TRANSMIT};
use module_types::{Depth, Engine, Module, Progress, Receive, Settings, Shift, Transmit};

// A depth as a number: 8 is 0. No From: it would stand below depth_in, which this promises.
fn depth_number(depth: Depth) -> u16
    ensures { depth_in result ≡ depth }
{
    match depth {
        Depth::Four => 4,
        Depth::Eight => 0,
        Depth::Sixteen => 16,
    }
}

// Every number is 0, whatever memory held before: a module that has just powered up.
pub fn power_up(w: &mut [u16; 96])
    ensures { module_in w.new ≡ powered_up }
{
    *w = [0; 96];
}

// The same with a depth.
pub fn power_up_at(w: &mut [u16; 96], depth: Depth)
    ensures { module_in w.new ≡ powered_at depth }
{
    *w = [0; 96];
    w[6] = depth_number(depth);
}

// What a STAT write sets.
pub fn store_stat(w: &mut [u16; 96], v: u16)
    ensures { Sets (stat_settings v) w.old w.new }
{
    w[0] = v;
    w[1] = v / 4 % 8;
}

// CON1 as written.
pub fn store_con1(w: &mut [u16; 96], v: u16)
    ensures { Sets (λ s. with_con1 s (con1_from v)) w.old w.new }
{
    w[2] = v;
    w[3] = v / 4 % 8;
    w[4] = v % 4;
}

// CON2 as written.
pub fn store_con2(w: &mut [u16; 96], v: u16)
    ensures { Sets (λ s. with_con2 s (con2_from v)) w.old w.new }
{
    w[5] = v;
}

// The buffer that stands from AT on. AT is a constant, so that the bound which each of these three asks is one between numbers: no type would be
// plainer.
fn store_buffer<const AT: usize>(
    w: &mut [u16; 96],
    words: &[u16; 16],
    write: u8,
    read: u8,
    count: u8,
)
    requires { AT + 19 ≤ 96 }
    ensures { w.new ≡ writes w.old (words_written AT words.now ++ (at (AT + 16) write ∷ at (AT + 17) read ∷ at (AT + 18) count ∷ [])) }
{
    w[AT..AT + 16].copy_from_slice(words);
    w[AT + 16] = write as u16;
    w[AT + 17] = read as u16;
    w[AT + 18] = count as u16;
}

// A word at its write position, which moves on, and another count. No other word is touched.
fn store_entered<const AT: usize>(w: &mut [u16; 96], word: u16, on: u8, count: u8)
    requires { AT + 19 ≤ 96 }
    ensures { w.new ≡ writes w.old (at (AT + get_or w.old (AT + 16) 0 % 16) word ∷ at (AT + 16) on ∷ at (AT + 18) count ∷ []) }
{
    let at = (w[AT + 16] % 16) as usize;
    w[AT + at] = word;
    w[AT + 16] = on as u16;
    w[AT + 18] = count as u16;
}

// Its read position moved on, and another count.
fn store_left<const AT: usize>(w: &mut [u16; 96], on: u8, count: u8)
    requires { AT + 19 ≤ 96 }
    ensures { w.new ≡ writes w.old (at (AT + 17) on ∷ at (AT + 18) count ∷ []) }
{
    w[AT + 17] = on as u16;
    w[AT + 18] = count as u16;
}

// The transmit buffer: the whole, a word more, and a word less.
pub fn store_transmit(w: &mut [u16; 96], t: Transmit)
    ensures { Steps (λ _. with_transmit t) w.old w.new }
{
    store_buffer::<TRANSMIT>(w, &t.words, t.write.0, t.read.0, t.count);
}

pub fn store_written(w: &mut [u16; 96], word: u16, on: u8, count: u8)
    ensures { Steps (λ _ n. with_transmit (pushed word on count n.transmit) n) w.old w.new }
{
    store_entered::<TRANSMIT>(w, word, on, count);
}

pub fn store_departed(w: &mut [u16; 96], on: u8, count: u8)
    ensures { Steps (λ _ n. with_transmit (popped on count n.transmit) n) w.old w.new }
{
    store_left::<TRANSMIT>(w, on, count);
}

// The receive buffer: the whole and its mark, a word more, and a word less.
pub fn store_receive(w: &mut [u16; 96], r: Receive)
    ensures { Steps (λ _. with_receive r) w.old w.new }
{
    store_buffer::<RECEIVE>(w, &r.words, r.write.0, r.read.0, r.count);
    w[75] = r.marked as u16;
}

pub fn store_appended(w: &mut [u16; 96], word: u16, on: u8, count: u8)
    ensures { Steps (λ _ n. with_receive (arrived word on count n.receive) n) w.old w.new }
{
    store_entered::<RECEIVE>(w, word, on, count);
}

pub fn store_taken(w: &mut [u16; 96], on: u8, count: u8)
    ensures { Steps (λ _ n. with_receive (fetched on count n.receive) n) w.old w.new }
{
    store_left::<RECEIVE>(w, on, count);
}

// The mark of the receive buffer: its words stay where they are.
pub fn store_mark(w: &mut [u16; 96], marked: bool)
    ensures { Steps (λ _. with_mark marked) w.old w.new }
{
    w[75] = marked as u16;
}

// A shift register with no word.
pub fn store_free(w: &mut [u16; 96])
    ensures { Steps (λ _. with_shift Free) w.old w.new }
{
    w[64] = 0;
}

// A loaded word.
pub fn store_loaded(w: &mut [u16; 96], word: u16)
    ensures { Steps (λ _. with_shift (Loaded word)) w.old w.new }
{
    w[64] = 1;
    w[66] = word;
}

// A begun word.
pub fn store_begun(w: &mut [u16; 96], p: Progress)
    ensures { Steps (λ _. with_shift (Begun p)) w.old w.new }
{
    w[64] = 2;
    w[65] = p.filler as u16;
    w[66] = p.word;
    w[67] = p.edges as u16;
    w[68] = p.received;
}

// The edges and the received bits of a begun word.
pub fn store_gone(w: &mut [u16; 96], edges: u8, received: u16)
    ensures { Steps (λ _. gone_on edges received) w.old w.new }
{
    w[67] = edges as u16;
    w[68] = received;
}

// The level of SCK. Each level and flag has a store of its own, one line long, and none is generic over its place: an instance would be as long.
pub fn store_sck(w: &mut [u16; 96], sck: bool)
    ensures { Steps (λ _. with_sck sck) w.old w.new }
{
    w[69] = sck as u16;
}

// The level of SS.
pub fn store_ss(w: &mut [u16; 96], ss: bool)
    ensures { Steps (λ _. with_ss ss) w.old w.new }
{
    w[70] = ss as u16;
}

// The level of SDO.
pub fn store_sdo(w: &mut [u16; 96], sdo: bool)
    ensures { Steps (λ _. with_sdo sdo) w.old w.new }
{
    w[71] = sdo as u16;
}

// Whether a frame pulse stands.
pub fn store_pulse(w: &mut [u16; 96], pulse: bool)
    ensures { Steps (λ _. with_pulse pulse) w.old w.new }
{
    w[74] = pulse as u16;
}

// SPIROV.
pub fn store_spirov(w: &mut [u16; 96], spirov: bool)
    ensures { Steps (λ _. with_spirov spirov) w.old w.new }
{
    w[72] = spirov as u16;
}

// The interrupt flag.
pub fn store_interrupt(w: &mut [u16; 96], flag: bool)
    ensures { Steps (λ _. with_interrupt flag) w.old w.new }
{
    w[73] = flag as u16;
}

// All settings, of any record.
fn store_settings(w: &mut [u16; 96], s: Settings)
    ensures { Sets (λ _. s) w.old w.new }
{
    w[0] = lent::weigh(s.spien, 32768) + lent::weigh(s.spisidl, 8192);
    w[1] = s.sisel as u16;
    w[2] = module_registers::con1_value(s.con1);
    w[3] = s.con1.spre as u16;
    w[4] = s.con1.ppre as u16;
    w[5] = module_registers::con2_value(s.con2);
    w[6] = depth_number(s.depth);
}

// A shift register in any state.
fn store_shift(w: &mut [u16; 96], shift: Shift)
    ensures { Steps (λ _. with_shift shift) w.old w.new }
{
    match shift {
        Shift::Free => store_free(w),
        Shift::Loaded(word) => store_loaded(w, word),
        Shift::Begun(p) => store_begun(w, p),
    }
}

// A whole engine.
fn store_engine(w: &mut [u16; 96], n: Engine)
    ensures { Steps (λ _ _. n) w.old w.new }
{
    store_transmit(w, n.transmit);
    store_receive(w, n.receive);
    store_shift(w, n.shift);
    store_sck(w, n.pins.sck);
    store_ss(w, n.pins.ss);
    store_sdo(w, n.pins.sdo);
    store_pulse(w, n.pins.pulse);
    store_spirov(w, n.spirov);
    store_interrupt(w, n.interrupt);
}

// Memory that holds a module.
pub fn memory_of(m: Module) -> [u16; 96]
    ensures { module_in result ≡ m }
{
    let mut w = [0; 96];
    store_settings(&mut w, m.settings);
    store_engine(&mut w, m.engine);
    w
}
