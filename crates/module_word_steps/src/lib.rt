// A word between the edges, in memory: it is written, loads, is finished, is read, and what SDO shows meanwhile. Only the
// parts that a step changes are stored.
#![tactic(auto)]

ghost use Rattle.std.specs.Prelude.{◌≡◌};
ghost use Rattle.module_rules.specs.Changes.{with_transmit, with_receive};
ghost use Rattle.module_rules.specs.Settings.{depth_of};
ghost use Rattle.module_rules.specs.Buffers.{written, departed, appended, taken};
ghost use Rattle.module_rules.specs.Interrupts.{raises, noted};
ghost use Rattle.module_rules.specs.Loading.{word_leaves, loaded, next_top, rested};
ghost use Rattle.module_rules.specs.Finish.{delivered, sent_dropped, freed, finished};
ghost use Rattle.module_rules.specs.Calls.{word_taken, word_written};
ghost use Rattle.module_memory.specs.Memory.{settings_in, engine_in, Steps};

use module_types::{Event, Settings, Shift};

// Steps are handed the depth that their caller has looked up, and look at settings where they need them: with both in one value, whose type says
// that they fit, a tick's last edge takes 203 instructions in place of 170 (bench/run --profile, x86-64), since settings are then kept in registers
// that are wanted for other things.

// Whether an event raises the interrupt flag.
fn raises(s: Settings, depth: u8, event: Event) -> bool
    requires { depth ≡ depth_of s }
    ensures { result ≡ raises s event }
{
    if !s.con2.spiben {
        return matches!(event, Event::Finished(_));
    }
    match event {
        Event::Taken(left) => (s.sisel == 0) & (left == 0),
        Event::Appended(left) => match s.sisel {
            1 => true,
            2 => 3 * depth as u16 / 4 <= left as u16,
            3 => left == depth,
            _ => false,
        },
        Event::Left(left) => match s.sisel {
            4 => left as u16 + 1 == depth as u16,
            6 => left == 0,
            _ => false,
        },
        Event::Finished(left) => (s.sisel == 5) & (left == 0),
        Event::Written(left) => (s.sisel == 7) & (left == depth),
    }
}

// What an event raises is noted.
fn note(w: &mut [u16; 96], depth: u8, event: Event)
    requires { depth ≡ depth_of (settings_in w.old) }
    ensures { Steps (λ s. noted s event) w.old w.new }
{
    if raises(module_memory_looks::settings_in(w), depth, event) {
        module_memory_stores::store_interrupt(w, true);
    }
}

// A word more in a buffer, or a word less: one position and one count are stored, and the word. Two of each, not one generic over where a
// buffer stands: each is a rule of its own buffer (written, appended, departed, taken), and the four instances would be as long.
fn push(w: &mut [u16; 96], depth: u8, word: u16)
    requires { depth ≡ depth_of (settings_in w.old) }
    ensures { Steps (λ s n. with_transmit (written (depth_of s) word n.transmit) n) w.old w.new }
{
    let count = module_memory_looks::waiting_in(w);
    if count < depth {
        let on = module_buffers::next_position(depth, module_memory_looks::cpu_write_in(w));
        module_memory_stores::store_written(w, word, on, count + 1);
    }
}

fn pop(w: &mut [u16; 96], depth: u8)
    requires { depth ≡ depth_of (settings_in w.old) }
    ensures { Steps (λ s n. with_transmit (departed (depth_of s) n.transmit) n) w.old w.new }
{
    let count = module_memory_looks::waiting_in(w);
    if 0 < count {
        let on = module_buffers::next_position(depth, module_memory_looks::spi_read_in(w));
        module_memory_stores::store_departed(w, on, count - 1);
    }
}

fn append(w: &mut [u16; 96], depth: u8, word: u16)
    requires { depth ≡ depth_of (settings_in w.old) }
    ensures { Steps (λ s n. with_receive (appended (depth_of s) word n.receive) n) w.old w.new }
{
    let count = module_memory_looks::unread_in(w);
    if count < depth {
        let on = module_buffers::next_position(depth, module_memory_looks::spi_write_in(w));
        module_memory_stores::store_appended(w, word, on, count + 1);
    }
}

fn fetch(w: &mut [u16; 96], depth: u8)
    requires { depth ≡ depth_of (settings_in w.old) }
    ensures { Steps (λ s n. with_receive (taken (depth_of s) n.receive) n) w.old w.new }
{
    let count = module_memory_looks::unread_in(w);
    if 0 < count {
        let on = module_buffers::next_position(depth, module_memory_looks::cpu_read_in(w));
        module_memory_stores::store_taken(w, on, count - 1);
    }
}

// The first waiting word leaves the transmit buffer.
fn leave(w: &mut [u16; 96], depth: u8)
    requires { depth ≡ depth_of (settings_in w.old) }
    ensures { Steps word_leaves w.old w.new }
{
    pop(w, depth);
    note(w, depth, Event::Left(module_memory_looks::waiting_in(w)));
}

// The first waiting word loads, if it can.
fn load(w: &mut [u16; 96], depth: u8)
    requires { depth ≡ depth_of (settings_in w.old) }
    ensures { Steps loaded w.old w.new }
{
    if !module_memory_looks::is_free(w) {
        return;
    }
    if module_memory_looks::waiting_in(w) == 0 {
        return;
    }
    if module_settings::ssen_client(module_memory_looks::settings_in(w)) {
        return;
    }
    let word = module_memory_looks::first_waiting_in(w);
    module_memory_stores::store_loaded(w, word);
    leave(w, depth);
}

// The top bit of the word to be sent next, false if there is none.
fn next_top(w: &[u16; 96], s: Settings) -> bool
    requires { s ≡ settings_in w.now }
    ensures { result ≡ next_top (settings_in w.now) (engine_in w.now).transmit (engine_in w.now).shift }
{
    match module_memory_looks::shift_in(w) {
        Shift::Free => {
            let count = module_memory_looks::waiting_in(w);
            let first = module_memory_looks::first_waiting_in(w);
            (module_settings::ssen_client(s) & !(count == 0)) & module_bits::top_bit(s, first)
        }
        Shift::Loaded(word) => module_bits::top_bit(s, word),
        Shift::Begun(_) => false,
    }
}

// With CKE 1 and no word begun SDO shows the top bit of the word to be sent next.
pub fn rest(w: &mut [u16; 96])
    ensures { Steps rested w.old w.new }
{
    let s = module_memory_looks::settings_in(w);
    if !module_settings::cke(s) {
        return;
    }
    if module_memory_looks::is_begun(w) {
        return;
    }
    let level = next_top(w, s);
    module_memory_stores::store_sdo(w, level);
}

// A word is accepted for sending.
pub fn accept_word(w: &mut [u16; 96], word: u16)
    ensures { Steps (λ s. word_written s word) w.old w.new }
{
    let depth = module_memory_looks::room_in(w);
    push(w, depth, word);
    load(w, depth);
    note(w, depth, Event::Written(module_memory_looks::waiting_in(w)));
    rest(w);
}

// A received word is appended. A full or marked buffer takes none: the word is lost, which sets SPIROV and in enhanced operation
// the mark.
fn deliver(w: &mut [u16; 96], depth: u8, word: u16)
    requires { depth ≡ depth_of (settings_in w.old) }
    ensures { Steps (λ s. delivered s word) w.old w.new }
{
    let marked = module_memory_looks::marked_in(w);
    if (depth <= module_memory_looks::unread_in(w)) | marked {
        module_memory_stores::store_mark(w, marked | module_memory_looks::con2_in(w).spiben);
        module_memory_stores::store_spirov(w, true);
    } else {
        append(w, depth, word);
        note(w, depth, Event::Appended(module_memory_looks::unread_in(w)));
    }
}

// An SSEN client drops the word that it sent, unless that was a filler.
fn drop_sent(w: &mut [u16; 96], depth: u8, filler: bool)
    requires { depth ≡ depth_of (settings_in w.old) }
    ensures { Steps (λ s. sent_dropped s filler) w.old w.new }
{
    if module_settings::ssen_client(module_memory_looks::settings_in(w)) & !filler {
        leave(w, depth);
    }
}

// The shift register is free after a finish.
fn free_after_finish(w: &mut [u16; 96], depth: u8)
    requires { depth ≡ depth_of (settings_in w.old) }
    ensures { Steps freed w.old w.new }
{
    module_memory_stores::store_free(w);
    note(
        w,
        depth,
        Event::Finished(module_memory_looks::waiting_in(w)),
    );
}

// A word's last edge.
pub fn finish(w: &mut [u16; 96], filler: bool, word: u16)
    ensures { Steps (λ s. finished s filler word) w.old w.new }
{
    let depth = module_memory_looks::room_in(w);
    deliver(w, depth, word);
    drop_sent(w, depth, filler);
    free_after_finish(w, depth);
    load(w, depth);
    rest(w);
}

// The first unread word is taken. The flag is always stored, also where it stays: of memory that no call has made a read leaves the flag as 0 or 1.
pub fn take_word(w: &mut [u16; 96])
    ensures { Steps word_taken w.old w.new }
{
    let depth = module_memory_looks::room_in(w);
    fetch(w, depth);
    let left = module_memory_looks::unread_in(w);
    let raised = raises(
        module_memory_looks::settings_in(w),
        depth,
        Event::Taken(left),
    );
    let flag = module_memory_looks::interrupt_in(w) | raised;
    module_memory_stores::store_interrupt(w, flag);
}
