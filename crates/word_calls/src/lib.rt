// A word at a time, over a module in memory: all edges of the word under way, or of the next one, are made at once where the definition makes
// them one by one. Any numbers are answered.
#![tactic(auto)]

ghost use Rattle.std.specs.Prelude.{◌+◌, ◌*◌, ◌%◌, ◌^◌, ◌<◌, ◌≤◌, true, false, ◌≡◌};
ghost use Rattle.word_order.specs.Bits.{bit_of};
ghost use Rattle.module_rules.specs.Changes.{with_sdo};
ghost use Rattle.module_rules.specs.Finish.{finished};
ghost use Rattle.module_rules.specs.Edge.{word_edges};
ghost use Rattle.module_memory.specs.Memory.{settings_in, engine_in, module_in, Steps};
ghost use Rattle.word_rules.specs.Word.{current, resting, has_word, idle_first, bits_left, step_level, one_step, word_of, words_in, edges_in, edges_owed};
ghost use Rattle.word_rules.proofs.Closed.{last_sdo, all_levels, remembered, readied};
ghost use Rattle.word_begins.specs.Beginning.{between, at_start, levels_first};
ghost use Rattle.word_calls.specs.Speaking.{Speaks, word_number, WordTells, next_number};

use module_types::{Answer, Progress, Settings, Shift};

// What a word call answers: as its first clock step does, how many levels SDO had where it is sampled, and those levels as a number.
#[derive(Clone, Copy)]
pub struct Spoken {
    pub answer: Answer,
    pub count: u8,
    pub levels: u32,
}

impl Spoken {
    // The answer as one number, as the C call hands it out.
    fn number(self) -> u32
        ensures { result ≡ word_number self.answer self.count self.levels }
    {
        let told = self.levels % 65536 + (self.count % 32) as u32 * 16777216;
        match self.answer {
            Answer::Refused(r) => module_looks::refusal_number(r) as u32 * 65536,
            Answer::NoEdge => 536870912,
            Answer::Done | Answer::Value(_) | Answer::Edge => told,
        }
    }
}

// The bits of a word that are not sampled after so many edges.
fn bits_left(s: Settings, edges: u8) -> u8
    ensures { (result ≡ bits_left s edges) × (result ≤ 16) }
{
    let gone = (edges as u16 + module_settings::cke(s) as u16) / 2;
    (module_settings::width(s) as u16).saturating_sub(gone) as u8
}

// The low bits of a number behind another one.
fn behind(x: u16, n: u8, v: u16) -> u32
    requires { n ≤ 16 }
    ensures { result ≡ x * 2 ^ n + v % 2 ^ n }
{
    let unit = 1u32 << n;
    x as u32 * unit + v as u32 % unit
}

// The levels of SDO at the edges that sample: the one that stands now, if the next edge does, and then the bits of the word.
fn levels_left(s: Settings, p: Progress, left: u8, sdo: bool) -> u32
    requires { (left ≡ bits_left s p.edges) × (left ≤ 16) × (p.edges < word_edges s) }
    ensures { result ≡ all_levels s p sdo }
{
    if module_bits::is_sampling(module_settings::cke(s), p.edges as u16 + 1) {
        return behind(sdo as u16, left - 1, p.word);
    }
    behind(0, left, p.word)
}

// SDO after the last edge but one.
fn last_sdo(s: Settings, p: Progress, sdo: bool) -> bool
    ensures { result ≡ last_sdo s p.word p.edges sdo }
{
    let late = module_settings::cke(s) as u16;
    if p.edges as u16 + 1 + late < 2 * module_settings::width(s) as u16 {
        return module_bits::bit(p.word, 0);
    }
    sdo
}

// The word that the next edges belong to: the one begun, else the one that would begin; where there is none its numbers do not count.
pub fn current_in(w: &[u16; 96]) -> Progress
    ensures { result ≡ current (settings_in w.now) (engine_in w.now) }
{
    module_edges::begun_in(w).unwrap_or(module_edges::fresh(false, 0))
}

// Whether nothing is to be clocked.
fn is_resting(w: &[u16; 96], ss: bool) -> bool
    ensures { result ≡ resting (settings_in w.now) ss (engine_in w.now) }
{
    let s = module_memory_looks::settings_in(w);
    module_settings::is_deselected(s, ss)
        | (module_settings::is_silent(s) & module_memory_looks::is_free(w))
}

// Whether the edges of a word can be made at once.
fn has_word(w: &[u16; 96], ss: bool) -> bool
    ensures { result ≡ has_word (module_in w.now) ss }
{
    let s = module_memory_looks::settings_in(w);
    if !s.spien {
        return false;
    }
    if module_settings::is_framed(s) {
        return false;
    }
    if is_resting(w, ss) {
        return false;
    }
    let p = current_in(w);
    (p.edges as u16) < 2 * module_settings::width(s) as u16
}

// Whether an edge to the idle level comes first.
fn idle_first(w: &[u16; 96]) -> bool
    ensures { result ≡ idle_first (settings_in w.now) (engine_in w.now) }
{
    let s = module_memory_looks::settings_in(w);
    let pins = module_memory_looks::pins_in(w);
    !module_memory_looks::is_begun(w) & (pins.sck != s.con1.ckp)
}

// The select level is remembered, but by a host with its own clock.
fn hear(w: &mut [u16; 96], ss: bool)
    ensures { Steps (λ s. remembered s ss) w.old w.new }
{
    let s = module_memory_looks::settings_in(w);
    if module_settings::own_clock(s) {
        return;
    }
    module_memory_stores::store_ss(w, ss);
}

// The module where its word goes on or begins.
fn make_ready(w: &mut [u16; 96], ss: bool)
    ensures { Steps (λ s. readied s ss) w.old w.new }
{
    let idle = idle_first(w);
    let pins = module_memory_looks::pins_in(w);
    hear(w, ss);
    if idle {
        module_memory_stores::store_sck(w, !pins.sck);
    }
}

// All edges of a word.
fn make_word(w: &mut [u16; 96], ss: bool, word: u16) -> Spoken
    requires { has_word (module_in w.old) ss ≡ true }
    ensures { Speaks (word_of (module_in w.old) ss word) result.answer result.count result.levels w.old w.new }
{
    let s = module_memory_looks::settings_in(w);
    let p = current_in(w);
    let sdo = module_memory_looks::pins_in(w).sdo;
    let left = bits_left(s, p.edges);
    let levels = levels_left(s, p, left, sdo);
    let last = last_sdo(s, p, sdo);
    let received = behind(p.received, left, word) % 65536;
    make_ready(w, ss);
    let sck = module_memory_looks::pins_in(w).sck;
    module_memory_stores::store_sck(w, (p.edges % 2 == 0) == sck);
    module_memory_stores::store_sdo(w, last);
    module_word_steps::finish(w, p.filler, received as u16);
    Spoken {
        answer: Answer::Done,
        count: left,
        levels,
    }
}

// From a word's beginning: whether no word is begun and SCK is at the idle level.
pub fn is_between(w: &[u16; 96]) -> bool
    ensures { result ≡ between (module_in w.now) }
{
    let s = module_memory_looks::settings_in(w);
    let pins = module_memory_looks::pins_in(w);
    !module_memory_looks::is_begun(w) & (pins.sck == s.con1.ckp)
}

// The levels of SDO where its edges sample: its bits, but that with CKE 1 the first level stands before the first edge.
pub fn levels_first(s: Settings, word: u16, sdo: bool) -> u16
    ensures { result ≡ levels_first s word sdo }
{
    if !module_settings::cke(s) {
        return module_bits::low_bits(s, word);
    }
    let top = 1u32 << (module_settings::width(s) - 1);
    (word as u32 % top + sdo as u32 * top) as u16
}

// All its edges: SCK is where it was, SDO at the lowest bit, and these bits are received.
pub fn make_first(w: &mut [u16; 96], filler: bool, word: u16, received: u16)
    ensures { Steps (λ s n. finished s filler received (with_sdo (bit_of word 0) n)) w.old w.new }
{
    module_memory_stores::store_sdo(w, module_bits::bit(word, 0));
    module_word_steps::finish(w, filler, received);
}

// Whether a host with its own clock is there with a word to send.
fn is_at_start(w: &[u16; 96]) -> bool
    ensures { result ≡ at_start (module_in w.now) }
{
    let s = module_memory_looks::settings_in(w);
    let host = s.spien & (module_settings::own_clock(s) & !module_settings::is_framed(s));
    host & (!module_memory_looks::is_free(w) & is_between(w))
}

// Its word call, which asks less than that of any other module; the select level does not count.
fn told_first(w: &mut [u16; 96], ss: bool, incoming: u16) -> u32
    requires { at_start (module_in w.old) ≡ true }
    ensures { WordTells (word_of (module_in w.old) ss incoming) result w.old w.new }
{
    let s = module_memory_looks::settings_in(w);
    let p = current_in(w);
    let sdo = module_memory_looks::pins_in(w).sdo;
    let levels = levels_first(s, p.word, sdo);
    let received = module_bits::low_bits(s, incoming);
    let count = module_settings::width(s);
    make_first(w, p.filler, p.word, received);
    levels as u32 + count as u32 * 16777216
}

// The level of SCK in the one step that any other module makes.
fn step_level(w: &[u16; 96], ss: bool) -> bool
    ensures { result ≡ step_level (module_in w.now) ss }
{
    let s = module_memory_looks::settings_in(w);
    let pins = module_memory_looks::pins_in(w);
    if !module_settings::is_framed(s) & is_resting(w, ss) {
        pins.sck
    } else {
        !pins.sck
    }
}

// That step.
fn make_step(w: &mut [u16; 96], ss: bool, word: u16) -> Spoken
    ensures { Speaks (one_step (module_in w.old) ss word) result.answer result.count result.levels w.old w.new }
{
    let s = module_memory_looks::settings_in(w);
    let pins = module_memory_looks::pins_in(w);
    let shows = s.spien & module_settings::is_framed(s);
    let sck = step_level(w, ss);
    let answer = module_edges::clock_step(w, sck, module_bits::bit(word, 0), ss);
    Spoken {
        answer,
        count: shows as u8,
        levels: (shows & pins.sdo) as u32,
    }
}

// A word call, with the select level and the caller's word.
fn word(w: &mut [u16; 96], ss: bool, word: u16) -> Spoken
    ensures { Speaks (word_of (module_in w.old) ss word) result.answer result.count result.levels w.old w.new }
{
    if has_word(w, ss) {
        return make_word(w, ss, word);
    }
    make_step(w, ss, word)
}

// The call answered by that number.
pub fn told(w: &mut [u16; 96], ss: bool, incoming: u16) -> u32
    ensures { WordTells (word_of (module_in w.old) ss incoming) result w.old w.new }
{
    if is_at_start(w) {
        return told_first(w, ss, incoming);
    }
    word(w, ss, incoming).number()
}

// The word that would go out next, if any, as one number: the C call hands it out.
pub fn next(w: &[u16; 96]) -> u32
    ensures { result ≡ next_number (module_in w.now) }
{
    let s = module_memory_looks::settings_in(w);
    if !s.spien {
        return 0;
    }
    if module_settings::is_silent(s) & module_memory_looks::is_free(w) {
        return 0;
    }
    let p = current_in(w);
    if p.filler {
        return 0;
    }
    65536 + p.word as u32
}

// The edges that an unframed host with its own clock still makes until it is idle.
fn words_in(shift: Shift) -> u32
    ensures { (result ≡ words_in shift) × (result ≤ 1) }
{
    match shift {
        Shift::Free => 0,
        Shift::Loaded(_) => 1,
        Shift::Begun(p) => !p.filler as u32,
    }
}

fn edges_in(shift: Shift) -> u32
    ensures { (result ≡ edges_in shift) × (result ≤ 255) }
{
    match shift {
        Shift::Free | Shift::Loaded(_) => 0,
        Shift::Begun(p) => p.edges as u32,
    }
}

pub fn edges_owed(w: &[u16; 96]) -> u32
    ensures { result ≡ edges_owed (module_in w.now) }
{
    let s = module_memory_looks::settings_in(w);
    let shift = module_memory_looks::shift_in(w);
    if !(s.spien & (module_settings::own_clock(s) & !module_settings::is_framed(s))) {
        return 0;
    }
    let words = words_in(shift) + module_memory_looks::waiting_in(w) as u32;
    let all = 2 * module_settings::width(s) as u32 * words;
    all.saturating_sub(edges_in(shift))
}
