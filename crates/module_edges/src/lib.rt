// The edges of one module in memory, by what each finds in the shift register, and the clock step over them. Any numbers are answered.
#![tactic(auto)]

ghost use Rattle.std.specs.Prelude.{true, false, ◌≡◌};
ghost use Rattle.laws.specs.Choice.{when◌then◌else◌};
ghost use Rattle.module_types.specs.declared.Shift.TheVariants.{Free};
ghost use Rattle.module_types.specs.declared.Answer.TheVariants.{Done, Edge};
ghost use Rattle.module_rules.specs.Changes.{with_pulse};
ghost use Rattle.module_rules.specs.Settings.{framed, frame_client, cke_of, ssen_client};
ghost use Rattle.module_rules.specs.Loading.{is_begun};
ghost use Rattle.module_rules.specs.Select.{deselected, select_remembered, select_seen};
ghost use Rattle.module_rules.specs.Edge.{fresh, begun, advanced, advanced_if_begun, pulse_due, pulse_after, levels, stepped};
ghost use Rattle.module_rules.specs.Calls.{clock_step_of, tick_of, pins_of};
ghost use Rattle.module_memory.specs.Memory.{settings_in, engine_in, module_in, Steps};
ghost use Rattle.module_edges.specs.Beginning.{shift_of};
ghost use Rattle.module_answers.specs.Answered.{Answers, Made, edge_advanced, edge_counted, turned, begins_none, First};

use module_types::{Answer, Progress, Refusal, Settings, Shift};

// A word at its beginning: no edge given, nothing received.
pub fn fresh(filler: bool, word: u16) -> Progress
    ensures { result ≡ fresh filler word }
{
    Progress {
        filler,
        word,
        edges: 0,
        received: 0,
    }
}

// What is begun where no word is loaded: nothing of a silent module, the first waiting word of an SSEN client if there is one, else a filler.
fn beginning(w: &[u16; 96]) -> Option<Progress>
    ensures { shift_of result ≡ begun (settings_in w.now) (engine_in w.now) Free }
{
    let s = module_memory_looks::settings_in(w);
    if module_settings::is_silent(s) {
        return None;
    }
    let count = module_memory_looks::waiting_in(w);
    let first = module_memory_looks::first_waiting_in(w);
    if module_settings::ssen_client(s) & (count != 0) {
        return Some(fresh(false, first));
    }
    Some(fresh(true, 0))
}

// What an edge that may begin a word goes on with: the begun word, else the loaded one, else what begins with none loaded.
pub fn begun_in(w: &[u16; 96]) -> Option<Progress>
    ensures { shift_of result ≡ begun (settings_in w.now) (engine_in w.now) (engine_in w.now).shift }
{
    match module_memory_looks::shift_in(w) {
        Shift::Free => beginning(w),
        Shift::Loaded(word) => Some(fresh(false, word)),
        Shift::Begun(p) => Some(p),
    }
}

// The first edge of a word, by CKE as the edge rules see it: the word begins, and SDI is sampled or SDO shows its top bit.
// CKE is handed on by a `requires` and in no type: it is a fact of memory that these functions change, and a struct of both would prove it anew
// after each store.
fn begin(w: &mut [u16; 96], sdi: bool, cke: bool, filler: bool, word: u16)
    requires { cke ≡ cke_of (settings_in w.old) }
    ensures { Steps (λ s. advanced s sdi (fresh filler word)) w.old w.new }
{
    let s = module_memory_looks::settings_in(w);
    let received = if cke {
        module_bits::shift_in(0, sdi)
    } else {
        0
    };
    let p = Progress {
        filler,
        word,
        edges: 1,
        received,
    };
    module_memory_stores::store_begun(w, p);
    if !cke {
        let sdo = module_bits::top_bit(s, word);
        module_memory_stores::store_sdo(w, sdo);
    }
}

// One edge of the word that is begun, by CKE as the edge rules see it: it samples SDI or changes SDO, and the last one
// finishes the word.
fn go_on(w: &mut [u16; 96], sdi: bool, cke: bool)
    requires { (is_begun (engine_in w.old).shift ≡ true) × (cke ≡ cke_of (settings_in w.old)) }
    ensures { Steps (λ s n. advanced_if_begun s sdi n.shift n) w.old w.new }
{
    let s = module_memory_looks::settings_in(w);
    let p = module_memory_looks::progress_in(w);
    let edge = p.edges as u16 + 1;
    let last = 2 * module_settings::width(s) as u16;
    if module_bits::is_sampling(cke, edge) {
        let received = module_bits::shift_in(p.received, sdi);
        if edge < last {
            module_memory_stores::store_gone(w, edge as u8, received);
        } else {
            module_word_steps::finish(w, p.filler, received);
        }
    } else if edge < last {
        let sdo = module_bits::bit(p.word, (last - 1 - edge) / 2);
        module_memory_stores::store_gone(w, edge as u8, p.received);
        module_memory_stores::store_sdo(w, sdo);
    } else {
        module_word_steps::finish(w, p.filler, p.received);
    }
}

// An edge to the level `sck` with no word begun before it. It is handed whether it begins none, and CKE as the edge rules see it.
fn first_edge(w: &mut [u16; 96], sck: bool, sdi: bool, none: bool, cke: bool)
    requires { First w.old sck none cke × (is_begun (engine_in w.old).shift ≡ false) }
    ensures { Steps (λ s. edge_advanced s sck sdi) w.old w.new }
{
    module_memory_stores::store_sck(w, sck);
    if none {
        return;
    }
    if let Some(p) = begun_in(w) {
        begin(w, sdi, cke, p.filler, p.word);
    }
}

// Whether a frame host gives a pulse from a transmit edge on, by what is under way after it and how many words wait.
fn pulse_due(s: Settings, count: u8, shift: Shift) -> bool
    ensures { result ≡ pulse_due s count shift }
{
    match shift {
        Shift::Free => false,
        Shift::Loaded(_) => !s.con2.frmdly,
        Shift::Begun(p) => {
            if s.con2.frmdly {
                p.edges == 1
            } else {
                (p.edges as u16 + 1 == 2 * module_settings::width(s) as u16) & (count != 0)
            }
        }
    }
}

// Whether a pulse stands after an edge to the level `sck` of a framed module.
fn pulse_after(w: &[u16; 96], sck: bool) -> bool
    ensures { result ≡ pulse_after (settings_in w.now) sck (engine_in w.now) }
{
    let s = module_memory_looks::settings_in(w);
    let pins = module_memory_looks::pins_in(w);
    if sck == s.con1.ckp {
        if s.con2.spifsd {
            return (pins.ss == s.con2.frmpol) & !module_memory_looks::is_begun(w);
        }
        return pins.pulse;
    }
    let count = module_memory_looks::waiting_in(w);
    let shift = module_memory_looks::shift_in(w);
    !s.con2.spifsd & pulse_due(s, count, shift)
}

// The end of an edge to the level `sck` of a framed module: its pulse.
fn pulse_edge(w: &mut [u16; 96], sck: bool)
    ensures { Steps (λ s n. with_pulse (pulse_after s sck n) n) w.old w.new }
{
    let pulse = pulse_after(w, sck);
    module_memory_stores::store_pulse(w, pulse);
}

// Whether an edge to the level `sck` of a framed module begins no word: it goes to the idle level, or a pulse is awaited.
fn begins_none(w: &[u16; 96], sck: bool) -> bool
    ensures { result ≡ begins_none (settings_in w.now) sck (engine_in w.now) }
{
    let s = module_memory_looks::settings_in(w);
    let pins = module_memory_looks::pins_in(w);
    (sck == s.con1.ckp) | ((s.con2.frmen & (s.con2.spifsd | !s.con2.frmdly)) & !pins.pulse)
}

// An edge to the level `sck` of a framed module: its pulse comes last.
// Two functions and not one that is handed the role, which would ask for CKE of a framed module and for pulses of an unframed one (docs/SPEED.md).
fn framed_edge(w: &mut [u16; 96], sck: bool, sdi: bool)
    requires { framed (settings_in w.old) ≡ true }
    ensures { Steps (λ s. edge_counted s sck sdi) w.old w.new }
{
    if module_memory_looks::is_begun(w) {
        module_memory_stores::store_sck(w, sck);
        go_on(w, sdi, false);
        pulse_edge(w, sck);
    } else {
        let none = begins_none(w, sck);
        first_edge(w, sck, sdi, none, false);
        pulse_edge(w, sck);
    }
}

// An edge to the level `sck` of an unframed module that is not deselected.
fn plain_edge(w: &mut [u16; 96], sck: bool, sdi: bool)
    requires { framed (settings_in w.old) ≡ false }
    ensures { Steps (λ s. edge_counted s sck sdi) w.old w.new }
{
    let s = module_memory_looks::settings_in(w);
    if module_memory_looks::is_begun(w) {
        module_memory_stores::store_sck(w, sck);
        go_on(w, sdi, s.con1.cke);
    } else {
        first_edge(w, sck, sdi, sck == s.con1.ckp, s.con1.cke);
    }
}

// An edge to the level `sck` of a module that is not deselected.
pub fn edge(w: &mut [u16; 96], sck: bool, sdi: bool)
    ensures { Steps (λ s. edge_counted s sck sdi) w.old w.new }
{
    let s = module_memory_looks::settings_in(w);
    if module_settings::is_framed(s) {
        framed_edge(w, sck, sdi);
    } else {
        plain_edge(w, sck, sdi);
    }
}

// An SSEN client sees its select level high, which aborts the begun word.
fn deselect(w: &mut [u16; 96])
    requires { ssen_client (settings_in w.old) ≡ true }
    ensures { Steps (λ s. select_seen s true) w.old w.new }
{
    let begun = module_memory_looks::is_begun(w);
    module_memory_stores::store_ss(w, true);
    if begun {
        module_memory_stores::store_free(w);
        module_word_steps::rest(w);
    }
}

// The levels SCK, SDI and SS are seen by a module that this SS does not deselect.
fn see_selected(w: &mut [u16; 96], sck: bool, sdi: bool, ss: bool)
    requires { deselected (settings_in w.old) ss ≡ false }
    ensures { Steps (λ s. stepped s (levels sck sdi ss)) w.old w.new }
{
    let before = module_memory_looks::pins_in(w);
    module_memory_stores::store_ss(w, ss);
    if sck == before.sck {
        return;
    }
    edge(w, sck, sdi);
}

// The levels SCK and SDI are seen with SS high. An SSEN client is deselected: an edge only updates the remembered level.
fn see_high(w: &mut [u16; 96], sck: bool, sdi: bool)
    ensures { Steps (λ s. stepped s (levels sck sdi true)) w.old w.new }
{
    let s = module_memory_looks::settings_in(w);
    if module_settings::ssen_client(s) {
        deselect(w);
        module_memory_stores::store_sck(w, sck);
    } else {
        see_selected(w, sck, sdi, true);
    }
}

// The levels SCK, SDI and SS are seen. Three parameters and no struct: the C calls and Call::Pin hand them over so, a tick has two of them, and a
// struct would be taken apart at once.
pub fn see_any(w: &mut [u16; 96], sck: bool, sdi: bool, ss: bool)
    ensures { Steps (λ s. stepped s (levels sck sdi ss)) w.old w.new }
{
    if ss {
        see_high(w, sck, sdi);
    } else {
        see_selected(w, sck, sdi, false);
    }
}

// The select level that a host with its own clock is told is remembered by a frame client alone.
fn hear_select(w: &mut [u16; 96], ss: bool)
    ensures { Steps (λ s n. when frame_client s then select_remembered ss n else n) w.old w.new }
{
    let s = module_memory_looks::settings_in(w);
    if module_settings::is_frame_client(s) {
        module_memory_stores::store_ss(w, ss);
    }
}

// A tick of an unframed host with its own clock that has a word: whether it was made. Two edges of a word, its first and its last, come here.
pub fn own_edge(w: &mut [u16; 96], sdi: bool, ss: bool) -> bool
    ensures { Made (tick_of (module_in w.old) sdi ss) Edge result w.old w.new }
{
    let s = module_memory_looks::settings_in(w);
    if !(s.spien & !module_settings::is_framed(s))
        || !module_settings::own_clock(s)
        || module_memory_looks::is_free(w)
    {
        return false;
    }
    let pins = module_memory_looks::pins_in(w);
    plain_edge(w, !pins.sck, sdi);
    true
}

// A pin call with SS low that is an edge of an unframed module: whether it was made.
pub fn low_edge(w: &mut [u16; 96], sck: bool, sdi: bool, ss: bool) -> bool
    ensures { Made (pins_of (module_in w.old) sck sdi ss) Done result w.old w.new }
{
    if ss {
        return false;
    }
    let s = module_memory_looks::settings_in(w);
    if !(s.spien & !module_settings::is_framed(s))
        || module_settings::own_clock(s)
        || sck == module_memory_looks::pins_in(w).sck
    {
        return false;
    }
    module_memory_stores::store_ss(w, ss);
    plain_edge(w, sck, sdi);
    true
}

// A clock step, with the levels SCK, SDI and SS. A host with its own clock makes its next edge, or none if it is unframed and no word is
// loaded; any other module sees the levels.
pub fn clock_step(w: &mut [u16; 96], sck: bool, sdi: bool, ss: bool) -> Answer
    ensures { Answers (clock_step_of (module_in w.old) sck sdi ss) result w.old w.new }
{
    let s = module_memory_looks::settings_in(w);
    if !s.spien {
        return Answer::Refused(Refusal::Disabled);
    }
    if !module_settings::own_clock(s) {
        see_any(w, sck, sdi, ss);
        return Answer::Done;
    }
    let pins = module_memory_looks::pins_in(w);
    if module_settings::is_framed(s) {
        hear_select(w, ss);
        framed_edge(w, !pins.sck, sdi);
        return Answer::Done;
    }
    if module_memory_looks::is_free(w) {
        return Answer::NoEdge;
    }
    plain_edge(w, !pins.sck, sdi);
    Answer::Done
}
