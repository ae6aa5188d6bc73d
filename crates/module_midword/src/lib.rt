// The short way: an edge within a begun word, which it does not finish. It samples SDI or changes SDO, and no buffer is looked at. Each call
// here tells whether it was made; if not, memory is as it was.
#![tactic(auto)]

ghost use Rattle.std.specs.Prelude.{true, false, ◌≡◌};
ghost use Rattle.std.specs.Bool.{beq};
ghost use Rattle.laws.specs.Choice.{when◌then◌else◌};
ghost use Rattle.module_types.specs.declared.Answer.TheVariants.{Done, Edge};
ghost use Rattle.module_rules.specs.Changes.{with_pulse};
ghost use Rattle.module_rules.specs.Settings.{own_clock};
ghost use Rattle.module_rules.specs.Edge.{levels, stepped};
ghost use Rattle.module_rules.specs.Calls.{clock_step_of, tick_of, pins_of};
ghost use Rattle.module_memory.specs.Memory.{settings_in, module_in, Steps};
ghost use Rattle.module_answers.specs.Answered.{edge_advanced, turned, Midword, GoesOn, Shortens, Shortly};

// Whether the next edge is one within a begun word, which it does not finish; and that edge, to the level `sck`, before a pulse is decided.
fn is_midword(w: &[u16; 96]) -> bool
    ensures { result ≡ true → Midword w.now }
{
    let s = module_memory_looks::settings_in(w);
    let p = module_memory_looks::progress_in(w);
    module_memory_looks::is_begun(w) && module_bits::goes_on(s, p.edges)
}

fn go_within(w: &mut [u16; 96], sck: bool, sdi: bool)
    requires { Midword w.old }
    ensures { Steps (λ s. edge_advanced s sck sdi) w.old w.new × GoesOn w.old w.new }
{
    let s = module_memory_looks::settings_in(w);
    let p = module_memory_looks::progress_in(w);
    let edge = p.edges as u16 + 1;
    let last = 2 * module_settings::width(s) as u16;
    if module_bits::is_sampling(module_settings::cke(s), edge) {
        let received = module_bits::shift_in(p.received, sdi);
        module_memory_stores::store_sck(w, sck);
        module_memory_stores::store_gone(w, edge as u8, received);
    } else {
        let at = if edge < last {
            (last - 1 - edge) / 2
        } else {
            0
        };
        let sdo = module_bits::bit(p.word, at);
        module_memory_stores::store_sck(w, sck);
        module_memory_stores::store_gone(w, edge as u8, p.received);
        module_memory_stores::store_sdo(w, sdo);
    }
}

// An edge to the other level of SCK of an unframed module: if it is one within a word, it is made. Whether it was.
pub fn turn_within(w: &mut [u16; 96], sdi: bool) -> bool
    ensures { Shortens (λ s. turned s sdi) result w.old w.new }
{
    let s = module_memory_looks::settings_in(w);
    let pins = module_memory_looks::pins_in(w);
    if module_settings::is_framed(s) || !is_midword(w) {
        return false;
    }
    go_within(w, !pins.sck, sdi);
    true
}

// The levels SCK, SDI and SS are seen by an unframed module: if they make an edge within a word and no select acts, it is made. Whether it was.
pub fn see_within(w: &mut [u16; 96], sck: bool, sdi: bool, ss: bool) -> bool
    ensures { Shortens (λ s. stepped s (levels sck sdi ss)) result w.old w.new }
{
    let s = module_memory_looks::settings_in(w);
    let pins = module_memory_looks::pins_in(w);
    if module_settings::is_deselected(s, ss)
        || sck == pins.sck
        || module_settings::is_framed(s)
        || !is_midword(w)
    {
        return false;
    }
    module_memory_stores::store_ss(w, ss);
    go_within(w, sck, sdi);
    true
}

// A clock step by the short way: whether it was made. Where the role is tested it is told, so that it is not looked up again.
pub fn step_within(w: &mut [u16; 96], sck: bool, sdi: bool, ss: bool) -> bool
    ensures { Shortly (clock_step_of (module_in w.old) sck sdi ss) Done result w.old w.new }
{
    let s = module_memory_looks::settings_in(w);
    if !s.spien {
        return false;
    }
    if module_settings::own_clock(s) {
        turn_within(w, sdi)
    } else {
        see_within(w, sck, sdi, ss)
    }
}

// The same for a host with its own clock alone, and for any other module alone.
pub fn own_within(w: &mut [u16; 96], sck: bool, sdi: bool, ss: bool) -> bool
    ensures shortly { Shortly (clock_step_of (module_in w.old) sck sdi ss) Done result w.old w.new }
    ensures w_value { result ≡ true → own_clock (settings_in w.old) ≡ true }
{
    let s = module_memory_looks::settings_in(w);
    if !(s.spien & !module_settings::is_framed(s)) || !module_settings::own_clock(s) {
        return false;
    }
    turn_within(w, sdi)
}

pub fn pins_within(w: &mut [u16; 96], sck: bool, sdi: bool, ss: bool) -> bool
    ensures { Shortly (pins_of (module_in w.old) sck sdi ss) Done result w.old w.new }
{
    let s = module_memory_looks::settings_in(w);
    if !s.spien || module_settings::own_clock(s) {
        return false;
    }
    see_within(w, sck, sdi, ss)
}

// A pin call with SS low, which deselects no module, by the short way.
pub fn low_within(w: &mut [u16; 96], sck: bool, sdi: bool, ss: bool) -> bool
    ensures { Shortly (pins_of (module_in w.old) sck sdi ss) Done result w.old w.new }
{
    if ss {
        return false;
    }
    let s = module_memory_looks::settings_in(w);
    if !(s.spien & !module_settings::is_framed(s)) || module_settings::own_clock(s) {
        return false;
    }
    see_within(w, sck, sdi, ss)
}

// A tick by the short way.
pub fn tick_within(w: &mut [u16; 96], sdi: bool, ss: bool) -> bool
    ensures { Shortly (tick_of (module_in w.old) sdi ss) Edge result w.old w.new }
{
    own_within(w, false, sdi, ss)
}

// A frame host's pulse after an edge to the level `sck` at which it gives none: at the active level it ends.
fn end_pulse(w: &mut [u16; 96], sck: bool)
    ensures { Steps (λ s n. with_pulse (when beq sck s.con1.ckp then n.pins.pulse else false) n) w.old w.new }
{
    let s = module_memory_looks::settings_in(w);
    if sck != s.con1.ckp {
        module_memory_stores::store_pulse(w, false);
    }
}

// A tick of a frame host by its short way, which leaves the edges at which a pulse may begin: a word's first and its last two.
pub fn frame_within(w: &mut [u16; 96], sdi: bool, ss: bool) -> bool
    ensures { Shortly (tick_of (module_in w.old) sdi ss) Edge result w.old w.new }
{
    let s = module_memory_looks::settings_in(w);
    let p = module_memory_looks::progress_in(w);
    let pins = module_memory_looks::pins_in(w);
    if !s.spien
        || !module_settings::own_clock(s)
        || !module_settings::is_frame_host(s)
        || !is_midword(w)
        || p.edges == 0
        || 2 * module_settings::width(s) as u16 <= p.edges as u16 + 2
    {
        return false;
    }
    let sck = !pins.sck;
    go_within(w, sck, sdi);
    end_pulse(w, sck);
    true
}
