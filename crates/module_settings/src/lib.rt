// What the settings decide by themselves: width, depth, role, and why it cannot be enabled.
#![tactic(auto)]

ghost use Rattle.std.specs.Prelude.{◌≡◌};
ghost use Rattle.module_rules.specs.Settings.{width_of, words_of, depth_of, framed, frame_host, frame_client, cke_of, silent, ssen_client, own_clock};
ghost use Rattle.module_rules.specs.Select.{deselected};
ghost use Rattle.module_rules.specs.Refusals.{undivided, late_sampling, unselected_cke, causes, bad_settings, first_given};

use module_types::{Depth, Refusal, Settings};

// The width in bits.
pub fn width(s: Settings) -> u8
    ensures { result ≡ width_of s }
{
    if s.con1.mode16 { 16 } else { 8 }
}

// How many words each buffer holds in enhanced operation. No From: it would stand below words_of, which this promises.
fn words(depth: Depth) -> u8
    ensures { result ≡ words_of depth }
{
    match depth {
        Depth::Four => 4,
        Depth::Eight => 8,
        Depth::Sixteen => 16,
    }
}

// How many words each buffer holds.
pub fn depth(s: Settings) -> u8
    ensures { result ≡ depth_of s }
{
    if s.con2.spiben { words(s.depth) } else { 1 }
}

// Whether the module is framed.
pub fn is_framed(s: Settings) -> bool
    ensures { result ≡ framed s }
{
    s.con2.frmen
}

// Whether the module gives frame pulses on SS.
pub fn is_frame_host(s: Settings) -> bool
    ensures { result ≡ frame_host s }
{
    s.con2.frmen & !s.con2.spifsd
}

// Whether the module samples frame pulses on SS.
pub fn is_frame_client(s: Settings) -> bool
    ensures { result ≡ frame_client s }
{
    s.con2.frmen & s.con2.spifsd
}

// CKE as the edge rules see it: 0 for a framed module.
pub fn cke(s: Settings) -> bool
    ensures { result ≡ cke_of s }
{
    !s.con2.frmen & s.con1.cke
}

// Whether the module begins nothing if no word is left to send.
pub fn is_silent(s: Settings) -> bool
    ensures { result ≡ silent s }
{
    if s.con2.frmen {
        !s.con2.spifsd
    } else {
        s.con1.msten
    }
}

// Whether the module is an unframed client that watches its select pin.
pub fn ssen_client(s: Settings) -> bool
    ensures { result ≡ ssen_client s }
{
    !s.con1.msten & (!s.con2.frmen & s.con1.ssen)
}

// Whether this select level deselects the module.
pub fn is_deselected(s: Settings, ss: bool) -> bool
    ensures { result ≡ deselected s ss }
{
    ssen_client(s) & ss
}

// Whether the module is a host with its own clock.
pub fn own_clock(s: Settings) -> bool
    ensures { result ≡ own_clock s }
{
    s.con1.msten & !s.con1.dissck
}

// Whether a host with its own clock has both prescalers at 1:1.
fn is_undivided(s: Settings) -> bool
    ensures { result ≡ undivided s }
{
    own_clock(s) & ((s.con1.ppre == 3) & (s.con1.spre == 7))
}

// Whether SMP is set.
fn samples_late(s: Settings) -> bool
    ensures { result ≡ late_sampling s }
{
    s.con1.smp
}

// Whether an unframed client has CKE and no SSEN.
fn has_unselected_cke(s: Settings) -> bool
    ensures { result ≡ unselected_cke s }
{
    !s.con2.frmen & (!s.con1.msten & (s.con1.cke & !s.con1.ssen))
}

// Whether these settings cannot be enabled.
pub fn are_bad(s: Settings) -> bool
    ensures { result ≡ bad_settings s }
{
    is_undivided(s) | (samples_late(s) | has_unselected_cke(s))
}

// The first cause for which these settings cannot be enabled. It says something only where there is one.
pub fn first_cause(s: Settings) -> Refusal
    ensures { result ≡ first_given (causes s) }
{
    if is_undivided(s) {
        Refusal::Undivided
    } else if samples_late(s) {
        Refusal::LateSampling
    } else {
        Refusal::UnselectedCke
    }
}
