// One edge of an audio card in memory, on the numbers that it changes.
#![tactic(auto)]

ghost use Rattle.std.specs.Prelude.{◌+◌, ◌≤◌, ◌≡◌};
ghost use Rattle.card_rules.specs.Edge.{taken, begun, shifted_in, finished, clocked, turned};
ghost use Rattle.card_rules.specs.Calls.{edge_of};
ghost use Rattle.card.specs.Memory.{bit_in, shape_in, card_in, framed, Moves};
ghost use Rattle.card.specs.Answered.{done_in, Gives};
ghost use Rattle.card_edge.specs.Shown.{shown_bit};

use card::{Frame, Full, Refusal, UNREAD, WAITING};

// A sample begins: the first one waiting, or zeros with the underrun flag.
fn take(w: &mut [u32; 40])
    ensures { Moves (λ s n. taken n.waiting n) w.old w.new }
{
    let waiting = card::pop::<WAITING>(w);
    w[3] = 1;
    w[6] = 0;
    w[7] = 0;
    match waiting {
        Some(sample) => {
            w[4] = 0;
            w[5] = sample;
        }
        None => {
            w[4] = 1;
            w[5] = 0;
            w[11] = 1;
        }
    }
}

// The three steps of an edge take the frame that memory has: a look at it in each of them took 7.6 ns an edge in place of 6.7. A struct that
// holds the memory, a `&mut`, and its frame would need a ghost field to say that they agree, and Rattle does not prove such a struct.

// At a channel's first place a sample begins, unless one is under way, which is asked first since it mostly is.
fn begin(w: &mut [u32; 40], f: Frame)
    requires { f ≡ framed (shape_in w.old) }
    ensures { Moves begun w.old w.new }
{
    if w[3] % 2 == 0 {
        let place = w[2] % 256;
        if place == f.first || place == f.second {
            take(w);
        }
    }
}

// The received sample stands last, or is dropped and sets the overflow flag.
fn finish(w: &mut [u32; 40], received: u32)
    ensures { Moves (λ s. finished received) w.old w.new }
{
    let pushed = card::push::<UNREAD>(w, received);
    w[3] = 0;
    if let Err(Full) = pushed {
        w[12] = 1;
    }
}

// The bit that SDO shows in the clock that begins after `edges` edges of a sample, as a number.
fn shown(f: Frame, word: u32, edges: u32) -> u32
    requires { (edges + 2 ≤ f.last) × (f.last ≤ f.lead + 64) }
    ensures { bit_in result ≡ shown_bit f word edges }
{
    if edges < f.lead {
        0
    } else {
        (word >> ((f.last - 2 - edges) / 2)) % 2
    }
}

// A bit enters behind those received before it.
fn shift_in(received: u32, sdi: bool) -> u32
    ensures { result ≡ shifted_in received sdi }
{
    received.wrapping_mul(2) + u32::from(sdi)
}

// The sample under way is given an edge, or the clock is open.
fn clock(w: &mut [u32; 40], f: Frame, sdi: bool)
    requires { f ≡ framed (shape_in w.old) }
    ensures { Moves (λ s. clocked s sdi) w.old w.new }
{
    if w[3] % 2 == 0 {
        if w[2] % 2 == 0 {
            w[10] = 0;
        }
        return;
    }
    let edges = w[6] % 256;
    let edge = edges + 1;
    if edge < f.last {
        if edges % 2 == 0 {
            w[10] = shown(f, w[5], edges);
        } else if f.lead < edge {
            w[7] = shift_in(w[7], sdi);
        }
        w[6] = edge;
    } else {
        let received = if edge % 2 == 0 && f.lead < edge {
            shift_in(w[7], sdi)
        } else {
            w[7]
        };
        finish(w, received);
    }
}

// The frame goes on by an edge.
fn turn(w: &mut [u32; 40], f: Frame)
    requires { f ≡ framed (shape_in w.old) }
    ensures { Moves turned w.old w.new }
{
    let place = w[2] % 256;
    let next = place + 1;
    w[8] = u32::from(w[8] % 2 == 0);
    w[9] = u32::from((place < f.active) != f.rest);
    w[2] = if next < f.edges { next } else { 0 };
}

// One edge, with the level of SDI.
pub fn edge(w: &mut [u32; 40], sdi: bool) -> Result<(), Refusal>
    ensures { Gives (edge_of (card_in w.old) sdi) (done_in result) w.old w.new }
{
    card::enabled(w)?;
    let f = card::frame_of(w[1]);
    begin(w, f);
    clock(w, f, sdi);
    turn(w, f);
    Ok(())
}
