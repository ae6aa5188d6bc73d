// Two modules in memory on one wire: a linked run of a host with its own clock and a client, both unframed. It goes turn by turn, but for
// words that are made whole while both ends are at a word's beginning. Any numbers and any limit are answered, and a refused run leaves every
// number as it was.
#![tactic(auto)]

ghost use Rattle.std.specs.Prelude.{◌-◌, ◌≤◌, true, false, ◌≡◌};
ghost use Rattle.word_rules.specs.Word.{word_of};
ghost use Rattle.link_rules.specs.Link.{client_sees, host_turn, client_turn, either_disabled, wrong_roles, different_modes, linked_of, link_said_of};
ghost use Rattle.link_words.specs.LinkWords.{Matched, Running, at_beginning, heard_of};
ghost use Rattle.link_words.proofs.Begins.{first_levels};
ghost use Rattle.module_memory.specs.Memory.{settings_in, engine_in, module_in};
ghost use Rattle.link_calls.specs.Wire.{open_level, run_in, Links};

use link_rules::LinkSaid;
use module_types::{Refusal, Settings};

// The most edges that a run may be asked for: two for each of 16 bits of 17 words.
const MOST_EDGES: u32 = 2 * 16 * (16 + 1);

// The level that the other end reads, of an SDO that is driven unless DISSDO is set.
fn level(w: &[u16; 96]) -> bool
    ensures { result ≡ open_level (module_in w.now) }
{
    let s = module_memory_looks::settings_in(w);
    let pins = module_memory_looks::pins_in(w);
    !s.con1.dissdo & pins.sdo
}

// The client sees the host's present SCK and SDO with SS low.
fn client_sees(host: &[u16; 96], client: &mut [u16; 96])
    requires { Matched (settings_in host.now) (settings_in client.old) }
    ensures { module_in client.new ≡ client_sees (module_in host.now) (module_in client.old) }
{
    let pins = module_memory_looks::pins_in(host);
    let sdi = level(host);
    module_calls::see(client, pins.sck, sdi, false);
}

// Running is asked in three places and is in no type: it is of two lent memories that each turn changes, and a struct of both would prove it anew
// after each store.

// The host's turn: with no edge left the run ends, and so it does if no word is loaded or begun. Else the host's clock goes
// to its other level with the client's present SDO, and that hands over to the client's turn. The turns recurse on the edges left, as those
// of the definition do (host_turn, client_turn): each is a clause of it.
#[cycle(client_turn_host_turn)]
fn host_turn(host: &mut [u16; 96], client: &mut [u16; 96], left: u16) -> u16
    requires { Running (module_in host.old) (module_in client.old) }
    ensures client_after { run_in result host.new client.new ≡ host_turn left (module_in host.old) (module_in client.old) }
    ensures upper_bound { result ≤ left }
{
    if left == 0 {
        return 0;
    }
    if module_memory_looks::is_free(host) {
        return 0;
    }
    let sdi = level(client);
    module_calls::turn(host, sdi);
    client_turn(host, client, left)
}

// The client's turn after an edge of the host: it sees the host's new levels, and hands back with one edge fewer left.
#[cycle(client_turn_host_turn)]
fn client_turn(host: &mut [u16; 96], client: &mut [u16; 96], left: u16) -> u16
    requires { (1 ≤ left) × Matched (settings_in host.old) (settings_in client.old) }
    ensures client_after { run_in result host.new client.new ≡ client_turn (host_turn (left - 1)) (module_in host.old) (module_in client.old) }
    ensures upper_bound { result ≤ left }
{
    client_sees(host, client);
    host_turn(host, client, left - 1) + 1
}

// Whether both ends are at a word's beginning and the host has a word to send.
#[tactic(auto, unfolding(link_words::specs::LinkWords::at_beginning))]
fn are_beginning(host: &[u16; 96], client: &[u16; 96]) -> bool
    ensures { result ≡ at_beginning (module_in host.now) (module_in client.now) }
{
    !module_memory_looks::is_free(host)
        & (word_calls::is_between(host) & word_calls::is_between(client))
}

// What the other end samples of a word from its beginning: the levels of SDO, and zeros under DISSDO.
fn heard(w: &[u16; 96], word: u16) -> u16
    ensures { result ≡ first_levels (settings_in w.now) word (engine_in w.now).pins.sdo }
{
    let s = module_memory_looks::settings_in(w);
    let pins = module_memory_looks::pins_in(w);
    if s.con1.dissdo {
        return 0;
    }
    word_calls::levels_first(s, word, pins.sdo)
}

// A word at both ends, each with what it hears from the other.
fn exchange(host: &mut [u16; 96], client: &mut [u16; 96])
    requires { Running (module_in host.old) (module_in client.old) × (at_beginning (module_in host.old) (module_in client.old) ≡ true) }
    ensures host_after { module_in host.new ≡ (word_of (module_in host.old) false (heard_of (module_in client.old))).after }
    ensures client_after { module_in client.new ≡ (word_of (module_in client.old) false (heard_of (module_in host.old))).after }
{
    let sent = word_calls::current_in(host);
    let answered = word_calls::current_in(client);
    let to_client = heard(host, sent.word);
    let to_host = heard(client, answered.word);
    word_calls::make_first(host, sent.filler, sent.word, to_host);
    word_calls::make_first(client, answered.filler, answered.word, to_client);
}

// A run with some edges left: whole words while both ends are at a word's beginning and enough edges are left for it, and then turns. It
// recurses as they do: a loop would carry the edges used beside those left, with an invariant that says what the contract says.
fn run(host: &mut [u16; 96], client: &mut [u16; 96], left: u16) -> u16
    requires { Running (module_in host.old) (module_in client.old) }
    ensures client_after { run_in result host.new client.new ≡ host_turn left (module_in host.old) (module_in client.old) }
    ensures upper_bound { result ≤ left }
{
    let s = module_memory_looks::settings_in(host);
    let edges = 2 * module_settings::width(s) as u16;
    if (left < edges) | !are_beginning(host, client) {
        return host_turn(host, client, left);
    }
    exchange(host, client);
    run(host, client, left - edges) + edges
}

// Whether the host or the client is disabled.
fn either_disabled(host: Settings, client: Settings) -> bool
    ensures { result ≡ either_disabled host client }
{
    !host.spien | !client.spien
}

// Whether the host has no clock of its own, the client is no client, or either is framed.
fn wrong_roles(host: Settings, client: Settings) -> bool
    ensures { result ≡ wrong_roles host client }
{
    (!module_settings::own_clock(host) | module_settings::is_framed(host))
        | (client.con1.msten | module_settings::is_framed(client))
}

// Whether the modules differ in CKP, CKE or width.
fn different_modes(host: Settings, client: Settings) -> bool
    ensures { result ≡ different_modes host client }
{
    let same_ckp = host.con1.ckp == client.con1.ckp;
    let same_cke = host.con1.cke == client.con1.cke;
    let same_width = module_settings::width(host) == module_settings::width(client);
    !same_ckp | (!same_cke | !same_width)
}

// A linked run with an edge limit: the edges used, the host's only, or a refusal.
pub fn linked(host: &mut [u16; 96], client: &mut [u16; 96], limit: u32) -> Result<u16, Refusal>
    ensures { Links (linked_of (module_in host.old) (module_in client.old) limit) result host.old host.new client.old client.new }
{
    let h = module_memory_looks::settings_in(host);
    let c = module_memory_looks::settings_in(client);
    if MOST_EDGES < limit {
        return Err(Refusal::TooManyEdges);
    }
    if either_disabled(h, c) {
        return Err(Refusal::Disabled);
    }
    if wrong_roles(h, c) {
        return Err(Refusal::WrongClock);
    }
    if different_modes(h, c) {
        return Err(Refusal::DifferentModes);
    }
    client_sees(host, client);
    Ok(run(host, client, limit as u16))
}

// The answer of a linked run in the paper's numbers, which docs/PROMISES.md promises: run_link_examples prints them. module_by_number
// matches on the Result.
#[tactic(auto, unfolding(link_rules::specs::Link::link_said_of))]
pub fn link_said(a: Result<u16, Refusal>) -> LinkSaid
    ensures { result ≡ link_said_of a }
{
    match a {
        Err(r) => LinkSaid {
            number: module_looks::refusal_number(r),
            edges: 0,
        },
        Ok(edges) => LinkSaid { number: 0, edges },
    }
}
