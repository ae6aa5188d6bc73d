// A look at an audio card in memory.
#![tactic(auto)]

ghost use Rattle.std.specs.Prelude.{◌≤◌, ◌≡◌};
ghost use Rattle.card_rules.specs.Calls.{sdo_of, right_next};
ghost use Rattle.card.specs.Memory.{card_in};
ghost use Rattle.card_look.specs.Look.{output_bits, look_number};

// SDO: driven while the card is enabled.
fn output(w: &[u32; 40]) -> u32
    ensures { (result ≡ output_bits (sdo_of (card_in w.now))) × (result ≤ 12) }
{
    match (w[0] % 2, w[10] % 2) {
        (0, _) => 0,
        (_, 0) => 8,
        _ => 12,
    }
}

// Whether the right channel has the next first place.
#[tactic(auto, using(crate::proofs::Looks::right_yes, crate::proofs::Looks::right_no))]
fn right_next(w: &[u32; 40]) -> bool
    ensures { result ≡ right_next (card_in w.now) }
{
    let f = card::frame_of(w[1]);
    let place = w[2] % 256;
    f.first < place && place <= f.second
}

// The pins, the flags, the next channel, the samples held and the settings. The sum is that of its definition; its weights have more bits than
// those of `lent::weigh`.
pub fn look(w: &[u32; 40]) -> u32
    ensures { result ≡ look_number (card_in w.now) }
{
    let bits = card::bits_of(w[1]);
    let frame = card::clocks_of(w[1]);
    let waiting = card::held(w[14]);
    let unread = card::held(w[16]);
    let sdo = output(w);
    let right = right_next(w);
    w[8] % 2
        + 2 * (w[9] % 2)
        + sdo
        + 16 * (w[11] % 2)
        + 32 * (w[12] % 2)
        + 64 * u32::from(right)
        + 256 * waiting
        + 4096 * unread
        + 65536 * (w[1] % 4)
        + 262144 * bits
        + 16777216 * frame
}
