// What the calls over lent memory share: a number is made of bits.
#![tactic(auto)]

ghost use Rattle.std.specs.Prelude.{◌≡◌, ◌≤◌};
ghost use Rattle.laws.specs.Choice.{when◌then◌else◌};

// The weight of a bit in a number, if it is set, else 0.
pub fn weigh(bit: bool, weight: u16) -> u16
    ensures value { result ≡ (when bit then weight else 0) }
    ensures bound { result ≤ weight }
{
    if bit { weight } else { 0 }
}
