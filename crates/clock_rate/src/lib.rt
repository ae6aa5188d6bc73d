// The prescalers for a wanted rate.
#![tactic(auto)]

ghost use Rattle.std.specs.Prelude.{◌≡◌};
ghost use Rattle.clock_rate_rules.specs.Rate.{divider_at, fits, to_beat, better, in_con1, prescalers_for};
ghost use Rattle.clock_rate.specs.Found.{setting_in};

mod setting;

use setting::Setting;

// The divider of both prescalers, 8 PPRE + SPRE.
fn divider_at(k: u8) -> u16
    ensures { result ≡ divider_at k }
{
    clock_report::primary(k / 8) as u16 * clock_report::secondary(k % 8) as u16
}

// Whether the rate does not pass the wanted one. Two rates and no struct: prescalers_for takes them so, and only this function reads them.
fn fits(f: u32, wanted: u32, k: u8) -> bool
    ensures { result ≡ fits f wanted k }
{
    f as u64 <= wanted as u64 * divider_at(k) as u64
}

// What the next divider must be below: 513 is above every divider.
fn to_beat(found: Option<Setting>) -> u16
    ensures { result ≡ to_beat (setting_in found) }
{
    match found {
        Some(setting) => divider_at(setting.k),
        None => 513,
    }
}

// The better of a setting and the one found so far.
fn better(f: u32, wanted: u32, next: Setting, found: Option<Setting>) -> Option<Setting>
    ensures { setting_in result ≡ better f wanted next.k (setting_in found) }
{
    if fits(f, wanted, next.k) & (divider_at(next.k) < to_beat(found)) {
        return Some(next);
    }
    found
}

// A setting as CON1 has it, 32 if there is none.
fn in_con1(found: Option<Setting>) -> u8
    ensures { result ≡ in_con1 (setting_in found) }
{
    match found {
        Some(setting) => setting.k % 8 * 4 + setting.k / 8,
        None => 32,
    }
}

// The bits of CON1 with which a host at this instruction rate comes nearest to the wanted rate without passing it; 32 if
// it cannot: prescalers_for says so, and the C call answers it. A `for` goes the way of best_of, a step at a time, which a chain of adapters
// would hide.
pub fn prescalers(f: u32, wanted: u32) -> u8
    ensures { result ≡ prescalers_for f wanted }
{
    let mut found = None;
    for k in 0..31 {
        found = better(f, wanted, Setting { k }, found);
    }
    in_con1(found)
}
