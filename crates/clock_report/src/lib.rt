// The clock report: from the prescalers and the instruction rate to the two floats of a host's own clock.
#![tactic(auto)]

ghost use Rattle.std.specs.Prelude.{◌≡◌};
ghost use Rattle.clock_rules.specs.Clock.{quartered, primary_of, secondary_of, divider_of, rates_of, clock_of, report_by, report_of, said_clock};

use clock_rules::{Clock, ClockSaid, Rates};
use module_types::{Module, Refusal, Settings};

// A number divided by four, so many times.
fn quarter(steps: u8, n: u8) -> u8
    ensures { result ≡ quartered steps n }
{
    let mut left = n;
    for _ in 0..steps {
        left /= 4;
    }
    left
}

// The primary prescaler: from 64, each step of PPRE divides by four.
#[tactic(auto, unfolding(clock_rules::specs::Clock::primary_of))]
pub fn primary(ppre: u8) -> u8
    ensures { result ≡ primary_of ppre }
{
    quarter(ppre % 4, 64)
}

// The secondary prescaler.
#[tactic(auto, unfolding(clock_rules::specs::Clock::secondary_of))]
pub fn secondary(spre: u8) -> u8
    ensures { result ≡ secondary_of spre }
{
    8 - spre % 8
}

// The divider D: both prescalers together.
fn divider(s: Settings) -> u16
    ensures { result ≡ divider_of s }
{
    primary(s.con1.ppre) as u16 * secondary(s.con1.spre) as u16
}

// The rate F / D and the bit time D / F, each by one division.
#[tactic(auto, unfolding(clock_rules::specs::Clock::rates_of))]
fn rates(s: Settings, f: u32) -> Rates
    ensures { result ≡ rates_of s f }
{
    let instruction = f as f64;
    let d = divider(s) as f64;
    Rates {
        rate: instruction / d,
        bittime: d / instruction,
    }
}

// Where the module's clock comes from, for an instruction rate.
fn clock_of(s: Settings, f: u32) -> Clock
    ensures { result ≡ clock_of s f }
{
    if !s.spien {
        return Clock::None;
    }
    if module_settings::own_clock(s) {
        Clock::Internal(rates(s, f))
    } else {
        let bound = f as f64;
        Clock::External(bound)
    }
}

// The report for an instruction rate, by settings. Refuses the rate 0, also on a disabled module.
pub fn report_by(s: Settings, f: u32) -> Result<Clock, Refusal>
    ensures { result ≡ report_by s f }
{
    if f == 0 {
        return Err(Refusal::NoRate);
    }
    Ok(clock_of(s, f))
}

// The report of a module.
#[tactic(auto, unfolding(clock_rules::specs::Clock::report_of))]
pub fn report(m: Module, f: u32) -> Result<Clock, Refusal>
    ensures { result ≡ report_of m f }
{
    report_by(m.settings, f)
}

// A report in the paper's numbers, which docs/PROMISES.md promises: run_clock_examples prints them. module_by_number matches on the Result.
pub fn said(r: Result<Clock, Refusal>) -> ClockSaid
    ensures { result ≡ said_clock r }
{
    let none = ClockSaid {
        number: 0,
        internal: false,
        external: false,
        rate: 0.0,
        bittime: 0.0,
        below: 0.0,
    };
    match r {
        Err(why) => ClockSaid {
            number: module_looks::refusal_number(why),
            ..none
        },
        Ok(Clock::Internal(x)) => ClockSaid {
            internal: true,
            rate: x.rate,
            bittime: x.bittime,
            ..none
        },
        Ok(Clock::External(f)) => ClockSaid {
            external: true,
            below: f,
            ..none
        },
        Ok(Clock::None) => none,
    }
}
