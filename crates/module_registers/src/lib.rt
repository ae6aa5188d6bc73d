// The registers by their bits: what CON1 and CON2 take from a value, and what STAT, CON1 and CON2 show.
#![tactic(auto)]

ghost use Rattle.std.specs.Prelude.{◌≡◌, ◌≤◌};
ghost use Rattle.laws.specs.Choice.{when◌then◌else◌};
ghost use Rattle.module_types.specs.declared.Module.{Module};
ghost use Rattle.module_rules.specs.Registers.{con1_from, con1_value, con2_from, con2_value, at_most7, stat_value};
ghost use Rattle.module_registers.specs.Shown.{enhanced_shown, Shows};

use lent::weigh;
use module_bits::bit;
use module_types::{Con1, Con2, Settings};

// CON1 as a write sets it.
#[tactic(auto, unfolding(module_rules::specs::Registers::con1_from))]
pub fn con1_from(v: u16) -> Con1
    ensures { result ≡ con1_from v }
{
    Con1 {
        dissck: bit(v, 12),
        dissdo: bit(v, 11),
        mode16: bit(v, 10),
        smp: bit(v, 9),
        cke: bit(v, 8),
        ssen: bit(v, 7),
        ckp: bit(v, 6),
        msten: bit(v, 5),
        spre: (v / 4 % 8) as u8,
        ppre: (v % 4) as u8,
    }
}

// CON1 as a read shows it.
#[tactic(auto, unfolding(module_rules::specs::Registers::weighed, module_rules::specs::Registers::con1_value))]
pub fn con1_value(c: Con1) -> u16
    ensures { result ≡ con1_value c }
{
    weigh(c.dissck, 4096)
        + weigh(c.dissdo, 2048)
        + weigh(c.mode16, 1024)
        + weigh(c.smp, 512)
        + weigh(c.cke, 256)
        + weigh(c.ssen, 128)
        + weigh(c.ckp, 64)
        + weigh(c.msten, 32)
        + (c.spre % 8) as u16 * 4
        + (c.ppre % 4) as u16
}

// CON2 as a write sets it.
#[tactic(auto, unfolding(module_rules::specs::Registers::con2_from))]
pub fn con2_from(v: u16) -> Con2
    ensures { result ≡ con2_from v }
{
    Con2 {
        frmen: bit(v, 15),
        spifsd: bit(v, 14),
        frmpol: bit(v, 13),
        frmdly: bit(v, 1),
        spiben: bit(v, 0),
    }
}

// CON2 as a read shows it.
#[tactic(auto, unfolding(module_rules::specs::Registers::weighed, module_rules::specs::Registers::con2_value))]
pub fn con2_value(c: Con2) -> u16
    ensures { result ≡ con2_value c }
{
    weigh(c.frmen, 32768)
        + weigh(c.spifsd, 16384)
        + weigh(c.frmpol, 8192)
        + weigh(c.frmdly, 2)
        + weigh(c.spiben, 1)
}

// SPIBEC in enhanced operation: the words that wait (host) or are unread (client), as three bits show them.
fn spibec_value(s: Settings, waiting: u8, unread: u8) -> u8
    ensures value { result ≡ at_most7 (when s.con1.msten then waiting else unread) }
    ensures bound { result ≤ 7 }
{
    let words = if s.con1.msten { waiting } else { unread };
    words.min(7)
}

// What STAT shows of enhanced operation, while enabled: SPIBEC, SRMPT (no word is loaded or begun) and SRXMPT (nothing is unread).
fn enhanced_value(s: Settings, waiting: u8, unread: u8, free: bool) -> u16
    ensures value { result ≡ enhanced_shown s waiting unread free }
    ensures bound { result ≤ 1952 }
{
    if s.spien & s.con2.spiben {
        spibec_value(s, waiting, unread) as u16 * 256 + weigh(free, 128) + weigh(unread == 0, 32)
    } else {
        0
    }
}

// STAT as a read shows it, by the settings, the words waiting and unread, whether no word is loaded or begun, and SPIROV.
pub fn stat_value(s: Settings, waiting: u8, unread: u8, free: bool, spirov: bool) -> u16
    ensures { (m : Module) → Shows m s waiting unread free spirov → result ≡ stat_value m }
{
    let depth = module_settings::depth(s);
    weigh(s.spien, 32768)
        + weigh(s.spisidl, 8192)
        + enhanced_value(s, waiting, unread, free)
        + weigh(spirov, 64)
        + (s.sisel % 8) as u16 * 4
        + weigh(depth <= waiting, 2)
        + weigh(depth <= unread, 1)
}
