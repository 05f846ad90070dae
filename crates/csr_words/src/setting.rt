// What a mode and the CSRs say about an instruction: crate `csr_setting`'s functions of their words.
ghost use Rattle.std.specs.Prelude.{◌≡◌};
ghost use Rattle.csr_words.specs.Setting.{setting_of, switches};

use super::{COUNT, MENVCFG, MODE, MSECCFG, MSTATUS, SATP, SENVCFG};
use csr_access::enable;
use csr_setting::Setting;
use isa::Mode;

#[tactic(auto, unfolding(crate::specs::Setting::setting_of))]
pub fn setting(w: &[u64; COUNT]) -> Setting
    ensures { result ≡ setting_of w.now }
{
    let mode = w[MODE];
    let mstatus = w[MSTATUS];
    let satp = w[SATP];
    let menvcfg = w[MENVCFG];
    let senvcfg = w[SENVCFG];
    let mseccfg = w[MSECCFG];
    Setting {
        control: csr_setting::control(mode, mstatus, satp, menvcfg, senvcfg, mseccfg),
        shadow: csr_setting::shadow(mode, menvcfg, senvcfg),
        permitted: enable::permits(Mode::from(mode), menvcfg, senvcfg),
        pad: csr_setting::pad(mode, menvcfg, senvcfg, mseccfg),
    }
}

// Whether a setting depends on word k.
pub fn switched(k: usize) -> bool
    ensures { result ≡ switches k }
{
    matches!(k, MODE | SENVCFG | SATP | MSTATUS | MENVCFG | MSECCFG)
}
