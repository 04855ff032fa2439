// What the code of a function is made for.

ghost use Rattle.std.specs.Prelude.{◌≡◌};
ghost use Rattle.masm.specs.CodeAddresses.{AreCodeAddresses};
ghost use Rattle.c0_expr_code.specs.Exits.{exits_of};
ghost use Rattle.c0_expr_code.specs.SettingIn.{setting_told, setting_with};

use crate::facts::Facts;
use crate::fault_exits::FaultExits;
use c0_typed::TypedExpr;
use masm::registers::CodeAddresses;

/// How a function keeps its variables, where its faults leave, and what is known of its variables.
#[derive(Clone, Copy, Debug)]
pub struct CodeSetting {
    /// Whether its variables stand in registers.
    pub in_registers: bool,
    /// The words of its frame.
    pub frame: u64,
    /// The exits of faults.
    pub exits: FaultExits,
    /// What is known of its variables.
    pub facts: Facts,
}

impl CodeSetting {
    /// The setting of a function whose frame has so many words, where the addresses are these, and this is known of its variables.
    pub fn new(
        in_registers: bool,
        frame: u64,
        addresses: &CodeAddresses,
        facts: Facts,
    ) -> CodeSetting
        requires { AreCodeAddresses addresses.now }
        ensures registers { result.in_registers ≡ in_registers }
        ensures frame { result.frame ≡ frame }
        ensures exits { exits_of result.exits ≡ addresses.now.faults }
        ensures facts { result.facts ≡ facts }
    {
        CodeSetting {
            in_registers,
            frame,
            exits: FaultExits::new(addresses.faults),
            facts,
        }
    }

    /// The setting with other facts.
    pub fn with(&self, facts: Facts) -> CodeSetting
        ensures { result ≡ setting_with self.now facts }
    {
        CodeSetting {
            in_registers: self.in_registers,
            frame: self.frame,
            exits: self.exits,
            facts,
        }
    }

    /// The setting once a test came out so.
    pub fn told(&self, test: &TypedExpr, outcome: bool) -> CodeSetting
        ensures { result ≡ setting_told self.now test.now outcome }
    {
        self.with(self.facts.told(test, outcome))
    }
}
