// Keys and the colons after them.
ghost use Rattle.std.specs.Prelude.{◌≡◌, IfOk, Some, None, if◌then◌else◌};
ghost use Rattle.json_machine.specs.Machine.{at_key, at_first_key, at_colon, keyed, in_key};
ghost use Rattle.json_machine.specs.WordScan.{next_character};
ghost use Rattle.json_read.specs.Signs.{sign_in};
ghost use Rattle.json_read.specs.Views.{state_of};
ghost use Rattle.json_read.specs.declared.phase.Phase.TheVariants.{InKey};

use crate::machine::Machine;
use crate::phase::Phase;
use crate::sign::Sign;
use fold_base::Text;
use std::alloc::AllocError;

impl Machine {
    pub fn at_key(&mut self, sign: Sign) -> bool
        ensures { (if result then Some (state_of self.new) else None) ≡ at_key (state_of self.old) (sign_in sign) }
    {
        match sign {
            Sign::Blank => true,
            Sign::Quote => {
                self.word.restart();
                self.phase = Phase::InKey;
                true
            }
            _ => false,
        }
    }

    pub fn at_first_key(&mut self, sign: Sign) -> Result<bool, AllocError>
        ensures { IfOk result (λ went. (if went then Some (state_of self.new) else None) ≡ at_first_key (state_of self.old) (sign_in sign)) }
    {
        match sign {
            Sign::CloseBrace => self.close_object(),
            _ => Ok(self.at_key(sign)),
        }
    }

    pub fn at_colon(&mut self, sign: Sign) -> bool
        ensures { (if result then Some (state_of self.new) else None) ≡ at_colon (state_of self.old) (sign_in sign) }
    {
        match sign {
            Sign::Blank => true,
            Sign::Colon => {
                self.phase = Phase::ValueDue;
                true
            }
            _ => false,
        }
    }

    pub fn key_byte(&mut self, byte: u8) -> Result<bool, AllocError>
        requires { self.old.phase ≡ InKey }
        ensures { IfOk result (λ went. (if went then Some (state_of self.new) else None)
            ≡ in_key (state_of self.old) self.old.word byte (next_character self.old.word byte)) }
    {
        if self.word.take(byte)? {
            return Ok(true);
        }
        if byte != b'"' || !self.word.is_between() {
            return Ok(false);
        }
        let key = self.word.finish(self.alloc)?;
        Ok(self.end_key(key))
    }

    /// Takes the key in hand. `false`: its object has it.
    fn end_key(&mut self, key: Text) -> bool
        ensures { (if result then Some (state_of self.new) else None) ≡ keyed key self.old.stack }
    {
        if !self.stack.take_key(key) {
            return false;
        }
        self.root = None;
        self.phase = Phase::ColonDue;
        true
    }
}
