//! The least number above those of all schematic variables, those of types included.
ghost use Rattle.std.specs.Prelude.{◌≡◌, ◌≤◌, ℕ, suc, max, IfOk, IfErr, OnOk};
ghost use Rattle.iv_text.specs.declared.want.Want.TheVariants.{Number};
ghost use Rattle.iv_variables.specs.Variables.{variables, terms_variables};
ghost use Rattle.iv_variables.specs.Firsts.{next_of, next_number};

use crate::walk::{Visitor, each, each_in_terms};
use iv_term::{Term, Terms, Typ};
use iv_text::{Mem, Name, Text, Want};

/// The least number above those that were seen.
#[derive(Drop)]
struct Next {
    number: u32,
}

impl Next {
    /// Takes a number into account.
    fn see(&mut self, number: u32) -> Mem<()>
        ensures ok { OnOk result (self.new ≡ record { number = max self.old.number (suc number) }) }
        ensures err { IfErr result (λ w. (w ≡ Number) × (4294967295 ≤ suc number)) }
    {
        match number.checked_add(1) {
            None => Err(Want::Number),
            Some(above) => {
                self.number = self.number.max(above);
                Ok(())
            }
        }
    }
}

impl Visitor for Next {
    ghost use Rattle.std.specs.Prelude.{◌≡◌, ◌≤◌, max};
    ghost use Rattle.iv_text.specs.declared.want.Want.TheVariants.{Number};
    ghost use Rattle.iv_variables.specs.Firsts.{next_of};

    ghost step = { λ n v. record { number = max n.number (next_of v) } };

    ghost fails = { λ v w. (w ≡ Number) × (4294967295 ≤ next_of v) };

    fn fixed_type(&mut self, _text: &Text) -> Mem<()> {
        Ok(())
    }

    fn schematic_type(&mut self, name: &Name) -> Mem<()> {
        self.see(name.number)
    }

    fn free(&mut self, _name: &Name, _typ: &Typ) -> Mem<()> {
        Ok(())
    }

    fn schematic(&mut self, name: &Name, _typ: &Typ) -> Mem<()> {
        self.see(name.number)
    }
}

/// One more than the greatest number of a schematic variable or schematic type variable in a term, and 0 where none stands
/// there. Takes no memory. Fails, with `Number`, only where this is 4,294,967,295 or more.
pub fn next_number(t: &Term) -> Mem<u32>
    ensures ok { IfOk result (λ n. n ≡ next_number (variables t.now)) }
    ensures number { IfErr result (λ w. (w ≡ Number) × (4294967295 ≤ next_number (variables t.now))) }
{
    let mut next = Next { number: 0 };
    each(t, &mut next)?;
    Ok(next.number)
}

/// The same of some terms. Takes no memory. Fails, with `Number`, only where this is 4,294,967,295 or more.
pub fn next_number_in_terms(ts: &Terms) -> Mem<u32>
    ensures ok { IfOk result (λ n. n ≡ next_number (terms_variables ts.now)) }
    ensures number { IfErr result (λ w. (w ≡ Number) × (4294967295 ≤ next_number (terms_variables ts.now))) }
{
    let mut next = Next { number: 0 };
    each_in_terms(ts, &mut next)?;
    Ok(next.number)
}
