ghost use Rattle.std.specs.Prelude.{◌≡◌, IfOk, IfErr, map};
ghost use Rattle.iv_text.specs.declared.want.Want.TheVariants.{Memory};
ghost use Rattle.iv_forms.specs.Readable.{IsVerdict};

use crate::lexeme::Lexeme;
use iv_recogniser::laws::sets_are_their_members;
use iv_recogniser::{Class, Part, Verdict, read};
use iv_text::Mem;
use std::alloc::Global;

/// The classes of some tokens, in order. Fails where memory runs out.
fn classes_of(alloc: Global, lexemes: &[Lexeme]) -> Mem<Vec<Class>>
    ensures ok { IfOk result (λ v. v.items ≡ map (λ t. t.class) lexemes.now) }
    ensures memory { IfErr result (λ w. w ≡ Memory) }
{
    let mut classes = Vec::new(alloc);
    for lexeme in lexemes {
        classes.push(lexeme.class)?;
    }
    Ok(classes)
}

/// Whether a form reads the tokens of a piece, or at which of them no form goes on. Takes linear time, and a stack of
/// its own. Fails where memory runs out.
pub fn judge(alloc: Global, lexemes: &[Lexeme]) -> Mem<Verdict>
    ensures verdict { IfOk result (λ v. IsVerdict lexemes.now v) }
    ensures memory { IfErr result (λ w. w ≡ Memory) }
{
    sets_are_their_members();
    let classes = classes_of(alloc, lexemes)?;
    read(alloc, Part::Command, &classes)
}
