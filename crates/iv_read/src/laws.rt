//! The law of the readers.
ghost use Rattle.std.specs.Prelude.{◌≡◌, List, [], Option, Some};
ghost use Rattle.iv_text.specs.declared.Pos.{Pos};
ghost use Rattle.iv_forms.specs.declared.command.Body.{Body};
ghost use Rattle.iv_forms.specs.declared.lexeme.Lexeme.{Lexeme};
ghost use Rattle.iv_forms.specs.CommandForm.{IsForm};
ghost use Rattle.iv_facts.specs.Found.{IsAmong, unless_deep};
ghost use Rattle.iv_read.specs.FormLevels.{deep_form};
ghost use Rattle.iv_read.specs.Forms.{form};
ghost use Rattle.iv_read.specs.Laws.{Below};

use iv_facts::laws::{
    deep_facts_are_placed, facts_are_read, forms_are_short, forms_begin, names_are_read,
    places_are_kept, props_are_read, sets_are_apart,
};
use iv_readmethod::laws::{
    deep_methods_are_placed, methods_are_read, methods_begin, methods_keep_places,
};
use iv_recogniser::laws::classes_are_their_numbers;

/// What is known of the readers below.
fn below()
    ensures { Below }
{
    sets_are_apart();
    facts_are_read();
    props_are_read();
    names_are_read();
    forms_are_short();
    forms_begin();
    places_are_kept();
    deep_facts_are_placed();
    methods_are_read();
    methods_begin();
    methods_keep_places();
    deep_methods_are_placed();
}

/// Whatever a form reads all of the tokens as, the reader finds: the command, or the place of its first part with more than
/// 400 levels.
pub fn forms_are_read()
    ensures { (f : Body) (ts : List Lexeme) (d : IsForm f ts []) → form ts ≡ unless_deep (deep_form d) f [] }
{
    below();
    classes_are_their_numbers();
}

/// Where a form has a part with more than 400 levels, one of the tokens that it reads begins there.
pub fn deep_parts_are_placed()
    ensures { (f : Body) (ts us : List Lexeme) (d : IsForm f ts us) (p : Pos) → deep_form d ≡ Some p → IsAmong p ts }
{
    below();
}
