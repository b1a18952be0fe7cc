//! The laws of the readers of methods, for those above, each as the contract of a function that does nothing.
ghost use Rattle.iv_readmethod.specs.Laws.{Below, MethodsAreRead, MethodsBegin, MethodsKeepPlaces, DeepMethodsArePlaced};

use iv_facts::laws::{
    deep_facts_are_placed, facts_are_read, forms_are_short, forms_begin, names_are_read,
    places_are_kept, sets_are_apart,
};

/// What is known of the readers below.
fn below()
    ensures { Below }
{
    sets_are_apart();
    facts_are_read();
    names_are_read();
    forms_are_short();
    forms_begin();
    places_are_kept();
    deep_facts_are_placed();
}

/// Whatever a method reads in front of nothing that goes on with it, the reader finds, or the place of its first part with more
/// than 400 levels.
pub fn methods_are_read()
    ensures { MethodsAreRead }
{
    below();
}

/// Where a method may be, the first token is none of a set that has none of a method's first ones nor what is behind it.
pub fn methods_begin()
    ensures { MethodsBegin }
{
    below();
}

/// A place among the tokens behind a method is among those that it reads.
pub fn methods_keep_places()
    ensures { MethodsKeepPlaces }
{
    below();
}

/// Where a method, or a fact in it, has more than 400 levels, one of the tokens begins there.
pub fn deep_methods_are_placed()
    ensures { DeepMethodsArePlaced }
{
    below();
}
