//! The laws of the readers, for those above, each as the contract of a function that does nothing.
ghost use Rattle.iv_facts.specs.Laws.{SetsAreApart, FactsAreRead, PropsAreRead, NamesAreRead, FormsAreShort, FormsBegin, PlacesAreKept, DeepFactsArePlaced};

use iv_recogniser::laws::sets_are_their_members;

/// A set whose members are all in another is within it, and one that has none of its members has no class in common with it.
pub fn sets_are_apart()
    ensures { SetsAreApart }
{
    sets_are_their_members();
}

/// Whatever a fact reads in front of no selection and no attributes, and whatever facts read in front of nothing that goes on with
/// them, the reader finds, or the place of the first fact with more than 400 levels.
pub fn facts_are_read()
    ensures { FactsAreRead }
{
    sets_are_their_members();
}

/// Whatever a label, a proposition, a claim or groups of propositions read in front of nothing that goes on with them, the reader
/// finds, or the place of the first label with more than 400 levels.
pub fn props_are_read()
    ensures { PropsAreRead }
{
    sets_are_their_members();
}

/// Whatever names, a type and names with types read in front of nothing that goes on with them, the reader finds.
pub fn names_are_read()
    ensures { NamesAreRead }
{
    sets_are_their_members();
}

/// What is behind a form is no longer than what it reads, and shorter where the form has a token.
pub fn forms_are_short()
    ensures { FormsAreShort }
{}

/// A form begins with no token of a set that has none of its first ones; where it may be empty, with what is behind it.
pub fn forms_begin()
    ensures { FormsBegin }
{
    sets_are_their_members();
}

/// A place among the tokens behind a form is among those that it reads.
pub fn places_are_kept()
    ensures { PlacesAreKept }
{}

/// Where a fact or a label has more than 400 levels, one of the tokens begins there.
pub fn deep_facts_are_placed()
    ensures { DeepFactsArePlaced }
{}
