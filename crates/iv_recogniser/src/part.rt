// Written by tools/outer_table.py. Do not edit.
//! The parts of the forms.

use crate::class::{Class, Sort};

/// A part of the forms. Each has its rows here: in small letters parts, in capitals tokens.
#[derive(Clone, Copy, Debug, PartialEq, Eq)]
pub enum Part {
    /// `NAME Sels OptAtts`
    Fact,
    /// `NAME Sels OptAtts MoreFacts`
    Facts,
    /// nothing; or `AND Fact MoreFacts`; or `NAME Sels OptAtts MoreFacts`
    MoreFacts,
    /// nothing; or `OPEN Sel MoreSels CLOSE`
    Sels,
    /// `NUMERAL SelTo`
    Sel,
    /// nothing; or `MINUS NUMERAL`
    SelTo,
    /// nothing; or `COMMA Sel MoreSels`
    MoreSels,
    /// nothing; or `LEFT Att MoreAtts RIGHT`
    OptAtts,
    /// nothing; or `COMMA Att MoreAtts`
    MoreAtts,
    /// `OF_FACTS OfFacts`; or `THEN_FACT ThenFact`; or `OF_TERMS OfTerms`; or `WHERE IDENTIFIER EQUAL TERM MoreWheres`; or `OTHER_NAME OptMark`
    Att,
    /// nothing; or `MARK`
    OptMark,
    /// nothing; or `MARK`; or `NAME Sels OptAtts FactPlaces`; or `DUMMY FactPlaces`
    OfFacts,
    /// nothing; or `NAME Sels OptAtts FactPlaces`; or `DUMMY FactPlaces`
    FactPlaces,
    /// nothing; or `MARK`; or `NAME Sels OptAtts`
    ThenFact,
    /// nothing; or `MARK`; or `TERM TermPlaces`; or `DUMMY TermPlaces`
    OfTerms,
    /// nothing; or `TERM TermPlaces`; or `DUMMY TermPlaces`
    TermPlaces,
    /// nothing; or `AND IDENTIFIER EQUAL TERM MoreWheres`
    MoreWheres,
    /// `TERM Pattern`
    Prop,
    /// nothing; or `OPEN IS TERM Terms CLOSE`
    Pattern,
    /// nothing; or `TERM Terms`
    Terms,
    /// `NAME ClaimName`; or `LEFT Att MoreAtts RIGHT COLON Prop`; or `NO_NAME Pattern`
    Claim,
    /// nothing; or `COLON Prop`; or `LEFT Att MoreAtts RIGHT COLON Prop`; or `OPEN IS TERM Terms CLOSE`
    ClaimName,
    /// `NAME PropsName`; or `LEFT Att MoreAtts RIGHT COLON TERM Pattern MoreProps`; or `NO_NAME Pattern MoreProps`
    Props,
    /// nothing; or `COLON TERM Pattern MoreProps`; or `LEFT Att MoreAtts RIGHT COLON TERM Pattern MoreProps`; or `OPEN IS TERM Terms CLOSE MoreProps`; or `TERM Pattern MoreProps`; or `AND Props`
    PropsName,
    /// nothing; or `TERM Pattern MoreProps`; or `AND Props`
    MoreProps,
    /// `NAME TermName`; or `LEFT Att MoreAtts RIGHT COLON TERM`; or `NO_NAME`
    LabelledTerm,
    /// nothing; or `COLON TERM`; or `LEFT Att MoreAtts RIGHT COLON TERM`
    TermName,
    /// nothing; or `NAME Names`
    Names,
    /// nothing; or `IDENTIFIER Idents`
    Idents,
    /// nothing; or `COLONS TYPE`
    OfType,
    /// `IDENTIFIER Idents OfType MoreVars`
    Vars,
    /// nothing; or `AND IDENTIFIER Idents OfType MoreVars`
    MoreVars,
    /// nothing; or `FOR Vars`
    OptFor,
    /// `IDENTIFIER COLONS TYPE Fix`
    Const,
    /// nothing; or `OPEN Fixity CLOSE`
    Fix,
    /// `PLAIN`; or `PREFIX LEFT PRIORITY RIGHT PRIORITY`; or `INFIX PLAIN LOW`; or `INFIXL PLAIN LOW`; or `INFIXR PLAIN LOW`; or `BINDER BINDING PRIORITY`
    Fixity,
    /// `NAME Suffix`; or `MINUS Suffix`; or `OPEN Item MoreSeq MoreSemi MoreAlt CLOSE Suffix`
    Method,
    /// nothing; or `NAME Suffix`; or `MINUS Suffix`; or `OPEN Item MoreSeq MoreSemi MoreAlt CLOSE Suffix`
    OptMethod,
    /// nothing; or `QUESTION`; or `PLUS`; or `LEFT OptNat RIGHT`
    Suffix,
    /// nothing; or `NUMERAL`
    OptNat,
    /// nothing; or `BAR Item MoreSeq MoreSemi MoreAlt`
    MoreAlt,
    /// nothing; or `SEMICOLON Item MoreSeq MoreSemi`
    MoreSemi,
    /// nothing; or `COMMA Item MoreSeq`
    MoreSeq,
    /// `RULE RuleRest`; or `MATCH MatchRest`; or `CALL_NAME CallRest`; or `MINUS Suffix`; or `OPEN Item MoreSeq MoreSemi MoreAlt CLOSE Suffix`
    Item,
    /// nothing; or `QUESTION`; or `PLUS`; or `LEFT OptNat RIGHT`; or `NAME Sels OptAtts MoreFacts`
    RuleRest,
    /// nothing; or `QUESTION`; or `PLUS`; or `LEFT OptNat RIGHT`; or `IDENTIFIER CallIdent`; or `NO_IDENT CallArgs`; or `OPEN Item MoreSeq MoreSemi MoreAlt CLOSE CallArgs`
    CallRest,
    /// nothing; or `IDENTIFIER CallIdent`; or `NO_IDENT CallArgs`; or `OPEN Item MoreSeq MoreSemi MoreAlt CLOSE CallArgs`
    CallArgs,
    /// nothing; or `COLON Fact Sections`; or `IDENTIFIER CallIdent`; or `NO_IDENT CallArgs`; or `OPEN Item MoreSeq MoreSemi MoreAlt CLOSE CallArgs`
    CallIdent,
    /// nothing; or `AND Fact Sections`; or `IDENTIFIER SectionIdent`; or `LONG Sels OptAtts Sections`
    Sections,
    /// nothing; or `COLON Fact Sections`; or `OPEN Sel MoreSels CLOSE OptAtts Sections`; or `LEFT Att MoreAtts RIGHT Sections`; or `AND Fact Sections`; or `IDENTIFIER SectionIdent`; or `LONG Sels OptAtts Sections`
    SectionIdent,
    /// nothing; or `QUESTION`; or `PLUS`; or `LEFT OptNat RIGHT`; or `PREMISES SubjectName Cases`; or `CONCLUSION SubjectName Cases`; or `OPEN TERM CLOSE Cases`; or `SUBJECT_NAME Sels OptAtts MoreFacts Cases`
    MatchRest,
    /// nothing; or `OPEN Sel MoreSels CLOSE OptAtts MoreFacts`; or `LEFT Att MoreAtts RIGHT MoreFacts`; or `AND Fact MoreFacts`; or `NAME Sels OptAtts MoreFacts`
    SubjectName,
    /// `IN Pat MorePats OptFor ARROW INTO Item MoreSeq MoreSemi MoreAlt OUT_OF MoreCases`
    Cases,
    /// nothing; or `CASE_BAR Pat MorePats OptFor ARROW INTO Item MoreSeq MoreSemi MoreAlt OUT_OF MoreCases`
    MoreCases,
    /// `IDENTIFIER PatIdent`; or `NO_IDENT Cut`
    Pat,
    /// nothing; or `COLON TERM Cut`; or `OPEN CUT OptNat CLOSE`
    PatIdent,
    /// nothing; or `OPEN CUT OptNat CLOSE`
    Cut,
    /// nothing; or `AND Pat MorePats`
    MorePats,
    /// `IDENTIFIER`; or `TVAR IDENTIFIER`; or `OPEN TVAR MoreTvars CLOSE IDENTIFIER`
    Typed,
    /// nothing; or `COMMA TVAR MoreTvars`
    MoreTvars,
    /// nothing; or `IDENTIFIER COLONS TYPE Fix MoreConsts`
    MoreConsts,
    /// nothing; or `OPEN JUDGING PRIORITY CLOSE`
    JudgmentForm,
    /// nothing; or `IDENTIFIER COLONS TYPE Fix AxiomConsts`; or `WHERE Axiom MoreAxioms`
    Axiomatized,
    /// nothing; or `AND IDENTIFIER COLONS TYPE Fix AxiomConsts`; or `WHERE Axiom MoreAxioms`
    AxiomConsts,
    /// `NAME OptAtts COLON TERM`
    Axiom,
    /// nothing; or `AND Axiom MoreAxioms`
    MoreAxioms,
    /// `METHODS IDENTIFIER Idents UsesDeclares`; or `USES IDENTIFIER Idents MethodsDeclares`; or `DECLARES IDENTIFIER Idents MethodsUses`; or `EQUAL Method`
    Parts,
    /// `USES IDENTIFIER Idents DeclaresAlone`; or `DECLARES IDENTIFIER Idents UsesAlone`; or `EQUAL Method`
    UsesDeclares,
    /// `METHODS IDENTIFIER Idents DeclaresAlone`; or `DECLARES IDENTIFIER Idents MethodsAlone`; or `EQUAL Method`
    MethodsDeclares,
    /// `METHODS IDENTIFIER Idents UsesAlone`; or `USES IDENTIFIER Idents MethodsAlone`; or `EQUAL Method`
    MethodsUses,
    /// `METHODS IDENTIFIER Idents Body`; or `EQUAL Method`
    MethodsAlone,
    /// `USES IDENTIFIER Idents Body`; or `EQUAL Method`
    UsesAlone,
    /// `DECLARES IDENTIFIER Idents Body`; or `EQUAL Method`
    DeclaresAlone,
    /// `EQUAL Method`
    Body,
    /// `NAME StatementName`; or `LEFT Att MoreAtts RIGHT COLON Stated`; or `NO_NAME Pattern`; or `FIXES Vars OptAssumes SHOWS Prop`; or `ASSUMES Props SHOWS Prop`; or `SHOWS Prop`
    Statement,
    /// nothing; or `COLON Stated`; or `LEFT Att MoreAtts RIGHT COLON Stated`; or `OPEN IS TERM Terms CLOSE`
    StatementName,
    /// `TERM Pattern`; or `FIXES Vars OptAssumes SHOWS Prop`; or `ASSUMES Props SHOWS Prop`; or `SHOWS Prop`
    Stated,
    /// nothing; or `ASSUMES Props`
    OptAssumes,
    /// nothing; or `AND TERM EQUAL TERM MoreEquations`
    MoreEquations,
    /// nothing; or `EQUAL NAME Sels OptAtts NoteMore`; or `LEFT Att MoreAtts RIGHT NoteEqual`; or `OPEN Sel MoreSels CLOSE OptAtts NoteMore`; or `AND NAME NoteName`; or `NAME Sels OptAtts NoteMore`
    NoteName,
    /// nothing; or `EQUAL NAME Sels OptAtts NoteMore`; or `AND NAME NoteName`; or `NAME Sels OptAtts NoteMore`
    NoteEqual,
    /// nothing; or `AND NAME NoteName`; or `NAME Sels OptAtts NoteMore`
    NoteMore,
    /// `IDENTIFIER ObtainedOne`; or `LONG PropsName`; or `LEFT Att MoreAtts RIGHT COLON TERM Pattern MoreProps`; or `NO_NAME Pattern MoreProps`
    Obtained,
    /// nothing; or `IDENTIFIER ObtainedMore`; or `COLONS TYPE MoreVars WHERE Props`; or `WHERE Props`; or `AND Obtained`; or `COLON TERM Pattern MoreProps`; or `LEFT Att MoreAtts RIGHT COLON TERM Pattern MoreProps`; or `OPEN IS TERM Terms CLOSE MoreProps`; or `NO_IDENT Pattern MoreProps`
    ObtainedOne,
    /// nothing; or `IDENTIFIER ObtainedMore`; or `COLONS TYPE MoreVars WHERE Props`; or `WHERE Props`; or `AND Obtained`; or `OPEN IS TERM Terms CLOSE MoreProps`; or `NO_IDENT Pattern MoreProps`
    ObtainedMore,
    /// A command: its word, and what stands behind it.
    Command,
}

/// What stands in a row: a token, or a part.
#[derive(Clone, Copy, Debug, PartialEq, Eq)]
pub enum Symbol {
    /// A token of a set.
    Word(Sort),
    /// A part.
    Goes(Part),
}

pub(crate) const W_NAME: Symbol = Symbol::Word(Sort::Name);

pub(crate) const W_AND: Symbol = Symbol::Word(Sort::Only(Class::And));

pub(crate) const W_OPEN: Symbol = Symbol::Word(Sort::Only(Class::Open));

pub(crate) const W_CLOSE: Symbol = Symbol::Word(Sort::Only(Class::Close));

pub(crate) const W_NUMERAL: Symbol = Symbol::Word(Sort::Numeral);

pub(crate) const W_MINUS: Symbol = Symbol::Word(Sort::Only(Class::Minus));

pub(crate) const W_COMMA: Symbol = Symbol::Word(Sort::Only(Class::Comma));

pub(crate) const W_LEFT: Symbol = Symbol::Word(Sort::Only(Class::Left));

pub(crate) const W_RIGHT: Symbol = Symbol::Word(Sort::Only(Class::Right));

pub(crate) const W_OF_FACTS: Symbol = Symbol::Word(Sort::Only(Class::OfFacts));

pub(crate) const W_THEN_FACT: Symbol = Symbol::Word(Sort::Only(Class::ThenFact));

pub(crate) const W_OF_TERMS: Symbol = Symbol::Word(Sort::Only(Class::OfTerms));

pub(crate) const W_WHERE: Symbol = Symbol::Word(Sort::Only(Class::Where));

pub(crate) const W_IDENTIFIER: Symbol = Symbol::Word(Sort::Identifier);

pub(crate) const W_EQUAL: Symbol = Symbol::Word(Sort::Only(Class::Equal));

pub(crate) const W_TERM: Symbol = Symbol::Word(Sort::Term);

pub(crate) const W_OTHER_NAME: Symbol = Symbol::Word(Sort::OtherName);

pub(crate) const W_MARK: Symbol = Symbol::Word(Sort::Mark);

pub(crate) const W_DUMMY: Symbol = Symbol::Word(Sort::Only(Class::Dummy));

pub(crate) const W_IS: Symbol = Symbol::Word(Sort::Only(Class::Is));

pub(crate) const W_COLON: Symbol = Symbol::Word(Sort::Only(Class::Colon));

pub(crate) const W_NO_NAME: Symbol = Symbol::Word(Sort::NoName);

pub(crate) const W_COLONS: Symbol = Symbol::Word(Sort::Only(Class::Colons));

pub(crate) const W_TYPE: Symbol = Symbol::Word(Sort::Type);

pub(crate) const W_FOR: Symbol = Symbol::Word(Sort::Only(Class::For));

pub(crate) const W_PLAIN: Symbol = Symbol::Word(Sort::Only(Class::Plain));

pub(crate) const W_PREFIX: Symbol = Symbol::Word(Sort::Only(Class::Prefix));

pub(crate) const W_PRIORITY: Symbol = Symbol::Word(Sort::Priority);

pub(crate) const W_INFIX: Symbol = Symbol::Word(Sort::Only(Class::Infix));

pub(crate) const W_LOW: Symbol = Symbol::Word(Sort::Only(Class::Low));

pub(crate) const W_INFIXL: Symbol = Symbol::Word(Sort::Only(Class::Infixl));

pub(crate) const W_INFIXR: Symbol = Symbol::Word(Sort::Only(Class::Infixr));

pub(crate) const W_BINDER: Symbol = Symbol::Word(Sort::Only(Class::Binder));

pub(crate) const W_BINDING: Symbol = Symbol::Word(Sort::Binding);

pub(crate) const W_QUESTION: Symbol = Symbol::Word(Sort::Only(Class::Question));

pub(crate) const W_PLUS: Symbol = Symbol::Word(Sort::Only(Class::Plus));

pub(crate) const W_BAR: Symbol = Symbol::Word(Sort::Only(Class::Bar));

pub(crate) const W_SEMICOLON: Symbol = Symbol::Word(Sort::Only(Class::Semicolon));

pub(crate) const W_RULE: Symbol = Symbol::Word(Sort::Only(Class::Rule));

pub(crate) const W_MATCH: Symbol = Symbol::Word(Sort::Only(Class::Match));

pub(crate) const W_CALL_NAME: Symbol = Symbol::Word(Sort::CallName);

pub(crate) const W_NO_IDENT: Symbol = Symbol::Word(Sort::NoIdent);

pub(crate) const W_LONG: Symbol = Symbol::Word(Sort::Only(Class::Long));

pub(crate) const W_PREMISES: Symbol = Symbol::Word(Sort::Only(Class::Premises));

pub(crate) const W_CONCLUSION: Symbol = Symbol::Word(Sort::Only(Class::Conclusion));

pub(crate) const W_SUBJECT_NAME: Symbol = Symbol::Word(Sort::SubjectName);

pub(crate) const W_IN: Symbol = Symbol::Word(Sort::Only(Class::In));

pub(crate) const W_ARROW: Symbol = Symbol::Word(Sort::Only(Class::Arrow));

pub(crate) const W_INTO: Symbol = Symbol::Word(Sort::Only(Class::Into));

pub(crate) const W_OUT_OF: Symbol = Symbol::Word(Sort::Only(Class::OutOf));

pub(crate) const W_CASE_BAR: Symbol = Symbol::Word(Sort::Only(Class::CaseBar));

pub(crate) const W_CUT: Symbol = Symbol::Word(Sort::Only(Class::Cut));

pub(crate) const W_TVAR: Symbol = Symbol::Word(Sort::Only(Class::Tvar));

pub(crate) const W_JUDGING: Symbol = Symbol::Word(Sort::Only(Class::Judging));

pub(crate) const W_METHODS: Symbol = Symbol::Word(Sort::Only(Class::Methods));

pub(crate) const W_USES: Symbol = Symbol::Word(Sort::Only(Class::Uses));

pub(crate) const W_DECLARES: Symbol = Symbol::Word(Sort::Only(Class::Declares));

pub(crate) const W_FIXES: Symbol = Symbol::Word(Sort::Only(Class::Fixes));

pub(crate) const W_SHOWS: Symbol = Symbol::Word(Sort::Only(Class::Shows));

pub(crate) const W_ASSUMES: Symbol = Symbol::Word(Sort::Only(Class::Assumes));

pub(crate) const W_THEORY: Symbol = Symbol::Word(Sort::Only(Class::Theory));

pub(crate) const W_IMPORTS: Symbol = Symbol::Word(Sort::Only(Class::Imports));

pub(crate) const W_BEGIN: Symbol = Symbol::Word(Sort::Only(Class::Begin));

pub(crate) const W_END: Symbol = Symbol::Word(Sort::Only(Class::End));

pub(crate) const W_CHAPTER: Symbol = Symbol::Word(Sort::Only(Class::Chapter));

pub(crate) const W_QUOTED: Symbol = Symbol::Word(Sort::Quoted);

pub(crate) const W_SECTION: Symbol = Symbol::Word(Sort::Only(Class::Section));

pub(crate) const W_SUBSECTION: Symbol = Symbol::Word(Sort::Only(Class::Subsection));

pub(crate) const W_SUBSUBSECTION: Symbol = Symbol::Word(Sort::Only(Class::Subsubsection));

pub(crate) const W_PARAGRAPH: Symbol = Symbol::Word(Sort::Only(Class::Paragraph));

pub(crate) const W_SUBPARAGRAPH: Symbol = Symbol::Word(Sort::Only(Class::Subparagraph));

pub(crate) const W_PROSE: Symbol = Symbol::Word(Sort::Only(Class::Prose));

pub(crate) const W_TXT: Symbol = Symbol::Word(Sort::Only(Class::Txt));

pub(crate) const W_TYPEDECL: Symbol = Symbol::Word(Sort::Only(Class::Typedecl));

pub(crate) const W_CONSTS: Symbol = Symbol::Word(Sort::Only(Class::Consts));

pub(crate) const W_JUDGMENT: Symbol = Symbol::Word(Sort::Only(Class::Judgment));

pub(crate) const W_AXIOMATIZATION: Symbol = Symbol::Word(Sort::Only(Class::Axiomatization));

pub(crate) const W_LEMMAS: Symbol = Symbol::Word(Sort::Only(Class::Lemmas));

pub(crate) const W_DECLARE: Symbol = Symbol::Word(Sort::Only(Class::Declare));

pub(crate) const W_NAMED_THEOREMS: Symbol = Symbol::Word(Sort::Only(Class::NamedTheorems));

pub(crate) const W_METHOD: Symbol = Symbol::Word(Sort::Only(Class::Method));

pub(crate) const W_LEMMA: Symbol = Symbol::Word(Sort::Only(Class::Lemma));

pub(crate) const W_THEOREM: Symbol = Symbol::Word(Sort::Only(Class::Theorem));

pub(crate) const W_COROLLARY: Symbol = Symbol::Word(Sort::Only(Class::Corollary));

pub(crate) const W_PROPOSITION: Symbol = Symbol::Word(Sort::Only(Class::Proposition));

pub(crate) const W_FIX: Symbol = Symbol::Word(Sort::Only(Class::Fix));

pub(crate) const W_ASSUME: Symbol = Symbol::Word(Sort::Only(Class::Assume));

pub(crate) const W_PRESUME: Symbol = Symbol::Word(Sort::Only(Class::Presume));

pub(crate) const W_DEFINE: Symbol = Symbol::Word(Sort::Only(Class::Define));

pub(crate) const W_NOTE: Symbol = Symbol::Word(Sort::Only(Class::Note));

pub(crate) const W_LET: Symbol = Symbol::Word(Sort::Only(Class::Let));

pub(crate) const W_LEFT_BRACE: Symbol = Symbol::Word(Sort::Only(Class::LeftBrace));

pub(crate) const W_RIGHT_BRACE: Symbol = Symbol::Word(Sort::Only(Class::RightBrace));

pub(crate) const W_NEXT: Symbol = Symbol::Word(Sort::Only(Class::Next));

pub(crate) const W_THEN: Symbol = Symbol::Word(Sort::Only(Class::Then));

pub(crate) const W_FROM: Symbol = Symbol::Word(Sort::Only(Class::From));

pub(crate) const W_WITH: Symbol = Symbol::Word(Sort::Only(Class::With));

pub(crate) const W_HAVE: Symbol = Symbol::Word(Sort::Only(Class::Have));

pub(crate) const W_SHOW: Symbol = Symbol::Word(Sort::Only(Class::Show));

pub(crate) const W_HENCE: Symbol = Symbol::Word(Sort::Only(Class::Hence));

pub(crate) const W_THUS: Symbol = Symbol::Word(Sort::Only(Class::Thus));

pub(crate) const W_OBTAIN: Symbol = Symbol::Word(Sort::Only(Class::Obtain));

pub(crate) const W_ALSO: Symbol = Symbol::Word(Sort::Only(Class::Also));

pub(crate) const W_MOREOVER: Symbol = Symbol::Word(Sort::Only(Class::Moreover));

pub(crate) const W_FINALLY: Symbol = Symbol::Word(Sort::Only(Class::Finally));

pub(crate) const W_ULTIMATELY: Symbol = Symbol::Word(Sort::Only(Class::Ultimately));

pub(crate) const W_APPLY: Symbol = Symbol::Word(Sort::Only(Class::Apply));

pub(crate) const W_USING: Symbol = Symbol::Word(Sort::Only(Class::Using));

pub(crate) const W_DEFER: Symbol = Symbol::Word(Sort::Only(Class::Defer));

pub(crate) const W_PREFER: Symbol = Symbol::Word(Sort::Only(Class::Prefer));

pub(crate) const W_BACK: Symbol = Symbol::Word(Sort::Only(Class::Back));

pub(crate) const W_PROOF: Symbol = Symbol::Word(Sort::Only(Class::Proof));

pub(crate) const W_QED: Symbol = Symbol::Word(Sort::Only(Class::Qed));

pub(crate) const W_BY: Symbol = Symbol::Word(Sort::Only(Class::By));

pub(crate) const W_DOT: Symbol = Symbol::Word(Sort::Only(Class::Dot));

pub(crate) const W_DOTS: Symbol = Symbol::Word(Sort::Only(Class::Dots));

pub(crate) const W_DONE: Symbol = Symbol::Word(Sort::Only(Class::Done));

pub(crate) const W_OOPS: Symbol = Symbol::Word(Sort::Only(Class::Oops));

pub(crate) const FACT: Symbol = Symbol::Goes(Part::Fact);

pub(crate) const FACTS: Symbol = Symbol::Goes(Part::Facts);

pub(crate) const MORE_FACTS: Symbol = Symbol::Goes(Part::MoreFacts);

pub(crate) const SELS: Symbol = Symbol::Goes(Part::Sels);

pub(crate) const SEL: Symbol = Symbol::Goes(Part::Sel);

pub(crate) const SEL_TO: Symbol = Symbol::Goes(Part::SelTo);

pub(crate) const MORE_SELS: Symbol = Symbol::Goes(Part::MoreSels);

pub(crate) const OPT_ATTS: Symbol = Symbol::Goes(Part::OptAtts);

pub(crate) const MORE_ATTS: Symbol = Symbol::Goes(Part::MoreAtts);

pub(crate) const ATT: Symbol = Symbol::Goes(Part::Att);

pub(crate) const OPT_MARK: Symbol = Symbol::Goes(Part::OptMark);

pub(crate) const OF_FACTS: Symbol = Symbol::Goes(Part::OfFacts);

pub(crate) const FACT_PLACES: Symbol = Symbol::Goes(Part::FactPlaces);

pub(crate) const THEN_FACT: Symbol = Symbol::Goes(Part::ThenFact);

pub(crate) const OF_TERMS: Symbol = Symbol::Goes(Part::OfTerms);

pub(crate) const TERM_PLACES: Symbol = Symbol::Goes(Part::TermPlaces);

pub(crate) const MORE_WHERES: Symbol = Symbol::Goes(Part::MoreWheres);

pub(crate) const PROP: Symbol = Symbol::Goes(Part::Prop);

pub(crate) const PATTERN: Symbol = Symbol::Goes(Part::Pattern);

pub(crate) const TERMS: Symbol = Symbol::Goes(Part::Terms);

pub(crate) const CLAIM: Symbol = Symbol::Goes(Part::Claim);

pub(crate) const CLAIM_NAME: Symbol = Symbol::Goes(Part::ClaimName);

pub(crate) const PROPS: Symbol = Symbol::Goes(Part::Props);

pub(crate) const PROPS_NAME: Symbol = Symbol::Goes(Part::PropsName);

pub(crate) const MORE_PROPS: Symbol = Symbol::Goes(Part::MoreProps);

pub(crate) const LABELLED_TERM: Symbol = Symbol::Goes(Part::LabelledTerm);

pub(crate) const TERM_NAME: Symbol = Symbol::Goes(Part::TermName);

pub(crate) const NAMES: Symbol = Symbol::Goes(Part::Names);

pub(crate) const IDENTS: Symbol = Symbol::Goes(Part::Idents);

pub(crate) const OF_TYPE: Symbol = Symbol::Goes(Part::OfType);

pub(crate) const VARS: Symbol = Symbol::Goes(Part::Vars);

pub(crate) const MORE_VARS: Symbol = Symbol::Goes(Part::MoreVars);

pub(crate) const OPT_FOR: Symbol = Symbol::Goes(Part::OptFor);

pub(crate) const CONST: Symbol = Symbol::Goes(Part::Const);

pub(crate) const FIX: Symbol = Symbol::Goes(Part::Fix);

pub(crate) const FIXITY: Symbol = Symbol::Goes(Part::Fixity);

pub(crate) const METHOD: Symbol = Symbol::Goes(Part::Method);

pub(crate) const OPT_METHOD: Symbol = Symbol::Goes(Part::OptMethod);

pub(crate) const SUFFIX: Symbol = Symbol::Goes(Part::Suffix);

pub(crate) const OPT_NAT: Symbol = Symbol::Goes(Part::OptNat);

pub(crate) const MORE_ALT: Symbol = Symbol::Goes(Part::MoreAlt);

pub(crate) const MORE_SEMI: Symbol = Symbol::Goes(Part::MoreSemi);

pub(crate) const MORE_SEQ: Symbol = Symbol::Goes(Part::MoreSeq);

pub(crate) const ITEM: Symbol = Symbol::Goes(Part::Item);

pub(crate) const RULE_REST: Symbol = Symbol::Goes(Part::RuleRest);

pub(crate) const CALL_REST: Symbol = Symbol::Goes(Part::CallRest);

pub(crate) const CALL_ARGS: Symbol = Symbol::Goes(Part::CallArgs);

pub(crate) const CALL_IDENT: Symbol = Symbol::Goes(Part::CallIdent);

pub(crate) const SECTIONS: Symbol = Symbol::Goes(Part::Sections);

pub(crate) const SECTION_IDENT: Symbol = Symbol::Goes(Part::SectionIdent);

pub(crate) const MATCH_REST: Symbol = Symbol::Goes(Part::MatchRest);

pub(crate) const SUBJECT_NAME: Symbol = Symbol::Goes(Part::SubjectName);

pub(crate) const CASES: Symbol = Symbol::Goes(Part::Cases);

pub(crate) const MORE_CASES: Symbol = Symbol::Goes(Part::MoreCases);

pub(crate) const PAT: Symbol = Symbol::Goes(Part::Pat);

pub(crate) const PAT_IDENT: Symbol = Symbol::Goes(Part::PatIdent);

pub(crate) const CUT: Symbol = Symbol::Goes(Part::Cut);

pub(crate) const MORE_PATS: Symbol = Symbol::Goes(Part::MorePats);

pub(crate) const TYPED: Symbol = Symbol::Goes(Part::Typed);

pub(crate) const MORE_TVARS: Symbol = Symbol::Goes(Part::MoreTvars);

pub(crate) const MORE_CONSTS: Symbol = Symbol::Goes(Part::MoreConsts);

pub(crate) const JUDGMENT_FORM: Symbol = Symbol::Goes(Part::JudgmentForm);

pub(crate) const AXIOMATIZED: Symbol = Symbol::Goes(Part::Axiomatized);

pub(crate) const AXIOM_CONSTS: Symbol = Symbol::Goes(Part::AxiomConsts);

pub(crate) const AXIOM: Symbol = Symbol::Goes(Part::Axiom);

pub(crate) const MORE_AXIOMS: Symbol = Symbol::Goes(Part::MoreAxioms);

pub(crate) const PARTS: Symbol = Symbol::Goes(Part::Parts);

pub(crate) const USES_DECLARES: Symbol = Symbol::Goes(Part::UsesDeclares);

pub(crate) const METHODS_DECLARES: Symbol = Symbol::Goes(Part::MethodsDeclares);

pub(crate) const METHODS_USES: Symbol = Symbol::Goes(Part::MethodsUses);

pub(crate) const METHODS_ALONE: Symbol = Symbol::Goes(Part::MethodsAlone);

pub(crate) const USES_ALONE: Symbol = Symbol::Goes(Part::UsesAlone);

pub(crate) const DECLARES_ALONE: Symbol = Symbol::Goes(Part::DeclaresAlone);

pub(crate) const BODY: Symbol = Symbol::Goes(Part::Body);

pub(crate) const STATEMENT: Symbol = Symbol::Goes(Part::Statement);

pub(crate) const STATEMENT_NAME: Symbol = Symbol::Goes(Part::StatementName);

pub(crate) const STATED: Symbol = Symbol::Goes(Part::Stated);

pub(crate) const OPT_ASSUMES: Symbol = Symbol::Goes(Part::OptAssumes);

pub(crate) const MORE_EQUATIONS: Symbol = Symbol::Goes(Part::MoreEquations);

pub(crate) const NOTE_NAME: Symbol = Symbol::Goes(Part::NoteName);

pub(crate) const NOTE_EQUAL: Symbol = Symbol::Goes(Part::NoteEqual);

pub(crate) const NOTE_MORE: Symbol = Symbol::Goes(Part::NoteMore);

pub(crate) const OBTAINED: Symbol = Symbol::Goes(Part::Obtained);

pub(crate) const OBTAINED_ONE: Symbol = Symbol::Goes(Part::ObtainedOne);

pub(crate) const OBTAINED_MORE: Symbol = Symbol::Goes(Part::ObtainedMore);
