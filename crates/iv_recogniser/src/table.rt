// Written by tools/outer_table.py. Do not edit.
//! The table of forms: each part with its rows.
ghost use Rattle.std.specs.Prelude.{◌≡◌};
ghost use Rattle.iv_recogniser.specs.Table.{forms, plain};

use crate::part::ATT;
use crate::part::AXIOM;
use crate::part::AXIOM_CONSTS;
use crate::part::AXIOMATIZED;
use crate::part::BODY;
use crate::part::CALL_ARGS;
use crate::part::CALL_IDENT;
use crate::part::CALL_REST;
use crate::part::CASES;
use crate::part::CLAIM;
use crate::part::CLAIM_NAME;
use crate::part::CONST;
use crate::part::CUT;
use crate::part::DECLARES_ALONE;
use crate::part::FACT;
use crate::part::FACT_PLACES;
use crate::part::FACTS;
use crate::part::FIX;
use crate::part::FIXITY;
use crate::part::IDENTS;
use crate::part::ITEM;
use crate::part::JUDGMENT_FORM;
use crate::part::LABELLED_TERM;
use crate::part::MATCH_REST;
use crate::part::METHOD;
use crate::part::METHODS_ALONE;
use crate::part::METHODS_DECLARES;
use crate::part::METHODS_USES;
use crate::part::MORE_ALT;
use crate::part::MORE_ATTS;
use crate::part::MORE_AXIOMS;
use crate::part::MORE_CASES;
use crate::part::MORE_CONSTS;
use crate::part::MORE_EQUATIONS;
use crate::part::MORE_FACTS;
use crate::part::MORE_PATS;
use crate::part::MORE_PROPS;
use crate::part::MORE_SELS;
use crate::part::MORE_SEMI;
use crate::part::MORE_SEQ;
use crate::part::MORE_TVARS;
use crate::part::MORE_VARS;
use crate::part::MORE_WHERES;
use crate::part::NAMES;
use crate::part::NOTE_EQUAL;
use crate::part::NOTE_MORE;
use crate::part::NOTE_NAME;
use crate::part::OBTAINED;
use crate::part::OBTAINED_MORE;
use crate::part::OBTAINED_ONE;
use crate::part::OF_FACTS;
use crate::part::OF_TERMS;
use crate::part::OF_TYPE;
use crate::part::OPT_ASSUMES;
use crate::part::OPT_ATTS;
use crate::part::OPT_FOR;
use crate::part::OPT_MARK;
use crate::part::OPT_METHOD;
use crate::part::OPT_NAT;
use crate::part::PARTS;
use crate::part::PAT;
use crate::part::PAT_IDENT;
use crate::part::PATTERN;
use crate::part::PROP;
use crate::part::PROPS;
use crate::part::PROPS_NAME;
use crate::part::Part;
use crate::part::RULE_REST;
use crate::part::SECTION_IDENT;
use crate::part::SECTIONS;
use crate::part::SEL;
use crate::part::SEL_TO;
use crate::part::SELS;
use crate::part::STATED;
use crate::part::STATEMENT;
use crate::part::STATEMENT_NAME;
use crate::part::SUBJECT_NAME;
use crate::part::SUFFIX;
use crate::part::Symbol;
use crate::part::TERM_NAME;
use crate::part::TERM_PLACES;
use crate::part::TERMS;
use crate::part::THEN_FACT;
use crate::part::TYPED;
use crate::part::USES_ALONE;
use crate::part::USES_DECLARES;
use crate::part::VARS;
use crate::part::W_ALSO;
use crate::part::W_AND;
use crate::part::W_APPLY;
use crate::part::W_ARROW;
use crate::part::W_ASSUME;
use crate::part::W_ASSUMES;
use crate::part::W_AXIOMATIZATION;
use crate::part::W_BACK;
use crate::part::W_BAR;
use crate::part::W_BEGIN;
use crate::part::W_BINDER;
use crate::part::W_BINDING;
use crate::part::W_BY;
use crate::part::W_CALL_NAME;
use crate::part::W_CASE_BAR;
use crate::part::W_CHAPTER;
use crate::part::W_CLOSE;
use crate::part::W_COLON;
use crate::part::W_COLONS;
use crate::part::W_COMMA;
use crate::part::W_CONCLUSION;
use crate::part::W_CONSTS;
use crate::part::W_COROLLARY;
use crate::part::W_CUT;
use crate::part::W_DECLARE;
use crate::part::W_DECLARES;
use crate::part::W_DEFER;
use crate::part::W_DEFINE;
use crate::part::W_DONE;
use crate::part::W_DOT;
use crate::part::W_DOTS;
use crate::part::W_DUMMY;
use crate::part::W_END;
use crate::part::W_EQUAL;
use crate::part::W_FINALLY;
use crate::part::W_FIX;
use crate::part::W_FIXES;
use crate::part::W_FOR;
use crate::part::W_FROM;
use crate::part::W_HAVE;
use crate::part::W_HENCE;
use crate::part::W_IDENTIFIER;
use crate::part::W_IMPORTS;
use crate::part::W_IN;
use crate::part::W_INFIX;
use crate::part::W_INFIXL;
use crate::part::W_INFIXR;
use crate::part::W_INTO;
use crate::part::W_IS;
use crate::part::W_JUDGING;
use crate::part::W_JUDGMENT;
use crate::part::W_LEFT;
use crate::part::W_LEFT_BRACE;
use crate::part::W_LEMMA;
use crate::part::W_LEMMAS;
use crate::part::W_LET;
use crate::part::W_LONG;
use crate::part::W_LOW;
use crate::part::W_MARK;
use crate::part::W_MATCH;
use crate::part::W_METHOD;
use crate::part::W_METHODS;
use crate::part::W_MINUS;
use crate::part::W_MOREOVER;
use crate::part::W_NAME;
use crate::part::W_NAMED_THEOREMS;
use crate::part::W_NEXT;
use crate::part::W_NO_IDENT;
use crate::part::W_NO_NAME;
use crate::part::W_NOTE;
use crate::part::W_NUMERAL;
use crate::part::W_OBTAIN;
use crate::part::W_OF_FACTS;
use crate::part::W_OF_TERMS;
use crate::part::W_OOPS;
use crate::part::W_OPEN;
use crate::part::W_OTHER_NAME;
use crate::part::W_OUT_OF;
use crate::part::W_PARAGRAPH;
use crate::part::W_PLAIN;
use crate::part::W_PLUS;
use crate::part::W_PREFER;
use crate::part::W_PREFIX;
use crate::part::W_PREMISES;
use crate::part::W_PRESUME;
use crate::part::W_PRIORITY;
use crate::part::W_PROOF;
use crate::part::W_PROPOSITION;
use crate::part::W_PROSE;
use crate::part::W_QED;
use crate::part::W_QUESTION;
use crate::part::W_QUOTED;
use crate::part::W_RIGHT;
use crate::part::W_RIGHT_BRACE;
use crate::part::W_RULE;
use crate::part::W_SECTION;
use crate::part::W_SEMICOLON;
use crate::part::W_SHOW;
use crate::part::W_SHOWS;
use crate::part::W_SUBJECT_NAME;
use crate::part::W_SUBPARAGRAPH;
use crate::part::W_SUBSECTION;
use crate::part::W_SUBSUBSECTION;
use crate::part::W_TERM;
use crate::part::W_THEN;
use crate::part::W_THEN_FACT;
use crate::part::W_THEOREM;
use crate::part::W_THEORY;
use crate::part::W_THUS;
use crate::part::W_TVAR;
use crate::part::W_TXT;
use crate::part::W_TYPE;
use crate::part::W_TYPEDECL;
use crate::part::W_ULTIMATELY;
use crate::part::W_USES;
use crate::part::W_USING;
use crate::part::W_WHERE;
use crate::part::W_WITH;

const FACT_ROWS: &[&[Symbol]] = &[&[W_NAME, SELS, OPT_ATTS]];

const FACTS_ROWS: &[&[Symbol]] = &[&[W_NAME, SELS, OPT_ATTS, MORE_FACTS]];

const MORE_FACTS_ROWS: &[&[Symbol]] = &[
    &[],
    &[W_AND, FACT, MORE_FACTS],
    &[W_NAME, SELS, OPT_ATTS, MORE_FACTS],
];

const SELS_ROWS: &[&[Symbol]] = &[&[], &[W_OPEN, SEL, MORE_SELS, W_CLOSE]];

const SEL_ROWS: &[&[Symbol]] = &[&[W_NUMERAL, SEL_TO]];

const SEL_TO_ROWS: &[&[Symbol]] = &[&[], &[W_MINUS, W_NUMERAL]];

const MORE_SELS_ROWS: &[&[Symbol]] = &[&[], &[W_COMMA, SEL, MORE_SELS]];

const OPT_ATTS_ROWS: &[&[Symbol]] = &[&[], &[W_LEFT, ATT, MORE_ATTS, W_RIGHT]];

const MORE_ATTS_ROWS: &[&[Symbol]] = &[&[], &[W_COMMA, ATT, MORE_ATTS]];

const ATT_ROWS: &[&[Symbol]] = &[
    &[W_OF_FACTS, OF_FACTS],
    &[W_THEN_FACT, THEN_FACT],
    &[W_OF_TERMS, OF_TERMS],
    &[W_WHERE, W_IDENTIFIER, W_EQUAL, W_TERM, MORE_WHERES],
    &[W_OTHER_NAME, OPT_MARK],
];

const OPT_MARK_ROWS: &[&[Symbol]] = &[&[], &[W_MARK]];

const OF_FACTS_ROWS: &[&[Symbol]] = &[
    &[],
    &[W_MARK],
    &[W_NAME, SELS, OPT_ATTS, FACT_PLACES],
    &[W_DUMMY, FACT_PLACES],
];

const FACT_PLACES_ROWS: &[&[Symbol]] = &[
    &[],
    &[W_NAME, SELS, OPT_ATTS, FACT_PLACES],
    &[W_DUMMY, FACT_PLACES],
];

const THEN_FACT_ROWS: &[&[Symbol]] = &[&[], &[W_MARK], &[W_NAME, SELS, OPT_ATTS]];

const OF_TERMS_ROWS: &[&[Symbol]] = &[
    &[],
    &[W_MARK],
    &[W_TERM, TERM_PLACES],
    &[W_DUMMY, TERM_PLACES],
];

const TERM_PLACES_ROWS: &[&[Symbol]] = &[&[], &[W_TERM, TERM_PLACES], &[W_DUMMY, TERM_PLACES]];

const MORE_WHERES_ROWS: &[&[Symbol]] = &[&[], &[W_AND, W_IDENTIFIER, W_EQUAL, W_TERM, MORE_WHERES]];

const PROP_ROWS: &[&[Symbol]] = &[&[W_TERM, PATTERN]];

const PATTERN_ROWS: &[&[Symbol]] = &[&[], &[W_OPEN, W_IS, W_TERM, TERMS, W_CLOSE]];

const TERMS_ROWS: &[&[Symbol]] = &[&[], &[W_TERM, TERMS]];

const CLAIM_ROWS: &[&[Symbol]] = &[
    &[W_NAME, CLAIM_NAME],
    &[W_LEFT, ATT, MORE_ATTS, W_RIGHT, W_COLON, PROP],
    &[W_NO_NAME, PATTERN],
];

const CLAIM_NAME_ROWS: &[&[Symbol]] = &[
    &[],
    &[W_COLON, PROP],
    &[W_LEFT, ATT, MORE_ATTS, W_RIGHT, W_COLON, PROP],
    &[W_OPEN, W_IS, W_TERM, TERMS, W_CLOSE],
];

const PROPS_ROWS: &[&[Symbol]] = &[
    &[W_NAME, PROPS_NAME],
    &[
        W_LEFT, ATT, MORE_ATTS, W_RIGHT, W_COLON, W_TERM, PATTERN, MORE_PROPS,
    ],
    &[W_NO_NAME, PATTERN, MORE_PROPS],
];

const PROPS_NAME_ROWS: &[&[Symbol]] = &[
    &[],
    &[W_COLON, W_TERM, PATTERN, MORE_PROPS],
    &[
        W_LEFT, ATT, MORE_ATTS, W_RIGHT, W_COLON, W_TERM, PATTERN, MORE_PROPS,
    ],
    &[W_OPEN, W_IS, W_TERM, TERMS, W_CLOSE, MORE_PROPS],
    &[W_TERM, PATTERN, MORE_PROPS],
    &[W_AND, PROPS],
];

const MORE_PROPS_ROWS: &[&[Symbol]] = &[&[], &[W_TERM, PATTERN, MORE_PROPS], &[W_AND, PROPS]];

const LABELLED_TERM_ROWS: &[&[Symbol]] = &[
    &[W_NAME, TERM_NAME],
    &[W_LEFT, ATT, MORE_ATTS, W_RIGHT, W_COLON, W_TERM],
    &[W_NO_NAME],
];

const TERM_NAME_ROWS: &[&[Symbol]] = &[
    &[],
    &[W_COLON, W_TERM],
    &[W_LEFT, ATT, MORE_ATTS, W_RIGHT, W_COLON, W_TERM],
];

const NAMES_ROWS: &[&[Symbol]] = &[&[], &[W_NAME, NAMES]];

const IDENTS_ROWS: &[&[Symbol]] = &[&[], &[W_IDENTIFIER, IDENTS]];

const OF_TYPE_ROWS: &[&[Symbol]] = &[&[], &[W_COLONS, W_TYPE]];

const VARS_ROWS: &[&[Symbol]] = &[&[W_IDENTIFIER, IDENTS, OF_TYPE, MORE_VARS]];

const MORE_VARS_ROWS: &[&[Symbol]] = &[&[], &[W_AND, W_IDENTIFIER, IDENTS, OF_TYPE, MORE_VARS]];

const OPT_FOR_ROWS: &[&[Symbol]] = &[&[], &[W_FOR, VARS]];

const CONST_ROWS: &[&[Symbol]] = &[&[W_IDENTIFIER, W_COLONS, W_TYPE, FIX]];

const FIX_ROWS: &[&[Symbol]] = &[&[], &[W_OPEN, FIXITY, W_CLOSE]];

const FIXITY_ROWS: &[&[Symbol]] = &[
    &[W_PLAIN],
    &[W_PREFIX, W_LEFT, W_PRIORITY, W_RIGHT, W_PRIORITY],
    &[W_INFIX, W_PLAIN, W_LOW],
    &[W_INFIXL, W_PLAIN, W_LOW],
    &[W_INFIXR, W_PLAIN, W_LOW],
    &[W_BINDER, W_BINDING, W_PRIORITY],
];

const METHOD_ROWS: &[&[Symbol]] = &[
    &[W_NAME, SUFFIX],
    &[W_MINUS, SUFFIX],
    &[W_OPEN, ITEM, MORE_SEQ, MORE_SEMI, MORE_ALT, W_CLOSE, SUFFIX],
];

const OPT_METHOD_ROWS: &[&[Symbol]] = &[
    &[],
    &[W_NAME, SUFFIX],
    &[W_MINUS, SUFFIX],
    &[W_OPEN, ITEM, MORE_SEQ, MORE_SEMI, MORE_ALT, W_CLOSE, SUFFIX],
];

const SUFFIX_ROWS: &[&[Symbol]] = &[&[], &[W_QUESTION], &[W_PLUS], &[W_LEFT, OPT_NAT, W_RIGHT]];

const OPT_NAT_ROWS: &[&[Symbol]] = &[&[], &[W_NUMERAL]];

const MORE_ALT_ROWS: &[&[Symbol]] = &[&[], &[W_BAR, ITEM, MORE_SEQ, MORE_SEMI, MORE_ALT]];

const MORE_SEMI_ROWS: &[&[Symbol]] = &[&[], &[W_SEMICOLON, ITEM, MORE_SEQ, MORE_SEMI]];

const MORE_SEQ_ROWS: &[&[Symbol]] = &[&[], &[W_COMMA, ITEM, MORE_SEQ]];

const ITEM_ROWS: &[&[Symbol]] = &[
    &[W_RULE, RULE_REST],
    &[W_MATCH, MATCH_REST],
    &[W_CALL_NAME, CALL_REST],
    &[W_MINUS, SUFFIX],
    &[W_OPEN, ITEM, MORE_SEQ, MORE_SEMI, MORE_ALT, W_CLOSE, SUFFIX],
];

const RULE_REST_ROWS: &[&[Symbol]] = &[
    &[],
    &[W_QUESTION],
    &[W_PLUS],
    &[W_LEFT, OPT_NAT, W_RIGHT],
    &[W_NAME, SELS, OPT_ATTS, MORE_FACTS],
];

const CALL_REST_ROWS: &[&[Symbol]] = &[
    &[],
    &[W_QUESTION],
    &[W_PLUS],
    &[W_LEFT, OPT_NAT, W_RIGHT],
    &[W_IDENTIFIER, CALL_IDENT],
    &[W_NO_IDENT, CALL_ARGS],
    &[
        W_OPEN, ITEM, MORE_SEQ, MORE_SEMI, MORE_ALT, W_CLOSE, CALL_ARGS,
    ],
];

const CALL_ARGS_ROWS: &[&[Symbol]] = &[
    &[],
    &[W_IDENTIFIER, CALL_IDENT],
    &[W_NO_IDENT, CALL_ARGS],
    &[
        W_OPEN, ITEM, MORE_SEQ, MORE_SEMI, MORE_ALT, W_CLOSE, CALL_ARGS,
    ],
];

const CALL_IDENT_ROWS: &[&[Symbol]] = &[
    &[],
    &[W_COLON, FACT, SECTIONS],
    &[W_IDENTIFIER, CALL_IDENT],
    &[W_NO_IDENT, CALL_ARGS],
    &[
        W_OPEN, ITEM, MORE_SEQ, MORE_SEMI, MORE_ALT, W_CLOSE, CALL_ARGS,
    ],
];

const SECTIONS_ROWS: &[&[Symbol]] = &[
    &[],
    &[W_AND, FACT, SECTIONS],
    &[W_IDENTIFIER, SECTION_IDENT],
    &[W_LONG, SELS, OPT_ATTS, SECTIONS],
];

const SECTION_IDENT_ROWS: &[&[Symbol]] = &[
    &[],
    &[W_COLON, FACT, SECTIONS],
    &[W_OPEN, SEL, MORE_SELS, W_CLOSE, OPT_ATTS, SECTIONS],
    &[W_LEFT, ATT, MORE_ATTS, W_RIGHT, SECTIONS],
    &[W_AND, FACT, SECTIONS],
    &[W_IDENTIFIER, SECTION_IDENT],
    &[W_LONG, SELS, OPT_ATTS, SECTIONS],
];

const MATCH_REST_ROWS: &[&[Symbol]] = &[
    &[],
    &[W_QUESTION],
    &[W_PLUS],
    &[W_LEFT, OPT_NAT, W_RIGHT],
    &[W_PREMISES, SUBJECT_NAME, CASES],
    &[W_CONCLUSION, SUBJECT_NAME, CASES],
    &[W_OPEN, W_TERM, W_CLOSE, CASES],
    &[W_SUBJECT_NAME, SELS, OPT_ATTS, MORE_FACTS, CASES],
];

const SUBJECT_NAME_ROWS: &[&[Symbol]] = &[
    &[],
    &[W_OPEN, SEL, MORE_SELS, W_CLOSE, OPT_ATTS, MORE_FACTS],
    &[W_LEFT, ATT, MORE_ATTS, W_RIGHT, MORE_FACTS],
    &[W_AND, FACT, MORE_FACTS],
    &[W_NAME, SELS, OPT_ATTS, MORE_FACTS],
];

const CASES_ROWS: &[&[Symbol]] = &[&[
    W_IN, PAT, MORE_PATS, OPT_FOR, W_ARROW, W_INTO, ITEM, MORE_SEQ, MORE_SEMI, MORE_ALT, W_OUT_OF,
    MORE_CASES,
]];

const MORE_CASES_ROWS: &[&[Symbol]] = &[
    &[],
    &[
        W_CASE_BAR, PAT, MORE_PATS, OPT_FOR, W_ARROW, W_INTO, ITEM, MORE_SEQ, MORE_SEMI, MORE_ALT,
        W_OUT_OF, MORE_CASES,
    ],
];

const PAT_ROWS: &[&[Symbol]] = &[&[W_IDENTIFIER, PAT_IDENT], &[W_NO_IDENT, CUT]];

const PAT_IDENT_ROWS: &[&[Symbol]] = &[
    &[],
    &[W_COLON, W_TERM, CUT],
    &[W_OPEN, W_CUT, OPT_NAT, W_CLOSE],
];

const CUT_ROWS: &[&[Symbol]] = &[&[], &[W_OPEN, W_CUT, OPT_NAT, W_CLOSE]];

const MORE_PATS_ROWS: &[&[Symbol]] = &[&[], &[W_AND, PAT, MORE_PATS]];

const TYPED_ROWS: &[&[Symbol]] = &[
    &[W_IDENTIFIER],
    &[W_TVAR, W_IDENTIFIER],
    &[W_OPEN, W_TVAR, MORE_TVARS, W_CLOSE, W_IDENTIFIER],
];

const MORE_TVARS_ROWS: &[&[Symbol]] = &[&[], &[W_COMMA, W_TVAR, MORE_TVARS]];

const MORE_CONSTS_ROWS: &[&[Symbol]] = &[&[], &[W_IDENTIFIER, W_COLONS, W_TYPE, FIX, MORE_CONSTS]];

const JUDGMENT_FORM_ROWS: &[&[Symbol]] = &[&[], &[W_OPEN, W_JUDGING, W_PRIORITY, W_CLOSE]];

const AXIOMATIZED_ROWS: &[&[Symbol]] = &[
    &[],
    &[W_IDENTIFIER, W_COLONS, W_TYPE, FIX, AXIOM_CONSTS],
    &[W_WHERE, AXIOM, MORE_AXIOMS],
];

const AXIOM_CONSTS_ROWS: &[&[Symbol]] = &[
    &[],
    &[W_AND, W_IDENTIFIER, W_COLONS, W_TYPE, FIX, AXIOM_CONSTS],
    &[W_WHERE, AXIOM, MORE_AXIOMS],
];

const AXIOM_ROWS: &[&[Symbol]] = &[&[W_NAME, OPT_ATTS, W_COLON, W_TERM]];

const MORE_AXIOMS_ROWS: &[&[Symbol]] = &[&[], &[W_AND, AXIOM, MORE_AXIOMS]];

const PARTS_ROWS: &[&[Symbol]] = &[
    &[W_METHODS, W_IDENTIFIER, IDENTS, USES_DECLARES],
    &[W_USES, W_IDENTIFIER, IDENTS, METHODS_DECLARES],
    &[W_DECLARES, W_IDENTIFIER, IDENTS, METHODS_USES],
    &[W_EQUAL, METHOD],
];

const USES_DECLARES_ROWS: &[&[Symbol]] = &[
    &[W_USES, W_IDENTIFIER, IDENTS, DECLARES_ALONE],
    &[W_DECLARES, W_IDENTIFIER, IDENTS, USES_ALONE],
    &[W_EQUAL, METHOD],
];

const METHODS_DECLARES_ROWS: &[&[Symbol]] = &[
    &[W_METHODS, W_IDENTIFIER, IDENTS, DECLARES_ALONE],
    &[W_DECLARES, W_IDENTIFIER, IDENTS, METHODS_ALONE],
    &[W_EQUAL, METHOD],
];

const METHODS_USES_ROWS: &[&[Symbol]] = &[
    &[W_METHODS, W_IDENTIFIER, IDENTS, USES_ALONE],
    &[W_USES, W_IDENTIFIER, IDENTS, METHODS_ALONE],
    &[W_EQUAL, METHOD],
];

const METHODS_ALONE_ROWS: &[&[Symbol]] = &[
    &[W_METHODS, W_IDENTIFIER, IDENTS, BODY],
    &[W_EQUAL, METHOD],
];

const USES_ALONE_ROWS: &[&[Symbol]] = &[&[W_USES, W_IDENTIFIER, IDENTS, BODY], &[W_EQUAL, METHOD]];

const DECLARES_ALONE_ROWS: &[&[Symbol]] = &[
    &[W_DECLARES, W_IDENTIFIER, IDENTS, BODY],
    &[W_EQUAL, METHOD],
];

const BODY_ROWS: &[&[Symbol]] = &[&[W_EQUAL, METHOD]];

const STATEMENT_ROWS: &[&[Symbol]] = &[
    &[W_NAME, STATEMENT_NAME],
    &[W_LEFT, ATT, MORE_ATTS, W_RIGHT, W_COLON, STATED],
    &[W_NO_NAME, PATTERN],
    &[W_FIXES, VARS, OPT_ASSUMES, W_SHOWS, PROP],
    &[W_ASSUMES, PROPS, W_SHOWS, PROP],
    &[W_SHOWS, PROP],
];

const STATEMENT_NAME_ROWS: &[&[Symbol]] = &[
    &[],
    &[W_COLON, STATED],
    &[W_LEFT, ATT, MORE_ATTS, W_RIGHT, W_COLON, STATED],
    &[W_OPEN, W_IS, W_TERM, TERMS, W_CLOSE],
];

const STATED_ROWS: &[&[Symbol]] = &[
    &[W_TERM, PATTERN],
    &[W_FIXES, VARS, OPT_ASSUMES, W_SHOWS, PROP],
    &[W_ASSUMES, PROPS, W_SHOWS, PROP],
    &[W_SHOWS, PROP],
];

const OPT_ASSUMES_ROWS: &[&[Symbol]] = &[&[], &[W_ASSUMES, PROPS]];

const MORE_EQUATIONS_ROWS: &[&[Symbol]] = &[&[], &[W_AND, W_TERM, W_EQUAL, W_TERM, MORE_EQUATIONS]];

const NOTE_NAME_ROWS: &[&[Symbol]] = &[
    &[],
    &[W_EQUAL, W_NAME, SELS, OPT_ATTS, NOTE_MORE],
    &[W_LEFT, ATT, MORE_ATTS, W_RIGHT, NOTE_EQUAL],
    &[W_OPEN, SEL, MORE_SELS, W_CLOSE, OPT_ATTS, NOTE_MORE],
    &[W_AND, W_NAME, NOTE_NAME],
    &[W_NAME, SELS, OPT_ATTS, NOTE_MORE],
];

const NOTE_EQUAL_ROWS: &[&[Symbol]] = &[
    &[],
    &[W_EQUAL, W_NAME, SELS, OPT_ATTS, NOTE_MORE],
    &[W_AND, W_NAME, NOTE_NAME],
    &[W_NAME, SELS, OPT_ATTS, NOTE_MORE],
];

const NOTE_MORE_ROWS: &[&[Symbol]] = &[
    &[],
    &[W_AND, W_NAME, NOTE_NAME],
    &[W_NAME, SELS, OPT_ATTS, NOTE_MORE],
];

const OBTAINED_ROWS: &[&[Symbol]] = &[
    &[W_IDENTIFIER, OBTAINED_ONE],
    &[W_LONG, PROPS_NAME],
    &[
        W_LEFT, ATT, MORE_ATTS, W_RIGHT, W_COLON, W_TERM, PATTERN, MORE_PROPS,
    ],
    &[W_NO_NAME, PATTERN, MORE_PROPS],
];

const OBTAINED_ONE_ROWS: &[&[Symbol]] = &[
    &[],
    &[W_IDENTIFIER, OBTAINED_MORE],
    &[W_COLONS, W_TYPE, MORE_VARS, W_WHERE, PROPS],
    &[W_WHERE, PROPS],
    &[W_AND, OBTAINED],
    &[W_COLON, W_TERM, PATTERN, MORE_PROPS],
    &[
        W_LEFT, ATT, MORE_ATTS, W_RIGHT, W_COLON, W_TERM, PATTERN, MORE_PROPS,
    ],
    &[W_OPEN, W_IS, W_TERM, TERMS, W_CLOSE, MORE_PROPS],
    &[W_NO_IDENT, PATTERN, MORE_PROPS],
];

const OBTAINED_MORE_ROWS: &[&[Symbol]] = &[
    &[],
    &[W_IDENTIFIER, OBTAINED_MORE],
    &[W_COLONS, W_TYPE, MORE_VARS, W_WHERE, PROPS],
    &[W_WHERE, PROPS],
    &[W_AND, OBTAINED],
    &[W_OPEN, W_IS, W_TERM, TERMS, W_CLOSE, MORE_PROPS],
    &[W_NO_IDENT, PATTERN, MORE_PROPS],
];

const COMMAND_ROWS: &[&[Symbol]] = &[
    &[W_THEORY, W_NAME, W_IMPORTS, W_NAME, NAMES, W_BEGIN],
    &[W_END],
    &[W_CHAPTER, W_QUOTED],
    &[W_SECTION, W_QUOTED],
    &[W_SUBSECTION, W_QUOTED],
    &[W_SUBSUBSECTION, W_QUOTED],
    &[W_PARAGRAPH, W_QUOTED],
    &[W_SUBPARAGRAPH, W_QUOTED],
    &[W_PROSE, W_QUOTED],
    &[W_TXT, W_QUOTED],
    &[W_TYPEDECL, TYPED],
    &[W_CONSTS, CONST, MORE_CONSTS],
    &[W_JUDGMENT, W_IDENTIFIER, W_COLONS, W_TYPE, JUDGMENT_FORM],
    &[W_AXIOMATIZATION, AXIOMATIZED],
    &[W_LEMMAS, W_NAME, OPT_ATTS, W_EQUAL, FACTS],
    &[W_DECLARE, FACTS],
    &[W_NAMED_THEOREMS, W_IDENTIFIER],
    &[W_METHOD, W_IDENTIFIER, OPT_FOR, PARTS],
    &[W_LEMMA, STATEMENT],
    &[W_THEOREM, STATEMENT],
    &[W_COROLLARY, STATEMENT],
    &[W_PROPOSITION, STATEMENT],
    &[W_FIX, VARS],
    &[W_ASSUME, PROPS],
    &[W_PRESUME, PROPS],
    &[W_DEFINE, W_IDENTIFIER, OF_TYPE, W_WHERE, LABELLED_TERM],
    &[W_NOTE, W_NAME, NOTE_NAME],
    &[W_LET, W_TERM, W_EQUAL, W_TERM, MORE_EQUATIONS],
    &[W_LEFT_BRACE],
    &[W_RIGHT_BRACE],
    &[W_NEXT],
    &[W_THEN],
    &[W_FROM, FACTS],
    &[W_WITH, FACTS],
    &[W_HAVE, CLAIM],
    &[W_SHOW, CLAIM],
    &[W_HENCE, CLAIM],
    &[W_THUS, CLAIM],
    &[W_OBTAIN, OBTAINED],
    &[W_ALSO],
    &[W_MOREOVER],
    &[W_FINALLY],
    &[W_ULTIMATELY],
    &[W_APPLY, METHOD],
    &[W_USING, FACTS],
    &[W_DEFER, OPT_NAT],
    &[W_PREFER, W_NUMERAL],
    &[W_BACK],
    &[W_PROOF, OPT_METHOD],
    &[W_QED, OPT_METHOD],
    &[W_BY, METHOD, OPT_METHOD],
    &[W_DOT],
    &[W_DOTS],
    &[W_DONE],
    &[W_OOPS],
];

/// The rows of a part.
pub fn forms(part: Part) -> &'static [&'static [Symbol]]
    ensures { plain result.now ≡ forms part }
{
    match part {
        Part::Fact => FACT_ROWS,
        Part::Facts => FACTS_ROWS,
        Part::MoreFacts => MORE_FACTS_ROWS,
        Part::Sels => SELS_ROWS,
        Part::Sel => SEL_ROWS,
        Part::SelTo => SEL_TO_ROWS,
        Part::MoreSels => MORE_SELS_ROWS,
        Part::OptAtts => OPT_ATTS_ROWS,
        Part::MoreAtts => MORE_ATTS_ROWS,
        Part::Att => ATT_ROWS,
        Part::OptMark => OPT_MARK_ROWS,
        Part::OfFacts => OF_FACTS_ROWS,
        Part::FactPlaces => FACT_PLACES_ROWS,
        Part::ThenFact => THEN_FACT_ROWS,
        Part::OfTerms => OF_TERMS_ROWS,
        Part::TermPlaces => TERM_PLACES_ROWS,
        Part::MoreWheres => MORE_WHERES_ROWS,
        Part::Prop => PROP_ROWS,
        Part::Pattern => PATTERN_ROWS,
        Part::Terms => TERMS_ROWS,
        Part::Claim => CLAIM_ROWS,
        Part::ClaimName => CLAIM_NAME_ROWS,
        Part::Props => PROPS_ROWS,
        Part::PropsName => PROPS_NAME_ROWS,
        Part::MoreProps => MORE_PROPS_ROWS,
        Part::LabelledTerm => LABELLED_TERM_ROWS,
        Part::TermName => TERM_NAME_ROWS,
        Part::Names => NAMES_ROWS,
        Part::Idents => IDENTS_ROWS,
        Part::OfType => OF_TYPE_ROWS,
        Part::Vars => VARS_ROWS,
        Part::MoreVars => MORE_VARS_ROWS,
        Part::OptFor => OPT_FOR_ROWS,
        Part::Const => CONST_ROWS,
        Part::Fix => FIX_ROWS,
        Part::Fixity => FIXITY_ROWS,
        Part::Method => METHOD_ROWS,
        Part::OptMethod => OPT_METHOD_ROWS,
        Part::Suffix => SUFFIX_ROWS,
        Part::OptNat => OPT_NAT_ROWS,
        Part::MoreAlt => MORE_ALT_ROWS,
        Part::MoreSemi => MORE_SEMI_ROWS,
        Part::MoreSeq => MORE_SEQ_ROWS,
        Part::Item => ITEM_ROWS,
        Part::RuleRest => RULE_REST_ROWS,
        Part::CallRest => CALL_REST_ROWS,
        Part::CallArgs => CALL_ARGS_ROWS,
        Part::CallIdent => CALL_IDENT_ROWS,
        Part::Sections => SECTIONS_ROWS,
        Part::SectionIdent => SECTION_IDENT_ROWS,
        Part::MatchRest => MATCH_REST_ROWS,
        Part::SubjectName => SUBJECT_NAME_ROWS,
        Part::Cases => CASES_ROWS,
        Part::MoreCases => MORE_CASES_ROWS,
        Part::Pat => PAT_ROWS,
        Part::PatIdent => PAT_IDENT_ROWS,
        Part::Cut => CUT_ROWS,
        Part::MorePats => MORE_PATS_ROWS,
        Part::Typed => TYPED_ROWS,
        Part::MoreTvars => MORE_TVARS_ROWS,
        Part::MoreConsts => MORE_CONSTS_ROWS,
        Part::JudgmentForm => JUDGMENT_FORM_ROWS,
        Part::Axiomatized => AXIOMATIZED_ROWS,
        Part::AxiomConsts => AXIOM_CONSTS_ROWS,
        Part::Axiom => AXIOM_ROWS,
        Part::MoreAxioms => MORE_AXIOMS_ROWS,
        Part::Parts => PARTS_ROWS,
        Part::UsesDeclares => USES_DECLARES_ROWS,
        Part::MethodsDeclares => METHODS_DECLARES_ROWS,
        Part::MethodsUses => METHODS_USES_ROWS,
        Part::MethodsAlone => METHODS_ALONE_ROWS,
        Part::UsesAlone => USES_ALONE_ROWS,
        Part::DeclaresAlone => DECLARES_ALONE_ROWS,
        Part::Body => BODY_ROWS,
        Part::Statement => STATEMENT_ROWS,
        Part::StatementName => STATEMENT_NAME_ROWS,
        Part::Stated => STATED_ROWS,
        Part::OptAssumes => OPT_ASSUMES_ROWS,
        Part::MoreEquations => MORE_EQUATIONS_ROWS,
        Part::NoteName => NOTE_NAME_ROWS,
        Part::NoteEqual => NOTE_EQUAL_ROWS,
        Part::NoteMore => NOTE_MORE_ROWS,
        Part::Obtained => OBTAINED_ROWS,
        Part::ObtainedOne => OBTAINED_ONE_ROWS,
        Part::ObtainedMore => OBTAINED_MORE_ROWS,
        Part::Command => COMMAND_ROWS,
    }
}
