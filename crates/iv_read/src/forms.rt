//! Commands, by their words.
ghost use Rattle.std.specs.Prelude.{◌≡◌, IfOk, IfErr};
ghost use Rattle.iv_facts.specs.Found.{got, wrong, then_, IsStop};
ghost use Rattle.iv_recogniser.specs.declared.class.Sort.TheVariants.{Quoted};
ghost use Rattle.iv_facts.specs.Facts.{facts};
ghost use Rattle.iv_facts.specs.Props.{claim, text_of};
ghost use Rattle.iv_readpart.specs.Commands.{statement};
ghost use Rattle.iv_read.specs.Forms.{theory, typedecl, consts, judgment, axiomatization, lemmas, method_definition, define, let_, by, text_body, facts_body, claim_body, statement_body, word_body, kind_of, declaration_form, context_form, proof_form, by_class, form};

use iv_facts::Stop;
use iv_facts::facts::facts;
use iv_facts::props::{claim, of_type, opt_for, opt_label, props, some_of, text_of, vars};
use iv_facts::tokens::one;
use iv_forms::{Body, Claim, Fact, Items, Lexeme, Statement};
use iv_lex::Token;
use iv_readmethod::methods::{a_method, opt_method};
use iv_readpart::commands::{axioms, note_name, notes, obtained, parts, statement};
use iv_readpart::declarations::{
    axiom_consts, constant, equation, judgment_form, more_consts, more_equations, some_nat, tvars,
};
use iv_recogniser::{Class, Sort};
use std::alloc::Global;

/// The header, behind its word.
#[tactic(auto, using(iv_facts::proofs::Steps::stopped, iv_facts::proofs::Steps::went_on), unfolding(crate::specs::Forms::theory, iv_facts::specs::Found::then_))]
fn theory(alloc: Global, tokens: &[Lexeme]) -> Result<(Body, &[Lexeme]), Stop>
    ensures ok { IfOk result (λ r. theory tokens.now ≡ got r.0 r.1.now) }
    ensures err { IfErr result (λ e. IsStop e (theory tokens.now)) }
{
    let (name, tokens) = text_of(tokens, Sort::Name)?;
    let (_imports, tokens) = one(tokens, Sort::Only(Class::Imports))?;
    let (imports, tokens) = some_of(alloc, Sort::Name, tokens)?;
    let (_begin, tokens) = one(tokens, Sort::Only(Class::Begin))?;
    Ok((Body::Theory(name, imports), tokens))
}

/// A type declaration, behind its word.
#[tactic(auto, using(iv_facts::proofs::Steps::stopped, iv_facts::proofs::Steps::went_on), unfolding(crate::specs::Forms::typedecl, iv_facts::specs::Found::then_))]
fn typedecl(alloc: Global, tokens: &[Lexeme]) -> Result<(Body, &[Lexeme]), Stop>
    ensures ok { IfOk result (λ r. typedecl tokens.now ≡ got r.0 r.1.now) }
    ensures err { IfErr result (λ e. IsStop e (typedecl tokens.now)) }
{
    let (parameters, tokens) = tvars(alloc, tokens)?;
    let (name, tokens) = text_of(tokens, Sort::Identifier)?;
    Ok((Body::Typedecl(parameters, name), tokens))
}

/// Declared constants, behind their word.
#[tactic(auto, using(iv_facts::proofs::Steps::stopped, iv_facts::proofs::Steps::went_on), unfolding(crate::specs::Forms::consts, iv_facts::specs::Found::then_))]
fn consts(alloc: Global, tokens: &[Lexeme]) -> Result<(Body, &[Lexeme]), Stop>
    ensures ok { IfOk result (λ r. consts tokens.now ≡ got r.0 r.1.now) }
    ensures err { IfErr result (λ e. IsStop e (consts tokens.now)) }
{
    let mut found = Items::new(alloc);
    let (first, tokens) = constant(tokens)?;
    found.push(first)?;
    let tokens = more_consts(tokens, &mut found)?;
    Ok((Body::Consts(found), tokens))
}

/// The judgment, behind its word.
#[tactic(auto, using(iv_facts::proofs::Steps::stopped, iv_facts::proofs::Steps::went_on), unfolding(crate::specs::Forms::judgment, iv_facts::specs::Found::then_))]
fn judgment(tokens: &[Lexeme]) -> Result<(Body, &[Lexeme]), Stop>
    ensures ok { IfOk result (λ r. judgment tokens.now ≡ got r.0 r.1.now) }
    ensures err { IfErr result (λ e. IsStop e (judgment tokens.now)) }
{
    let (name, tokens) = text_of(tokens, Sort::Identifier)?;
    let (_colons, tokens) = one(tokens, Sort::Only(Class::Colons))?;
    let (typ, tokens) = text_of(tokens, Sort::Type)?;
    let tokens = judgment_form(tokens)?;
    Ok((Body::Judgment(name, typ), tokens))
}

/// Constants and axioms, behind their word.
#[tactic(auto, using(iv_facts::proofs::Steps::stopped, iv_facts::proofs::Steps::went_on), unfolding(crate::specs::Forms::axiomatization, iv_facts::specs::Found::then_))]
fn axiomatization(alloc: Global, tokens: &[Lexeme]) -> Result<(Body, &[Lexeme]), Stop>
    ensures ok { IfOk result (λ r. axiomatization tokens.now ≡ got r.0 r.1.now) }
    ensures err { IfErr result (λ e. IsStop e (axiomatization tokens.now)) }
{
    let (constants, tokens) = axiom_consts(alloc, tokens)?;
    let (axioms, tokens) = axioms(alloc, tokens)?;
    Ok((Body::Axiomatization(constants, axioms), tokens))
}

/// `lemmas`, behind its word.
#[tactic(auto, using(iv_facts::proofs::Steps::stopped, iv_facts::proofs::Steps::went_on), unfolding(crate::specs::Forms::lemmas, iv_facts::specs::Found::then_))]
fn lemmas(alloc: Global, tokens: &[Lexeme]) -> Result<(Body, &[Lexeme]), Stop>
    ensures ok { IfOk result (λ r. lemmas tokens.now ≡ got r.0 r.1.now) }
    ensures err { IfErr result (λ e. IsStop e (lemmas tokens.now)) }
{
    let (named, tokens) = note_name(alloc, tokens)?;
    let (facts, tokens) = facts(alloc, tokens)?;
    Ok((Body::Lemmas(named.name, named.atts, facts), tokens))
}

/// `method`, behind its word.
#[tactic(auto, using(iv_facts::proofs::Steps::stopped, iv_facts::proofs::Steps::went_on), unfolding(crate::specs::Forms::method_definition, iv_facts::specs::Found::then_))]
fn method_definition(alloc: Global, tokens: &[Lexeme]) -> Result<(Body, &[Lexeme]), Stop>
    ensures ok { IfOk result (λ r. method_definition tokens.now ≡ got r.0 r.1.now) }
    ensures err { IfErr result (λ e. IsStop e (method_definition tokens.now)) }
{
    let (name, tokens) = text_of(tokens, Sort::Identifier)?;
    let (names, tokens) = opt_for(alloc, tokens)?;
    let (parts, tokens) = parts(alloc, tokens)?;
    let (_equal, tokens) = one(tokens, Sort::Only(Class::Equal))?;
    let (body, tokens) = a_method(alloc, tokens)?;
    Ok((Body::Method(name, names, parts, body), tokens))
}

/// `define`, behind its word.
#[tactic(auto, using(iv_facts::proofs::Steps::stopped, iv_facts::proofs::Steps::went_on), unfolding(crate::specs::Forms::define, iv_facts::specs::Found::then_))]
fn define(alloc: Global, tokens: &[Lexeme]) -> Result<(Body, &[Lexeme]), Stop>
    ensures ok { IfOk result (λ r. define tokens.now ≡ got r.0 r.1.now) }
    ensures err { IfErr result (λ e. IsStop e (define tokens.now)) }
{
    let (name, tokens) = text_of(tokens, Sort::Identifier)?;
    let (typ, tokens) = of_type(tokens)?;
    let (_where, tokens) = one(tokens, Sort::Only(Class::Where))?;
    let (label, tokens) = opt_label(alloc, tokens)?;
    let (term, tokens) = text_of(tokens, Sort::Term)?;
    Ok((Body::Define(name, typ, label, term), tokens))
}

/// `let`, behind its word.
#[tactic(auto, using(iv_facts::proofs::Steps::stopped, iv_facts::proofs::Steps::went_on), unfolding(crate::specs::Forms::let_, iv_facts::specs::Found::then_))]
fn let_(alloc: Global, tokens: &[Lexeme]) -> Result<(Body, &[Lexeme]), Stop>
    ensures ok { IfOk result (λ r. let_ tokens.now ≡ got r.0 r.1.now) }
    ensures err { IfErr result (λ e. IsStop e (let_ tokens.now)) }
{
    let mut found = Items::new(alloc);
    let (first, tokens) = equation(tokens)?;
    found.push(first)?;
    let tokens = more_equations(tokens, &mut found)?;
    Ok((Body::Let(found), tokens))
}

/// `by`, behind its word.
#[tactic(auto, using(iv_facts::proofs::Steps::stopped, iv_facts::proofs::Steps::went_on), unfolding(crate::specs::Forms::by, iv_facts::specs::Found::then_))]
fn by(alloc: Global, tokens: &[Lexeme]) -> Result<(Body, &[Lexeme]), Stop>
    ensures ok { IfOk result (λ r. by tokens.now ≡ got r.0 r.1.now) }
    ensures err { IfErr result (λ e. IsStop e (by tokens.now)) }
{
    let (first, tokens) = a_method(alloc, tokens)?;
    let (second, tokens) = opt_method(alloc, tokens)?;
    Ok((Body::By(first, second), tokens))
}

/// A text command.
fn text_body(class: Class, text: Token) -> Body
    ensures { result ≡ text_body class text }
{
    match class {
        Class::Chapter => Body::Chapter(text),
        Class::Section => Body::Section(text),
        Class::Subsection => Body::Subsection(text),
        Class::Subsubsection => Body::Subsubsection(text),
        Class::Paragraph => Body::Paragraph(text),
        Class::Subparagraph => Body::Subparagraph(text),
        Class::Prose => Body::Prose(text),
        _ => Body::Txt(text),
    }
}

/// A command with facts.
fn facts_body(class: Class, facts: Items<Fact>) -> Body
    ensures { result ≡ facts_body class facts }
{
    match class {
        Class::Declare => Body::Declare(facts),
        Class::From => Body::From(facts),
        Class::With => Body::With(facts),
        _ => Body::Using(facts),
    }
}

/// A command that claims.
fn claim_body(class: Class, claim: Claim) -> Body
    ensures { result ≡ claim_body class claim }
{
    match class {
        Class::Have => Body::Have(claim),
        Class::Show => Body::Show(claim),
        Class::Hence => Body::Hence(claim),
        _ => Body::Thus(claim),
    }
}

/// `lemma` or one of its equals.
fn statement_body(class: Class, statement: Statement) -> Body
    ensures { result ≡ statement_body class statement }
{
    match class {
        Class::Lemma => Body::Lemma(statement),
        Class::Theorem => Body::Theorem(statement),
        Class::Corollary => Body::Corollary(statement),
        _ => Body::Proposition(statement),
    }
}

/// A command that is its word alone.
fn word_body(class: Class) -> Body
    ensures { result ≡ word_body class }
{
    match class {
        Class::End => Body::End,
        Class::LeftBrace => Body::LeftBrace,
        Class::RightBrace => Body::RightBrace,
        Class::Next => Body::Next,
        Class::Then => Body::Then,
        Class::Also => Body::Also,
        Class::Moreover => Body::Moreover,
        Class::Finally => Body::Finally,
        Class::Ultimately => Body::Ultimately,
        Class::Back => Body::Back,
        Class::Dot => Body::Dot,
        Class::Dots => Body::Dots,
        Class::Done => Body::Done,
        _ => Body::Oops,
    }
}

/// A text command, behind its word.
#[tactic(auto, using(iv_facts::proofs::Steps::stopped, iv_facts::proofs::Steps::went_on), unfolding(iv_facts::specs::Found::then_))]
fn text_form(class: Class, tokens: &[Lexeme]) -> Result<(Body, &[Lexeme]), Stop>
    ensures ok { IfOk result (λ r. then_ (text_of Quoted tokens.now) (λ x us. got (text_body class x) us) ≡ got r.0 r.1.now) }
    ensures err { IfErr result (λ e. IsStop e (then_ (text_of Quoted tokens.now) (λ x us. got (text_body class x) us))) }
{
    let (read, tokens) = text_of(tokens, Sort::Quoted)?;
    Ok((text_body(class, read), tokens))
}

/// A command with facts, behind its word.
#[tactic(auto, using(iv_facts::proofs::Steps::stopped, iv_facts::proofs::Steps::went_on), unfolding(iv_facts::specs::Found::then_))]
fn facts_form(alloc: Global, class: Class, tokens: &[Lexeme]) -> Result<(Body, &[Lexeme]), Stop>
    ensures ok { IfOk result (λ r. then_ (facts tokens.now) (λ x us. got (facts_body class x) us) ≡ got r.0 r.1.now) }
    ensures err { IfErr result (λ e. IsStop e (then_ (facts tokens.now) (λ x us. got (facts_body class x) us))) }
{
    let (read, tokens) = facts(alloc, tokens)?;
    Ok((facts_body(class, read), tokens))
}

/// A command that claims, behind its word.
#[tactic(auto, using(iv_facts::proofs::Steps::stopped, iv_facts::proofs::Steps::went_on), unfolding(iv_facts::specs::Found::then_))]
fn claim_form(alloc: Global, class: Class, tokens: &[Lexeme]) -> Result<(Body, &[Lexeme]), Stop>
    ensures ok { IfOk result (λ r. then_ (claim tokens.now) (λ x us. got (claim_body class x) us) ≡ got r.0 r.1.now) }
    ensures err { IfErr result (λ e. IsStop e (then_ (claim tokens.now) (λ x us. got (claim_body class x) us))) }
{
    let (read, tokens) = claim(alloc, tokens)?;
    Ok((claim_body(class, read), tokens))
}

/// `lemma` or one of its equals, behind its word.
#[tactic(auto, using(iv_facts::proofs::Steps::stopped, iv_facts::proofs::Steps::went_on), unfolding(iv_facts::specs::Found::then_))]
fn statement_form(alloc: Global, class: Class, tokens: &[Lexeme]) -> Result<(Body, &[Lexeme]), Stop>
    ensures ok { IfOk result (λ r. then_ (statement tokens.now) (λ x us. got (statement_body class x) us) ≡ got r.0 r.1.now) }
    ensures err { IfErr result (λ e. IsStop e (then_ (statement tokens.now) (λ x us. got (statement_body class x) us))) }
{
    let (read, tokens) = statement(alloc, tokens)?;
    Ok((statement_body(class, read), tokens))
}

/// A command with names, propositions or facts of its own, behind its word.
#[tactic(auto, using(iv_facts::proofs::Steps::stopped, iv_facts::proofs::Steps::went_on), unfolding(iv_facts::specs::Found::then_))]
fn context_form(alloc: Global, class: Class, tokens: &[Lexeme]) -> Result<(Body, &[Lexeme]), Stop>
    ensures ok { IfOk result (λ r. context_form class tokens.now ≡ got r.0 r.1.now) }
    ensures err { IfErr result (λ e. IsStop e (context_form class tokens.now)) }
{
    match class {
        Class::Fix => {
            let (names, tokens) = vars(alloc, tokens)?;
            Ok((Body::Fix(names), tokens))
        }
        Class::Assume => {
            let (groups, tokens) = props(alloc, tokens)?;
            Ok((Body::Assume(groups), tokens))
        }
        Class::Presume => {
            let (groups, tokens) = props(alloc, tokens)?;
            Ok((Body::Presume(groups), tokens))
        }
        Class::Define => define(alloc, tokens),
        Class::Note => {
            let (groups, tokens) = notes(alloc, tokens)?;
            Ok((Body::Note(groups), tokens))
        }
        Class::Let => let_(alloc, tokens),
        Class::Obtain => {
            let (obtained, tokens) = obtained(alloc, tokens)?;
            Ok((Body::Obtain(obtained), tokens))
        }
        _ => Err(Stop::Syntax),
    }
}

/// A declaration, behind its word.
#[tactic(auto, using(iv_facts::proofs::Steps::stopped, iv_facts::proofs::Steps::went_on), unfolding(iv_facts::specs::Found::then_))]
fn declaration_form(
    alloc: Global,
    class: Class,
    tokens: &[Lexeme],
) -> Result<(Body, &[Lexeme]), Stop>
    ensures ok { IfOk result (λ r. declaration_form class tokens.now ≡ got r.0 r.1.now) }
    ensures err { IfErr result (λ e. IsStop e (declaration_form class tokens.now)) }
{
    match class {
        Class::Theory => theory(alloc, tokens),
        Class::Typedecl => typedecl(alloc, tokens),
        Class::Consts => consts(alloc, tokens),
        Class::Judgment => judgment(tokens),
        Class::Axiomatization => axiomatization(alloc, tokens),
        Class::Lemmas => lemmas(alloc, tokens),
        Class::NamedTheorems => {
            let (name, tokens) = text_of(tokens, Sort::Identifier)?;
            Ok((Body::NamedTheorems(name), tokens))
        }
        Class::Method => method_definition(alloc, tokens),
        _ => Err(Stop::Syntax),
    }
}

/// A command that refines a goal, behind its word.
#[tactic(auto, using(iv_facts::proofs::Steps::stopped, iv_facts::proofs::Steps::went_on), unfolding(iv_facts::specs::Found::then_))]
fn proof_form(alloc: Global, class: Class, tokens: &[Lexeme]) -> Result<(Body, &[Lexeme]), Stop>
    ensures ok { IfOk result (λ r. proof_form class tokens.now ≡ got r.0 r.1.now) }
    ensures err { IfErr result (λ e. IsStop e (proof_form class tokens.now)) }
{
    match class {
        Class::Apply => {
            let (method, tokens) = a_method(alloc, tokens)?;
            Ok((Body::Apply(method), tokens))
        }
        Class::Defer => {
            let (number, tokens) = some_nat(tokens)?;
            Ok((Body::Defer(number), tokens))
        }
        Class::Prefer => {
            let (number, tokens) = one(tokens, Sort::Numeral)?;
            Ok((Body::Prefer(number.number), tokens))
        }
        Class::Proof => {
            let (method, tokens) = opt_method(alloc, tokens)?;
            Ok((Body::Proof(method), tokens))
        }
        Class::Qed => {
            let (method, tokens) = opt_method(alloc, tokens)?;
            Ok((Body::Qed(method), tokens))
        }
        Class::By => by(alloc, tokens),
        _ => Err(Stop::Syntax),
    }
}

/// Commands by what stands behind their words.
#[derive(Clone, Copy, Debug, PartialEq, Eq)]
pub enum CommandKind {
    /// A text.
    Text,
    /// Facts.
    Facts,
    /// A proposition that is claimed.
    Claim,
    /// What a lemma states.
    Statement,
    /// Nothing.
    Word,
    /// What a declaration declares.
    Declaration,
    /// What enters a context.
    Context,
    /// A method or a number.
    Proof,
    /// The class is no command word.
    None,
}

/// What stands behind a command word.
fn kind_of(class: Class) -> CommandKind
    ensures { result ≡ kind_of class }
{
    match class {
        Class::Chapter
        | Class::Section
        | Class::Subsection
        | Class::Subsubsection
        | Class::Paragraph
        | Class::Subparagraph
        | Class::Prose
        | Class::Txt => CommandKind::Text,
        Class::Declare | Class::From | Class::With | Class::Using => CommandKind::Facts,
        Class::Have | Class::Show | Class::Hence | Class::Thus => CommandKind::Claim,
        Class::Lemma | Class::Theorem | Class::Corollary | Class::Proposition =>
            CommandKind::Statement,
        Class::End
        | Class::LeftBrace
        | Class::RightBrace
        | Class::Next
        | Class::Then
        | Class::Also
        | Class::Moreover
        | Class::Finally
        | Class::Ultimately
        | Class::Back
        | Class::Dot
        | Class::Dots
        | Class::Done
        | Class::Oops => CommandKind::Word,
        Class::Theory
        | Class::Typedecl
        | Class::Consts
        | Class::Judgment
        | Class::Axiomatization
        | Class::Lemmas
        | Class::NamedTheorems
        | Class::Method => CommandKind::Declaration,
        Class::Fix
        | Class::Assume
        | Class::Presume
        | Class::Define
        | Class::Note
        | Class::Let
        | Class::Obtain => CommandKind::Context,
        Class::Apply | Class::Defer | Class::Prefer | Class::Proof | Class::Qed | Class::By =>
            CommandKind::Proof,
        _ => CommandKind::None,
    }
}

/// What a command of this class reads behind its word.
fn by_class(alloc: Global, class: Class, tokens: &[Lexeme]) -> Result<(Body, &[Lexeme]), Stop>
    ensures ok { IfOk result (λ r. by_class class tokens.now ≡ got r.0 r.1.now) }
    ensures err { IfErr result (λ e. IsStop e (by_class class tokens.now)) }
{
    match kind_of(class) {
        CommandKind::Text => text_form(class, tokens),
        CommandKind::Facts => facts_form(alloc, class, tokens),
        CommandKind::Claim => claim_form(alloc, class, tokens),
        CommandKind::Statement => statement_form(alloc, class, tokens),
        CommandKind::Word => Ok((word_body(class), tokens)),
        CommandKind::Declaration => declaration_form(alloc, class, tokens),
        CommandKind::Context => context_form(alloc, class, tokens),
        CommandKind::Proof => proof_form(alloc, class, tokens),
        CommandKind::None => Err(Stop::Syntax),
    }
}

/// The command that a form reads from the tokens, and the tokens behind it. Where a form reads all of the tokens, this is the
/// one that it reads them as, or the first part with more than 400 levels is refused. Fails with `Syntax` where no form goes on,
/// with `Deep` and its place at the first part with more than 400 levels, and with `Memory` where memory runs out.
pub fn form(alloc: Global, tokens: &[Lexeme]) -> Result<(Body, &[Lexeme]), Stop>
    ensures ok { IfOk result (λ r. form tokens.now ≡ got r.0 r.1.now) }
    ensures err { IfErr result (λ e. IsStop e (form tokens.now)) }
{
    match tokens {
        [] => Err(Stop::Syntax),
        [word, rest @ ..] => by_class(alloc, word.class, rest),
    }
}
