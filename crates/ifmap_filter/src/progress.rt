//! Where a reader of filters stands, and what one more token makes of it.
ghost use Rattle.std.specs.Prelude.{◌≡◌, ◌++◌, ◌∷◌, [], IfNone, IfOk, IfSome, OnOk};
ghost use Rattle.ifmap_prefixes.specs.ifmap_lexer.There.{qualified_of};
ghost use Rattle.ifmap_filter.specs.RawTokens.{token_of_raw};
ghost use Rattle.ifmap_filter.specs.Progress.{IsNotSingle, StandsAt, Start, comparison_of, context, done_part, join_parts, inner_place, follow_token, follow_done, follow_equals, follow_factor, follow_joining, follow_literal, follow_local, follow_named, follow_test, follow_tested, test_of, filter_state, filter_at};
ghost use Rattle.ifmap_filter.specs.declared.filters.Predicate.{And, Or};
ghost use Rattle.ifmap_filter.specs.declared.tokens.FilterToken.TheVariants.{CloseBracket, CloseParenthesis};

use crate::filters::{Filter, Predicate, Test};
use crate::naming::{is_word, name_of};
use crate::raw_tokens::RawToken;
use ifmap_elem::{Many, Name, Text};
use ifmap_prefixes::Prefixes;
use std::alloc::{AllocError as NoMemory, Global};
use std::mem;

// How deep parentheses may nest.
const DEPTH_LIMIT: usize = 64;

// An or-part that is open round another: its and-parts that are done, and the factors that are done
// of the one that is not.
#[derive(Drop)]
pub(crate) struct OuterPart {
    pub(crate) ors: Many<Predicate>,
    pub(crate) ands: Many<Predicate>,
}

// The open or-part in the brackets of a test: the tests before it, the name of its own, the
// or-parts round it, the innermost last, and what is done of it.
#[derive(Drop)]
pub(crate) struct OpenPart {
    pub(crate) tests: Many<Test>,
    pub(crate) name: Option<Name>,
    pub(crate) outer: Many<OuterPart>,
    pub(crate) ors: Many<Predicate>,
    pub(crate) ands: Many<Predicate>,
}

// What a comparison asks for, before its value.
#[derive(Drop)]
pub(crate) enum Operand {
    Attribute(Text),
    Child(Name),
}

#[derive(Clone, Copy)]
pub(crate) enum FilterPlace {
    Start,
    // After an `or` between tests.
    TestDue,
    // After the name of a test.
    Named,
    // After the brackets of a test.
    Tested,
    FactorDue,
    // After `@`.
    LocalDue,
    EqualsDue,
    LiteralDue,
    FactorDone,
}

// The place, and what was read before it. What is not there yet at this place (the parts of a test
// before its name, an operand before a factor) may be anything: it is what was there before.
#[derive(Drop)]
pub(crate) struct FilterProgress {
    pub(crate) place: FilterPlace,
    pub(crate) open_part: OpenPart,
    pub(crate) operand: Operand,
}

impl FilterProgress {
    pub(crate) fn new(alloc: Global) -> FilterProgress
        ensures { filter_state result ≡ Start }
    {
        FilterProgress {
            place: FilterPlace::Start,
            open_part: OpenPart {
                tests: Many(Vec::new(alloc)),
                name: None,
                outer: Many(Vec::new(alloc)),
                ors: Many(Vec::new(alloc)),
                ands: Many(Vec::new(alloc)),
            },
            operand: Operand::Attribute(Text::new(alloc)),
        }
    }
}

// Takes one more token, where it is allowed; whether it is.
pub(crate) fn take_token(
    alloc: Global,
    scope: &Prefixes<'_, '_>,
    standing: &mut FilterProgress,
    raw: RawToken<'_>,
) -> Result<bool, NoMemory>
    ensures { IfOk result (λ allowed. StandsAt allowed standing.new
        (follow_token scope.now (filter_state standing.old) (token_of_raw raw.entry))) }
{
    match standing.place {
        FilterPlace::Start => {
            standing.open_part.tests = Many(Vec::new(alloc));
            take_test(alloc, scope, standing, raw)
        }
        FilterPlace::TestDue => take_test(alloc, scope, standing, raw),
        FilterPlace::Named => take_named(standing, raw),
        FilterPlace::Tested => Ok(take_tested(standing, raw)),
        FilterPlace::FactorDue => take_factor(alloc, scope, standing, raw),
        FilterPlace::LocalDue => take_local(alloc, standing, raw),
        FilterPlace::EqualsDue => Ok(take_equals(standing, raw)),
        FilterPlace::LiteralDue => take_literal(alloc, standing, raw),
        FilterPlace::FactorDone => take_done(alloc, standing, raw),
    }
}

fn take_test(
    alloc: Global,
    scope: &Prefixes<'_, '_>,
    standing: &mut FilterProgress,
    raw: RawToken<'_>,
) -> Result<bool, NoMemory>
    ensures { IfOk result (λ allowed. StandsAt allowed standing.new
        (follow_test scope.now standing.old.open_part.tests (token_of_raw raw.entry))) }
{
    match raw {
        RawToken::Any => {
            standing.open_part.name = None;
            standing.place = FilterPlace::Named;
            Ok(true)
        }
        RawToken::Name(prefix, local) => match name_of(alloc, scope, prefix, local)? {
            Some(name) => {
                standing.open_part.name = Some(name);
                standing.place = FilterPlace::Named;
                Ok(true)
            }
            None => Ok(false),
        },
        _ => Ok(false),
    }
}

fn take_named(standing: &mut FilterProgress, raw: RawToken<'_>) -> Result<bool, NoMemory>
    ensures { IfOk result (λ allowed. StandsAt allowed standing.new
        (follow_named standing.old.open_part.tests standing.old.open_part.name
        (token_of_raw raw.entry))) }
{
    match raw {
        RawToken::OpenBracket => {
            standing.open_part.outer.clear();
            standing.open_part.ors.clear();
            standing.open_part.ands.clear();
            standing.place = FilterPlace::FactorDue;
            Ok(true)
        }
        _ => {
            push_test(&mut standing.open_part, None)?;
            Ok(take_tested(standing, raw))
        }
    }
}

// Puts the test of the name at hand and this predicate after the others. The name goes there.
fn push_test(open_part: &mut OpenPart, predicate: Option<Predicate>) -> Result<(), NoMemory>
    ensures { OnOk result (open_part.new.tests
        ≡ open_part.old.tests ++ test_of open_part.old.name predicate ∷ []) }
{
    let name = open_part.name.take();
    open_part.tests.push(Test { name, predicate })?;
    Ok(())
}

fn take_tested(standing: &mut FilterProgress, raw: RawToken<'_>) -> bool
    ensures { StandsAt result standing.new
        (follow_tested standing.old.open_part.tests (token_of_raw raw.entry)) }
{
    match raw {
        RawToken::Name(prefix, local) => {
            if !is_word("or", prefix, local) {
                return false;
            }
            standing.place = FilterPlace::TestDue;
            true
        }
        _ => false,
    }
}

fn take_factor(
    alloc: Global,
    scope: &Prefixes<'_, '_>,
    standing: &mut FilterProgress,
    raw: RawToken<'_>,
) -> Result<bool, NoMemory>
    ensures { IfOk result (λ allowed. StandsAt allowed standing.new
        (follow_factor scope.now (context standing.old.open_part) (token_of_raw raw.entry))) }
{
    match raw {
        RawToken::OpenParenthesis => open_group(alloc, standing),
        RawToken::At => {
            standing.place = FilterPlace::LocalDue;
            Ok(true)
        }
        RawToken::Name(prefix, local) => match name_of(alloc, scope, prefix, local)? {
            Some(name) => {
                standing.operand = Operand::Child(name);
                standing.place = FilterPlace::EqualsDue;
                Ok(true)
            }
            None => Ok(false),
        },
        _ => Ok(false),
    }
}

// After an opening parenthesis: not allowed where it is one too deep.
#[tactic(auto, using(crate::proofs::StandingLaws::too_deep, crate::proofs::StandingLaws::goes_deeper, crate::proofs::StandingLaws::reverse_push))]
fn open_group(alloc: Global, standing: &mut FilterProgress) -> Result<bool, NoMemory>
    ensures { IfOk result (λ allowed. StandsAt allowed standing.new
        (inner_place (context standing.old.open_part))) }
{
    if standing.open_part.outer.len() >= DEPTH_LIMIT {
        return Ok(false);
    }
    let ors = take_all(alloc, &mut standing.open_part.ors);
    let ands = take_all(alloc, &mut standing.open_part.ands);
    standing.open_part.outer.push(OuterPart { ors, ands })?;
    standing.place = FilterPlace::FactorDue;
    Ok(true)
}

// The parts, of which none is left there.
fn take_all(alloc: Global, parts: &mut Many<Predicate>) -> Many<Predicate>
    ensures all { result ≡ parts.old }
    ensures none { parts.new ≡ [] }
{
    mem::replace(parts, Many(Vec::new(alloc)))
}

fn take_local(
    alloc: Global,
    standing: &mut FilterProgress,
    raw: RawToken<'_>,
) -> Result<bool, NoMemory>
    ensures { IfOk result (λ allowed. StandsAt allowed standing.new
        (follow_local (context standing.old.open_part) (token_of_raw raw.entry))) }
{
    match raw {
        RawToken::Name(prefix, local) => {
            if prefix.is_empty() {
                standing.operand = Operand::Attribute(Text(String::from_str(alloc, local)?));
                standing.place = FilterPlace::EqualsDue;
                Ok(true)
            } else {
                Ok(false)
            }
        }
        _ => Ok(false),
    }
}

fn take_equals(standing: &mut FilterProgress, raw: RawToken<'_>) -> bool
    ensures { StandsAt result standing.new
        (follow_equals (context standing.old.open_part) standing.old.operand
        (token_of_raw raw.entry)) }
{
    match raw {
        RawToken::EqualsSign => {
            standing.place = FilterPlace::LiteralDue;
            true
        }
        _ => false,
    }
}

fn take_literal(
    alloc: Global,
    standing: &mut FilterProgress,
    raw: RawToken<'_>,
) -> Result<bool, NoMemory>
    ensures { IfOk result (λ allowed. StandsAt allowed standing.new
        (follow_literal (context standing.old.open_part) standing.old.operand
        (token_of_raw raw.entry))) }
{
    match raw {
        RawToken::Literal(value) => {
            let value = Text(String::from_str(alloc, value)?);
            let none = Operand::Attribute(Text::new(alloc));
            let operand = mem::replace(&mut standing.operand, none);
            let factor = comparison_of(operand, value);
            standing.open_part.ands.push(factor)?;
            standing.place = FilterPlace::FactorDone;
            Ok(true)
        }
        _ => Ok(false),
    }
}

fn comparison_of(operand: Operand, value: Text) -> Predicate
    ensures { result ≡ comparison_of operand value }
{
    match operand {
        Operand::Attribute(local) => Predicate::Attr { local, value },
        Operand::Child(name) => Predicate::Child { name, value },
    }
}

fn take_done(
    alloc: Global,
    standing: &mut FilterProgress,
    raw: RawToken<'_>,
) -> Result<bool, NoMemory>
    ensures { IfOk result (λ allowed. StandsAt allowed standing.new
        (follow_done (context standing.old.open_part) (token_of_raw raw.entry))) }
{
    match raw {
        RawToken::Name(prefix, local) => take_joining(alloc, standing, prefix, local),
        RawToken::CloseParenthesis => close_group(alloc, standing),
        RawToken::CloseBracket => close_test(alloc, standing),
        _ => Ok(false),
    }
}

// After a name that joins: `and`, or `or`, with which the next part begins.
fn take_joining(
    alloc: Global,
    standing: &mut FilterProgress,
    prefix: &str,
    local: &str,
) -> Result<bool, NoMemory>
    ensures { IfOk result (λ allowed. StandsAt allowed standing.new
        (follow_joining (context standing.old.open_part) (qualified_of prefix.now local.now))) }
{
    if is_word("and", prefix, local) {
        standing.place = FilterPlace::FactorDue;
        return Ok(true);
    }
    if is_word("or", prefix, local) {
        let open_part = &mut standing.open_part;
        next_part(alloc, &mut open_part.ors, &mut open_part.ands)?;
        standing.place = FilterPlace::FactorDue;
        return Ok(true);
    }
    Ok(false)
}

// Puts the factors after the and-parts that are done, as one of these.
fn next_part(
    alloc: Global,
    ors: &mut Many<Predicate>,
    ands: &mut Many<Predicate>,
) -> Result<(), NoMemory>
    ensures done { OnOk result (ors.new ≡ ors.old ++ join_parts And ands.old ∷ []) }
    ensures none { OnOk result (ands.new ≡ []) }
{
    ors.push(all_of(alloc, ands))?;
    Ok(())
}

// After a closing parenthesis: not allowed where none is open.
fn close_group(alloc: Global, standing: &mut FilterProgress) -> Result<bool, NoMemory>
    ensures { IfOk result (λ allowed. StandsAt allowed standing.new
        (follow_done (context standing.old.open_part) CloseParenthesis)) }
{
    let open_part = &mut standing.open_part;
    let Some(outer_part) = open_part.outer.pop() else {
        return Ok(false);
    };
    let part = close_part(alloc, &mut open_part.ors, &mut open_part.ands)?;
    let OuterPart { ors, mut ands } = outer_part;
    ands.push(part)?;
    open_part.ors = ors;
    open_part.ands = ands;
    standing.place = FilterPlace::FactorDone;
    Ok(true)
}

// After a closing bracket: not allowed where parentheses are open.
fn close_test(alloc: Global, standing: &mut FilterProgress) -> Result<bool, NoMemory>
    ensures { IfOk result (λ allowed. StandsAt allowed standing.new
        (follow_done (context standing.old.open_part) CloseBracket)) }
{
    if !standing.open_part.outer.0.is_empty() {
        return Ok(false);
    }
    let open_part = &mut standing.open_part;
    let predicate = close_part(alloc, &mut open_part.ors, &mut open_part.ands)?;
    push_test(open_part, Some(predicate))?;
    standing.place = FilterPlace::Tested;
    Ok(true)
}

// The predicate of an or-part, by its and-parts that are done and the factors of the last. What was
// in the lists is in it.
#[tactic(auto, using(crate::proofs::StandingLaws::more_than_one))]
fn close_part(
    alloc: Global,
    ors: &mut Many<Predicate>,
    ands: &mut Many<Predicate>,
) -> Result<Predicate, NoMemory>
    ensures { IfOk result (λ part. part ≡ done_part ors.old ands.old) }
{
    let last = all_of(alloc, ands);
    if ors.is_empty() {
        return Ok(last);
    }
    ors.push(last)?;
    Ok(Predicate::Or(take_all(alloc, ors)))
}

// One part alone is that part. None is left in the list.
#[tactic(auto, using(crate::proofs::StandingLaws::not_single))]
fn all_of(alloc: Global, parts: &mut Many<Predicate>) -> Predicate
    ensures all { result ≡ join_parts And parts.old }
    ensures none { parts.new ≡ [] }
{
    match only_part(parts) {
        Some(part) => part,
        None => Predicate::And(take_all(alloc, parts)),
    }
}

// Takes out the only part; none where there are others or there is none.
#[tactic(auto, using(crate::proofs::StandingLaws::many_not_single))]
fn only_part(parts: &mut Many<Predicate>) -> Option<Predicate>
    ensures one { IfSome result (λ part. (parts.old ≡ part ∷ []) × (parts.new ≡ [])) }
    ensures others { IfNone result ((parts.new ≡ parts.old) × IsNotSingle parts.old) }
{
    if parts.len() != 1 {
        return None;
    }
    parts.pop()
}

// The filter, where the text may end here.
pub(crate) fn filter_at(alloc: Global, standing: FilterProgress) -> Result<Option<Filter>, NoMemory>
    ensures { IfOk result (λ o. o ≡ filter_at (filter_state standing)) }
{
    let FilterProgress {
        place,
        mut open_part,
        operand: _,
    } = standing;
    match place {
        FilterPlace::Start => Ok(Some(Filter {
            tests: Many(Vec::new(alloc)),
        })),
        FilterPlace::Named => {
            push_test(&mut open_part, None)?;
            Ok(Some(Filter {
                tests: open_part.tests,
            }))
        }
        FilterPlace::Tested => Ok(Some(Filter {
            tests: open_part.tests,
        })),
        _ => Ok(None),
    }
}
