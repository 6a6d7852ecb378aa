//! What each token makes of what has been read of a filter.
ghost use Rattle.std.specs.Prelude.{◌≡◌, ◌+◌, ◌-◌, ◌^◌, ◌<◌, false, Some, None, option_map, IfOk};
ghost use Rattle.odata_filter.specs.FilterTokens.{part_of};
ghost use Rattle.odata_filter.specs.FilterLiterals.{unquoted};
ghost use Rattle.odata_filter.specs.TopicMembers.{member_named};
ghost use Rattle.odata_filter.specs.FilterLexemes.{word_of, quoted_of, lexeme_at, lexeme_of};
ghost use Rattle.odata_filter.specs.FilterGrammar.{null_test, value_test, word_test, text_test, literal_test, searched_named, search_test};
ghost use Rattle.odata_filter.specs.inner.FilterSteps.{reading, tested, operand_word, at_operand, at_operator, at_literal, at_search_open, at_search_member, at_search_comma, at_search_text, at_search_close, joint_word, at_joint, step};

use crate::comparison::Comparison;
use crate::filter_levels::{tested, with_group, with_not, with_or, without_group};
use crate::filter_literals::{date_in, number_in, unquoted};
use crate::filter_state::{Expected, Levels, Reading, Searched};
use crate::filter_tokens::{Token, TokenKind, part_of};
use crate::topic_members::{Member, TextMember};
use crate::topic_test::TopicTest;
use bim_model::Bytes;
use std::alloc::{AllocError, Global};

fn null_test(member: Member, comparison: Comparison) -> Option<TopicTest>
    ensures { result ≡ null_test member comparison }
{
    match comparison {
        Comparison::Equal => Some(TopicTest::Absent(member)),
        Comparison::NotEqual => Some(TopicTest::Present(member)),
        _ => None,
    }
}

fn value_test(word: &[u8], member: Member, comparison: Comparison) -> Option<TopicTest>
    ensures { result ≡ value_test word.now member comparison }
{
    match member {
        Member::OfText(_) => None,
        Member::Index => match number_in(word) {
            Some(number) => Some(TopicTest::Number(comparison, number)),
            None => None,
        },
        Member::OfDate(date) => match date_in(word) {
            Some(moment) => Some(TopicTest::Date(date, comparison, moment)),
            None => None,
        },
    }
}

fn word_test(word: &[u8], member: Member, comparison: Comparison) -> Option<TopicTest>
    ensures { result ≡ word_test word.now member comparison }
{
    if word == "null".as_bytes() {
        null_test(member, comparison)
    } else {
        value_test(word, member, comparison)
    }
}

fn text_test(literal: Bytes, member: Member, comparison: Comparison) -> Option<TopicTest>
    ensures { result ≡ text_test literal member comparison }
{
    match member {
        Member::OfText(text) => Some(TopicTest::Text(text, comparison, literal)),
        _ => None,
    }
}

/// The bytes of a token.
pub fn word_of<'t>(text: &'t [u8], token: Token) -> &'t [u8]
    ensures { result.now ≡ word_of text.now token }
{
    part_of(text, token.at, token.end)
}

// The text that a token in apostrophes stands for.
fn quoted_of(alloc: Global, text: &[u8], token: Token) -> Result<Bytes, AllocError>
    requires { token.at + 1 < 2 ^ 64 }
    ensures { IfOk result (λ made. made ≡ quoted_of text.now token) }
{
    let inside = part_of(text, token.at + 1, token.end.saturating_sub(1));
    unquoted(alloc, inside)
}

fn literal_test(
    alloc: Global,
    text: &[u8],
    token: Token,
    member: Member,
    comparison: Comparison,
) -> Result<Option<TopicTest>, AllocError>
    requires { token.at + 1 < 2 ^ 64 }
    ensures { IfOk result (λ found. found ≡ literal_test member comparison (lexeme_of text.now token)) }
{
    match token.kind {
        TokenKind::Word => Ok(word_test(word_of(text, token), member, comparison)),
        TokenKind::Quoted => Ok(text_test(quoted_of(alloc, text, token)?, member, comparison)),
        _ => Ok(None),
    }
}

fn search_test(searched: Searched, literal: Bytes) -> TopicTest
    ensures { result ≡ search_test searched literal }
{
    match searched {
        Searched::InLabels => TopicTest::Labelled(literal),
        Searched::InMember(member) => TopicTest::Contains(member, literal),
    }
}

fn searched_named(name: &[u8]) -> Option<Searched>
    ensures { result ≡ searched_named name.now }
{
    if name == "labels".as_bytes() {
        return Some(Searched::InLabels);
    }
    match TextMember::named(name) {
        Some(member) => Some(Searched::InMember(member)),
        None => None,
    }
}

fn operand_word(levels: Levels, word: &[u8]) -> Option<Reading>
    ensures { result ≡ operand_word levels word.now (member_named word.now) }
{
    match Member::named(word) {
        Some(member) => Some(Reading {
            expected: Expected::Operator(member),
            levels,
        }),
        None => {
            if word == "not".as_bytes() {
                return with_not(levels);
            }
            if word == "contains".as_bytes() {
                return Some(Reading {
                    expected: Expected::SearchOpen,
                    levels,
                });
            }
            None
        }
    }
}

fn at_operand(levels: Levels, text: &[u8], token: Token) -> Result<Option<Reading>, AllocError>
    ensures { IfOk result (λ next. next ≡ at_operand levels (lexeme_of text.now token)) }
{
    match token.kind {
        TokenKind::Word => Ok(operand_word(levels, word_of(text, token))),
        TokenKind::Open => with_group(levels),
        _ => Ok(None),
    }
}

fn at_operator(levels: Levels, text: &[u8], token: Token, member: Member) -> Option<Reading>
    ensures { result ≡ at_operator levels member (lexeme_of text.now token) }
{
    match token.kind {
        TokenKind::Word => match Comparison::named(word_of(text, token)) {
            Some(comparison) => Some(Reading {
                expected: Expected::Literal(member, comparison),
                levels,
            }),
            None => None,
        },
        _ => None,
    }
}

fn at_literal(
    alloc: Global,
    levels: Levels,
    text: &[u8],
    token: Token,
    member: Member,
    comparison: Comparison,
) -> Result<Option<Reading>, AllocError>
    requires { token.at + 1 < 2 ^ 64 }
    ensures { IfOk result (λ next. next ≡ at_literal levels member comparison (lexeme_of text.now token)) }
{
    match literal_test(alloc, text, token, member, comparison)? {
        Some(test) => Ok(Some(tested(alloc, levels, test)?)),
        None => Ok(None),
    }
}

fn at_search_open(levels: Levels, text: &[u8], token: Token) -> Option<Reading>
    ensures { result ≡ at_search_open levels (lexeme_of text.now token) }
{
    match token.kind {
        TokenKind::Open => Some(Reading {
            expected: Expected::SearchMember,
            levels,
        }),
        _ => None,
    }
}

fn at_search_member(levels: Levels, text: &[u8], token: Token) -> Option<Reading>
    ensures { result ≡ at_search_member levels (lexeme_of text.now token) }
{
    match token.kind {
        TokenKind::Word => match searched_named(word_of(text, token)) {
            Some(searched) => Some(Reading {
                expected: Expected::SearchComma(searched),
                levels,
            }),
            None => None,
        },
        _ => None,
    }
}

fn at_search_comma(levels: Levels, text: &[u8], token: Token, searched: Searched) -> Option<Reading>
    ensures { result ≡ at_search_comma levels searched (lexeme_of text.now token) }
{
    match token.kind {
        TokenKind::Comma => Some(Reading {
            expected: Expected::SearchText(searched),
            levels,
        }),
        _ => None,
    }
}

fn at_search_text(
    alloc: Global,
    levels: Levels,
    text: &[u8],
    token: Token,
    searched: Searched,
) -> Result<Option<Reading>, AllocError>
    requires { token.at + 1 < 2 ^ 64 }
    ensures { IfOk result (λ next. next ≡ at_search_text levels searched (lexeme_of text.now token)) }
{
    match token.kind {
        TokenKind::Quoted => {
            let literal = quoted_of(alloc, text, token)?;
            Ok(Some(Reading {
                expected: Expected::SearchClose(search_test(searched, literal)),
                levels,
            }))
        }
        _ => Ok(None),
    }
}

fn at_search_close(
    alloc: Global,
    levels: Levels,
    text: &[u8],
    token: Token,
    test: TopicTest,
) -> Result<Option<Reading>, AllocError>
    ensures { IfOk result (λ next. next ≡ at_search_close levels test (lexeme_of text.now token)) }
{
    match token.kind {
        TokenKind::Close => Ok(Some(tested(alloc, levels, test)?)),
        _ => Ok(None),
    }
}

fn joint_word(alloc: Global, levels: Levels, word: &[u8]) -> Result<Option<Reading>, AllocError>
    ensures { IfOk result (λ next. next ≡ joint_word levels word.now) }
{
    if word == "and".as_bytes() {
        return Ok(Some(Reading {
            expected: Expected::Operand,
            levels,
        }));
    }
    if word == "or".as_bytes() {
        return with_or(alloc, levels);
    }
    Ok(None)
}

fn at_joint(
    alloc: Global,
    levels: Levels,
    text: &[u8],
    token: Token,
) -> Result<Option<Reading>, AllocError>
    ensures { IfOk result (λ next. next ≡ at_joint levels (lexeme_of text.now token)) }
{
    match token.kind {
        TokenKind::Word => joint_word(alloc, levels, word_of(text, token)),
        TokenKind::Close => without_group(alloc, levels),
        _ => Ok(None),
    }
}

/// What has been read with one more token; none where the token can't come there.
#[tactic(auto, unfolding(crate::specs::inner::FilterSteps::step))]
pub fn step(
    alloc: Global,
    text: &[u8],
    read: Reading,
    token: Token,
) -> Result<Option<Reading>, AllocError>
    requires { token.at + 1 < 2 ^ 64 }
    ensures { IfOk result (λ next. next ≡ step read (lexeme_of text.now token)) }
{
    let Reading { expected, levels } = read;
    match expected {
        Expected::Operand => at_operand(levels, text, token),
        Expected::Operator(member) => Ok(at_operator(levels, text, token, member)),
        Expected::Literal(member, comparison) => {
            at_literal(alloc, levels, text, token, member, comparison)
        }
        Expected::SearchOpen => Ok(at_search_open(levels, text, token)),
        Expected::SearchMember => Ok(at_search_member(levels, text, token)),
        Expected::SearchComma(searched) => Ok(at_search_comma(levels, text, token, searched)),
        Expected::SearchText(searched) => at_search_text(alloc, levels, text, token, searched),
        Expected::SearchClose(test) => at_search_close(alloc, levels, text, token, test),
        Expected::Joint => at_joint(alloc, levels, text, token),
    }
}
