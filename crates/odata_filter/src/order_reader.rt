//! How the text of an order is read.
ghost use Rattle.std.specs.Prelude.{◌≡◌, ◌++◌, ◌∷◌, [], false, Some, None, IfOk};
ghost use Rattle.odata_filter.specs.FilterLexemes.{lexeme_of};
ghost use Rattle.odata_filter.specs.OrderGrammar.{IsOrder};
ghost use Rattle.odata_filter.specs.inner.OrderSteps.{no_order, with_key, with_comma, with_direction, at_name, at_direction, at_next, order_step, order_ended};
ghost use Rattle.odata_filter.specs.Readings.{IsRead};

use crate::filter_error::FilterError;
use crate::filter_steps::word_of;
use crate::filter_tokens::{Token, TokenKind, next_token};
use crate::limits::{MOST_FILTER, MOST_ORDER_NAMES};
use crate::order_state::{OrderExpected, OrderReading};
use crate::topic_members::Member;
use crate::topic_order::{Order, OrderKey};
use bim_model::Items;
use std::alloc::{AllocError, Global};

// One more member to order by.
fn with_key(keys: Items<OrderKey>, member: Member, falls: bool) -> Result<OrderReading, AllocError>
    ensures { IfOk result (λ next. next ≡ with_key keys member falls) }
{
    let mut keys = keys;
    keys.push(OrderKey { member, falls })?;
    Ok(OrderReading {
        expected: OrderExpected::Next,
        keys,
    })
}

// Behind a comma, where one more member may come.
fn with_comma(keys: Items<OrderKey>) -> Option<OrderReading>
    ensures { result ≡ with_comma keys }
{
    if keys.len() < MOST_ORDER_NAMES {
        Some(OrderReading {
            expected: OrderExpected::Name,
            keys,
        })
    } else {
        None
    }
}

fn with_direction(
    keys: Items<OrderKey>,
    member: Member,
    word: &[u8],
) -> Result<Option<OrderReading>, AllocError>
    ensures { IfOk result (λ next. next ≡ with_direction keys member word.now) }
{
    if word == "asc".as_bytes() {
        return Ok(Some(with_key(keys, member, false)?));
    }
    if word == "desc".as_bytes() {
        return Ok(Some(with_key(keys, member, true)?));
    }
    Ok(None)
}

fn at_name(keys: Items<OrderKey>, text: &[u8], token: Token) -> Option<OrderReading>
    ensures { result ≡ at_name keys (lexeme_of text.now token) }
{
    match token.kind {
        TokenKind::Word => match Member::named(word_of(text, token)) {
            Some(member) => Some(OrderReading {
                expected: OrderExpected::Direction(member),
                keys,
            }),
            None => None,
        },
        _ => None,
    }
}

fn at_direction(
    keys: Items<OrderKey>,
    text: &[u8],
    token: Token,
    member: Member,
) -> Result<Option<OrderReading>, AllocError>
    ensures { IfOk result (λ next. next ≡ at_direction keys member (lexeme_of text.now token)) }
{
    match token.kind {
        TokenKind::Word => with_direction(keys, member, word_of(text, token)),
        TokenKind::Comma => Ok(with_comma(with_key(keys, member, false)?.keys)),
        _ => Ok(None),
    }
}

fn at_next(keys: Items<OrderKey>, text: &[u8], token: Token) -> Option<OrderReading>
    ensures { result ≡ at_next keys (lexeme_of text.now token) }
{
    match token.kind {
        TokenKind::Comma => with_comma(keys),
        _ => None,
    }
}

// What has been read with one more token; none where the token can't come there.
#[tactic(auto, unfolding(crate::specs::inner::OrderSteps::order_step))]
fn step(text: &[u8], read: OrderReading, token: Token) -> Result<Option<OrderReading>, AllocError>
    ensures { IfOk result (λ next. next ≡ order_step read (lexeme_of text.now token)) }
{
    let OrderReading { expected, keys } = read;
    match expected {
        OrderExpected::Name => Ok(at_name(keys, text, token)),
        OrderExpected::Direction(member) => at_direction(keys, text, token, member),
        OrderExpected::Next => Ok(at_next(keys, text, token)),
    }
}

// The members at the end of a text, where it may end.
#[tactic(auto, unfolding(crate::specs::inner::OrderSteps::order_ended))]
fn ended(read: OrderReading) -> Result<Option<Items<OrderKey>>, AllocError>
    ensures { IfOk result (λ found. found ≡ order_ended read) }
{
    let OrderReading { expected, keys } = read;
    match expected {
        OrderExpected::Name => Ok(None),
        OrderExpected::Direction(member) => Ok(Some(with_key(keys, member, false)?.keys)),
        OrderExpected::Next => Ok(Some(keys)),
    }
}

impl Order {
    /// The order that a text spells. `Bad` has the place where the text goes on as no order does.
    pub fn read(alloc: Global, text: &[u8]) -> Result<Order, FilterError>
        ensures { IsRead IsOrder text.now result }
    {
        if text.len() > MOST_FILTER {
            return Err(FilterError::Bad {
                at: MOST_FILTER as u64,
            });
        }
        let mut read = OrderReading {
            expected: OrderExpected::Name,
            keys: Items::new(alloc),
        };
        let mut at = 0;
        while let Some(token) = next_token(text, at) {
            match step(text, read, token)? {
                Some(next) => read = next,
                None => return Err(FilterError::Bad {
                    at: token.at as u64,
                }),
            }
            at = token.end;
        }
        match ended(read)? {
            Some(keys) => Ok(Order::by(keys)),
            None => Err(FilterError::Bad {
                at: text.len() as u64,
            }),
        }
    }
}
